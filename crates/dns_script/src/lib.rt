//! Lists of calls on the builders of a message, and the replies to them.
//!
//! After any list of calls on a builder (`run`), the octets are what writing the current header and
//! items once, from scratch, would give. They read back as exactly those, in order. Every
//! compression pointer leads to an earlier label. A failed push changes nothing, and fails only for
//! capacity, memory, limit or count. While all labels are within pointer range, no compression of
//! the names is shorter than that of a compressor (`StaticCompressor`: while fewer than 24 suffixes
//! are in its table). The contract is `Runs` of `specs/Script.antt`; `step` makes one call.
#![tactic(auto)]

pub mod laws;
mod opt_plan;
mod script;
mod stage;

pub use opt_plan::OptPlan;
pub use script::{Call, Reply, Stage, run, step};
