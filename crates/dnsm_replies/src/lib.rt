//! Replies: what one says of a query, whether a message is regular, its least TTL, where it ends, and
//! its TTLs lowered.
//!
//! No function requires anything of what it gets. Nothing is allocated. `dnsm` exports these functions
//! to C.
#![tactic(auto)]

pub mod age;
pub mod laws;
pub mod reply;
mod saying;
pub mod whole;

pub use saying::Saying;
