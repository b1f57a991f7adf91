//! RDATA and records of zone files, as octets (RFC 1035 section 5.1).
//!
//! These functions allocate. `dnsm` exports them to C.
#![tactic(auto)]

mod data;
pub mod laws;
mod record;
mod words;

pub use data::data_from_text;
pub use record::record_from_text;
