//! The messages of a stream, and the steps of zone transfers (RFC 5936, RFC 1995), for callers that
//! own everything: the octets, a cursor, and the state of the transfer.
//!
//! No function requires anything of what it gets, and none allocates. `dnsm` exports these functions
//! to C.
#![tactic(auto)]

pub mod frame;
pub mod laws;
pub mod step;
pub mod transfer;

pub use step::Step;
pub use transfer::Transfer;
