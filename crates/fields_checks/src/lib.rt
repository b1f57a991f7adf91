//! Values that an RFC rules out in RDATA whose octets are well-formed.
#![tactic(auto)]

mod check;
mod check_error;
mod digest;
pub mod laws;
mod service;

pub use check::check_values;
pub use check_error::{CheckError, ValueReason};
