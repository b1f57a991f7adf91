//! Makes whole messages: a query, with or without an OPT record, a response with an address, and a
//! message of the items that a caller lists.
//!
//! Only `build` allocates. It takes names as text, writes the shortest message, and gives all of it
//! or nothing. A draft of `dnsm_put` takes names in wire format, item by item, without allocation:
//! it takes less time, keeps within a limit, and lets the caller leave out what is too long.
//! `dnsm` exports these functions to C.
#![tactic(auto)]

pub mod build;
mod last_name;
pub mod laws;
pub mod make;
mod new_data;
pub mod query_opt;
mod target;

pub use build::NewItem;
pub use target::Target;
