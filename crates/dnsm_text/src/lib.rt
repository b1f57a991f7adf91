//! Text of callers: numbers as the words that IANA has registered, and names. Names of messages
//! compared, and as keys and hashes.
//!
//! Nothing is allocated. `dnsm` exports these functions to C.
#![tactic(auto)]

pub mod laws;
pub mod name_compare;
pub mod name_hash;
pub mod name_key;
pub mod names;
pub mod numbers;
pub mod read_numbers;
