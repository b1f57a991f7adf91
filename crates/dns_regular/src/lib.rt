//! Messages that builders write are regular: each compression pointer leads to a label of an earlier
//! name (RFC 1035 section 4.1.4).
//!
//! So whoever receives a message that was built by this library can change it in place, and follows
//! few pointers to read its names: `dns_edit` says what is known of regular messages. This crate has
//! theorems alone, in `laws`.
#![tactic(auto)]

pub mod laws;
