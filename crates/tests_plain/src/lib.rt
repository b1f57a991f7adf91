//! The definitions of what octets hold, computed (RFC 1035 section 4.1): a name at an offset, the
//! entries of a section, or what is wrong with them; and the octets of names, items and messages,
//! with names compressed by each rule.
//!
//! Each function is written as its definition reads, and has the definition as its contract. It
//! calls no parser, target or builder, so tests can compare the library with it. Nothing else uses
//! this crate.
#![tactic(auto)]

mod reading;
mod writing;

pub use reading::{
    EntryKind, Items, PlainEntry, PlainName, entries, entry_at, entry_end, name_at, name_end,
    section_start,
};
pub use writing::{PlainItem, PlainMessage, PlainPart, PlainRule, PlainTarget, encode};
