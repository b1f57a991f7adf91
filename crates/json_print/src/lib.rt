//! JSON texts (RFC 8259), printed to any writer of text.
//!
//! What is printed is the text of a value of the grammar in the crate `json`, without white space.
//! `laws` says that reading it by this grammar gives the value back. Printing allocates no memory,
//! and fails only if the writer does.
//!
//! An object or array is printed in pieces: the calls of a caller's contract are the members or
//! items, in order.
#![tactic(auto)]

mod escaped;
mod item;
pub mod laws;
mod member;
mod printed;
mod string;

pub use item::write_comma_if;
pub use member::{
    begin_object, write_boolean_member, write_member_name, write_number_member, write_string_member,
};
pub use printed::PrintText;
pub use string::write_string;
