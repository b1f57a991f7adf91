//! Messages as `dig` of BIND 9.18 prints them.
//!
//! `write_dig` prints the header, what the OPT record says, the sections and the signature of a
//! message, each as `dig` does from its line `;; ->>HEADER<<-` on. RDATA prints as `DataText` of
//! `fields_records` has it, which isn't always BIND's text.
//!
//! A line says where a record or question is malformed, and which section has no start. The text is
//! a function of the message's octets. Printing allocates no memory, and fails only if the writer
//! does.
#![tactic(auto)]

mod column;
mod count;
mod duration;
mod end;
mod header;
pub mod laws;
mod line;
mod message;
mod opt;
mod option;
mod question;
mod record;
mod section;
mod signature;
mod subnet;
mod value;
mod word;

pub use message::{MessageDig, print_dig, write_dig};
