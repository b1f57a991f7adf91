//! Messages as JSON (RFC 8427).
//!
//! `print_json` prints a message as one JSON object without white space: the fields of its header,
//! its counts, its first question, and an array for each section. A record has its RDATA as octets
//! in hexadecimal digits, and as text if its type has a presentation format. Names are as in a zone
//! file (RFC 1035 section 5.1).
//!
//! An array has the entries that can be read. A section that has no start has no array. If an entry
//! can't be read, a section has no start, or octets follow the last record, the object also has all
//! octets of the message.
//!
//! The text is a function of the message's octets. `laws` says that it is JSON (RFC 8259) on one
//! line, whatever the message. Printing allocates no memory, and fails only if the writer does.
#![tactic(auto)]

mod header;
pub mod laws;
mod message;
mod question;
mod readable;
mod record;
mod section;
mod text;

pub use message::{MessageJson, print_json, print_octets_json, write_json};
