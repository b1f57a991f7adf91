//! Records as people write them in zone files: with an origin, with what is left out, and with names
//! for numbers (RFC 1035 section 5.1, RFC 2308 section 4).
//!
//! A line is completed first: each word that stands for another is replaced by it. The completed words
//! are read as `fields_records::read_record` reads them.
#![tactic(auto)]

mod blank;
mod defaults;
mod duration;
mod field_words;
mod head;
pub mod laws;
mod line;
mod line_error;
mod mnemonics;
mod name_word;
mod problem;
mod way;
mod word;

pub use blank::begins_with_owner;
pub use defaults::Defaults;
pub use duration::read_duration;
pub use line::read_line;
pub use line_error::{LineError, WordReason};
