//! RDATA and records as text: printed by the fields of their record type, and read from words.
#![tactic(auto)]

mod data;
mod data_text;
mod extent;
mod field;
mod field_text;
mod fields;
pub mod laws;
mod rdata;
mod record;
mod record_text;
mod unknown;
mod word;
mod words;

pub use data::from_text;
pub use data_text::{DataText, is_printable, write_data_text};
pub use record::read_record;
pub use record_text::{RecordText, write_record_text};
pub use unknown::write_opaque;
