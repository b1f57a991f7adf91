//! Reads messages for callers that own everything: the message, a cursor, and each buffer.
//!
//! Nothing is kept between two calls, and no function requires anything of what it gets: each one is
//! total, whatever a cursor or an item holds. Nothing is allocated. `dnsm` exports these functions to
//! C.
#![tactic(auto)]

pub mod address;
pub mod answers;
pub mod asked;
pub mod data_fields;
pub mod data_name;
pub mod data_octets;
pub mod data_text;
mod field_offsets;
pub mod find_opt;
pub mod laws;
mod name_offsets;
pub mod name_text;
pub mod next_field;
pub mod octets;
pub mod opts;
pub mod sections;
pub mod walk;

pub use find_opt::FoundOpt;
pub use next_field::DataField;
pub use opts::{Opt, OptOption};
pub use walk::{Cursor, Header, Item};
