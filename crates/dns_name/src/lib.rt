//! Names in DNS messages: the parser, labels, names in octets and as texts, and their comparisons.
//!
//! `ParsedName::parse` succeeds exactly where a name is encoded, and yields that name (RFC 1035
//! section 4.1.4). Elsewhere it returns the leftmost error. Reading a text yields the name that the
//! text represents (RFC 1035 section 5.1).
#![tactic(auto)]

mod cached_name;
mod cached_reading;
pub mod compare;
mod flatten;
mod head;
mod label;
mod label_iter;
pub mod laws;
pub mod name;
mod name_error;
mod name_octets;
mod name_print;
mod name_text;
mod parsed_name;
mod parser;
mod suffix_iter;
mod to_name;

pub use cached_name::CachedName;
pub use cached_reading::{cached_at, parse_cached};
pub use flatten::FlattenInto;
pub use head::Head;
pub use label::Label;
pub use label_iter::LabelIter;
pub use name::Name;
pub use name_print::{DisplayWithDot, write_dotted_name, write_label, write_name, write_octet};
pub use parsed_name::ParsedName;
pub use parser::Parser;
pub use suffix_iter::SuffixIter;
pub use to_name::ToName;
