//! List values, each from its octets to text and back: character strings, type bit maps and address
//! prefixes.
#![tactic(auto)]

pub mod laws;
mod prefix;
mod prefix_words;
mod prefixes;
mod small_type_map_words;
mod strings;
mod type_map;
mod type_map_words;
mod types;

pub use prefix::{PrefixText, are_printable, write_prefix, write_prefixes};
pub use prefix_words::read_prefixes;
pub use prefixes::{AddressPrefix, AddressPrefixes, are_prefixes};
pub use small_type_map_words::read_small_type_map;
pub use strings::{Strings, are_strings, write_strings};
pub use type_map::{SmallTypeMap, TypeMap, is_type_map, write_type_map};
pub use type_map_words::{push_type_map, read_type_map};
pub use types::Types;
