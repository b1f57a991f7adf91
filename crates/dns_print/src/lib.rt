//! Writers of text, and values printed to them.
//!
//! What is printed here is the same under any options of a formatter, as a width or `#`. A function
//! that prints to any writer fails only if the writer does, except `write_value`: the `Display` of
//! its value may fail by itself.
#![tactic(auto)]

mod octet;
mod octets;
mod value;
mod writer;

pub use octet::{write_decimal, write_hex, write_hex_digit, write_hex_octet};
pub use octets::{OctetText, write_ascii, write_octets};
pub use value::{write_ipv4, write_number, write_value};
pub use writer::TextWriter;
