//! Words: what the texts of values are made of. Numbers, hexadecimal, base64, base32, quoted strings,
//! and how a line is split into words.
#![tactic(auto)]

mod append;
mod base32;
mod base32_words;
mod base64_text;
mod base64_words;
mod hex_words;
mod hexadecimal;
mod joined;
pub mod laws;
mod line_words;
mod number;
mod number_word;
mod octets_word;
mod string;
mod string_word;
mod text_error;
mod word;

pub use append::{failure, push_counted, push_last, push_octets, push_read};
pub use base32::{Base32, write_base32};
pub use base32_words::read_base32;
pub use base64_text::{write_base64, write_key};
pub use hex_words::push_hex_words;
pub use hexadecimal::{Hex, write_hex};
pub use joined::{read_base64_words, read_hex_words};
pub use line_words::split_words;
pub use number_word::read_number;
pub use octets_word::{read_base64, read_hex};
pub use string::{Quoted, Tag, write_quoted};
pub use string_word::{push_string, read_string, split_octet};
pub use text_error::TextError;
