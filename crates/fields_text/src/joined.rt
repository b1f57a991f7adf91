//! Octets in several words (RFC 4034 sections 2.2 and 5.3).
ghost use Rattle.fields_text.specs.JoinedWords.{AreBase64, AreHex};
ghost use Rattle.fields_text.specs.Reading.{ReadsWords};

use crate::append::failure;
use crate::base64_words::are_base64;
use crate::hex_words::are_hex;
use crate::octets_word::{read_base64, read_hex};
use crate::text_error::TextError;
use std::alloc::Global;

/// The octets of base64 with padding. Its digits may be split into several words.
///
/// No words at all are no octets.
pub fn read_base64_words(alloc: Global, words: &[&str]) -> Result<Vec<u8>, TextError>
    ensures { ReadsWords (AreBase64 words.now) result }
{
    if let [word] = words {
        return read_base64(alloc, word);
    }
    match words.concat(alloc) {
        Ok(text) => read_base64(alloc, text.as_str()),
        Err(_) => Err(failure(are_base64(words))),
    }
}

/// The octets of hexadecimal digits, in either case. They may be split into several words.
///
/// No words at all are no octets.
pub fn read_hex_words(alloc: Global, words: &[&str]) -> Result<Vec<u8>, TextError>
    ensures { ReadsWords (AreHex words.now) result }
{
    if let [word] = words {
        return read_hex(alloc, word);
    }
    match words.concat(alloc) {
        Ok(text) => read_hex(alloc, text.as_str()),
        Err(_) => Err(failure(are_hex(words))),
    }
}
