//! Octets in hexadecimal and base64 (RFC 4648 sections 8 and 4).
ghost use Rattle.std.specs.Prelude.{◌≡◌, ◌<◌, ◌≤◌, ◌↔◌, ℕ, List, length, IsTrue, MatchOption};
ghost use Rattle.std.specs.Char.{is_ascii_hexdigit};
ghost use Rattle.std.specs.List.{list_all};
ghost use Rattle.fields_text.specs.Octets.{IsBase64, IsHex};
ghost use Rattle.fields_text.specs.ReadOctets.{ReadsOctets, RepresentsCount, RepresentsSome, TakesMemory};

use crate::text_error::TextError;
use base64::DecodeAllocError;
use base64::engine::general_purpose::STANDARD;
use hex::FromHexError;
use std::alloc::Global;

fn are_hex_digits(word: &[u8]) -> bool
    ensures { result ≡ list_all is_ascii_hexdigit word.now }
{
    word.iter().all(|octet| octet.is_ascii_hexdigit())
}

/// The octets of hexadecimal digits, two for each octet, in either case.
pub fn read_hex(alloc: Global, word: &str) -> Result<Vec<u8>, TextError>
    ensures reads { ReadsOctets (IsHex word.now) result }
    ensures full { result ≡ Err TextError.OutOfMemory → TakesMemory (IsHex word.now) }
{
    if word.is_empty() {
        return Ok(Vec::new(alloc));
    }
    match hex::decode(alloc, word) {
        Ok(octets) => Ok(octets),
        Err(FromHexError::OutOfMemory) => {
            if are_hex_digits(word.as_bytes()) {
                Err(TextError::OutOfMemory)
            } else {
                Err(TextError::BadWord)
            }
        }
        Err(_) => Err(TextError::BadWord),
    }
}

/// The number of octets that at most four characters of base64 represent. `None` if they represent
/// none. Nothing is allocated.
fn octet_count(characters: &[u8]) -> Option<usize>
    requires { length characters.now ≤ 4 }
    ensures { MatchOption result ((octets : List ℕ) → ¬ IsBase64 characters.now octets)
        (RepresentsCount (IsBase64 characters.now)) }
{
    let mut octets = [0; 3];
    STANDARD.decode_slice(characters, &mut octets).ok()
}

/// Whether a word that isn't empty is base64 with padding. Nothing is allocated.
fn is_base64(word: &[u8]) -> bool
    requires { 0 < length word.now }
    ensures { IsTrue result ↔ RepresentsSome (IsBase64 word.now) }
{
    let mut left = word;
    'groups: while left.len() > 4 {
        let (first, rest) = left.split_at(4);
        if octet_count(first).unwrap_or(0) != 3 {
            return false;
        }
        left = rest;
    }
    octet_count(left).is_some()
}

/// The octets of base64 with padding.
pub fn read_base64(alloc: Global, word: &str) -> Result<Vec<u8>, TextError>
    ensures reads { ReadsOctets (IsBase64 word.now) result }
    ensures full { result ≡ Err TextError.OutOfMemory → TakesMemory (IsBase64 word.now) }
{
    if word.is_empty() {
        return Ok(Vec::new(alloc));
    }
    match STANDARD.decode(alloc, word.as_bytes()) {
        Ok(octets) => Ok(octets),
        Err(DecodeAllocError::OutOfMemory) => {
            if is_base64(word.as_bytes()) {
                Err(TextError::OutOfMemory)
            } else {
                Err(TextError::BadWord)
            }
        }
        Err(DecodeAllocError::DecodeError(_)) => Err(TextError::BadWord),
    }
}
