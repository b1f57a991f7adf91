//! Octets in base32 with the extended hexadecimal alphabet and without padding (RFC 4648 section 7,
//! RFC 5155 section 3.3).
ghost use Rattle.std.specs.Prelude.{ℕ, List, ◌≡◌, ◌↔◌, ◌<◌, ◌≤◌, IsTrue, length, true, MatchOption};
ghost use Rattle.std.specs.Char.{to_ascii_uppercase};
ghost use Rattle.std.specs.Fmt.{digit_glyph};
ghost use Rattle.fields_text.specs.Base32Words.{AppendsBase32, IsBase32, IsDigits, IsGroupSize, last_octets};
ghost use Rattle.fields_text.specs.Reading.{HasValue, Reads, ReadsWords};

use crate::append::{failure, push_last};
use crate::text_error::TextError;
use std::alloc::Global;

/// The value of a base32 digit, in either case.
fn digit_value(digit: u8) -> Option<u64>
    ensures { MatchOption result
        ((n : ℕ) → n < 32 → ¬ (to_ascii_uppercase digit ≡ digit_glyph true n))
        (λ n. (n < 32) × (to_ascii_uppercase digit ≡ digit_glyph true n)) }
{
    match digit {
        b'0'..=b'9' => Some(u64::from(digit - b'0')),
        b'A'..=b'V' => Some(u64::from(digit - b'A') + 10),
        b'a'..=b'v' => Some(u64::from(digit - b'a') + 10),
        _ => None,
    }
}

/// The number of at most eight base32 digits.
fn read_digits(digits: &[u8]) -> Option<u64>
    requires { length digits.now ≤ 8 }
    ensures { Reads (IsDigits digits.now) result }
{
    let mut number = 0;
    for digit in digits {
        let Some(value) = digit_value(*digit) else {
            return None;
        };
        number = number * 32 + value;
    }
    Some(number)
}

/// The number of octets that this number of digits represents, and one more than the greatest
/// number of their spare bits.
fn group_size(digits: usize) -> Option<(u8, u64)>
    ensures { MatchOption result
        ((size spare : ℕ) → ¬ (IsGroupSize digits size spare))
        (λ group. IsGroupSize digits group.0 group.1) }
{
    match digits {
        2 => Some((1, 4)),
        4 => Some((2, 16)),
        5 => Some((3, 2)),
        7 => Some((4, 8)),
        8 => Some((5, 1)),
        _ => None,
    }
}

/// How many octets at most eight digits represent, one at least, and the number of these octets.
fn read_group(digits: &[u8]) -> Option<(u8, u64)>
    requires some { 0 < length digits.now }
    requires few { length digits.now ≤ 8 }
    ensures { MatchOption result ((octets : List ℕ) → ¬ (IsBase32 digits.now octets))
        (λ group. IsBase32 digits.now (last_octets group.0 group.1)) }
{
    let Some((size, spare)) = group_size(digits.len()) else {
        return None;
    };
    let Some(number) = read_digits(digits) else {
        return None;
    };
    if number % spare != 0 {
        return None;
    }
    Some((size, number / spare))
}

/// Appends the octets of at most eight digits, one at least.
fn push_group(octets: &mut Vec<u8>, digits: &[u8]) -> Result<(), TextError>
    requires some { 0 < length digits.now }
    requires few { length digits.now ≤ 8 }
    ensures { AppendsBase32 digits.now octets.old.items octets.new.items result }
{
    let Some((size, number)) = read_group(digits) else {
        return Err(TextError::BadWord);
    };
    push_last(octets, size, number)
}

/// Whether the digits represent octets.
fn is_base32(digits: &[u8]) -> bool
    ensures { IsTrue result ↔ HasValue (IsBase32 digits.now) }
{
    if digits.is_empty() {
        return true;
    }
    if digits.len() <= 8 {
        return read_group(digits).is_some();
    }
    let (group, after) = digits.split_at(8);
    match read_group(group) {
        Some(_) => is_base32(after),
        None => false,
    }
}

/// Appends the octets of digits.
fn push_digits(octets: &mut Vec<u8>, digits: &[u8]) -> Result<(), TextError>
    ensures { AppendsBase32 digits.now octets.old.items octets.new.items result }
{
    if digits.is_empty() {
        return Ok(());
    }
    if digits.len() <= 8 {
        return push_group(octets, digits);
    }
    let (group, after) = digits.split_at(8);
    match push_group(octets, group) {
        Ok(()) => push_digits(octets, after),
        Err(_) => Err(failure(is_base32(digits))),
    }
}

/// The octets of base32 digits without padding, in either case.
pub fn read_base32(alloc: Global, word: &str) -> Result<Vec<u8>, TextError>
    ensures { ReadsWords (IsBase32 word.now) result }
{
    let mut octets = Vec::new(alloc);
    match push_digits(&mut octets, word.as_bytes()) {
        Ok(()) => Ok(octets),
        Err(error) => Err(error),
    }
}
