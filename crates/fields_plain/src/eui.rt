//! EUI-48 and EUI-64 addresses (RFC 7043), and 64-bit locators (RFC 6742 section 2.1.2).
ghost use Rattle.std.specs.Prelude.{OnErr, Some, ℕ, List, ◌≡◌, ◌<◌, ◌≤◌, MatchOption, false};
ghost use Rattle.std.specs.List.{flat_map};
ghost use Rattle.dns_print.specs.Printing.{PrintsOnOk};
ghost use Rattle.fields_plain.specs.EuiTexts.{eui_text, hyphen_pair};
ghost use Rattle.std.specs.Char.{to_ascii_lowercase};
ghost use Rattle.std.specs.Fmt.{digit_glyph};
ghost use Rattle.fields_plain.specs.EuiWords.{IsEuiWord, IsPair, SplitsPair};
ghost use Rattle.fields_text.specs.Reading.{Reads, AppendsOctets};

use arrayvec::ArrayVec;
use dns_print::{TextWriter, write_hex_octet};
use fields_text::{TextError, push_octets};
use std::fmt;

/// Octets that print as pairs of lowercase hexadecimal digits, separated by hyphens: an EUI-48 or
/// EUI-64 address.
#[derive(Clone, Copy, Debug)]
pub struct Eui<'a>(pub &'a [u8]);

/// Prints a hyphen and an octet.
#[tactic(auto, using(dns_print::proofs::theory::Prints::prints, std::proofs::lemmas::Grind::common_steps))]
fn write_hyphen_pair<W: TextWriter>(f: &mut W, octet: u8) -> fmt::Result
    ensures text { PrintsOnOk W.takes f.old result (hyphen_pair octet) f.new }
    ensures err { OnErr result W.MayFail }
{
    f.write_text("-")?;
    write_hex_octet(f, false, octet)
}

/// Prints each octet after a hyphen.
#[tactic(auto, using(dns_print::proofs::theory::Prints::prints, std::proofs::lemmas::Grind::common_steps))]
fn write_hyphen_pairs<W: TextWriter>(f: &mut W, octets: &[u8]) -> fmt::Result
    ensures text { PrintsOnOk W.takes f.old result (flat_map hyphen_pair octets.now) f.new }
    ensures err { OnErr result W.MayFail }
{
    for octet in octets {
        write_hyphen_pair(f, *octet)?;
    }
    Ok(())
}

/// Prints octets as pairs of lowercase hexadecimal digits, separated by hyphens (RFC 7043).
#[tactic(auto, using(dns_print::proofs::theory::Prints::prints, std::proofs::lemmas::Grind::common_steps))]
pub fn write_eui<W: TextWriter>(f: &mut W, octets: &[u8]) -> fmt::Result
    ensures text { PrintsOnOk W.takes f.old result (eui_text octets.now) f.new }
    ensures err { OnErr result W.MayFail }
{
    let [first, after @ ..] = octets else {
        return Ok(());
    };
    write_hex_octet(f, false, *first)?;
    write_hyphen_pairs(f, after)
}

impl fmt::Display for Eui<'_> {
    ghost output = { λ eui. Some (eui_text eui.0.now) };

    ghost styled_output = { λ eui _. Some (eui_text eui.0.now) };

    fn fmt<W: fmt::Write>(&self, f: &mut fmt::Formatter<W>) -> fmt::Result {
        write_eui(f, self.0)
    }
}

/// The value of a hexadecimal digit, in either case.
fn digit_value(digit: u8) -> Option<u8>
    ensures { MatchOption result
        ((n : ℕ) → n < 16 → ¬ (to_ascii_lowercase digit ≡ digit_glyph false n))
        (λ n. (n < 16) × (to_ascii_lowercase digit ≡ digit_glyph false n)) }
{
    match digit {
        b'0'..=b'9' => Some(digit - b'0'),
        b'A'..=b'F' => Some(digit - b'A' + 10),
        b'a'..=b'f' => Some(digit - b'a' + 10),
        _ => None,
    }
}

/// The octet of two hexadecimal digits, in either case.
fn read_pair(high: u8, low: u8) -> Option<u8>
    ensures { Reads (IsPair high low) result }
{
    let high = digit_value(high)?;
    let low = digit_value(low)?;
    Some(high * 16 + low)
}

/// The octet of a hyphen and two digits at the start of a text, and the text after them.
fn split_pair(text: &[u8]) -> Option<(u8, &[u8])>
    ensures { SplitsPair text.now result }
{
    let [b'-', high, low, after @ ..] = text else {
        return None;
    };
    let octet = read_pair(*high, *low)?;
    Some((octet, after))
}

/// An address of `size` octets: pairs of hexadecimal digits in either case, separated by hyphens.
fn read_eui(word: &[u8], size: usize) -> Option<ArrayVec<u8, 8>>
    requires some { 0 < size }
    requires fits { size ≤ 8 }
    ensures { MatchOption result ((octets : List ℕ) → ¬ (IsEuiWord size word.now octets))
        (λ octets. IsEuiWord size word.now octets.items) }
{
    let [high, low, after @ ..] = word else {
        return None;
    };
    let first = read_pair(*high, *low)?;
    let mut octets = ArrayVec::new();
    octets.push(first);
    let mut left = after;
    'pairs: while octets.len() < size {
        let (octet, after) = split_pair(left)?;
        octets.push(octet);
        left = after;
    }
    if left.is_empty() { Some(octets) } else { None }
}

/// An EUI-48 address: six pairs of hexadecimal digits in either case, separated by hyphens.
pub fn read_eui48(word: &[u8]) -> Option<[u8; 6]>
    ensures { Reads (IsEuiWord 6 word.now) result }
{
    let octets = read_eui(word, 6)?;
    match <[u8; 6]>::try_from(octets.as_slice()) {
        Ok(address) => Some(address),
        Err(_) => None,
    }
}

/// An EUI-64 address: eight pairs of hexadecimal digits in either case, separated by hyphens.
pub fn read_eui64(word: &[u8]) -> Option<[u8; 8]>
    ensures { Reads (IsEuiWord 8 word.now) result }
{
    let octets = read_eui(word, 8)?;
    match <[u8; 8]>::try_from(octets.as_slice()) {
        Ok(address) => Some(address),
        Err(_) => None,
    }
}

/// Appends an EUI-48 address.
pub fn push_eui48(octets: &mut Vec<u8>, word: &str) -> Result<(), TextError>
    ensures { AppendsOctets (IsEuiWord 6 word.now) octets.old.items octets.new.items result }
{
    match read_eui48(word.as_bytes()) {
        Some(address) => push_octets(octets, &address),
        None => Err(TextError::BadWord),
    }
}

/// Appends an EUI-64 address.
pub fn push_eui64(octets: &mut Vec<u8>, word: &str) -> Result<(), TextError>
    ensures { AppendsOctets (IsEuiWord 8 word.now) octets.old.items octets.new.items result }
{
    match read_eui64(word.as_bytes()) {
        Some(address) => push_octets(octets, &address),
        None => Err(TextError::BadWord),
    }
}
