//! Locators and node identifiers of 64 bits (RFC 6742 section 2.1.2).
ghost use Rattle.std.specs.Net.Grammar.{IsGroup};
ghost use Rattle.fields_plain.specs.LocatorWords.{IsLocatorWord, SplitsGroup, locator_text};
ghost use Rattle.fields_text.specs.Reading.{Reads, AppendsOctets};
ghost use Rattle.std.specs.Prelude.{OnErr, Some, ◌≤◌, length};
ghost use Rattle.dns_print.specs.Printing.{PrintsOnOk};

use dns_print::{TextWriter, write_hex_octet};
use fields_text::{TextError, push_octets};
use std::fmt;

/// The number of one to four hexadecimal digits, in either case.
fn read_group(word: &str) -> Option<u16>
    ensures { Reads (IsGroup word.now) result }
{
    if word.len() > 4 || word.starts_with('+') {
        return None;
    }
    u16::from_str_radix(word, 16).ok()
}

/// The number before the first colon, and the text after it.
fn split_group(text: &str) -> Option<(u16, &str)>
    ensures { SplitsGroup text.now result }
{
    let (group, after) = text.split_once(':')?;
    let number = read_group(group)?;
    Some((number, after))
}

/// A locator or a node identifier: four numbers of one to four hexadecimal digits, separated by
/// colons.
pub fn read_locator(word: &str) -> Option<[u8; 8]>
    ensures { Reads (IsLocatorWord word.now) result }
{
    let (a, after) = split_group(word)?;
    let (b, after) = split_group(after)?;
    let (c, after) = split_group(after)?;
    let d = read_group(after)?;
    Some([
        (a / 256) as u8,
        (a % 256) as u8,
        (b / 256) as u8,
        (b % 256) as u8,
        (c / 256) as u8,
        (c % 256) as u8,
        (d / 256) as u8,
        (d % 256) as u8,
    ])
}

/// A locator or node identifier of 64 bits. It prints as four hexadecimal numbers of four digits,
/// separated by colons.
#[derive(Clone, Copy, Debug)]
pub struct Locator64(pub [u8; 8]);

/// Prints two octets as four hexadecimal digits. Prints nothing of fewer.
#[tactic(auto, using(dns_print::proofs::theory::Prints::prints, std::proofs::lemmas::Grind::common_steps))]
fn write_group<W: TextWriter>(f: &mut W, octets: &[u8]) -> fmt::Result
    requires { length octets.now ≤ 2 }
    ensures text { PrintsOnOk W.takes f.old result (locator_text octets.now) f.new }
    ensures err { OnErr result W.MayFail }
{
    match octets {
        [high, low] => {
            write_hex_octet(f, false, *high)?;
            write_hex_octet(f, false, *low)
        }
        _ => Ok(()),
    }
}

/// Prints octets as hexadecimal numbers of four digits, separated by colons (RFC 6742 section 2.1.2).
/// Prints nothing of a last octet alone.
#[tactic(auto, using(dns_print::proofs::theory::Prints::prints, std::proofs::lemmas::Grind::common_steps))]
pub fn write_locator<W: TextWriter>(f: &mut W, octets: &[u8]) -> fmt::Result
    ensures text { PrintsOnOk W.takes f.old result (locator_text octets.now) f.new }
    ensures err { OnErr result W.MayFail }
{
    let mut left = octets;
    'groups: while left.len() > 2 {
        let (group, after) = left.split_at(2);
        write_group(f, group)?;
        f.write_text(":")?;
        left = after;
    }
    write_group(f, left)
}

impl fmt::Display for Locator64 {
    ghost output = { λ locator. Some (locator_text locator.0) };

    ghost styled_output = { λ locator _. Some (locator_text locator.0) };

    fn fmt<W: fmt::Write>(&self, f: &mut fmt::Formatter<W>) -> fmt::Result {
        write_locator(f, &self.0)
    }
}

/// Appends a locator or a node identifier.
pub fn push_locator(octets: &mut Vec<u8>, word: &str) -> Result<(), TextError>
    ensures { AppendsOctets (IsLocatorWord word.now) octets.old.items octets.new.items result }
{
    match read_locator(word) {
        Some(locator) => push_octets(octets, &locator),
        None => Err(TextError::BadWord),
    }
}
