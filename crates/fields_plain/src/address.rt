//! Addresses of IPv6 as std prints them (RFC 5952).
ghost use Rattle.std.specs.Prelude.{OnErr, ◌≡◌, ◌+◌, ◌≤◌, ◌++◌, codes, length};
ghost use Rattle.std.specs.Net.Addr.{ipv6_segments};
ghost use Rattle.std.specs.Net.Text.{groups_text, hex, hex_groups_text, ipv6_text, longest_zero_run};
ghost use Rattle.dns_print.specs.Printing.{PrintsOnOk};
ghost use Rattle.std.specs.Net.Grammar.{IsDotted};
ghost use Rattle.fields_plain.specs.Addresses.{IsIpv6Word};
ghost use Rattle.fields_text.specs.Reading.{Reads, AppendsOctets};

use dns_print::{TextWriter, write_hex_digit, write_ipv4};
use fields_text::{TextError, push_octets};
use std::fmt;
use std::net::{Ipv4Addr, Ipv6Addr};

/// Prints a segment of an IPv6 address in hexadecimal digits, without leading zeros.
#[tactic(auto, using(dns_print::proofs::theory::Prints::prints, crate::proofs::AddressTexts::hex_last, crate::proofs::AddressTexts::hex_more))]
fn write_segment<W: TextWriter>(f: &mut W, segment: u16) -> fmt::Result
    ensures text { PrintsOnOk W.takes f.old result (hex segment) f.new }
    ensures err { OnErr result W.MayFail }
{
    if segment < 16 {
        return write_hex_digit(f, false, segment as u8);
    }
    write_segment(f, segment / 16)?;
    write_hex_digit(f, false, (segment % 16) as u8)
}

/// Prints a segment after a colon.
#[tactic(auto, using(dns_print::proofs::theory::Prints::prints, std::proofs::lemmas::Grind::common_steps))]
fn write_next_segment<W: TextWriter>(f: &mut W, segment: u16) -> fmt::Result
    ensures text { PrintsOnOk W.takes f.old result (codes ":" ++ hex segment) f.new }
    ensures err { OnErr result W.MayFail }
{
    f.write_text(":")?;
    write_segment(f, segment)
}

/// Prints segments, with colons between them.
#[tactic(auto, using(dns_print::proofs::theory::Prints::prints, std::proofs::lemmas::Grind::common_steps))]
fn write_groups<W: TextWriter>(f: &mut W, segments: &[u16]) -> fmt::Result
    ensures text { PrintsOnOk W.takes f.old result (groups_text segments.now) f.new }
    ensures err { OnErr result W.MayFail }
{
    let [first, after @ ..] = segments else {
        return Ok(());
    };
    write_segment(f, *first)?;
    for segment in after {
        write_next_segment(f, *segment)?;
    }
    Ok(())
}

/// The start and the length of the longest run of zeros, and of two such runs the first.
fn longest_zero_run(segments: &[u16]) -> (usize, usize)
    ensures value { result ≡ longest_zero_run segments.now }
    ensures within { result.0 + result.1 ≤ length segments.now }
{
    let mut start = segments.len();
    let mut len = 0;
    let mut run = 0;
    for i in (0..segments.len()).rev() {
        run = if segments[i] == 0 { run + 1 } else { 0 };
        if run >= len {
            start = i;
            len = run;
        }
    }
    (start, len)
}

/// Prints segments with colons between them, and `::` in place of the longest run of zeros if it has
/// two or more.
#[tactic(auto, using(dns_print::proofs::theory::Prints::prints, std::proofs::lemmas::Grind::common_steps), unfolding(std::specs::Net::Text::hex_groups_text))]
fn write_segments<W: TextWriter>(f: &mut W, segments: &[u16]) -> fmt::Result
    ensures text { PrintsOnOk W.takes f.old result (hex_groups_text segments.now) f.new }
    ensures err { OnErr result W.MayFail }
{
    let (start, len) = longest_zero_run(segments);
    if len < 2 {
        return write_groups(f, segments);
    }
    write_groups(f, &segments[..start])?;
    f.write_text("::")?;
    write_groups(f, &segments[start + len..])
}

/// Prints an IPv6 address. An IPv4-mapped one ends in the IPv4 address.
pub fn write_ipv6<W: TextWriter>(f: &mut W, address: Ipv6Addr) -> fmt::Result
    ensures text { PrintsOnOk W.takes f.old result (ipv6_text (ipv6_segments address)) f.new }
    ensures err { OnErr result W.MayFail }
{
    match address.to_ipv4_mapped() {
        Some(ipv4) => {
            f.write_text("::ffff:")?;
            write_ipv4(f, ipv4.octets())
        }
        None => write_segments(f, &address.segments()),
    }
}

/// The octets of an IPv4 address: four decimal numbers, separated by dots.
pub fn read_ipv4(word: &[u8]) -> Option<[u8; 4]>
    ensures { Reads (IsDotted word.now) result }
{
    match Ipv4Addr::parse_ascii(word) {
        Ok(address) => Some(address.octets()),
        Err(_) => None,
    }
}

/// The octets of an IPv6 address.
pub fn read_ipv6(word: &[u8]) -> Option<[u8; 16]>
    ensures { Reads (IsIpv6Word word.now) result }
{
    match Ipv6Addr::parse_ascii(word) {
        Ok(address) => Some(address.octets()),
        Err(_) => None,
    }
}

/// Appends an IPv4 address.
pub fn push_ipv4(octets: &mut Vec<u8>, word: &str) -> Result<(), TextError>
    ensures { AppendsOctets (IsDotted word.now) octets.old.items octets.new.items result }
{
    match read_ipv4(word.as_bytes()) {
        Some(address) => push_octets(octets, &address),
        None => Err(TextError::BadWord),
    }
}

/// Appends an IPv6 address.
pub fn push_ipv6(octets: &mut Vec<u8>, word: &str) -> Result<(), TextError>
    ensures { AppendsOctets (IsIpv6Word word.now) octets.old.items octets.new.items result }
{
    match read_ipv6(word.as_bytes()) {
        Some(address) => push_octets(octets, &address),
        None => Err(TextError::BadWord),
    }
}
