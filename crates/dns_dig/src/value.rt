//! The octets of options as text (RFC 6891 section 6.1.2).
ghost use Rattle.std.specs.Prelude.{◌≡◌, ◌++◌, ◌≤◌, OnErr, codes, length};
ghost use Rattle.std.specs.List.{flat_map};
ghost use Rattle.dns_print.specs.Printing.{PrintsOnOk};
ghost use Rattle.dns_dig.specs.OptionTexts.{character, characters, cookie_text, error_details, error_fields, error_name, error_text, expire_text, expiry_text, keepalive_text, number_16, number_32, octets_text, padding_text, spaced_digits, tenths_text, value_text};

use crate::duration::write_duration;
use crate::subnet::write_subnet;
use dns_iana::{ExtendedErrorCode, OptionCode};
use dns_print::{TextWriter, write_hex, write_hex_octet, write_number};
use std::fmt;

/// Prints the octets of an option, by its code.
pub(crate) fn write_value<T: TextWriter>(
    writer: &mut T,
    code: OptionCode,
    octets: &[u8],
) -> fmt::Result
    ensures text { PrintsOnOk T.takes writer.old result (value_text code octets.now) writer.new }
    ensures err { OnErr result T.MayFail }
{
    match code.to_int() {
        8 => write_subnet(writer, octets),
        9 => write_expire(writer, octets),
        10 => write_cookie(writer, octets),
        11 => write_keepalive(writer, octets),
        12 => write_padding(writer, octets),
        15 => write_error(writer, octets),
        _ => write_octets(writer, octets),
    }
}

/// Prints octets in hexadecimal digits, and as characters.
#[tactic(auto, using(dns_print::proofs::theory::Prints::prints, dns_print::proofs::theory::Prints::print_none, std::proofs::lemmas::Grind::common_steps, crate::proofs::Choices::octets_none, crate::proofs::Choices::octets_some))]
pub(crate) fn write_octets<T: TextWriter>(writer: &mut T, octets: &[u8]) -> fmt::Result
    ensures text { PrintsOnOk T.takes writer.old result (octets_text octets.now) writer.new }
    ensures err { OnErr result T.MayFail }
{
    if octets.len() == 0 {
        return Ok(());
    }
    writer.write_text(" ")?;
    write_spaced_digits(writer, octets)?;
    writer.write_text("(\"")?;
    write_characters(writer, octets)?;
    writer.write_text("\")")
}

/// Prints octets in hexadecimal digits, each before a space.
#[tactic(auto, using(dns_print::proofs::theory::Prints::prints, std::proofs::lemmas::Grind::common_steps))]
fn write_spaced_digits<T: TextWriter>(writer: &mut T, octets: &[u8]) -> fmt::Result
    ensures text { PrintsOnOk T.takes writer.old result (flat_map spaced_digits octets.now)
        writer.new }
    ensures err { OnErr result T.MayFail }
{
    for octet in octets {
        write_digits_and_space(writer, *octet)?;
    }
    Ok(())
}

#[tactic(auto, using(dns_print::proofs::theory::Prints::prints, std::proofs::lemmas::Grind::common_steps))]
fn write_digits_and_space<T: TextWriter>(writer: &mut T, octet: u8) -> fmt::Result
    ensures text { PrintsOnOk T.takes writer.old result (spaced_digits octet) writer.new }
    ensures err { OnErr result T.MayFail }
{
    write_hex_octet(writer, false, octet)?;
    writer.write_text(" ")
}

/// Prints octets as characters, with a dot for each that isn't printable ASCII.
#[tactic(auto, using(dns_print::proofs::theory::Prints::prints, std::proofs::lemmas::Grind::common_steps))]
fn write_characters<T: TextWriter>(writer: &mut T, octets: &[u8]) -> fmt::Result
    ensures text { PrintsOnOk T.takes writer.old result (characters octets.now) writer.new }
    ensures err { OnErr result T.MayFail }
{
    for octet in octets {
        write_character(writer, *octet)?;
    }
    Ok(())
}

#[tactic(auto, using(dns_print::proofs::theory::Prints::prints, std::proofs::lemmas::Grind::common_steps))]
fn write_character<T: TextWriter>(writer: &mut T, octet: u8) -> fmt::Result
    ensures text { PrintsOnOk T.takes writer.old result (character octet) writer.new }
    ensures err { OnErr result T.MayFail }
{
    match octet {
        0x20..=0x7e => writer.write_char(char::from(octet)),
        _ => writer.write_text("."),
    }
}

/// Prints the octets of COOKIE (RFC 7873 section 4).
#[tactic(auto, using(dns_print::proofs::theory::Prints::prints, dns_print::proofs::theory::Prints::print_none, std::proofs::lemmas::Grind::common_steps, crate::proofs::Choices::cookie_none, crate::proofs::Choices::cookie_some))]
fn write_cookie<T: TextWriter>(writer: &mut T, octets: &[u8]) -> fmt::Result
    ensures text { PrintsOnOk T.takes writer.old result (cookie_text octets.now) writer.new }
    ensures err { OnErr result T.MayFail }
{
    if octets.len() == 0 {
        return Ok(());
    }
    writer.write_text(" ")?;
    write_hex(writer, false, octets)
}

/// Prints the number of octets of padding (RFC 7830 section 3).
#[tactic(auto, using(dns_print::proofs::theory::Prints::prints, dns_print::proofs::theory::Prints::print_none, std::proofs::lemmas::Grind::common_steps, crate::proofs::Choices::padding_none, crate::proofs::Choices::padding_some))]
fn write_padding<T: TextWriter>(writer: &mut T, octets: &[u8]) -> fmt::Result
    ensures text { PrintsOnOk T.takes writer.old result (padding_text octets.now) writer.new }
    ensures err { OnErr result T.MayFail }
{
    if octets.len() == 0 {
        return Ok(());
    }
    writer.write_text(" (")?;
    write_number(writer, octets.len() as u64)?;
    writer.write_text(" bytes)")
}

/// The first two octets as a number, big-endian.
pub(crate) fn number_16(octets: &[u8]) -> u16
    requires { 2 ≤ length octets.now }
    ensures { result ≡ number_16 octets.now }
{
    u16::from(octets[0]) * 256 + u16::from(octets[1])
}

/// The first four octets as a number, big-endian.
pub(crate) fn number_32(octets: &[u8]) -> u32
    requires { 4 ≤ length octets.now }
    ensures { result ≡ number_32 octets.now }
{
    u32::from(number_16(octets)) * 65536 + (u32::from(octets[2]) * 256 + u32::from(octets[3]))
}

/// Prints the timeout of TCP keepalive (RFC 7828 section 3.1).
#[tactic(auto, using(dns_print::proofs::theory::Prints::prints, dns_print::proofs::theory::Prints::print_none, std::proofs::lemmas::Grind::common_steps, crate::proofs::Choices::keepalive_two, crate::proofs::Choices::keepalive_other))]
fn write_keepalive<T: TextWriter>(writer: &mut T, octets: &[u8]) -> fmt::Result
    ensures text { PrintsOnOk T.takes writer.old result (keepalive_text octets.now) writer.new }
    ensures err { OnErr result T.MayFail }
{
    if octets.len() == 2 {
        return write_tenths(writer, number_16(octets));
    }
    write_octets(writer, octets)
}

/// Prints tenths of a second.
#[tactic(auto, using(dns_print::proofs::theory::Prints::prints, std::proofs::lemmas::Grind::common_steps))]
fn write_tenths<T: TextWriter>(writer: &mut T, tenths: u16) -> fmt::Result
    ensures text { PrintsOnOk T.takes writer.old result (tenths_text tenths) writer.new }
    ensures err { OnErr result T.MayFail }
{
    writer.write_text(" ")?;
    write_number(writer, u64::from(tenths / 10))?;
    writer.write_text(".")?;
    write_number(writer, u64::from(tenths % 10))?;
    writer.write_text(" secs")
}

/// Prints the seconds of EXPIRE (RFC 7314 section 2).
#[tactic(auto, using(dns_print::proofs::theory::Prints::prints, dns_print::proofs::theory::Prints::print_none, std::proofs::lemmas::Grind::common_steps, crate::proofs::Choices::expire_four, crate::proofs::Choices::expire_other))]
fn write_expire<T: TextWriter>(writer: &mut T, octets: &[u8]) -> fmt::Result
    ensures text { PrintsOnOk T.takes writer.old result (expire_text octets.now) writer.new }
    ensures err { OnErr result T.MayFail }
{
    if octets.len() == 4 {
        return write_expiry(writer, number_32(octets));
    }
    write_octets(writer, octets)
}

/// Prints seconds, and these in words.
#[tactic(auto, using(dns_print::proofs::theory::Prints::prints, std::proofs::lemmas::Grind::common_steps))]
fn write_expiry<T: TextWriter>(writer: &mut T, seconds: u32) -> fmt::Result
    ensures text { PrintsOnOk T.takes writer.old result (expiry_text seconds) writer.new }
    ensures err { OnErr result T.MayFail }
{
    writer.write_text(" ")?;
    write_number(writer, u64::from(seconds))?;
    writer.write_text(" (")?;
    write_duration(writer, seconds)?;
    writer.write_text(")")
}

/// Prints an extended error (RFC 8914 section 2).
#[tactic(auto, using(dns_print::proofs::theory::Prints::prints, dns_print::proofs::theory::Prints::print_none, std::proofs::lemmas::Grind::common_steps, crate::proofs::Choices::error_short, crate::proofs::Choices::error_long))]
fn write_error<T: TextWriter>(writer: &mut T, octets: &[u8]) -> fmt::Result
    ensures text { PrintsOnOk T.takes writer.old result (error_text octets.now) writer.new }
    ensures err { OnErr result T.MayFail }
{
    if octets.len() < 2 {
        return write_octets(writer, octets);
    }
    write_error_fields(writer, number_16(octets), &octets[2..])
}

/// Prints the code of an extended error, its name and its text.
fn write_error_fields<T: TextWriter>(writer: &mut T, code: u16, details: &[u8]) -> fmt::Result
    ensures text { PrintsOnOk T.takes writer.old result (error_fields code details.now)
        writer.new }
    ensures err { OnErr result T.MayFail }
{
    writer.write_text(" ")?;
    write_number(writer, u64::from(code))?;
    write_error_name(writer, ExtendedErrorCode::from_int(code))?;
    write_error_details(writer, details)
}

/// Prints the registered name of an extended error, if it has one.
fn write_error_name<T: TextWriter>(writer: &mut T, code: ExtendedErrorCode) -> fmt::Result
    ensures text { PrintsOnOk T.takes writer.old result (error_name code) writer.new }
    ensures err { OnErr result T.MayFail }
{
    match code.registered_name() {
        Some(name) => write_in_parentheses(writer, name),
        None => Ok(()),
    }
}

#[tactic(auto, using(dns_print::proofs::theory::Prints::prints, std::proofs::lemmas::Grind::common_steps))]
fn write_in_parentheses<T: TextWriter>(writer: &mut T, text: &str) -> fmt::Result
    ensures text { PrintsOnOk T.takes writer.old result (codes " (" ++ (text.now ++ codes ")"))
        writer.new }
    ensures err { OnErr result T.MayFail }
{
    writer.write_text(" (")?;
    writer.write_text(text)?;
    writer.write_text(")")
}

/// Prints the text of an extended error, if there is one.
#[tactic(auto, using(dns_print::proofs::theory::Prints::prints, dns_print::proofs::theory::Prints::print_none, std::proofs::lemmas::Grind::common_steps, crate::proofs::Choices::details_none, crate::proofs::Choices::details_some))]
fn write_error_details<T: TextWriter>(writer: &mut T, octets: &[u8]) -> fmt::Result
    ensures text { PrintsOnOk T.takes writer.old result (error_details octets.now) writer.new }
    ensures err { OnErr result T.MayFail }
{
    if octets.len() == 0 {
        return Ok(());
    }
    writer.write_text(": (")?;
    write_characters(writer, octets)?;
    writer.write_text(")")
}
