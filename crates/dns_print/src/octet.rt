//! Octets that are printed in digits.
ghost use Rattle.std.specs.Prelude.{◌≡◌, ◌<◌, ◌≤◌, [], ◌∷◌, IsAscii, OnErr, length};
ghost use Rattle.std.specs.Fmt.{digit_glyph};
ghost use Rattle.std.specs.List.{flat_map};
ghost use Rattle.dns_print.specs.Digits.{decimal_text, hex_digits};
ghost use Rattle.dns_print.specs.Printing.{PrintsOnOk};

use crate::octets::write_ascii;
use crate::writer::TextWriter;
use arrayvec::ArrayVec;
use std::fmt;

/// Prints a backslash and the three decimal digits of an octet (RFC 1035 section 5.1).
#[tactic(auto, using(crate::proofs::theory::Prints::prints, std::proofs::lemmas::Grind::common_steps))]
pub fn write_decimal<T: TextWriter>(writer: &mut T, octet: u8) -> fmt::Result
    ensures text { PrintsOnOk T.takes writer.old result (decimal_text octet) writer.new }
    ensures err { OnErr result T.MayFail }
{
    let hundreds = b'0' + octet / 100;
    let tens = b'0' + octet / 10 % 10;
    write_ascii(writer, &[b'\\', hundreds, tens, b'0' + octet % 10])
}

/// The hexadecimal digit of a number.
fn hex_digit(upper: bool, number: u8) -> char
    requires { number < 16 }
    ensures glyph { result ≡ digit_glyph upper number }
    ensures ascii { result < 128 }
{
    char::from(if number < 10 {
        b'0' + number
    } else if upper {
        b'A' + (number - 10)
    } else {
        b'a' + (number - 10)
    })
}

/// Prints a number as a hexadecimal digit, in uppercase or lowercase (RFC 4648 section 8).
pub fn write_hex_digit<T: TextWriter>(writer: &mut T, upper: bool, number: u8) -> fmt::Result
    requires { number < 16 }
    ensures text { PrintsOnOk T.takes writer.old result (digit_glyph upper number ∷ [])
        writer.new }
    ensures err { OnErr result T.MayFail }
{
    writer.write_char(hex_digit(upper, number))
}

/// Prints an octet as two hexadecimal digits, in uppercase or lowercase.
#[tactic(auto, using(crate::proofs::theory::Prints::prints, std::proofs::lemmas::Grind::common_steps))]
pub fn write_hex_octet<T: TextWriter>(writer: &mut T, upper: bool, octet: u8) -> fmt::Result
    ensures text { PrintsOnOk T.takes writer.old result (hex_digits upper octet) writer.new }
    ensures err { OnErr result T.MayFail }
{
    write_hex_digit(writer, upper, octet / 16)?;
    write_hex_digit(writer, upper, octet % 16)
}

/// How many octets are printed as hexadecimal digits at once.
const BLOCK: usize = 32;

/// The hexadecimal digits of octets.
fn hex_block(upper: bool, octets: &[u8]) -> ArrayVec<u8, 64>
    requires { length octets.now ≤ 32 }
    ensures digits { result.items ≡ flat_map (hex_digits upper) octets.now }
    ensures ascii { IsAscii result.items }
{
    let mut digits = ArrayVec::new();
    for octet in octets {
        digits.push(hex_digit(upper, *octet / 16) as u8);
        digits.push(hex_digit(upper, *octet % 16) as u8);
    }
    digits
}

/// Prints each octet as two hexadecimal digits, in uppercase or lowercase.
pub fn write_hex<T: TextWriter>(writer: &mut T, upper: bool, octets: &[u8]) -> fmt::Result
    ensures text { PrintsOnOk T.takes writer.old result (flat_map (hex_digits upper) octets.now)
        writer.new }
    ensures err { OnErr result T.MayFail }
{
    let mut start = 0;
    while start < octets.len() {
        let len = (octets.len() - start).min(BLOCK);
        write_ascii(writer, &hex_block(upper, &octets[start..start + len]))?;
        start += len;
    }
    Ok(())
}
