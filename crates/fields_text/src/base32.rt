//! Octets in base32 with the extended hexadecimal alphabet and without padding (RFC 4648 section 7,
//! RFC 5155 section 3.3).
ghost use Rattle.std.specs.Prelude.{OnErr, ◌≡◌, ◌<◌, Some, length, true};
ghost use Rattle.std.specs.Fmt.{digit_glyph};
ghost use Rattle.dns_print.specs.Printing.{PrintsOnOk};
ghost use Rattle.fields_text.specs.Base32.{base32_digits, base32_text};

use crate::number::number_of;
use dns_print::TextWriter;
use std::fmt;

/// Octets that print in base32: digits 0 to 9 and A to V, without padding.
#[derive(Clone, Copy, Debug)]
pub struct Base32<'a>(pub &'a [u8]);

/// The digit of a number: 0 to 9, and A to V.
fn digit(number: u8) -> char
    requires { number < 32 }
    ensures glyph { result ≡ digit_glyph true number }
    ensures ascii { result < 128 }
{
    char::from(if number < 10 {
        b'0' + number
    } else {
        b'A' + (number - 10)
    })
}

/// Prints the last `count` digits of a number.
#[tactic(auto, using(crate::proofs::Base32Digits::digits_none, crate::proofs::Base32Digits::digits_more))]
fn write_digits<W: TextWriter>(f: &mut W, count: u8, number: u64) -> fmt::Result
    ensures text { PrintsOnOk W.takes f.old result (base32_digits count number) f.new }
    ensures err { OnErr result W.MayFail }
{
    if count == 0 {
        return Ok(());
    }
    write_digits(f, count - 1, number / 32)?;
    f.write_char(digit((number % 32) as u8))
}

/// Prints at most four octets in base32.
#[tactic(auto, using(dns_print::proofs::theory::Prints::prints, std::proofs::lemmas::Grind::common_steps))]
fn write_last<W: TextWriter>(f: &mut W, octets: &[u8]) -> fmt::Result
    requires { length octets.now < 5 }
    ensures text { PrintsOnOk W.takes f.old result (base32_text octets.now) f.new }
    ensures err { OnErr result W.MayFail }
{
    match octets {
        [] => Ok(()),
        [a] => write_digits(f, 2, number_of(&[*a]) * 4),
        [a, b] => write_digits(f, 4, number_of(&[*a, *b]) * 16),
        [a, b, c] => write_digits(f, 5, number_of(&[*a, *b, *c]) * 2),
        [a, b, c, d] => write_digits(f, 7, number_of(&[*a, *b, *c, *d]) * 8),
        _ => Ok(()),
    }
}

/// Prints octets in base32: digits 0 to 9 and A to V, without padding (RFC 4648 section 7).
pub fn write_base32<W: TextWriter>(f: &mut W, octets: &[u8]) -> fmt::Result
    ensures text { PrintsOnOk W.takes f.old result (base32_text octets.now) f.new }
    ensures err { OnErr result W.MayFail }
{
    let mut left = octets;
    'groups: while left.len() >= 5 {
        let (group, after) = left.split_at(5);
        write_digits(f, 8, number_of(group))?;
        left = after;
    }
    write_last(f, left)
}

impl fmt::Display for Base32<'_> {
    ghost output = { λ base32. Some (base32_text base32.0.now) };

    ghost styled_output = { λ base32 _. Some (base32_text base32.0.now) };

    fn fmt<W: fmt::Write>(&self, f: &mut fmt::Formatter<W>) -> fmt::Result {
        write_base32(f, self.0)
    }
}
