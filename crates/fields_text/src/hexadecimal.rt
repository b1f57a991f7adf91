//! Octets in hexadecimal (RFC 4648 section 8).
ghost use Rattle.std.specs.Prelude.{OnErr, Some};
ghost use Rattle.dns_print.specs.Printing.{PrintsOnOk};
ghost use Rattle.fields_text.specs.Hex.{hex_text};

use dns_print::TextWriter;
use std::fmt;

/// Octets that print as two uppercase hexadecimal digits each.
#[derive(Clone, Copy, Debug)]
pub struct Hex<'a>(pub &'a [u8]);

/// Prints octets as two uppercase hexadecimal digits each (RFC 4648 section 8).
pub fn write_hex<W: TextWriter>(f: &mut W, octets: &[u8]) -> fmt::Result
    ensures text { PrintsOnOk W.takes f.old result (hex_text octets.now) f.new }
    ensures err { OnErr result W.MayFail }
{
    dns_print::write_hex(f, true, octets)
}

impl fmt::Display for Hex<'_> {
    ghost output = { λ hex. Some (hex_text hex.0.now) };

    ghost styled_output = { λ hex _. Some (hex_text hex.0.now) };

    fn fmt<W: fmt::Write>(&self, f: &mut fmt::Formatter<W>) -> fmt::Result {
        write_hex(f, self.0)
    }
}
