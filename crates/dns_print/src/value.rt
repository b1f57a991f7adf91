//! Values that are printed as `{}` prints them.
ghost use Rattle.std.specs.Prelude.{◌≡◌, ◌++◌, IfSome, OnErr, codes, decimal};
ghost use Rattle.std.specs.Fmt.{WritesInCalls};
ghost use Rattle.std.specs.Net.Text.{ipv4_text};
ghost use Rattle.dns_print.specs.Printing.{PrintsOnOk};

use crate::writer::TextWriter;
use itoa::Buffer;
use std::fmt;
use std::fmt::Write;

/// A writer of text, as a writer of std.
#[derive(Drop)]
struct AsWrite<'a, T>(&'a mut T);

impl<T: TextWriter> Write for AsWrite<'_, T> {
    ghost write_str_gives = { λ old text new. WritesInCalls T.takes old.0.now text new.0.now
        × (new.0.ghost_name ≡ old.0.ghost_name) };

    fn write_str(&mut self, text: &str) -> fmt::Result {
        self.0.write_text(text)
    }
}

/// Prints a value as `{}` does, whatever options the writer has. Fails if the writer does, and if
/// the value's `Display` does by itself: its contract doesn't say when it fails.
pub fn write_value<T: TextWriter, D: fmt::Display + Drop>(writer: &mut T, value: D) -> fmt::Result
    ensures { IfSome (D.output value) (λ text.
        PrintsOnOk T.takes writer.old result text writer.new) }
{
    let mut plain = AsWrite(writer);
    plain.write(value)
}

/// Prints a number in decimal digits.
pub fn write_number<T: TextWriter>(writer: &mut T, number: u64) -> fmt::Result
    ensures text { PrintsOnOk T.takes writer.old result (decimal number) writer.new }
    ensures err { OnErr result T.MayFail }
{
    let mut buffer = Buffer::new();
    writer.write_text(buffer.format(number))
}

/// Prints two numbers in decimal digits, with a dot between them.
#[tactic(auto, using(crate::proofs::theory::Prints::prints, std::proofs::lemmas::Grind::common_steps))]
fn write_dotted_pair<T: TextWriter>(writer: &mut T, first: u8, second: u8) -> fmt::Result
    ensures text { PrintsOnOk T.takes writer.old result
        (decimal first ++ codes "." ++ decimal second) writer.new }
    ensures err { OnErr result T.MayFail }
{
    write_number(writer, u64::from(first))?;
    writer.write_text(".")?;
    write_number(writer, u64::from(second))
}

/// Prints the octets of an IPv4 address as `{}` prints an `Ipv4Addr`: in decimal digits, with dots
/// between them (RFC 1035 section 3.4.1).
#[tactic(auto, using(crate::proofs::theory::Prints::prints, std::proofs::lemmas::Grind::common_steps))]
pub fn write_ipv4<T: TextWriter>(writer: &mut T, octets: [u8; 4]) -> fmt::Result
    ensures text { PrintsOnOk T.takes writer.old result (ipv4_text octets) writer.new }
    ensures err { OnErr result T.MayFail }
{
    write_dotted_pair(writer, octets[0], octets[1])?;
    writer.write_text(".")?;
    write_dotted_pair(writer, octets[2], octets[3])
}
