//! What the program prints of replies and octets.
ghost use Rattle.std.specs.Prelude.{◌≡◌, ◌++◌, ◌∷◌, [], OnOk, codes, decimal};
ghost use Rattle.std.specs.Io.KnownBytes.{Appends};
ghost use Rattle.hex.specs.Hex.{encode_lower};
ghost use Rattle.dnsmsg_tool.specs.Output.{refusal};

use dns_build::PushError;
use std::alloc::Global;
use std::io;
use std::io::Write;

/// Prints octets as one line of lower-case hexadecimal digits.
pub(crate) fn print_octets<W: Write>(alloc: Global, writer: &mut W, octets: &[u8]) -> io::Result<()>
    ensures { OnOk result (Appends (W.contents writer.old) (W.contents writer.new)
        (encode_lower octets.now ++ 10 ∷ [])) }
{
    let digits = hex::encode(alloc, octets)?;
    writer.write_all(digits.as_bytes())?;
    writer.write_all(b"\n")
}

/// The word that reports why a push failed.
fn word_of(error: PushError) -> &'static str
    ensures { result.now ≡ refusal error }
{
    match error {
        PushError::ShortBuf => "short",
        PushError::LimitExceeded => "limit",
        PushError::CountOverflow => "count",
        PushError::OutOfMemory => "memory",
    }
}

/// Prints that a call was done, with the length of the message after it, in octets.
pub(crate) fn print_done<W: Write>(writer: &mut W, len: usize) -> io::Result<()>
    ensures { OnOk result (Appends (W.contents writer.old) (W.contents writer.new)
        (codes "ok " ++ decimal len ++ 10 ∷ [])) }
{
    writeln!(writer, "ok {len}")
}

/// Prints that a push failed and why, with the length of the message after it, in octets.
pub(crate) fn print_refused<W: Write>(
    writer: &mut W,
    error: PushError,
    len: usize,
) -> io::Result<()>
    ensures { OnOk result (Appends (W.contents writer.old) (W.contents writer.new)
        (codes "refused " ++ refusal error ++ 32 ∷ decimal len ++ 10 ∷ [])) }
{
    let word = word_of(error);
    writeln!(writer, "refused {word} {len}")
}
