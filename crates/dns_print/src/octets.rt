//! Octets that are printed one after the other.
ghost use Rattle.std.specs.Prelude.{◌≤◌, ◌<◌, ℕ, IsAscii, IsTrue, List, OnErr, length, take};
ghost use Rattle.std.specs.List.{flat_map};
ghost use Rattle.dns_print.specs.Octets.{AllPlain, IsPlain};
ghost use Rattle.dns_print.specs.Printing.{PrintsOnOk};

use crate::writer::TextWriter;
use std::fmt;

/// How octets are printed, each by itself.
pub trait OctetText {
    /// The text of an octet.
    ghost text_of: { ℕ → List ℕ };

    /// Whether the octet is an ASCII character that is printed as it is. Such octets that follow each
    /// other are printed at once.
    fn is_plain(octet: u8) -> bool
        ensures { IsTrue result → IsPlain text_of octet };

    /// Prints the octet.
    fn write_octet<T: TextWriter>(writer: &mut T, octet: u8) -> fmt::Result
        ensures text { PrintsOnOk T.takes writer.old result (text_of octet) writer.new }
        ensures err { OnErr result T.MayFail };
}

/// Prints ASCII characters as they are.
pub fn write_ascii<T: TextWriter>(writer: &mut T, octets: &[u8]) -> fmt::Result
    requires { IsAscii octets.now }
    ensures text { PrintsOnOk T.takes writer.old result octets.now writer.new }
    ensures err { OnErr result T.MayFail }
{
    match str::from_utf8(octets) {
        Ok(text) => writer.write_text(text),
        Err(_) => Err(fmt::Error),
    }
}

/// The number of octets before the first that isn't plain.
fn plain_len<O: OctetText>(octets: &[u8]) -> usize
    ensures bound { result ≤ length octets.now }
    ensures plain { AllPlain O.text_of (take result octets.now) }
{
    let mut len = 0;
    while len < octets.len() && O::is_plain(octets[len]) {
        len += 1;
    }
    len
}

/// Prints octets, each by its text.
pub fn write_octets<O: OctetText, T: TextWriter>(writer: &mut T, octets: &[u8]) -> fmt::Result
    ensures text { PrintsOnOk T.takes writer.old result (flat_map O.text_of octets.now) writer.new }
    ensures err { OnErr result T.MayFail }
{
    let mut start = 0;
    while start < octets.len() {
        let plain = plain_len::<O>(&octets[start..]);
        if plain == 0 {
            O::write_octet(writer, octets[start])?;
            start += 1;
        } else {
            write_ascii(writer, &octets[start..start + plain])?;
            start += plain;
        }
    }
    Ok(())
}
