//! Words in printable ASCII, whatever is printed.
ghost use Rattle.std.specs.Prelude.{◌≡◌, true, IfOk};
ghost use Rattle.dnsview_tool.specs.Printable.{are_printable, is_printable};

use std::alloc::{AllocError, Global};
use std::fmt;
use std::fmt::Write;

/// Words in printable ASCII. Of a text that is written to them, an octet that isn't printable ASCII
/// becomes a backslash and three decimal digits, as in `Quoted`.
#[derive(Drop)]
struct Words {
    octets: Vec<u8>,
    ghost printable: { are_printable octets.items ≡ true },
}

impl Write for Words {
    fn write_str(&mut self, text: &str) -> fmt::Result {
        for octet in text.as_bytes() {
            if push_octet(&mut self.octets, *octet).is_err() {
                return Err(fmt::Error);
            }
        }
        Ok(())
    }
}

/// The words that `{}` prints for a value.
pub(crate) fn printable_words<D: fmt::Display + Drop>(
    alloc: Global,
    value: D,
) -> Result<Vec<u8>, AllocError>
    ensures { IfOk result (λ words. are_printable words.items ≡ true) }
{
    let octets = Vec::new(alloc);
    let mut words = Words { octets };
    match write!(words, "{value}") {
        Ok(()) => Ok(words.octets),
        // words fail only if an allocation does
        Err(_) => Err(AllocError),
    }
}

/// Appends an octet, as it is or as a backslash and three decimal digits.
fn push_octet(octets: &mut Vec<u8>, octet: u8) -> Result<(), AllocError>
    requires { are_printable octets.old.items ≡ true }
    ensures { are_printable octets.new.items ≡ true }
{
    if is_printable(octet) {
        return octets.extend_from_slice(&[octet]);
    }
    octets.extend_from_slice(&escape(octet))
}

/// A backslash and the three decimal digits of an octet.
fn escape(octet: u8) -> [u8; 4]
    ensures { are_printable result ≡ true }
{
    [
        b'\\',
        b'0' + octet / 100,
        b'0' + octet / 10 % 10,
        b'0' + octet % 10,
    ]
}

/// Whether an octet is a graphic ASCII character or a space.
fn is_printable(octet: u8) -> bool
    ensures { result ≡ is_printable octet }
{
    octet >= 0x20 && octet <= 0x7e
}
