ghost use Rattle.std.specs.Prelude.{◌≡◌, ◌↔◌, ℕ, ◌<◌, ◌≤◌, OnErr, Some, decimal};
ghost use Rattle.dns_print.specs.Printing.{PrintsOnOk};
ghost use Rattle.dns_iana.specs.Serials.{serial_sum, IsLess, IsGreater};

use dns_print::{TextWriter, write_number};
use std::cmp::Ordering;
use std::fmt;
use std::marker::Model;

/// The serial number of a zone: 32 bits, which wrap (RFC 1982 section 7).
///
/// In a contract it is the number. There is no `<`: `PartialOrd` has to be transitive, and serials
/// are compared by `serial_cmp`.
#[derive(Clone, Copy, Debug, PartialEq, Eq, Hash)]
pub struct Serial(u32);

impl Model for Serial {
    ghost Value = { ℕ };

    ghost view = { λ serial. serial.0 };

    ghost inverse = { λ n. record { 0 = n } };
}

/// The distance at which neither of two serials is greater, 2^31.
const HALF: u32 = 0x8000_0000;

impl Serial {
    /// The greatest number that `add` takes, 2^31 - 1 (RFC 1982 section 3.1).
    pub const MAX_ADDEND: u32 = 0x7fff_ffff;

    /// The serial with this number.
    pub fn from_int(number: u32) -> Self
        ensures { result ≡ number }
    {
        Serial(number)
    }

    /// The number of the serial.
    pub fn into_int(self) -> u32
        ensures { result ≡ self }
    {
        self.0
    }

    /// The sum, modulo 2^32 (RFC 1982 section 3.1). It is greater than this serial, unless the
    /// addend is 0. Requires that the addend is at most `MAX_ADDEND`.
    pub fn add(self, addend: u32) -> Self
        requires { addend ≤ Self.MAX_ADDEND }
        ensures sum { result ≡ serial_sum self addend }
        ensures greater { 0 < addend → IsGreater result self }
    {
        Serial(self.0.wrapping_add(addend))
    }

    /// Whether this serial is less, equal or greater, and `None` if the two are 2^31 apart (RFC 1982
    /// section 3.2).
    pub fn serial_cmp(self, other: Self) -> Option<Ordering>
        ensures less { (result ≡ Some Ordering.Less) ↔ IsLess self other }
        ensures equal { (result ≡ Some Ordering.Equal) ↔ (self ≡ other) }
        ensures greater { (result ≡ Some Ordering.Greater) ↔ IsGreater self other }
    {
        let order = self.0.cmp(&other.0);
        match self.0.abs_diff(other.0).cmp(&HALF) {
            Ordering::Less => Some(order),
            Ordering::Equal => None,
            Ordering::Greater => Some(order.reverse()),
        }
    }
}

impl From<u32> for Serial {
    ghost from_gives = { λ number serial. serial ≡ number };

    fn from(number: u32) -> Self {
        Serial::from_int(number)
    }
}

impl From<Serial> for u32 {
    ghost from_gives = { λ serial number. number ≡ serial };

    fn from(serial: Serial) -> Self {
        serial.into_int()
    }
}

/// Prints the number in decimal digits.
pub fn write_serial<W: TextWriter>(writer: &mut W, serial: Serial) -> fmt::Result
    ensures text { PrintsOnOk W.takes writer.old result (decimal serial) writer.new }
    ensures err { OnErr result W.MayFail }
{
    write_number(writer, u64::from(serial.0))
}

/// The number in decimal digits.
impl fmt::Display for Serial {
    ghost output = { λ serial. Some (decimal serial) };

    ghost styled_output = { λ serial _. Some (decimal serial) };

    fn fmt<W: fmt::Write>(&self, f: &mut fmt::Formatter<W>) -> fmt::Result {
        write_serial(f, *self)
    }
}
