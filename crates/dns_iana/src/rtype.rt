//! Record types.
ghost use Rattle.std.specs.Prelude.{◌≡◌, ℕ, OnErr, Some};
ghost use Rattle.dns_iana.specs.NumberTexts.{ReadsNumber};
ghost use Rattle.dns_iana.specs.Types.{type_text, SpellsType};
ghost use Rattle.dns_print.specs.Printing.{PrintsOnOk};

mod registered;

use crate::mnemonic::{self, Entry};
use dns_print::TextWriter;
use std::fmt;
use std::marker::Model;
use std::str::FromStr;
use thiserror::Error;

/// The type of a record, a 16-bit number (RFC 1035 section 3.2.2).
#[derive(Clone, Copy, Debug, PartialEq, Eq, PartialOrd, Ord, Hash)]
pub struct Rtype(u16);

impl Model for Rtype {
    ghost Value = { ℕ };

    ghost view = { λ rtype. rtype.0 };

    ghost inverse = { λ n. record { 0 = n } };
}

/// The types that have a mnemonic.
const MNEMONICS: [Entry; 12] = [
    (Rtype::A.0, "A"),
    (Rtype::NS.0, "NS"),
    (Rtype::CNAME.0, "CNAME"),
    (Rtype::SOA.0, "SOA"),
    (Rtype::PTR.0, "PTR"),
    (Rtype::MX.0, "MX"),
    (Rtype::TXT.0, "TXT"),
    (Rtype::AAAA.0, "AAAA"),
    (Rtype::OPT.0, "OPT"),
    (Rtype::IXFR.0, "IXFR"),
    (Rtype::AXFR.0, "AXFR"),
    (Rtype::ANY.0, "ANY"),
];

impl Rtype {
    /// The record type with this number.
    pub fn from_int(number: u16) -> Self
        ensures { result ≡ number }
    {
        Rtype(number)
    }

    /// The number of the record type.
    pub fn to_int(self) -> u16
        ensures { result ≡ self }
    {
        self.0
    }
}

/// Prints the text of a type, as `{}` does.
#[tactic(auto, unfolding(crate::specs::Mnemonics::type_mnemonics))]
pub fn write_rtype<W: TextWriter>(writer: &mut W, rtype: Rtype) -> fmt::Result
    ensures text { PrintsOnOk W.takes writer.old result (type_text rtype) writer.new }
    ensures err { OnErr result W.MayFail }
{
    mnemonic::write(writer, &MNEMONICS, "TYPE", rtype.0)
}

/// The mnemonic if the type has one, else `TYPE` and the decimal number (RFC 3597 section 5).
impl fmt::Display for Rtype {
    ghost output = { λ rtype. Some (type_text rtype) };

    ghost styled_output = { λ rtype _. Some (type_text rtype) };

    fn fmt<W: fmt::Write>(&self, f: &mut fmt::Formatter<W>) -> fmt::Result {
        write_rtype(f, *self)
    }
}

/// Reads a mnemonic, or `TYPE` and a decimal number up to 65,535, ignoring ASCII case.
impl FromStr for Rtype {
    type Err = FromStrError;

    ghost from_str_gives = { λ text r. ReadsNumber (SpellsType text) r };

    fn from_str(text: &str) -> Result<Self, FromStrError> {
        let number = mnemonic::read(&MNEMONICS, "TYPE", text).ok_or(FromStrError)?;
        Ok(Rtype(number))
    }
}

/// The text is neither the mnemonic of a record type nor `TYPE` and a number.
#[derive(Clone, Copy, Debug, PartialEq, Eq, Error)]
#[error("unknown record type")]
pub struct FromStrError;
