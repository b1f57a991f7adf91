//! Classes of records.
ghost use Rattle.std.specs.Prelude.{◌≡◌, ℕ, OnErr, Some};
ghost use Rattle.dns_iana.specs.NumberTexts.{ReadsNumber};
ghost use Rattle.dns_iana.specs.Classes.{class_text, SpellsClass};
ghost use Rattle.dns_print.specs.Printing.{PrintsOnOk};

mod registered;

use crate::mnemonic::{self, Entry};
use dns_print::TextWriter;
use std::fmt;
use std::marker::Model;
use std::str::FromStr;
use thiserror::Error;

/// The class of a record, a 16-bit number (RFC 1035 section 3.2.4).
#[derive(Clone, Copy, Debug, PartialEq, Eq, PartialOrd, Ord, Hash)]
pub struct Class(u16);

impl Model for Class {
    ghost Value = { ℕ };

    ghost view = { λ class. class.0 };

    ghost inverse = { λ n. record { 0 = n } };
}

/// The classes that have a mnemonic.
const MNEMONICS: [Entry; 3] = [
    (Class::IN.0, "IN"),
    (Class::CH.0, "CH"),
    (Class::HS.0, "HS"),
];

impl Class {
    /// The class with this number.
    pub fn from_int(number: u16) -> Self
        ensures { result ≡ number }
    {
        Class(number)
    }

    /// The number of the class.
    pub fn to_int(self) -> u16
        ensures { result ≡ self }
    {
        self.0
    }
}

/// Prints the text of a class, as `{}` does.
#[tactic(auto, unfolding(crate::specs::Mnemonics::class_mnemonics))]
pub fn write_class<W: TextWriter>(writer: &mut W, class: Class) -> fmt::Result
    ensures text { PrintsOnOk W.takes writer.old result (class_text class) writer.new }
    ensures err { OnErr result W.MayFail }
{
    mnemonic::write(writer, &MNEMONICS, "CLASS", class.0)
}

/// The mnemonic if the class has one, else `CLASS` and the decimal number (RFC 3597 section 5).
impl fmt::Display for Class {
    ghost output = { λ class. Some (class_text class) };

    ghost styled_output = { λ class _. Some (class_text class) };

    fn fmt<W: fmt::Write>(&self, f: &mut fmt::Formatter<W>) -> fmt::Result {
        write_class(f, *self)
    }
}

/// Reads a mnemonic, or `CLASS` and a decimal number up to 65,535, ignoring ASCII case.
impl FromStr for Class {
    type Err = FromStrError;

    ghost from_str_gives = { λ text r. ReadsNumber (SpellsClass text) r };

    fn from_str(text: &str) -> Result<Self, FromStrError> {
        let number = mnemonic::read(&MNEMONICS, "CLASS", text).ok_or(FromStrError)?;
        Ok(Class(number))
    }
}

/// The text is neither the mnemonic of a class nor `CLASS` and a number.
#[derive(Clone, Copy, Debug, PartialEq, Eq, Error)]
#[error("unknown class")]
pub struct FromStrError;
