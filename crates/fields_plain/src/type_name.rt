//! Record types as words, by the names that IANA has registered (RFC 3597 section 5).
ghost use Rattle.std.specs.Prelude.{OnErr, Some, ◌++◌, decimal, ◌≡◌, ◌↔◌, ℕ};
ghost use Rattle.dns_print.specs.Printing.{PrintsOnOk};
ghost use Rattle.fields_plain.specs.TypeNames.{type_word};
ghost use Rattle.fields_plain.specs.TypeWords.{IsTypeWord, IsType};
ghost use Rattle.fields_text.specs.Reading.{AppendsOctets};

use dns_iana::Rtype;
use dns_print::{TextWriter, write_number};
use fields_text::{TextError, push_last};
use std::fmt;

/// A record type that prints as the name that IANA has registered for it, else as `TYPE` and its
/// number.
#[derive(Clone, Copy, Debug, PartialEq, Eq)]
pub struct TypeName(pub Rtype);

/// Prints a word and a decimal number.
#[tactic(auto, using(dns_print::proofs::theory::Prints::prints))]
pub(crate) fn write_numbered<W: TextWriter>(f: &mut W, word: &str, number: u16) -> fmt::Result
    ensures text { PrintsOnOk W.takes f.old result (word.now ++ decimal number) f.new }
    ensures err { OnErr result W.MayFail }
{
    f.write_text(word)?;
    write_number(f, u64::from(number))
}

/// Prints a record type as the name that IANA has registered for it, else as `TYPE` and its number
/// (RFC 3597 section 5).
pub fn write_type_name<W: TextWriter>(f: &mut W, rtype: Rtype) -> fmt::Result
    ensures text { PrintsOnOk W.takes f.old result (type_word rtype) f.new }
    ensures err { OnErr result W.MayFail }
{
    match rtype.registered_name() {
        Some(name) => f.write_text(name),
        None => write_numbered(f, "TYPE", rtype.to_int()),
    }
}

impl fmt::Display for TypeName {
    ghost output = { λ name. Some (type_word name.0) };

    ghost styled_output = { λ name _. Some (type_word name.0) };

    fn fmt<W: fmt::Write>(&self, f: &mut fmt::Formatter<W>) -> fmt::Result {
        write_type_name(f, self.0)
    }
}

/// A record type: the name that IANA has registered for it, or `TYPE` and a number up to 65,535.
/// ASCII case is ignored.
pub fn read_type(word: &str) -> Option<Rtype>
    ensures { (n : ℕ) → IsTypeWord word.now n ↔ (result ≡ Some n) }
{
    Rtype::from_registered_name(word)
}

/// Appends a record type.
pub fn push_type(octets: &mut Vec<u8>, word: &str) -> Result<(), TextError>
    ensures { AppendsOctets (IsType word.now) octets.old.items octets.new.items result }
{
    match read_type(word) {
        Some(rtype) => push_last(octets, 2, u64::from(rtype.to_int())),
        None => Err(TextError::BadWord),
    }
}
