//! Classes as words, by the names that IANA has registered (RFC 3597 section 5).
ghost use Rattle.std.specs.Prelude.{OnErr, Some};
ghost use Rattle.dns_print.specs.Printing.{PrintsOnOk};
ghost use Rattle.fields_plain.specs.TypeNames.{class_word};

use crate::type_name::write_numbered;
use dns_iana::Class;
use dns_print::TextWriter;
use std::fmt;

/// A class that prints as the name that IANA has registered for it, else as `CLASS` and its number.
#[derive(Clone, Copy, Debug, PartialEq, Eq)]
pub struct ClassName(pub Class);

/// Prints a class as the name that IANA has registered for it, else as `CLASS` and its number (RFC
/// 3597 section 5).
pub fn write_class_name<W: TextWriter>(f: &mut W, class: Class) -> fmt::Result
    ensures text { PrintsOnOk W.takes f.old result (class_word class) f.new }
    ensures err { OnErr result W.MayFail }
{
    match class.registered_name() {
        Some(name) => f.write_text(name),
        None => write_numbered(f, "CLASS", class.to_int()),
    }
}

impl fmt::Display for ClassName {
    ghost output = { λ name. Some (class_word name.0) };

    ghost styled_output = { λ name _. Some (class_word name.0) };

    fn fmt<W: fmt::Write>(&self, f: &mut fmt::Formatter<W>) -> fmt::Result {
        write_class_name(f, self.0)
    }
}
