//! Why the program fails, in printable ASCII.
ghost use Rattle.std.specs.Prelude.{◌≡◌, ◌++◌, true, codes, OnOk};
ghost use Rattle.fields_text.specs.String.{quoted};
ghost use Rattle.dnsview_tool.specs.Printable.{are_printable};
ghost use Rattle.dnsview_tool.specs.Failures.{IsFailureText};
ghost use Rattle.dnsview_tool.specs.Printed.{Prints};

use crate::printable::printable_words;
use fields_text::Quoted;
use std::alloc::{AllocError, Global};
use std::io;
use std::io::Write;

/// Why the program fails.
#[derive(Drop)]
pub(crate) enum Failure {
    /// The input can't be read.
    Reading(io::Error),
    /// Standard output can't be written, or an allocation fails.
    Printing(io::Error),
    /// Standard error can't be written.
    Reporting(io::Error),
}

/// Prints a line that says what failed, and why, to standard error. Of the reason, what isn't
/// printable ASCII is escaped. Returns an error only if `errors` can't be written.
pub fn print_failure<E: Write>(
    alloc: Global,
    errors: &mut E,
    what: &str,
    error: &io::Error,
) -> io::Result<()>
    ensures { OnOk result (Prints (IsFailureText what.now)
        (E.contents errors.old) (E.contents errors.new)) }
{
    match printable_words(alloc, error) {
        Ok(reason) => print_line(errors, what, reason.as_slice()),
        Err(AllocError) => print_line(errors, what, b"out of memory"),
    }
}

/// Prints a line that says which file can't be opened, and why, to standard error. The file's name
/// is in quotes. Of the name and of the reason, what isn't printable ASCII is escaped. Returns an
/// error if `errors` or an allocation fails.
pub fn print_unopened<E: Write>(
    alloc: Global,
    errors: &mut E,
    file: &str,
    error: &io::Error,
) -> io::Result<()>
    ensures { OnOk result (Prints (IsFailureText (codes "can't open " ++ quoted file.now))
        (E.contents errors.old) (E.contents errors.new)) }
{
    let name = Quoted(file.as_bytes());
    let what = format!(in alloc; "can't open {name}")?;
    print_failure(alloc, errors, what.as_str(), error)
}

/// Prints a line that says what failed, and why.
fn print_line<E: Write>(errors: &mut E, what: &str, reason: &[u8]) -> io::Result<()>
    requires { are_printable reason.now ≡ true }
    ensures { OnOk result (Prints (IsFailureText what.now)
        (E.contents errors.old) (E.contents errors.new)) }
{
    errors.write_all(b"dnsview: ")?;
    errors.write_all(what.as_bytes())?;
    errors.write_all(b": ")?;
    errors.write_all(reason)?;
    errors.write_all(b"\n")
}
