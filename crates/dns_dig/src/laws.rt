//! Theorems on what is printed of all messages. The functions do nothing: the contract of each is a
//! theorem.
ghost use Rattle.std.specs.Prelude.{◌≡◌};
ghost use Rattle.dns_dig.specs.Laws.{AdditionalsArePrintedOnce, EachSignatureIsPrinted, FirstOptIsPrinted, LinesAreZoneLines, SectionsHaveEachLine};

use crate::message::MessageDig;

/// The answer and the authority section have one line for each record that can be read, in order,
/// and one for the error that ends it. A record of the additional section is printed once: in its
/// section, before the sections if it is the first OPT record, or after them if it signs the message.
pub fn records_have_one_line()
    ensures sections { SectionsHaveEachLine }
    ensures opt { FirstOptIsPrinted }
    ensures signatures { EachSignatureIsPrinted }
    ensures additional { AdditionalsArePrintedOnce }
{}

/// The line of a record is the one that it has in a zone file (RFC 1035 section 5.1), but for the
/// tabs and spaces between its fields.
pub fn lines_are_zone_lines()
    ensures { LinesAreZoneLines }
{}

/// A clone of a message that prints as `dig` prints it is the same, and cloning never fails.
pub fn dig_clones()
    ensures same { (a b : _) → ⟦<MessageDig<'static, 'static> as Clone>⟧.is_clone a b → b ≡ a }
    ensures always { (a : _) → ⟦<MessageDig<'static, 'static> as Clone>⟧.is_infallible a }
{}
