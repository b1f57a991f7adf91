//! Theorems on printed records, on errors and on what holds before a line. Each contract is a theorem.
ghost use Rattle.std.specs.Prelude.{◌≡◌, ◌↔◌, IsTrue};
ghost use Rattle.fields_lines.specs.Laws.{PrintedLinesAreRead};

use crate::defaults::Defaults;
use crate::line_error::{LineError, WordReason};
use fields_records::laws::{
    fields_are_all, printed_data_reads_back, printed_fields_split, printed_records_are_words,
};

/// A printed record reads back by `read_line`, whatever the defaults are, if its TTL is at most 2^31-1.
pub fn printed_lines_are_read()
    ensures { PrintedLinesAreRead }
{
    printed_data_reads_back();
    printed_records_are_words();
    fields_are_all();
    printed_fields_split();
}

/// Two errors, or two reasons, are equal if and only if they are the same.
pub fn error_equality()
    ensures error { (a b : _) → IsTrue (⟦<LineError as PartialEq>⟧.eq a b) ↔ (a ≡ b) }
    ensures reason { (a b : _) → IsTrue (⟦<WordReason as PartialEq>⟧.eq a b) ↔ (a ≡ b) }
{}

/// A clone of defaults, of an error or of a reason is the same.
pub fn line_clones()
    ensures defaults { (a b : _) → ⟦<Defaults<'static> as Clone>⟧.is_clone a b → b ≡ a }
    ensures error { (a b : _) → ⟦<LineError as Clone>⟧.is_clone a b → b ≡ a }
    ensures reason { (a b : _) → ⟦<WordReason as Clone>⟧.is_clone a b → b ≡ a }
{}

/// Cloning defaults, an error or a reason never fails.
pub fn line_clones_never_fail()
    ensures defaults { (a : _) → ⟦<Defaults<'static> as Clone>⟧.is_infallible a }
    ensures error { (a : _) → ⟦<LineError as Clone>⟧.is_infallible a }
    ensures reason { (a : _) → ⟦<WordReason as Clone>⟧.is_infallible a }
{}
