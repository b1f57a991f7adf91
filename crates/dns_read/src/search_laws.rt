//! Theorems on where the sections of a message start, on the searches in its records, and on clones
//! of an iterator. The functions do nothing: each contract is a theorem over all octets or values.
ghost use Rattle.std.specs.Prelude.{◌≡◌};
ghost use Rattle.dns_read.specs.SectionStarts.{StartsAreFound};
ghost use Rattle.dns_read.specs.MessageIter.{SectionsFollow, SecondErrorIsFirst};
ghost use Rattle.dns_read.specs.RecordSearches.{OneCanonicalName};

use crate::error::ShortMessage;
use crate::message_iter::MessageIter;

/// `start_of` finds an offset exactly if the section starts there.
pub fn starts_are_found()
    ensures { StartsAreFound }
{}

/// If all records of a section can be read, the next section starts where the last of them ends.
pub fn sections_follow()
    ensures { SectionsFollow }
{}

/// If iterating over a message yields two errors, the second equals the first, including its text.
pub fn second_error_is_first()
    ensures { SecondErrorIsFirst }
{}

/// A message has at most one result of the search for its canonical name.
pub fn one_canonical_name()
    ensures { OneCanonicalName }
{}

/// A clone of an iterator is the same iterator, so it yields the same records.
pub fn iterator_clones()
    ensures records { (a b : _) → ⟦<MessageIter<'static> as Clone>⟧.is_clone a b → b ≡ a }
    ensures error { (a b : _) → ⟦<ShortMessage as Clone>⟧.is_clone a b → b ≡ a }
{}

/// Cloning an iterator never fails.
pub fn iterator_clones_never_fail()
    ensures records { (a : _) → ⟦<MessageIter<'static> as Clone>⟧.is_infallible a }
    ensures error { (a : _) → ⟦<ShortMessage as Clone>⟧.is_infallible a }
{}
