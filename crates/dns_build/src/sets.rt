//! Marks in a section, and sets of records that are pushed whole or not at all (RFC 2181 section
//! 5).
ghost use Rattle.std.specs.Prelude.{◌≡◌, map, length, OnOk, OnErr, IsTrue};
ghost use Rattle.dns_build.specs.State.{with_first, with_records, records_at};
ghost use Rattle.dns_build.specs.BuilderStates.{InEach, MovesState};
ghost use Rattle.dns_build.specs.Sets.{SetReturns};

use crate::builder::{Builder, count_offset};
use crate::push_error::PushError;
use crate::stage::RecordStage;
use dns_item::ComposeRecord;
use dns_wire::Composer;

/// How many records a section had when `Builder::mark` was called.
#[derive(Clone, Copy, Debug)]
pub struct Mark {
    pub records: u16,
}

impl<T: Composer, S: RecordStage> Builder<T, S> {
    /// Marks the records that the stage's section has now, so that `rewind_to` can remove those
    /// that are pushed later.
    pub fn mark(&self) -> Mark
        ensures { InEach S.stage T.rule self.now (λ s.
            result.records ≡ length (records_at S.stage s)) }
    {
        Mark {
            records: self.draft.count(count_offset(S::DEPTH)),
        }
    }

    /// Removes the records of the stage's section but the first ones, as many as it had at `mark`.
    ///
    /// A mark is a number of records. If it was made by another builder, or later, then that many
    /// records stay, or all if there are fewer. The records that stay are skipped, so the time is
    /// linear in their octets.
    pub fn rewind_to(&mut self, mark: Mark)
        ensures { MovesState S.stage S.stage T.rule
            (with_first S.stage mark.records) self.old self.new }
    {
        self.draft.keep_first(mark.records, count_offset(S::DEPTH));
    }

    /// Appends all of these records to the stage's section, or none, as a set of records is sent
    /// whole (RFC 2181 section 5).
    ///
    /// Returns the error of the first push that fails. Nothing changes on error.
    pub fn push_set<R: ComposeRecord>(&mut self, records: &[R]) -> Result<(), PushError>
        ensures accepted { OnOk result (MovesState S.stage S.stage T.rule
            (with_records S.stage (map R.item records.now)) self.old self.new) }
        ensures refused { OnErr result (self.new ≡ self.old) }
        ensures outcome { InEach S.stage T.rule self.old (λ s. SetReturns T.capacity T.grows
            T.rule S.stage s (map R.item records.now) result) }
        ensures memory { result ≡ Err PushError.OutOfMemory → IsTrue T.grows }
    {
        let end = self.as_slice().len();
        let mark = self.mark();
        for pushed in records {
            if let Err(error) = self.push(pushed) {
                self.draft
                    .cut_section(end, count_offset(S::DEPTH), mark.records);
                return Err(error);
            }
        }
        Ok(())
    }
}
