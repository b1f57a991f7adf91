//! How many octets an item would take.
ghost use Rattle.std.specs.Prelude.{◌≡◌, ◌+◌, length, IfOk, IsTrue};
ghost use Rattle.dns_wire.specs.Targets.{ComposeReturns};
ghost use Rattle.dns_build.specs.State.{InQuestion, with_question, with_record};
ghost use Rattle.dns_build.specs.BuilderStates.{InEach, size_after};

use crate::builder::Builder;
use crate::stage::{AtQuestion, RecordStage};
use dns_item::{ComposeQuestion, ComposeRecord};
use dns_octets::AppendError;
use dns_wire::Composer;

impl<T: Composer> Builder<T, AtQuestion> {
    /// Returns the octets that pushing `question` now would add to the message, its name compressed
    /// as it would be then (RFC 1035 section 4.1.4). Nothing changes.
    ///
    /// Push limit and count don't matter. Returns `ShortBuf` if the message with the question would
    /// exceed the capacity of its target, `OutOfMemory` if an allocation fails.
    pub fn size_of<Q: ComposeQuestion>(&mut self, question: &Q) -> Result<usize, AppendError>
        ensures unchanged { self.new ≡ self.old }
        ensures size { IfOk result (λ size. InEach InQuestion T.rule self.old (λ s.
            size_after T.rule (with_question (Q.question question.now)) s
            ≡ length self.old.written.octets + size)) }
        ensures outcome { InEach InQuestion T.rule self.old (λ s. ComposeReturns T.capacity
            T.grows (size_after T.rule (with_question (Q.question question.now)) s) result) }
        ensures memory { result ≡ Err AppendError.OutOfMemory → IsTrue T.grows }
    {
        self.draft.size_of_question(question)
    }
}

impl<T: Composer, S: RecordStage> Builder<T, S> {
    /// Returns the octets that pushing `measured` now would add to the message, its names
    /// compressed as they would be then (RFC 1035 section 4.1.4). Nothing changes.
    ///
    /// Push limit and count don't matter. Returns `ShortBuf` if the message with the record would
    /// exceed the capacity of its target, `OutOfMemory` if an allocation fails.
    pub fn size_of<R: ComposeRecord>(&mut self, measured: &R) -> Result<usize, AppendError>
        ensures unchanged { self.new ≡ self.old }
        ensures size { IfOk result (λ size. InEach S.stage T.rule self.old (λ s.
            size_after T.rule (with_record S.stage (R.item measured.now)) s
            ≡ length self.old.written.octets + size)) }
        ensures outcome { InEach S.stage T.rule self.old (λ s. ComposeReturns T.capacity
            T.grows (size_after T.rule (with_record S.stage (R.item measured.now)) s) result) }
        ensures memory { result ≡ Err AppendError.OutOfMemory → IsTrue T.grows }
    {
        self.draft.size_of_record(measured)
    }
}
