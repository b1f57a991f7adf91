//! Copying records from one message into another.
ghost use Rattle.std.specs.Prelude.{ℕ, List, IfOk};
ghost use Rattle.dns_item.specs.ParsedRecord.{encoded_record};
ghost use Rattle.dns_read.specs.Message.{message_octets};
ghost use Rattle.dns_read.specs.RecordSection.{records_left};
ghost use Rattle.dns_build.specs.State.{InAnswer};
ghost use Rattle.dns_build.specs.BuilderStates.{InEach};
ghost use Rattle.dns_build.specs.CopyRecords.{CopiesRecordTo, CopiesListTo, CopiesMessage};
ghost use Rattle.dns_build.specs.KeptRecords.{KeepsAll};

use crate::builder::{AdditionalBuilder, AnswerBuilder, AuthorityBuilder, Builder};
use crate::copy_records_error::CopyRecordsError;
use crate::push_error::PushError;
use crate::stage::RecordStage;
use dns_item::{ComposeRecord, ParsedRecord};
use dns_octets::Octets;
use dns_read::{Message, RecordSection, following};
use dns_wire::Composer;

/// A message whose records can be copied.
pub trait CopyRecords {
    /// The octets of the message.
    ghost octets: { Self → List ℕ };

    /// Like the function `copy_records`, with the same requirement, for a closure whose result
    /// borrows nothing from the record.
    fn copy_records<T: Composer, R: ComposeRecord + Drop, F: FnMut(ParsedRecord<'_>) -> Option<R>>(
        &self,
        target: AnswerBuilder<T>,
        op: F,
    ) -> Result<AdditionalBuilder<T>, CopyRecordsError>
        requires { F.IsAlwaysCallable op }
        ensures copies { InEach InAnswer T.rule target (λ s. CopiesMessage F.step R.item T.capacity
            T.grows T.rule (octets self.now) op s result) }
        ensures kept { IfOk result (λ new. InEach InAnswer T.rule target (λ s.
            KeepsAll F.step R.item T.rule (octets self.now) op s new)) };
}

impl<Octs: Octets> CopyRecords for Message<Octs> {
    ghost use Rattle.dns_read.specs.Message.{message_octets};

    ghost octets = { λ message. message_octets message };

    fn copy_records<T: Composer, R: ComposeRecord + Drop, F: FnMut(ParsedRecord<'_>) -> Option<R>>(
        &self,
        target: AnswerBuilder<T>,
        op: F,
    ) -> Result<AdditionalBuilder<T>, CopyRecordsError> {
        copy_records(self, target, op)
    }
}

/// Copies the answer, authority and additional records of a message into the same sections of a
/// builder (RFC 1035 section 4.1). The builder's own answers stay before the copied ones.
///
/// Calls the closure on each record in order, and pushes what it returns into the section of that
/// record. Pushes nothing for `None`.
///
/// Returns the first error, of reading the message or of a push. The builder is dropped then.
///
/// Requires that the closure can be called on any record. A closure without a `requires` of its own
/// can.
pub fn copy_records<
    'a,
    Octs: Octets,
    T: Composer,
    R: ComposeRecord + Drop,
    F: FnMut(ParsedRecord<'a>) -> Option<R>,
>(
    message: &'a Message<Octs>,
    target: AnswerBuilder<T>,
    op: F,
) -> Result<AdditionalBuilder<T>, CopyRecordsError>
    requires { F.IsAlwaysCallable op }
    ensures copies { InEach InAnswer T.rule target (λ s. CopiesMessage F.step R.item
        T.capacity T.grows T.rule (message_octets message.now) op s result) }
    ensures kept { IfOk result (λ new. InEach InAnswer T.rule target (λ s.
        KeepsAll F.step R.item T.rule (message_octets message.now) op s new)) }
{
    let mut op = op;
    let mut answers = target;
    let answer = message.answer()?;
    copy_section(answer, &mut op, &mut answers)?;
    let mut authorities: AuthorityBuilder<T> = answers.go_to();
    let authority = following(answer)?;
    copy_section(authority, &mut op, &mut authorities)?;
    let mut additionals: AdditionalBuilder<T> = authorities.go_to();
    let additional = following(authority)?;
    copy_section(additional, &mut op, &mut additionals)?;
    Ok(additionals)
}

/// Copies the remaining records of a section.
fn copy_section<
    'a,
    T: Composer,
    S: RecordStage,
    R: ComposeRecord + Drop,
    F: FnMut(ParsedRecord<'a>) -> Option<R>,
>(
    section: RecordSection<'a>,
    op: &mut F,
    target: &mut Builder<T, S>,
) -> Result<(), CopyRecordsError>
    requires { F.IsAlwaysCallable op.old }
    ensures callable { F.IsAlwaysCallable op.new }
    ensures copies { InEach S.stage T.rule target.old (λ s. CopiesListTo F.step R.item T.capacity
        T.grows T.rule S.stage (records_left section.entry) op.old s result op.new target.new) }
{
    let mut section = section;
    while let Some(item) = section.next() {
        match item {
            Ok(shown) => copy_record(shown, op, target)?,
            Err(error) => return Err(CopyRecordsError::Parse(error)),
        }
    }
    Ok(())
}

/// Calls the closure on a record and pushes what it returns.
fn copy_record<
    'a,
    T: Composer,
    S: RecordStage,
    R: ComposeRecord + Drop,
    F: FnMut(ParsedRecord<'a>) -> Option<R>,
>(shown: ParsedRecord<'a>, op: &mut F, target: &mut Builder<T, S>) -> Result<(), PushError>
    requires { F.IsAlwaysCallable op.old }
    ensures callable { F.IsAlwaysCallable op.new }
    ensures copies { InEach S.stage T.rule target.old (λ s. CopiesRecordTo F.step R.item T.capacity
        T.grows T.rule S.stage (encoded_record shown.entry) op.old s result op.new
        target.new) }
{
    match op(shown) {
        Some(kept) => target.push(kept),
        None => Ok(()),
    }
}
