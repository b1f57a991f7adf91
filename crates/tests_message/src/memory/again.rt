//! Pushes that are made again if an allocation failed.
use crate::asserts::assert_octets;
use arrayvec::ArrayVec;
use dns_message::builder::{Builder, BuilderStage, PushError, QuestionBuilder, RecordStage};
use dns_message::question::ComposeQuestion;
use dns_message::record::ComposeRecord;
use dns_message::target::Composer;
use std::process::Abort;

/// An array that no message of a test fills.
pub(crate) type Array = ArrayVec<u8, 128>;

/// The octets of the builder now, which begin with the header and the counts.
pub(crate) fn octets_before<R: Abort, T: Composer, S: BuilderStage>(
    rt: &R,
    builder: &Builder<T, S>,
) -> Array {
    Array::try_from(builder.as_slice()).expect(rt, "a capacity")
}

/// Whether a push failed with `OutOfMemory`.
pub(crate) fn is_refused(answer: Result<(), PushError>) -> bool {
    matches!(answer, Err(PushError::OutOfMemory))
}

/// Pushes a question, and does so again if an allocation failed.
pub(crate) fn push_question<R: Abort, T: Composer, Q: ComposeQuestion>(
    rt: &R,
    builder: &mut QuestionBuilder<T>,
    question: &Q,
) {
    let before = octets_before(rt, builder);
    if is_refused(builder.push(question)) {
        assert_octets(rt, "refused call", builder.as_slice(), &before);
        builder.push(question).expect(rt, "question");
    }
}

/// Pushes a record, and does so again if an allocation failed.
pub(crate) fn push_record<R: Abort, T: Composer, S: RecordStage, D: ComposeRecord>(
    rt: &R,
    builder: &mut Builder<T, S>,
    record: &D,
) {
    let before = octets_before(rt, builder);
    if is_refused(builder.push(record)) {
        assert_octets(rt, "refused call", builder.as_slice(), &before);
        builder.push(record).expect(rt, "record");
    }
}
