//! Answers queries from a table of records. An answer is no longer than the client accepts
//! (RFC 1035 section 4.1, RFC 6891 section 6.2).
ghost use Rattle.std.specs.Prelude.{◌≡◌, ◌≤◌, ◌<◌, IfOk, IfErr, Some, None, Err, length, map, max};
ghost use Rattle.dns_message.specs.Targets.{Plain};
ghost use Rattle.dns_message.specs.Headers.{header_size};
ghost use Rattle.dns_message.specs.Questions.{parsed_question, QuestionItem};
ghost use Rattle.dns_message.specs.Records.{record_item};
ghost use Rattle.dns_message.specs.Messages.{message_octets, asked_first};
ghost use Rattle.dns_message.specs.Builders.{InAnswer, InBuilder, with_limit, InEach, Represents, fresh};
ghost use Rattle.example_answer.specs.Answering.{HasNoAnswer, IsMessage, answer_to, asked_records, format_error, is_asked, payload_size};
ghost use Rattle.example_answer.specs.Pushing.{AddsRecords, PushesEach};

use dns_message::builder::{AnswerBuilder, MessageBuilder, PushError};
use dns_message::code::Rcode;
use dns_message::data::ComposeRecordData;
use dns_message::message::Message;
use dns_message::name::{ParsedName, ToName, ToNameExt};
use dns_message::question::Question;
use dns_message::record::Record;
use std::alloc::Global;
use thiserror::Error;

/// Why there is no answer.
#[derive(Clone, Copy, Debug, Error)]
pub enum NoAnswer {
    /// The query has fewer than 12 octets, so it has no ID to answer to.
    #[error("the query has fewer than 12 octets")]
    ShortQuery,
    /// The questions alone exceed what the client accepts, or an allocation failed.
    #[error("no answer: {0}")]
    Refused(PushError),
}

impl From<PushError> for NoAnswer {
    ghost use Rattle.std.specs.Prelude.{◌≡◌};
    ghost use Rattle.example_answer.specs.declared.answering.NoAnswer.TheVariants as reasons;

    ghost from_gives = { λ error reason. reason ≡ reasons.Refused error };

    fn from(error: PushError) -> Self {
        NoAnswer::Refused(error)
    }
}

/// Returns the answer to a query: the records of `table` that match its first question. If they
/// don't fit what the client accepts, the answer has none of them, and TC is set. If the first
/// question can't be read, the answer has the rcode FORMERR.
pub fn answer<N: ToName, D: ComposeRecordData>(
    alloc: Global,
    query: &[u8],
    table: &[Record<N, D>],
) -> Result<Vec<u8>, NoAnswer>
    ensures limit { IfOk result (λ answer. length answer.items ≤ payload_size query.now) }
    ensures answers { IfOk result (λ answer. (asked : QuestionItem)
        → asked_first query.now ≡ Some asked
        → let records = map (record_item N.name D.rtype_of D.parts) table.now in
        IsMessage (answer_to query.now records asked) answer.items) }
    ensures unreadable { IfOk result (λ answer. asked_first query.now ≡ None
        → IsMessage (format_error query.now) answer.items) }
    ensures refused { IfErr result (HasNoAnswer query.now) }
    ensures short { length query.now < header_size → result ≡ Err NoAnswer.ShortQuery }
{
    let Ok(message) = Message::from_slice(query) else {
        return Err(NoAnswer::ShortQuery);
    };
    let builder = limited(alloc, limit_of(&message))?;
    let Some(question) = message.first_question() else {
        let error = builder.start_error(&message, Rcode::masked_from_int(1));
        return Ok(error.into_message().into_octets());
    };
    let started = builder.start_answer(&message, Rcode::NOERROR)?;
    let answered = with_found(started, &question, table)?;
    Ok(answered.into_message().into_octets())
}

/// A builder for a message of at most `limit` octets.
fn limited(alloc: Global, limit: usize) -> Result<MessageBuilder<Vec<u8>>, PushError>
    ensures represents { IfOk result (Represents InBuilder Plain (with_limit limit fresh)) }
    ensures memory { IfErr result (λ error. error ≡ PushError.OutOfMemory) }
{
    let mut builder = MessageBuilder::new_vec(alloc)?;
    builder.set_push_limit(limit);
    Ok(builder)
}

/// The number of octets that the client accepts.
fn limit_of(query: &Message<&[u8]>) -> usize
    ensures value { result ≡ payload_size (message_octets query.now) }
    ensures within { result ≤ 65535 }
{
    match query.opt() {
        Some(opt) => usize::from(opt.udp_payload_size()).max(512),
        None => 512,
    }
}

/// Pushes the records that match `question`. If they exceed the limit, pushes none of them and sets
/// TC.
fn with_found<N: ToName, D: ComposeRecordData>(
    builder: AnswerBuilder<Vec<u8>>,
    question: &Question<ParsedName<'_>>,
    table: &[Record<N, D>],
) -> Result<AnswerBuilder<Vec<u8>>, PushError>
    ensures { let records = map (record_item N.name D.rtype_of D.parts) table.now in
        InEach InAnswer Plain builder (λ s.
        AddsRecords (asked_records (parsed_question question.now) records) s result) }
{
    let mut builder = builder;
    match push_found(&mut builder, question, table) {
        Ok(()) => Ok(builder),
        Err(PushError::LimitExceeded) => Ok(builder.tc_rewind_into()),
        Err(error) => Err(error),
    }
}

/// Pushes the records that match `question`, up to the first that is refused.
fn push_found<N: ToName, D: ComposeRecordData>(
    builder: &mut AnswerBuilder<Vec<u8>>,
    question: &Question<ParsedName<'_>>,
    table: &[Record<N, D>],
) -> Result<(), PushError>
    ensures { let records = map (record_item N.name D.rtype_of D.parts) table.now in
        InEach InAnswer Plain builder.old (λ s.
        PushesEach (asked_records (parsed_question question.now) records) s result builder.new) }
{
    for found in table {
        if is_asked(question, found) {
            builder.push_ref(found)?;
        }
    }
    Ok(())
}

/// Whether the record matches the question.
fn is_asked<N: ToName, D: ComposeRecordData>(
    question: &Question<ParsedName<'_>>,
    found: &Record<N, D>,
) -> bool
    ensures { result ≡ is_asked (parsed_question question.now)
        (record_item N.name D.rtype_of D.parts found.now) }
{
    found.owner().name_eq(question.qname())
        && found.rtype() == question.qtype()
        && found.class() == question.qclass()
}
