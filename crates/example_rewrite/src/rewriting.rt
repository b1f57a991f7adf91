//! Writes a message again with its TTLs capped, for a cache that keeps no record for longer
//! (RFC 1035 section 3.2.1).
ghost use Rattle.std.specs.Prelude.{◌≡◌, ◌≤◌, IfErr, IfOk, MatchResult, None, Some, option_map};
ghost use Rattle.dns_message.specs.Names.{fault_of, labels};
ghost use Rattle.dns_message.specs.Targets.{Static};
ghost use Rattle.dns_message.specs.Records.{encoded_record, record_item, laid_out};
ghost use Rattle.dns_message.specs.Messages.{message_octets};
ghost use Rattle.dns_message.specs.Sections.AnyRecordIter.{every};
ghost use Rattle.dns_message.specs.Sections.{limited, question_count, answer_count, authority_count, additional_count};
ghost use Rattle.dns_message.specs.Sections.QuestionSection.{questions_left};
ghost use Rattle.dns_message.specs.Sections.RecordSection.{records_left};
ghost use Rattle.dns_message.specs.Builders.{Represents, InAnswer, most_entries};
ghost use Rattle.dns_message.specs.Fields.{rtype_of, parts_of, type_layout};
ghost use Rattle.example_rewrite.specs.Rewriting.{first_fault, MessageReads, HasFault, IsCut, IsReason, cut_answer, begun};

use dns_message::builder::{
    AnswerBuilder, CopyRecordsError, MessageBuilder, PushError, copy_records,
};
use dns_message::code::{Rcode, Rtype};
use dns_message::fields::FieldData;
use dns_message::message::{Message, QuestionSection, RecordSection};
use dns_message::name::ParsedName;
use dns_message::record::{ParsedRecord, Record, Ttl};
use dns_message::target::StaticCompressor;
use dns_message::wire::{Octets, ParseError};
use std::alloc::Global;

/// The target that a message is written to.
type Target = StaticCompressor<Vec<u8>>;

/// Returns the message with the TTL of each record capped at `most`, and without its OPT records.
///
/// Returns `Parse` if a question or a record of the message can't be read, or if the RDATA of a
/// record is malformed. If there are several such errors, it may be any of them. Returns `Push`
/// with `OutOfMemory` if an allocation fails. Octets after the last record are no error, and are
/// left out.
pub fn with_ttls_cut<Octs: Octets>(
    alloc: Global,
    message: &Message<Octs>,
    most: Ttl,
) -> Result<Message<Vec<u8>>, CopyRecordsError>
    ensures cut { IfOk result (λ new. IsCut most (message_octets message.now)
        (message_octets new)) }
    ensures reason { IfErr result (λ e. IsReason (message_octets message.now) e) }
{
    counts_fit(message);
    check(message)?;
    let builder = begun(alloc, message)?;
    let copied = copy_records(message, builder, |shown| cut(shown, most))?;
    Ok(copied.into_message())
}

/// Shows that no section of a message has more than 65,535 entries.
fn counts_fit<Octs: Octets>(message: &Message<Octs>)
    ensures questions { question_count (message_octets message.now) ≤ most_entries }
    ensures answers { answer_count (message_octets message.now) ≤ most_entries }
    ensures authorities { authority_count (message_octets message.now) ≤ most_entries }
    ensures additionals { additional_count (message_octets message.now) ≤ most_entries }
{
    let counts = message.header_counts();
    let _questions = counts.qdcount();
    let _answers = counts.ancount();
    let _authorities = counts.nscount();
    let _additionals = counts.arcount();
}

/// Checks that all questions of a message and all its records can be read, with their RDATA.
fn check<Octs: Octets>(message: &Message<Octs>) -> Result<(), ParseError>
    ensures { MatchResult result (λ _. MessageReads (message_octets message.now))
        (λ e. HasFault (message_octets message.now) (fault_of e)) }
{
    let (questions, answers, authorities, additionals) = message.sections()?;
    check_questions(questions)?;
    check_records(answers)?;
    check_records(authorities)?;
    check_records(additionals)
}

/// Checks that all questions can be read.
fn check_questions(questions: QuestionSection<'_>) -> Result<(), ParseError>
    ensures { MatchResult result
        (λ _. first_fault (questions_left questions.entry) ≡ None)
        (λ e. first_fault (questions_left questions.entry) ≡ Some (fault_of e)) }
{
    for question in questions {
        question?;
    }
    Ok(())
}

/// Checks that all records can be read, with their RDATA.
fn check_records(records: RecordSection<'_>) -> Result<(), ParseError>
    ensures { let reading = limited (every type_layout) (records_left records.entry) in
        MatchResult result (λ _. first_fault reading ≡ None)
        (λ e. first_fault reading ≡ Some (fault_of e)) }
{
    for item in records.into_records::<FieldData<'_>>() {
        item?;
    }
    Ok(())
}

/// A builder with the header of a message and its questions before the first that can't be read.
fn begun<Octs: Octets>(
    alloc: Global,
    message: &Message<Octs>,
) -> Result<AnswerBuilder<Target>, PushError>
    ensures begun { IfOk result (λ builder. Represents InAnswer Static
        (begun (message_octets message.now)) builder) }
    ensures memory { IfErr result (λ e. e ≡ PushError.OutOfMemory) }
{
    counts_fit(message);
    let target = StaticCompressor::new(Vec::new(alloc));
    let mut builder = MessageBuilder::from_target(target)?.start_answer(message, Rcode::NOERROR)?;
    builder.set_header(message.header());
    Ok(builder)
}

/// The record with its TTL capped. `None` for an OPT record, or if the RDATA is malformed.
fn cut<'a>(shown: ParsedRecord<'a>, most: Ttl) -> Option<Record<ParsedName<'a>, FieldData<'a>>>
    ensures { let x = encoded_record shown.entry in
        option_map (record_item labels rtype_of parts_of) result
        ≡ cut_answer most (laid_out x (type_layout x.entry.rtype)) }
{
    if shown.rtype() == Rtype::OPT {
        return None;
    }
    match shown.into_any_record::<FieldData<'a>>() {
        Ok(mut record) => {
            let secs = record.ttl().as_secs().min(most.as_secs());
            record.set_ttl(Ttl::from_secs(secs));
            Some(record)
        }
        Err(_) => None,
    }
}
