//! What reading a message yields: its questions, the records of its sections, and records of a
//! type.
use crate::message::Call;
use dns_data::{A, Cname, ParseRecordData, UnknownRecordData};
use dns_read::{Message, MessageIter, QuestionSection, RecordIter, RecordSection};
use dns_wire::{ParseError, ParsedName};
use std::alloc::AllocError;
use std::fmt::Display;

/// How often a cursor or an iterator is asked for its next item. A case has fewer items.
const TIMES: u8 = 40;

/// A section of records, or why it has no start.
type Start<'a> = Result<RecordSection<'a>, ParseError>;

/// RDATA as octets.
type Opaque<'a> = UnknownRecordData<&'a [u8]>;

/// Writes what reading a part of a message yields.
pub(crate) fn write_reading(
    text: &mut String,
    message: &Message<&[u8]>,
    call: Call,
) -> Result<(), AllocError> {
    match call {
        Call::Questions => write_questions(text, message.question()),
        Call::Answer => write_records(text, message.answer()),
        Call::Authority => write_records(text, message.authority()),
        Call::Additional => write_records(text, message.additional()),
        Call::Items => write_items(text, message.iter()),
        _ => write_limited(text, message.answer()),
    }
}

/// Writes where a section starts, or why it doesn't.
fn write_start(text: &mut String, section: Start<'_>) -> Result<(), AllocError> {
    match section {
        Ok(records) => write!(text, "{}", records.pos()),
        Err(error) => write!(text, "{error}"),
    }
}

/// Writes the questions that a cursor yields or their error, where it ends, and where the next
/// section starts.
fn write_questions(
    text: &mut String,
    mut questions: QuestionSection<'_>,
) -> Result<(), AllocError> {
    for _ in 0..TIMES {
        write_item(text, questions.next())?;
    }
    write!(text, "end {}; next ", questions.pos())?;
    write_start(text, questions.next_section())
}

/// Writes where a section starts, and what its cursor yields; or why it has no start.
fn write_records(text: &mut String, section: Start<'_>) -> Result<(), AllocError> {
    write_start(text, section)?;
    match section {
        Ok(records) => write_yielded(text, records),
        Err(_) => Ok(()),
    }
}

/// Writes the records that a cursor yields or their error, where it ends, and where the next
/// section starts.
fn write_yielded(text: &mut String, mut records: RecordSection<'_>) -> Result<(), AllocError> {
    text.push_str("; ")?;
    for _ in 0..TIMES {
        match records.next() {
            Some(Ok(record)) => write_item(text, Some(record.into_any_record::<Opaque<'_>>()))?,
            Some(Err(error)) => write!(text, "{error}; ")?,
            None => {}
        }
    }
    write!(text, "end {}; next ", records.pos())?;
    match records.next_section().transpose() {
        Some(next) => write_start(text, next),
        None => text.push_str("none"),
    }
}

/// Writes an item or an error that was yielded, if any.
fn write_item<T: Display + Drop>(
    text: &mut String,
    item: Option<Result<T, ParseError>>,
) -> Result<(), AllocError> {
    match item {
        Some(Ok(item)) => write!(text, "{item}; "),
        Some(Err(error)) => write!(text, "{error}; "),
        None => Ok(()),
    }
}

/// Writes the section and the TTL of each record that an iterator yields, or the error.
fn write_items(text: &mut String, mut items: MessageIter<'_>) -> Result<(), AllocError> {
    for _ in 0..TIMES {
        match items.next() {
            Some(Ok((record, section))) => {
                write!(text, "{section:?} {}; ", record.ttl().as_secs())?;
            }
            Some(Err(error)) => write!(text, "{error}; ")?,
            None => {}
        }
    }
    text.push_str("end")
}

/// Writes the addresses in the answer section, those of class IN, and the aliases.
fn write_limited(text: &mut String, section: Start<'_>) -> Result<(), AllocError> {
    let Ok(answers) = section else {
        return Ok(());
    };
    write_typed::<A>(text, "", answers.limit_to())?;
    write_typed::<A>(text, "; IN: ", answers.limit_to_in())?;
    write_typed::<Cname<ParsedName<'_>>>(text, "; CNAME: ", answers.limit_to())
}

/// Writes the records of a type that an iterator yields or their error, and where it ends.
fn write_typed<'a, D: ParseRecordData<'a> + Display + Drop>(
    text: &mut String,
    head: &str,
    mut records: RecordIter<'a, D>,
) -> Result<(), AllocError> {
    write!(text, "{head}")?;
    for _ in 0..TIMES {
        write_item(text, records.next())?;
    }
    write!(text, "end {}", records.unwrap().pos())
}
