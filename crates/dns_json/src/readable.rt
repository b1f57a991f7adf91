//! Whether the entries of a message can be read, and are all of it.
ghost use Rattle.std.specs.Prelude.{◌≡◌, ◌&&◌, Some};
ghost use Rattle.dns_read.specs.Message.{message_octets};
ghost use Rattle.dns_read.specs.QuestionSection.{questions_left};
ghost use Rattle.dns_read.specs.RecordSection.{position, records_left};
ghost use Rattle.dns_json.specs.Cursors.{end_left, reading_left};
ghost use Rattle.dns_json.specs.Entries.{end_of, is_readable};
ghost use Rattle.dns_json.specs.Messages.{ends_at, is_whole};

use dns_octets::ParseError;
use dns_read::{Message, QuestionSection, RecordSection};

/// Whether each section of a message has a start, each entry can be read, and no octets follow the
/// last.
pub(crate) fn is_whole(message: &Message<&[u8]>) -> bool
    ensures { result ≡ is_whole (message_octets message.now) }
{
    let questions = are_readable(message.question());
    let answers = is_readable(message.answer());
    let authorities = is_readable(message.authority());
    let last = message.additional();
    let additionals = is_readable(last);
    let ends = ends_at(last, message.as_slice().len());
    are_all(questions, answers, authorities, additionals, ends)
}

fn are_all(questions: bool, answers: bool, authorities: bool, additionals: bool, ends: bool) -> bool
    ensures { result ≡ (questions && answers && authorities && additionals && ends) }
{
    questions && answers && authorities && additionals && ends
}

/// Whether each question can be read.
fn are_readable(questions: QuestionSection<'_>) -> bool
    ensures { result ≡ is_readable (Some (questions_left questions.entry)) }
{
    let mut questions = questions;
    while let Some(question) = questions.next() {
        if !question.is_ok() {
            return false;
        }
    }
    true
}

/// Whether a section of records has a start, and each record can be read.
fn is_readable(records: Result<RecordSection<'_>, ParseError>) -> bool
    ensures { result ≡ is_readable (reading_left records.entry) }
{
    match records {
        Ok(records) => each_is_readable(records),
        Err(_) => false,
    }
}

/// Whether each record can be read.
fn each_is_readable(records: RecordSection<'_>) -> bool
    ensures { result ≡ is_readable (Some (records_left records.entry)) }
{
    let mut records = records;
    while let Some(parsed) = records.next() {
        if !parsed.is_ok() {
            return false;
        }
    }
    true
}

/// Whether a section of records has a start, and `len` is the offset after its records.
fn ends_at(records: Result<RecordSection<'_>, ParseError>, len: usize) -> bool
    ensures { result ≡ ends_at (end_left records.entry) len }
{
    match records {
        Ok(records) => end_of(records) == len,
        Err(_) => false,
    }
}

/// The offset after the records of a section that can be read.
fn end_of(records: RecordSection<'_>) -> usize
    ensures { result ≡ end_of (position records.entry) (records_left records.entry) }
{
    let mut records = records;
    while let Some(_parsed) = records.next() {}
    records.pos()
}
