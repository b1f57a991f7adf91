//! Prints a message as text: its header, its counts, and a line for each item of each section.
ghost use Rattle.std.specs.Prelude.{◌≡◌, ◌++◌, None, Ok, IfOk, OnOk, codes};
ghost use Rattle.std.specs.Io.KnownBytes.{Appends};
ghost use Rattle.std.specs.List.{flat_map};
ghost use Rattle.dns_code.specs.Header.{fields};
ghost use Rattle.dns_code.specs.HeaderCounts.{counts as count_fields};
ghost use Rattle.dns_item.specs.ParsedRecord.{encoded_record};
ghost use Rattle.dns_read.specs.Message.{message_octets};
ghost use Rattle.dns_read.specs.QuestionSection.{question_result, questions_left};
ghost use Rattle.dns_lines.specs.Show.{header_line, counts_line, line, question_line, record_line, section_word, IsRead, HasShortData, text_with, message_text};
ghost use Rattle.dns_lines.specs.Walk.{SameAnswersFollow};

use crate::known_data::KnownData;
use crate::record_lines::{RecordLines, print_sections, section_word};
use dns_code::{Header, HeaderCounts};
use dns_data::UnknownRecordData;
use dns_item::{ParsedRecord, Question};
use dns_name::ParsedName;
use dns_octets::ParseError;
use dns_read::{Message, QuestionSection, Section};
use std::io;
use std::io::Write;

/// Prints a message: a line for its header, one for its counts, and one for each item of each
/// section.
///
/// If a section has no start, prints that it is missing, and nothing after that. Returns the error
/// of `writer` if it fails.
pub fn print_message<W: Write>(writer: &mut W, message: &Message<&[u8]>) -> io::Result<()>
    ensures { OnOk result (Appends (W.contents writer.old) (W.contents writer.new)
        (message_text (message_octets message.now))) }
{
    print_header(writer, message.header())?;
    print_counts(writer, message.header_counts())?;
    let questions = print_questions(writer, message.question())?;
    match questions.answer() {
        Ok(answer) => print_sections::<ShownLines, W>(writer, answer),
        Err(_) => ShownLines::print_missing(writer, Section::Answer),
    }
}

fn print_header<W: Write>(writer: &mut W, header: Header) -> io::Result<()>
    ensures { OnOk result (Appends (W.contents writer.old) (W.contents writer.new)
        (header_line (fields header))) }
{
    let id = header.id();
    let opcode = header.opcode().to_int();
    let rcode = header.rcode().to_int();
    let z = u8::from(header.z());
    let flags = header.flags();
    writeln!(
        writer,
        "header id={id} opcode={opcode} rcode={rcode} z={z} flags={flags}"
    )
}

fn print_counts<W: Write>(writer: &mut W, counts: HeaderCounts) -> io::Result<()>
    ensures { OnOk result (Appends (W.contents writer.old) (W.contents writer.new)
        (counts_line (count_fields counts))) }
{
    let questions = counts.qdcount();
    let answers = counts.ancount();
    let authorities = counts.nscount();
    let additionals = counts.arcount();
    writeln!(
        writer,
        "counts {questions} {answers} {authorities} {additionals}"
    )
}

/// Prints a line for each question, and one for the error of the first that can't be read. Returns
/// the cursor after the questions that can be read, from which the answer section follows.
fn print_questions<'a, W: Write>(
    writer: &mut W,
    questions: QuestionSection<'a>,
) -> io::Result<QuestionSection<'a>>
    ensures printed { OnOk result (Appends (W.contents writer.old) (W.contents writer.new)
        (flat_map question_line (questions_left questions.entry))) }
    ensures follows { IfOk result (SameAnswersFollow questions.entry) }
{
    let mut questions = questions;
    let mut readable = questions;
    while let Some(question) = questions.next() {
        if question.is_ok() {
            readable = questions;
        }
        print_question(writer, question)?;
    }
    Ok(readable)
}

fn print_question<W: Write>(
    writer: &mut W,
    question: Result<Question<ParsedName<'_>>, ParseError>,
) -> io::Result<()>
    ensures { OnOk result (Appends (W.contents writer.old) (W.contents writer.new)
        (question_line (question_result question.entry))) }
{
    match question {
        Ok(question) => writeln!(writer, "question {question}"),
        Err(_) => writeln!(writer, "question error"),
    }
}

/// The lines of a message for its records.
struct ShownLines;

impl RecordLines for ShownLines {
    ghost use Rattle.std.specs.Prelude.{OnOk, IfOk};
    ghost use Rattle.dns_lines.specs.Show.{record_line, section_word, missing_line};

    ghost item_text = { λ section. record_line (section_word section) };

    ghost missing_text = { missing_line };

    fn print_record<W: Write>(
        writer: &mut W,
        section: Section,
        parsed: Result<ParsedRecord<'_>, ParseError>,
    ) -> io::Result<()> {
        let word = section_word(section);
        match parsed {
            Ok(parsed) => print_parsed(writer, word, &parsed),
            Err(_) => writeln!(writer, "{word} error"),
        }
    }

    fn print_missing<W: Write>(writer: &mut W, section: Section) -> io::Result<()> {
        let word = section_word(section);
        writeln!(writer, "{word} missing")
    }
}

/// Prints a record: its RDATA by its fields if `KnownData` accepts its type and the RDATA is
/// well-formed, else as octets.
fn print_parsed<W: Write>(writer: &mut W, word: &str, record: &ParsedRecord<'_>) -> io::Result<()>
    requires read { IsRead (encoded_record «record».now) }
    requires short { HasShortData (encoded_record «record».now) }
    ensures { OnOk result (Appends (W.contents writer.old) (W.contents writer.new)
        (record_line word.now (Ok (encoded_record «record».now)))) }
{
    match record.to_record::<KnownData<ParsedName<'_>>>() {
        Ok(Some(record)) => writeln!(writer, "{word} {record}"),
        Ok(None) => print_opaque(writer, word, record),
        Err(_) => print_opaque(writer, word, record),
    }
}

/// Prints a record with its RDATA as octets.
fn print_opaque<W: Write>(writer: &mut W, word: &str, record: &ParsedRecord<'_>) -> io::Result<()>
    requires read { IsRead (encoded_record «record».now) }
    requires short { HasShortData (encoded_record «record».now) }
    ensures { OnOk result (Appends (W.contents writer.old) (W.contents writer.new)
        (line (word.now ++ codes " " ++ text_with (encoded_record «record».now) None))) }
{
    let record = record.to_any_record::<UnknownRecordData<&[u8]>>().unwrap();
    writeln!(writer, "{word} {record}")
}
