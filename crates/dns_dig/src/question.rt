//! The question section.
ghost use Rattle.std.specs.Prelude.{◌≡◌, OnErr};
ghost use Rattle.dns_item.specs.Question.{parsed_question};
ghost use Rattle.dns_name.specs.ParsedName.{labels};
ghost use Rattle.dns_print.specs.Printing.{PrintsOnOk};
ghost use Rattle.dns_read.specs.QuestionSection.{question_result, questions_left};
ghost use Rattle.dns_dig.specs.Lines.{line_text};
ghost use Rattle.dns_dig.specs.Records.{question_line, question_row};
ghost use Rattle.dns_dig.specs.Sections.{question_heading, question_item_line, questions_text};

use crate::column::end_in;
use crate::count::{class_length, name_length};
use crate::line::{write_end, write_heading};
use crate::record::write_class_and_type;
use dns_iana::{Class, Opcode, Rtype};
use dns_item::Question;
use dns_name::ParsedName;
use dns_octets::ParseError;
use dns_print::TextWriter;
use dns_read::QuestionSection;
use fields_plain::write_zone_name;
use std::fmt;

/// Prints the question section.
pub(crate) fn write_questions<T: TextWriter>(
    writer: &mut T,
    opcode: Opcode,
    questions: QuestionSection<'_>,
) -> fmt::Result
    ensures text { PrintsOnOk T.takes writer.old result
        (questions_text opcode (questions_left questions.entry)) writer.new }
    ensures err { OnErr result T.MayFail }
{
    let heading = question_heading(opcode);
    let mut questions = questions;
    let mut begun = false;
    while let Some(question) = questions.next() {
        write_item(writer, heading, begun, question)?;
        begun = true;
    }
    write_end(writer, begun)
}

/// The heading of the question section.
fn question_heading(opcode: Opcode) -> &'static str
    ensures { result.now ≡ question_heading opcode }
{
    if opcode == Opcode::UPDATE {
        ";; ZONE SECTION:\n"
    } else {
        ";; QUESTION SECTION:\n"
    }
}

/// Prints the line of a question or of an error, after the heading if it is the first.
fn write_item<T: TextWriter>(
    writer: &mut T,
    heading: &str,
    begun: bool,
    question: Result<Question<ParsedName<'_>>, ParseError>,
) -> fmt::Result
    ensures text { PrintsOnOk T.takes writer.old result (line_text heading.now begun
        (question_item_line (question_result question.entry))) writer.new }
    ensures err { OnErr result T.MayFail }
{
    write_heading(writer, heading, begun)?;
    write_item_line(writer, question)
}

/// Prints the line of a question or of an error.
fn write_item_line<T: TextWriter>(
    writer: &mut T,
    question: Result<Question<ParsedName<'_>>, ParseError>,
) -> fmt::Result
    ensures text { PrintsOnOk T.takes writer.old result
        (question_item_line (question_result question.entry)) writer.new }
    ensures err { OnErr result T.MayFail }
{
    match question {
        Ok(question) => write_question(writer, &question),
        Err(_) => writer.write_text(";; malformed question in the question section\n"),
    }
}

/// Prints the line of a question.
fn write_question<T: TextWriter>(writer: &mut T, question: &Question<ParsedName<'_>>) -> fmt::Result
    ensures text { PrintsOnOk T.takes writer.old result
        (question_line (parsed_question question.now)) writer.new }
    ensures err { OnErr result T.MayFail }
{
    writer.write_text(";")?;
    write_row(
        writer,
        question.qname(),
        question.qclass(),
        question.qtype(),
    )?;
    writer.write_text("\n")
}

/// Prints the name, the class and the type of a question.
fn write_row<T: TextWriter>(
    writer: &mut T,
    name: &ParsedName<'_>,
    class: Class,
    rtype: Rtype,
) -> fmt::Result
    ensures text { PrintsOnOk T.takes writer.old result
        (question_row (record { name = labels name.now; rtype = rtype; class = class }))
        writer.new }
    ensures err { OnErr result T.MayFail }
{
    let name_end = name_length(name);
    let class_end = end_in(name_end, 32, class_length(class));
    write_zone_name(writer, name)?;
    write_class_and_type(writer, name_end, class, class_end, rtype)
}
