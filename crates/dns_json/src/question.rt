//! The questions of a message as JSON (RFC 8427 section 2.1).
ghost use Rattle.std.specs.Prelude.{◌≡◌, ◌||◌, ◌++◌, false, is_ok, map, IfOk, OnErr, OnOk, Some, codes, option_map};
ghost use Rattle.std.specs.Fmt.{WritesInCalls};
ghost use Rattle.dns_item.specs.Question.{parsed_question};
ghost use Rattle.dns_print.specs.Printing.{PrintsOnOk};
ghost use Rattle.dns_read.specs.QuestionSection.{question_result, questions_left};
ghost use Rattle.json_print.specs.Texts.{comma_if, items_text, json_text, member_text, members_text};
ghost use Rattle.dns_json.specs.Entries.{entries_json, entry_text, readable};
ghost use Rattle.dns_json.specs.Messages.{asked_members, question_json};

use crate::header::{write_class, write_owner, write_type};
use crate::text::NameText;
use dns_item::Question;
use dns_name::ParsedName;
use dns_octets::ParseError;
use dns_print::TextWriter;
use dns_read::QuestionSection;
use json_print::{write_comma_if, write_member_name, write_string_member};
use std::fmt;

/// Prints the members for the first question, if there is one.
pub(crate) fn write_asked<T: TextWriter>(
    writer: &mut T,
    question: Option<Question<ParsedName<'_>>>,
) -> fmt::Result
    ensures text { PrintsOnOk T.takes writer.old result
        (members_text (asked_members (option_map parsed_question question.entry))) writer.new }
    ensures err { OnErr result T.MayFail }
{
    match question {
        Some(question) => write_first(writer, &question),
        None => Ok(()),
    }
}

/// Prints the members for the first question.
fn write_first<T: TextWriter>(writer: &mut T, question: &Question<ParsedName<'_>>) -> fmt::Result
    ensures text { PrintsOnOk T.takes writer.old result
        (members_text (asked_members (Some (parsed_question question.now)))) writer.new }
    ensures err { OnErr result T.MayFail }
{
    write_string_member(writer, "QNAME", &NameText(*question.qname()))?;
    write_type(writer, "QTYPE", "QTYPEname", question.qtype())?;
    write_class(writer, "QCLASS", "QCLASSname", question.qclass())
}

/// Prints the member for the question section.
pub(crate) fn write_questions<T: TextWriter>(
    writer: &mut T,
    questions: QuestionSection<'_>,
) -> fmt::Result
    ensures text { PrintsOnOk T.takes writer.old result (member_text (
      codes "questionRRs",
      entries_json question_json (questions_left questions.entry),
    )) writer.new }
    ensures err { OnErr result T.MayFail }
{
    write_member_name(writer, "questionRRs")?;
    writer.write_text("[")?;
    write_each(writer, questions)?;
    writer.write_text("]")
}

/// Prints each question that can be read, with commas between them.
fn write_each<T: TextWriter>(writer: &mut T, questions: QuestionSection<'_>) -> fmt::Result
    ensures text { PrintsOnOk T.takes writer.old result
        (items_text false (map question_json (readable (questions_left questions.entry))))
        writer.new }
    ensures err { OnErr result T.MayFail }
{
    let mut questions = questions;
    let mut later = false;
    while let Some(question) = questions.next() {
        later = write_item(writer, later, question)?;
    }
    Ok(())
}

/// Prints a question, after a comma if it follows another, and nothing for an error. Returns
/// whether the next question follows another.
fn write_item<T: TextWriter>(
    writer: &mut T,
    later: bool,
    question: Result<Question<ParsedName<'_>>, ParseError>,
) -> Result<bool, fmt::Error>
    ensures text { OnOk result (WritesInCalls T.takes writer.old
        (entry_text question_json later (question_result question.entry)) writer.new) }
    ensures later { IfOk result (λ next. next ≡ (later || is_ok (question_result question.entry))) }
    ensures err { OnErr result T.MayFail }
{
    match question {
        Ok(question) => {
            write_question(writer, later, &question)?;
            Ok(true)
        }
        Err(_) => Ok(later),
    }
}

/// Prints a question as an object, after a comma if it follows another.
fn write_question<T: TextWriter>(
    writer: &mut T,
    later: bool,
    question: &Question<ParsedName<'_>>,
) -> fmt::Result
    ensures text { PrintsOnOk T.takes writer.old result
        (comma_if later ++ json_text (question_json (parsed_question question.now))) writer.new }
    ensures err { OnErr result T.MayFail }
{
    write_comma_if(writer, later)?;
    write_object(writer, question)
}

/// Prints a question as an object.
fn write_object<T: TextWriter>(writer: &mut T, question: &Question<ParsedName<'_>>) -> fmt::Result
    ensures text { PrintsOnOk T.takes writer.old result
        (json_text (question_json (parsed_question question.now))) writer.new }
    ensures err { OnErr result T.MayFail }
{
    write_owner(
        writer,
        question.qname(),
        question.qtype(),
        question.qclass(),
    )?;
    writer.write_text("}")
}
