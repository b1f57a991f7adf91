//! What calls of the library return for a message, or for arguments, by these lines of a case:
//!
//! - `message DIGITS`, `other DIGITS`: the octets of the message, and of a second one.
//! - `sole TYPE`: `Message::sole_question`: its type's number, or the error.
//! - `is-answer yes`, `same-questions yes`: whether the message answers the second one, and asks
//!   the same; else `no`.
//! - `rcode NUMBER`: `Message::opt_rcode`. `canonical NAME`: `Message::canonical_name`, or `none`.
//! - `age SECONDS = DIGITS`, `cap SECONDS = DIGITS`, `change-cap SECONDS = DIGITS`: the message
//!   after `age_ttls`, `cap_ttls`, or `change_ttls` with this cap; or the error.
//! - `id NUMBER = DIGITS`, `header-rcode NUMBER = DIGITS`: after `set_id`, `set_rcode`.
//!   `question-case NAME = DIGITS`: after `set_question_case`; or the error. `replace-option CODE
//!   DIGITS = DIGITS`: after `replace_option` with this data; `none` without such an option, or the
//!   error.
//! - `regular yes`: `is_regular`; else `no`. `end NUMBER`: `records_end`, or the error.
//! - `least SECONDS`: `min_ttl`; `none` if there is no record, or the error.
//! - `questions`, `answer`, `authority`, `additional TEXT`: where the section starts, unless first;
//!   what its cursor yields; where that ends, and the next section starts. `items TEXT`: what
//!   `iter` yields.
//! - `limited TEXT`: what `limit_to` yields of A, `limit_to_in` of A, and `limit_to` of CNAME, in
//!   the answer section.
//! - `has-address yes`, `last-address ADDRESS`: `contains_answer` and `get_last_additional` of A.
//! - `many-opts yes`: `has_many_opts`.
//! - `remove-last 0 = DIGITS`: the message after `remove_last_additional`.
//! - `axfr ZONE = TEXT`, `ixfr SERIAL ZONE = TEXT`: the steps of the messages as a response to a
//!   query with ID 1234, and how it ends.
//! - `writes-zone NUMBER = DIGITS DIGITS`, `writes-changes NUMBER = DIGITS`: the messages that a
//!   `TransferWriter` writes of the records, with this number of octets at most, in response to the
//!   second message; and the error that ends them, if any.
//! - `reply ZONE = TEXT`, `reply-exact ZONE = TEXT`: what the message says of the second one's
//!   question, by `reply_to` or `reply_to_exact`.
//! - `redirected NAME OWNER TARGET = NAME`: `substitute`, or `none`.
//! - `opt LINE`: what `Message::opt` returns for the message of the input; no `LINE`: none.
//! - `file WORDS = NAME`: the file that these arguments of `dnsview` ask for.
//! - `rows DIGITS = one`: one row shows these octets; else `more`.
ghost use Rattle.std.specs.Prelude.{◌<◌, IfOk, IsTrue, length};

use crate::edits::{cased_shown, changed_shown, replaced_shown};
use crate::opt::opt_line;
use crate::replies::{redirected_shown, reply_shown};
use crate::returned::write_call;
use crate::run::{Run, words_of};
use crate::transfer::transfer_shown;
use crate::written::written_shown;
use cases_files::{Report, key_of, octets_of};
use dnsview_tool::{file_of, rows};
use std::alloc::{AllocError, Global};
use std::io;
use std::io::Write;

/// A call that a line of a case is about.
#[derive(Clone, Copy)]
pub(crate) enum Call {
    Opt,
    File,
    Rows,
    Rcode,
    Canonical,
    Sole,
    Least,
    IsAnswer,
    SameQuestions,
    Age,
    Cap,
    ChangeCap,
    Id,
    HeaderRcode,
    QuestionCase,
    ReplaceOption,
    RemoveLast,
    Regular,
    End,
    LastAddress,
    HasAddress,
    ManyOpts,
    Questions,
    Answer,
    Authority,
    Additional,
    Items,
    Limited,
    Axfr,
    Ixfr,
    WritesZone,
    WritesChanges,
    Reply,
    ReplyExact,
    Redirected,
}

/// The calls, each after its key.
const CALLS: &[(&str, Call)] = &[
    ("opt", Call::Opt),
    ("file", Call::File),
    ("rows", Call::Rows),
    ("rcode", Call::Rcode),
    ("canonical", Call::Canonical),
    ("sole", Call::Sole),
    ("least", Call::Least),
    ("is-answer", Call::IsAnswer),
    ("same-questions", Call::SameQuestions),
    ("age", Call::Age),
    ("cap", Call::Cap),
    ("change-cap", Call::ChangeCap),
    ("id", Call::Id),
    ("header-rcode", Call::HeaderRcode),
    ("question-case", Call::QuestionCase),
    ("replace-option", Call::ReplaceOption),
    ("regular", Call::Regular),
    ("end", Call::End),
    ("remove-last", Call::RemoveLast),
    ("last-address", Call::LastAddress),
    ("has-address", Call::HasAddress),
    ("many-opts", Call::ManyOpts),
    ("questions", Call::Questions),
    ("answer", Call::Answer),
    ("authority", Call::Authority),
    ("additional", Call::Additional),
    ("items", Call::Items),
    ("limited", Call::Limited),
    ("axfr", Call::Axfr),
    ("ixfr", Call::Ixfr),
    ("writes-zone", Call::WritesZone),
    ("writes-changes", Call::WritesChanges),
    ("reply", Call::Reply),
    ("reply-exact", Call::ReplyExact),
    ("redirected", Call::Redirected),
];

impl Call {
    /// The call that a key names, if it is one.
    pub(crate) fn of_key(key: &str) -> Option<Call> {
        for call in CALLS {
            if call.0 == key {
                return Some(call.1);
            }
        }
        None
    }
}

/// Checks a line of a case that says what a call returns, if it is one.
pub(crate) fn check_call<W: Write + Drop>(
    alloc: Global,
    report: &mut Report<'_, W>,
    run: &Run<'_>,
    line: &str,
) -> io::Result<()> {
    let (key, text) = key_of(line);
    let Some(call) = Call::of_key(key) else {
        return Ok(());
    };
    let shown = match call {
        Call::Opt => opt_line(alloc, run.input.as_slice())?,
        Call::File => file_shown(alloc, text)?,
        Call::Rows => rows_shown(alloc, text)?,
        Call::Reply | Call::ReplyExact => reply_shown(alloc, run, call, text)?,
        Call::Redirected => redirected_shown(alloc, text)?,
        Call::QuestionCase => cased_shown(alloc, run, text)?,
        Call::ReplaceOption => replaced_shown(alloc, run, text)?,
        Call::Age | Call::Cap | Call::ChangeCap | Call::Id | Call::HeaderRcode | Call::RemoveLast =>
            changed_shown(alloc, run, call, text)?,
        Call::Axfr | Call::Ixfr => transfer_shown(alloc, run, call, text)?,
        Call::WritesZone | Call::WritesChanges => written_shown(alloc, run, call, text)?,
        _ => message_shown(alloc, run, call)?,
    };
    report.check(line, text.as_bytes(), shown.as_bytes())
}

/// Arguments of `dnsview`, and after `=` the file that they ask a view of.
fn file_shown(alloc: Global, text: &str) -> io::Result<String> {
    let (words, _) = text.split_once('=').unwrap_or((text, ""));
    let arguments = words_of(alloc, words)?;
    let file = file_of(&arguments).map_or("", |file| file.as_str());
    let space = if file.is_empty() { "" } else { " " };
    Ok(format!(in alloc; "{words}={space}{file}")?)
}

/// Whether one row shows the whole message. It does if the message has fewer than 12 octets.
fn is_one_row(alloc: Global, octets: &[u8]) -> Result<bool, AllocError>
    ensures { length octets.now < 12 → IfOk result (λ one. IsTrue one) }
{
    Ok(rows(alloc, octets)?.len() == 1)
}

/// Octets, and after `=` whether one row shows them, or more.
fn rows_shown(alloc: Global, text: &str) -> io::Result<String> {
    let (digits, _) = text.split_once('=').unwrap_or((text, ""));
    let Some(octets) = octets_of(alloc, digits)? else {
        return Ok(String::from_str(alloc, "bad digits")?);
    };
    let number = if is_one_row(alloc, octets.as_slice())? {
        "one"
    } else {
        "more"
    };
    Ok(format!(in alloc; "{digits}= {number}")?)
}

/// What a call returns for the message of a case.
fn message_shown(alloc: Global, run: &Run<'_>, call: Call) -> Result<String, AllocError> {
    let mut text = String::new(alloc);
    write_call(&mut text, run, call)?;
    Ok(text)
}
