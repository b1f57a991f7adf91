//! The lines of a script, and the calls that they request.
ghost use Rattle.std.specs.Prelude.{◌≡◌, ◌↔◌, option_map, IfOk, IsSome, IsTrue};
ghost use Rattle.std.specs.Str.{IsAscii};
ghost use Rattle.dns_name.specs.NameReading.{name_labels};
ghost use Rattle.dns_code.specs.Flags.{flags_read};
ghost use Rattle.dns_code.specs.Header.{fields};
ghost use Rattle.dns_item.specs.Question.{question_item};
ghost use Rattle.dns_build.specs.State.{State};
ghost use Rattle.dns_script.specs.Script.{StageRepresents};
ghost use Rattle.dnsmsg_tool.specs.Lines.{AreQuestionWords, IsNumberChange, IsSkippedLine, changed};
ghost use Rattle.dnsmsg_tool.specs.ScriptCalls.{AppliesAny, AreCallWords, AreLineWords, ArePushWords, IsCallWord, IsNumberCall, IsShortCall, ReadsLine, stage_kind};
ghost use Rattle.dnsmsg_tool.specs.ScriptWords.{spaced_words, without_tabs, ReadsValue};

use crate::record_line::ScriptRecord;
use crate::script_words::{number, spaced, words};
use crate::{opt_line, record_line};
use dns_code::{Flags, Header};
use dns_iana::{Opcode, Rcode};
use dns_item::Question;
use dns_item::question::FromStrError;
use dns_name::Name;
use dns_script::{Call, Stage};
use dns_wire::Composer;
use std::alloc::{AllocError, Global};
use std::str;
use std::str::FromStr;

/// A call that a line of a script requests.
pub(crate) type ScriptCall = Call<Question<Name<Vec<u8>>>, ScriptRecord>;

/// A new value for one field of a header, or for its seven flags.
#[derive(Clone, Copy)]
pub(crate) enum Change {
    Id(u16),
    Opcode(Opcode),
    Rcode(Rcode),
    Flags(Flags),
}

impl Change {
    /// The header with this change applied.
    pub(crate) fn made_to(self, header: Header) -> Header
        ensures { fields result ≡ changed (fields header) self }
    {
        let mut header = header;
        match self {
            Change::Id(id) => header.set_id(id),
            Change::Opcode(opcode) => header.set_opcode(opcode),
            Change::Rcode(rcode) => header.set_rcode(rcode),
            Change::Flags(flags) => header.set_flags(flags),
        }
        header
    }
}

/// Whether a line is skipped: it is empty, or it is ASCII and begins with `#`.
pub(crate) fn is_skipped_line(line: &[u8]) -> bool
    ensures { IsTrue result ↔ IsSkippedLine line.now }
{
    line.is_empty() || line.starts_with(b"#") && line.is_ascii()
}

/// The call that a line requests at this stage, if the line isn't skipped. Returns `None` if it is
/// malformed.
pub(crate) fn call_of<T: Composer>(
    alloc: Global,
    stage: &Stage<T>,
    line: &[u8],
) -> Result<Option<ScriptCall>, AllocError>
    ensures ascii { IfOk result (λ call. IsSome call → IsAscii line.now) }
    ensures reads { (s : State) → StageRepresents T.rule s stage.now → IsAscii line.now →
        IfOk result (ReadsLine name_labels s.stage s.header line.now) }
{
    if !line.is_ascii() {
        return Ok(None);
    }
    let spaced = without_tabs(alloc, line)?;
    match str::from_utf8(&spaced) {
        Ok(text) => call_of_words(alloc, stage, &words(alloc, text)?),
        Err(_) => Ok(None),
    }
}

/// A line with a space for each tab.
fn without_tabs(alloc: Global, line: &[u8]) -> Result<Vec<u8>, AllocError>
    ensures { IfOk result (λ spaced. spaced.items ≡ without_tabs line.now) }
{
    line.iter()
        .map(|octet| if *octet == b'\t' { b' ' } else { *octet })
        .collect(alloc)
}

/// The call that the first word names, with the arguments that follow it.
fn call_of_words<T: Composer>(
    alloc: Global,
    stage: &Stage<T>,
    words: &[&str],
) -> Result<Option<ScriptCall>, AllocError>
    ensures { (s : State) → StageRepresents T.rule s stage.now → IfOk result
        (ReadsValue (λ call. call) (AreLineWords name_labels s.stage s.header words.now)) }
{
    let [verb, words @ ..] = words else {
        return Ok(None);
    };
    call_of_verb(alloc, stage, verb, words)
}

fn call_of_verb<T: Composer>(
    alloc: Global,
    stage: &Stage<T>,
    verb: &str,
    words: &[&str],
) -> Result<Option<ScriptCall>, AllocError>
    ensures { (s : State) → StageRepresents T.rule s stage.now → IfOk result
        (ReadsValue (λ call. call)
        (AreCallWords name_labels s.stage s.header verb.now words.now)) }
{
    match verb {
        "push" => push_of(alloc, stage, words),
        "opt" => match opt_line::plan(alloc, words)? {
            Some(plan) => Ok(Some(Call::PushOpt(plan))),
            None => Ok(None),
        },
        "flags" => Ok(header_call(stage, flags_change(alloc, words)?)),
        _ => Ok(short_call(stage, verb, words)),
    }
}

/// The call that a word requests alone, or with a number after it.
fn short_call<T: Composer>(stage: &Stage<T>, verb: &str, words: &[&str]) -> Option<ScriptCall>
    ensures { (s : State) → StageRepresents T.rule s stage.now →
        ReadsValue (λ call. call) (IsShortCall s.header verb.now words.now) result }
{
    match words {
        [] => call_of_word(verb),
        [digits] => number_call(stage, verb, digits),
        _ => None,
    }
}

/// The call that a word requests with a number after it.
fn number_call<T: Composer>(stage: &Stage<T>, verb: &str, digits: &str) -> Option<ScriptCall>
    ensures { (s : State) → StageRepresents T.rule s stage.now →
        ReadsValue (λ call. call) (IsNumberCall s.header verb.now digits.now) result }
{
    match verb {
        "limit" => {
            let limit = number(digits, usize::MAX)?;
            Some(Call::SetLimit(limit))
        }
        _ => header_call(stage, number_change(verb, digits)),
    }
}

/// The call that a single word requests.
fn call_of_word(word: &str) -> Option<ScriptCall>
    ensures { ReadsValue (λ call. call) (IsCallWord word.now) result }
{
    match word {
        "builder" => Some(Call::ToBuilder),
        "question" => Some(Call::ToQuestion),
        "answer" => Some(Call::ToAnswer),
        "authority" => Some(Call::ToAuthority),
        "additional" => Some(Call::ToAdditional),
        "rewind" => Some(Call::Rewind),
        "tcrewind" => Some(Call::TcRewind),
        "nolimit" => Some(Call::ClearLimit),
        _ => None,
    }
}

/// The call that applies a change to the header of this stage.
fn header_call<T: Composer>(stage: &Stage<T>, change: Option<Change>) -> Option<ScriptCall>
    ensures { (s : State) → StageRepresents T.rule s stage.now → AppliesAny s.header change result }
{
    let change = change?;
    Some(Call::SetHeader(change.made_to(stage.header())))
}

/// The change to the flags with these names.
fn flags_change(alloc: Global, names: &[&str]) -> Result<Option<Change>, AllocError>
    ensures { IfOk result (λ change. change ≡ option_map Change.Flags
        (flags_read (spaced_words names.now))) }
{
    match Flags::from_str(&spaced(alloc, names)?) {
        Ok(flags) => Ok(Some(Change::Flags(flags))),
        Err(_) => Ok(None),
    }
}

/// The change of a header field to the number in these decimal digits.
fn number_change(field: &str, digits: &str) -> Option<Change>
    ensures { ReadsValue (λ change. change) (IsNumberChange field.now digits.now) result }
{
    match field {
        "id" => Some(Change::Id(number(digits, u16::MAX as usize)? as u16)),
        "opcode" => {
            let number = number(digits, 15)? as u8;
            Some(Change::Opcode(Opcode::from_int(number)))
        }
        "rcode" => {
            let number = number(digits, 15)? as u8;
            Some(Change::Rcode(Rcode::checked_from_int(number)?))
        }
        _ => None,
    }
}

/// The push of the item in these words: a question or a record, by the stage. Returns `None` if the
/// item is malformed, or if the stage is before the sections.
fn push_of<T: Composer>(
    alloc: Global,
    stage: &Stage<T>,
    words: &[&str],
) -> Result<Option<ScriptCall>, AllocError>
    ensures { IfOk result (ReadsValue (λ call. call)
        (ArePushWords name_labels (stage_kind stage.now) words.now)) }
{
    match stage {
        Stage::Builder(_) => Ok(None),
        Stage::Question(_) => match question(alloc, words)? {
            Some(question) => Ok(Some(Call::PushQuestion(question))),
            None => Ok(None),
        },
        Stage::Answer(_) | Stage::Authority(_) | Stage::Additional(_) => {
            match record_line::record(alloc, words)? {
                Some(record) => Ok(Some(Call::PushRecord(record))),
                None => Ok(None),
            }
        }
    }
}

/// The question in these words: a name, then a type and an optional class, in either order. Returns
/// `None` if they are malformed.
fn question(alloc: Global, words: &[&str]) -> Result<Option<Question<Name<Vec<u8>>>>, AllocError>
    ensures { IfOk result (ReadsValue (question_item name_labels) (AreQuestionWords words.now)) }
{
    match Question::<Name<Vec<u8>>>::vec_from_str(alloc, &spaced(alloc, words)?) {
        Ok(question) => Ok(Some(question)),
        Err(FromStrError::Presentation(_)) => Ok(None),
        Err(_) => Err(AllocError),
    }
}
