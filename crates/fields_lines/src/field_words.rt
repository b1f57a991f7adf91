//! The words of RDATA, completed by the fields of its type.
ghost use Rattle.std.specs.Prelude.{◌≡◌, ◌+◌, ◌<◌, ◌≤◌, ◌^◌, length};
ghost use Rattle.std.specs.Option.{option_copied};
ghost use Rattle.fields_lines.specs.Completing.{PushesWords, completed_data, completed_fields, completed_own, is_marked, kept_words, texts_of};
ghost use Rattle.fields_lines.specs.FieldWays.{is_name_type, is_zero, name_if, own_count, sized_count, text_at, without_zeros, word_way};
ghost use Rattle.fields_table.specs.Table.{kinds};
ghost use Rattle.fields_text.specs.LineWords.{texts};

use crate::line_error::{LineError, WordReason};
use crate::way::{Way, way_of};
use crate::word::{Word, complete_word};
use fields_table::{Kind, fields_of};
use std::alloc::Global;

/// A word without zeros at its start.
fn without_zeros(word: &str) -> &str
    ensures { result.now ≡ without_zeros word.now }
{
    let mut left = word;
    'zeros: while let Some(after) = left.strip_prefix('0') {
        left = after;
    }
    left
}

/// The word at this index, or an empty one.
pub(crate) fn text_at<'a>(words: &[&'a str], index: usize) -> &'a str
    ensures { result.now ≡ text_at (texts words.now) index }
{
    if index < words.len() {
        words[index]
    } else {
        ""
    }
}

/// Whether a word is the number 3, the type of gateways that are names.
fn is_name_type(word: &str) -> bool
    ensures { result ≡ is_name_type word.now }
{
    without_zeros(word) == "3"
}

/// Whether a word is the number 0.
fn is_zero(word: &str) -> bool
    ensures { result ≡ is_zero word.now }
{
    !word.is_empty() && without_zeros(word).is_empty()
}

/// The number of words of sized octets, of these words: one if their number is zero, else two.
fn sized_count(words: &[&str]) -> usize
    ensures { result ≡ sized_count (texts words.now) }
{
    let [number, _, ..] = words else {
        return words.len();
    };
    if is_zero(number) { 1 } else { 2 }
}

/// The number of words of a field of this kind, if these words are left.
pub(crate) fn own_count(kind: Kind, words: &[&str]) -> usize
    ensures value { result ≡ own_count kind (texts words.now) }
    ensures within { result ≤ length words.now }
{
    match kind {
        Kind::SizedOctets => sized_count(words),
        Kind::Strings
        | Kind::Hexadecimal
        | Kind::Base64
        | Kind::Base64OrHyphen
        | Kind::TypeBitMap
        | Kind::SmallTypeBitMap
        | Kind::ServiceParameters
        | Kind::AddressPrefixes
        | Kind::Location
        | Kind::GatewayAndKey
        | Kind::Relay
        | Kind::HostIdentity
        | Kind::Opaque => words.len(),
        _ => words.len().min(1),
    }
}

/// A name, if the test holds.
fn name_if(test: bool) -> Way
    ensures { result ≡ name_if test }
{
    if test { Way::Name } else { Way::Same }
}

/// How the word at this index of a field is completed.
pub(crate) fn word_way(way: Way, words: &[&str], index: usize) -> Way
    ensures { result ≡ word_way way (texts words.now) index }
{
    match way {
        Way::Gateway => name_if(index == 2 && is_name_type(text_at(words, 0))),
        Way::Relay => name_if(index == 2 && is_name_type(text_at(words, 1))),
        Way::HostIdentity => name_if(index >= 3),
        Way::RecordTypes => Way::RecordType,
        _ => way,
    }
}

/// Appends the words of a field of this way. `at` is the index of the first of them in the line.
fn complete_own<'a>(
    alloc: Global,
    completed: &mut Vec<Word<'a>>,
    origin: Option<&str>,
    at: usize,
    way: Way,
    own: &[&'a str],
) -> Result<(), LineError>
    requires { at + length own.now < 2 ^ 64 }
    ensures { PushesWords
        (completed_own (option_copied origin.entry) at way (texts own.now) 0
        (texts_of completed.old.items) (texts own.now))
        completed.new.items result }
{
    for (index, word) in own.iter().enumerate() {
        let way = word_way(way, own, index);
        let Ok(found) = complete_word(alloc, origin, way, word) else {
            return Err(LineError::OutOfMemory);
        };
        let Some(found) = found else {
            return Err(LineError::BadWord {
                index: at + index,
                reason: WordReason::Relative,
            });
        };
        let Ok(()) = completed.push(found) else {
            return Err(LineError::OutOfMemory);
        };
    }
    Ok(())
}

/// Appends words as they are.
fn keep_words<'a>(completed: &mut Vec<Word<'a>>, words: &[&'a str]) -> Result<(), LineError>
    ensures { PushesWords (kept_words (texts_of completed.old.items) (texts words.now))
        completed.new.items result }
{
    for word in words {
        let Ok(()) = completed.push(Word::Given(word)) else {
            return Err(LineError::OutOfMemory);
        };
    }
    Ok(())
}

/// Appends the words of these fields, from the field at `index` of the type on. `at` is the index of
/// the first word in the line.
fn complete_fields<'a>(
    alloc: Global,
    completed: &mut Vec<Word<'a>>,
    origin: Option<&str>,
    at: usize,
    rtype: u16,
    index: usize,
    fields: &[(&'static str, Kind)],
    words: &[&'a str],
) -> Result<(), LineError>
    requires at { at + length words.now < 2 ^ 64 }
    requires index { index + length fields.now < 2 ^ 64 }
    ensures { PushesWords
        (completed_fields (option_copied origin.entry) at rtype index (kinds fields.now)
        (texts_of completed.old.items) (texts words.now))
        completed.new.items result }
{
    let [field, others @ ..] = fields else {
        return keep_words(completed, words);
    };
    let (own, after) = words.split_at(own_count(field.1, words));
    let way = way_of(rtype, index, field.1);
    if let Err(error) = complete_own(alloc, completed, origin, at, way, own) {
        return Err(error);
    }
    let at = at + own.len();
    complete_fields(
        alloc,
        completed,
        origin,
        at,
        rtype,
        index + 1,
        others,
        after,
    )
}

/// Whether the first word is `\#`.
pub(crate) fn is_marked(words: &[&str]) -> bool
    ensures { result ≡ is_marked (texts words.now) }
{
    text_at(words, 0) == "\\#"
}

/// Appends the words of RDATA of this type, of which the first is at index `at` in the line.
pub(crate) fn complete_data<'a>(
    alloc: Global,
    completed: &mut Vec<Word<'a>>,
    origin: Option<&str>,
    at: usize,
    rtype: u16,
    words: &[&'a str],
) -> Result<(), LineError>
    requires { at + length words.now < 2 ^ 64 }
    ensures { PushesWords
        (completed_data (option_copied origin.entry) at rtype (texts_of completed.old.items)
        (texts words.now))
        completed.new.items result }
{
    if is_marked(words) {
        return keep_words(completed, words);
    }
    let fields = fields_of(rtype);
    complete_fields(alloc, completed, origin, at, rtype, 0, fields, words)
}
