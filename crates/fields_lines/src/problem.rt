//! The first word of a line that is wrong before its words are read, found without an allocation.
ghost use Rattle.std.specs.Prelude.{◌≡◌, ◌+◌, ◌<◌, ◌^◌, ℕ, List, is_none, length};
ghost use Rattle.fields_lines.specs.Completing.{FindsRelative, completed_data, completed_fields, completed_own};
ghost use Rattle.fields_lines.specs.FieldWays.{Texts};
ghost use Rattle.fields_lines.specs.Lines.{FindsProblem, IsAfterOwner, IsLine, TakesAfterOwner, owner_of, text_of_name};
ghost use Rattle.fields_lines.specs.NameWords.{lacks_origin};
ghost use Rattle.fields_lines.specs.WordTexts.{completed_word};
ghost use Rattle.fields_table.specs.Table.{kinds};
ghost use Rattle.fields_text.specs.LineWords.{texts};

use crate::defaults::Defaults;
use crate::field_words::{is_marked, own_count, word_way};
use crate::head::take_head;
use crate::line::record_ttl;
use crate::line_error::WordReason;
use crate::name_word::ends_with_dot;
use crate::way::{Way, way_of};
use dns_name::ParsedName;
use fields_plain::read_type;
use fields_table::{Kind, fields_of};

/// Whether a word is a relative name, and there is no origin.
fn lacks_origin(has_origin: bool, word: &str) -> bool
    ensures { result ≡ lacks_origin has_origin word.now }
{
    !has_origin && (word == "@" || !ends_with_dot(word.as_bytes()))
}

/// Whether a word of this way is a relative name, and there is no origin.
fn is_relative(origin: Option<ParsedName<'_>>, way: Way, word: &str) -> bool
    ensures { result ≡ is_none (completed_word (text_of_name origin.entry) way word.now) }
{
    match way {
        Way::Name => lacks_origin(origin.is_some(), word),
        _ => false,
    }
}

/// The index in the line of the first word of a field that is a relative name, if there is no origin.
/// `at` is the index in the line of the first word.
fn relative_in_own(
    origin: Option<ParsedName<'_>>,
    at: usize,
    way: Way,
    own: &[&str],
) -> Option<usize>
    requires { at + length own.now < 2 ^ 64 }
    ensures { (done : Texts) → FindsRelative
        (completed_own (text_of_name origin.entry) at way (texts own.now) 0 done (texts own.now))
        result }
{
    for (index, word) in own.iter().enumerate() {
        if is_relative(origin, word_way(way, own, index), word) {
            return Some(at + index);
        }
    }
    None
}

/// The same of the words of these fields, from the field at `index` of the type on.
fn relative_in_fields(
    origin: Option<ParsedName<'_>>,
    at: usize,
    rtype: u16,
    index: usize,
    fields: &[(&'static str, Kind)],
    words: &[&str],
) -> Option<usize>
    requires at { at + length words.now < 2 ^ 64 }
    requires index { index + length fields.now < 2 ^ 64 }
    ensures { (done : Texts) → FindsRelative
        (completed_fields (text_of_name origin.entry) at rtype index (kinds fields.now) done
        (texts words.now)) result }
{
    let [field, others @ ..] = fields else {
        return None;
    };
    let (own, after) = words.split_at(own_count(field.1, words));
    let way = way_of(rtype, index, field.1);
    if let Some(relative) = relative_in_own(origin, at, way, own) {
        return Some(relative);
    }
    relative_in_fields(origin, at + own.len(), rtype, index + 1, others, after)
}

/// The same of the words of RDATA of this type.
fn relative_in_data(
    origin: Option<ParsedName<'_>>,
    at: usize,
    rtype: u16,
    words: &[&str],
) -> Option<usize>
    requires { at + length words.now < 2 ^ 64 }
    ensures { (done : Texts) → FindsRelative
        (completed_data (text_of_name origin.entry) at rtype done (texts words.now)) result }
{
    if is_marked(words) {
        return None;
    }
    relative_in_fields(origin, at, rtype, 0, fields_of(rtype), words)
}

/// The words after the owner of a line, or why it has none.
fn after_owner<'w, 'a>(
    defaults: &Defaults<'_>,
    named: bool,
    words: &'w [&'a str],
) -> Result<&'w [&'a str], WordReason>
    ensures { TakesAfterOwner (owner_of defaults.now named (texts words.now)) result }
{
    if !named {
        return match defaults.owner {
            Some(_) => Ok(words),
            None => Err(WordReason::NoOwner),
        };
    }
    let [word, after @ ..] = words else {
        return Err(WordReason::Missing);
    };
    if is_relative(defaults.origin, Way::Name, word) {
        return Err(WordReason::Relative);
    }
    Ok(after)
}

/// What is wrong with a line of `size` words, of which these follow the owner.
fn problem_after(
    defaults: &Defaults<'_>,
    size: usize,
    words: &[&str],
) -> Option<(usize, WordReason)>
    ensures { (owner : List ℕ) → FindsProblem
        (IsAfterOwner defaults.now size owner (texts words.now)) result }
{
    let (ttl, _, after) = take_head(words);
    let at = size.saturating_sub(after.len());
    let [type_word, value @ ..] = after else {
        return Some((at, WordReason::Missing));
    };
    let Some(rtype) = read_type(type_word) else {
        return Some((at, WordReason::NoType));
    };
    let Some(_) = record_ttl(ttl, defaults.ttl) else {
        return Some((at, WordReason::NoTtl));
    };
    match relative_in_data(defaults.origin, at + 1, rtype.to_int(), value) {
        Some(index) => Some((index, WordReason::Relative)),
        None => None,
    }
}

/// The index of the first word of a line that is wrong, and why, if its words can't be completed.
pub(crate) fn problem_of(
    defaults: &Defaults<'_>,
    named: bool,
    words: &[&str],
) -> Option<(usize, WordReason)>
    ensures { FindsProblem (IsLine defaults.now named (texts words.now)) result }
{
    match after_owner(defaults, named, words) {
        Ok(after) => problem_after(defaults, words.len(), after),
        Err(reason) => Some((0, reason)),
    }
}
