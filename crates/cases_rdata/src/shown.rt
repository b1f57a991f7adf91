//! What the library makes of a case and of the octets of a line.
use crate::case::Case;
use crate::checks::error_and_text;
use crate::key::Key;
use crate::options::{option_parts, option_text};
use crate::questions::{printed_question, read_question};
use crate::records::record_of_words;
use crate::rewriting::rewritten_again;
use crate::zone_lines::{bare_line, zone_line};
use cases_files::key_of;
use fields_text::split_words;
use std::alloc::{AllocError, Global};

/// What a check of this key shows, for a line with this text and these octets.
pub(crate) fn shown(
    alloc: Global,
    case: &Case,
    key: Key,
    text: &str,
    octets: &[u8],
) -> Result<String, AllocError> {
    match key {
        Key::Fields => case.fields(alloc),
        Key::AsItWas | Key::Written => case.written(alloc),
        Key::Made => case.made(alloc),
        Key::Copies => case.copied(alloc),
        Key::Cut => case.cut(alloc),
        Key::Canonical => case.canonical(alloc),
        Key::Error => case.error(alloc),
        Key::ZoneLine => zone_line(alloc, text),
        Key::NoZoneLine => zone_line(alloc, error_and_text(text).1),
        Key::NoBareLine => bare_line(alloc, error_and_text(text).1),
        Key::Checked => case.checked(alloc),
        Key::Text => case.text(alloc),
        Key::Record => case.record_text(alloc),
        Key::Order | Key::CanonicalOrder => case.order(alloc, key, octets),
        Key::RecordOrder | Key::CanonicalRecordOrder => case.record_order(alloc, key, octets),
        Key::PrintsQuestion => printed_question(alloc, case.rdata()),
        Key::PrintRewritten => rewritten_again(alloc, octets),
        Key::Option => match option_parts(text) {
            Some((code, _, _)) => option_text(alloc, code, octets),
            None => String::from_str(alloc, "another form"),
        },
        _ => shown_of_text(alloc, case, key, text, octets),
    }
}

/// What a text is read as: that of the line or, if there is none, the lines before it.
fn shown_of_text(
    alloc: Global,
    case: &Case,
    key: Key,
    text: &str,
    octets: &[u8],
) -> Result<String, AllocError> {
    let own = match key {
        Key::Words | Key::NoWords | Key::ManyWords => &[],
        Key::NoQuestion => error_and_text(text).1.as_bytes(),
        _ => octets,
    };
    let source = if own.is_empty() {
        case.lines.as_slice()
    } else {
        own
    };
    match std::str::from_utf8(source) {
        Ok(read) => read_text(alloc, case, key, text, read),
        Err(_) => String::from_str(alloc, "octets that are no text"),
    }
}

/// What a text is read as. The line may have a number and a word.
fn read_text(
    alloc: Global,
    case: &Case,
    key: Key,
    line: &str,
    text: &str,
) -> Result<String, AllocError> {
    match key {
        Key::Question | Key::NoQuestion => read_question(alloc, text),
        Key::RefusesWords => {
            let words = split_at_bars(alloc, text)?;
            case.read_words(alloc, words.as_slice())
        }
        _ => match split_words(alloc, text) {
            Ok(words) => read_words(alloc, case, key, line, words.as_slice()),
            Err(error) => error.to_string(alloc),
        },
    }
}

/// Words that have `|` between them.
fn split_at_bars(alloc: Global, text: &str) -> Result<Vec<&str>, AllocError> {
    text.split('|').collect(alloc)
}

/// What the words of a text are read as.
fn read_words(
    alloc: Global,
    case: &Case,
    key: Key,
    line: &str,
    words: &[&str],
) -> Result<String, AllocError> {
    match key {
        Key::Words | Key::NoWords => joined(alloc, words),
        Key::ManyWords => counted(alloc, words, line),
        Key::ReadsRecord | Key::RefusesRecord => record_of_words(alloc, words),
        _ => case.read_words(alloc, words),
    }
}

/// The words with `|` between them, or `(none)`.
fn joined(alloc: Global, words: &[&str]) -> Result<String, AllocError> {
    if words.is_empty() {
        String::from_str(alloc, "(none)")
    } else {
        words.join(alloc, "|")
    }
}

/// The number of the words, and the word that each of them is: the second one of the line.
fn counted(alloc: Global, words: &[&str], line: &str) -> Result<String, AllocError> {
    let (_, word) = key_of(line);
    for other in words {
        if *other != word {
            return String::from_str(alloc, "another word");
        }
    }
    format!(in alloc; "{} {word}", words.len())
}
