//! Words that are completed before they are read.
ghost use Rattle.std.specs.Prelude.{◌≡◌, IfOk, option_map};
ghost use Rattle.std.specs.Char.{is_ascii_digit};
ghost use Rattle.std.specs.List.{list_all};
ghost use Rattle.std.specs.Option.{option_copied};
ghost use Rattle.fields_lines.specs.Mnemonics.{algorithms, certificate_types, errors, named};
ghost use Rattle.fields_lines.specs.WordTexts.{completed_word, number_or, numbered_type, opened, text_of, unpadded, without_padding, word_number};

use crate::duration::read_duration;
use crate::mnemonics::{ALGORITHMS, CERTIFICATE_TYPES, ERRORS, flags_of, number_of};
use crate::name_word::complete_name;
use crate::way::Way;
use std::alloc::{AllocError, Global};

/// A word that is read.
#[derive(Debug, Drop)]
pub(crate) enum Word<'a> {
    /// A word of the line.
    Given(&'a str),
    /// The text that stands for it.
    Made(String),
}

impl Word<'_> {
    /// The text of the word.
    pub(crate) fn as_str(&self) -> &str
        ensures { result.now ≡ text_of self.now }
    {
        match self {
            Word::Given(text) => text,
            Word::Made(text) => text.as_str(),
        }
    }
}

/// The algorithm that has this name.
#[tactic(auto, unfolding(crate::specs::Mnemonics::algorithms))]
fn algorithm_of(name: &str) -> Option<u32>
    ensures { result ≡ named algorithms name.now }
{
    number_of(&ALGORITHMS, name)
}

/// The type of certificates that has this name.
#[tactic(auto, unfolding(crate::specs::Mnemonics::certificate_types))]
fn certificate_type_of(name: &str) -> Option<u32>
    ensures { result ≡ named certificate_types name.now }
{
    number_of(&CERTIFICATE_TYPES, name)
}

/// The error of TSIG and TKEY records that has this name.
#[tactic(auto, unfolding(crate::specs::Mnemonics::errors))]
fn error_of(name: &str) -> Option<u32>
    ensures { result ≡ named errors name.now }
{
    number_of(&ERRORS, name)
}

/// The number that a word of this way stands for, if it does.
fn word_number(way: Way, word: &str) -> Option<u32>
    ensures { result ≡ word_number way word.now }
{
    match way {
        Way::Duration => read_duration(word),
        Way::Algorithm => algorithm_of(word),
        Way::CertificateType => certificate_type_of(word),
        Way::ErrorCode => error_of(word),
        Way::KeyFlags => flags_of(word),
        _ => None,
    }
}

/// A number in decimal digits; the word if it stands for none.
fn number_or<'a>(alloc: Global, number: Option<u32>, word: &'a str) -> Result<Word<'a>, AllocError>
    ensures { IfOk result (λ made. text_of made ≡ number_or number word.now) }
{
    match number {
        Some(number) => Ok(Word::Made(number.to_string(alloc)?)),
        None => Ok(Word::Given(word)),
    }
}

/// Whether each octet is a digit.
fn are_digits(word: &[u8]) -> bool
    ensures { result ≡ list_all is_ascii_digit word.now }
{
    for octet in word {
        if !octet.is_ascii_digit() {
            return false;
        }
    }
    true
}

/// A record type by its number: a word of digits is one after `TYPE` (RFC 3597 section 5).
fn numbered_type<'a>(alloc: Global, word: &'a str) -> Result<Word<'a>, AllocError>
    ensures { IfOk result (λ made. text_of made ≡ numbered_type word.now) }
{
    if word.is_empty() || !are_digits(word.as_bytes()) {
        return Ok(Word::Given(word));
    }
    let mut text = String::new(alloc);
    text.push_str("TYPE")?;
    text.push_str(word)?;
    Ok(Word::Made(text))
}

/// The text between the quotes of a word, or the word if it isn't in quotes.
fn opened(word: &str) -> &str
    ensures { result.now ≡ opened word.now }
{
    let Some(after) = word.strip_prefix('"') else {
        return word;
    };
    match after.strip_suffix('"') {
        Some(text) => text,
        None => word,
    }
}

/// A text without the equals signs at its end.
fn without_padding(word: &str) -> &str
    ensures { result.now ≡ without_padding word.now }
{
    let mut left = word;
    'padding: while let Some(before) = left.strip_suffix('=') {
        left = before;
    }
    left
}

/// A word of a multiple of eight characters without the equals signs at its end (RFC 4648 section 6).
fn unpadded(word: &str) -> &str
    ensures { result.now ≡ unpadded word.now }
{
    if word.len() % 8 == 0 {
        without_padding(word)
    } else {
        word
    }
}

/// The word that is read for a word of this way. `None` if it is a relative name and there is no
/// origin.
pub(crate) fn complete_word<'a>(
    alloc: Global,
    origin: Option<&str>,
    way: Way,
    word: &'a str,
) -> Result<Option<Word<'a>>, AllocError>
    ensures { IfOk result (λ found. option_map text_of found
        ≡ completed_word (option_copied origin.entry) way word.now) }
{
    match way {
        Way::Name => match complete_name(alloc, origin, word)? {
            Some(text) => Ok(Some(Word::Made(text))),
            None => Ok(None),
        },
        Way::RecordType => Ok(Some(numbered_type(alloc, word)?)),
        Way::Tag => Ok(Some(Word::Given(opened(word)))),
        Way::Hash => Ok(Some(Word::Given(unpadded(word)))),
        _ => Ok(Some(number_or(alloc, word_number(way, word), word)?)),
    }
}
