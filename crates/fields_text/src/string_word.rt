//! Character strings (RFC 1035 section 5.1).
ghost use Rattle.std.specs.Char.{is_ascii_digit};
ghost use Rattle.std.specs.Prelude.{◌≡◌, MatchOption, true};
ghost use Rattle.fields_text.specs.ReadOctets.{IsFailure, PushesFitting, ReadsOctets, TakesMemory};
ghost use Rattle.fields_text.specs.Strings.{SpellsOctets, SpellsString, decimal_at, octet_at, unquoted};

use crate::text_error::TextError;
use arrayvec::ArrayVec;
use std::alloc::Global;

/// The octet that three decimal digits represent, and the text after them.
fn split_decimal(first: u8, text: &[u8]) -> Option<(u8, &[u8])>
    requires { is_ascii_digit first ≡ true }
    ensures { MatchOption result (decimal_at first text.now ≡ None)
        (λ split. decimal_at first text.now ≡ Some (split.0, split.1.now)) }
{
    let [second, third, after @ ..] = text else {
        return None;
    };
    if !second.is_ascii_digit() || !third.is_ascii_digit() {
        return None;
    }
    let value = u16::from(first - b'0') * 100
        + u16::from(*second - b'0') * 10
        + u16::from(*third - b'0');
    if value > 255 {
        return None;
    }
    Some((value as u8, after))
}

/// The octet that a text begins with, and the text after it (RFC 1035 section 5.1). `None` if it
/// begins with none: the text is empty, begins with a quote, or its backslash precedes no octet.
pub fn split_octet(text: &[u8]) -> Option<(u8, &[u8])>
    ensures { MatchOption result (octet_at text.now ≡ None)
        (λ split. octet_at text.now ≡ Some (split.0, split.1.now)) }
{
    let [first, after @ ..] = text else {
        return None;
    };
    if *first == b'"' {
        return None;
    }
    if *first != b'\\' {
        return Some((*first, after));
    }
    let [escaped, left @ ..] = after else {
        return None;
    };
    if escaped.is_ascii_digit() {
        return split_decimal(*escaped, left);
    }
    Some((*escaped, left))
}

/// The text between the quotes of a word, or the word if it has none.
fn unquoted(word: &[u8]) -> &[u8]
    ensures { result.now ≡ unquoted word.now }
{
    let size = word.len();
    if size >= 2 && word[0] == b'"' && word[size - 1] == b'"' {
        &word[1..size - 1]
    } else {
        word
    }
}

/// Why a string isn't read after an allocation fails: `BadWord` if the remaining text represents no
/// octets, else `OutOfMemory`.
fn failure(text: &[u8]) -> TextError
    ensures { IsFailure (SpellsOctets text.now) result }
{
    let mut left = text;
    'octets: while !left.is_empty() {
        let Some((_octet, after)) = split_octet(left) else {
            return TextError::BadWord;
        };
        left = after;
    }
    TextError::OutOfMemory
}

/// The octets of a string, in quotes or without.
pub fn read_string(alloc: Global, word: &[u8]) -> Result<Vec<u8>, TextError>
    ensures reads { ReadsOctets (SpellsString word.now) result }
    ensures full { result ≡ Err TextError.OutOfMemory → TakesMemory (SpellsString word.now) }
{
    let mut octets = Vec::new(alloc);
    let mut left = unquoted(word);
    'octets: while !left.is_empty() {
        let Some((octet, after)) = split_octet(left) else {
            return Err(TextError::BadWord);
        };
        if octets.push(octet).is_err() {
            return Err(failure(after));
        }
        left = after;
    }
    Ok(octets)
}

/// Appends the octets of a string, in quotes or without, if they fit. Else returns `false`, and some
/// of them may be appended.
pub fn push_string<const N: usize>(octets: &mut ArrayVec<u8, N>, word: &[u8]) -> bool
    ensures { PushesFitting (SpellsString word.now) N octets.old.items octets.new.items result }
{
    let mut left = unquoted(word);
    'octets: while !left.is_empty() {
        let Some((octet, after)) = split_octet(left) else {
            return false;
        };
        if octets.is_full() {
            return false;
        }
        octets.push(octet);
        left = after;
    }
    true
}
