//! The lines of a case.
ghost use Rattle.std.specs.Prelude.{◌≡◌, ◌==◌, ◌++◌, ℕ, option_map, Any, IfOk, MatchBool, MatchOption, OnOk};
ghost use Rattle.std.specs.List.{after_first, before_first, repeat};
ghost use Rattle.std.specs.Result.{result_ok};
ghost use Rattle.hex.specs.Hex.{decode_of};
ghost use Rattle.cases_files.specs.Line.{count_text, is_star, texts, words_of, AppendsWord, AreOctetWords, BeginsNoCase, IsCase, IsCount, IsNoOctetWord};

use hex::FromHexError;
use std::alloc::{AllocError, Global};

/// The name of a case, and its lines. `None` if a block is no case.
pub fn case_of<'a, 'b>(block: &'b [&'a str]) -> Option<(&'a str, &'b [&'a str])>
    ensures { MatchOption result (BeginsNoCase block.now)
        (λ parts. IsCase block.now parts.0.now parts.1.now) }
{
    let (first, lines) = block.split_first()?;
    Some((first.strip_prefix("case ")?, lines))
}

/// The key of a line, and what is after the space that follows it.
pub fn key_of<'a>(line: &'a str) -> (&'a str, &'a str)
    ensures key { result.0.now ≡ before_first (λ octet. octet == 32) line.now }
    ensures text { result.1.now ≡ after_first (λ octet. octet == 32) line.now }
{
    line.split_once(' ').unwrap_or((line, ""))
}

/// The octets that the words of a text represent, in order: hexadecimal digits, which may have `*`
/// and a decimal count after them. `61*4` is the octet 61 four times. Returns `None` if a word
/// represents none.
pub fn octets_of(alloc: Global, text: &str) -> Result<Option<Vec<u8>>, AllocError>
    ensures { IfOk result (λ found. MatchOption found (Any IsNoOctetWord (words_of text.now))
        (λ octets. AreOctetWords (words_of text.now) octets.items)) }
{
    let words = split_words(alloc, text)?;
    octets_of_words(alloc, words.as_slice())
}

/// The octets that words represent, in order. Returns `None` if a word represents none.
fn octets_of_words(alloc: Global, words: &[&str]) -> Result<Option<Vec<u8>>, AllocError>
    ensures { IfOk result (λ found. MatchOption found (Any IsNoOctetWord (texts words.now))
        (λ octets. AreOctetWords (texts words.now) octets.items)) }
{
    let mut octets = Vec::new(alloc);
    for word in words {
        if !push_word(alloc, &mut octets, word)? {
            return Ok(None);
        }
    }
    Ok(Some(octets))
}

/// The words of a text, which spaces separate.
fn split_words(alloc: Global, text: &str) -> Result<Vec<&str>, AllocError>
    ensures { IfOk result (λ words. texts words.items ≡ words_of text.now) }
{
    text.split(' ')
        .filter(|word| !word.is_empty())
        .collect(alloc)
}

/// Appends the octets that a word represents. Returns `false` if it represents none.
fn push_word(alloc: Global, octets: &mut Vec<u8>, word: &str) -> Result<bool, AllocError>
    ensures { IfOk result (λ pushed. MatchBool pushed
        (AppendsWord word.now octets.old.items octets.new.items) (IsNoOctetWord word.now)) }
{
    let (digits, number) = digits_and_count(word);
    let Some(part) = digit_octets(alloc, digits)? else {
        return Ok(false);
    };
    let Some(count) = count_of(number) else {
        return Ok(false);
    };
    push_times(octets, part.as_slice(), count)?;
    Ok(true)
}

/// The digits of a word, and the count after them, which is 1 without `*`.
fn digits_and_count(word: &str) -> (&str, &str)
    ensures digits { result.0.now ≡ before_first is_star word.now }
    ensures count { result.1.now ≡ count_text word.now }
{
    match word.split_once('*') {
        Some(parts) => parts,
        None => (word, "1"),
    }
}

/// The octets that hexadecimal digits encode. Returns `None` for any other text.
fn digit_octets(alloc: Global, digits: &str) -> Result<Option<Vec<u8>>, AllocError>
    ensures { IfOk result (λ found. option_map (λ octets. octets.items) found
        ≡ result_ok (decode_of digits.now)) }
{
    match hex::decode(alloc, digits.as_bytes()) {
        Ok(octets) => Ok(Some(octets)),
        Err(FromHexError::OutOfMemory) => Err(AllocError),
        Err(_) => Ok(None),
    }
}

/// The count in decimal digits. Returns `None` for any other text.
fn count_of(digits: &str) -> Option<u32>
    ensures { MatchOption result ((count : ℕ) → ¬ (IsCount digits.now count))
        (IsCount digits.now) }
{
    if digits.starts_with('+') {
        return None;
    }
    digits.parse::<u32>().ok()
}

/// Appends octets this many times.
pub fn push_times(octets: &mut Vec<u8>, part: &[u8], count: u32) -> Result<(), AllocError>
    ensures { OnOk result (octets.new.items ≡ octets.old.items ++ repeat count part.now) }
{
    for _ in 0..count {
        octets.extend_from_slice(part)?;
    }
    Ok(())
}
