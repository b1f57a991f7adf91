//! Type bit maps of types up to 127 (RFC 2535 section 7.3).
ghost use Rattle.std.specs.Prelude.{◌≡◌, ◌↔◌, ℕ, MatchOption, Some};
ghost use Rattle.fields_lists.specs.TypeBits.{AreSmallTypes, HaveSmallMarks, IsSmallType, is_small_type};
ghost use Rattle.fields_text.specs.Reading.{ReadsWords};
ghost use Rattle.fields_lists.specs.TypeMapWords.{IsSmallTypeMap};

use crate::prefix_words::trimmed;
use crate::type_map_words::push_marked;
use arrayvec::ArrayVec;
use fields_plain::read_type;
use fields_text::TextError;
use std::alloc::Global;

/// Whether the type is from 1 to 127.
fn is_small_type(rtype: u16) -> bool
    ensures { result ≡ is_small_type rtype }
{
    rtype > 0 && rtype < 128
}

/// The type from 1 to 127 that a word represents.
fn read_small_type(word: &str) -> Option<u8>
    ensures { (n : ℕ) → IsSmallType word.now n ↔ (result ≡ Some n) }
{
    let Some(rtype) = read_type(word) else {
        return None;
    };
    let number = rtype.to_int();
    if !is_small_type(number) {
        return None;
    }
    Some(number as u8)
}

/// Which types the words represent. `None` if a word represents no type from 1 to 127.
fn small_marks(words: &[&str]) -> Option<[bool; 256]>
    ensures { MatchOption result (¬ (AreSmallTypes words.now)) (HaveSmallMarks words.now) }
{
    let mut marks = [false; 256];
    for word in words {
        let Some(rtype) = read_small_type(word) else {
            return None;
        };
        marks[usize::from(rtype)] = true;
    }
    Some(marks)
}

/// The type bit map of the types of words, as NXT records have it: types from 1 to 127, one at
/// least.
pub fn read_small_type_map(alloc: Global, words: &[&str]) -> Result<Vec<u8>, TextError>
    ensures { ReadsWords (IsSmallTypeMap words.now) result }
{
    if words.is_empty() {
        return Err(TextError::BadWord);
    }
    let Some(marks) = small_marks(words) else {
        return Err(TextError::BadWord);
    };
    let mut octets = ArrayVec::new();
    push_marked(&mut octets, &marks, 0, 16);
    match Vec::from_slice(alloc, trimmed(octets.as_slice())) {
        Ok(map) => Ok(map),
        Err(_) => Err(TextError::OutOfMemory),
    }
}
