//! Base64 in several words, looked at without memory (RFC 4648 section 4, RFC 4034 section 2.2).
ghost use Rattle.std.specs.Prelude.{◌≡◌, ◌∷◌, ◌↔◌, ◌≤◌, [], IsTrue, length};
ghost use Rattle.std.specs.List.{list_all};
ghost use Rattle.fields_text.specs.Base64Characters.{TakesCharacters, is_symbol};
ghost use Rattle.fields_text.specs.JoinedWords.{AreBase64};
ghost use Rattle.fields_text.specs.Reading.{HasValue};
ghost use Rattle.fields_text.specs.Octets.{IsBase64};

use arrayvec::ArrayVec;
use base64::engine::general_purpose::STANDARD;

/// Whether the character is one of the 64 of the alphabet.
fn is_symbol(character: u8) -> bool
    ensures { result ≡ is_symbol character }
{
    if character == b'+' || character == b'/' {
        return true;
    }
    character.is_ascii_alphanumeric()
}

/// Whether each character is one of the alphabet.
fn are_symbols(characters: &[u8]) -> bool
    ensures { result ≡ list_all is_symbol characters.now }
{
    characters.iter().all(|character| is_symbol(*character))
}

/// Whether at most four characters represent octets.
fn is_base64(characters: &[u8]) -> bool
    requires { length characters.now ≤ 4 }
    ensures { IsTrue result ↔ HasValue (IsBase64 characters.now) }
{
    let mut octets = [0; 3];
    STANDARD.decode_slice(characters, &mut octets).is_ok()
}

/// Takes a character after those of a group, or begins the next group with it. `false` if no text
/// that continues so represents octets.
fn take_character(group: &mut ArrayVec<u8, 4>, character: u8) -> bool
    ensures { TakesCharacters (character ∷ []) group.old.items group.new.items result }
{
    if group.len() < 4 {
        group.push(character);
        return true;
    }
    if !are_symbols(group.as_slice()) {
        return false;
    }
    group.clear();
    group.push(character);
    true
}

/// Takes the characters of a word after those of a group. `false` if no text that continues so
/// represents octets.
fn take_word(group: &mut ArrayVec<u8, 4>, word: &[u8]) -> bool
    ensures { TakesCharacters word.now group.old.items group.new.items result }
{
    for character in word {
        if !take_character(group, *character) {
            return false;
        }
    }
    true
}

/// Whether the words are base64 with padding, split anywhere.
pub(crate) fn are_base64(words: &[&str]) -> bool
    ensures { IsTrue result ↔ HasValue (AreBase64 words.now) }
{
    let mut group = ArrayVec::new();
    for word in words {
        if !take_word(&mut group, word.as_bytes()) {
            return false;
        }
    }
    is_base64(group.as_slice())
}
