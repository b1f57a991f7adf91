//! Hexadecimal digits in several words, without allocating memory (RFC 4648 section 8).
ghost use Rattle.std.specs.Prelude.{◌≡◌, ◌↔◌, [], ◌∷◌, ◌++◌, IsTrue};
ghost use Rattle.std.specs.Char.{is_ascii_hexdigit};
ghost use Rattle.std.specs.List.{list_all};
ghost use Rattle.std.specs.Option.{option_to_list};
ghost use Rattle.fields_text.specs.Octets.{IsHex};
ghost use Rattle.fields_text.specs.ReadOctets.{PushesFitting};
ghost use Rattle.fields_text.specs.HexCharacters.{TakesDigits};
ghost use Rattle.fields_text.specs.JoinedWords.{AreHex};
ghost use Rattle.fields_text.specs.Reading.{HasValue};

use arrayvec::ArrayVec;
use hex::FromHex;

/// Whether each character is a hexadecimal digit.
fn are_digits(characters: &[u8]) -> bool
    ensures { result ≡ list_all is_ascii_hexdigit characters.now }
{
    characters
        .iter()
        .all(|character| character.is_ascii_hexdigit())
}

/// Whether the words are hexadecimal digits of octets, split anywhere.
pub(crate) fn are_hex(words: &[&str]) -> bool
    ensures { IsTrue result ↔ HasValue (AreHex words.now) }
{
    let mut odd = 0;
    for word in words {
        if !are_digits(word.as_bytes()) {
            return false;
        }
        odd = (odd + word.len() % 2) % 2;
    }
    odd == 0
}

/// Appends the octet of two digits, if it fits.
fn push_octet<const N: usize>(octets: &mut ArrayVec<u8, N>, high: u8, low: u8) -> bool
    ensures { PushesFitting (IsHex (high ∷ low ∷ [])) N octets.old.items octets.new.items result }
{
    let Ok(octet) = <[u8; 1]>::from_hex([high, low]) else {
        return false;
    };
    if octets.is_full() {
        return false;
    }
    octets.push(octet[0]);
    true
}

/// Takes a digit: appends the octet of the first digit and this one, if it fits, or leaves it as
/// the first of the next octet.
fn push_digit<const N: usize>(
    octets: &mut ArrayVec<u8, N>,
    first: &mut Option<u8>,
    digit: u8,
) -> bool
    ensures { TakesDigits (option_to_list first.old ++ digit ∷ []) (option_to_list first.new)
        N octets.old.items octets.new.items result }
{
    let Some(high) = *first else {
        *first = Some(digit);
        return true;
    };
    *first = None;
    push_octet(octets, high, digit)
}

/// Takes the digits of a word, after the first digit of an octet.
fn push_digits<const N: usize>(
    octets: &mut ArrayVec<u8, N>,
    first: &mut Option<u8>,
    word: &[u8],
) -> bool
    ensures { TakesDigits (option_to_list first.old ++ word.now) (option_to_list first.new)
        N octets.old.items octets.new.items result }
{
    for digit in word {
        if !push_digit(octets, first, *digit) {
            return false;
        }
    }
    true
}

/// Appends the octets of hexadecimal digits, in either case, if they fit. Else returns `false`, and
/// some of them may be appended. The digits may be split into several words.
pub fn push_hex_words<const N: usize>(octets: &mut ArrayVec<u8, N>, words: &[&str]) -> bool
    ensures { PushesFitting (AreHex words.now) N octets.old.items octets.new.items result }
{
    let mut first = None;
    for word in words {
        if !push_digits(octets, &mut first, word.as_bytes()) {
            return false;
        }
    }
    first.is_none()
}
