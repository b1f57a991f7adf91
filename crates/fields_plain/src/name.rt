//! Names (RFC 1035 section 5.1).
ghost use Rattle.std.specs.Prelude.{◌≡◌};
ghost use Rattle.fields_plain.specs.NameWords.{ReadsNameWord, is_unquoted, IsNameWord};
ghost use Rattle.fields_text.specs.Reading.{AppendsOctets};
ghost use Rattle.fields_text.specs.declared.text_error.TextError.TheVariants.{BadWord};

use arrayvec::ArrayVec;
use dns_name::Name;
use fields_text::{TextError, push_octets};

/// Whether each quote is after a backslash; `escaped` says whether one is before the word.
fn is_unquoted(escaped: bool, word: &[u8]) -> bool
    ensures { result ≡ is_unquoted escaped word.now }
{
    let mut escaped = escaped;
    for octet in word {
        if *octet == b'"' && !escaped {
            return false;
        }
        escaped = *octet == b'\\' && !escaped;
    }
    true
}

/// A name: labels separated by dots, with an optional final dot. A single dot is the root.
///
/// `None` also if the word is `@`, or has a quote without a backslash before it.
///
/// A name without a final dot is taken as complete. In a zone file it is relative to an origin (RFC
/// 1035 section 5.1), which has to be appended first.
pub fn read_name(word: &str) -> Option<Name<ArrayVec<u8, 255>>>
    ensures { ReadsNameWord word.now result }
{
    if word == "@" {
        return None;
    }
    if !is_unquoted(false, word.as_bytes()) {
        return None;
    }
    match word.parse::<Name<ArrayVec<u8, 255>>>() {
        Ok(name) => Some(name),
        Err(_) => None,
    }
}

/// Appends the uncompressed octets of the name that a word represents.
pub fn push_name(octets: &mut Vec<u8>, word: &str) -> Result<(), TextError>
    ensures { AppendsOctets (IsNameWord word.now) octets.old.items octets.new.items result }
{
    let Some(name) = read_name(word) else {
        return Err(TextError::BadWord);
    };
    push_octets(octets, name.as_slice())
}
