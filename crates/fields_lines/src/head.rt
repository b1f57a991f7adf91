//! The TTL and the class of a line, each of which may be left out, in either order (RFC 1035 section
//! 5.1).
ghost use Rattle.std.specs.Prelude.{◌≡◌};
ghost use Rattle.fields_lines.specs.Heads.{BeginsClass, IsClassOf, IsHead, ttl_after, ttl_of};
ghost use Rattle.fields_text.specs.LineWords.{texts};

use crate::duration::read_duration;
use dns_iana::Class;

/// The class that a word is: `CHAOS` or `HESIOD`, else its registered name, or `CLASS` and its number,
/// ignoring ASCII case.
fn read_class(word: &str) -> Option<Class>
    ensures { IsClassOf word.now result }
{
    if word.eq_ignore_ascii_case("CHAOS") {
        return Some(Class::CH);
    }
    if word.eq_ignore_ascii_case("HESIOD") {
        return Some(Class::HS);
    }
    Class::from_registered_name(word)
}

/// The TTL that the words begin with, if they do, and the words after it.
fn take_ttl<'w, 'a>(words: &'w [&'a str]) -> (Option<u32>, &'w [&'a str])
    ensures ttl { result.0 ≡ ttl_of (texts words.now) }
    ensures after { texts result.1.now ≡ ttl_after (texts words.now) }
{
    let [word, after @ ..] = words else {
        return (None, words);
    };
    match read_duration(word) {
        Some(ttl) => (Some(ttl), after),
        None => (None, words),
    }
}

/// The class that the words begin with, if they do, and the words after it.
fn take_class<'w, 'a>(words: &'w [&'a str]) -> (Option<Class>, &'w [&'a str])
    ensures { BeginsClass (texts words.now) result.0 (texts result.1.now) }
{
    let [word, after @ ..] = words else {
        return (None, words);
    };
    match read_class(word) {
        Some(class) => (Some(class), after),
        None => (None, words),
    }
}

/// The TTL and the class that the words begin with, as far as they do, and the words after them.
pub(crate) fn take_head<'w, 'a>(words: &'w [&'a str]) -> (Option<u32>, Option<Class>, &'w [&'a str])
    ensures { IsHead (texts words.now) result.0 result.1 (texts result.2.now) }
{
    let (first, after) = take_ttl(words);
    let (class, after) = take_class(after);
    if first.is_some() {
        return (first, class, after);
    }
    let (second, after) = take_ttl(after);
    (second, class, after)
}
