//! The word that a text begins with (RFC 1035 section 5.1).
ghost use Rattle.std.specs.Prelude.{◌≡◌, ℕ, List, MatchOption};
ghost use Rattle.fields_text.specs.LineWords.{SplitsRest, SplitsString, SplitsWord, ends_word};

/// Whether the character ends a word outside of quotes.
fn ends_word(character: u8) -> bool
    ensures { result ≡ ends_word character }
{
    matches!(character, b' ' | b'\t' | b'\r' | b'\n' | b'(' | b')' | b';')
}

/// The text after the rest of a string in quotes. `None` if it has no closing quote.
fn after_string(text: &[u8]) -> Option<&[u8]>
    ensures { MatchOption result
        ((word : List ℕ) (after : List ℕ) → ¬ (SplitsString text.now word after))
        (λ after. (word : List ℕ) × SplitsString text.now word after.now) }
{
    let mut escaped = false;
    let mut left = text;
    'characters: while let [character, after @ ..] = left {
        if escaped {
            escaped = false;
        } else if *character == b'\\' {
            escaped = true;
        } else if *character == b'"' {
            return Some(after);
        }
        left = after;
    }
    None
}

/// The text after the rest of a word that isn't in quotes. `None` if a quote or a backslash is open
/// at the end.
fn after_rest(text: &[u8]) -> Option<&[u8]>
    ensures { MatchOption result
        ((word : List ℕ) (after : List ℕ) → ¬ (SplitsRest text.now word after))
        (λ after. (word : List ℕ) × SplitsRest text.now word after.now) }
{
    let mut quoted = false;
    let mut escaped = false;
    let mut left = text;
    'characters: while let [first, after @ ..] = left {
        if escaped {
            escaped = false;
        } else if *first == b'\\' {
            escaped = true;
        } else if *first == b'"' {
            quoted = !quoted;
        } else if !quoted && ends_word(*first) {
            return Some(left);
        }
        left = after;
    }
    if quoted || escaped { None } else { Some(left) }
}

/// The text after the word that a text begins with. `None` if it begins with none, or if a quote or a
/// backslash is open at the end.
fn after_word(text: &[u8]) -> Option<&[u8]>
    ensures { MatchOption result
        ((word : List ℕ) (after : List ℕ) → ¬ (SplitsWord text.now word after))
        (λ after. (word : List ℕ) × SplitsWord text.now word after.now) }
{
    let [first, after @ ..] = text else {
        return None;
    };
    if *first == b'"' {
        return after_string(after);
    }
    if ends_word(*first) {
        return None;
    }
    after_rest(text)
}

/// The word that a text begins with, and the text after it. `None` if it begins with none, or if a
/// quote or a backslash is open at the end.
pub(crate) fn split_word(text: &str) -> Option<(&str, &str)>
    ensures { MatchOption result
        ((word : List ℕ) (after : List ℕ) → ¬ (SplitsWord text.now word after))
        (λ split. SplitsWord text.now split.0.now split.1.now) }
{
    let Some(after) = after_word(text.as_bytes()) else {
        return None;
    };
    Some(text.split_at(text.len() - after.len()))
}
