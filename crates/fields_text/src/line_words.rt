//! The words of a line (RFC 1035 section 5.1).
ghost use Rattle.std.specs.Prelude.{◌≡◌, ◌+◌, ◌<◌, ◌^◌, length, drop, slice_index, MatchOption};
ghost use Rattle.fields_text.specs.LineWords.{BeginsNoBlank, SkipsBlank, SkipsBlanks, SplitsWords, from_newline};

use crate::text_error::TextError;
use crate::word::split_word;
use std::alloc::Global;

/// What is left of a line.
#[derive(Clone, Copy)]
struct Left<'a> {
    text: &'a str,
    /// How many parentheses are open.
    depth: usize,
    /// Whether the line has ended, so that no word may follow.
    ended: bool,
}

/// The text after its first character, which is ASCII.
fn after_first(text: &str) -> &str
    requires some { 0 < length text.now }
    requires ascii { slice_index text.now 0 < 128 }
    ensures { result.now ≡ drop 1 text.now }
{
    text.split_at(1).1
}

/// The text from its first newline on. It is empty if there is none.
fn from_newline(text: &str) -> &str
    ensures { result.now ≡ from_newline text.now }
{
    match text.find('\n') {
        Some(start) => text.split_at(start).1,
        None => "",
    }
}

/// What is left after the blank, comment, newline or parenthesis that it begins with. `None` if it
/// begins with a word, or with a parenthesis that closes none.
fn skip_blank(left: Left) -> Option<Left>
    requires { left.depth + length left.text.now < 2 ^ 64 }
    ensures { MatchOption result (BeginsNoBlank left.entry.depth left.entry.text.now)
        (λ after. SkipsBlank left.entry after) }
{
    let Left { text, depth, ended } = left;
    let [first, ..] = text.as_bytes() else {
        return None;
    };
    match *first {
        b' ' | b'\t' | b'\r' => Some(Left {
            text: after_first(text),
            depth,
            ended,
        }),
        b';' => Some(Left {
            text: from_newline(text),
            depth,
            ended,
        }),
        b'\n' => Some(Left {
            text: after_first(text),
            depth,
            ended: ended || depth == 0,
        }),
        b'(' => Some(Left {
            text: after_first(text),
            depth: depth + 1,
            ended,
        }),
        b')' if depth > 0 => Some(Left {
            text: after_first(text),
            depth: depth - 1,
            ended,
        }),
        _ => None,
    }
}

/// What is left after the blanks, comments, newlines and parentheses that it begins with.
fn skip_blanks(start: Left) -> Left
    requires { start.depth + length start.text.now < 2 ^ 64 }
    ensures { SkipsBlanks start.entry result }
{
    let mut left = start;
    'blanks: while let Some(after) = skip_blank(left) {
        left = after;
    }
    left
}

/// The words of a line, with the lines that its parentheses join to it. A comment is no word. Quotes
/// and backslashes stay in the words.
///
/// `BadWord` if a word follows the end of the line, if a parenthesis closes none or isn't closed, or
/// if a quote or a backslash is open at the end.
pub fn split_words<'a>(alloc: Global, line: &'a str) -> Result<Vec<&'a str>, TextError>
    ensures { SplitsWords line.now result }
{
    let mut words = Vec::new(alloc);
    let mut left = skip_blanks(Left {
        text: line,
        depth: 0,
        ended: false,
    });
    'words: while !left.text.is_empty() {
        if left.ended {
            return Err(TextError::BadWord);
        }
        let Some((word, after)) = split_word(left.text) else {
            return Err(TextError::BadWord);
        };
        if words.push(word).is_err() {
            return Err(TextError::OutOfMemory);
        }
        left = skip_blanks(Left {
            text: after,
            depth: left.depth,
            ended: false,
        });
    }
    if left.depth > 0 {
        Err(TextError::BadWord)
    } else {
        Ok(words)
    }
}
