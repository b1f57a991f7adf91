//! The words of a script's line, and the numbers in them.
ghost use Rattle.std.specs.Prelude.{◌≡◌, IfOk, string_bytes};
ghost use Rattle.dnsmsg_tool.specs.ScriptWords.{spaced_words, texts, words_of, IsNumberUpTo, ReadsValue};

use std::alloc::{AllocError, Global};

/// The words of a text, which spaces separate.
pub(crate) fn words(alloc: Global, text: &str) -> Result<Vec<&str>, AllocError>
    ensures { IfOk result (λ words. texts words.items ≡ words_of text.now) }
{
    text.split(' ')
        .filter(|word| !word.is_empty())
        .collect(alloc)
}

/// The words, with a space after each.
pub(crate) fn spaced(alloc: Global, words: &[&str]) -> Result<String, AllocError>
    ensures { IfOk result (λ text. string_bytes text ≡ spaced_words words.now) }
{
    let mut text = String::new(alloc);
    for word in words {
        text.push_str(word)?;
        text.push_str(" ")?;
    }
    Ok(text)
}

/// The number in these decimal digits. Returns `None` if it exceeds `most`, and for any other text.
pub(crate) fn number(digits: &str, most: usize) -> Option<usize>
    ensures { ReadsValue (λ n. n) (IsNumberUpTo most digits.now) result }
{
    if digits.starts_with('+') {
        return None;
    }
    let number = digits.parse::<usize>().ok()?;
    if number <= most { Some(number) } else { None }
}
