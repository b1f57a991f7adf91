//! Names that are relative to an origin (RFC 1035 section 5.1).
ghost use Rattle.std.specs.Prelude.{◌≡◌, ◌≤◌, ◌++◌, true, false, IfOk, OnOk, length, option_map, string_bytes};
ghost use Rattle.std.specs.Option.{option_copied};
ghost use Rattle.fields_lines.specs.NameWords.{completed_name, ends_with_dot, is_escape, is_separator, origin_text, spaced};

use std::alloc::{AllocError, Global};

/// Whether an octet is a dot that has no backslash before it.
fn is_separator(escaped: bool, octet: u8) -> bool
    ensures { result ≡ is_separator escaped octet }
{
    !escaped && octet == b'.'
}

/// Whether an octet is a backslash that has none before it.
fn is_escape(escaped: bool, octet: u8) -> bool
    ensures { result ≡ is_escape escaped octet }
{
    !escaped && octet == b'\\'
}

/// Whether a word ends with a dot that has no backslash before it.
pub(crate) fn ends_with_dot(word: &[u8]) -> bool
    ensures { result ≡ ends_with_dot false false word.now }
{
    let mut separated = false;
    let mut escaped = false;
    for octet in word {
        separated = is_separator(escaped, *octet);
        escaped = is_escape(escaped, *octet);
    }
    separated
}

/// Appends what the first character after a backslash is written as, if that isn't the character: of
/// a space or a tab its decimal number. Returns the text that isn't appended yet, in which a backslash begins
/// an escape.
fn push_escaped<'a>(text: &mut String, after: &'a str) -> Result<&'a str, AllocError>
    ensures same { IfOk result (λ left. string_bytes text.new ++ spaced false left.now
        ≡ string_bytes text.old ++ spaced true after.now) }
    ensures shorter { IfOk result (λ left. length left.now ≤ length after.now) }
{
    if let Some(left) = after.strip_prefix(' ') {
        text.push_str("032")?;
        return Ok(left);
    }
    if let Some(left) = after.strip_prefix('\t') {
        text.push_str("009")?;
        return Ok(left);
    }
    if let Some(left) = after.strip_prefix('\\') {
        text.push_str("\\")?;
        return Ok(left);
    }
    Ok(after)
}

/// Appends a word whose spaces and tabs after a backslash are written by their numbers.
fn push_spaced(text: &mut String, word: &str) -> Result<(), AllocError>
    ensures { OnOk result (string_bytes text.new ≡ string_bytes text.old ++ spaced false word.now) }
{
    let mut left = word;
    'escapes: while let Some((before, after)) = left.split_once('\\') {
        text.push_str(before)?;
        text.push_str("\\")?;
        left = push_escaped(text, after)?;
    }
    text.push_str(left)?;
    Ok(())
}

/// Appends the origin after a relative name: a dot, and the origin unless it is the root.
fn push_origin(text: &mut String, origin: &str) -> Result<(), AllocError>
    ensures { OnOk result
        (string_bytes text.new ≡ string_bytes text.old ++ origin_text origin.now) }
{
    text.push_str(".")?;
    if origin == "." {
        return Ok(());
    }
    text.push_str(origin)?;
    Ok(())
}

/// The complete name that a word represents: `@` is the origin, and the origin is appended to a name
/// without a final dot. `None` if that needs an origin and there is none.
pub(crate) fn complete_name(
    alloc: Global,
    origin: Option<&str>,
    word: &str,
) -> Result<Option<String>, AllocError>
    ensures { IfOk result (λ found. option_map string_bytes found
        ≡ completed_name (option_copied origin.entry) word.now) }
{
    let mut text = String::new(alloc);
    if word == "@" {
        let Some(origin) = origin else {
            return Ok(None);
        };
        text.push_str(origin)?;
        return Ok(Some(text));
    }
    push_spaced(&mut text, word)?;
    if ends_with_dot(word.as_bytes()) {
        return Ok(Some(text));
    }
    let Some(origin) = origin else {
        return Ok(None);
    };
    push_origin(&mut text, origin)?;
    Ok(Some(text))
}
