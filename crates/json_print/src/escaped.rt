//! The content of a JSON string (RFC 8259 section 7).
ghost use Rattle.std.specs.Prelude.{◌≡◌, ◌<◌, ◌++◌, false, IfNone, IfSome, OnErr, [], ◌∷◌, codes, encode_utf8};
ghost use Rattle.std.specs.Fmt.{WritesInCalls};
ghost use Rattle.std.specs.List.{list_all};
ghost use Rattle.json.specs.Print.{escape, escape_letter};
ghost use Rattle.json.specs.Run.{is_plain};
ghost use Rattle.dns_print.specs.Digits.{hex_digits};
ghost use Rattle.dns_print.specs.Printing.{PrintsOnOk};

use dns_print::{TextWriter, write_hex_octet};
use std::fmt;

/// A writer that escapes each text that it takes, and writes it to another writer.
#[derive(Drop)]
pub(crate) struct Escaped<'a, T>(pub(crate) &'a mut T);

impl<T: TextWriter> TextWriter for Escaped<'_, T> {
    ghost takes = { λ old text new. WritesInCalls T.takes old.0.now (escape text) new.0.now
        × (new.0.ghost_name ≡ old.0.ghost_name) };

    ghost MayFail = { T.MayFail };

    fn write_text(&mut self, text: &str) -> fmt::Result {
        write_escaped(self.0, text)
    }
}

/// Prints a text as the content of a string: quotation marks, backslashes and control characters
/// are escaped.
pub(crate) fn write_escaped<T: TextWriter>(writer: &mut T, text: &str) -> fmt::Result
    ensures text { PrintsOnOk T.takes writer.old result (escape text.now) writer.new }
    ensures err { OnErr result T.MayFail }
{
    if is_plain(text) {
        return writer.write_text(text);
    }
    write_each(writer, text)
}

/// Whether no character of a text needs an escape.
fn is_plain(text: &str) -> bool
    ensures { result ≡ list_all is_plain text.now }
{
    text.as_bytes().iter().all(|octet| is_plain_octet(*octet))
}

fn is_plain_octet(octet: u8) -> bool
    ensures { result ≡ is_plain octet }
{
    !(octet == b'"' || octet == b'\\' || octet < b' ')
}

/// Prints each character of a text as in a string.
fn write_each<T: TextWriter>(writer: &mut T, text: &str) -> fmt::Result
    ensures text { PrintsOnOk T.takes writer.old result (escape text.now) writer.new }
    ensures err { OnErr result T.MayFail }
{
    for c in text.chars() {
        write_character(writer, c)?;
    }
    Ok(())
}

/// Prints a character as in a string.
fn write_character<T: TextWriter>(writer: &mut T, c: char) -> fmt::Result
    ensures text { PrintsOnOk T.takes writer.old result (escape (encode_utf8 c)) writer.new }
    ensures err { OnErr result T.MayFail }
{
    if let Some(letter) = short_escape(c) {
        return write_short(writer, letter);
    }
    if c < ' ' {
        return write_code(writer, c as u8);
    }
    writer.write_char(c)
}

/// The character that stands for `c` after a backslash, if there is one.
fn short_escape(c: char) -> Option<char>
    ensures short { IfSome result (λ letter. escape (encode_utf8 c) ≡ 92 ∷ letter ∷ []) }
    ensures ascii { IfSome result (λ letter. letter < 128) }
    ensures none { IfNone result (escape_letter c ≡ 0) }
{
    match c {
        '"' => Some('"'),
        '\\' => Some('\\'),
        '\u{8}' => Some('b'),
        '\u{c}' => Some('f'),
        '\n' => Some('n'),
        '\r' => Some('r'),
        '\t' => Some('t'),
        _ => None,
    }
}

/// Prints a backslash and an ASCII character.
fn write_short<T: TextWriter>(writer: &mut T, letter: char) -> fmt::Result
    requires { letter < 128 }
    ensures text { PrintsOnOk T.takes writer.old result (92 ∷ letter ∷ []) writer.new }
    ensures err { OnErr result T.MayFail }
{
    writer.write_char('\\')?;
    writer.write_char(letter)
}

/// Prints a control character by its code in four hexadecimal digits.
fn write_code<T: TextWriter>(writer: &mut T, octet: u8) -> fmt::Result
    ensures text { PrintsOnOk T.takes writer.old result
        (codes "\\u00" ++ hex_digits false octet) writer.new }
    ensures err { OnErr result T.MayFail }
{
    writer.write_text("\\u00")?;
    write_hex_octet(writer, false, octet)
}
