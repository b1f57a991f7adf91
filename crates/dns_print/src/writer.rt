//! Writers of text.
ghost use Rattle.std.specs.Prelude.{ℕ, List, OnErr, encode_utf8, ⊤};
ghost use Rattle.dns_print.specs.Printing.{FormatterTakes, PrintsOnOk};

use std::fmt;

/// A writer that takes texts one after the other.
pub trait TextWriter {
    /// Relates the writer before a text, the text and the writer after it.
    ghost takes: { Self → List ℕ → Self → Type 0 };

    /// Whether the writer may fail.
    ghost MayFail: { Type 0 };

    /// Writes the text.
    fn write_text(&mut self, text: &str) -> fmt::Result
        ensures text { PrintsOnOk takes self.old result text.now self.new }
        ensures err { OnErr result MayFail };

    /// Writes the character.
    final fn write_char(&mut self, c: char) -> fmt::Result
    where
        Self: Sized,
        ensures text { PrintsOnOk takes self.old result (encode_utf8 c) self.new }
        ensures err { OnErr result MayFail }
    {
        let mut bytes = [0u8; 4];
        self.write_text(c.encode_utf8(&mut bytes))
    }
}

/// A formatter writes the text as it is, whatever its options are.
impl<W: fmt::Write> TextWriter for fmt::Formatter<W> {
    ghost takes = { FormatterTakes W.write_str_gives };

    ghost MayFail = { ⊤ };

    fn write_text(&mut self, text: &str) -> fmt::Result {
        self.write_str(text)
    }
}
