//! Values with a text.
ghost use Rattle.std.specs.Prelude.{ℕ, List, OnErr};
ghost use Rattle.dns_print.specs.Printing.{PrintsOnOk};

use dns_print::TextWriter;
use std::fmt;

/// A value that prints as one text to any writer, and fails only if the writer does.
pub trait PrintText {
    /// The text.
    ghost printed: { Self → List ℕ };

    /// Prints the text.
    fn print_text<T: TextWriter>(&self, writer: &mut T) -> fmt::Result
        ensures text { PrintsOnOk T.takes writer.old result (printed self.now) writer.new }
        ensures err { OnErr result T.MayFail };
}
