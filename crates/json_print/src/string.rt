//! JSON strings (RFC 8259 section 7).
ghost use Rattle.std.specs.Prelude.{OnErr};
ghost use Rattle.json.specs.Json.{string};
ghost use Rattle.json.specs.Print.{escape, quoted};
ghost use Rattle.dns_print.specs.Printing.{PrintsOnOk};
ghost use Rattle.json_print.specs.Texts.{json_text};

use crate::escaped::{Escaped, write_escaped};
use crate::printed::PrintText;
use dns_print::TextWriter;
use std::fmt;

/// Prints the text of a value as a string.
pub fn write_string<T: TextWriter, V: PrintText>(writer: &mut T, value: &V) -> fmt::Result
    ensures text { PrintsOnOk T.takes writer.old result (json_text (string (V.printed value.now)))
        writer.new }
    ensures err { OnErr result T.MayFail }
{
    writer.write_text("\"")?;
    write_content(writer, value)?;
    writer.write_text("\"")
}

/// Prints the text of a value as the content of a string.
fn write_content<T: TextWriter, V: PrintText>(writer: &mut T, value: &V) -> fmt::Result
    ensures text { PrintsOnOk T.takes writer.old result (escape (V.printed value.now))
        writer.new }
    ensures err { OnErr result T.MayFail }
{
    let mut escaped = Escaped(writer);
    value.print_text(&mut escaped)
}

/// Prints a text in quotation marks, escaped.
pub(crate) fn write_quoted<T: TextWriter>(writer: &mut T, text: &str) -> fmt::Result
    ensures text { PrintsOnOk T.takes writer.old result (quoted text.now) writer.new }
    ensures err { OnErr result T.MayFail }
{
    writer.write_text("\"")?;
    write_escaped(writer, text)?;
    writer.write_text("\"")
}
