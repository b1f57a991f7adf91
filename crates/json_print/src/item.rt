//! Items of a JSON array (RFC 8259 section 5).
ghost use Rattle.std.specs.Prelude.{OnErr};
ghost use Rattle.dns_print.specs.Printing.{PrintsOnOk};
ghost use Rattle.json_print.specs.Texts.{comma_if};

use dns_print::TextWriter;
use std::fmt;

/// Prints the comma before an item, if it follows another.
pub fn write_comma_if<T: TextWriter>(writer: &mut T, later: bool) -> fmt::Result
    ensures text { PrintsOnOk T.takes writer.old result (comma_if later) writer.new }
    ensures err { OnErr result T.MayFail }
{
    if later {
        return writer.write_text(",");
    }
    Ok(())
}
