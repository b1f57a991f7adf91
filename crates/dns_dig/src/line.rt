//! Lines of a section, below its heading.
ghost use Rattle.std.specs.Prelude.{[], if◌then◌else◌, OnErr};
ghost use Rattle.dns_print.specs.Printing.{PrintsOnOk};
ghost use Rattle.dns_dig.specs.Lines.{end_text};

use dns_print::TextWriter;
use std::fmt;

/// Prints the heading of a section, unless it is printed already.
pub(crate) fn write_heading<T: TextWriter>(
    writer: &mut T,
    heading: &str,
    begun: bool,
) -> fmt::Result
    ensures text { PrintsOnOk T.takes writer.old result
        (if begun then [] else heading.now) writer.new }
    ensures err { OnErr result T.MayFail }
{
    if begun {
        return Ok(());
    }
    writer.write_text(heading)
}

/// Prints the empty line after a section, if it has lines.
pub(crate) fn write_end<T: TextWriter>(writer: &mut T, begun: bool) -> fmt::Result
    ensures text { PrintsOnOk T.takes writer.old result (end_text begun) writer.new }
    ensures err { OnErr result T.MayFail }
{
    if begun {
        return writer.write_text("\n");
    }
    Ok(())
}
