//! Why the program ends early.
ghost use Rattle.std.specs.Prelude.{◌≡◌, OnOk};
ghost use Rattle.std.specs.Io.KnownBytes.{Appends};
ghost use Rattle.dnsmsg_tool.specs.ToolErrors.{error_line, status_of};
ghost use Rattle.dnsmsg_tool.specs.declared.tool_error.ToolError.TheVariants as errors;

use dns_octets::AppendError;
use std::alloc::AllocError;
use std::io;
use std::io::Write;

/// Why the program ends before it has finished.
#[derive(Clone, Copy)]
pub(crate) enum ToolError {
    /// The arguments aren't those of the program.
    Usage,
    /// The script's line with this number, counted from 1, is malformed, or its call is misplaced.
    BadLine(usize),
    /// The input isn't hexadecimal digits, two for each octet, and ASCII white space.
    BadHex,
    /// The octets are fewer than the 12 of a header section.
    ShortMessage,
    /// Reading, writing or an allocation failed.
    Failed,
}

impl From<io::Error> for ToolError {
    ghost from_gives = { λ _ error. error ≡ errors.Failed };

    fn from(_: io::Error) -> Self {
        ToolError::Failed
    }
}

impl From<AllocError> for ToolError {
    ghost from_gives = { λ _ error. error ≡ errors.Failed };

    fn from(_: AllocError) -> Self {
        ToolError::Failed
    }
}

impl From<AppendError> for ToolError {
    ghost from_gives = { λ _ error. error ≡ errors.Failed };

    fn from(_: AppendError) -> Self {
        ToolError::Failed
    }
}

impl ToolError {
    /// The exit status.
    pub(crate) fn status(self) -> u8
        ensures { result ≡ status_of self }
    {
        match self {
            ToolError::BadLine(_) | ToolError::BadHex | ToolError::ShortMessage => 1,
            ToolError::Usage => 2,
            ToolError::Failed => 3,
        }
    }

    /// Prints the line that reports this error.
    pub(crate) fn print<W: Write>(self, writer: &mut W) -> io::Result<()>
        ensures { OnOk result (Appends (W.contents writer.old) (W.contents writer.new)
            (error_line self)) }
    {
        match self {
            ToolError::BadLine(number) => writeln!(writer, "bad line {number}"),
            ToolError::BadHex => writeln!(writer, "bad hex"),
            ToolError::ShortMessage => writeln!(writer, "short message"),
            ToolError::Usage => writeln!(writer, "usage: dnsmsg build TARGET | dnsmsg show"),
            ToolError::Failed => writeln!(writer, "failed"),
        }
    }
}
