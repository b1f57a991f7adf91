//! Errors of parsing a record.
use dns_octets::ShortBuf;
use dns_print::{TextWriter, write_value};
use std::error::Error;
use std::fmt;

/// An error of parsing a record: that of its owner, that of its RDATA, or that octets are missing.
#[derive(Clone, Copy, Debug, PartialEq, Eq)]
pub enum RecordParseError<N, D> {
    /// The owner can't be parsed.
    Name(N),
    /// The RDATA can't be parsed.
    Data(D),
    /// Octets are missing.
    ShortBuf,
}

/// Octets are missing.
impl<N, D> From<ShortBuf> for RecordParseError<N, D> {
    ghost use Rattle.std.specs.Prelude.{◌≡◌};
    ghost use Rattle.dns_item.specs.declared.record_error.RecordParseError.TheVariants as errors;

    ghost from_gives = { λ _ e. e ≡ errors.ShortBuf };

    fn from(_: ShortBuf) -> Self {
        RecordParseError::ShortBuf
    }
}

impl<N: fmt::Display, D: fmt::Display> RecordParseError<N, D> {
    ghost use Rattle.std.specs.Prelude.{◌≡◌, IfSome, OnErr};
    ghost use Rattle.dns_print.specs.Printing.{PrintsOnOk};
    ghost use Rattle.dns_item.specs.RecordPrinting.{parse_error_text};

    /// Prints the text of the owner's or the RDATA's error, or that of missing octets.
    fn write<W: TextWriter>(&self, f: &mut W) -> fmt::Result
        ensures text { IfSome (parse_error_text N.output D.output self.now) (λ text.
            PrintsOnOk W.takes f.old result text f.new) }
        ensures err { self.now ≡ RecordParseError.ShortBuf → OnErr result W.MayFail }
    {
        match self {
            RecordParseError::Name(error) => write_value(f, format_args!("{error}")),
            RecordParseError::Data(error) => write_value(f, format_args!("{error}")),
            RecordParseError::ShortBuf => f.write_text("unexpected end of buffer"),
        }
    }
}

/// The text of the owner's or the RDATA's error, or that of missing octets.
impl<N: fmt::Display, D: fmt::Display> fmt::Display for RecordParseError<N, D> {
    ghost use Rattle.dns_item.specs.RecordPrinting.{parse_error_text};

    ghost output = { parse_error_text N.output D.output };

    ghost styled_output = { λ error _. parse_error_text N.output D.output error };

    fn fmt<W: fmt::Write>(&self, f: &mut fmt::Formatter<W>) -> fmt::Result {
        self.write(f)
    }
}

impl<N: Error, D: Error> Error for RecordParseError<N, D> {}
