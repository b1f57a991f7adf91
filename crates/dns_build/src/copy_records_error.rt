use crate::push_error::PushError;
use dns_octets::ParseError;
use thiserror::Error;

/// Why the records of a message can't be copied.
#[derive(Clone, Copy, Debug, Error)]
pub enum CopyRecordsError {
    /// The message is malformed.
    #[error("{0}")]
    Parse(ParseError),
    /// A record can't be pushed.
    #[error("{0}")]
    Push(PushError),
}

impl From<ParseError> for CopyRecordsError {
    ghost use Rattle.std.specs.Prelude.{◌≡◌};
    ghost use Rattle.dns_build.specs.declared.copy_records_error.CopyRecordsError.TheVariants as errors;

    ghost from_gives = { λ e copy. copy ≡ errors.Parse e };

    fn from(error: ParseError) -> Self {
        CopyRecordsError::Parse(error)
    }
}

impl From<PushError> for CopyRecordsError {
    ghost use Rattle.std.specs.Prelude.{◌≡◌};
    ghost use Rattle.dns_build.specs.declared.copy_records_error.CopyRecordsError.TheVariants as errors;

    ghost from_gives = { λ e copy. copy ≡ errors.Push e };

    fn from(error: PushError) -> Self {
        CopyRecordsError::Push(error)
    }
}
