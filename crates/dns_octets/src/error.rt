use std::alloc::AllocError;
use thiserror::Error;

/// What is wrong with malformed octets. It has six values, each with a fixed text.
#[derive(Clone, Copy, Debug, PartialEq, Eq, Error)]
#[error("{0}")]
pub struct FormError(Cause);

/// The texts of `FormError`.
#[derive(Clone, Copy, Debug, PartialEq, Eq, Error)]
enum Cause {
    #[error("bad label")]
    BadLabel,
    #[error("bad pointer")]
    BadPointer,
    #[error("long name")]
    LongName,
    #[error("trailing data in option")]
    TrailingData,
    #[error("no question")]
    NoQuestion,
    #[error("multiple questions")]
    MultipleQuestions,
}

impl FormError {
    /// A length octet has the high bits 01 or 10.
    pub const BAD_LABEL: FormError = FormError(Cause::BadLabel);

    /// A pointer doesn't lead strictly back, or is in a name that must be uncompressed.
    pub const BAD_POINTER: FormError = FormError(Cause::BadPointer);

    /// A name has more than 255 octets, or octets follow a name that must be the whole input.
    pub const LONG_NAME: FormError = FormError(Cause::LongName);

    /// Octets follow the value within its RDATA.
    pub const TRAILING_DATA: FormError = FormError(Cause::TrailingData);

    /// A message that must have one question has none.
    pub const NO_QUESTION: FormError = FormError(Cause::NoQuestion);

    /// A message that must have one question has more than one.
    pub const MULTIPLE_QUESTIONS: FormError = FormError(Cause::MultipleQuestions);
}

/// Why octets can't be read.
#[derive(Clone, Copy, Debug, PartialEq, Eq, Error)]
pub enum ParseError {
    /// An octet that is needed is at or past the end.
    #[error("unexpected end of input")]
    ShortInput,
    /// The octets are there but malformed.
    #[error("{0}")]
    Form(FormError),
}

/// A buffer of fixed size has no capacity for what was to be stored.
#[derive(Clone, Copy, Debug, PartialEq, Eq, Error)]
#[error("buffer size exceeded")]
pub struct ShortBuf;

/// Why octets can't be stored.
#[derive(Clone, Copy, Debug, PartialEq, Eq, Error)]
pub enum AppendError {
    /// They exceed the capacity.
    #[error("buffer size exceeded")]
    ShortBuf,
    /// An allocation failed.
    #[error("out of memory")]
    OutOfMemory,
}

impl From<ShortBuf> for AppendError {
    ghost use Rattle.std.specs.Prelude.{◌≡◌};
    ghost use Rattle.dns_octets.specs.declared.error.AppendError.TheVariants as errors;

    ghost from_gives = { λ _ e. e ≡ errors.ShortBuf };

    fn from(_: ShortBuf) -> Self {
        AppendError::ShortBuf
    }
}

impl From<AllocError> for AppendError {
    ghost use Rattle.std.specs.Prelude.{◌≡◌};
    ghost use Rattle.dns_octets.specs.declared.error.AppendError.TheVariants.{OutOfMemory};

    ghost from_gives = { λ _ e. e ≡ OutOfMemory };

    fn from(_: AllocError) -> Self {
        AppendError::OutOfMemory
    }
}
