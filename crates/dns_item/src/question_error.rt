//! Errors of reading a question from a text.
ghost use Rattle.std.specs.Prelude.{◌≡◌};

use dns_name::name;
use thiserror::Error;

/// What is wrong with the text of a question.
#[derive(Clone, Copy, Debug, PartialEq, Eq, Error)]
pub enum PresentationErrorEnum {
    /// The first word isn't the text of a name.
    #[error("{0}")]
    BadName(name::PresentationError),
    /// There is no word.
    #[error("missing qname")]
    MissingQname,
    /// There is only a name.
    #[error("missing class and qtype")]
    MissingClassAndQtype,
    /// There are only a name and a class.
    #[error("missing qtype")]
    MissingQtype,
    /// The word where a class is expected isn't one.
    #[error("invalid class")]
    BadClass,
    /// The word where a type is expected isn't one.
    #[error("invalid qtype")]
    BadQtype,
    /// There is a fourth word.
    #[error("trailing data")]
    TrailingData,
}

/// The text of a question is malformed. `kind` says what is wrong.
#[derive(Clone, Copy, Debug, PartialEq, Eq, Error)]
#[error("{0}")]
pub struct PresentationError(PresentationErrorEnum);

impl PresentationError {
    ghost use Rattle.dns_item.specs.QuestionTexts.{kind_of};

    /// What is wrong with the text.
    pub fn kind(&self) -> PresentationErrorEnum
        ensures { result ≡ kind_of self.now }
    {
        self.0
    }
}

/// The error of the name.
impl From<name::PresentationError> for PresentationError {
    ghost use Rattle.dns_item.specs.QuestionTexts.{kind_of};
    ghost use Rattle.dns_item.specs.declared.question_error.PresentationErrorEnum.TheVariants.{BadName};

    ghost from_gives = { λ fault error. kind_of error ≡ BadName fault };

    fn from(fault: name::PresentationError) -> Self {
        PresentationError(PresentationErrorEnum::BadName(fault))
    }
}

/// An error of reading a question from a text.
#[derive(Clone, Copy, Debug, PartialEq, Eq, Error)]
pub enum FromStrError {
    /// The text isn't that of a question.
    #[error("{0}")]
    Presentation(PresentationError),
    /// The question exceeds the capacity of its buffer.
    #[error("buffer size exceeded")]
    ShortBuf,
    /// An allocation for the question failed.
    #[error("out of memory")]
    OutOfMemory,
}

impl FromStrError {
    ghost use Rattle.dns_item.specs.QuestionTexts.{IsKind};

    pub(crate) fn of_kind(kind: PresentationErrorEnum) -> Self
        ensures { IsKind kind result }
    {
        FromStrError::Presentation(PresentationError(kind))
    }
}

/// The same error. A malformed name makes the question malformed.
impl From<name::FromStrError> for FromStrError {
    ghost use Rattle.dns_item.specs.QuestionTexts.{IsErrorOfName};

    ghost from_gives = { IsErrorOfName };

    fn from(error: name::FromStrError) -> Self {
        match error {
            name::FromStrError::Presentation(fault) => {
                FromStrError::Presentation(PresentationError::from(fault))
            }
            name::FromStrError::ShortBuf => FromStrError::ShortBuf,
            name::FromStrError::OutOfMemory => FromStrError::OutOfMemory,
        }
    }
}
