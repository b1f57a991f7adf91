//! Questions and their texts.
use crate::case::digits_composed;
use arrayvec::ArrayVec;
use dns_item::question::FromStrError;
use dns_item::{ComposeQuestion, Question};
use dns_wire::{Name, Parser, ToName};
use std::alloc::{AllocError, Global};

/// A question with its name in an array.
type ArrayQuestion = Question<Name<ArrayVec<u8, 255>>>;

/// The digits of the question that a text reads as, or why it reads as none. Names are read into an
/// array and into a vector.
pub(crate) fn read_question(alloc: Global, text: &str) -> Result<String, AllocError> {
    let shown = digits(alloc, text.parse::<ArrayQuestion>())?;
    let other = digits(alloc, Question::vec_from_str(alloc, text))?;
    if shown.as_str() == other.as_str() {
        Ok(shown)
    } else {
        String::from_str(alloc, "not the same in a vector")
    }
}

/// The digits of a question, or why there is none.
fn digits<N: ToName + Drop>(
    alloc: Global,
    read: Result<Question<N>, FromStrError>,
) -> Result<String, AllocError> {
    match read {
        Ok(question) => {
            let mut octets = Vec::new(alloc);
            let composed = question.compose_question(&mut octets);
            digits_composed(alloc, octets.as_slice(), composed)
        }
        Err(error) => refusal(alloc, error),
    }
}

/// The text of an error. The error that it has, and that error's kind, have the same text.
fn refusal(alloc: Global, error: FromStrError) -> Result<String, AllocError> {
    let text = error.to_string(alloc)?;
    let FromStrError::Presentation(presentation) = error else {
        return Ok(text);
    };
    let own = presentation.to_string(alloc)?;
    let kind = presentation.kind().to_string(alloc)?;
    if own.as_str() == text.as_str() && kind.as_str() == text.as_str() {
        Ok(text)
    } else {
        String::from_str(alloc, "errors that print differently")
    }
}

/// What the question of these octets prints as, or why it can't be read.
pub(crate) fn printed_question(alloc: Global, octets: &[u8]) -> Result<String, AllocError> {
    match Question::parse(&mut Parser::new(octets)) {
        Ok(question) => question.to_string(alloc),
        Err(error) => error.to_string(alloc),
    }
}
