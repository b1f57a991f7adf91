//! What is wrong with a word.

use thiserror::Error;

/// What is wrong with a word that is read.
#[derive(Clone, Copy, Debug, PartialEq, Eq, Error)]
pub enum TextError {
    /// The word doesn't represent a value of its kind.
    #[error("bad word")]
    BadWord,
    /// An allocation fails.
    #[error("out of memory")]
    OutOfMemory,
}
