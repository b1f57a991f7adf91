//! Why a line isn't read.

use thiserror::Error;

/// What is wrong with a word of a line.
#[derive(Clone, Copy, Debug, PartialEq, Eq, Error)]
pub enum WordReason {
    /// The line ends before this word.
    #[error("a word is missing")]
    Missing,
    /// The line has no owner, and no record is before it.
    #[error("no owner")]
    NoOwner,
    /// The line has no TTL, and there is no default.
    #[error("no TTL")]
    NoTtl,
    /// A name without a final dot, and there is no origin.
    #[error("a relative name without an origin")]
    Relative,
    /// The word is no record type.
    #[error("not a record type")]
    NoType,
    /// The owner isn't a name, or the words from this one on aren't RDATA of the type.
    #[error("not a value of its field")]
    NoValue,
}

/// Why a line isn't read.
#[derive(Clone, Copy, Debug, PartialEq, Eq, Error)]
pub enum LineError {
    /// What is wrong with a word, and the index of the word in the line.
    #[error("word {index}: {reason}")]
    BadWord { index: usize, reason: WordReason },
    /// An allocation fails.
    #[error("out of memory")]
    OutOfMemory,
}
