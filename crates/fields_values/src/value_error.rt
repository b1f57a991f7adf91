//! Errors of values.

use thiserror::Error;

/// Why there is no record data with these values.
#[derive(Clone, Copy, Debug, PartialEq, Eq, Error)]
pub enum ValueError {
    /// The record type doesn't have as many fields.
    #[error("wrong number of values")]
    WrongCount,
    /// The field takes another variant than that of the value at this index, counted from 0.
    #[error("wrong kind of value {0}")]
    WrongKind(usize),
    /// The field takes values of this variant, but not the one at this index: a number is too
    /// large, a string or an address is too long, there is no string, the keys of parameters don't
    /// increase, or octets are malformed.
    #[error("value {0} out of range")]
    OutOfRange(usize),
    /// The fields take more than 65,535 octets.
    #[error("record data too long")]
    TooLong,
    /// An allocation failed.
    #[error("out of memory")]
    OutOfMemory,
}

/// Why a value isn't appended.
#[derive(Clone, Copy, Debug, PartialEq, Eq)]
pub(crate) enum Refusal {
    WrongKind,
    OutOfRange,
    OutOfMemory,
}
