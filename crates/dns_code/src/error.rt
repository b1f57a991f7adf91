use thiserror::Error;

/// A text of flags has a token that isn't the name of a flag.
#[derive(Debug, Drop, Error)]
#[error("illegal flags token")]
pub struct FlagsFromStrError(());

impl FlagsFromStrError {
    pub(crate) fn new() -> Self {
        FlagsFromStrError(())
    }
}

/// A count of the header is 65,535 and can't be incremented.
#[derive(Debug, Drop, Error)]
#[error("increasing a header count lead to an overflow")]
pub struct CountOverflow(());

impl CountOverflow {
    pub(crate) fn new() -> Self {
        CountOverflow(())
    }
}
