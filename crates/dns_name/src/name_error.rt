use thiserror::Error;

/// Why a text isn't a name in presentation format (RFC 1035 section 5.1).
#[derive(Clone, Copy, Debug, PartialEq, Eq, Error)]
pub enum PresentationError {
    /// A label has no octets, or the text is empty.
    #[error("empty label")]
    EmptyLabel,
    /// An unescaped character isn't a graphic ASCII character.
    #[error("illegal symbol")]
    BadSymbol,
    /// A backslash is followed neither by three digits up to 255 nor by a graphic ASCII character
    /// other than a digit.
    #[error("illegal escape")]
    BadEscape,
    /// A label has more than 63 octets.
    #[error("long label")]
    LongLabel,
    /// A name has more than 255 octets.
    #[error("long name")]
    LongName,
}

/// Why a name can't be read from a text.
#[derive(Clone, Copy, Debug, PartialEq, Eq, Error)]
pub enum FromStrError {
    /// The text doesn't represent a name.
    #[error("{0}")]
    Presentation(PresentationError),
    /// The name exceeds the capacity of its buffer.
    #[error("buffer size exceeded")]
    ShortBuf,
    /// An allocation for the name failed.
    #[error("out of memory")]
    OutOfMemory,
}
