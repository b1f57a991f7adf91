use thiserror::Error;

/// Why no further message of a stream is read. The length that is refused is the first of the
/// octets that are left.
///
/// Close the connection: a reader doesn't skip the message.
#[derive(Clone, Copy, Debug, PartialEq, Eq, Error)]
pub enum FrameError {
    /// The length is less than the 12 octets of a header section.
    #[error("short message")]
    Short,
    /// The length and the message together are longer than accepted.
    #[error("long message")]
    Long,
}
