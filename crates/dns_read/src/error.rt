use thiserror::Error;

/// The error for octets that are too short to be a message: fewer than the 12 of a header section.
#[derive(Clone, Copy, Debug, Error)]
#[error("short message")]
pub struct ShortMessage;
