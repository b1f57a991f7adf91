use thiserror::Error;

/// The octets are too many for an option: OPTION-LENGTH is a 16-bit number.
#[derive(Clone, Copy, Debug, PartialEq, Eq, Error)]
#[error("option data too long")]
pub struct LongOptData;

/// The octets of an option aren't those of its kind, by the RFC that defines the kind.
#[derive(Clone, Copy, Debug, PartialEq, Eq, Error)]
#[error("malformed option data")]
pub struct BadOptData;
