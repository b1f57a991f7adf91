use thiserror::Error;

/// The octets are too many for RDATA: RDLENGTH is a 16-bit number.
#[derive(Clone, Copy, Debug, PartialEq, Eq, Error)]
#[error("record data too long")]
pub struct LongRecordData;
