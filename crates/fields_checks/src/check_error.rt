//! What is wrong with a value.

use thiserror::Error;

/// Why an RFC rules a value out.
#[derive(Clone, Copy, Debug, PartialEq, Eq, Error)]
pub enum ValueReason {
    /// A digest or a fingerprint has another size than its type; the number of octets that its type
    /// has.
    #[error("digest not of {0} octets")]
    DigestSize(usize),
    /// A digest of a ZONEMD record has fewer than twelve octets (RFC 8976 section 2.2.4).
    #[error("digest of fewer than 12 octets")]
    ShortDigest,
    /// The value of `mandatory` is no list of one key or more in ascending order, or lists the key 0,
    /// which is `mandatory` itself (RFC 9460 section 8).
    #[error("malformed list of mandatory keys")]
    BadMandatory,
    /// `mandatory` lists this key, and there is no parameter with it (RFC 9460 section 8).
    #[error("no parameter of the mandatory key {0}")]
    MissingKey(u16),
    /// `no-default-alpn` without `alpn` (RFC 9460 section 7.1.1).
    #[error("no-default-alpn without alpn")]
    NoAlpn,
}

/// A value of RDATA that an RFC rules out.
#[derive(Clone, Copy, Debug, PartialEq, Eq, Error)]
#[error("field {field}: {reason}")]
pub struct CheckError {
    /// The index of the field.
    pub field: usize,
    pub reason: ValueReason,
}
