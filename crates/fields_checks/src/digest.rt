//! The sizes of digests.
ghost use Rattle.std.specs.Prelude.{◌≡◌, length};
ghost use Rattle.fields_checks.specs.Digests.{delegation_size, digest_reason, digest_size, fingerprint_size, short_reason, zone_size};

use crate::check_error::ValueReason;

/// The number of octets of a digest of a key (RFC 4034 section 5.1.3; the registry of digest types).
fn delegation_size(digest_type: u64) -> Option<usize>
    ensures { result ≡ delegation_size digest_type }
{
    match digest_type {
        1 => Some(20),
        2 | 3 | 5 | 6 => Some(32),
        4 => Some(48),
        _ => None,
    }
}

/// The number of octets of a fingerprint (RFC 4255 section 3.1.2, RFC 6594 section 3).
fn fingerprint_size(fingerprint_type: u64) -> Option<usize>
    ensures { result ≡ fingerprint_size fingerprint_type }
{
    match fingerprint_type {
        1 => Some(20),
        2 => Some(32),
        _ => None,
    }
}

/// The number of octets of a digest of a zone (RFC 8976 section 2.2.3).
fn zone_size(hash_algorithm: u64) -> Option<usize>
    ensures { result ≡ zone_size hash_algorithm }
{
    match hash_algorithm {
        1 => Some(48),
        2 => Some(64),
        _ => None,
    }
}

/// The number of octets of the digest of RDATA of this type, by the number before it.
fn digest_size(rtype: u16, number: u64) -> Option<usize>
    ensures { result ≡ digest_size rtype number }
{
    match rtype {
        43 | 59 | 32768 | 32769 => delegation_size(number),
        44 => fingerprint_size(number),
        63 => zone_size(number),
        _ => None,
    }
}

/// What is wrong with a digest whose type says no size: a digest of a zone has twelve octets at least
/// (RFC 8976 section 2.2.4).
fn short_reason(rtype: u16, digest: &[u8]) -> Option<ValueReason>
    ensures { result ≡ short_reason rtype (length digest.now) }
{
    if rtype == 63 && digest.len() < 12 {
        return Some(ValueReason::ShortDigest);
    }
    None
}

/// What is wrong with the digest of RDATA of this type.
pub(crate) fn digest_reason(rtype: u16, number: u64, digest: &[u8]) -> Option<ValueReason>
    ensures { result ≡ digest_reason rtype number (length digest.now) }
{
    let Some(size) = digest_size(rtype, number) else {
        return short_reason(rtype, digest);
    };
    if digest.len() == size {
        return None;
    }
    Some(ValueReason::DigestSize(size))
}
