//! A hash of octets, to avoid comparing them.
ghost use Rattle.std.specs.Prelude.{◌≡◌};
ghost use Rattle.dns_target.specs.OctetHashes.{octets_hash as hash_of};

use std::hash::{FoldHasher, Hasher};

/// The hash of octets. It is fast and has a fixed seed.
#[inline(always)]
pub(crate) fn octets_hash(octets: &[u8]) -> u32
    ensures { result ≡ hash_of octets.now }
{
    let mut hasher = FoldHasher::default();
    hasher.write(octets);
    (hasher.finish() >> 32) as u32
}
