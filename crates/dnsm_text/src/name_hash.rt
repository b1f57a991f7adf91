//! Hashes of names that don't depend on ASCII case (RFC 1035 section 2.3.3).
ghost use Rattle.std.specs.Prelude.{◌≡◌, IfOk, IfErr};
ghost use Rattle.dns_name.specs.Names.{Labels, NameAt};
ghost use Rattle.dns_name.specs.ParsedName.{labels};
ghost use Rattle.dnsm_status.specs.Codes.{number_of};
ghost use Rattle.dnsm_read.specs.Names.{LacksName};
ghost use Rattle.dnsm_text.specs.NameHashes.{name_hash as hash_with};

use dns_name::ParsedName;
use dnsm_read::walk::name_at;
use dnsm_status::CallError;
use std::hash::{DefaultHasher, Hasher};

/// The hash of the name at offset `place`.
///
/// It depends on the labels alone, and not on how they are encoded. Where others choose the names,
/// the seed has to be secret and random, of 16 octets: else they can choose names with the same hash.
pub fn hash_at(octets: &[u8], place: usize, seed: &[u8]) -> Result<u32, CallError>
    ensures hash { IfOk result (λ hash. (name : Labels) × NameAt octets.now place name
        × (hash ≡ hash_with seed.now name)) }
    ensures none { IfErr result (λ fault. LacksName octets.now place (number_of fault)) }
{
    let name = name_at(octets, place)?;
    Ok(hash_of(&name, seed))
}

/// The hash of a name: the upper half of SipHash-1-3 over the seed and the lowercased name.
pub fn hash_of(name: &ParsedName<'_>, seed: &[u8]) -> u32
    ensures { result ≡ hash_with seed.now (labels name.now) }
{
    let mut hasher = DefaultHasher::new();
    hasher.write(seed);
    hasher.write(name.lowercased().as_slice());
    (hasher.finish() >> 32) as u32
}
