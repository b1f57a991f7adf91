//! Theorems on the constants of a TTL and on how TTLs compare. Each contract is a theorem.
ghost use Rattle.std.specs.Prelude.{◌≡◌, ◌↔◌, ◌∷◌, [], IsTrue, Some};
ghost use Rattle.std.specs.Hash as fed;
ghost use Rattle.std.specs.Ordering.{nat_cmp};

use crate::ttl::Ttl;
use std::hash::Hash;

/// The seconds of `SECOND`, `MINUTE`, `HOUR` and `DAY`, then of `ZERO`, `MAX` and `CAP` (RFC 2181
/// section 8, RFC 8767 section 4).
pub fn ttl_units() -> ([u32; 4], [u32; 3])
    ensures units { result.0 ≡ 1 ∷ 60 ∷ 3600 ∷ 86400 ∷ [] }
    ensures bounds { result.1 ≡ 0 ∷ 4294967295 ∷ 604800 ∷ [] }
{
    let units = [
        Ttl::SECOND.as_secs(),
        Ttl::MINUTE.as_secs(),
        Ttl::HOUR.as_secs(),
        Ttl::DAY.as_secs(),
    ];
    let bounds = [Ttl::ZERO.as_secs(), Ttl::MAX.as_secs(), Ttl::CAP.as_secs()];
    (units, bounds)
}

/// Two TTLs are equal if and only if their seconds are.
pub fn ttl_equality()
    ensures { (a b : _) → IsTrue (⟦<Ttl as PartialEq>⟧.eq a b) ↔ (a ≡ b) }
{}

/// TTLs are ordered by their seconds.
pub fn ttl_order()
    ensures total { ⟦<Ttl as Ord>⟧.cmp ≡ nat_cmp }
    ensures partial { (a b : _) → ⟦<Ttl as PartialOrd>⟧.partial_cmp a b ≡ Some (nat_cmp a b) }
{}

/// Hashing feeds the hasher the seconds, and nothing else.
pub fn ttl_hash()
    ensures { ⟦<Ttl as Hash>⟧.hash_input ≡ fed.u32 }
{}

/// A clone is the same TTL, and cloning never fails.
pub fn ttl_clone()
    ensures same { (a b : _) → ⟦<Ttl as Clone>⟧.is_clone a b → b ≡ a }
    ensures always { (a : _) → ⟦<Ttl as Clone>⟧.is_infallible a }
{}

/// The default is zero seconds.
pub fn ttl_default()
    ensures { (ttl : _) → ⟦<Ttl as Default>⟧.is_default ttl → ttl ≡ 0 }
{}
