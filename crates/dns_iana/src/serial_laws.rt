//! Theorems on sums and comparisons of serials. Each contract is a theorem.
ghost use Rattle.std.specs.Prelude.{◌≡◌, ◌↔◌, IsTrue};
ghost use Rattle.std.specs.Hash as fed;
ghost use Rattle.dns_iana.specs.SerialLaws.{SumsAreGreater, NoGreaterAddend, GreaterIsLessExchanged, OneIsLess, HalvesAreApart, LessIsntTransitive};

use crate::serial::Serial;
use std::hash::Hash;

/// A sum is greater than the serial that was added to, unless the addend is 0. `MAX_ADDEND` is the
/// greatest addend of which this is true.
pub fn sums_are_greater()
    ensures greater { SumsAreGreater }
    ensures most { NoGreaterAddend }
{}

/// What the relation has in common with an order: of two serials one is less, or they are equal, or
/// 2^31 apart, and only one of these.
pub fn serials_are_comparable()
    ensures exchanged { GreaterIsLessExchanged }
    ensures one { OneIsLess }
    ensures halves { HalvesAreApart }
{}

/// A serial can be less than a second, this less than a third, and the first not less than the third.
pub fn less_is_not_transitive()
    ensures { LessIsntTransitive }
{}

/// Two serials are equal if and only if their numbers are.
pub fn serial_equality()
    ensures { (a b : _) → IsTrue (⟦<Serial as PartialEq>⟧.eq a b) ↔ (a ≡ b) }
{}

/// Hashing feeds the hasher the number, and nothing else.
pub fn serial_hash()
    ensures { ⟦<Serial as Hash>⟧.hash_input ≡ fed.u32 }
{}

/// A clone is the same serial, and cloning never fails.
pub fn serial_clone()
    ensures same { (a b : _) → ⟦<Serial as Clone>⟧.is_clone a b → b ≡ a }
    ensures always { (a : _) → ⟦<Serial as Clone>⟧.is_infallible a }
{}
