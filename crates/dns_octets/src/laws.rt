//! A theorem on the errors of reading octets. The function does nothing: its contract is the
//! theorem.
ghost use Rattle.std.specs.Prelude.{◌≢◌, AllPairs, Contains};
ghost use Rattle.dns_octets.specs.Causes.{causes};

use crate::error::FormError;

/// The six constants of `FormError` differ from each other, and each value of it is one of them.
pub fn causes_differ()
    ensures differ { AllPairs (λ x y. x ≢ y) causes }
    ensures all { (cause : FormError) → Contains causes cause }
{}
