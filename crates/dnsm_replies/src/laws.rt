//! How sayings clone. The function does nothing: its contract is a theorem over all values.
ghost use Rattle.std.specs.Prelude.{◌≡◌};

use crate::saying::Saying;

/// A clone is the same value, and cloning never fails.
pub fn saying_clones()
    ensures same { (a b : _) → ⟦<Saying as Clone>⟧.is_clone a b → b ≡ a }
    ensures infallible { (a : _) → ⟦<Saying as Clone>⟧.is_infallible a }
{}
