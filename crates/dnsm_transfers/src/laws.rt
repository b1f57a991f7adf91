//! How transfers and steps clone. The function does nothing: its contract is a theorem over all
//! values.
ghost use Rattle.std.specs.Prelude.{◌≡◌};

use crate::step::Step;
use crate::transfer::Transfer;

/// A clone is the same value, and cloning never fails.
pub fn transfer_clones()
    ensures transfer { (a b : _) → ⟦<Transfer as Clone>⟧.is_clone a b → b ≡ a }
    ensures step { (a b : _) → ⟦<Step as Clone>⟧.is_clone a b → b ≡ a }
    ensures infallible_transfer { (a : _) → ⟦<Transfer as Clone>⟧.is_infallible a }
    ensures infallible_step { (a : _) → ⟦<Step as Clone>⟧.is_infallible a }
{}
