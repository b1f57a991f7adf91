//! How faults compare, and how they clone. The functions do nothing: the contract of each is a
//! theorem over all values.
ghost use Rattle.std.specs.Prelude.{◌≡◌, ◌↔◌, IsTrue};

use crate::code::CallError;

/// Two faults are equal if and only if they are the same.
pub fn fault_equality()
    ensures { (a b : _) → IsTrue (⟦<CallError as PartialEq>⟧.eq a b) ↔ (a ≡ b) }
{}

/// A clone is the same fault, and cloning never fails.
pub fn fault_clones()
    ensures same { (a b : _) → ⟦<CallError as Clone>⟧.is_clone a b → b ≡ a }
    ensures infallible { (a : _) → ⟦<CallError as Clone>⟧.is_infallible a }
{}
