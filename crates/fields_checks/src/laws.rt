//! Theorems on errors. Each contract is a theorem.
ghost use Rattle.std.specs.Prelude.{◌≡◌, ◌↔◌, IsTrue};

use crate::check_error::{CheckError, ValueReason};

/// Two errors, or two reasons, are equal if and only if they are the same.
pub fn error_equality()
    ensures error { (a b : _) → IsTrue (⟦<CheckError as PartialEq>⟧.eq a b) ↔ (a ≡ b) }
    ensures reason { (a b : _) → IsTrue (⟦<ValueReason as PartialEq>⟧.eq a b) ↔ (a ≡ b) }
{}

/// A clone of an error or of a reason is the same.
pub fn error_clones()
    ensures error { (a b : _) → ⟦<CheckError as Clone>⟧.is_clone a b → b ≡ a }
    ensures reason { (a b : _) → ⟦<ValueReason as Clone>⟧.is_clone a b → b ≡ a }
{}

/// Cloning an error or a reason never fails.
pub fn error_clones_never_fail()
    ensures error { (a : _) → ⟦<CheckError as Clone>⟧.is_infallible a }
    ensures reason { (a : _) → ⟦<ValueReason as Clone>⟧.is_infallible a }
{}
