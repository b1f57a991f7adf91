//! Theorems on how the errors of octets compare and clone. The functions do nothing: each contract
//! is a theorem over all errors.
ghost use Rattle.std.specs.Prelude.{◌≡◌, ◌↔◌, IsTrue};

use crate::error::{AppendError, FormError, ParseError, ShortBuf};

/// Two errors are equal if and only if they are the same.
pub fn error_equality()
    ensures form { (a b : _) → IsTrue (⟦<FormError as PartialEq>⟧.eq a b) ↔ (a ≡ b) }
    ensures parse { (a b : _) → IsTrue (⟦<ParseError as PartialEq>⟧.eq a b) ↔ (a ≡ b) }
    ensures short_buf { (a b : _) → IsTrue (⟦<ShortBuf as PartialEq>⟧.eq a b) ↔ (a ≡ b) }
    ensures append { (a b : _) → IsTrue (⟦<AppendError as PartialEq>⟧.eq a b) ↔ (a ≡ b) }
{}

/// A clone of an error is the same error.
pub fn error_clones()
    ensures form { (a b : _) → ⟦<FormError as Clone>⟧.is_clone a b → b ≡ a }
    ensures parse { (a b : _) → ⟦<ParseError as Clone>⟧.is_clone a b → b ≡ a }
    ensures short_buf { (a b : _) → ⟦<ShortBuf as Clone>⟧.is_clone a b → b ≡ a }
    ensures append { (a b : _) → ⟦<AppendError as Clone>⟧.is_clone a b → b ≡ a }
{}

/// Cloning an error never fails.
pub fn error_clones_never_fail()
    ensures form { (a : _) → ⟦<FormError as Clone>⟧.is_infallible a }
    ensures parse { (a : _) → ⟦<ParseError as Clone>⟧.is_infallible a }
    ensures short_buf { (a : _) → ⟦<ShortBuf as Clone>⟧.is_infallible a }
    ensures append { (a : _) → ⟦<AppendError as Clone>⟧.is_infallible a }
{}
