//! Theorems on how rows compare and clone. The functions do nothing: each contract is a theorem over
//! all rows and their parts.
ghost use Rattle.std.specs.Prelude.{◌≡◌, ◌↔◌, IsTrue};
ghost use Rattle.dnsview_rows.specs.RowEquality.{SameField, SameName, SameFault, SameKind, SameRow};

use crate::row::{NameOf, Part, Row, RowFault, RowField, RowKind};

/// Two rows, or two parts of rows, are equal if and only if they are the same. The name of a field
/// of RDATA counts by its text, wherever that text is.
pub fn row_equality()
    ensures part { (a b : _) → IsTrue (⟦<Part as PartialEq>⟧.eq a b) ↔ (a ≡ b) }
    ensures name { (a b : _) → IsTrue (⟦<NameOf as PartialEq>⟧.eq a b) ↔ SameName a b }
    ensures field { (a b : _) → IsTrue (⟦<RowField as PartialEq>⟧.eq a b) ↔ SameField a b }
    ensures fault { (a b : _) → IsTrue (⟦<RowFault as PartialEq>⟧.eq a b) ↔ SameFault a b }
    ensures kind { (a b : _) → IsTrue (⟦<RowKind as PartialEq>⟧.eq a b) ↔ SameKind a b }
    ensures row { (a b : _) → IsTrue (⟦<Row as PartialEq>⟧.eq a b) ↔ SameRow a b }
{}

/// A clone is the same value.
pub fn row_clones()
    ensures part { (a b : _) → ⟦<Part as Clone>⟧.is_clone a b → b ≡ a }
    ensures name { (a b : _) → ⟦<NameOf as Clone>⟧.is_clone a b → b ≡ a }
    ensures field { (a b : _) → ⟦<RowField as Clone>⟧.is_clone a b → b ≡ a }
    ensures fault { (a b : _) → ⟦<RowFault as Clone>⟧.is_clone a b → b ≡ a }
    ensures kind { (a b : _) → ⟦<RowKind as Clone>⟧.is_clone a b → b ≡ a }
    ensures row { (a b : _) → ⟦<Row as Clone>⟧.is_clone a b → b ≡ a }
{}

/// A clone never fails.
pub fn row_clones_never_fail()
    ensures part { (a : _) → ⟦<Part as Clone>⟧.is_infallible a }
    ensures name { (a : _) → ⟦<NameOf as Clone>⟧.is_infallible a }
    ensures field { (a : _) → ⟦<RowField as Clone>⟧.is_infallible a }
    ensures fault { (a : _) → ⟦<RowFault as Clone>⟧.is_infallible a }
    ensures kind { (a : _) → ⟦<RowKind as Clone>⟧.is_infallible a }
    ensures row { (a : _) → ⟦<Row as Clone>⟧.is_infallible a }
{}
