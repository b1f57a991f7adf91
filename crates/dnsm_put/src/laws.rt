//! Which names in RDATA are compressed, and how drafts, items and errors clone. The functions do
//! nothing: the contract of each is a theorem over all values.
ghost use Rattle.std.specs.Prelude.{◌≡◌};
ghost use Rattle.dnsm_put.specs.PutLayouts.{PutLayoutsAreFields};

use crate::draft::{Draft, PutError, PutItem};
use crate::response::ResponseError;

/// The names that `put` compresses are those among the fields of the record types in the table of
/// `fields_table` that may be compressed.
#[tactic(auto, unfolding(fields_table::specs::RecordTypes::record_types, fields_table::specs::Table::definitions_of))]
pub fn layouts_are_fields()
    ensures { PutLayoutsAreFields }
{}

/// A clone is the same value. So a clone of a draft is a mark.
pub fn draft_clones()
    ensures draft { (a b : _) → ⟦<Draft as Clone>⟧.is_clone a b → b ≡ a }
    ensures item { (a b : _) → ⟦<PutItem<'static> as Clone>⟧.is_clone a b → b ≡ a }
    ensures error { (a b : _) → ⟦<PutError as Clone>⟧.is_clone a b → b ≡ a }
    ensures reason { (a b : _) → ⟦<ResponseError as Clone>⟧.is_clone a b → b ≡ a }
{}

/// Cloning these values never fails.
pub fn draft_clones_never_fail()
    ensures draft { (a : _) → ⟦<Draft as Clone>⟧.is_infallible a }
    ensures item { (a : _) → ⟦<PutItem<'static> as Clone>⟧.is_infallible a }
    ensures error { (a : _) → ⟦<PutError as Clone>⟧.is_infallible a }
    ensures reason { (a : _) → ⟦<ResponseError as Clone>⟧.is_infallible a }
{}
