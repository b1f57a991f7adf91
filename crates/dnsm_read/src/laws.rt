//! How what C gets clones, and that names in RDATA are determined. The functions do nothing: the
//! contract of each is a theorem over all values.
ghost use Rattle.std.specs.Prelude.{◌≡◌, ℕ, List};
ghost use Rattle.dnsm_read.specs.DataNames.{IsDataName, LacksDataName};

use crate::find_opt::FoundOpt;
use crate::next_field::DataField;
use crate::opts::{Opt, OptOption};
use crate::walk::{Cursor, Header, Item};

/// A clone is the same value. So a clone of a cursor returns to its position.
pub fn value_clones()
    ensures header { (a b : _) → ⟦<Header as Clone>⟧.is_clone a b → b ≡ a }
    ensures cursor { (a b : _) → ⟦<Cursor as Clone>⟧.is_clone a b → b ≡ a }
    ensures item { (a b : _) → ⟦<Item as Clone>⟧.is_clone a b → b ≡ a }
    ensures opt { (a b : _) → ⟦<Opt as Clone>⟧.is_clone a b → b ≡ a }
    ensures option { (a b : _) → ⟦<OptOption as Clone>⟧.is_clone a b → b ≡ a }
    ensures found { (a b : _) → ⟦<FoundOpt as Clone>⟧.is_clone a b → b ≡ a }
    ensures field { (a b : _) → ⟦<DataField as Clone>⟧.is_clone a b → b ≡ a }
{}

/// Cloning these values never fails.
pub fn value_clones_never_fail()
    ensures header { (a : _) → ⟦<Header as Clone>⟧.is_infallible a }
    ensures cursor { (a : _) → ⟦<Cursor as Clone>⟧.is_infallible a }
    ensures item { (a : _) → ⟦<Item as Clone>⟧.is_infallible a }
    ensures opt { (a : _) → ⟦<Opt as Clone>⟧.is_infallible a }
    ensures option { (a : _) → ⟦<OptOption as Clone>⟧.is_infallible a }
    ensures found { (a : _) → ⟦<FoundOpt as Clone>⟧.is_infallible a }
    ensures field { (a : _) → ⟦<DataField as Clone>⟧.is_infallible a }
{}

/// At an index RDATA has one name, or there is a reason why it has none, not both.
pub fn data_names_are_one()
    ensures one { (b : List ℕ) (item : _) (index p q : ℕ) → IsDataName b item index p
        → IsDataName b item index q → p ≡ q }
    ensures not_both { (b : List ℕ) (item : _) (index p n : ℕ) → IsDataName b item index p
        → LacksDataName b item index n → ⊥ }
{}
