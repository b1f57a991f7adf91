//! How items clone. The function does nothing: its contract is a theorem over all values.
ghost use Rattle.std.specs.Prelude.{◌≡◌};

use crate::build::NewItem;

/// A clone is the same item, and cloning never fails.
pub fn item_clones()
    ensures same { (a b : _) → ⟦<NewItem<'static> as Clone>⟧.is_clone a b → b ≡ a }
    ensures infallible { (a : _) → ⟦<NewItem<'static> as Clone>⟧.is_infallible a }
{}
