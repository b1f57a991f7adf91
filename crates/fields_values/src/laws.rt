//! Theorems on values and their errors. Each contract is a theorem.
ghost use Rattle.std.specs.Prelude.{◌≡◌, ◌↔◌, IsTrue};
ghost use Rattle.fields_values.specs.Laws.{ReadValuesAreTaken, ValuesAreMade, ValuesAreOne, ValuesReadBack};

use crate::new_forms::{NewGateway, NewGatewayAndKey, NewHostIdentity, NewRelay};
use crate::new_value::NewValue;
use crate::value_error::ValueError;

/// What is read from a field is the value that it was made of.
pub fn values_read_back()
    ensures { ValuesReadBack }
{}

/// A value is at most one part in a field of a kind.
pub fn values_are_one()
    ensures { ValuesAreOne }
{}

/// What is read can be put in again: the values of the fields of RDATA, as `NewValue`s, have the parts
/// of the RDATA. So `from_values` makes the same RDATA of them, unless an allocation fails.
pub fn read_values_are_taken()
    ensures { ReadValuesAreTaken }
{}

/// Values that have parts, of at most 65,535 octets, make the record data with these parts.
pub fn values_are_made()
    ensures { ValuesAreMade }
{}

/// Two errors are equal if and only if they are the same.
pub fn error_equality()
    ensures { (a b : _) → IsTrue (⟦<ValueError as PartialEq>⟧.eq a b) ↔ (a ≡ b) }
{}

/// A clone of a value or of an error is the same.
pub fn value_clones()
    ensures value { (a b : _) → ⟦<NewValue<'static> as Clone>⟧.is_clone a b → b ≡ a }
    ensures error { (a b : _) → ⟦<ValueError as Clone>⟧.is_clone a b → b ≡ a }
{}

/// Cloning a value or an error never fails.
pub fn value_clones_never_fail()
    ensures value { (a : _) → ⟦<NewValue<'static> as Clone>⟧.is_infallible a }
    ensures error { (a : _) → ⟦<ValueError as Clone>⟧.is_infallible a }
{}

/// A clone of a gateway, of a relay or of a host identity is the same.
pub fn form_clones()
    ensures gateway { (a b : _) → ⟦<NewGateway<'static> as Clone>⟧.is_clone a b → b ≡ a }
    ensures key { (a b : _) → ⟦<NewGatewayAndKey<'static> as Clone>⟧.is_clone a b → b ≡ a }
    ensures relay { (a b : _) → ⟦<NewRelay<'static> as Clone>⟧.is_clone a b → b ≡ a }
    ensures identity { (a b : _) → ⟦<NewHostIdentity<'static> as Clone>⟧.is_clone a b → b ≡ a }
{}

/// Cloning a gateway, a relay or a host identity never fails.
pub fn form_clones_never_fail()
    ensures gateway { (a : _) → ⟦<NewGateway<'static> as Clone>⟧.is_infallible a }
    ensures key { (a : _) → ⟦<NewGatewayAndKey<'static> as Clone>⟧.is_infallible a }
    ensures relay { (a : _) → ⟦<NewRelay<'static> as Clone>⟧.is_infallible a }
    ensures identity { (a : _) → ⟦<NewHostIdentity<'static> as Clone>⟧.is_infallible a }
{}
