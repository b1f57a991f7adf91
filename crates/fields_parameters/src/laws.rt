//! Theorems on service parameters and their words, and on how they compare and clone. Each contract is
//! a theorem.
ghost use Rattle.std.specs.Prelude.{◌≡◌};
ghost use Rattle.fields_parameters.specs.ParameterWords.{AreParameterWords};
ghost use Rattle.fields_parameters.specs.Laws.{ParametersReadBack, ParametersSplit};
ghost use Rattle.fields_text.specs.Laws.{RepresentsOne};
ghost use Rattle.fields_parameters.specs.ItemEquality.{parameters_equal};

use crate::parameter::ParameterText;
use crate::parameters::{Parameter, Parameters};
use fields_text::laws::printed_values_read_back;

/// What is printed of a service parameter represents that parameter.
pub fn printed_parameters_read_back()
    ensures { ParametersReadBack }
{
    printed_values_read_back();
}

/// What is printed of service parameters is these words.
pub fn printed_parameters_are_words()
    ensures { ParametersSplit }
{}

/// Words represent at most one value of a field of service parameters.
pub fn words_represent_one()
    ensures { RepresentsOne AreParameterWords }
{}

/// Two parameters are equal if and only if they are the same, octets by what they are and not by where.
pub fn item_equality()
    ensures parameter { ⟦<Parameter<'static> as PartialEq>⟧.eq ≡ parameters_equal }
{}

/// A clone is the same value. So a clone of an iterator yields the same items.
pub fn item_clones()
    ensures parameters { (a b : _) → ⟦<Parameters<'static> as Clone>⟧.is_clone a b → b ≡ a }
    ensures parameter { (a b : _) → ⟦<Parameter<'static> as Clone>⟧.is_clone a b → b ≡ a }
    ensures parameter_text { (a b : _) → ⟦<ParameterText<'static> as Clone>⟧.is_clone a b → b ≡ a }
{}

/// A clone never fails.
pub fn item_clones_never_fail()
    ensures parameters { (a : _) → ⟦<Parameters<'static> as Clone>⟧.is_infallible a }
    ensures parameter { (a : _) → ⟦<Parameter<'static> as Clone>⟧.is_infallible a }
    ensures parameter_text { (a : _) → ⟦<ParameterText<'static> as Clone>⟧.is_infallible a }
{}
