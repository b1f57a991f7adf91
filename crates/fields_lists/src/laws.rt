//! Theorems on lists of values and their words, and on how items compare and clone. Each contract is a
//! theorem.
ghost use Rattle.std.specs.Prelude.{◌≡◌};
ghost use Rattle.fields_lists.specs.PrefixWords.{ArePrefixWords};
ghost use Rattle.fields_lists.specs.TypeMapWords.{IsSmallTypeMap, IsTypeMap};
ghost use Rattle.fields_lists.specs.Laws.{PrefixFieldsReadBack, PrefixesAreWords, PrefixesReadBack, PrefixesSplit, SmallTypeMapsReadBack, StringsSplit, TypeMapsReadBack, TypesSplit};
ghost use Rattle.fields_text.specs.Laws.{RepresentsOne};
ghost use Rattle.fields_lists.specs.ItemEquality.{prefixes_equal};

use crate::prefix::PrefixText;
use crate::prefixes::{AddressPrefix, AddressPrefixes};
use crate::strings::Strings;
use crate::type_map::{SmallTypeMap, TypeMap};
use crate::types::Types;

/// What is printed of a list represents that list.
pub fn printed_lists_read_back()
    ensures prefixes { PrefixesReadBack }
    ensures prefix_fields { PrefixFieldsReadBack }
    ensures type_maps { TypeMapsReadBack }
    ensures small_type_maps { SmallTypeMapsReadBack }
{}

/// What is printed of a list is these words, and of a prefix is one.
pub fn printed_lists_are_words()
    ensures strings { StringsSplit }
    ensures types { TypesSplit }
    ensures prefixes { PrefixesSplit }
    ensures prefix { PrefixesAreWords }
{}

/// Words represent at most one list.
pub fn words_represent_one()
    ensures prefixes { RepresentsOne ArePrefixWords }
    ensures type_maps { RepresentsOne IsTypeMap }
    ensures small_type_maps { RepresentsOne IsSmallTypeMap }
{}

/// Two prefixes are equal if and only if they are the same, octets by what they are and not by where.
pub fn item_equality()
    ensures prefix { ⟦<AddressPrefix<'static> as PartialEq>⟧.eq ≡ prefixes_equal }
{}

/// A clone is the same value. So a clone of an iterator yields the same items.
pub fn item_clones()
    ensures strings { (a b : _) → ⟦<Strings<'static> as Clone>⟧.is_clone a b → b ≡ a }
    ensures types { (a b : _) → ⟦<Types<'static> as Clone>⟧.is_clone a b → b ≡ a }
    ensures prefixes { (a b : _) → ⟦<AddressPrefixes<'static> as Clone>⟧.is_clone a b → b ≡ a }
    ensures prefix { (a b : _) → ⟦<AddressPrefix<'static> as Clone>⟧.is_clone a b → b ≡ a }
    ensures prefix_text { (a b : _) → ⟦<PrefixText<'static> as Clone>⟧.is_clone a b → b ≡ a }
    ensures map { (a b : _) → ⟦<TypeMap<'static> as Clone>⟧.is_clone a b → b ≡ a }
    ensures small_map { (a b : _) → ⟦<SmallTypeMap<'static> as Clone>⟧.is_clone a b → b ≡ a }
{}

/// A clone never fails.
pub fn item_clones_never_fail()
    ensures strings { (a : _) → ⟦<Strings<'static> as Clone>⟧.is_infallible a }
    ensures types { (a : _) → ⟦<Types<'static> as Clone>⟧.is_infallible a }
    ensures prefixes { (a : _) → ⟦<AddressPrefixes<'static> as Clone>⟧.is_infallible a }
    ensures prefix { (a : _) → ⟦<AddressPrefix<'static> as Clone>⟧.is_infallible a }
    ensures prefix_text { (a : _) → ⟦<PrefixText<'static> as Clone>⟧.is_infallible a }
    ensures map { (a : _) → ⟦<TypeMap<'static> as Clone>⟧.is_infallible a }
    ensures small_map { (a : _) → ⟦<SmallTypeMap<'static> as Clone>⟧.is_infallible a }
{}
