//! Theorems on the record types, and on how their kinds compare and their fields clone. Each contract
//! is a theorem.
ghost use Rattle.std.specs.Prelude.{◌≡◌, ◌↔◌, IsTrue, Some, [], ◌∷◌, ◌++◌, map, true};
ghost use Rattle.std.specs.List.{list_all, range_with_len};
ghost use Rattle.dns_iana.specs.Mnemonics.{mnemonic};
ghost use Rattle.dns_iana.specs.Registry.{registered_types};
ghost use Rattle.fields_table.specs.Layouts.{rest_is_last};
ghost use Rattle.fields_table.specs.MadeData.{MadePartsReadBack};
ghost use Rattle.fields_table.specs.NamesOfTypes.{types_with, may_be_compressed, may_have_pointer, is_lowercased};
ghost use Rattle.fields_table.specs.Ranges.{table_types};
ghost use Rattle.fields_table.specs.RecordTypes.{record_types};
ghost use Rattle.fields_table.specs.Table.{kinds_in};

use crate::encoded::Encoded;
use crate::field_data::FieldData;
use crate::fields::{Field, Fields};
use crate::kind::Kind;
use crate::rows::RecordTypes;
use crate::shape::Shape;
use crate::value::Value;

/// The table has the record types of `specs/RecordTypes.antt`: their numbers, mnemonics and fields.
#[tactic(auto, unfolding(crate::specs::Ranges::range_types, crate::specs::RecordTypes::record_types))]
pub fn table_is_specified()
    ensures { table_types ≡ record_types }
{}

/// Each mnemonic is the name that IANA has registered for the type's number, which
/// `Rtype::registered_name` returns.
#[tactic(auto, unfolding(crate::specs::RecordTypes::record_types, dns_iana::specs::Registry::registered_types))]
pub fn mnemonics_are_registered()
    ensures { map (λ type. mnemonic registered_types type.number) record_types
        ≡ map (λ type. Some type.mnemonic) record_types }
{}

/// The record types with a name that may be compressed (RFC 1035 section 3.3); those with a name
/// that may have a pointer when it is read (RFC 3597 section 4 adds eight types); and those with a
/// name that is lowercased in canonical form (RFC 4034 section 6.2, RFC 6840 section 5.1).
#[tactic(auto, unfolding(crate::specs::RecordTypes::record_types))]
pub fn names_of_types()
    ensures compressed { types_with may_be_compressed ≡
        range_with_len 2 8 ++ (12 ∷ 14 ∷ 15 ∷ []) }
    ensures pointed { types_with may_have_pointer ≡ range_with_len 2 8 ++ (12 ∷ 14 ∷ 15 ∷ [])
        ++ (17 ∷ 18 ∷ 21 ∷ 24 ∷ 26 ∷ 30 ∷ 33 ∷ 35 ∷ []) }
    ensures lowercased { types_with is_lowercased ≡ range_with_len 2 8 ++ (12 ∷ 14 ∷ 15 ∷ [])
        ++ (17 ∷ 18 ∷ 21 ∷ 24 ∷ 26 ∷ 30 ∷ 33 ∷ 35 ∷ []) ++ (36 ∷ 39 ∷ 46 ∷ []) }
{}

/// If a field of a record type takes all remaining octets, it is the type's last.
#[tactic(auto, unfolding(crate::specs::RecordTypes::record_types))]
pub fn rest_fields_are_last()
    ensures { list_all (λ type. rest_is_last (kinds_in type.fields)) record_types ≡ true }
{}

/// Parts with the layout of a type are what is read from their uncompressed octets.
pub fn made_parts_read_back()
    ensures { MadePartsReadBack }
{}

/// Two kinds or two shapes are equal if and only if they are the same.
pub fn kind_equality()
    ensures kind { (a b : _) → IsTrue (⟦<Kind as PartialEq>⟧.eq a b) ↔ (a ≡ b) }
    ensures shape { (a b : _) → IsTrue (⟦<Shape as PartialEq>⟧.eq a b) ↔ (a ≡ b) }
{}

/// A clone is the same value. So a clone of an iterator yields the same fields.
pub fn field_clones()
    ensures kind { (a b : _) → ⟦<Kind as Clone>⟧.is_clone a b → b ≡ a }
    ensures shape { (a b : _) → ⟦<Shape as Clone>⟧.is_clone a b → b ≡ a }
    ensures encoded { (a b : _) → ⟦<Encoded<'static> as Clone>⟧.is_clone a b → b ≡ a }
    ensures value { (a b : _) → ⟦<Value<'static> as Clone>⟧.is_clone a b → b ≡ a }
    ensures field { (a b : _) → ⟦<Field<'static> as Clone>⟧.is_clone a b → b ≡ a }
    ensures fields { (a b : _) → ⟦<Fields<'static> as Clone>⟧.is_clone a b → b ≡ a }
    ensures record_data { (a b : _) → ⟦<FieldData<'static> as Clone>⟧.is_clone a b → b ≡ a }
    ensures types { (a b : _) → ⟦<RecordTypes as Clone>⟧.is_clone a b → b ≡ a }
{}

/// Cloning these values never fails.
pub fn field_clones_never_fail()
    ensures kind { (a : _) → ⟦<Kind as Clone>⟧.is_infallible a }
    ensures shape { (a : _) → ⟦<Shape as Clone>⟧.is_infallible a }
    ensures encoded { (a : _) → ⟦<Encoded<'static> as Clone>⟧.is_infallible a }
    ensures value { (a : _) → ⟦<Value<'static> as Clone>⟧.is_infallible a }
    ensures field { (a : _) → ⟦<Field<'static> as Clone>⟧.is_infallible a }
    ensures fields { (a : _) → ⟦<Fields<'static> as Clone>⟧.is_infallible a }
    ensures record_data { (a : _) → ⟦<FieldData<'static> as Clone>⟧.is_infallible a }
    ensures types { (a : _) → ⟦<RecordTypes as Clone>⟧.is_infallible a }
{}
