//! Theorems on plain values and their words, and on how they compare and clone. Each contract is a theorem.
ghost use Rattle.std.specs.Prelude.{ℕ, ◌≡◌, IsTrue, ◌↔◌};
ghost use Rattle.std.specs.Net.Grammar.{IsDotted};
ghost use Rattle.fields_plain.specs.Laws.{ClassesAreWords, EuiAreWords, EuiReadsBack, HashesAreWords, HashesReadBack, Ipv4IsWord, Ipv4ReadsBack, Ipv6IsWord, Ipv6ReadsBack, LocatorsAreWords, LocatorsReadBack, NamesAreWords, NamesReadBack, SaltsAreWords, SaltsReadBack, SizedReadBack, SizedSplit, TimesAreWords, TimesReadBack, TypesAreWords, TypesReadBack};
ghost use Rattle.fields_plain.specs.EuiWords.{IsEuiWord};
ghost use Rattle.fields_plain.specs.Salts.{IsHashWord, IsSaltWord};
ghost use Rattle.fields_plain.specs.Addresses.{IsIpv6Word};
ghost use Rattle.fields_plain.specs.LocatorWords.{IsLocatorWord};
ghost use Rattle.fields_plain.specs.NameWords.{IsNameWord};
ghost use Rattle.fields_plain.specs.SizedWords.{IsSizedWords};
ghost use Rattle.fields_plain.specs.TimeWords.{IsTimeWord};
ghost use Rattle.fields_plain.specs.TypeWords.{IsTypeWord};
ghost use Rattle.fields_text.specs.Laws.{RepresentsOne};

use crate::class_name::ClassName;
use crate::eui::Eui;
use crate::locator::Locator64;
use crate::time::Timestamp;
use crate::type_name::TypeName;
use crate::zone_name::ZoneName;
use fields_text::laws::printed_values_read_back;

/// What is printed of a plain value represents that value.
pub fn printed_plain_values_read_back()
    ensures types { TypesReadBack }
    ensures ipv4 { Ipv4ReadsBack }
    ensures ipv6 { Ipv6ReadsBack }
    ensures names { NamesReadBack }
    ensures salts { SaltsReadBack }
    ensures hashes { HashesReadBack }
    ensures eui { EuiReadsBack }
    ensures locators { LocatorsReadBack }
    ensures times { TimesReadBack }
    ensures sized { SizedReadBack }
{
    printed_values_read_back();
}

/// What is printed of a plain value is one word, and of sized octets one or two.
pub fn printed_plain_values_are_words()
    ensures types { TypesAreWords }
    ensures classes { ClassesAreWords }
    ensures times { TimesAreWords }
    ensures names { NamesAreWords }
    ensures salts { SaltsAreWords }
    ensures ipv4 { Ipv4IsWord }
    ensures ipv6 { Ipv6IsWord }
    ensures locators { LocatorsAreWords }
    ensures eui { EuiAreWords }
    ensures hashes { HashesAreWords }
    ensures sized { SizedSplit }
{}

/// Words represent at most one plain value.
pub fn words_represent_one()
    ensures types { RepresentsOne IsTypeWord }
    ensures times { RepresentsOne IsTimeWord }
    ensures ipv4 { RepresentsOne IsDotted }
    ensures ipv6 { RepresentsOne IsIpv6Word }
    ensures eui { (size : ℕ) → RepresentsOne (IsEuiWord size) }
    ensures locators { RepresentsOne IsLocatorWord }
    ensures names { RepresentsOne IsNameWord }
    ensures salts { RepresentsOne IsSaltWord }
    ensures hashes { RepresentsOne IsHashWord }
    ensures sized { RepresentsOne IsSizedWords }
{}

/// Two times are equal if and only if their seconds are, and two types or classes if and only if they
/// are the same.
pub fn value_equality()
    ensures times { (a b : _) → IsTrue (⟦<Timestamp as PartialEq>⟧.eq a b) ↔ (a ≡ b) }
    ensures name { (a b : _) → IsTrue (⟦<TypeName as PartialEq>⟧.eq a b) ↔ (a ≡ b) }
    ensures class { (a b : _) → IsTrue (⟦<ClassName as PartialEq>⟧.eq a b) ↔ (a ≡ b) }
{}

/// A clone is the same value.
pub fn value_clones()
    ensures times { (a b : _) → ⟦<Timestamp as Clone>⟧.is_clone a b → b ≡ a }
    ensures addresses { (a b : _) → ⟦<Eui<'static> as Clone>⟧.is_clone a b → b ≡ a }
    ensures locators { (a b : _) → ⟦<Locator64 as Clone>⟧.is_clone a b → b ≡ a }
    ensures name { (a b : _) → ⟦<TypeName as Clone>⟧.is_clone a b → b ≡ a }
    ensures class { (a b : _) → ⟦<ClassName as Clone>⟧.is_clone a b → b ≡ a }
    ensures zone_name { (a b : _) → ⟦<ZoneName<'static> as Clone>⟧.is_clone a b → b ≡ a }
{}

/// A clone never fails.
pub fn value_clones_never_fail()
    ensures times { (a : _) → ⟦<Timestamp as Clone>⟧.is_infallible a }
    ensures addresses { (a : _) → ⟦<Eui<'static> as Clone>⟧.is_infallible a }
    ensures locators { (a : _) → ⟦<Locator64 as Clone>⟧.is_infallible a }
    ensures name { (a : _) → ⟦<TypeName as Clone>⟧.is_infallible a }
    ensures class { (a : _) → ⟦<ClassName as Clone>⟧.is_infallible a }
    ensures zone_name { (a : _) → ⟦<ZoneName<'static> as Clone>⟧.is_infallible a }
{}
