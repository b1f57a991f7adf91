//! Theorems on headers, on flags and on the texts of numbers. The functions do nothing: each
//! contract is a theorem over all octets, flags, numbers or texts.
ghost use Rattle.std.specs.Prelude.{◌≡◌, ◌↔◌, IsTrue, replicate};
ghost use Rattle.dns_code.specs.Flags.{flags_hash_input, no_flags};
ghost use Rattle.dns_code.specs.Header.{header_octets};
ghost use Rattle.dns_code.specs.HeaderCounts.{counts_octets};
ghost use Rattle.dns_code.specs.HeaderSection.{header_size, section_octets};
ghost use Rattle.dns_code.specs.Laws.{OctetsHaveFields, OctetsAreOfFields, FieldsAreAllBits, CountsAreAllOctets, SectionIsHeaderAndCounts, FlagsReadBack, FlagsTexts};

use crate::counts::HeaderCounts;
use crate::flags::Flags;
use crate::header::Header;
use crate::section::HeaderSection;
pub use dns_iana::laws::{
    class_constants, code_numbers, named_classes, named_types, number_clones,
    number_clones_never_fail, number_equality, number_hashes, number_orders, number_partial_orders,
    opcode_constants, opt_rcode_constants, option_constants, printed_numbers_read_back,
    rcode_constants, registered_names_differ, registered_numbers, type_constants,
};
use std::hash::Hash;

/// The fields of a header and its octets determine each other: fields that fit have the octets
/// `octets_of_fields`, and each four octets are those of their fields. So headers with equal fields
/// have equal octets, and so have counts. A header section is the octets of the header followed by
/// those of the counts.
pub fn octets_of_fields()
    ensures fields { OctetsHaveFields }
    ensures octets { OctetsAreOfFields }
    ensures header { FieldsAreAllBits }
    ensures counts { CountsAreAllOctets }
    ensures section { SectionIsHeaderAndCounts }
{}

/// The constant is the length that the definition of a header section has.
pub fn header_section_length()
    ensures { HeaderSection.LEN ≡ header_size }
{}

/// Says which flags a text denotes, if any. The printed text of flags denotes those flags.
pub fn texts_of_flags()
    ensures texts { FlagsTexts }
    ensures read_back { FlagsReadBack }
{}

/// Two values are equal if and only if their octets, or flags, are.
pub fn header_equality()
    ensures header { (a b : _) → IsTrue (⟦<Header as PartialEq>⟧.eq a b) ↔ (a ≡ b) }
    ensures counts { (a b : _) → IsTrue (⟦<HeaderCounts as PartialEq>⟧.eq a b) ↔ (a ≡ b) }
    ensures section { (a b : _) → IsTrue (⟦<HeaderSection as PartialEq>⟧.eq a b) ↔ (a ≡ b) }
    ensures flags { (a b : _) → IsTrue (⟦<Flags as PartialEq>⟧.eq a b) ↔ (a ≡ b) }
{}

/// A clone is the same value.
pub fn header_clones()
    ensures header { (a b : _) → ⟦<Header as Clone>⟧.is_clone a b → b ≡ a }
    ensures counts { (a b : _) → ⟦<HeaderCounts as Clone>⟧.is_clone a b → b ≡ a }
    ensures section { (a b : _) → ⟦<HeaderSection as Clone>⟧.is_clone a b → b ≡ a }
    ensures flags { (a b : _) → ⟦<Flags as Clone>⟧.is_clone a b → b ≡ a }
{}

/// A clone never fails.
pub fn header_clones_never_fail()
    ensures header { (a : _) → ⟦<Header as Clone>⟧.is_infallible a }
    ensures counts { (a : _) → ⟦<HeaderCounts as Clone>⟧.is_infallible a }
    ensures section { (a : _) → ⟦<HeaderSection as Clone>⟧.is_infallible a }
    ensures flags { (a : _) → ⟦<Flags as Clone>⟧.is_infallible a }
{}

/// By default all octets are 0, and no flag is set.
pub fn header_defaults()
    ensures header { (header : _) → ⟦<Header as Default>⟧.is_default header →
        header_octets header ≡ replicate 4 0 }
    ensures counts { (counts : _) → ⟦<HeaderCounts as Default>⟧.is_default counts →
        counts_octets counts ≡ replicate 8 0 }
    ensures section { (section : _) → ⟦<HeaderSection as Default>⟧.is_default section →
        section_octets section ≡ replicate header_size 0 }
    ensures flags { (flags : _) → ⟦<Flags as Default>⟧.is_default flags → flags ≡ no_flags }
{}

/// Hashing flags feeds the hasher each of them, in the order of the fields.
pub fn flags_hash()
    ensures { ⟦<Flags as Hash>⟧.hash_input ≡ flags_hash_input }
{}
