//! Theorems on names in octets and as texts, and on how the values of this crate compare and clone.
//! The functions do nothing, or return a constant: each contract is a theorem over all octets and
//! offsets, texts or values.
ghost use Rattle.std.specs.Prelude.{◌≡◌, ◌+◌, ◌≤◌, ◌↔◌, ℕ, List, length, IsTrue};
ghost use Rattle.dns_name.specs.Names.{IsLabel, max_size, pointer_end};
ghost use Rattle.dns_name.specs.Laws.{NameOrFault, NameOrFaultNotBoth, OneName, OneFault, EncodedNamesAreNames};
ghost use Rattle.dns_name.specs.Laws.{EndOrSkipFault, EndOrSkipFaultNotBoth, OneEnd, EncodedNamesEnd, SkipFaultsAreFaults, SkippingEndsAlike, SkippingFailsAlike};
ghost use Rattle.dns_name.specs.Laws.{NameOrderIsTotal, ComposedOrderIsTotal, NameOrderAgrees, ComposedOrderAgrees, EqualNamesHashAlike};
ghost use Rattle.dns_name.specs.NameTexts.{DottedNamesSpell, OneTextFault, OneTextName, PrintedNamesSpell, TextNameOrFault, TextNameOrFaultNotBoth};

use crate::cached_name::CachedName;
use crate::head::Head;
use crate::label::Label;
use crate::label_iter::LabelIter;
use crate::name::Name;
use crate::name_error::{FromStrError, PresentationError};
use crate::name_print::DisplayWithDot;
use crate::parsed_name::ParsedName;
use crate::parser::Parser;
use crate::suffix_iter::SuffixIter;

/// At each offset either exactly one name is encoded, or reading fails with exactly one fault,
/// never both.
pub fn one_name_or_fault()
    ensures some { NameOrFault }
    ensures not_both { NameOrFaultNotBoth }
    ensures one_name { OneName }
    ensures one_fault { OneFault }
{}

/// The constants are the limits that the definitions of labels, names and pointers have (RFC 1035
/// sections 2.3.4 and 4.1.4). Returns `Name::MAX_LEN`.
pub fn name_limits() -> usize
    ensures label { (label : List ℕ) → 1 ≤ length label
        → IsLabel label ↔ (length label ≤ Label.MAX_LEN) }
    ensures size { Head.MAX_SIZE ≡ max_size }
    ensures name { result ≡ max_size + 1 }
    ensures pointer { Head.POINTER_END ≡ pointer_end }
{
    Name::MAX_LEN
}

/// An encoded name has labels of 1 to 63 octets, and at most 255 octets in all.
pub fn encoded_names()
    ensures { EncodedNamesAreNames }
{}

/// At each offset either the encoding of a name has exactly one end, or skipping fails with exactly
/// one fault, never both.
pub fn one_end_or_fault()
    ensures some { EndOrSkipFault }
    ensures not_both { EndOrSkipFaultNotBoth }
    ensures one_end { OneEnd }
{}

/// If a name parses, skipping it ends at the same offset. If skipping fails, parsing fails with the
/// same fault.
pub fn skipping_agrees()
    ensures names_end { EncodedNamesEnd }
    ensures faults { SkipFaultsAreFaults }
    ensures ends_alike { SkippingEndsAlike }
    ensures fails_alike { SkippingFailsAlike }
{}

/// Both orders of names are total and agree with equality ignoring ASCII case. Equal names hash
/// alike.
pub fn name_orders()
    ensures name_order { NameOrderIsTotal }
    ensures composed_order { ComposedOrderIsTotal }
    ensures name_order_agrees { NameOrderAgrees }
    ensures composed_order_agrees { ComposedOrderAgrees }
    ensures hash { EqualNamesHashAlike }
{}

/// A text represents one name or has one leftmost fault, never both. A printed name, except the
/// root, represents that name; with a final dot, each does.
pub fn names_as_texts()
    ensures some { TextNameOrFault }
    ensures not_both { TextNameOrFaultNotBoth }
    ensures one_name { OneTextName }
    ensures one_fault { OneTextFault }
    ensures printed { PrintedNamesSpell }
    ensures dotted { DottedNamesSpell }
{}

/// Two values are equal if and only if they are the same.
pub fn value_equality()
    ensures head { (a b : _) → IsTrue (⟦<Head as PartialEq>⟧.eq a b) ↔ (a ≡ b) }
    ensures text { (a b : _) → IsTrue (⟦<PresentationError as PartialEq>⟧.eq a b) ↔ (a ≡ b) }
    ensures error { (a b : _) → IsTrue (⟦<FromStrError as PartialEq>⟧.eq a b) ↔ (a ≡ b) }
{}

/// A clone is the same value. So a clone of an iterator yields the same items, and a clone of a
/// parser reads at the same offset.
pub fn value_clones()
    ensures parser { (a b : _) → ⟦<Parser<'static> as Clone>⟧.is_clone a b → b ≡ a }
    ensures name { (a b : _) → ⟦<ParsedName<'static> as Clone>⟧.is_clone a b → b ≡ a }
    ensures label { (a b : _) → ⟦<Label<'static> as Clone>⟧.is_clone a b → b ≡ a }
    ensures labels { (a b : _) → ⟦<LabelIter<'static> as Clone>⟧.is_clone a b → b ≡ a }
    ensures suffixes { (a b : _) → ⟦<SuffixIter<'static> as Clone>⟧.is_clone a b → b ≡ a }
    ensures cached { (a b : _) → ⟦<CachedName as Clone>⟧.is_clone a b → b ≡ a }
    ensures dotted { (a b : _) → ⟦<DisplayWithDot<'static> as Clone>⟧.is_clone a b → b ≡ a }
    ensures head { (a b : _) → ⟦<Head as Clone>⟧.is_clone a b → b ≡ a }
    ensures text { (a b : _) → ⟦<PresentationError as Clone>⟧.is_clone a b → b ≡ a }
    ensures error { (a b : _) → ⟦<FromStrError as Clone>⟧.is_clone a b → b ≡ a }
{}

/// Cloning these values never fails.
pub fn value_clones_never_fail()
    ensures parser { (a : _) → ⟦<Parser<'static> as Clone>⟧.is_infallible a }
    ensures name { (a : _) → ⟦<ParsedName<'static> as Clone>⟧.is_infallible a }
    ensures label { (a : _) → ⟦<Label<'static> as Clone>⟧.is_infallible a }
    ensures labels { (a : _) → ⟦<LabelIter<'static> as Clone>⟧.is_infallible a }
    ensures suffixes { (a : _) → ⟦<SuffixIter<'static> as Clone>⟧.is_infallible a }
    ensures cached { (a : _) → ⟦<CachedName as Clone>⟧.is_infallible a }
    ensures dotted { (a : _) → ⟦<DisplayWithDot<'static> as Clone>⟧.is_infallible a }
    ensures head { (a : _) → ⟦<Head as Clone>⟧.is_infallible a }
    ensures text { (a : _) → ⟦<PresentationError as Clone>⟧.is_infallible a }
    ensures error { (a : _) → ⟦<FromStrError as Clone>⟧.is_infallible a }
{}
