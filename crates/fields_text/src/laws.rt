//! Theorems on words and their values, and on how they compare and clone. Each contract is a theorem.
ghost use Rattle.std.specs.Prelude.{◌≡◌, IsTrue, ◌↔◌};
ghost use Rattle.fields_text.specs.JoinedWords.{AreBase64, AreHex};
ghost use Rattle.fields_text.specs.Laws.{Base64IsWord, Base64ReadsBack, HexIsWord, HexReadsBack, NumbersAreWords, NumbersReadBack, RepresentsOne, StringsAreWords, StringsReadBack, TagsAreWords, TagsReadBack, WordsAreUnique};

use crate::base32::Base32;
use crate::hexadecimal::Hex;
use crate::string::{Quoted, Tag};
use crate::text_error::TextError;

/// What is printed of a number, of octets, of a string or of a tag represents that value.
pub fn printed_values_read_back()
    ensures numbers { NumbersReadBack }
    ensures hexadecimal { HexReadsBack }
    ensures base64 { Base64ReadsBack }
    ensures strings { StringsReadBack }
    ensures tags { TagsReadBack }
{}

/// What is printed of these is one word.
pub fn printed_values_are_words()
    ensures numbers { NumbersAreWords }
    ensures strings { StringsAreWords }
    ensures tags { TagsAreWords }
    ensures hexadecimal { HexIsWord }
    ensures base64 { Base64IsWord }
{}

/// Words represent at most one list of octets.
pub fn words_represent_one()
    ensures hexadecimal { RepresentsOne AreHex }
    ensures base64 { RepresentsOne AreBase64 }
{}

/// A line has at most one list of words.
pub fn words_are_unique()
    ensures { WordsAreUnique }
{}

/// Two errors are equal if and only if they are the same.
pub fn word_equality()
    ensures errors { (a b : _) → IsTrue (⟦<TextError as PartialEq>⟧.eq a b) ↔ (a ≡ b) }
{}

/// A clone is the same value.
pub fn word_clones()
    ensures errors { (a b : _) → ⟦<TextError as Clone>⟧.is_clone a b → b ≡ a }
    ensures hexadecimal { (a b : _) → ⟦<Hex<'static> as Clone>⟧.is_clone a b → b ≡ a }
    ensures base32 { (a b : _) → ⟦<Base32<'static> as Clone>⟧.is_clone a b → b ≡ a }
    ensures strings { (a b : _) → ⟦<Quoted<'static> as Clone>⟧.is_clone a b → b ≡ a }
    ensures tags { (a b : _) → ⟦<Tag<'static> as Clone>⟧.is_clone a b → b ≡ a }
{}

/// A clone never fails.
pub fn word_clones_never_fail()
    ensures errors { (a : _) → ⟦<TextError as Clone>⟧.is_infallible a }
    ensures hexadecimal { (a : _) → ⟦<Hex<'static> as Clone>⟧.is_infallible a }
    ensures base32 { (a : _) → ⟦<Base32<'static> as Clone>⟧.is_infallible a }
    ensures strings { (a : _) → ⟦<Quoted<'static> as Clone>⟧.is_infallible a }
    ensures tags { (a : _) → ⟦<Tag<'static> as Clone>⟧.is_infallible a }
{}
