//! Reading of names in presentation format (RFC 1035 section 5.1).
ghost use Rattle.std.specs.Prelude.{◌≡◌, ◌≤◌, ◌<◌, ◌≢◌, ◌+◌, ◌∷◌, ℕ, IsTrue, MatchResult, length};
ghost use Rattle.dns_name.specs.NameTexts.{backslash, dot, is_digit, NameTextFault, NameTextFaulty, SpellsLabels, SpellsName};
ghost use Rattle.dns_name.specs.Names.{max_size};
ghost use Rattle.dns_name.specs.NameReading.{AreOctets, LabelFirst, ReadsName, ReadsOctet, SpellsSomeName, StepsLabel};

use crate::flatten::append_label;
use crate::head::Head;
use crate::label::Label;
use crate::name::Name;
use crate::name_error::{FromStrError, PresentationError};
use arrayvec::ArrayVec;
use dns_octets::OctetsFrom;
use std::alloc::Global;
use std::str::FromStr;

/// Reads an escape of three digits, after the backslash and its first digit `hundreds`.
fn read_decimal(hundreds: u8, text: &[u8]) -> Result<(u8, &[u8]), PresentationError>
    requires { IsTrue (is_digit hundreds) }
    ensures { ReadsOctet (backslash ∷ hundreds ∷ text.now) result }
{
    let [tens, ones, rest @ ..] = text else {
        return Err(PresentationError::BadEscape);
    };
    if !tens.is_ascii_digit() || !ones.is_ascii_digit() {
        return Err(PresentationError::BadEscape);
    }
    let value = u16::from(hundreds - b'0') * 100
        + u16::from(*tens - b'0') * 10
        + u16::from(*ones - b'0');
    if value > 255 {
        return Err(PresentationError::BadEscape);
    }
    Ok((value as u8, rest))
}

/// Reads an escape, after its backslash.
fn read_escaped(text: &[u8]) -> Result<(u8, &[u8]), PresentationError>
    ensures { ReadsOctet (backslash ∷ text.now) result }
{
    let Some((first, rest)) = text.split_first() else {
        return Err(PresentationError::BadEscape);
    };
    if first.is_ascii_digit() {
        return read_decimal(*first, rest);
    }
    if !first.is_ascii_graphic() {
        return Err(PresentationError::BadEscape);
    }
    Ok((*first, rest))
}

/// Reads the octet of a label that begins with the character `first`, which isn't a dot.
fn read_octet(first: u8, text: &[u8]) -> Result<(u8, &[u8]), PresentationError>
    requires { first ≢ dot }
    ensures { ReadsOctet (first ∷ text.now) result }
{
    if first == b'\\' {
        return read_escaped(text);
    }
    if !first.is_ascii_graphic() {
        return Err(PresentationError::BadSymbol);
    }
    Ok((first, text))
}

/// Reads the next octet of a label, after `len` octets of this label and labels of `size` octets
/// before it. Returns `None` at the end of the label.
fn next_octet(
    text: &[u8],
    len: usize,
    size: usize,
) -> Result<Option<(u8, &[u8])>, PresentationError>
    requires short { len ≤ Label.MAX_LEN }
    requires short_enough { size ≤ max_size }
    ensures { StepsLabel text.now len size result }
{
    let Some((first, after)) = text.split_first() else {
        return Ok(None);
    };
    if *first == b'.' {
        return if len == 0 {
            Err(PresentationError::EmptyLabel)
        } else {
            Ok(None)
        };
    }
    let (octet, rest) = read_octet(*first, after)?;
    if len == Label::MAX_LEN {
        return Err(PresentationError::LongLabel);
    }
    if size + len + 2 > Head::MAX_SIZE {
        return Err(PresentationError::LongName);
    }
    Ok(Some((octet, rest)))
}

/// Reads a label, after labels of `size` octets. Returns the text after it too.
fn read_label(text: &[u8], size: usize) -> Result<(ArrayVec<u8, 63>, &[u8]), PresentationError>
    requires some { 0 < length text.now }
    requires short_enough { size ≤ max_size }
    ensures { MatchResult result (λ read. LabelFirst text.now size read.0.items read.1.now)
        (λ f. NameTextFaulty text.now 0 size f) }
{
    let mut label = ArrayVec::new();
    let mut left = text;
    'octets: while let Some((octet, rest)) = next_octet(left, label.len(), size)? {
        label.push(octet);
        left = rest;
    }
    Ok((label, left))
}

/// Reads labels separated by dots, and returns the octets of the name.
fn read_labels(text: &[u8]) -> Result<ArrayVec<u8, 255>, PresentationError>
    requires { 0 < length text.now }
    ensures { MatchResult result (λ octets. AreOctets (SpellsLabels text.now) octets.items)
        (λ f. NameTextFaulty text.now 0 0 f) }
{
    let mut octets = ArrayVec::new();
    let mut left = text;
    'labels: loop {
        let (label, after) = read_label(left, octets.len())?;
        append_label(&mut octets, Label::new(label.as_slice()));
        if after.len() < 2 {
            break;
        }
        left = &after[1..];
    }
    octets.push(0);
    Ok(octets)
}

/// Returns the octets of the name that the text represents. A single dot is the root.
fn read_name(text: &[u8]) -> Result<ArrayVec<u8, 255>, PresentationError>
    ensures { MatchResult result (λ octets. AreOctets (SpellsName text.now) octets.items)
        (NameTextFault text.now) }
{
    if text.is_empty() {
        return Err(PresentationError::EmptyLabel);
    }
    if let [b'.'] = text {
        let mut root = ArrayVec::new();
        root.push(0);
        return Ok(root);
    }
    read_labels(text)
}

/// Reads a name: labels separated by dots, with an optional final dot. A single dot is the root.
///
/// A backslash followed by three digits, up to 255, is one octet. A backslash followed by another
/// graphic ASCII character is that character: `\.` is a dot within a label, and `\\` a backslash. A
/// malformed text is `Presentation` with its leftmost error. Nothing is allocated.
impl FromStr for Name<ArrayVec<u8, 255>> {
    type Err = FromStrError;

    ghost from_str_gives = { ReadsName ⊥ };

    fn from_str(text: &str) -> Result<Self, FromStrError> {
        match read_name(text.as_bytes()) {
            Ok(octets) => Ok(Name::of_whole(octets)),
            Err(fault) => Err(FromStrError::Presentation(fault)),
        }
    }
}

impl Name<Vec<u8>> {
    /// Reads a name into a `Vec` allocated from `alloc`. The text has labels separated by dots, with
    /// a final dot or none; `\.`, `\\` and `\DDD` are escapes, as in `FromStr`.
    ///
    /// Errors: `Presentation` if the text is malformed; `OutOfMemory` if it represents a name and
    /// the allocation fails.
    pub fn vec_from_str(alloc: Global, text: &str) -> Result<Self, FromStrError>
        ensures { ReadsName (SpellsSomeName text.now) text.now result }
    {
        let name = Name::<ArrayVec<u8, 255>>::from_str(text)?;
        Name::try_octets_from(alloc, &name).map_err(|_| FromStrError::OutOfMemory)
    }
}
