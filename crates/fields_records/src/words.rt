//! Fields that are all words that are left (RFC 1035 section 5.1).
ghost use Rattle.std.specs.Prelude.{◌≡◌, ◌≢◌, ◌↔◌, [], IsTrue};
ghost use Rattle.fields_records.specs.FieldWords.{AreBase64OrHyphen, AreFieldWords, AreSomeBase64, AreStrings, IsHyphen, IsOne};
ghost use Rattle.fields_text.specs.JoinedWords.{AreHex, joined};
ghost use Rattle.fields_forms.specs.LocationWords.{IsLocation};
ghost use Rattle.fields_text.specs.Reading.{AppendsOctets};

use crate::word::push_string;
use fields_forms::{read_gateway, read_host_identity, read_location, read_relay};
use fields_lists::{read_prefixes, read_small_type_map, read_type_map};
use fields_parameters::read_parameters;
use fields_table::Kind;
use fields_text::{TextError, push_octets, push_read, read_base64_words, read_hex_words};
use std::alloc::Global;

/// Appends character strings. After an allocation fails, the other words are still read, since a
/// bad one of them is the error.
fn push_strings(octets: &mut Vec<u8>, words: &[&str]) -> Result<(), TextError>
    ensures { AppendsOctets (AreStrings words.now) octets.old.items octets.new.items result }
{
    let mut fits = true;
    for word in words {
        match push_string(octets, word) {
            Ok(()) => {}
            Err(TextError::OutOfMemory) => fits = false,
            Err(TextError::BadWord) => return Err(TextError::BadWord),
        }
    }
    if fits {
        Ok(())
    } else {
        Err(TextError::OutOfMemory)
    }
}

/// Appends character strings, one at least.
fn push_some_strings(octets: &mut Vec<u8>, words: &[&str]) -> Result<(), TextError>
    ensures { AppendsOctets (λ all. (words.now ≢ []) × AreStrings words.now all)
        octets.old.items octets.new.items result }
{
    if words.is_empty() {
        return Err(TextError::BadWord);
    }
    push_strings(octets, words)
}

/// Whether the words have no character.
fn are_blank(words: &[&str]) -> bool
    ensures { IsTrue result ↔ (joined words.now ≡ []) }
{
    for word in words {
        if !word.is_empty() {
            return false;
        }
    }
    true
}

/// Appends the octets of hexadecimal digits, one octet at least.
fn push_hex(alloc: Global, octets: &mut Vec<u8>, words: &[&str]) -> Result<(), TextError>
    ensures { AppendsOctets (λ all. AreHex words.now all × (all ≢ []))
        octets.old.items octets.new.items result }
{
    if are_blank(words) {
        return Err(TextError::BadWord);
    }
    push_read(octets, read_hex_words(alloc, words))
}

/// Appends the octets of base64, one octet at least.
fn push_base64(alloc: Global, octets: &mut Vec<u8>, words: &[&str]) -> Result<(), TextError>
    ensures { AppendsOctets (AreSomeBase64 words.now) octets.old.items octets.new.items result }
{
    if are_blank(words) {
        return Err(TextError::BadWord);
    }
    push_read(octets, read_base64_words(alloc, words))
}

/// Whether the words are a hyphen.
fn is_hyphen(words: &[&str]) -> bool
    ensures { IsTrue result ↔ IsOne IsHyphen words.now [] }
{
    match words {
        [word] => *word == "-",
        _ => false,
    }
}

/// Appends no octets for a hyphen, else those of base64, one octet at least.
fn push_base64_or_hyphen(
    alloc: Global,
    octets: &mut Vec<u8>,
    words: &[&str],
) -> Result<(), TextError>
    ensures { AppendsOctets (AreBase64OrHyphen words.now) octets.old.items octets.new.items result }
{
    if is_hyphen(words) {
        return Ok(());
    }
    push_base64(alloc, octets, words)
}

/// Appends a location.
fn push_location(octets: &mut Vec<u8>, words: &[&str]) -> Result<(), TextError>
    ensures { AppendsOctets (IsLocation words.now) octets.old.items octets.new.items result }
{
    match read_location(words) {
        Some(location) => push_octets(octets, &location),
        None => Err(TextError::BadWord),
    }
}

/// Appends a field of this kind.
pub(crate) fn push_words(
    alloc: Global,
    octets: &mut Vec<u8>,
    kind: Kind,
    words: &[&str],
) -> Result<(), TextError>
    ensures { AppendsOctets (AreFieldWords kind words.now)
        octets.old.items octets.new.items result }
{
    match kind {
        Kind::Strings => push_some_strings(octets, words),
        Kind::Hexadecimal => push_hex(alloc, octets, words),
        Kind::Base64 => push_base64(alloc, octets, words),
        Kind::Base64OrHyphen => push_base64_or_hyphen(alloc, octets, words),
        Kind::TypeBitMap => push_read(octets, read_type_map(alloc, words)),
        Kind::SmallTypeBitMap => push_read(octets, read_small_type_map(alloc, words)),
        Kind::ServiceParameters => push_read(octets, read_parameters(alloc, words)),
        Kind::AddressPrefixes => push_read(octets, read_prefixes(alloc, words)),
        Kind::Location => push_location(octets, words),
        Kind::GatewayAndKey => push_read(octets, read_gateway(alloc, words)),
        Kind::Relay => push_read(octets, read_relay(alloc, words)),
        Kind::HostIdentity => push_read(octets, read_host_identity(alloc, words)),
        _ => Err(TextError::BadWord),
    }
}
