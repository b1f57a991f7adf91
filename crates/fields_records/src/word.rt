//! Fields that are one word (RFC 1035 section 5.1).
ghost use Rattle.std.specs.Prelude.{◌≡◌, ◌+◌, ◌^◌};
ghost use Rattle.fields_records.specs.FieldWords.{IsNumberIn, IsSchemeWord, IsString, IsTagWord, IsFieldWord};
ghost use Rattle.fields_text.specs.Reading.{AppendsOctets};

use arrayvec::ArrayVec;
use fields_plain::{
    push_eui48, push_eui64, push_hash, push_ipv4, push_ipv6, push_locator, push_name, push_salt,
    push_time, push_type,
};
use fields_table::Kind;
use fields_text::{Tag, TextError, push_counted, push_last, push_read, read_number, read_string};
use std::alloc::Global;

/// The greatest number that a length octet counts.
const MOST_OCTETS: usize = 255;

/// Appends a number of `size` octets, whose greatest is `most`.
fn push_number(octets: &mut Vec<u8>, word: &str, size: u8, most: u64) -> Result<(), TextError>
    requires { most + 1 ≡ 256 ^ size }
    ensures { AppendsOctets (IsNumberIn size word.now) octets.old.items octets.new.items result }
{
    match read_number(word, most) {
        Some(number) => push_last(octets, size, number),
        None => Err(TextError::BadWord),
    }
}

/// Appends a scheme of notifications: its mnemonic, ignoring ASCII case, or its number (RFC 9859
/// section 2.2).
fn push_scheme(octets: &mut Vec<u8>, word: &str) -> Result<(), TextError>
    ensures { AppendsOctets (IsSchemeWord word.now) octets.old.items octets.new.items result }
{
    if word.eq_ignore_ascii_case("NOTIFY") {
        return push_last(octets, 1, 1);
    }
    push_number(octets, word, 1, 0xff)
}

/// Appends a character string.
pub(crate) fn push_string(octets: &mut Vec<u8>, word: &str) -> Result<(), TextError>
    ensures { AppendsOctets (IsString word.now) octets.old.items octets.new.items result }
{
    let mut string: ArrayVec<u8, 255> = ArrayVec::new();
    if fields_text::push_string(&mut string, word.as_bytes()) {
        push_counted(octets, string.as_slice())
    } else {
        Err(TextError::BadWord)
    }
}

/// Appends a tag.
fn push_tag(octets: &mut Vec<u8>, word: &str) -> Result<(), TextError>
    ensures { AppendsOctets (IsTagWord word.now) octets.old.items octets.new.items result }
{
    let tag = word.as_bytes();
    if Tag::from_octets(tag).is_none() {
        return Err(TextError::BadWord);
    }
    if tag.len() > MOST_OCTETS {
        return Err(TextError::BadWord);
    }
    push_counted(octets, tag)
}

/// Appends a field of this kind.
pub(crate) fn push_word(
    alloc: Global,
    octets: &mut Vec<u8>,
    kind: Kind,
    word: &str,
) -> Result<(), TextError>
    ensures { AppendsOctets (IsFieldWord kind word.now) octets.old.items octets.new.items result }
{
    match kind {
        Kind::Number8 => push_number(octets, word, 1, 0xff),
        Kind::Number16 => push_number(octets, word, 2, 0xffff),
        Kind::Number32 | Kind::Seconds => push_number(octets, word, 4, 0xffff_ffff),
        Kind::Number48 => push_number(octets, word, 6, 0xffff_ffff_ffff),
        Kind::Number64 => push_number(octets, word, 8, u64::MAX),
        Kind::SyncScheme => push_scheme(octets, word),
        Kind::Time => push_time(octets, word),
        Kind::Ipv4 => push_ipv4(octets, word),
        Kind::Ipv6 => push_ipv6(octets, word),
        Kind::Eui48 => push_eui48(octets, word),
        Kind::Eui64 => push_eui64(octets, word),
        Kind::Locator64 => push_locator(octets, word),
        Kind::RecordType => push_type(octets, word),
        Kind::CompressibleName | Kind::PointedName | Kind::LowercasedName | Kind::PlainName => {
            push_name(octets, word)
        }
        Kind::CharacterString => push_string(octets, word),
        Kind::Tag => push_tag(octets, word),
        Kind::Salt => push_salt(alloc, octets, word),
        Kind::Hash => push_hash(alloc, octets, word),
        Kind::Text => push_read(octets, read_string(alloc, word.as_bytes())),
        _ => Err(TextError::BadWord),
    }
}
