//! A field of record data.
ghost use Rattle.fields_records.specs.FieldWords.{IsField, IsOne, IsFieldWord};
ghost use Rattle.fields_text.specs.Reading.{AppendsOctets};

use crate::extent::{Extent, extent_of};
use crate::word::push_word;
use crate::words::push_words;
use fields_plain::read_sized;
use fields_table::Kind;
use fields_text::{TextError, push_read};
use std::alloc::Global;

/// Appends a field of this kind that has one word.
fn push_one(
    alloc: Global,
    octets: &mut Vec<u8>,
    kind: Kind,
    words: &[&str],
) -> Result<(), TextError>
    ensures { AppendsOctets (IsOne (IsFieldWord kind) words.now)
        octets.old.items octets.new.items result }
{
    let [word] = words else {
        return Err(TextError::BadWord);
    };
    push_word(alloc, octets, kind, word)
}

/// Appends the field of this kind that the words represent.
pub(crate) fn push_field(
    alloc: Global,
    octets: &mut Vec<u8>,
    kind: Kind,
    words: &[&str],
) -> Result<(), TextError>
    ensures { AppendsOctets (IsField kind words.now) octets.old.items octets.new.items result }
{
    match extent_of(kind) {
        Extent::One => push_one(alloc, octets, kind, words),
        Extent::OneOrTwo => push_read(octets, read_sized(alloc, words)),
        Extent::All => push_words(alloc, octets, kind, words),
    }
}
