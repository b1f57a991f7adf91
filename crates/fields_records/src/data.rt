//! Record data from words (RFC 1035 section 5.1, RFC 3597 section 5).
ghost use Rattle.std.specs.Prelude.{◌≡◌, ◌↔◌, [], IsTrue};
ghost use Rattle.fields_records.specs.DataWords.{AreCountedDigits, IsDataText, IsMarked, ReadsData, ReadsDataIf};
ghost use Rattle.fields_text.specs.Reading.{HasValue};
ghost use Rattle.fields_text.specs.ReadOctets.{PushesFitting};

use crate::fields::read_fields;
use crate::rdata::{copy_rdata, read_rdata};
use arrayvec::ArrayVec;
use dns_iana::Rtype;
use fields_table::OwnedFieldData;
use fields_text::{TextError, push_hex_words, read_number};
use std::alloc::Global;

/// Whether the first word is `\#`.
fn is_marked(words: &[&str]) -> bool
    ensures { IsTrue result ↔ IsMarked words.now }
{
    match words {
        [word, ..] => *word == "\\#",
        [] => false,
    }
}

/// Appends the octets of hexadecimal digits, after a word for their number, if they fit. Nothing is
/// allocated.
fn push_counted_digits(octets: &mut ArrayVec<u8, 65535>, words: &[&str]) -> bool
    requires { octets.old.items ≡ [] }
    ensures { PushesFitting (AreCountedDigits words.now) 65535 [] octets.new.items result }
{
    let [size, digits @ ..] = words else {
        return false;
    };
    let Some(number) = read_number(size, 65_535) else {
        return false;
    };
    if !push_hex_words(octets, digits) {
        return false;
    }
    octets.len() as u64 == number
}

/// RDATA of this type from words that begin with `\#`. Memory is taken only for octets that are
/// RDATA of the type.
#[inline(never)]
fn read_marked(alloc: Global, rtype: Rtype, words: &[&str]) -> Result<OwnedFieldData, TextError>
    requires { IsMarked words.now }
    ensures { ReadsDataIf (HasValue (IsDataText rtype words.now)) rtype words.now result }
{
    let mut octets = ArrayVec::new();
    if !push_counted_digits(&mut octets, &words[1..]) {
        return Err(TextError::BadWord);
    }
    copy_rdata(alloc, rtype, octets.as_slice())
}

/// The RDATA of this type that the words represent: a word or more for each field; or `\#`, the
/// number of octets, and these in hexadecimal digits.
pub fn from_text(alloc: Global, rtype: Rtype, words: &[&str]) -> Result<OwnedFieldData, TextError>
    ensures { ReadsData rtype words.now result }
{
    if is_marked(words) {
        return read_marked(alloc, rtype, words);
    }
    match read_fields(alloc, rtype.to_int(), words) {
        Ok(octets) => read_rdata(rtype, octets),
        Err(error) => Err(error),
    }
}
