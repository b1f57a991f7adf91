//! Records in the lines of a script.
ghost use Rattle.std.specs.Prelude.{◌≡◌, ◌==◌, IfOk, IfSome};
ghost use Rattle.std.specs.List.{slice_split};
ghost use Rattle.dns_name.specs.NameReading.{name_labels};
ghost use Rattle.dns_name.specs.NameTexts.{SpellsName};
ghost use Rattle.dns_data.specs.A.{address_of};
ghost use Rattle.dns_data.specs.UnknownData.{unknown_octets, unknown_rtype_of};
ghost use Rattle.dnsmsg_tool.specs.ScriptRecords.{AreDataWords, AreDigits, AreFieldWords, AreOpaqueWords, AreRecordFields, AreRecordWords, AreZoneWords, IsAddressWord};
ghost use Rattle.dnsmsg_tool.specs.ScriptWords.{IsNumberUpTo, IsOnly, ReadsValue, texts};

use crate::octet_digits;
use crate::script_data::ScriptData;
use crate::script_words::number;
use dns_code::Ttl;
use dns_data::{A, Cname, Ns, Soa, UnknownRecordData};
use dns_iana::{Class, Rtype};
use dns_item::Record;
use dns_lines::KnownData;
use dns_name::Name;
use dns_name::name::FromStrError;
use dns_wire::MAX_OCTETS;
use std::alloc::{AllocError, Global};
use std::str::FromStr;

/// A record of a script.
pub(crate) type ScriptRecord = Record<Name<Vec<u8>>, ScriptData>;

/// The record in these words: the owner, TTL in seconds, class, type and RDATA. Returns `None` if
/// they are malformed.
pub(crate) fn record(alloc: Global, words: &[&str]) -> Result<Option<ScriptRecord>, AllocError>
    ensures { IfOk result (ReadsValue (λ value. value) (AreRecordWords name_labels words.now)) }
{
    let [owner, ttl, class, rtype, words @ ..] = words else {
        return Ok(None);
    };
    record_of(alloc, owner, ttl, class, rtype, words)
}

fn record_of(
    alloc: Global,
    owner: &str,
    ttl: &str,
    class: &str,
    rtype: &str,
    words: &[&str],
) -> Result<Option<ScriptRecord>, AllocError>
    ensures { IfOk result (ReadsValue (λ value. value)
        (AreRecordFields name_labels owner.now ttl.now class.now rtype.now words.now)) }
{
    let Some(ttl) = number_of_32_bits(ttl) else {
        return Ok(None);
    };
    let Ok(class) = Class::from_str(class) else {
        return Ok(None);
    };
    let Ok(rtype) = Rtype::from_str(rtype) else {
        return Ok(None);
    };
    let Some(owner) = name(alloc, owner)? else {
        return Ok(None);
    };
    let Some(value) = rdata(alloc, rtype, words)? else {
        return Ok(None);
    };
    Ok(Some(Record::new(owner, class, Ttl::from_secs(ttl), value)))
}

/// The RDATA of a record of this type: opaque after `\#` (RFC 3597 section 5), else its fields.
/// Returns `None` if the words are malformed.
fn rdata(alloc: Global, rtype: Rtype, words: &[&str]) -> Result<Option<ScriptData>, AllocError>
    ensures { IfOk result (ReadsValue (λ value. value) (AreDataWords rtype words.now)) }
{
    match words {
        [mark, size, digits @ ..] if *mark == "\\#" => {
            match opaque(alloc, rtype, size, digits)? {
                Some(value) => Ok(Some(ScriptData::Opaque(value))),
                None => Ok(None),
            }
        }
        _ => match fields(alloc, rtype, words)? {
            Some(value) => Ok(Some(ScriptData::Known(value))),
            None => Ok(None),
        },
    }
}

/// The fields of an A, NS, CNAME or SOA record. Returns `None` for any other type, and if the words
/// are malformed.
fn fields(
    alloc: Global,
    rtype: Rtype,
    words: &[&str],
) -> Result<Option<KnownData<Name<Vec<u8>>>>, AllocError>
    ensures { IfOk result (ReadsValue (λ value. value)
        (AreFieldWords name_labels rtype words.now)) }
{
    match rtype {
        Rtype::A => match only_address(alloc, words)? {
            Some(address) => Ok(Some(KnownData::A(address))),
            None => Ok(None),
        },
        Rtype::NS => match only_name(alloc, words)? {
            Some(name) => Ok(Some(KnownData::Ns(Ns::new(name)))),
            None => Ok(None),
        },
        Rtype::CNAME => match only_name(alloc, words)? {
            Some(name) => Ok(Some(KnownData::Cname(Cname::new(name)))),
            None => Ok(None),
        },
        Rtype::SOA => match zone(alloc, words)? {
            Some(zone) => Ok(Some(KnownData::Soa(zone))),
            None => Ok(None),
        },
        _ => Ok(None),
    }
}

/// The IPv4 address in a single word.
fn only_address(alloc: Global, words: &[&str]) -> Result<Option<A>, AllocError>
    ensures { IfOk result (ReadsValue address_of (IsOnly IsAddressWord words.now)) }
{
    match words {
        [word] => address(alloc, word),
        _ => Ok(None),
    }
}

/// The IPv4 address in a word: four decimal numbers with dots between.
fn address(alloc: Global, word: &str) -> Result<Option<A>, AllocError>
    ensures { IfOk result (ReadsValue address_of (IsAddressWord word.now)) }
{
    let parts = parts_of(alloc, word)?;
    let [a, b, c, d] = parts.as_slice() else {
        return Ok(None);
    };
    let Some(a) = number_of_8_bits(a) else {
        return Ok(None);
    };
    let Some(b) = number_of_8_bits(b) else {
        return Ok(None);
    };
    let Some(c) = number_of_8_bits(c) else {
        return Ok(None);
    };
    let Some(d) = number_of_8_bits(d) else {
        return Ok(None);
    };
    Ok(Some(A::from_octets(a, b, c, d)))
}

/// The parts of a word, which dots separate.
fn parts_of(alloc: Global, word: &str) -> Result<Vec<&str>, AllocError>
    ensures { IfOk result (λ parts. texts parts.items ≡ slice_split (λ c. c == 46) word.now) }
{
    word.split('.').collect(alloc)
}

/// The name in a single word.
fn only_name(alloc: Global, words: &[&str]) -> Result<Option<Name<Vec<u8>>>, AllocError>
    ensures { IfOk result (ReadsValue name_labels (IsOnly SpellsName words.now)) }
{
    match words {
        [word] => name(alloc, word),
        _ => Ok(None),
    }
}

/// The name in a word. Returns `None` if the word is malformed.
fn name(alloc: Global, word: &str) -> Result<Option<Name<Vec<u8>>>, AllocError>
    ensures { IfOk result (ReadsValue name_labels (SpellsName word.now)) }
{
    match Name::vec_from_str(alloc, word) {
        Ok(name) => Ok(Some(name)),
        Err(FromStrError::Presentation(_)) => Ok(None),
        Err(_) => Err(AllocError),
    }
}

/// The RDATA of an SOA record: two names and five numbers.
fn zone(alloc: Global, words: &[&str]) -> Result<Option<Soa<Name<Vec<u8>>>>, AllocError>
    ensures { IfOk result (ReadsValue (λ zone. zone) (AreZoneWords name_labels words.now)) }
{
    let [mname, rname, serial, refresh, retry, expire, minimum] = words else {
        return Ok(None);
    };
    let Some(mname) = name(alloc, mname)? else {
        return Ok(None);
    };
    let Some(rname) = name(alloc, rname)? else {
        return Ok(None);
    };
    let Some(serial) = number_of_32_bits(serial) else {
        return Ok(None);
    };
    let Some(refresh) = number_of_32_bits(refresh) else {
        return Ok(None);
    };
    let Some(retry) = number_of_32_bits(retry) else {
        return Ok(None);
    };
    let Some(expire) = number_of_32_bits(expire) else {
        return Ok(None);
    };
    let Some(minimum) = number_of_32_bits(minimum) else {
        return Ok(None);
    };
    Ok(Some(Soa::new(mname, rname, serial, refresh, retry, expire, minimum)))
}

fn number_of_8_bits(digits: &str) -> Option<u8>
    ensures { ReadsValue (λ n. n) (IsNumberUpTo 255 digits.now) result }
{
    Some(number(digits, u8::MAX as usize)? as u8)
}

fn number_of_32_bits(digits: &str) -> Option<u32>
    ensures { ReadsValue (λ n. n) (IsNumberUpTo 4294967295 digits.now) result }
{
    Some(number(digits, u32::MAX as usize)? as u32)
}

/// Opaque RDATA: its length in octets, then the octets as one word of hexadecimal digits, which is
/// missing if there are none.
fn opaque(
    alloc: Global,
    rtype: Rtype,
    len: &str,
    digits: &[&str],
) -> Result<Option<UnknownRecordData<Vec<u8>>>, AllocError>
    ensures rtype { IfOk result (λ found. IfSome found (λ value. unknown_rtype_of value ≡ rtype)) }
    ensures octets { IfOk result (ReadsValue unknown_octets
        (AreOpaqueWords len.now digits.now)) }
{
    let Some(octets) = only_octets(alloc, digits)? else {
        return Ok(None);
    };
    if number(len, MAX_OCTETS) != Some(octets.len()) {
        return Ok(None);
    }
    Ok(UnknownRecordData::from_octets(rtype, octets).ok())
}

/// The octets in a word of hexadecimal digits, which is missing if there are none.
fn only_octets(alloc: Global, words: &[&str]) -> Result<Option<Vec<u8>>, AllocError>
    ensures { IfOk result (ReadsValue (λ octets. octets.items) (AreDigits words.now)) }
{
    match words {
        [] => Ok(Some(Vec::new(alloc))),
        [digits] => octet_digits::octets(alloc, digits.as_bytes()),
        _ => Ok(None),
    }
}
