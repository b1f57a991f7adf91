//! RDATA from text.
ghost use Rattle.std.specs.Prelude.{◌≡◌, ◌⊎◌, IfOk, IfErr};
ghost use Rattle.std.specs.Str.{IsUtf8};
ghost use Rattle.fields_table.specs.DataOrders.{octets_of_parts};
ghost use Rattle.fields_table.specs.OwnedData.{owned_parts_of};
ghost use Rattle.fields_records.specs.DataWords.{IsDataText, MayBeData};
ghost use Rattle.dnsm_zone.specs.Lines.{AreData, AreNoData, HasWords, LacksData};

use crate::words::{fault_of, words_of};
use dns_data::ComposeRecordData;
use dns_iana::Rtype;
use dnsm_status::CallError;
use fields_records::from_text;
use fields_table::OwnedFieldData;
use std::alloc::Global;

/// The RDATA of this type that the words represent.
fn data_of(alloc: Global, rtype: u16, words: &[&str]) -> Result<OwnedFieldData, CallError>
    ensures data { IfOk result (λ found. IsDataText rtype words.now (owned_parts_of found)) }
    ensures none { IfErr result (λ fault.
        ((fault ≡ CallError.NoMemory) × MayBeData rtype words.now)
        ⊎ ((fault ≡ CallError.BadText) × AreNoData rtype words.now)) }
{
    match from_text(alloc, Rtype::from_int(rtype), words) {
        Ok(found) => Ok(found),
        Err(error) => Err(fault_of(error)),
    }
}

/// The octets of RDATA, uncompressed.
fn octets_of(alloc: Global, found: &OwnedFieldData) -> Result<Vec<u8>, CallError>
    ensures octets { IfOk result (λ octets.
        octets.items ≡ octets_of_parts (owned_parts_of found.now)) }
    ensures none { IfErr result (λ fault. fault ≡ CallError.NoMemory) }
{
    let mut octets = Vec::new(alloc);
    found.compose_rdata(&mut octets)?;
    Ok(octets)
}

/// The octets of the RDATA of this type that a text represents, uncompressed: a word or more for
/// each field; or `\#`, the number of octets, and these in hexadecimal digits (RFC 3597 section 5).
///
/// `BadText` if the text is no such RDATA, `NoMemory` if an allocation fails.
pub fn data_from_text(alloc: Global, rtype: u16, text: &[u8]) -> Result<Vec<u8>, CallError>
    ensures data { IfOk result (λ octets. HasWords (AreData rtype octets.items) text.now) }
    ensures none { IfErr result (λ fault.
        ((fault ≡ CallError.NoMemory) × IsUtf8 text.now)
        ⊎ ((fault ≡ CallError.BadText) × LacksData rtype text.now)) }
{
    let words = words_of(alloc, text)?;
    match data_of(alloc, rtype, words.as_slice()) {
        Ok(found) => octets_of(alloc, &found),
        Err(fault) => Err(fault),
    }
}
