//! Records from text.
ghost use Rattle.std.specs.Prelude.{◌≡◌, ◌⊎◌, [], length, IfOk, IfErr};
ghost use Rattle.std.specs.Str.{IsUtf8};
ghost use Rattle.dns_name.specs.NameReading.{name_labels};
ghost use Rattle.dns_item.specs.Items.{ReadsRecordItem};
ghost use Rattle.dns_item.specs.Record.{record_item};
ghost use Rattle.fields_table.specs.OwnedData.{owned_parts_of, owned_rtype_of};
ghost use Rattle.fields_records.specs.RecordWords.{IsRecordText, MayBeRecord};
ghost use Rattle.dnsm_zone.specs.Lines.{AreNoRecord, AreRecord, HasWords, LacksRecord, octets_of_record};

use crate::words::{fault_of, words_of};
use arrayvec::ArrayVec;
use dns_item::Record;
use dns_name::Name;
use dnsm_status::CallError;
use fields_records::read_record;
use fields_table::OwnedFieldData;
use std::alloc::Global;

/// A record that owns its octets.
type OwnedRecord = Record<Name<ArrayVec<u8, 255>>, OwnedFieldData>;

/// The record that the words represent.
fn record_of(alloc: Global, words: &[&str]) -> Result<OwnedRecord, CallError>
    ensures found { IfOk result (λ found.
        IsRecordText words.now (record_item name_labels owned_rtype_of owned_parts_of found)) }
    ensures none { IfErr result (λ fault.
        ((fault ≡ CallError.NoMemory) × MayBeRecord words.now)
        ⊎ ((fault ≡ CallError.BadText) × AreNoRecord words.now)) }
{
    match read_record(alloc, words) {
        Ok(found) => Ok(found),
        Err(error) => Err(fault_of(error)),
    }
}

/// The octets of a record, uncompressed.
fn octets_of(alloc: Global, found: &OwnedRecord) -> Result<Vec<u8>, CallError>
    ensures octets { IfOk result (λ octets. octets.items
        ≡ octets_of_record (record_item name_labels owned_rtype_of owned_parts_of found.now)) }
    ensures reads { IfOk result (λ octets. ReadsRecordItem octets.items 0 (length octets.items)
        (record_item name_labels owned_rtype_of owned_parts_of found.now)) }
    ensures none { IfErr result (λ fault. fault ≡ CallError.NoMemory) }
{
    let mut octets = Vec::new(alloc);
    found.compose(&mut octets)?;
    Ok(octets)
}

/// The octets of the record that a text represents, uncompressed: its owner, its TTL in seconds, its
/// class, its type, and its RDATA.
///
/// `BadText` if the text is no record, `NoMemory` if an allocation fails.
pub fn record_from_text(alloc: Global, text: &[u8]) -> Result<Vec<u8>, CallError>
    ensures found { IfOk result (λ octets. HasWords (AreRecord octets.items) text.now) }
    ensures none { IfErr result (λ fault.
        ((fault ≡ CallError.NoMemory) × IsUtf8 text.now)
        ⊎ ((fault ≡ CallError.BadText) × LacksRecord text.now)) }
{
    let words = words_of(alloc, text)?;
    match record_of(alloc, words.as_slice()) {
        Ok(found) => octets_of(alloc, &found),
        Err(fault) => Err(fault),
    }
}
