//! RDATA and records of zone files as octets (RFC 1035 section 5.1).
ghost use Rattle.std.specs.Prelude.{◌≡◌, ◌≢◌, ◌⊎◌, ℕ, List, length, take};
ghost use Rattle.std.specs.Str.{IsUtf8};
ghost use Rattle.dns_item.specs.Items.{RecordEntry, RecordItem, ReadsRecordItem};
ghost use Rattle.dnsm_status.specs.CallerBuffers.{IsLonger, WritesOctets};
ghost use Rattle.dnsm_status.specs.Codes.{number_of};
ghost use Rattle.dnsm_read.specs.DataTexts.{RecordAt};
ghost use Rattle.dnsm_read.specs.Steps.{ReportsRecord};
ghost use Rattle.dnsm_put.specs.Copies.{HasNumbers, IsItemIn};
ghost use Rattle.dnsm_zone.specs.Lines.{AreData, AreRecord, HasWords, LacksData, LacksRecord};

use dnsm_read::sections::ANSWER;
use dnsm_read::{Item, walk};
use dnsm_status::{CallError, buffers};
use std::alloc::Global;

/// Writes the octets of the RDATA of this type that a text represents, uncompressed: a word or more
/// for each field; or `\#`, the number of octets, and these in hexadecimal digits (RFC 3597 section
/// 5). Allocates.
#[unsafe(no_mangle)]
pub extern "C" fn dnsm_data_from_text(
    alloc: Global,
    rtype: u16,
    text: &[u8],
    out: &mut [u8],
    len: &mut usize,
) -> u32
    ensures writes { WritesOctets out.old out.new len.new result }
    ensures octets { result ≡ 0 → HasWords (AreData rtype (take len.new out.new)) text.now }
    ensures no_room { result ≡ number_of CallError.NoRoom → IsLonger
        (λ octets. HasWords (AreData rtype octets) text.now) (length out.old) len.new }
    ensures none { result ≢ 0 → result ≢ number_of CallError.NoRoom
        → ((result ≡ number_of CallError.NoMemory) × IsUtf8 text.now)
        ⊎ ((result ≡ number_of CallError.BadText) × LacksData rtype text.now) }
{
    match dnsm_zone::data_from_text(alloc, rtype, text) {
        Ok(octets) => buffers::hand_out(octets.as_slice(), out, len),
        Err(fault) => buffers::refuse(fault, len),
    }
}

/// The record that begins octets, as an item of the answer section.
fn first_record(octets: &[u8]) -> Item
    requires { (end : ℕ) × (x : RecordItem) × ReadsRecordItem octets.now 0 end x }
    ensures reports { (x : RecordEntry) × RecordAt octets.now 0 x
        × ReportsRecord octets.now result x }
    ensures place { result.place ≡ 0 }
    ensures section { result.section ≡ 1 }
    ensures numbers { HasNumbers result }
{
    match walk::read_record(octets, ANSWER, 0) {
        Ok((item, _)) => item,
        Err(_) => unreachable!(),
    }
}

/// Writes the octets of the record that a text represents, uncompressed: its owner, its TTL in
/// seconds, its class, its type, and its RDATA. Sets the item as for a record of the answer section
/// in these octets. Allocates.
#[unsafe(no_mangle)]
pub extern "C" fn dnsm_record_from_text(
    alloc: Global,
    text: &[u8],
    out: &mut [u8],
    len: &mut usize,
    item: &mut Item,
) -> u32
    ensures writes { WritesOctets out.old out.new len.new result }
    ensures octets { result ≡ 0 → HasWords (AreRecord (take len.new out.new)) text.now }
    ensures item { result ≡ 0 → (x : RecordEntry) × RecordAt (take len.new out.new) 0 x
        × ReportsRecord (take len.new out.new) item.new x }
    ensures means { result ≡ 0 → IsItemIn (take len.new out.new) item.new }
    ensures place { result ≡ 0 → item.new.place ≡ 0 }
    ensures section { result ≡ 0 → item.new.section ≡ 1 }
    ensures no_room { result ≡ number_of CallError.NoRoom → IsLonger
        (λ octets. HasWords (AreRecord octets) text.now) (length out.old) len.new }
    ensures none { result ≢ 0 → result ≢ number_of CallError.NoRoom
        → ((result ≡ number_of CallError.NoMemory) × IsUtf8 text.now)
        ⊎ ((result ≡ number_of CallError.BadText) × LacksRecord text.now) }
    ensures unchanged { result ≢ 0 → item.new ≡ item.old }
{
    let octets = match dnsm_zone::record_from_text(alloc, text) {
        Ok(octets) => octets,
        Err(fault) => return buffers::refuse(fault, len),
    };
    let status = buffers::hand_out(octets.as_slice(), out, len);
    if status == 0 {
        *item = first_record(octets.as_slice());
    }
    status
}
