//! The RDATA of records: as text, uncompressed, its names and its fields. A question has none.
ghost use Rattle.std.specs.Prelude.{◌≡◌, ◌≢◌, ◌<◌, ◌≤◌, ◌+◌, ◌-◌, ◌^◌, ◌++◌, ◌∷◌, List, [], length, take, min, get_or};
ghost use Rattle.dns_name.specs.Names.{Labels, NameAt, uncompressed};
ghost use Rattle.dns_name.specs.NameTexts.{name_text};
ghost use Rattle.dns_wire.specs.Parts.{Part};
ghost use Rattle.dns_item.specs.Items.{RecordEntry};
ghost use Rattle.dnsm_status.specs.CallerBuffers.{IsLonger, WritesOctets, WritesText};
ghost use Rattle.dnsm_status.specs.Codes.{number_of};
ghost use Rattle.dnsm_read.specs.DataFields.{IsDataIn, LacksData, UncompressesTo, data_end, up_to_data_end};
ghost use Rattle.dnsm_read.specs.DataNames.{IsDataName, IsNameInData, LacksDataName};
ghost use Rattle.dnsm_read.specs.DataTexts.{NoRecordAt, RecordAt, data_text};
ghost use Rattle.dnsm_read.specs.FieldValues.{HasEnded, IsDataField};

use dnsm_read::{DataField, Item, data_name, data_octets, data_text, next_field};
use dnsm_status::{CallError, buffers, code};

/// Writes the RDATA of a record in presentation format, and a zero octet: by the fields of its
/// type, or as octets (RFC 3597 section 5) if it is malformed.
#[unsafe(no_mangle)]
pub extern "C" fn dnsm_data_text(
    message: &[u8],
    item: &Item,
    out: &mut [u8],
    len: &mut usize,
) -> u32
    ensures writes { WritesText out.old out.new len.new result }
    ensures ended { result ≡ 0 → get_or out.new len.new 1 ≡ 0 }
    ensures text { result ≡ 0 → (x : RecordEntry) × RecordAt message.now item.now.place x
        × (take (len.new + 1) out.new ≡ data_text message.now x ++ 0 ∷ []) }
    ensures no_room { result ≡ number_of CallError.NoRoom → (x : RecordEntry)
        × RecordAt message.now item.now.place x
        × (length out.old < length (data_text message.now x) + 1)
        × (len.new ≡ min (length (data_text message.now x)) (2 ^ 64 - 1)) }
    ensures question { item.now.section ≡ 0 → result ≡ number_of CallError.BadSection }
    ensures no_record { item.now.section ≢ 0 → result ≢ 0 → result ≢ number_of CallError.NoRoom
        → NoRecordAt message.now item.now.place result }
    ensures reported { result ≢ 0 → (fault : CallError) × (result ≡ number_of fault) }
{
    match data_text::data(message, item, out) {
        Ok(end) => buffers::finish(end, out, len),
        Err(fault) => buffers::refuse(fault, len),
    }
}

/// Sets `place` to the offset of the name with this index in the RDATA of a record. The name is read
/// without the octets after the RDATA. A question has no RDATA.
#[unsafe(no_mangle)]
pub extern "C" fn dnsm_data_name(
    message: &[u8],
    item: &Item,
    index: usize,
    place: &mut usize,
) -> u32
    ensures question { item.now.section ≡ 0 → result ≡ number_of CallError.BadSection }
    ensures name { result ≡ 0 → IsDataName message.now item.now index place.new }
    ensures read { result ≡ 0 → (name : Labels)
        × NameAt (up_to_data_end message.now item.now) place.new name
        × NameAt message.now place.new name }
    ensures within { result ≡ 0 → (item.now.«data» ≤ place.new)
        × (place.new < data_end item.now) }
    ensures none { item.now.section ≢ 0 → result ≢ 0
        → LacksDataName message.now item.now index result }
    ensures unchanged { result ≢ 0 → place.new ≡ place.old }
{
    match data_name::data_name(message, item, index) {
        Ok(found) => {
            *place = found;
            0
        }
        Err(fault) => code::of_fault(fault),
    }
}

/// Writes the RDATA of a record with its names uncompressed, if it is the fields of its type: at most
/// 65,535 octets.
#[unsafe(no_mangle)]
pub extern "C" fn dnsm_data_octets(
    message: &[u8],
    item: &Item,
    out: &mut [u8],
    len: &mut usize,
) -> u32
    ensures writes { WritesOctets out.old out.new len.new result }
    ensures octets { result ≡ 0 → UncompressesTo message.now item.now (take len.new out.new) }
    ensures no_room { result ≡ number_of CallError.NoRoom
        → IsLonger (UncompressesTo message.now item.now) (length out.old) len.new }
    ensures short { result ≡ number_of CallError.NoRoom → length out.old < 65535 }
    ensures question { item.now.section ≡ 0 → result ≡ number_of CallError.BadSection }
    ensures none { item.now.section ≢ 0 → result ≢ 0 → result ≢ number_of CallError.NoRoom
        → LacksData message.now item.now result }
{
    match data_octets::data_octets(message, item, out) {
        Ok(end) => buffers::finish_octets(end, out, len),
        Err(fault) => buffers::refuse(fault, len),
    }
}

/// Checks that the RDATA of a record is that of its type.
#[unsafe(no_mangle)]
pub extern "C" fn dnsm_check_data(message: &[u8], item: &Item) -> u32
    ensures there { result ≡ 0 → (parts : List Part) × IsDataIn message.now item.now parts }
    ensures question { item.now.section ≡ 0 → result ≡ number_of CallError.BadSection }
    ensures none { item.now.section ≢ 0 → result ≢ 0 → LacksData message.now item.now result }
{
    match data_octets::check_data(message, item) {
        Ok(()) => 0,
        Err(fault) => code::of_fault(fault),
    }
}

/// Writes the name with this index in the RDATA of a record as text, with a dot after each label, and
/// a zero octet.
#[unsafe(no_mangle)]
pub extern "C" fn dnsm_data_name_text(
    message: &[u8],
    item: &Item,
    index: usize,
    out: &mut [u8],
    len: &mut usize,
) -> u32
    ensures writes { WritesText out.old out.new len.new result }
    ensures text { result ≡ 0 → (name : Labels) × IsNameInData message.now item.now index name
        × (take (len.new + 1) out.new ≡ name_text name ++ 46 ∷ 0 ∷ []) }
    ensures no_room { result ≡ number_of CallError.NoRoom → (name : Labels)
        × IsNameInData message.now item.now index name
        × (length out.old < length (name_text name) + 2)
        × (len.new ≡ length (name_text name) + 1) }
    ensures short { result ≡ number_of CallError.NoRoom → length out.old < 1005 }
    ensures question { item.now.section ≡ 0 → result ≡ number_of CallError.BadSection }
    ensures none { item.now.section ≢ 0 → result ≢ 0 → result ≢ number_of CallError.NoRoom
        → LacksDataName message.now item.now index result }
{
    match data_name::name_text(message, item, index, out) {
        Ok(end) => buffers::finish(end, out, len),
        Err(fault) => buffers::refuse(fault, len),
    }
}

/// Writes the name with this index in the RDATA of a record uncompressed: at most 255 octets.
#[unsafe(no_mangle)]
pub extern "C" fn dnsm_data_name_octets(
    message: &[u8],
    item: &Item,
    index: usize,
    out: &mut [u8],
    len: &mut usize,
) -> u32
    ensures writes { WritesOctets out.old out.new len.new result }
    ensures name { result ≡ 0 → (name : Labels) × IsNameInData message.now item.now index name
        × (take len.new out.new ≡ uncompressed name) }
    ensures no_room { result ≡ number_of CallError.NoRoom → (name : Labels)
        × IsNameInData message.now item.now index name
        × (length out.old < length (uncompressed name))
        × (len.new ≡ length (uncompressed name)) }
    ensures short { result ≡ number_of CallError.NoRoom → length out.old < 255 }
    ensures question { item.now.section ≡ 0 → result ≡ number_of CallError.BadSection }
    ensures none { item.now.section ≢ 0 → result ≢ 0 → result ≢ number_of CallError.NoRoom
        → LacksDataName message.now item.now index result }
{
    match data_name::name(message, item, index) {
        Ok(name) => buffers::hand_out(name.uncompressed().as_slice(), out, len),
        Err(fault) => buffers::refuse(fault, len),
    }
}

/// Reads the field with this index in the RDATA of a record, and adds one to the index. Returns 0
/// with a field, 1 after the last one, otherwise the number of the error.
#[unsafe(no_mangle)]
pub extern "C" fn dnsm_next_field(
    message: &[u8],
    item: &Item,
    index: &mut usize,
    field: &mut DataField,
) -> u32
    ensures field { result ≡ 0 → IsDataField message.now item.now index.old field.new }
    ensures next { result ≡ 0 → index.new ≡ index.old + 1 }
    ensures end { result ≡ 1 → HasEnded message.now item.now index.old }
    ensures question { item.now.section ≡ 0 → result ≡ number_of CallError.BadSection }
    ensures none { item.now.section ≢ 0 → result ≢ 0 → result ≢ 1
        → LacksData message.now item.now result }
    ensures unchanged { result ≢ 0 → (index.new ≡ index.old) × (field.new ≡ field.old) }
{
    code::of(next_field::next_field(message, item, index, field))
}
