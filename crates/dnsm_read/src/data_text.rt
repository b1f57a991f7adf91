//! The text of a record's RDATA.
ghost use Rattle.std.specs.Prelude.{◌≡◌, ◌≢◌, Err, IfOk, IfErr};
ghost use Rattle.dns_name.specs.Names.{fault_of};
ghost use Rattle.dns_data.specs.Printing.{opaque_text};
ghost use Rattle.fields_records.specs.DataTexts.{data_line};
ghost use Rattle.dns_item.specs.Items.{RecordEntry, RecordFaultAt};
ghost use Rattle.dns_item.specs.ParsedData.{HasSpan};
ghost use Rattle.dns_item.specs.ParsedRecord.{octets_of, parsed_entry, encoded_record};
ghost use Rattle.dnsm_status.specs.Codes.{number_of};
ghost use Rattle.dnsm_status.specs.CallerBuffers.{Holds};
ghost use Rattle.dnsm_read.specs.DataTexts.{NoRecordAt, RecordAt, data_octets, data_text};

use crate::walk::{Item, parser_at};
use dns_item::ParsedRecord;
use dns_octets::ParseError;
use dnsm_status::sink::{End, START, Sink};
use dnsm_status::{CallError, code};
use fields_records::{write_data_text, write_opaque};
use fields_table::FieldData;

/// Parses the record at offset `place`. Also returns its RDATA.
fn record_at(octets: &[u8], place: usize) -> Result<(ParsedRecord<'_>, &[u8]), ParseError>
    ensures octets { IfOk result (λ found. octets_of found.0 ≡ octets.now) }
    ensures found { IfOk result (λ found. RecordAt octets.now place (parsed_entry found.0)) }
    ensures span { IfOk result (λ found. HasSpan (encoded_record found.0)) }
    ensures opaque { IfOk result (λ found.
        found.1.now ≡ data_octets octets.now (parsed_entry found.0)) }
    ensures none { IfErr result (λ error. RecordFaultAt octets.now place (fault_of error)) }
{
    let mut parser = parser_at(octets, place)?;
    let found = ParsedRecord::parse(&mut parser)?;
    let end = parser.pos();
    let start = end - usize::from(found.rdlen());
    Ok((found, &octets[start..end]))
}

/// Writes RDATA by its fields.
fn write_fields(data: &FieldData<'_>, out: &mut [u8]) -> End
    ensures { Holds out.new (data_line «data».now) result }
{
    let mut sink = Sink { out, end: START };
    let Ok(()) = write_data_text(&mut sink, data) else {
        unreachable!()
    };
    sink.end
}

/// Writes RDATA as octets (RFC 3597 section 5).
fn write_octets(octets: &[u8], out: &mut [u8]) -> End
    ensures { Holds out.new (opaque_text octets.now) result }
{
    let mut sink = Sink { out, end: START };
    let Ok(()) = write_opaque(&mut sink, octets) else {
        unreachable!()
    };
    sink.end
}

/// Writes RDATA by its fields, or as octets if it is malformed.
fn write_data(found: &ParsedRecord<'_>, opaque: &[u8], out: &mut [u8]) -> End
    requires span { HasSpan (encoded_record found.now) }
    requires opaque { opaque.now ≡ data_octets (octets_of found.now) (parsed_entry found.now) }
    ensures { Holds out.new (data_text (octets_of found.now) (parsed_entry found.now)) result }
{
    match found.to_any_record::<FieldData<'_>>() {
        Ok(record) => write_fields(record.data(), out),
        Err(_) => write_octets(opaque, out),
    }
}

/// Writes the RDATA of a record. A question has none.
#[tactic(auto, using(dnsm_status::proofs::theory::FaultLemmas::reported_fields))]
pub fn data(octets: &[u8], item: &Item, out: &mut [u8]) -> Result<End, CallError>
    ensures question { item.now.section ≡ 0 → result ≡ Err CallError.BadSection }
    ensures text { IfOk result (λ end. (x : RecordEntry) × RecordAt octets.now item.now.place x
        × Holds out.new (data_text octets.now x) end) }
    ensures none { IfErr result (λ fault. item.now.section ≢ 0
        → NoRecordAt octets.now item.now.place (number_of fault)) }
{
    if item.section == 0 {
        return Err(CallError::BadSection);
    }
    match record_at(octets, item.place) {
        Ok((found, opaque)) => Ok(write_data(&found, opaque, out)),
        Err(error) => Err(code::of_error(error)),
    }
}
