//! A record as a JSON object (RFC 8427 sections 2.2 and 2.3).
ghost use Rattle.std.specs.Prelude.{◌∷◌, OnErr, Some, codes};
ghost use Rattle.json.specs.Json.{number};
ghost use Rattle.dns_item.specs.ParsedRecord.{encoded_record};
ghost use Rattle.dns_lines.specs.Show.{HasShortData, IsRead};
ghost use Rattle.dns_lines.specs.ZoneLines.{rdata_octets};
ghost use Rattle.dns_print.specs.Printing.{PrintsOnOk};
ghost use Rattle.fields_table.specs.Data.{parts_of, rtype_of};
ghost use Rattle.fields_records.specs.DataTexts.{data_line};
ghost use Rattle.json_print.specs.Texts.{json_text, member_text, members_text};
ghost use Rattle.dns_json.specs.Records.{presentation, presentation_of, rdata_members, record_json, text_members, ttl_text};

use crate::header::write_owner;
use crate::text::{HexText, RdataName, RdataText};
use dns_data::{RecordData, UnknownRecordData};
use dns_item::ParsedRecord;
use dns_print::{TextWriter, write_number};
use fields_records::is_printable;
use fields_table::FieldData;
use json_print::{write_member_name, write_number_member, write_string, write_string_member};
use std::fmt;

/// The bit that is set in a negative number of 32 bits.
const SIGN: u32 = 0x8000_0000;

/// The number of numbers of 32 bits.
const MODULUS: u64 = 0x1_0000_0000;

/// Prints a record as an object.
pub(crate) fn write_record<T: TextWriter>(writer: &mut T, parsed: &ParsedRecord<'_>) -> fmt::Result
    requires read { IsRead (encoded_record parsed.now) }
    requires short { HasShortData (encoded_record parsed.now) }
    ensures text { PrintsOnOk T.takes writer.old result
        (json_text (record_json (encoded_record parsed.now))) writer.new }
    ensures err { OnErr result T.MayFail }
{
    write_owner(writer, &parsed.owner(), parsed.rtype(), parsed.class())?;
    write_ttl_and_octets(writer, parsed)?;
    write_presentation(writer, parsed)?;
    writer.write_text("}")
}

/// Prints the member for the TTL.
fn write_ttl<T: TextWriter>(writer: &mut T, ttl: u32) -> fmt::Result
    ensures text { PrintsOnOk T.takes writer.old result
        (member_text (codes "TTL", number (ttl_text ttl))) writer.new }
    ensures err { OnErr result T.MayFail }
{
    write_member_name(writer, "TTL")?;
    write_signed(writer, ttl)
}

/// Prints 32 bits as a signed number.
#[tactic(auto, using(dns_print::proofs::theory::Prints::prints, crate::proofs::Numbers::ttl_positive, crate::proofs::Numbers::ttl_negative))]
fn write_signed<T: TextWriter>(writer: &mut T, bits: u32) -> fmt::Result
    ensures text { PrintsOnOk T.takes writer.old result (ttl_text bits) writer.new }
    ensures err { OnErr result T.MayFail }
{
    if bits < SIGN {
        return write_number(writer, u64::from(bits));
    }
    writer.write_text("-")?;
    write_number(writer, MODULUS - u64::from(bits))
}

/// Prints the members for the TTL and for the octets of the RDATA.
fn write_ttl_and_octets<T: TextWriter>(writer: &mut T, parsed: &ParsedRecord<'_>) -> fmt::Result
    requires read { IsRead (encoded_record parsed.now) }
    requires short { HasShortData (encoded_record parsed.now) }
    ensures text { let x = encoded_record parsed.now in PrintsOnOk T.takes writer.old result
        (members_text ((codes "TTL", number (ttl_text x.entry.ttl))
        ∷ rdata_members (rdata_octets x))) writer.new }
    ensures err { OnErr result T.MayFail }
{
    write_ttl(writer, parsed.ttl().as_secs())?;
    let found = parsed.to_any_record::<UnknownRecordData<&[u8]>>().unwrap();
    write_octets(writer, found.data().data())
}

/// Prints the members for the octets of RDATA.
fn write_octets<T: TextWriter>(writer: &mut T, octets: &[u8]) -> fmt::Result
    ensures text { PrintsOnOk T.takes writer.old result (members_text (rdata_members octets.now))
        writer.new }
    ensures err { OnErr result T.MayFail }
{
    write_number_member(writer, "RDLENGTH", octets.len() as u64)?;
    write_string_member(writer, "RDATAHEX", &HexText(octets))
}

/// Prints the member for RDATA in presentation format, if it has one.
fn write_presentation<T: TextWriter>(writer: &mut T, parsed: &ParsedRecord<'_>) -> fmt::Result
    requires read { IsRead (encoded_record parsed.now) }
    requires short { HasShortData (encoded_record parsed.now) }
    ensures text { let x = encoded_record parsed.now in PrintsOnOk T.takes writer.old result
        (members_text (text_members x.entry.rtype (presentation x))) writer.new }
    ensures err { OnErr result T.MayFail }
{
    match parsed.to_any_record::<FieldData<'_>>() {
        Ok(found) => write_if_printable(writer, found.data()),
        Err(_) => Ok(()),
    }
}

/// Prints the member for RDATA in presentation format, if each field has one.
fn write_if_printable<T: TextWriter>(writer: &mut T, data: &FieldData<'_>) -> fmt::Result
    ensures text { let rtype = rtype_of «data».now in PrintsOnOk T.takes writer.old result
        (members_text (text_members rtype (presentation_of rtype (parts_of «data».now))))
        writer.new }
    ensures err { OnErr result T.MayFail }
{
    if is_printable(data) {
        return write_data(writer, data);
    }
    Ok(())
}

/// Prints the member for RDATA whose text is that of its fields.
fn write_data<T: TextWriter>(writer: &mut T, data: &FieldData<'_>) -> fmt::Result
    ensures text { PrintsOnOk T.takes writer.old result
        (members_text (text_members (rtype_of «data».now) (Some (data_line «data».now))))
        writer.new }
    ensures err { OnErr result T.MayFail }
{
    writer.write_text(",")?;
    write_string(writer, &RdataName(data.rtype()))?;
    writer.write_text(":")?;
    write_string(writer, &RdataText(data))
}
