//! The line of a record (RFC 1035 section 5.1).
ghost use Rattle.std.specs.Prelude.{◌++◌, None, OnErr, decimal};
ghost use Rattle.dns_item.specs.ParsedRecord.{encoded_record};
ghost use Rattle.dns_lines.specs.Show.{HasShortData, IsRead};
ghost use Rattle.dns_name.specs.ParsedName.{labels};
ghost use Rattle.dns_print.specs.Printing.{PrintsOnOk};
ghost use Rattle.fields_plain.specs.TypeNames.{class_word, type_word};
ghost use Rattle.fields_records.specs.RdataTexts.{rdata_text};
ghost use Rattle.dns_dig.specs.Columns.{gap};
ghost use Rattle.dns_dig.specs.Records.{record_data, record_front, record_line};

use crate::column::{end_in, write_gap};
use crate::count::{class_length, name_length, number_length, type_length};
use dns_data::UnknownRecordData;
use dns_iana::{Class, Rtype};
use dns_item::ParsedRecord;
use dns_name::ParsedName;
use dns_print::{TextWriter, write_number};
use fields_plain::{write_class_name, write_type_name, write_zone_name};
use fields_records::{write_data_text, write_opaque};
use fields_table::FieldData;
use std::fmt;

/// Prints the line of a record.
pub(crate) fn write_record<T: TextWriter>(writer: &mut T, parsed: &ParsedRecord<'_>) -> fmt::Result
    requires read { IsRead (encoded_record parsed.now) }
    requires short { HasShortData (encoded_record parsed.now) }
    ensures text { PrintsOnOk T.takes writer.old result (record_line (encoded_record parsed.now))
        writer.new }
    ensures err { OnErr result T.MayFail }
{
    let ttl = parsed.ttl().as_secs();
    write_front(writer, &parsed.owner(), ttl, parsed.class(), parsed.rtype())?;
    write_data(writer, parsed)?;
    writer.write_text("\n")
}

/// Prints the owner, the TTL, the class and the type, and what precedes the RDATA.
fn write_front<T: TextWriter>(
    writer: &mut T,
    owner: &ParsedName<'_>,
    ttl: u32,
    class: Class,
    rtype: Rtype,
) -> fmt::Result
    ensures text { PrintsOnOk T.takes writer.old result
        (record_front (labels owner.now) ttl class rtype) writer.new }
    ensures err { OnErr result T.MayFail }
{
    let owner_end = name_length(owner);
    let ttl_end = end_in(owner_end, 24, number_length(ttl));
    let class_end = end_in(ttl_end, 32, class_length(class));
    let type_end = end_in(class_end, 40, type_length(rtype));
    write_zone_name(writer, owner)?;
    write_ttl(writer, owner_end, ttl)?;
    write_class_and_type(writer, ttl_end, class, class_end, rtype)?;
    write_gap(writer, type_end, 48)
}

/// Prints a TTL in its column.
#[tactic(auto, using(dns_print::proofs::theory::Prints::prints, std::proofs::lemmas::Grind::common_steps))]
fn write_ttl<T: TextWriter>(writer: &mut T, from: usize, ttl: u32) -> fmt::Result
    ensures text { PrintsOnOk T.takes writer.old result (gap from 24 ++ decimal ttl) writer.new }
    ensures err { OnErr result T.MayFail }
{
    write_gap(writer, from, 24)?;
    write_number(writer, u64::from(ttl))
}

/// Prints a class and a type in their columns.
#[tactic(auto, using(dns_print::proofs::theory::Prints::prints, std::proofs::lemmas::Grind::common_steps))]
pub(crate) fn write_class_and_type<T: TextWriter>(
    writer: &mut T,
    class_from: usize,
    class: Class,
    type_from: usize,
    rtype: Rtype,
) -> fmt::Result
    ensures text { PrintsOnOk T.takes writer.old result (gap class_from 32
        ++ (class_word class ++ (gap type_from 40 ++ type_word rtype))) writer.new }
    ensures err { OnErr result T.MayFail }
{
    write_gap(writer, class_from, 32)?;
    write_class_name(writer, class)?;
    write_gap(writer, type_from, 40)?;
    write_type_name(writer, rtype)
}

/// Prints the RDATA of a record: its fields if it is well-formed, else its octets.
fn write_data<T: TextWriter>(writer: &mut T, parsed: &ParsedRecord<'_>) -> fmt::Result
    requires read { IsRead (encoded_record parsed.now) }
    requires short { HasShortData (encoded_record parsed.now) }
    ensures text { PrintsOnOk T.takes writer.old result (record_data (encoded_record parsed.now))
        writer.new }
    ensures err { OnErr result T.MayFail }
{
    match parsed.to_any_record::<FieldData<'_>>() {
        Ok(found) => write_data_text(writer, found.data()),
        Err(_) => write_octets(writer, parsed),
    }
}

/// Prints the RDATA of a record as octets.
fn write_octets<T: TextWriter>(writer: &mut T, parsed: &ParsedRecord<'_>) -> fmt::Result
    requires read { IsRead (encoded_record parsed.now) }
    requires short { HasShortData (encoded_record parsed.now) }
    ensures text { PrintsOnOk T.takes writer.old result
        (rdata_text (encoded_record parsed.now) None) writer.new }
    ensures err { OnErr result T.MayFail }
{
    let found = parsed.to_any_record::<UnknownRecordData<&[u8]>>().unwrap();
    write_opaque(writer, found.data().data())
}
