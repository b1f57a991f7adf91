//! The sections of records as members of a message's JSON object (RFC 8427 section 2.1).
ghost use Rattle.std.specs.Prelude.{◌≡◌, ◌||◌, ◌++◌, false, is_ok, map, IfOk, OnErr, OnOk};
ghost use Rattle.std.specs.Fmt.{WritesInCalls};
ghost use Rattle.dns_item.specs.ParsedRecord.{encoded_record};
ghost use Rattle.dns_lines.specs.Show.{HasShortData, IsRead};
ghost use Rattle.dns_print.specs.Printing.{PrintsOnOk};
ghost use Rattle.dns_read.specs.Message.{message_octets};
ghost use Rattle.dns_read.specs.RecordSection.{record_result, records_left};
ghost use Rattle.json_print.specs.Texts.{comma_if, items_text, json_text, member_text, members_text};
ghost use Rattle.dns_json.specs.Cursors.{reading_left};
ghost use Rattle.dns_json.specs.Entries.{entries_json, entry_text, readable};
ghost use Rattle.dns_json.specs.Messages.{section_members, section_name, sections_members};
ghost use Rattle.dns_json.specs.Records.{record_json};

use crate::record::write_record;
use dns_item::ParsedRecord;
use dns_octets::ParseError;
use dns_print::TextWriter;
use dns_read::{Message, RecordSection, Section};
use json_print::{write_comma_if, write_member_name};
use std::fmt;

/// Prints the members for the sections of records that have a start.
pub(crate) fn write_sections<T: TextWriter>(writer: &mut T, message: &Message<&[u8]>) -> fmt::Result
    ensures text { PrintsOnOk T.takes writer.old result
        (members_text (sections_members (message_octets message.now))) writer.new }
    ensures err { OnErr result T.MayFail }
{
    write_section(writer, Section::Answer, message.answer())?;
    write_section(writer, Section::Authority, message.authority())?;
    write_section(writer, Section::Additional, message.additional())
}

/// Prints the member for a section, unless it has no start.
fn write_section<T: TextWriter>(
    writer: &mut T,
    section: Section,
    records: Result<RecordSection<'_>, ParseError>,
) -> fmt::Result
    ensures text { PrintsOnOk T.takes writer.old result
        (members_text (section_members section (reading_left records.entry))) writer.new }
    ensures err { OnErr result T.MayFail }
{
    match records {
        Ok(records) => write_records(writer, section, records),
        Err(_) => Ok(()),
    }
}

/// Prints the member for a section.
fn write_records<T: TextWriter>(
    writer: &mut T,
    section: Section,
    records: RecordSection<'_>,
) -> fmt::Result
    ensures text { PrintsOnOk T.takes writer.old result
        (member_text (section_name section, entries_json record_json (records_left records.entry)))
        writer.new }
    ensures err { OnErr result T.MayFail }
{
    write_member_name(writer, section_name(section))?;
    writer.write_text("[")?;
    write_each(writer, records)?;
    writer.write_text("]")
}

/// Prints each record that can be read, with commas between them.
fn write_each<T: TextWriter>(writer: &mut T, records: RecordSection<'_>) -> fmt::Result
    ensures text { PrintsOnOk T.takes writer.old result
        (items_text false (map record_json (readable (records_left records.entry)))) writer.new }
    ensures err { OnErr result T.MayFail }
{
    let mut records = records;
    let mut later = false;
    while let Some(parsed) = records.next() {
        later = write_item(writer, later, parsed)?;
    }
    Ok(())
}

/// Prints a record, after a comma if it follows another, and nothing for an error. Returns whether
/// the next record follows another.
fn write_item<T: TextWriter>(
    writer: &mut T,
    later: bool,
    parsed: Result<ParsedRecord<'_>, ParseError>,
) -> Result<bool, fmt::Error>
    requires read { IfOk parsed (λ r. IsRead (encoded_record r)) }
    requires short { IfOk parsed (λ r. HasShortData (encoded_record r)) }
    ensures text { OnOk result (WritesInCalls T.takes writer.old
        (entry_text record_json later (record_result parsed.entry)) writer.new) }
    ensures later { IfOk result (λ next. next ≡ (later || is_ok (record_result parsed.entry))) }
    ensures err { OnErr result T.MayFail }
{
    match parsed {
        Ok(parsed) => {
            write_next(writer, later, &parsed)?;
            Ok(true)
        }
        Err(_) => Ok(later),
    }
}

/// Prints a record as an object, after a comma if it follows another.
fn write_next<T: TextWriter>(writer: &mut T, later: bool, parsed: &ParsedRecord<'_>) -> fmt::Result
    requires read { IsRead (encoded_record parsed.now) }
    requires short { HasShortData (encoded_record parsed.now) }
    ensures text { PrintsOnOk T.takes writer.old result
        (comma_if later ++ json_text (record_json (encoded_record parsed.now))) writer.new }
    ensures err { OnErr result T.MayFail }
{
    write_comma_if(writer, later)?;
    write_record(writer, parsed)
}

/// The name of the member for a section.
fn section_name(section: Section) -> &'static str
    ensures { result.now ≡ section_name section }
{
    match section {
        Section::Answer => "answerRRs",
        Section::Authority => "authorityRRs",
        Section::Additional => "additionalRRs",
    }
}
