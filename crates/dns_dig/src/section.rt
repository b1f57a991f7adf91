//! The sections of records.
ghost use Rattle.std.specs.Prelude.{◌≡◌, ◌&&◌, IfOk, None, Ok, OnErr, OnOk, Some};
ghost use Rattle.std.specs.Fmt.{WritesInCalls};
ghost use Rattle.dns_item.specs.ParsedRecord.{encoded_record};
ghost use Rattle.dns_lines.specs.Show.{HasShortData, IsRead};
ghost use Rattle.dns_lines.specs.ZoneLines.{malformed_line, missing_line};
ghost use Rattle.dns_print.specs.Printing.{PrintsOnOk};
ghost use Rattle.dns_read.specs.RecordSection.{record_result, records_left};
ghost use Rattle.dns_json.specs.Cursors.{reading_left};
ghost use Rattle.dns_dig.specs.Lines.{begun_after, line_text, lines_text};
ghost use Rattle.dns_dig.specs.Records.{record_line};
ghost use Rattle.dns_dig.specs.Sections.{is_additional, is_elsewhere, is_opt_item, item_lines, query_heading, record_heading, records_text, section_lines, section_text, signs, update_heading};

use crate::line::{write_end, write_heading};
use crate::opt::is_opt_item;
use crate::record::write_record;
use crate::signature::Signature;
use dns_iana::Opcode;
use dns_item::ParsedRecord;
use dns_lines::section_word;
use dns_octets::ParseError;
use dns_print::TextWriter;
use dns_read::{RecordSection, Section};
use std::fmt;

/// Prints a section of records.
pub(crate) fn write_records<T: TextWriter>(
    writer: &mut T,
    opcode: Opcode,
    section: Section,
    records: Result<RecordSection<'_>, ParseError>,
) -> fmt::Result
    ensures text { PrintsOnOk T.takes writer.old result
        (records_text opcode section (reading_left records.entry)) writer.new }
    ensures err { OnErr result T.MayFail }
{
    let heading = record_heading(opcode, section);
    match records {
        Ok(records) => write_each(writer, heading, section, records),
        Err(_) => write_missing(writer, heading, section),
    }
}

/// The heading of a section.
fn record_heading(opcode: Opcode, section: Section) -> &'static str
    ensures { result.now ≡ record_heading opcode section }
{
    if opcode == Opcode::UPDATE {
        update_heading(section)
    } else {
        query_heading(section)
    }
}

/// The heading of a section of an update.
fn update_heading(section: Section) -> &'static str
    ensures { result.now ≡ update_heading section }
{
    match section {
        Section::Answer => ";; PREREQUISITE SECTION:\n",
        Section::Authority => ";; UPDATE SECTION:\n",
        Section::Additional => ";; ADDITIONAL SECTION:\n",
    }
}

/// The heading of a section of any other message.
fn query_heading(section: Section) -> &'static str
    ensures { result.now ≡ query_heading section }
{
    match section {
        Section::Answer => ";; ANSWER SECTION:\n",
        Section::Authority => ";; AUTHORITY SECTION:\n",
        Section::Additional => ";; ADDITIONAL SECTION:\n",
    }
}

/// Prints the lines of a section, below its heading if there are any. The first OPT record of the
/// additional section has none.
fn write_each<T: TextWriter>(
    writer: &mut T,
    heading: &str,
    section: Section,
    records: RecordSection<'_>,
) -> fmt::Result
    ensures text { PrintsOnOk T.takes writer.old result
        (section_text heading.now (section_lines section (Some (records_left records.entry))))
        writer.new }
    ensures err { OnErr result T.MayFail }
{
    let mut records = records;
    let mut begun = false;
    let mut elsewhere = is_additional(section);
    while let Some(parsed) = records.next() {
        if is_printed_before(elsewhere, &parsed) {
            elsewhere = false;
        } else {
            begun = write_item(writer, heading, begun, section, parsed)?;
        }
    }
    write_end(writer, begun)
}

/// Whether a section is the additional one, whose first OPT record is printed elsewhere.
fn is_additional(section: Section) -> bool
    ensures { result ≡ is_additional section }
{
    match section {
        Section::Additional => true,
        Section::Answer | Section::Authority => false,
    }
}

/// Whether an item is an OPT record, which is printed elsewhere.
fn is_printed_before(elsewhere: bool, parsed: &Result<ParsedRecord<'_>, ParseError>) -> bool
    requires read { IfOk parsed.now (λ r. IsRead (encoded_record r)) }
    requires short { IfOk parsed.now (λ r. HasShortData (encoded_record r)) }
    ensures { result ≡ (elsewhere && is_opt_item (record_result parsed.now)) }
{
    elsewhere && is_opt_item(parsed)
}

/// Prints the line of a record or of an error, if it has one, after the heading if it is the first.
/// Returns whether the heading is printed.
fn write_item<T: TextWriter>(
    writer: &mut T,
    heading: &str,
    begun: bool,
    section: Section,
    parsed: Result<ParsedRecord<'_>, ParseError>,
) -> Result<bool, fmt::Error>
    requires read { IfOk parsed (λ r. IsRead (encoded_record r)) }
    requires short { IfOk parsed (λ r. HasShortData (encoded_record r)) }
    ensures text { OnOk result (WritesInCalls T.takes writer.old (lines_text heading.now begun
        (item_lines section (record_result parsed.entry))) writer.new) }
    ensures begun { IfOk result (λ next. next
        ≡ begun_after begun (item_lines section (record_result parsed.entry))) }
    ensures err { OnErr result T.MayFail }
{
    match parsed {
        Ok(parsed) => write_unless_elsewhere(writer, heading, begun, section, &parsed),
        Err(_) => {
            write_malformed(writer, heading, begun, section)?;
            Ok(true)
        }
    }
}

/// Prints the line of a record, unless it is printed elsewhere. Returns whether the heading is
/// printed.
fn write_unless_elsewhere<T: TextWriter>(
    writer: &mut T,
    heading: &str,
    begun: bool,
    section: Section,
    parsed: &ParsedRecord<'_>,
) -> Result<bool, fmt::Error>
    requires read { IsRead (encoded_record parsed.now) }
    requires short { HasShortData (encoded_record parsed.now) }
    ensures text { OnOk result (WritesInCalls T.takes writer.old (lines_text heading.now begun
        (item_lines section (Ok (encoded_record parsed.now)))) writer.new) }
    ensures begun { IfOk result (λ next. next
        ≡ begun_after begun (item_lines section (Ok (encoded_record parsed.now)))) }
    ensures err { OnErr result T.MayFail }
{
    if is_elsewhere(section, parsed) {
        return Ok(begun);
    }
    write_line(writer, heading, begun, parsed)?;
    Ok(true)
}

/// Whether a record is printed elsewhere.
fn is_elsewhere(section: Section, parsed: &ParsedRecord<'_>) -> bool
    requires read { IsRead (encoded_record parsed.now) }
    requires short { HasShortData (encoded_record parsed.now) }
    ensures { result ≡ is_elsewhere section (encoded_record parsed.now) }
{
    match section {
        Section::Additional => signs(parsed),
        Section::Answer | Section::Authority => false,
    }
}

/// Whether a record signs the message.
fn signs(parsed: &ParsedRecord<'_>) -> bool
    requires read { IsRead (encoded_record parsed.now) }
    requires short { HasShortData (encoded_record parsed.now) }
    ensures { result ≡ signs (encoded_record parsed.now) }
{
    Signature::Tsig.is_of(parsed) || Signature::Sig0.is_of(parsed)
}

/// Prints the line of a record, after the heading if it is the first.
fn write_line<T: TextWriter>(
    writer: &mut T,
    heading: &str,
    begun: bool,
    parsed: &ParsedRecord<'_>,
) -> fmt::Result
    requires read { IsRead (encoded_record parsed.now) }
    requires short { HasShortData (encoded_record parsed.now) }
    ensures text { PrintsOnOk T.takes writer.old result
        (line_text heading.now begun (record_line (encoded_record parsed.now))) writer.new }
    ensures err { OnErr result T.MayFail }
{
    write_heading(writer, heading, begun)?;
    write_record(writer, parsed)
}

/// Prints that a record is malformed, after the heading if that is the first line.
fn write_malformed<T: TextWriter>(
    writer: &mut T,
    heading: &str,
    begun: bool,
    section: Section,
) -> fmt::Result
    ensures text { PrintsOnOk T.takes writer.old result
        (line_text heading.now begun (malformed_line section)) writer.new }
    ensures err { OnErr result T.MayFail }
{
    write_heading(writer, heading, begun)?;
    writer.write_text(";; malformed record in the ")?;
    writer.write_text(section_word(section))?;
    writer.write_text(" section\n")
}

/// Prints that a section has no start, below its heading.
fn write_missing<T: TextWriter>(writer: &mut T, heading: &str, section: Section) -> fmt::Result
    ensures text { PrintsOnOk T.takes writer.old result
        (section_text heading.now (section_lines section None)) writer.new }
    ensures err { OnErr result T.MayFail }
{
    writer.write_text(heading)?;
    write_missing_line(writer, section)?;
    writer.write_text("\n")
}

/// Prints that a section has no start.
fn write_missing_line<T: TextWriter>(writer: &mut T, section: Section) -> fmt::Result
    ensures text { PrintsOnOk T.takes writer.old result (missing_line section) writer.new }
    ensures err { OnErr result T.MayFail }
{
    writer.write_text(";; the ")?;
    writer.write_text(section_word(section))?;
    writer.write_text(" section has no start\n")
}
