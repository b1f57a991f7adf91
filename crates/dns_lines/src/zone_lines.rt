//! Prints the records of a message as lines of a zone file.
ghost use Rattle.std.specs.Prelude.{◌≡◌, None, Ok, OnOk};
ghost use Rattle.std.specs.Io.KnownBytes.{Appends};
ghost use Rattle.dns_item.specs.ParsedRecord.{encoded_record};
ghost use Rattle.dns_read.specs.Message.{message_octets};
ghost use Rattle.dns_lines.specs.Show.{HasShortData, IsRead};
ghost use Rattle.dns_lines.specs.ZoneLines.{covers_no_type, is_of_message, line_with, malformed_line, rdata_octets, record_lines, zone_lines};

use crate::record_lines::{RecordLines, print_records, section_word};
use dns_data::UnknownRecordData;
use dns_iana::Rtype;
use dns_item::ParsedRecord;
use dns_octets::ParseError;
use dns_read::{Message, Section};
use fields_plain::{ClassName, TypeName, ZoneName};
use fields_records::RecordText;
use fields_table::FieldData;
use std::io;
use std::io::Write;

/// Prints each record of the message as a line, in order: the owner with a final dot, the TTL in
/// seconds, the class, the type and the RDATA, separated by spaces.
///
/// Records that aren't data of a zone have no line: OPT (RFC 6891 section 6.1.1), TKEY (RFC 2930),
/// TSIG (RFC 8945), and SIG(0), which is SIG that covers the type 0 (RFC 2931). A line that begins
/// with `;;` says that a record is malformed, and ends its section; or that a section has no start,
/// and ends the output. Returns the error of `writer` if it fails.
pub fn print_zone_lines<W: Write>(writer: &mut W, message: &Message<&[u8]>) -> io::Result<()>
    ensures { OnOk result (Appends (W.contents writer.old) (W.contents writer.new)
        (zone_lines (message_octets message.now))) }
{
    print_records::<ZoneLines, W>(writer, message)
}

/// The lines of a zone file for records.
struct ZoneLines;

impl RecordLines for ZoneLines {
    ghost use Rattle.std.specs.Prelude.{IfOk, OnOk};
    ghost use Rattle.dns_lines.specs.ZoneLines.{item_lines, missing_line};

    ghost item_text = { item_lines };

    ghost missing_text = { missing_line };

    fn print_record<W: Write>(
        writer: &mut W,
        section: Section,
        parsed: Result<ParsedRecord<'_>, ParseError>,
    ) -> io::Result<()> {
        match parsed {
            Ok(parsed) => print_parsed(writer, &parsed),
            Err(_) => print_malformed(writer, section),
        }
    }

    fn print_missing<W: Write>(writer: &mut W, section: Section) -> io::Result<()> {
        let word = section_word(section);
        writeln!(writer, ";; the {word} section has no start")
    }
}

/// Prints the line of a record, but none for a record of one message.
fn print_parsed<W: Write>(writer: &mut W, parsed: &ParsedRecord<'_>) -> io::Result<()>
    requires read { IsRead (encoded_record parsed.now) }
    requires short { HasShortData (encoded_record parsed.now) }
    ensures { OnOk result (Appends (W.contents writer.old) (W.contents writer.new)
        (record_lines (encoded_record parsed.now))) }
{
    if is_of_message(parsed) {
        return Ok(());
    }
    match parsed.to_any_record::<FieldData<'_>>() {
        Ok(found) => writeln!(writer, "{}", RecordText(&found)),
        Err(_) => print_opaque(writer, parsed),
    }
}

/// Whether a record is of one message, and isn't data of a zone.
fn is_of_message(parsed: &ParsedRecord<'_>) -> bool
    requires read { IsRead (encoded_record parsed.now) }
    requires short { HasShortData (encoded_record parsed.now) }
    ensures { result ≡ is_of_message (encoded_record parsed.now) }
{
    let rtype = parsed.rtype();
    rtype == Rtype::OPT
        || rtype == Rtype::TKEY
        || rtype == Rtype::TSIG
        || (rtype == Rtype::SIG && covers_no_type(parsed))
}

/// Whether the RDATA begins with the type 0.
fn covers_no_type(parsed: &ParsedRecord<'_>) -> bool
    requires read { IsRead (encoded_record parsed.now) }
    requires short { HasShortData (encoded_record parsed.now) }
    ensures { result ≡ covers_no_type (rdata_octets (encoded_record parsed.now)) }
{
    let found = parsed.to_any_record::<UnknownRecordData<&[u8]>>().unwrap();
    begins_with_zeros(found.data().data())
}

/// Whether octets begin with two zero octets.
fn begins_with_zeros(octets: &[u8]) -> bool
    ensures { result ≡ covers_no_type octets.now }
{
    octets.starts_with(&[0, 0])
}

/// Prints the line of a record with its RDATA as octets.
fn print_opaque<W: Write>(writer: &mut W, parsed: &ParsedRecord<'_>) -> io::Result<()>
    requires read { IsRead (encoded_record parsed.now) }
    requires short { HasShortData (encoded_record parsed.now) }
    ensures { OnOk result (Appends (W.contents writer.old) (W.contents writer.new)
        (line_with (encoded_record parsed.now) None)) }
{
    let found = parsed.to_any_record::<UnknownRecordData<&[u8]>>().unwrap();
    let owner = ZoneName(*found.owner());
    let ttl = found.ttl().as_secs();
    let class = ClassName(found.class());
    let rtype = TypeName(found.rtype());
    let octets = found.data();
    writeln!(writer, "{owner} {ttl} {class} {rtype} {octets}")
}

/// Prints that a record is malformed.
fn print_malformed<W: Write>(writer: &mut W, section: Section) -> io::Result<()>
    ensures { OnOk result (Appends (W.contents writer.old) (W.contents writer.new)
        (malformed_line section)) }
{
    let word = section_word(section);
    writeln!(writer, ";; malformed record in the {word} section")
}
