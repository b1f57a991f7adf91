//! Prints each record of a message, as a type says.
ghost use Rattle.std.specs.Prelude.{◌≡◌, OnOk, IfOk};
ghost use Rattle.std.specs.Io.KnownBytes.{Appends};
ghost use Rattle.std.specs.List.{flat_map};
ghost use Rattle.dns_read.specs.Message.{message_octets};
ghost use Rattle.dns_read.specs.RecordSection.{octets_of, records_left, BeginsSection};
ghost use Rattle.dns_read.specs.declared.section.Section.TheVariants.{Answer};
ghost use Rattle.dns_lines.specs.Show.{section_word, sections_text};
ghost use Rattle.dns_lines.specs.Walk.{SameNextFollows};

use dns_item::ParsedRecord;
use dns_octets::ParseError;
use dns_read::{Message, RecordSection, Section, following};
use std::io;
use std::io::Write;

/// How a record of a message prints, and what prints in place of one that is malformed, or of a
/// section that has no start.
pub trait RecordLines {
    ghost use Rattle.std.specs.Prelude.{ℕ, List, Result, OnOk, IfOk};
    ghost use Rattle.std.specs.Io.KnownBytes.{Appends};
    ghost use Rattle.dns_name.specs.Names.{Fault};
    ghost use Rattle.dns_item.specs.ParsedRecord.{EncodedRecord, encoded_record};
    ghost use Rattle.dns_read.specs.RecordSection.{record_result};
    ghost use Rattle.dns_read.specs.declared.section.Section.{Section};
    ghost use Rattle.dns_lines.specs.Show.{IsRead, HasShortData};

    /// The text of a record of a section, or of its error.
    ghost item_text: { Section → Result EncodedRecord Fault → List ℕ };

    /// The text in place of a section that has no start.
    ghost missing_text: { Section → List ℕ };

    /// Prints a record, or the error of one that is malformed.
    fn print_record<W: Write>(
        writer: &mut W,
        section: Section,
        parsed: Result<ParsedRecord<'_>, ParseError>,
    ) -> io::Result<()>
        requires read { IfOk parsed (λ r. IsRead (encoded_record r)) }
        requires short { IfOk parsed (λ r. HasShortData (encoded_record r)) }
        ensures { OnOk result (Appends (W.contents writer.old) (W.contents writer.new)
            (item_text section (record_result parsed.entry))) };

    /// Prints that a section has no start.
    fn print_missing<W: Write>(writer: &mut W, section: Section) -> io::Result<()>
        ensures { OnOk result (Appends (W.contents writer.old) (W.contents writer.new)
            (missing_text section)) };
}

/// Prints the records of all sections of a message, in order, as `L` says.
///
/// A section ends at its first malformed record. If a section has no start, nothing is printed
/// after that. Returns the error of `writer` if it fails.
pub fn print_records<L: RecordLines, W: Write>(
    writer: &mut W,
    message: &Message<&[u8]>,
) -> io::Result<()>
    ensures { OnOk result (Appends (W.contents writer.old) (W.contents writer.new)
        (sections_text L.item_text L.missing_text (message_octets message.now))) }
{
    match message.answer() {
        Ok(answer) => print_sections::<L, W>(writer, answer),
        Err(_) => L::print_missing(writer, Section::Answer),
    }
}

/// Prints the sections of records from the answer section on, up to the first that has no start.
pub(crate) fn print_sections<L: RecordLines, W: Write>(
    writer: &mut W,
    answer: RecordSection<'_>,
) -> io::Result<()>
    requires { BeginsSection Answer (octets_of answer) answer }
    ensures { OnOk result (Appends (W.contents writer.old) (W.contents writer.new)
        (sections_text L.item_text L.missing_text (octets_of answer.entry))) }
{
    let answer = print_section::<L, W>(writer, Section::Answer, answer)?;
    let Ok(authority) = following(answer) else {
        return L::print_missing(writer, Section::Authority);
    };
    let authority = print_section::<L, W>(writer, Section::Authority, authority)?;
    let Ok(additional) = following(authority) else {
        return L::print_missing(writer, Section::Additional);
    };
    print_section::<L, W>(writer, Section::Additional, additional)?;
    Ok(())
}

/// Prints each record, and the error of the first that is malformed. Returns the cursor after the
/// well-formed records, from which the next section follows.
fn print_section<'a, L: RecordLines, W: Write>(
    writer: &mut W,
    section: Section,
    records: RecordSection<'a>,
) -> io::Result<RecordSection<'a>>
    ensures printed { OnOk result (Appends (W.contents writer.old) (W.contents writer.new)
        (flat_map (L.item_text section) (records_left records.entry))) }
    ensures follows { IfOk result (SameNextFollows records.entry) }
{
    let mut records = records;
    let mut readable = records;
    while let Some(parsed) = records.next() {
        if parsed.is_ok() {
            readable = records;
        }
        L::print_record(writer, section, parsed)?;
    }
    Ok(readable)
}

/// The word for a section.
pub fn section_word(section: Section) -> &'static str
    ensures { result.now ≡ section_word section }
{
    match section {
        Section::Answer => "answer",
        Section::Authority => "authority",
        Section::Additional => "additional",
    }
}
