//! Prints the steps of a transfer.
ghost use Rattle.std.specs.Prelude.{◌++◌, OnOk, codes};
ghost use Rattle.std.specs.Io.KnownBytes.{Appends};
ghost use Rattle.dns_message.specs.Data.{unknown_octets, unknown_rtype_of};
ghost use Rattle.dns_message.specs.Records.{encoded_record};
ghost use Rattle.dns_message.specs.Transfers.Steps.{step_result, step_said};
ghost use Rattle.example_transfer.specs.Printed.{octets_line, IsBeginText, IsRecordText, IsRemovedText, Prints, PrintsItem, PrintsStep};

use dns_message::data::UnknownRecordData;
use dns_message::fields::{ClassName, FieldData, RecordText, TypeName, ZoneName};
use dns_message::name::ParsedName;
use dns_message::record::{ParsedRecord, Record};
use dns_message::transfer::{Step, TransferError};
use std::io;
use std::io::Write;

/// Prints what an item is. An error has no text, as `finish` returns it. `kept` is the line that a
/// whole zone begins with, if it follows in place of changes.
pub(crate) fn print_item<W: Write>(
    writer: &mut W,
    by_ixfr: bool,
    kept: &mut Vec<u8>,
    item: &Result<Step<'_>, TransferError>,
) -> io::Result<()>
    ensures { OnOk result (PrintsItem by_ixfr kept.old.items (step_result item.now) kept.new.items
        (W.contents writer.old) (W.contents writer.new)) }
{
    match item {
        Ok(step) => print_step(writer, by_ixfr, kept, step),
        Err(_error) => Ok(()),
    }
}

/// Prints what a step does: the record that it adds or removes, or a comment.
fn print_step<W: Write>(
    writer: &mut W,
    by_ixfr: bool,
    kept: &mut Vec<u8>,
    step: &Step<'_>,
) -> io::Result<()>
    ensures { OnOk result (PrintsStep by_ixfr kept.old.items (step_said step.now) kept.new.items
        (W.contents writer.old) (W.contents writer.new)) }
{
    match step {
        Step::Begin(_serial, soa) => print_begin(writer, by_ixfr, kept, soa),
        Step::Add(record) => print_record(writer, record),
        Step::Remove(record) => print_removed(writer, record),
        Step::UpToDate(_serial) => writer.write_all(b"; up to date\n"),
        Step::FallsBackToAxfr => print_whole(writer, kept.as_slice()),
        Step::End(_serial) => Ok(()),
    }
}

/// Prints the line of the first SOA record, or keeps it: changes add the record themselves.
fn print_begin<W: Write>(
    writer: &mut W,
    by_ixfr: bool,
    kept: &mut Vec<u8>,
    soa: &ParsedRecord<'_>,
) -> io::Result<()>
    ensures { OnOk result (Prints (λ text. IsBeginText by_ixfr kept.old.items
        (encoded_record soa.now) text kept.new.items)
        (W.contents writer.old) (W.contents writer.new)) }
{
    if by_ixfr {
        kept.clear();
        print_record(kept, soa)
    } else {
        print_record(writer, soa)
    }
}

/// Prints that the whole zone follows, and its first line.
fn print_whole<W: Write>(writer: &mut W, kept: &[u8]) -> io::Result<()>
    ensures { OnOk result (Appends (W.contents writer.old) (W.contents writer.new)
        (codes "; the whole zone\n" ++ kept.now)) }
{
    writer.write_all(b"; the whole zone\n")?;
    writer.write_all(kept)
}

/// Prints the line of a record that is removed.
fn print_removed<W: Write>(writer: &mut W, record: &ParsedRecord<'_>) -> io::Result<()>
    ensures { OnOk result (Prints (IsRemovedText (encoded_record «record».now))
        (W.contents writer.old) (W.contents writer.new)) }
{
    writer.write_all(b"- ")?;
    print_record(writer, record)
}

/// Prints the line of a record. If its RDATA isn't the fields of its type, it prints as octets.
fn print_record<W: Write>(writer: &mut W, record: &ParsedRecord<'_>) -> io::Result<()>
    ensures { OnOk result (Prints (IsRecordText (encoded_record «record».now))
        (W.contents writer.old) (W.contents writer.new)) }
{
    if let Ok(record) = record.to_any_record::<FieldData<'_>>() {
        writeln!(writer, "{}", RecordText(&record))
    } else if let Ok(record) = record.to_any_record::<UnknownRecordData<&[u8]>>() {
        print_octets(writer, &record)
    } else {
        writer.write_all(b"; unreadable data\n")
    }
}

/// Prints the line of a record with its RDATA as octets.
fn print_octets<W: Write>(
    writer: &mut W,
    record: &Record<ParsedName<'_>, UnknownRecordData<&[u8]>>,
) -> io::Result<()>
    ensures { OnOk result (Appends (W.contents writer.old) (W.contents writer.new)
        (octets_line unknown_rtype_of unknown_octets «record».now)) }
{
    let owner = ZoneName(*record.owner());
    let ttl = record.ttl().as_secs();
    let class = ClassName(record.class());
    let rtype = TypeName(record.rtype());
    let octets = record.data();
    writeln!(writer, "{owner} {ttl} {class} {rtype} {octets}")
}
