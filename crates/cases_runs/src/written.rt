//! The messages that are written of the records of a case, as a transfer.
ghost use Rattle.std.specs.Prelude.{◌≤◌, length};

use crate::message::Call;
use crate::run::Run;
use dns_build::PushError;
use dns_iana::Rtype;
use dns_item::Record;
use dns_name::ParsedName;
use dns_read::Message;
use dns_target::TreeCompressor;
use dns_transfer_writer::{Difference, TransferWriter};
use fields_table::FieldData;
use std::alloc::{AllocError, Global};
use std::io;

/// A record of a zone.
type ZoneRecord<'a> = Record<ParsedName<'a>, FieldData<'a>>;

/// How often a writer is asked for the next message. A case has fewer.
const TIMES: u8 = 10;

/// The maximum length of a message, and after `=` the messages in response to the second one. All
/// records that are sent, but the last SOA record, are in the answer section of the first one.
pub(crate) fn written_shown(
    alloc: Global,
    run: &Run<'_>,
    call: Call,
    text: &str,
) -> io::Result<String> {
    let (number, _) = text.split_once(" =").unwrap_or((text, ""));
    let Ok(limit) = number.parse::<u16>() else {
        return Ok(String::from_str(alloc, "bad number")?);
    };
    let (Ok(message), Ok(query)) = (
        Message::from_slice(run.message.as_slice()),
        Message::from_slice(run.other.as_slice()),
    ) else {
        return Ok(String::from_str(alloc, "short message")?);
    };
    let records = records_of(alloc, &message)?;
    let Some((soa, others)) = records.as_slice().split_first() else {
        return Ok(String::from_str(alloc, "no record")?);
    };
    let mut shown = format!(in alloc; "{number} =")?;
    match call {
        Call::WritesZone => {
            let writer = TransferWriter::whole(&query, soa, others);
            write_messages(alloc, &mut shown, writer, limit)?;
        }
        _ => {
            let differences = differences_of(alloc, others)?;
            let writer = TransferWriter::changes(&query, soa, differences.as_slice());
            write_messages(alloc, &mut shown, writer, limit)?;
        }
    }
    Ok(shown)
}

/// The records in the answer section of a message.
fn records_of<'a>(
    alloc: Global,
    message: &'a Message<&'a [u8]>,
) -> Result<Vec<ZoneRecord<'a>>, AllocError> {
    let mut records = Vec::new(alloc);
    let Ok(section) = message.answer() else {
        return Ok(records);
    };
    for record in section.into_records::<FieldData<'a>>() {
        if let Ok(record) = record {
            records.push(record)?;
        }
    }
    Ok(records)
}

/// The differences that these records are.
fn differences_of<'a>(
    alloc: Global,
    records: &'a [ZoneRecord<'a>],
) -> Result<Vec<Difference<'a, ZoneRecord<'a>>>, AllocError> {
    let mut differences = Vec::new(alloc);
    let mut start = 0;
    for _ in 0..TIMES {
        let Some((difference, end)) = difference_at(records, start) else {
            return Ok(differences);
        };
        differences.push(difference)?;
        start = end;
    }
    Ok(differences)
}

/// The difference that begins at an index, and the index after it.
fn difference_at<'a>(
    records: &'a [ZoneRecord<'a>],
    start: usize,
) -> Option<(Difference<'a, ZoneRecord<'a>>, usize)> {
    let (old_soa, after) = records.get(start..)?.split_first()?;
    let (removed, after) = after.split_at(until_soa(after));
    let (new_soa, after) = after.split_first()?;
    let (added, after) = after.split_at(until_soa(after));
    let difference = Difference {
        old_soa,
        removed,
        new_soa,
        added,
    };
    Some((difference, records.len().saturating_sub(after.len())))
}

/// How many records come before the next SOA record.
fn until_soa(records: &[ZoneRecord<'_>]) -> usize
    ensures { result ≤ length records.now }
{
    for (index, record) in records.iter().enumerate() {
        if record.rtype() == Rtype::SOA {
            return index;
        }
    }
    records.len()
}

/// Writes the octets of all messages, or the error that ends them.
fn write_messages(
    alloc: Global,
    text: &mut String,
    writer: TransferWriter<'_, ZoneRecord<'_>>,
    limit: u16,
) -> Result<(), AllocError> {
    let mut writer = writer;
    for _ in 0..TIMES {
        let Some(message) = next_octets(alloc, &mut writer, limit) else {
            return Ok(());
        };
        match message {
            Ok(octets) => write_octets(alloc, text, octets.as_slice())?,
            Err(error) => return write!(text, " {error}"),
        }
    }
    Ok(())
}

/// The octets of the next message.
fn next_octets(
    alloc: Global,
    writer: &mut TransferWriter<'_, ZoneRecord<'_>>,
    limit: u16,
) -> Option<Result<Vec<u8>, PushError>> {
    let target = TreeCompressor::new(alloc, Vec::new(alloc));
    match writer.next_message(target, limit) {
        Some(Ok(builder)) => Some(Ok(builder.into_message().into_octets())),
        Some(Err(error)) => Some(Err(error)),
        None => None,
    }
}

/// Writes the octets of a message.
fn write_octets(alloc: Global, text: &mut String, octets: &[u8]) -> Result<(), AllocError> {
    let digits = hex::encode(alloc, octets)?;
    write!(text, " {digits}")
}
