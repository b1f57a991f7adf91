//! The steps of a transfer, to which the messages of a case are the response.
use crate::message::Call;
use crate::run::Run;
use arrayvec::ArrayVec;
use dns_data::UnknownRecordData;
use dns_iana::{Class, Serial};
use dns_item::ParsedRecord;
use dns_read::Message;
use dns_transfer::{Step, Steps, Transfer};
use dns_wire::Name;
use std::alloc::{AllocError, Global};

/// The ID of the query.
const ID: u16 = 0x1234;

/// How often the steps of a message are asked for the next one. A case has fewer.
const TIMES: u8 = 40;

/// What a query asks for, and after `=` what the messages of a case do.
pub(crate) fn transfer_shown(
    alloc: Global,
    run: &Run<'_>,
    call: Call,
    text: &str,
) -> Result<String, AllocError> {
    let (asked, _) = text.split_once(" =").unwrap_or((text, ""));
    let Some(transfer) = transfer_of(call, asked) else {
        return String::from_str(alloc, "bad query");
    };
    let mut shown = format!(in alloc; "{asked} = ")?;
    write_messages(&mut shown, run, transfer)?;
    Ok(shown)
}

/// The transfer that is asked for: the zone, or the known serial and the zone.
fn transfer_of(call: Call, asked: &str) -> Option<Transfer> {
    match call {
        Call::Axfr => Some(Transfer::axfr(ID, name_of(asked)?, Class::IN)),
        _ => {
            let (serial, zone) = asked.split_once(' ')?;
            let known = Serial::from_int(serial.parse::<u32>().ok()?);
            Some(Transfer::ixfr(ID, name_of(zone)?, Class::IN, known))
        }
    }
}

/// The name that a text spells, if it spells one.
fn name_of(text: &str) -> Option<Name<ArrayVec<u8, 255>>> {
    text.parse::<Name<ArrayVec<u8, 255>>>().ok()
}

/// Writes what the message of a case does, then what the second one does if there is one.
fn write_messages(text: &mut String, run: &Run<'_>, transfer: Transfer) -> Result<(), AllocError> {
    let Some(transfer) = write_message(text, run.message.as_slice(), transfer)? else {
        return Ok(());
    };
    if run.other.is_empty() {
        return write_end(text, transfer);
    }
    let Some(transfer) = write_message(text, run.other.as_slice(), transfer)? else {
        return Ok(());
    };
    write_end(text, transfer)
}

/// Writes that a transfer has ended, or why not.
fn write_end(text: &mut String, transfer: Transfer) -> Result<(), AllocError> {
    match transfer.end() {
        Ok(()) => text.push_str("ended"),
        Err(error) => write!(text, "{error}"),
    }
}

/// Writes what a message does. Returns the transfer after it, or `None` after an error.
fn write_message(
    text: &mut String,
    octets: &[u8],
    transfer: Transfer,
) -> Result<Option<Transfer>, AllocError> {
    let Ok(message) = Message::from_slice(octets) else {
        text.push_str("short message")?;
        return Ok(None);
    };
    match transfer.take(&message) {
        Ok(steps) => write_steps(text, steps),
        Err(error) => {
            write!(text, "{error}")?;
            Ok(None)
        }
    }
}

/// Writes steps, or the error that ends them. Returns the transfer after them.
fn write_steps(text: &mut String, mut steps: Steps<'_>) -> Result<Option<Transfer>, AllocError> {
    for _ in 0..TIMES {
        match steps.next() {
            Some(Ok(step)) => write_step(text, step)?,
            Some(Err(error)) => write!(text, "{error}")?,
            None => {}
        }
    }
    match steps.finish() {
        Ok(transfer) => Ok(Some(transfer)),
        Err(_) => Ok(None),
    }
}

/// Writes a step.
fn write_step(text: &mut String, step: Step<'_>) -> Result<(), AllocError> {
    match step {
        Step::Begin(serial, soa) => {
            write!(text, "begin {serial} ")?;
            write_record(text, "", &soa)
        }
        Step::UpToDate(serial) => write!(text, "up to date {serial}; "),
        Step::FallsBackToAxfr => text.push_str("falls back to AXFR; "),
        Step::Remove(shown) => write_record(text, "remove ", &shown),
        Step::Add(shown) => write_record(text, "add ", &shown),
        Step::End(serial) => write!(text, "end {serial}; "),
    }
}

/// Writes a word and a record with its RDATA as octets.
fn write_record(text: &mut String, word: &str, shown: &ParsedRecord<'_>) -> Result<(), AllocError> {
    match shown.to_any_record::<UnknownRecordData<&[u8]>>() {
        Ok(shown) => write!(text, "{word}{shown}; "),
        Err(error) => write!(text, "{word}{error}; "),
    }
}
