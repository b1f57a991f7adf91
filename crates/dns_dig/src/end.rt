//! Octets after a message.
ghost use Rattle.std.specs.Prelude.{◌≡◌};
ghost use Rattle.dns_read.specs.Message.{message_octets};
ghost use Rattle.dns_read.specs.RecordSection.{position, records_left};
ghost use Rattle.dns_dig.specs.Header.{end_of, extra_octets, message_end};

use dns_read::{Message, RecordSection};

/// The number of octets after a message, 0 if one of its additional records can't be read.
pub(crate) fn extra_octets(message: &Message<&[u8]>) -> usize
    ensures { result ≡ extra_octets (message_octets message.now) }
{
    match message_end(message) {
        Some(end) => message.as_slice().len().saturating_sub(end),
        None => 0,
    }
}

/// Where a message ends: after its additional section.
fn message_end(message: &Message<&[u8]>) -> Option<usize>
    ensures { result ≡ message_end (message_octets message.now) }
{
    match message.additional() {
        Ok(records) => end_of(records),
        Err(_) => None,
    }
}

/// Where the records of a section end.
fn end_of(records: RecordSection<'_>) -> Option<usize>
    ensures { result ≡ end_of (position records.entry) (records_left records.entry) }
{
    let mut records = records;
    while let Some(parsed) = records.next() {
        if !parsed.is_ok() {
            return None;
        }
    }
    Some(records.pos())
}
