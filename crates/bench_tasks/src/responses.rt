//! Responses as their receivers take them: judged, read from a stream, as steps of a transfer, and
//! printed.
use arrayvec::ArrayVec;
use dns_iana::Class;
use dns_json::MessageJson;
use dns_name::Name;
use dns_read::Message;
use dns_reply::{Reply, reply_to};
use dns_stream::StreamReader;
use dns_transfer::{Step, Transfer};
use std::alloc::Global;
use std::fmt::Write;

/// More messages than one piece of a stream completes.
const MOST: usize = 1_000;

/// Judges a reply to a query `rounds` times, as a server that resolves does. Returns the TTL of its
/// answer, or `None` if it isn't one.
pub(crate) fn judge(query: &[u8], reply: &[u8], rounds: usize) -> Option<usize> {
    let query = Message::from_octets(query).ok()?;
    let reply = Message::from_octets(reply).ok()?;
    let root = Name::root_slice();
    let mut ttl = 0;
    for _ in 0..rounds {
        match reply_to(&query, &reply, &root) {
            Ok(Reply::Answer(answer)) => ttl = answer.ttl().as_secs(),
            _ => return None,
        }
    }
    Some(ttl as usize)
}

/// Prints a message as JSON `rounds` times. Returns the length of the text, or `None` if the octets
/// are no message, or an allocation fails.
pub(crate) fn print(alloc: Global, octets: &[u8], rounds: usize) -> Option<usize> {
    let message = Message::from_octets(octets).ok()?;
    let mut text = String::new(alloc);
    for _ in 0..rounds {
        text.clear();
        write!(text, "{}", MessageJson(&message)).ok()?;
    }
    Some(text.len())
}

/// Takes messages from a stream that comes in pieces of 1,460 octets, `rounds` times. Returns their
/// number the last time, or `None` if one is malformed, or an allocation fails.
pub(crate) fn receive(alloc: Global, stream: &[u8], rounds: usize) -> Option<usize> {
    let mut reader = StreamReader::new(alloc, 65_537);
    let mut count = 0;
    for _ in 0..rounds {
        count = received(&mut reader, stream)?;
    }
    Some(count)
}

/// Takes the messages of a stream once. Returns their number.
fn received(reader: &mut StreamReader, stream: &[u8]) -> Option<usize> {
    let mut count: usize = 0;
    let mut rest = stream;
    while !rest.is_empty() {
        let (piece, later) = rest.split_at(rest.len().min(1_460));
        reader.push(piece).ok()?;
        count = count.saturating_add(taken(reader)?);
        rest = later;
    }
    Some(count)
}

/// Takes the messages that are complete. Returns their number, or `None` if one is malformed.
fn taken(reader: &mut StreamReader) -> Option<usize> {
    for count in 0..MOST {
        match reader.next() {
            Ok(Some(_)) => {}
            Ok(None) => return Some(count),
            Err(_) => return None,
        }
    }
    None
}

/// Takes a transfer of the zone `sub.example.com` by a query with ID 0x1234. Its messages are `soa`,
/// `times` times `records`, and `soa` again. Returns the number of records that are added, or `None`
/// if a message isn't the next one.
pub(crate) fn transfer(soa: &[u8], records: &[u8], times: usize) -> Option<usize> {
    let soa = Message::from_octets(soa).ok()?;
    let records = Message::from_octets(records).ok()?;
    let zone = "sub.example.com".parse::<Name<ArrayVec<u8, 255>>>().ok()?;
    let mut count: usize = 0;
    let (mut transfer, _) = after(Transfer::axfr(0x1234, zone, Class::IN), &soa)?;
    for _ in 0..times {
        let (next, added) = after(transfer, &records)?;
        transfer = next;
        count = count.saturating_add(added);
    }
    let (transfer, _) = after(transfer, &soa)?;
    if transfer.has_ended() {
        Some(count)
    } else {
        None
    }
}

/// The transfer after a message, and how many records this adds. `None` if it isn't the next one.
fn after(transfer: Transfer, message: &Message<&[u8]>) -> Option<(Transfer, usize)> {
    let mut steps = transfer.take(message).ok()?;
    let mut added: usize = 0;
    for step in &mut steps {
        if let Ok(Step::Add(_)) = step {
            added = added.saturating_add(1);
        }
    }
    Some((steps.finish().ok()?, added))
}
