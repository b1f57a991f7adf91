//! What `tests_plain` reads of a message: names, entries and sections, as values that are copied and
//! compared.
use crate::hostile::buffer::Buffer;
use dns_read::Section;
use dns_wire::ParseError;
use std::alloc::Global;
use std::process::Abort;
use tests_plain::{EntryKind, PlainEntry, name_end, section_start};

/// What is encoded at an offset and the offset after it, or why it can't be read.
pub(crate) type Located<T> = Result<(T, usize), ParseError>;

/// The uncompressed name that is encoded at this offset, or its leftmost error.
pub(crate) fn name_at(octets: &[u8], offset: usize) -> Located<Buffer> {
    let name = tests_plain::name_at(octets, offset)?;
    Ok((Buffer::of(&name), name_end(octets, offset)?))
}

/// A question or a record. A question has no TTL and no RDATA.
#[derive(Clone, Copy, Debug, PartialEq, Eq)]
pub(crate) struct Entry {
    /// The uncompressed name.
    pub(crate) name: Buffer,
    pub(crate) rtype: u16,
    pub(crate) class: u16,
    pub(crate) ttl: u32,
    pub(crate) data: Buffer,
}

/// The header of a record: all but the RDATA, and its length in octets.
pub(crate) type Header = (Entry, u16);

/// An entry, and the offset after it. The RDATA is the last octets before that.
fn entry_of(octets: &[u8], entry: &PlainEntry) -> (Entry, usize) {
    let seen = octets.get(..entry.end).unwrap_or(b"");
    let start = seen.len().saturating_sub(usize::from(entry.rdlen));
    let copy = Entry {
        name: Buffer::of(&entry.name),
        rtype: entry.rtype,
        class: entry.class,
        ttl: entry.ttl,
        data: Buffer::of(seen.get(start..).unwrap_or(b"")),
    };
    (copy, entry.end)
}

/// The question or record at this offset.
pub(crate) fn entry_at(octets: &[u8], kind: EntryKind, offset: usize) -> Located<Entry> {
    let entry = tests_plain::entry_at(octets, kind, offset)?;
    Ok(entry_of(octets, &entry))
}

/// The record header at this offset.
pub(crate) fn header_at(octets: &[u8], offset: usize) -> Located<Header> {
    let header = tests_plain::entry_at(octets, EntryKind::Header, offset)?;
    let (entry, end) = entry_of(octets, &header);
    let data = Buffer::new();
    Ok(((Entry { data, ..entry }, header.rdlen), end))
}

/// The number of entries of a section by the header section: of questions in section 0, of records
/// in sections 1 to 3.
pub(crate) fn count(octets: &[u8], section: u8) -> u16 {
    match octets.chunks_exact(2).nth(usize::from(section) + 2) {
        Some([high, low]) => u16::from_be_bytes([*high, *low]),
        _ => 0,
    }
}

/// A section: where it starts, or why it doesn't; and its entries in order, up to the first that
/// can't be read.
#[derive(Drop)]
pub(crate) struct Part {
    pub(crate) start: Result<usize, ParseError>,
    pub(crate) items: Vec<Located<Entry>>,
}

/// What is read of a message, which has a name.
#[derive(Drop)]
pub(crate) struct Plain<'a> {
    pub(crate) name: &'a str,
    pub(crate) octets: &'a [u8],
    pub(crate) questions: Part,
    pub(crate) answers: Part,
    pub(crate) authorities: Part,
    pub(crate) additionals: Part,
}

/// An entry, without the offset after it.
pub(crate) fn entry_in(item: &Located<Entry>) -> Result<Entry, ParseError> {
    match item {
        Ok((entry, _)) => Ok(*entry),
        Err(error) => Err(*error),
    }
}

/// A section of this many entries.
fn part_of(
    rt: &impl Abort,
    alloc: Global,
    octets: &[u8],
    kind: EntryKind,
    count: u16,
    start: Result<usize, ParseError>,
) -> Part {
    let mut items = Vec::new(alloc);
    if let Ok(offset) = start {
        let entries = tests_plain::entries(alloc, octets, kind, count, offset);
        for entry in &entries.expect(rt, "memory") {
            let item = match entry {
                Ok(entry) => Ok(entry_of(octets, entry)),
                Err(error) => Err(*error),
            };
            items.push(item).expect(rt, "memory");
        }
    }
    Part { start, items }
}

impl<'a> Plain<'a> {
    pub(crate) fn of(rt: &impl Abort, alloc: Global, name: &'a str, octets: &'a [u8]) -> Self {
        assert!(rt; octets.len() >= 12);
        let answer = section_start(octets, Section::Answer);
        let authority = section_start(octets, Section::Authority);
        let additional = section_start(octets, Section::Additional);
        let [question, record] = [EntryKind::Question, EntryKind::Record];
        Plain {
            name,
            octets,
            questions: part_of(rt, alloc, octets, question, count(octets, 0), Ok(12)),
            answers: part_of(rt, alloc, octets, record, count(octets, 1), answer),
            authorities: part_of(rt, alloc, octets, record, count(octets, 2), authority),
            additionals: part_of(rt, alloc, octets, record, count(octets, 3), additional),
        }
    }
}
