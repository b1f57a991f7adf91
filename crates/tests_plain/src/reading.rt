//! What octets hold: names (RFC 1035 section 4.1.4), entries and sections (section 4.1).
ghost use Rattle.std.specs.Prelude.{◌≡◌, ◌+◌, ◌<◌, ◌≤◌, length, map, OnOk, IfOk};
ghost use Rattle.std.specs.Int.{w16, w32};
ghost use Rattle.arrayvec.specs.ArrayVec.{array_vec_len};
ghost use Rattle.dns_name.specs.Names.{BeginsOrFails, max_size, Faulty, FaultAt, SkipFaulty, SkipFaultAt};
ghost use Rattle.dns_name.specs.Parsers.{number_at};
ghost use Rattle.dns_code.specs.HeaderSection.{header_size};
ghost use Rattle.dns_read.specs.Reading.{Skipped, StopsSkipping, Reading};
ghost use Rattle.dns_read.specs.Sections.{StartsAt, StartFault};
ghost use Rattle.tests_plain.specs.Plain.{Gives, faulted, NameIs, NameAfter, EndsWithin};
ghost use Rattle.tests_plain.specs.PlainEntries.{ShowsEntry, EntryFaultAt, SkipsEntry, EntrySkipFaultAt};

use arrayvec::ArrayVec;
use dns_name::Head;
use dns_octets::{FormError, ParseError};
use dns_read::Section;
use std::alloc::{AllocError, Global};

/// The uncompressed octets of a name.
pub type PlainName = ArrayVec<u8, 255>;

/// Returns what begins at an offset in a name whose labels so far take `size` octets (RFC 1035
/// section 4.1.4). A label that begins there keeps the name short enough, and is complete.
#[tactic(auto, unfolding(dns_name::specs::Names::head_at))]
fn head_at(octets: &[u8], offset: usize, size: usize) -> Result<Head, ParseError>
    requires { size ≤ max_size }
    ensures { BeginsOrFails octets.now offset size result }
{
    let first = *octets.get(offset).ok_or(ParseError::ShortInput)?;
    match first {
        0 => Ok(Head::Root),
        1..64 if size + usize::from(first) > 253 => Err(ParseError::Form(FormError::LONG_NAME)),
        1..64 if octets.len() - offset <= usize::from(first) => Err(ParseError::ShortInput),
        1..64 => Ok(Head::Label(first)),
        64..192 => Err(ParseError::Form(FormError::BAD_LABEL)),
        192.. => {
            let second = *octets.get(offset + 1).ok_or(ParseError::ShortInput)?;
            Ok(Head::Pointer(u16::from(first - 192) * 256 + u16::from(second)))
        }
    }
}

/// Appends the name at an offset to the labels before it.
fn name_after(octets: &[u8], offset: usize, mut labels: PlainName) -> Result<PlainName, ParseError>
    requires { array_vec_len labels ≤ max_size }
    ensures { Gives result (λ name. NameAfter octets.now offset labels.items name.items)
        (Faulty octets.now offset (array_vec_len labels)) }
{
    match head_at(octets, offset, labels.len())? {
        Head::Root => {
            labels.push(0);
            Ok(labels)
        }
        Head::Label(len) => {
            let end = offset + 1 + usize::from(len);
            labels.try_extend_from_slice(&octets[offset..end]).unwrap();
            name_after(octets, end, labels)
        }
        Head::Pointer(target) if usize::from(target) < offset => {
            name_after(octets, usize::from(target), labels)
        }
        Head::Pointer(_target) => Err(ParseError::Form(FormError::BAD_POINTER)),
    }
}

/// Returns the uncompressed name that is encoded at an offset, or its leftmost error.
pub fn name_at(octets: &[u8], offset: usize) -> Result<PlainName, ParseError>
    ensures { Gives result (λ name. NameIs octets.now offset name.items)
        (FaultAt octets.now offset) }
{
    name_after(octets, offset, ArrayVec::new())
}

/// Returns the offset after the encoding of a name whose labels so far take `size` octets.
fn end_after(octets: &[u8], offset: usize, size: usize) -> Result<usize, ParseError>
    requires { size ≤ max_size }
    ensures { Gives result (EndsWithin octets.now offset size) (SkipFaulty octets.now offset size) }
{
    match head_at(octets, offset, size)? {
        Head::Root => Ok(offset + 1),
        Head::Label(len) => {
            let taken = usize::from(len) + 1;
            end_after(octets, offset + taken, size + taken)
        }
        Head::Pointer(_target) => Ok(offset + 2),
    }
}

/// Returns the offset after the encoding of a name, or its leftmost error. No pointer is followed.
pub fn name_end(octets: &[u8], offset: usize) -> Result<usize, ParseError>
    ensures { Gives result (EndsWithin octets.now offset 0) (SkipFaultAt octets.now offset) }
{
    end_after(octets, offset, 0)
}

/// A question (RFC 1035 section 4.1.2), a record's header without its RDATA, or a record (4.1.3).
#[derive(Clone, Copy)]
pub enum EntryKind {
    Question,
    Header,
    Record,
}

/// An entry. `end` is the offset after it: of a record, that is after RDATA of `rdlen` octets. The
/// TTL is in seconds. Both numbers are 0 in a question.
#[derive(Drop)]
pub struct PlainEntry {
    pub name: PlainName,
    pub rtype: u16,
    pub class: u16,
    pub ttl: u32,
    pub rdlen: u16,
    pub end: usize,
}

/// Returns the number in the two octets at an offset.
fn u16_at(octets: &[u8], offset: usize) -> u16
    requires { offset + 2 ≤ length octets.now }
    ensures { result ≡ number_at w16 octets.now offset }
{
    u16::from_be_bytes([octets[offset], octets[offset + 1]])
}

/// Returns the number in the four octets at an offset.
fn u32_at(octets: &[u8], offset: usize) -> u32
    requires { offset + 4 ≤ length octets.now }
    ensures { result ≡ number_at w32 octets.now offset }
{
    let [first, second] = [octets[offset], octets[offset + 1]];
    u32::from_be_bytes([first, second, octets[offset + 2], octets[offset + 3]])
}

/// Returns the offset after the entry at an offset, or why it can't be skipped.
pub fn entry_end(octets: &[u8], kind: EntryKind, offset: usize) -> Result<usize, ParseError>
    ensures { Gives result (SkipsEntry kind octets.now offset)
        (EntrySkipFaultAt kind octets.now offset) }
{
    let after = name_end(octets, offset)?;
    let left = octets.len() - after;
    let size = match kind {
        EntryKind::Question => 4,
        EntryKind::Header => 10,
        EntryKind::Record if left < 10 => return Err(ParseError::ShortInput),
        EntryKind::Record => 10 + usize::from(u16_at(octets, after + 8)),
    };
    if left < size {
        return Err(ParseError::ShortInput);
    }
    Ok(after + size)
}

/// Returns the entry at an offset, or why there is none.
pub fn entry_at(octets: &[u8], kind: EntryKind, offset: usize) -> Result<PlainEntry, ParseError>
    ensures { Gives result (λ entry. ShowsEntry kind octets.now offset entry.end entry)
        (EntryFaultAt kind octets.now offset) }
{
    let name = name_at(octets, offset)?;
    let end = entry_end(octets, kind, offset)?;
    let after = name_end(octets, offset)?;
    let (ttl, rdlen) = match kind {
        EntryKind::Question => (0, 0),
        _ => (u32_at(octets, after + 4), u16_at(octets, after + 8)),
    };
    Ok(PlainEntry {
        name,
        rtype: u16_at(octets, after),
        class: u16_at(octets, after + 2),
        ttl,
        rdlen,
        end,
    })
}

/// Returns the offset after consecutive entries, or why one of them can't be skipped.
fn skip_all(octets: &[u8], kind: EntryKind, count: u16, offset: usize) -> Result<usize, ParseError>
    ensures { Gives result (Skipped (SkipsEntry kind octets.now) count offset)
        (StopsSkipping (SkipsEntry kind octets.now)
        (EntrySkipFaultAt kind octets.now) count offset) }
{
    if count == 0 {
        return Ok(offset);
    }
    skip_all(octets, kind, count - 1, entry_end(octets, kind, offset)?)
}

/// Returns the offset where a section of records starts, or why it has no start. The message has a
/// header section.
pub fn section_start(octets: &[u8], section: Section) -> Result<usize, ParseError>
    requires { header_size ≤ length octets.now }
    ensures { Gives result (StartsAt section octets.now) (StartFault section octets.now) }
{
    let (count, before) = match section {
        Section::Answer => return skip_all(octets, EntryKind::Question, u16_at(octets, 4), 12),
        Section::Authority => (u16_at(octets, 6), Section::Answer),
        Section::Additional => (u16_at(octets, 8), Section::Authority),
    };
    let start = section_start(octets, before)?;
    skip_all(octets, EntryKind::Record, count, start)
}

/// The entries of a section and, if one of them isn't readable, its error as the last item.
pub type Items = Result<Vec<Result<PlainEntry, ParseError>>, AllocError>;

/// Reads a section of `count` entries from an offset on.
pub fn entries(alloc: Global, octets: &[u8], kind: EntryKind, count: u16, offset: usize) -> Items
    ensures { IfOk result (λ items. Reading (ShowsEntry kind octets.now)
        (EntryFaultAt kind octets.now) count offset (map faulted items.items)) }
{
    if count == 0 {
        return Ok(Vec::new(alloc));
    }
    let entry = entry_at(octets, kind, offset);
    let mut items = match &entry {
        Ok(entry) => entries(alloc, octets, kind, count - 1, entry.end)?,
        Err(_error) => Vec::new(alloc),
    };
    items.insert(0, entry)?;
    Ok(items)
}
