//! Iterates over a message with a cursor that the caller owns.
ghost use Rattle.std.specs.Prelude.{◌≡◌, ◌≢◌, ◌⊎◌, ◌+◌, ◌<◌, ◌≤◌, ℕ, length, true, Ok, Err, IfOk, IfErr, IfSome, IfNone, IsTrue};
ghost use Rattle.dns_name.specs.Names.{FaultAt, Labels, NameAt, NameEndsAt, fault_of};
ghost use Rattle.dns_name.specs.Unique.{EncodedName};
ghost use Rattle.dns_name.specs.ParsedName.{labels};
ghost use Rattle.dns_name.specs.Parsers as Parsers;
ghost use Rattle.dns_name.specs.Parsers.{seen};
ghost use Rattle.dns_code.specs.HeaderSection.{header_size};
ghost use Rattle.dns_item.specs.Questions.{QuestionFaultAt};
ghost use Rattle.dns_item.specs.Items.{RecordFaultAt, SkipsRecord};
ghost use Rattle.dns_item.specs.RecordHeader.{AreFieldsAt};
ghost use Rattle.dns_read.specs.Message.{message_octets};
ghost use Rattle.dnsm_status.specs.Codes.{number_of, IsReported};
ghost use Rattle.dnsm_read.specs.Names.{IsCachedOffset, LacksName, PointsBack};
ghost use Rattle.dnsm_read.specs.Steps.{left_from, EndsFrom, IsHeader, IsOpen, LeftIn, Opens, ReportsFields, SkipsEntry, Spans, ReturnsQuestion, ReturnsRecord, ReturnsEntry, Steps};
ghost use Rattle.dnsm_read.specs.Walk.{count_at};

use dns_code::HeaderSection;
use dns_item::{Question, RecordHeader};
use dns_name::{Head, ParsedName, Parser};
use dns_octets::ParseError;
use dns_read::Message;
use dnsm_status::{CallError, code};

/// A header and its counts.
#[repr(C)]
#[derive(Clone, Copy)]
pub struct Header {
    pub id: u16,
    /// The third and fourth octets of the header, big-endian.
    pub flags: u16,
    /// QDCOUNT, ANCOUNT, NSCOUNT and ARCOUNT.
    pub counts: [u16; 4],
    pub opcode: u8,
    pub rcode: u8,
}

/// A position in a message, which the caller owns.
#[repr(C)]
#[derive(Clone, Copy)]
pub struct Cursor {
    /// The offset at which the next item begins.
    pub place: usize,
    /// How many items of the section are still to come.
    pub left: u16,
    /// 0 is the question section; 1, 2 and 3 are answer, authority and additional.
    pub section: u8,
    /// 0, or the number of the error that ended the iteration.
    pub status: u32,
    /// 0, or the offset of a cached name, which was read. An owner that is only a pointer to it
    /// isn't read again.
    pub owner: u16,
}

/// A question or a record.
#[repr(C)]
#[derive(Clone, Copy)]
pub struct Item {
    /// The offset at which it begins, which is that of its name.
    pub place: usize,
    /// The offset of its RDATA.
    pub data: usize,
    pub ttl: u32,
    pub rtype: u16,
    pub class: u16,
    pub data_len: u16,
    /// 0 is the question section; 1, 2 and 3 are answer, authority and additional.
    pub section: u8,
}

/// The count of a section.
fn count_of(message: &Message<&[u8]>, section: u8) -> u16
    ensures { result ≡ count_at (message_octets message.now) section }
{
    let counts = message.header_counts();
    match section {
        0 => counts.qdcount(),
        1 => counts.ancount(),
        2 => counts.nscount(),
        _ => counts.arcount(),
    }
}

/// The header of a message, and its counts.
fn header_of(message: &Message<&[u8]>) -> Header
    ensures { IsHeader (message_octets message.now) result }
{
    let header = message.header();
    let fields = header.as_slice();
    let counts = message.header_counts();
    Header {
        id: header.id(),
        flags: u16::from_be_bytes([fields[2], fields[3]]),
        counts: [
            counts.qdcount(),
            counts.ancount(),
            counts.nscount(),
            counts.arcount(),
        ],
        opcode: header.opcode().to_int(),
        rcode: header.rcode().to_int(),
    }
}

/// Reads the header, and sets the cursor before the first question.
pub fn open(octets: &[u8], header: &mut Header, cursor: &mut Cursor) -> u32
    ensures opens { header_size ≤ length octets.now → (result ≡ 0)
        × Opens octets.now header.new cursor.new }
    ensures short { length octets.now < header_size → (result ≡ number_of CallError.ShortInput)
        × (cursor.new.status ≡ result) × (header.new ≡ header.old) }
{
    let Ok(message) = Message::from_slice(octets) else {
        let status = code::of_fault(CallError::ShortInput);
        *cursor = Cursor {
            place: 0,
            left: 0,
            section: 3,
            status,
            owner: 0,
        };
        return status;
    };
    *header = header_of(&message);
    *cursor = Cursor {
        place: HeaderSection::LEN,
        left: count_of(&message, 0),
        section: 0,
        status: 0,
        owner: 0,
    };
    0
}

/// Advances the cursor past sections that have no items left.
fn settle(message: &Message<&[u8]>, cursor: &mut Cursor)
    requires { cursor.old.section ≤ 3 }
    ensures same { left_from (message_octets message.now) cursor.new
        ≡ left_from (message_octets message.now) cursor.old }
    ensures section { cursor.new.section ≤ 3 }
    ensures last { cursor.new.left ≡ 0 → cursor.new.section ≡ 3 }
    ensures status { cursor.new.status ≡ cursor.old.status }
    ensures place { cursor.new.place ≡ cursor.old.place }
    ensures owner { cursor.new.owner ≡ cursor.old.owner }
    ensures left { LeftIn (message_octets message.now) cursor.old cursor.new.section
        cursor.new.left }
    ensures end { (end : ℕ) → EndsFrom (message_octets message.now) cursor.new end
        → EndsFrom (message_octets message.now) cursor.old end }
{
    while cursor.left == 0 && cursor.section < 3 {
        cursor.section += 1;
        cursor.left = count_of(message, cursor.section);
    }
}

/// A parser at offset `place`, or `ShortInput` if `place` is past the end.
#[tactic(auto, using(crate::proofs::WalkLemmas::past_end))]
pub(crate) fn parser_at(octets: &[u8], place: usize) -> Result<Parser<'_>, ParseError>
    ensures ok { IfOk result (λ parser. (seen parser ≡ octets.now)
        × (Parsers.offset parser ≡ place)) }
    ensures err { IfErr result (λ error. QuestionFaultAt octets.now place (fault_of error)
        × RecordFaultAt octets.now place (fault_of error)
        × FaultAt octets.now place (fault_of error)) }
{
    let mut parser = Parser::new(octets);
    parser.seek(place)?;
    Ok(parser)
}

/// Reads the question at offset `place`. Also returns the offset after it.
fn read_question(octets: &[u8], place: usize) -> Result<(Item, usize), ParseError>
    ensures returned { ReturnsQuestion octets.now place result }
    ensures spans { IfOk result (λ found. Spans found.0 place found.1) }
{
    let mut parser = parser_at(octets, place)?;
    let question = Question::parse(&mut parser)?;
    let item = Item {
        place,
        data: parser.pos(),
        ttl: 0,
        rtype: question.qtype().to_int(),
        class: question.qclass().to_int(),
        data_len: 0,
        section: 0,
    };
    Ok((item, parser.pos()))
}

/// Reads the record of `section` at offset `place`. Also returns the offset after it.
pub fn read_record(octets: &[u8], section: u8, place: usize) -> Result<(Item, usize), ParseError>
    ensures returned { ReturnsRecord octets.now section place result }
    ensures spans { IfOk result (λ found. Spans found.0 place found.1) }
{
    let mut parser = parser_at(octets, place)?;
    let header = RecordHeader::parse_and_skip(&mut parser)?;
    let item = Item {
        place,
        data: parser.pos() - usize::from(header.rdlen()),
        ttl: header.ttl().as_secs(),
        rtype: header.rtype().to_int(),
        class: header.class().to_int(),
        data_len: header.rdlen(),
        section,
    };
    Ok((item, parser.pos()))
}

/// The offset that a name leads back to, if it is only a pointer.
fn pointer_at(octets: &[u8], place: usize) -> Option<u16>
    ensures { IfSome result (λ target. PointsBack octets.now place target) }
{
    let Ok(Head::Pointer(target)) = Head::at(octets, place) else {
        return None;
    };
    if usize::from(target) < place {
        Some(target)
    } else {
        None
    }
}

/// Whether a pointer leads to the cached name of a cursor.
fn leads_to_cached(pointer: Option<u16>, cursor: &Cursor) -> bool
    ensures { IsTrue result → (pointer ≡ Some cursor.now.owner) × (cursor.now.owner ≢ 0) }
{
    match pointer {
        Some(target) => target != 0 && target == cursor.owner,
        None => false,
    }
}

/// The type, the class, the TTL and RDLENGTH of a record, which follow its owner.
fn fields_at(octets: &[u8], owner_end: usize) -> (u16, u16, u32, u16)
    requires { owner_end + 10 ≤ length octets.now }
    ensures { AreFieldsAt octets.now owner_end result.0 result.1 result.2 result.3 }
{
    let fields = &octets[owner_end..owner_end + 10];
    let rtype = u16::from_be_bytes([fields[0], fields[1]]);
    let class = u16::from_be_bytes([fields[2], fields[3]]);
    let ttl = u32::from_be_bytes([fields[4], fields[5], fields[6], fields[7]]);
    let data_len = u16::from_be_bytes([fields[8], fields[9]]);
    (rtype, class, ttl, data_len)
}

/// Reads the record of `section` at offset `place`, whose owner is only a pointer, which isn't
/// followed. Also returns the offset after it.
fn read_after_pointer(octets: &[u8], section: u8, place: usize) -> Result<(Item, usize), ParseError>
    requires { (target : ℕ) × PointsBack octets.now place target }
    ensures returned { EncodedName octets.now place
        → ReturnsRecord octets.now section place result }
    ensures skips { IfOk result (λ found. SkipsRecord octets.now place found.1) }
    ensures place { IfOk result (λ found. Spans found.0 place found.1
        × (found.0.section ≡ section)) }
    ensures fields { IfOk result (λ found. ReportsFields octets.now found.0) }
    ensures reported { IfErr result (λ error. IsReported (fault_of error)) }
{
    let owner_end = place + 2;
    let start = owner_end + 10;
    if start > octets.len() {
        return Err(ParseError::ShortInput);
    }
    let (rtype, class, ttl, data_len) = fields_at(octets, owner_end);
    let end = start + usize::from(data_len);
    if end > octets.len() {
        return Err(ParseError::ShortInput);
    }
    let item = Item {
        place,
        data: start,
        ttl,
        rtype,
        class,
        data_len,
        section,
    };
    Ok((item, end))
}

/// Reads the record at the cursor, but not an owner that is cached. `pointer` is where the owner
/// leads, if it is only a pointer. Also returns the offset after the record.
fn read_record_at(
    octets: &[u8],
    cursor: &Cursor,
    pointer: Option<u16>,
) -> Result<(Item, usize), ParseError>
    requires { IfSome pointer (λ target. PointsBack octets.now cursor.now.place target) }
    ensures returned { IsCachedOffset octets.now cursor.now.owner
        → ReturnsRecord octets.now cursor.now.section cursor.now.place result }
    ensures skips { IfOk result (λ found. SkipsRecord octets.now cursor.now.place found.1) }
    ensures place { IfOk result (λ found. Spans found.0 cursor.now.place found.1
        × (found.0.section ≡ cursor.now.section)) }
    ensures fields { IfOk result (λ found. ReportsFields octets.now found.0) }
    ensures reported { IfErr result (λ error. IsReported (fault_of error)) }
{
    if leads_to_cached(pointer, cursor) {
        read_after_pointer(octets, cursor.section, cursor.place)
    } else {
        read_record(octets, cursor.section, cursor.place)
    }
}

/// The offset to cache once the entry at the cursor was read: that of its name, or the one that the
/// name leads to if it is only a pointer. No pointer leads to an offset past its range.
fn cached_after(pointer: Option<u16>, cursor: &Cursor) -> u16
    ensures pointed { IfSome pointer (λ target. result ≡ target) }
    ensures own { IfNone pointer ((result ≡ cursor.now.place) ⊎ (result ≡ cursor.now.owner)) }
{
    match pointer {
        Some(target) => target,
        None if cursor.place < Head::POINTER_END => cursor.place as u16,
        None => cursor.owner,
    }
}

/// Reads the entry at the cursor. `pointer` is where its name leads, if it is only a pointer. Also
/// returns the offset after the entry.
fn read(octets: &[u8], cursor: &Cursor, pointer: Option<u16>) -> Result<(Item, usize), ParseError>
    requires section { cursor.now.section ≤ 3 }
    requires pointer { IfSome pointer (λ target. PointsBack octets.now cursor.now.place target) }
    ensures entry { IsCachedOffset octets.now cursor.now.owner
        → ReturnsEntry octets.now cursor.now result }
    ensures within { IfOk result (λ found. found.0.«data» + found.0.data_len ≤ length octets.now) }
    ensures place { IfOk result (λ found. Spans found.0 cursor.now.place found.1
        × (found.0.section ≡ cursor.now.section)) }
    ensures skips { IfOk result (λ found.
        SkipsEntry octets.now cursor.now.section cursor.now.place found.1) }
    ensures fields { IfOk result (λ found. 1 ≤ cursor.now.section
        → ReportsFields octets.now found.0) }
    ensures reported { IfErr result (λ error. IsReported (fault_of error)) }
{
    if cursor.section == 0 {
        read_question(octets, cursor.place)
    } else {
        read_record_at(octets, cursor, pointer)
    }
}

/// Reads the next item. Returns `Ok(false)` if there is none.
pub fn next(octets: &[u8], cursor: &mut Cursor, item: &mut Item) -> Result<bool, CallError>
    ensures steps { IsOpen octets.now cursor.old
        → Steps octets.now cursor.old cursor.new item.new result }
    ensures within { IfOk result (λ given. given ≡ true
        → item.new.«data» + item.new.data_len ≤ length octets.now) }
    ensures place { IfOk result (λ given. given ≡ true
        → Spans item.new cursor.old.place cursor.new.place
        × (item.new.section ≡ cursor.new.section)) }
    ensures fields { IfOk result (λ given. given ≡ true → 1 ≤ item.new.section
        → ReportsFields octets.now item.new) }
    ensures left { IfOk result (λ given. given ≡ true
        → LeftIn octets.now cursor.old cursor.new.section (cursor.new.left + 1)) }
    ensures goes_on { IfOk result (λ given. given ≡ true → (end : ℕ)
        → EndsFrom octets.now cursor.new end → EndsFrom octets.now cursor.old end) }
    ensures end { IfOk result (λ given. given ≢ true
        → EndsFrom octets.now cursor.old cursor.new.place) }
    ensures stopped { result ≢ Ok true → cursor.new.place ≡ cursor.old.place }
    ensures settled { result ≢ Ok true
        → LeftIn octets.now cursor.old cursor.new.section cursor.new.left }
    ensures no_section { 3 < cursor.old.section → (result ≡ Err CallError.BadSection)
        × (cursor.new ≡ cursor.old) }
    ensures short { cursor.old.section ≤ 3 → length octets.now < header_size
        → (result ≡ Err CallError.ShortInput) × (cursor.new ≡ cursor.old) }
    ensures no_item { result ≢ Ok true → item.new ≡ item.old }
{
    if cursor.section > 3 {
        return Err(CallError::BadSection);
    }
    let message = Message::from_slice(octets)?;
    settle(&message, cursor);
    if cursor.left == 0 {
        return Ok(false);
    }
    let pointer = pointer_at(octets, cursor.place);
    match read(octets, cursor, pointer) {
        Ok((read, after)) => {
            let owner = cached_after(pointer, cursor);
            *item = read;
            cursor.owner = owner;
            cursor.place = after;
            cursor.left -= 1;
            Ok(true)
        }
        Err(error) => {
            let fault = code::of_error(error);
            cursor.status = code::of_fault(fault);
            Err(fault)
        }
    }
}

/// Parses the name at offset `place`. Also returns the offset after it.
fn parse_name(octets: &[u8], place: usize) -> Result<(ParsedName<'_>, usize), ParseError>
    ensures name { IfOk result (λ found. NameAt octets.now place (labels found.0)) }
    ensures end { IfOk result (λ found. NameEndsAt octets.now place found.1) }
    ensures none { IfErr result (λ error. FaultAt octets.now place (fault_of error)) }
{
    let mut parser = parser_at(octets, place)?;
    let name = ParsedName::parse(&mut parser)?;
    Ok((name, parser.pos()))
}

/// The name at offset `place`.
#[tactic(auto, using(dnsm_status::proofs::theory::FaultLemmas::reported_name))]
pub fn name_at(octets: &[u8], place: usize) -> Result<ParsedName<'_>, CallError>
    ensures name { IfOk result (λ name. NameAt octets.now place (labels name)) }
    ensures none { IfErr result (λ fault. LacksName octets.now place (number_of fault)) }
{
    match parse_name(octets, place) {
        Ok((name, _)) => Ok(name),
        Err(error) => Err(code::of_error(error)),
    }
}

/// The offset after the name at offset `place`.
#[tactic(auto, using(dnsm_status::proofs::theory::FaultLemmas::reported_name))]
pub fn name_end(octets: &[u8], place: usize) -> Result<usize, CallError>
    ensures end { IfOk result (λ end. NameEndsAt octets.now place end) }
    ensures name { IfOk result (λ end. (name : Labels) × NameAt octets.now place name) }
    ensures none { IfErr result (λ fault. LacksName octets.now place (number_of fault)) }
{
    match parse_name(octets, place) {
        Ok((_, end)) => Ok(end),
        Err(error) => Err(code::of_error(error)),
    }
}
