//! Reads messages with a cursor, and compares a response with its query.
ghost use Rattle.std.specs.Prelude.{◌≡◌, ◌≢◌, ◌<◌, ◌≤◌, ◌+◌, ℕ, length};
ghost use Rattle.dns_code.specs.HeaderSection.{header_size};
ghost use Rattle.dnsm_status.specs.Codes.{number_of};
ghost use Rattle.dnsm_read.specs.Responses.{Answers, LacksAnswer};
ghost use Rattle.dnsm_read.specs.Steps.{EndsFrom, IsOpen, LeftIn, Opens, ReportsFields, Spans, GivesNext};

use dnsm_read::{Cursor, Header, Item, answers, walk};
use dnsm_status::{CallError, code};

/// Reads the header, and sets the cursor before the first question.
#[unsafe(no_mangle)]
pub extern "C" fn dnsm_open(message: &[u8], header: &mut Header, cursor: &mut Cursor) -> u32
    ensures opens { header_size ≤ length message.now → (result ≡ 0)
        × Opens message.now header.new cursor.new }
    ensures short { length message.now < header_size → (result ≡ number_of CallError.ShortInput)
        × (cursor.new.status ≡ result) × (header.new ≡ header.old) }
{
    walk::open(message, header, cursor)
}

/// Reads the next question or record. Returns 0 with an item, 1 past the last one, otherwise the
/// number of the error; later calls return the same error again. At the end `place` is the offset
/// after the last item.
#[unsafe(no_mangle)]
pub extern "C" fn dnsm_next(message: &[u8], cursor: &mut Cursor, item: &mut Item) -> u32
    ensures gives { IsOpen message.now cursor.old
        → GivesNext message.now cursor.old cursor.new item.new result }
    ensures within { result ≡ 0 → item.new.«data» + item.new.data_len ≤ length message.now }
    ensures place { result ≡ 0 → Spans item.new cursor.old.place cursor.new.place
        × (item.new.section ≡ cursor.new.section) }
    ensures kept { cursor.old.status ≢ 0 → (result ≡ cursor.old.status)
        × (cursor.new ≡ cursor.old) }
    ensures goes_on { cursor.old.status ≡ 0 → result ≡ 0 → (end : ℕ)
        → EndsFrom message.now cursor.new end → EndsFrom message.now cursor.old end }
    ensures end { cursor.old.status ≡ 0 → result ≡ 1
        → EndsFrom message.now cursor.old cursor.new.place }
    ensures fields { result ≡ 0 → 1 ≤ item.new.section → ReportsFields message.now item.new }
    ensures left { result ≡ 0
        → LeftIn message.now cursor.old cursor.new.section (cursor.new.left + 1) }
    ensures stopped { result ≢ 0 → cursor.new.place ≡ cursor.old.place }
    ensures settled { result ≢ 0
        → LeftIn message.now cursor.old cursor.new.section cursor.new.left }
    ensures no_section { cursor.old.status ≡ 0 → 3 < cursor.old.section
        → (result ≡ number_of CallError.BadSection) × (cursor.new ≡ cursor.old) }
    ensures short { cursor.old.status ≡ 0 → cursor.old.section ≤ 3
        → length message.now < header_size
        → (result ≡ number_of CallError.ShortInput) × (cursor.new ≡ cursor.old) }
    ensures no_item { result ≢ 0 → item.new ≡ item.old }
{
    if cursor.status != 0 {
        return cursor.status;
    }
    code::of(walk::next(message, cursor, item))
}

/// Checks that a response answers a query: QR is set, and its ID, its opcode and its questions are
/// those of the query. Names are compared ASCII case-insensitively.
#[unsafe(no_mangle)]
pub extern "C" fn dnsm_answers(query: &[u8], response: &[u8]) -> u32
    ensures answers { result ≡ 0 → Answers query.now response.now }
    ensures accepted { Answers query.now response.now → result ≡ 0 }
    ensures none { result ≢ 0 → LacksAnswer query.now response.now result }
{
    match answers::answers(query, response) {
        Ok(()) => 0,
        Err(fault) => code::of_fault(fault),
    }
}
