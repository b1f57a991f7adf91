//! Builds messages item by item in the caller's buffer.
ghost use Rattle.std.specs.Prelude.{◌≡◌, ◌≢◌, ◌⊎◌, ◌<◌, ◌≤◌, ◌+◌, ◌&&◌, ◌==◌, length, take, replicate, true};
ghost use Rattle.std.specs.List.{All};
ghost use Rattle.dns_code.specs.HeaderSection.{header_size};
ghost use Rattle.dns_octets.specs.Octets.{overwritten};
ghost use Rattle.dns_build.specs.State.{State, with_header, up_to, InBuilder};
ghost use Rattle.dns_build.specs.MessageOf.{ReadsBack, PointsToLabels};
ghost use Rattle.dnsm_put.specs.Items.{Means};
ghost use Rattle.dnsm_put.specs.Drafts.{Adds, DraftsStay, IsDraftOf, header_of as draft_header, header_octets_of};
ghost use Rattle.dnsm_put.specs.Copies.{AddsFrom, IsItemIn, IsRefusedFrom};
ghost use Rattle.dnsm_put.specs.Refusals.{IsAcceptable, IsRefused, put_fault};
ghost use Rattle.dnsm_put.specs.Responding.{RefusesQuery, Responds};
ghost use Rattle.dnsm_put.specs.Sets.{AddsAll, IsLeftOut, LeavesOut};
ghost use Rattle.dnsm_put.specs.Responses.{BeginsResponse, IsUnanswered, ReportsNumber};
ghost use Rattle.dnsm_put.specs.declared.draft.Draft.{Draft};
ghost use Rattle.dnsm_put.specs.declared.draft.PutError.{PutError};
ghost use Rattle.dnsm_put.specs.declared.response.ResponseError.{ResponseError};
ghost use Rattle.dnsm_status.specs.Codes.{number_of};

use dnsm_put::{Draft, PutItem};
use dnsm_read::{Item, Opt};
use dnsm_status::{CallError, code};

/// Begins a message without items, limit, reserved octets or hints. Writes nothing to the buffer.
#[unsafe(no_mangle)]
pub extern "C" fn dnsm_begin(draft: &mut Draft, out: &mut [u8], id: u16, flags: u16) -> u32
    ensures begun { result ≡ 0 → (s : State) → IsDraftOf out.old draft.new (up_to InBuilder s) }
    ensures header { result ≡ 0 → (draft.new.id ≡ id) × (draft.new.flags ≡ flags) }
    ensures settings { result ≡ 0 → (draft.new.limit ≡ usize.MAX) × (draft.new.reserved ≡ 0)
        × (draft.new.unchecked ≡ 0) }
    ensures section { result ≡ 0 → draft.new.section ≡ 0 }
    ensures hints { result ≡ 0 → draft.new.hints ≡ replicate 64 0 }
    ensures no_room { result ≢ 0 → (result ≡ number_of CallError.NoRoom)
        × (length out.old < header_size) × (draft.new ≡ draft.old) }
    ensures same { out.new ≡ out.old }
{
    match dnsm_put::begin(draft, out, id, flags) {
        Ok(()) => 0,
        Err(error) => code::of_fault(error.into()),
    }
}

/// Begins the response to a query, with the query's question and no other item: its ID, opcode, RD
/// and CD, QR set, the low four bits of `rcode`, and no other flag. There is no limit, no octet is
/// reserved, and RDATA is checked. The query needs exactly one question, which can be read.
#[unsafe(no_mangle)]
pub extern "C" fn dnsm_begin_response(
    draft: &mut Draft,
    out: &mut [u8],
    query: &[u8],
    rcode: u16,
) -> u32
    ensures begins { result ≡ 0 → BeginsResponse query.now rcode out.new draft.new }
    ensures settings { result ≡ 0 → (draft.new.limit ≡ usize.MAX) × (draft.new.reserved ≡ 0)
        × (draft.new.unchecked ≡ 0) }
    ensures section { result ≡ 0 → draft.new.section ≡ 0 }
    ensures refused { result ≢ 0 → (error : ResponseError) × ReportsNumber error result
        × IsUnanswered query.now (length out.old) error }
    ensures same { result ≢ 0 → (draft.new ≡ draft.old) × (out.new ≡ out.old) }
    ensures length { length out.new ≡ length out.old }
{
    match dnsm_put::begin_response(draft, out, query, rcode) {
        Ok(()) => 0,
        Err(error) => code::of_fault(error.into()),
    }
}

/// Begins the response to any query, with its question if it has exactly one, which can be read: its
/// ID, opcode, RD and CD, QR set, the low four bits of the rcode, and no other flag. `rcode` is the
/// one that is wanted, and is set to that of the response. `opt` is set to what the OPT record of the
/// response says, for which octets are reserved; it is all 0 if the query has none.
#[unsafe(no_mangle)]
pub extern "C" fn dnsm_respond(
    draft: &mut Draft,
    out: &mut [u8],
    query: &[u8],
    rcode: &mut u16,
    opt: &mut Opt,
) -> u32
    ensures responds { result ≡ 0
        → Responds query.now rcode.old out.new draft.new rcode.new opt.new }
    ensures settings { result ≡ 0 → (draft.new.limit ≡ usize.MAX) × (draft.new.unchecked ≡ 0) }
    ensures section { result ≡ 0 → draft.new.section ≡ 0 }
    ensures refused { result ≢ 0 → (error : ResponseError) × ReportsNumber error result
        × RefusesQuery query.now (length out.old) error }
    ensures same { result ≢ 0 → (draft.new ≡ draft.old) × (out.new ≡ out.old) }
    ensures unchanged { result ≢ 0 → (rcode.new ≡ rcode.old) × (opt.new ≡ opt.old) }
    ensures length { length out.new ≡ length out.old }
{
    match dnsm_put::respond(draft, out, query, *rcode) {
        Ok((said, fields)) => {
            *rcode = said;
            *opt = fields;
            0
        }
        Err(error) => code::of_fault(error.into()),
    }
}

/// Appends all items of a set, or none. Then the draft is as before, but TC is set if there is no
/// room for a required set (RFC 2181 section 9). Once TC is set no set goes in. On an error the
/// octets of the buffer after the message may have changed.
#[unsafe(no_mangle)]
pub extern "C" fn dnsm_put_set(
    draft: &mut Draft,
    out: &mut [u8],
    items: &[PutItem<'_>],
    required: bool,
) -> u32
    ensures adds { result ≡ 0 → AddsAll out.old out.new draft.old draft.new items.now }
    ensures means { result ≡ 0 → All Means items.now }
    ensures room { result ≡ 0 → 0 < length items.now
        → (draft.new.len + draft.old.reserved ≤ length out.old)
        × (draft.new.len + draft.old.reserved ≤ draft.old.limit) }
    ensures settings { result ≡ 0 → draft.new ≡ record draft.old {
      len = draft.new.len;
      counts = draft.new.counts;
      section = draft.new.section;
      hints = draft.new.hints;
    } }
    ensures truncated { (draft_header draft.old).tc ≡ true → result ≡ number_of CallError.NoRoom }
    ensures refused { result ≢ 0 → (error : PutError) × (result ≡ number_of (put_fault error))
        × LeavesOut out.old draft.old items.now error }
    ensures left_out { result ≢ 0 → IsLeftOut
        (required && (result == number_of CallError.NoRoom)) draft.old draft.new }
    ensures length { length out.new ≡ length out.old }
    ensures kept { take draft.old.len out.new ≡ take draft.old.len out.old }
    ensures stay { DraftsStay out.old out.new draft.old.len }
{
    match dnsm_put::put_set(draft, out, items, required) {
        Ok(()) => 0,
        Err(error) => code::of_fault(error.into()),
    }
}

/// Appends an item to the message. On an error the octets of the buffer after the message may have
/// changed.
#[unsafe(no_mangle)]
pub extern "C" fn dnsm_put(draft: &mut Draft, out: &mut [u8], item: &PutItem<'_>) -> u32
    ensures adds { result ≡ 0 → Adds out.old out.new draft.old draft.new item.now }
    ensures means { result ≡ 0 → Means item.now }
    ensures room { result ≡ 0 → (draft.new.len + draft.old.reserved ≤ length out.old)
        × (draft.new.len + draft.old.reserved ≤ draft.old.limit) }
    ensures section { result ≡ 0 → draft.new.section ≡ item.now.section }
    ensures acceptable { result ≡ 0 → IsAcceptable draft.old item.now }
    ensures refused { result ≢ 0 → (error : PutError) × (result ≡ number_of (put_fault error))
        × IsRefused draft.old (length out.old) item.now error }
    ensures settings { (draft.new.id ≡ draft.old.id) × (draft.new.flags ≡ draft.old.flags)
        × (draft.new.limit ≡ draft.old.limit) × (draft.new.reserved ≡ draft.old.reserved)
        × (draft.new.unchecked ≡ draft.old.unchecked) }
    ensures same { result ≢ 0 → (draft.new.len ≡ draft.old.len)
        × (draft.new.counts ≡ draft.old.counts) × (draft.new.section ≡ draft.old.section) }
    ensures length { length out.new ≡ length out.old }
    ensures kept { take draft.old.len out.new ≡ take draft.old.len out.old }
    ensures stay { DraftsStay out.old out.new draft.old.len }
{
    match dnsm_put::put(draft, out, item) {
        Ok(()) => 0,
        Err(error) => code::of_fault(error.into()),
    }
}

/// Appends an item of another message, as `dnsm_next` gave it: the name at its offset, its type and
/// class, and its TTL, in its section. TTL and section may have been changed. Names are compressed
/// anew. On an error the octets of the buffer after the message may have changed.
#[unsafe(no_mangle)]
pub extern "C" fn dnsm_put_from(
    draft: &mut Draft,
    out: &mut [u8],
    message: &[u8],
    item: &Item,
) -> u32
    ensures adds { result ≡ 0
        → AddsFrom out.old out.new draft.old draft.new message.now item.now }
    ensures means { result ≡ 0 → IsItemIn message.now item.now }
    ensures room { result ≡ 0 → (draft.new.len + draft.old.reserved ≤ length out.old)
        × (draft.new.len + draft.old.reserved ≤ draft.old.limit) }
    ensures section { result ≡ 0 → draft.new.section ≡ item.now.section }
    ensures refused { result ≢ 0 → (error : PutError) × (result ≡ number_of (put_fault error))
        × IsRefusedFrom draft.old (length out.old) message.now item.now error }
    ensures settings { (draft.new.id ≡ draft.old.id) × (draft.new.flags ≡ draft.old.flags)
        × (draft.new.limit ≡ draft.old.limit) × (draft.new.reserved ≡ draft.old.reserved)
        × (draft.new.unchecked ≡ draft.old.unchecked) }
    ensures same { result ≢ 0 → (draft.new.len ≡ draft.old.len)
        × (draft.new.counts ≡ draft.old.counts) × (draft.new.section ≡ draft.old.section) }
    ensures length { length out.new ≡ length out.old }
    ensures kept { take draft.old.len out.new ≡ take draft.old.len out.old }
    ensures stay { DraftsStay out.old out.new draft.old.len }
{
    match dnsm_put::put_from(draft, out, message, item) {
        Ok(()) => 0,
        Err(error) => code::of_fault(error.into()),
    }
}

/// Writes the header section of a message, and sets `len` to the length of the message. More items
/// may be put afterwards.
#[unsafe(no_mangle)]
pub extern "C" fn dnsm_finish(draft: &Draft, out: &mut [u8], len: &mut usize) -> u32
    ensures read { result ≡ 0 → (s : State) → IsDraftOf out.old draft.now s
        → ReadsBack (with_header (draft_header draft.now) s) (take len.new out.new) }
    ensures pointed { result ≡ 0 → (s : State) → IsDraftOf out.old draft.now s
        → PointsToLabels s (take len.new out.new) }
    ensures len { len.new ≡ draft.now.len }
    ensures within { result ≡ 0 → len.new ≤ length out.new }
    ensures none { result ≢ 0 → (s : State) → IsDraftOf out.old draft.now s → ⊥ }
    ensures long { result ≡ 0 → header_size ≤ len.new }
    ensures no_room { result ≢ 0 → (result ≡ number_of CallError.NoRoom)
        × ((draft.now.len < header_size) ⊎ (length out.old < draft.now.len)) }
    ensures written { result ≡ 0 → out.new ≡ overwritten out.old 0 (header_octets_of draft.now) }
    ensures same { result ≢ 0 → out.new ≡ out.old }
    ensures length { length out.new ≡ length out.old }
    ensures stay { (d : Draft) (s : State) → IsDraftOf out.old d s → IsDraftOf out.new d s }
{
    *len = draft.len;
    match dnsm_put::finish(draft, out) {
        Ok(_len) => 0,
        Err(error) => code::of_fault(error.into()),
    }
}
