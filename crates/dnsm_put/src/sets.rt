//! Puts sets of items whole, or leaves them out (RFC 2181 sections 5 and 9).
ghost use Rattle.std.specs.Prelude.{◌≡◌, ◌<◌, ◌≤◌, ◌+◌, ◌&&◌, ℕ, List, length, take, Err, IfErr, OnOk, true};
ghost use Rattle.std.specs.List.{All};
ghost use Rattle.dns_code.specs.Header.{fields};
ghost use Rattle.dnsm_put.specs.Items.{Means};
ghost use Rattle.dnsm_put.specs.Drafts.{DraftsStay, header_of};
ghost use Rattle.dnsm_put.specs.Sets.{AddsAll, IsLeftOut, LeavesOut, RefusesSet, is_no_room};

use crate::draft::{Draft, PutError, PutItem};
use crate::items::put;
use crate::responding::set_header;
use dns_code::Header;

/// The header of a draft.
fn header_of(draft: &Draft) -> Header
    ensures { fields result ≡ header_of draft.now }
{
    let [a, b] = draft.id.to_be_bytes();
    let [c, d] = draft.flags.to_be_bytes();
    Header::for_message_slice(&[a, b, c, d])
}

/// Whether an item isn't put as there is no room for it.
fn is_no_room(error: PutError) -> bool
    ensures { result ≡ is_no_room error }
{
    match error {
        PutError::BadSection => false,
        PutError::BadName => false,
        PutError::LongData => false,
        PutError::BadData => false,
        PutError::TooMany => false,
        PutError::NoRoom => true,
    }
}

/// Sets TC if a required set is left out for the length of the message.
fn leave_out(draft: &mut Draft, required: bool)
    ensures { IsLeftOut required draft.old draft.new }
{
    if required {
        let mut header = header_of(draft);
        header.set_tc(true);
        set_header(draft, header);
    }
}

/// Appends items in order, up to the first that is refused.
fn put_all(draft: &mut Draft, out: &mut [u8], items: &[PutItem<'_>]) -> Result<(), PutError>
    ensures adds { OnOk result (AddsAll out.old out.new draft.old draft.new items.now) }
    ensures means { OnOk result (All Means items.now) }
    ensures room { OnOk result (0 < length items.now
        → (draft.new.len + draft.old.reserved ≤ length out.old)
        × (draft.new.len + draft.old.reserved ≤ draft.old.limit)) }
    ensures settings { draft.new ≡ record draft.old {
      len = draft.new.len;
      counts = draft.new.counts;
      section = draft.new.section;
      hints = draft.new.hints;
    } }
    ensures refused { IfErr result (λ error. RefusesSet out.old draft.old items.now error) }
    ensures length { length out.new ≡ length out.old }
    ensures kept { take draft.old.len out.new ≡ take draft.old.len out.old }
    ensures stay { DraftsStay out.old out.new draft.old.len }
{
    for item in items {
        if let Err(error) = put(draft, out, item) {
            return Err(error);
        }
    }
    Ok(())
}

/// Appends all items of a set, or none: then the draft is as before, but TC is set if there is no
/// room for a required set (RFC 2181 section 9). Once TC is set no set goes in: a response is
/// truncated at its end (RFC 1035 section 6.2). On an error the octets of the buffer after the
/// message may have changed.
pub fn put_set(
    draft: &mut Draft,
    out: &mut [u8],
    items: &[PutItem<'_>],
    required: bool,
) -> Result<(), PutError>
    ensures adds { OnOk result (AddsAll out.old out.new draft.old draft.new items.now) }
    ensures means { OnOk result (All Means items.now) }
    ensures room { OnOk result (0 < length items.now
        → (draft.new.len + draft.old.reserved ≤ length out.old)
        × (draft.new.len + draft.old.reserved ≤ draft.old.limit)) }
    ensures settings { OnOk result (draft.new ≡ record draft.old {
      len = draft.new.len;
      counts = draft.new.counts;
      section = draft.new.section;
      hints = draft.new.hints;
    }) }
    ensures truncated { (header_of draft.old).tc ≡ true → result ≡ Err PutError.NoRoom }
    ensures refused { IfErr result (λ error. LeavesOut out.old draft.old items.now error) }
    ensures left_out { IfErr result (λ error.
        IsLeftOut (required && is_no_room error) draft.old draft.new) }
    ensures length { length out.new ≡ length out.old }
    ensures kept { take draft.old.len out.new ≡ take draft.old.len out.old }
    ensures stay { DraftsStay out.old out.new draft.old.len }
{
    if header_of(draft).tc() {
        return Err(PutError::NoRoom);
    }
    let mark = *draft;
    let Err(error) = put_all(draft, out, items) else {
        return Ok(());
    };
    *draft = mark;
    leave_out(draft, required && is_no_room(error));
    Err(error)
}
