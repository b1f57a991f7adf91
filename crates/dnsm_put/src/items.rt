//! Checks items, and writes them at the end of a message (RFC 1035 sections 4.1.2 and 4.1.3).
ghost use Rattle.std.specs.Prelude.{◌≡◌, ◌≢◌, ℕ, ◌+◌, ◌-◌, ◌<◌, ◌≤◌, ◌++◌, ◌^◌, ◌∷◌, [], length, take, min, IfSome, IsSome, IfErr, OnOk, OnErr};
ghost use Rattle.std.specs.Int.{to_be_bytes, w16, w32};
ghost use Rattle.dns_code.specs.HeaderSection.{header_size};
ghost use Rattle.dns_octets.specs.Octets.{overwritten};
ghost use Rattle.dns_name.specs.Names.{Labels, IsName, uncompressed};
ghost use Rattle.dns_name.specs.Uncompressed.{IsUncompressed};
ghost use Rattle.dns_wire.specs.Targets.{At};
ghost use Rattle.dns_item.specs.Questions.{QuestionItem};
ghost use Rattle.dns_item.specs.Items.{RecordItem};
ghost use Rattle.dnsm_put.specs.Rdata.{HasFields, layout_of};
ghost use Rattle.dnsm_put.specs.Writing.{HintsWithin, IsNamed};
ghost use Rattle.dnsm_put.specs.Items.{HoldsQuestion, HoldsRecord, IsQuestionOf, IsRecordOf, Means, head_octets, item_size};
ghost use Rattle.dnsm_put.specs.Drafts.{Adds, DraftsStay};
ghost use Rattle.dnsm_put.specs.Refusals.{IsAcceptable, IsRefused};

use crate::checked::may_have;
use crate::draft::{Draft, PutError, PutItem};
use crate::names::{is_name, put_name};
use crate::octets::put_octets;
use crate::rdata::put_rdata;
use dns_code::HeaderSection;
use dns_wire::MAX_OCTETS;
use dnsm_read::sections::{ADDITIONAL, QUESTION};

/// The offset that an item has to end at or before.
#[inline(always)]
pub(crate) fn most_of(draft: &Draft, out_len: usize) -> usize
    ensures { result ≡ min draft.now.limit out_len - draft.now.reserved }
{
    let most = if draft.limit < out_len {
        draft.limit
    } else {
        out_len
    };
    most.saturating_sub(draft.reserved)
}

/// The four octets after the name of a question.
#[inline(always)]
fn question_fields_of(item: &PutItem<'_>) -> [u8; 4]
    ensures { result ≡ to_be_bytes w16 item.now.rtype ++ to_be_bytes w16 item.now.class }
{
    let [t, u] = item.rtype.to_be_bytes();
    let [c, d] = item.class.to_be_bytes();
    [t, u, c, d]
}

/// The eight octets after the owner of a record, and two for RDLENGTH, which are zero.
#[inline(always)]
fn record_fields_of(item: &PutItem<'_>) -> [u8; 10]
    ensures { result ≡ to_be_bytes w16 item.now.rtype ++ to_be_bytes w16 item.now.class
        ++ to_be_bytes w32 item.now.ttl ++ (0 ∷ 0 ∷ []) }
{
    let [t, u] = item.rtype.to_be_bytes();
    let [c, d] = item.class.to_be_bytes();
    let [w, x, y, z] = item.ttl.to_be_bytes();
    [t, u, c, d, w, x, y, z, 0, 0]
}

/// Writes a question at offset `at`. Returns the offset after it, or `None` if it would be past
/// `most`.
#[inline(always)]
pub(crate) fn put_question(
    hints: &mut [u16; 64],
    out: &mut [u8],
    at: usize,
    most: usize,
    item: &PutItem<'_>,
) -> Option<usize>
    requires most { most ≤ length out.old }
    requires at { at ≤ most }
    requires after_header { header_size ≤ at }
    requires name { IsUncompressed item.now.name.now }
    ensures holds { IfSome result (λ end. (x : QuestionItem) → IsQuestionOf item.now x
        → HoldsQuestion out.new at end x) }
    ensures within { IfSome result (λ end. end ≤ most) }
    ensures after { IfSome result (λ end. at ≤ end) }
    ensures size { IfSome result (λ end. end ≤ at + (length item.now.name.now + 4)) }
    ensures room { at + (length item.now.name.now + 4) ≤ most → IsSome result }
    ensures hints { IfSome result (λ end. HintsWithin at hints.old → HintsWithin end hints.new) }
    ensures length { length out.new ≡ length out.old }
    ensures kept { take at out.new ≡ take at out.old }
{
    let fields = put_name(hints, out, at, most, at, item.name)?;
    put_octets(out, fields, most, &question_fields_of(item))
}

/// Writes the owner of a record at offset `at`, and the ten octets after it, of which RDLENGTH is
/// zero. Returns the offset after the owner, or `None` if the ten octets would end past `most`.
#[inline(always)]
pub(crate) fn put_head(
    hints: &mut [u16; 64],
    out: &mut [u8],
    at: usize,
    most: usize,
    item: &PutItem<'_>,
) -> Option<usize>
    requires most { most ≤ length out.old }
    requires at { at ≤ most }
    requires after_header { header_size ≤ at }
    requires name { IsUncompressed item.now.name.now }
    ensures owner { IfSome result (λ after. (n : Labels) → IsName n
        → item.now.name.now ≡ uncompressed n → IsNamed out.new at at after n) }
    ensures fields { IfSome result (λ after. At out.new after (head_octets item.now)) }
    ensures within { IfSome result (λ after. after + 10 ≤ most) }
    ensures after { IfSome result (λ after. at ≤ after) }
    ensures size { IfSome result (λ after. after ≤ at + length item.now.name.now) }
    ensures room { at + (length item.now.name.now + 10) ≤ most → IsSome result }
    ensures length { length out.new ≡ length out.old }
    ensures kept { take at out.new ≡ take at out.old }
{
    let after = put_name(hints, out, at, most, at, item.name)?;
    let _start = put_octets(out, after, most, &record_fields_of(item))?;
    Some(after)
}

/// Writes RDLENGTH in a record whose owner ends at `after`, and whose RDATA ends at `end`.
#[inline(always)]
pub(crate) fn put_rdlength(out: &mut [u8], after: usize, end: usize)
    requires within { end ≤ length out.old }
    requires start { after + 10 ≤ end }
    requires short { end ≤ after + 10 + 65535 }
    ensures { out.new
        ≡ overwritten out.old (after + 8) (to_be_bytes w16 (end - (after + 10))) }
{
    let size = (end - (after + 10)) as u16;
    let _size = put_octets(out, after + 8, end, &size.to_be_bytes());
}

/// Writes a record at offset `at`. Returns the offset after it, or `None` if it would be past
/// `most`.
#[inline(always)]
fn put_record(
    hints: &mut [u16; 64],
    out: &mut [u8],
    at: usize,
    most: usize,
    item: &PutItem<'_>,
) -> Option<usize>
    requires most { most ≤ length out.old }
    requires at { at ≤ most }
    requires after_header { header_size ≤ at }
    requires name { IsUncompressed item.now.name.now }
    requires short { length item.now.rdata.now ≤ 65535 }
    requires fields { HasFields (layout_of item.now) item.now.rdata.now }
    ensures holds { IfSome result (λ end. (x : RecordItem) → IsRecordOf item.now x
        → HoldsRecord out.new at end x) }
    ensures within { IfSome result (λ end. end ≤ most) }
    ensures after { IfSome result (λ end. at ≤ end) }
    ensures size { IfSome result (λ end.
        end ≤ at + (length item.now.name.now + 10 + length item.now.rdata.now)) }
    ensures room { at + (length item.now.name.now + 10 + length item.now.rdata.now) ≤ most
        → IsSome result }
    ensures length { length out.new ≡ length out.old }
    ensures kept { take at out.new ≡ take at out.old }
{
    let after = put_head(hints, out, at, most, item)?;
    let end = put_rdata(hints, out, after + 10, most, after, item)?;
    put_rdlength(out, after, end);
    Some(end)
}

/// Writes an item at offset `at`. Returns the offset after it, or `None` if it would be past
/// `most`.
#[inline(always)]
fn put_item(
    hints: &mut [u16; 64],
    out: &mut [u8],
    at: usize,
    most: usize,
    item: &PutItem<'_>,
) -> Option<usize>
    requires most { most ≤ length out.old }
    requires at { at ≤ most }
    requires after_header { header_size ≤ at }
    requires name { IsUncompressed item.now.name.now }
    requires short { item.now.section ≢ 0 → length item.now.rdata.now ≤ 65535 }
    requires fields { item.now.section ≢ 0
        → HasFields (layout_of item.now) item.now.rdata.now }
    ensures question { IfSome result (λ end. item.now.section ≡ 0 → (x : QuestionItem)
        → IsQuestionOf item.now x → HoldsQuestion out.new at end x) }
    ensures record_of { IfSome result (λ end. item.now.section ≢ 0 → (x : RecordItem)
        → IsRecordOf item.now x → HoldsRecord out.new at end x) }
    ensures within { IfSome result (λ end. end ≤ most) }
    ensures after { IfSome result (λ end. at ≤ end) }
    ensures size { IfSome result (λ end. end ≤ at + item_size item.now) }
    ensures room { at + item_size item.now ≤ most → IsSome result }
    ensures length { length out.new ≡ length out.old }
    ensures kept { take at out.new ≡ take at out.old }
{
    if item.section == QUESTION {
        put_question(hints, out, at, most, item)
    } else {
        put_record(hints, out, at, most, item)
    }
}

/// The numbers of an item fit their fields.
fn fits(item: &PutItem<'_>)
    ensures rtype { item.now.rtype < 2 ^ 16 }
    ensures class { item.now.class < 2 ^ 16 }
    ensures ttl { item.now.ttl < 2 ^ 32 }
{
    let _rtype = item.rtype;
    let _class = item.class;
    let _ttl = item.ttl;
}

/// Checks an item, but not the room for it.
fn check(draft: &Draft, item: &PutItem<'_>) -> Result<(), PutError>
    ensures acceptable { OnOk result (IsAcceptable draft.now item.now) }
    ensures means { OnOk result (Means item.now) }
    ensures refused { IfErr result (λ error. (n : ℕ) → IsRefused draft.now n item.now error) }
{
    fits(item);
    if item.section > ADDITIONAL || item.section < draft.section {
        return Err(PutError::BadSection);
    }
    if !is_name(item.name) {
        return Err(PutError::BadName);
    }
    let is_record = item.section != QUESTION;
    if is_record && item.rdata.len() > MAX_OCTETS {
        return Err(PutError::LongData);
    }
    if is_record && !may_have(draft, item) {
        return Err(PutError::BadData);
    }
    if draft.counts[usize::from(item.section)] == u16::MAX {
        return Err(PutError::TooMany);
    }
    Ok(())
}

/// Appends an item. On an error the octets of the buffer after the message may have changed.
pub fn put(draft: &mut Draft, out: &mut [u8], item: &PutItem<'_>) -> Result<(), PutError>
    ensures adds { OnOk result (Adds out.old out.new draft.old draft.new item.now) }
    ensures means { OnOk result (Means item.now) }
    ensures room { OnOk result ((draft.new.len + draft.old.reserved ≤ length out.old)
        × (draft.new.len + draft.old.reserved ≤ draft.old.limit)) }
    ensures after { OnOk result (draft.old.len ≤ draft.new.len) }
    ensures size { OnOk result (draft.new.len ≤ draft.old.len + item_size item.now) }
    ensures section { OnOk result (draft.new.section ≡ item.now.section) }
    ensures acceptable { OnOk result (IsAcceptable draft.old item.now) }
    ensures refused { IfErr result (λ error.
        IsRefused draft.old (length out.old) item.now error) }
    ensures settings { (draft.new.id ≡ draft.old.id) × (draft.new.flags ≡ draft.old.flags)
        × (draft.new.limit ≡ draft.old.limit) × (draft.new.reserved ≡ draft.old.reserved)
        × (draft.new.unchecked ≡ draft.old.unchecked) }
    ensures same { OnErr result ((draft.new.len ≡ draft.old.len)
        × (draft.new.counts ≡ draft.old.counts) × (draft.new.section ≡ draft.old.section)) }
    ensures length { length out.new ≡ length out.old }
    ensures kept { take draft.old.len out.new ≡ take draft.old.len out.old }
    ensures stay { DraftsStay out.old out.new draft.old.len }
{
    if let Err(error) = check(draft, item) {
        return Err(error);
    }
    let most = most_of(draft, out.len());
    let at = draft.len;
    if at < HeaderSection::LEN || at > most {
        return Err(PutError::NoRoom);
    }
    let Some(end) = put_item(&mut draft.hints, out, at, most, item) else {
        return Err(PutError::NoRoom);
    };
    let section = usize::from(item.section);
    draft.len = end;
    draft.counts[section] += 1;
    draft.section = item.section;
    Ok(())
}
