//! Puts items of another message: their names are decompressed, and compressed anew.
ghost use Rattle.std.specs.Prelude.{◌≡◌, ◌≢◌, ℕ, ◌+◌, ◌<◌, ◌≤◌, ◌⊎◌, List, length, take, min, get_or, IfSome, IfNone, IsSome, IfErr, OnOk, OnErr};
ghost use Rattle.dns_code.specs.HeaderSection.{header_size};
ghost use Rattle.dns_name.specs.Uncompressed.{IsUncompressed};
ghost use Rattle.dns_wire.specs.Parts.{Part, parts_size};
ghost use Rattle.dns_item.specs.Items.{RecordItem};
ghost use Rattle.fields_table.specs.Data.{parts_of};
ghost use Rattle.fields_table.specs.FieldOrders.{parts_left};
ghost use Rattle.dnsm_put.specs.Items.{HoldsRecord, IsQuestionOf, IsRecordWith};
ghost use Rattle.dnsm_put.specs.Drafts.{AddsTo, DraftsStay};
ghost use Rattle.dnsm_read.specs.DataFields.{IsDataIn};
ghost use Rattle.dnsm_put.specs.Copies.{AddsFrom, HasNumbers, IsCopyWith, IsItemIn, IsRefusedFrom, TakesIn};

use crate::draft::{Draft, PutError, PutItem};
use crate::fields::put_fields;
use crate::items::{most_of, put, put_head, put_rdlength};
use dns_code::HeaderSection;
use dnsm_read::sections::{ADDITIONAL, QUESTION};
use dnsm_read::walk::name_at;
use dnsm_read::{Item, data_fields};
use fields_table::{FieldData, Fields};

/// The RDATA of a record, if it is the fields of its type and ends after them.
fn data_in<'a>(message: &'a [u8], item: &Item) -> Option<FieldData<'a>>
    requires { item.now.section ≢ 0 }
    ensures some { IfSome result (λ fields. IsDataIn message.now item.now (parts_of fields)) }
    ensures none { IfNone result ((parts : List Part) → IsDataIn message.now item.now parts → ⊥) }
{
    match data_fields::fields(message, item) {
        Ok((_seen, fields)) => Some(fields),
        Err(_) => None,
    }
}

/// Writes a record with these fields as its RDATA at offset `at`. Returns the offset after it, or
/// `None` if it would be past `most`.
fn put_record_with(
    hints: &mut [u16; 64],
    out: &mut [u8],
    at: usize,
    most: usize,
    item: &PutItem<'_>,
    fields: Fields<'_>,
) -> Option<usize>
    requires most { most ≤ length out.old }
    requires at { at ≤ most }
    requires after_header { header_size ≤ at }
    requires name { IsUncompressed item.now.name.now }
    requires short { parts_size (parts_left fields) ≤ 65535 }
    ensures holds { IfSome result (λ end. (x : RecordItem)
        → IsRecordWith item.now (parts_left fields.entry) x → HoldsRecord out.new at end x) }
    ensures within { IfSome result (λ end. end ≤ most) }
    ensures after { IfSome result (λ end. at ≤ end) }
    ensures size { IfSome result (λ end. end
        ≤ at + (length item.now.name.now + 10 + parts_size (parts_left fields.entry))) }
    ensures room { at + (length item.now.name.now + 10 + parts_size (parts_left fields.entry))
        ≤ most → IsSome result }
    ensures length { length out.new ≡ length out.old }
    ensures kept { take at out.new ≡ take at out.old }
{
    let after = put_head(hints, out, at, most, item)?;
    let end = put_fields(hints, out, after + 10, most, after, fields)?;
    put_rdlength(out, after, end);
    Some(end)
}

/// Appends a record with these fields as its RDATA. Its section is known to be in order.
fn append_record(
    draft: &mut Draft,
    out: &mut [u8],
    item: &PutItem<'_>,
    fields: Fields<'_>,
) -> Result<(), PutError>
    requires section { (item.now.section ≢ 0) × (item.now.section ≤ 3)
        × (draft.old.section ≤ item.now.section) }
    requires name { IsUncompressed item.now.name.now }
    requires short { parts_size (parts_left fields) ≤ 65535 }
    ensures adds { OnOk result (AddsTo item.now.section (IsQuestionOf item.now)
        (IsRecordWith item.now (parts_left fields.entry)) out.old out.new draft.old draft.new) }
    ensures room { OnOk result ((draft.new.len + draft.old.reserved ≤ length out.old)
        × (draft.new.len + draft.old.reserved ≤ draft.old.limit)) }
    ensures size { OnOk result (draft.new.len ≤ draft.old.len
        + (length item.now.name.now + 10 + parts_size (parts_left fields.entry))) }
    ensures section { OnOk result (draft.new.section ≡ item.now.section) }
    ensures few { OnOk result (get_or draft.old.counts item.now.section 0 < 65535) }
    ensures refused { IfErr result (λ error.
        ((error ≡ PutError.TooMany) × (get_or draft.old.counts item.now.section 0 ≡ 65535))
        ⊎ ((error ≡ PutError.NoRoom) × (get_or draft.old.counts item.now.section 0 ≢ 65535)
        × (header_size ≤ draft.old.len → min draft.old.limit (length out.old)
        < draft.old.len + (length item.now.name.now + 10 + parts_size (parts_left fields.entry))
        + draft.old.reserved))) }
    ensures settings { (draft.new.id ≡ draft.old.id) × (draft.new.flags ≡ draft.old.flags)
        × (draft.new.limit ≡ draft.old.limit) × (draft.new.reserved ≡ draft.old.reserved)
        × (draft.new.unchecked ≡ draft.old.unchecked) }
    ensures same { OnErr result ((draft.new.len ≡ draft.old.len)
        × (draft.new.counts ≡ draft.old.counts) × (draft.new.section ≡ draft.old.section)) }
    ensures length { length out.new ≡ length out.old }
    ensures kept { take draft.old.len out.new ≡ take draft.old.len out.old }
{
    if draft.counts[usize::from(item.section)] == u16::MAX {
        return Err(PutError::TooMany);
    }
    let most = most_of(draft, out.len());
    let at = draft.len;
    if at < HeaderSection::LEN || at > most {
        return Err(PutError::NoRoom);
    }
    let Some(end) = put_record_with(&mut draft.hints, out, at, most, item, fields) else {
        return Err(PutError::NoRoom);
    };
    let section = usize::from(item.section);
    draft.len = end;
    draft.counts[section] += 1;
    draft.section = item.section;
    Ok(())
}

/// The numbers of an item fit their fields.
fn fits(item: &Item)
    ensures { HasNumbers item.now }
{
    let _rtype = item.rtype;
    let _class = item.class;
    let _ttl = item.ttl;
}

/// The item as one of the caller's own, with this name.
#[inline(always)]
fn copy_of<'a>(item: &Item, name: &'a [u8]) -> PutItem<'a>
    ensures { IsCopyWith item.now name.now result }
{
    PutItem {
        name,
        rdata: &[],
        ttl: item.ttl,
        rtype: item.rtype,
        class: item.class,
        section: item.section,
    }
}

/// Appends an item of another message, as `dnsm_next` gives it: the name at its offset, its type
/// and class, and its TTL, which a cache may have lowered, in its section. Names in its RDATA are
/// decompressed, and those of types of RFC 1035 compressed anew (RFC 3597 section 4). On an error
/// the octets of the buffer after the message may have changed.
pub fn put_from(
    draft: &mut Draft,
    out: &mut [u8],
    message: &[u8],
    item: &Item,
) -> Result<(), PutError>
    ensures adds { OnOk result
        (AddsFrom out.old out.new draft.old draft.new message.now item.now) }
    ensures means { OnOk result (IsItemIn message.now item.now) }
    ensures room { OnOk result ((draft.new.len + draft.old.reserved ≤ length out.old)
        × (draft.new.len + draft.old.reserved ≤ draft.old.limit)) }
    ensures size { OnOk result ((size : ℕ) × TakesIn message.now item.now size
        × (draft.new.len ≤ draft.old.len + size)) }
    ensures section { OnOk result (draft.new.section ≡ item.now.section) }
    ensures refused { IfErr result (λ error.
        IsRefusedFrom draft.old (length out.old) message.now item.now error) }
    ensures settings { (draft.new.id ≡ draft.old.id) × (draft.new.flags ≡ draft.old.flags)
        × (draft.new.limit ≡ draft.old.limit) × (draft.new.reserved ≡ draft.old.reserved)
        × (draft.new.unchecked ≡ draft.old.unchecked) }
    ensures same { OnErr result ((draft.new.len ≡ draft.old.len)
        × (draft.new.counts ≡ draft.old.counts) × (draft.new.section ≡ draft.old.section)) }
    ensures length { length out.new ≡ length out.old }
    ensures kept { take draft.old.len out.new ≡ take draft.old.len out.old }
    ensures stay { DraftsStay out.old out.new draft.old.len }
{
    fits(item);
    if item.section > ADDITIONAL || item.section < draft.section {
        return Err(PutError::BadSection);
    }
    let Ok(name) = name_at(message, item.place) else {
        return Err(PutError::BadName);
    };
    let owner = name.uncompressed();
    let copy = copy_of(item, owner.as_slice());
    if item.section == QUESTION {
        return put(draft, out, &copy);
    }
    let Some(fields) = data_in(message, item) else {
        return Err(PutError::BadData);
    };
    append_record(draft, out, &copy, fields.fields())
}
