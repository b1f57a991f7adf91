//! The OPT record of a message (RFC 6891 section 6.1.1).
ghost use Rattle.std.specs.Prelude.{◌≡◌, ◌<◌, ◌↔◌, [], length, take, Err, IfErr, IfOk, IsTrue};
ghost use Rattle.dns_code.specs.Header.{fields_in as header_in};
ghost use Rattle.dns_code.specs.HeaderSection.{header_size};
ghost use Rattle.dns_name.specs.Names.{Labels, NameAt};
ghost use Rattle.dnsm_status.specs.Codes.{number_of};
ghost use Rattle.dnsm_read.specs.OnlyOpts.{FindsOpt, IsOnlyOpt, LacksOpt, whole_rcode};
ghost use Rattle.dnsm_read.specs.Opts.{HasFields};
ghost use Rattle.dnsm_read.specs.Steps.{IsOpen, left_from};
ghost use Rattle.dnsm_read.specs.Walk.{walk_of};

use crate::opts::{Opt, fields_in, is_opt};
use crate::walk::{Cursor, Header, Item, name_at, next, open};
use dnsm_status::CallError;

/// The OPT record of a message.
#[derive(Clone, Copy)]
pub struct FoundOpt {
    /// The record.
    pub item: Item,
    /// The fields in its class and its TTL.
    pub opt: Opt,
    /// The rcode of 12 bits: the upper eight are in the record, the lower four in the header.
    pub rcode: u16,
}

/// No item.
const NO_ITEM: Item = Item {
    place: 0,
    data: 0,
    ttl: 0,
    rtype: 0,
    class: 0,
    data_len: 0,
    section: 0,
};

/// A cursor before the first question, and the rcode of the header.
fn begin(octets: &[u8]) -> Result<(Cursor, u8), CallError>
    ensures open { IfOk result (λ begun. IsOpen octets.now begun.0) }
    ensures left { IfOk result (λ begun. left_from octets.now begun.0 ≡ walk_of octets.now) }
    ensures rcode { IfOk result (λ begun. begun.1 ≡ (header_in (take 4 octets.now)).rcode) }
    ensures none { IfErr result (λ fault. (fault ≡ CallError.ShortInput)
        × (length octets.now < header_size)) }
{
    let mut header = Header {
        id: 0,
        flags: 0,
        counts: [0; 4],
        opcode: 0,
        rcode: 0,
    };
    let mut cursor = Cursor {
        place: 0,
        left: 0,
        section: 0,
        status: 0,
        owner: 0,
    };
    if open(octets, &mut header, &mut cursor) != 0 {
        return Err(CallError::ShortInput);
    }
    Ok((cursor, header.rcode))
}

/// Reads up to the next OPT record of the additional section. Returns `Ok(false)` if there is none.
fn next_opt(octets: &[u8], cursor: &mut Cursor, item: &mut Item) -> Result<bool, CallError>
    requires { IsOpen octets.now cursor.old }
    ensures { FindsOpt octets.now cursor.old cursor.new item.new result }
{
    'items: while next(octets, cursor, item)? {
        if is_opt(item) {
            return Ok(true);
        }
    }
    Ok(false)
}

/// Whether the owner of an item is the root.
fn has_root_owner(octets: &[u8], item: &Item) -> bool
    requires { (owner : Labels) × NameAt octets.now item.now.place owner }
    ensures { (owner : Labels) → NameAt octets.now item.now.place owner
        → IsTrue result ↔ (owner ≡ []) }
{
    match name_at(octets, item.place) {
        Ok(owner) => owner.is_root(),
        Err(_) => unreachable!(),
    }
}

/// The only OPT record of a message, whose owner must be the root. It may be anywhere in the
/// additional section.
pub fn find_opt(octets: &[u8]) -> Result<FoundOpt, CallError>
    ensures item { IfOk result (λ found. IsOnlyOpt octets.now found.item) }
    ensures fields { IfOk result (λ found. HasFields found.item.class found.item.ttl found.opt) }
    ensures rcode { IfOk result (λ found. found.rcode ≡ whole_rcode octets.now found.item) }
    ensures short { length octets.now < header_size → result ≡ Err CallError.ShortInput }
    ensures none { IfErr result (λ fault. LacksOpt octets.now (number_of fault)) }
{
    let (start, rcode) = begin(octets)?;
    let mut cursor = start;
    let mut item = NO_ITEM;
    if !next_opt(octets, &mut cursor, &mut item)? {
        return Err(CallError::NoOpt);
    }
    let mut other = NO_ITEM;
    if next_opt(octets, &mut cursor, &mut other)? {
        return Err(CallError::TwoOpts);
    }
    if !has_root_owner(octets, &item) {
        return Err(CallError::BadOwner);
    }
    let opt = fields_in(item.class, item.ttl);
    Ok(FoundOpt {
        item,
        opt,
        rcode: u16::from(opt.rcode_high) * 16 + u16::from(rcode),
    })
}
