//! A transfer whose state its caller keeps.
ghost use Rattle.std.specs.Prelude.{◌≡◌, IfErr, IfOk, OnOk, take};
ghost use Rattle.dns_name.specs.Names.{uncompressed};
ghost use Rattle.dns_name.specs.ParsedName.{labels};
ghost use Rattle.dns_name.specs.Uncompressed.{IsUncompressed};
ghost use Rattle.dns_transfer.specs.Asked.{asked_by};
ghost use Rattle.dnsm_transfers.specs.Transfers.{AskAlike, Begins, IsAskedBy, LacksZone, request_from, request_of, state_of, zone_octets};

use arrayvec::ArrayVec;
use dns_iana::Class;
use dns_name::{Name, ParsedName, ToName};
use dns_transfer::{Query, Request, State};
use dnsm_status::CallError;

/// A transfer of a zone, of which some messages were taken. What doesn't belong to its state means
/// nothing.
#[repr(C)]
#[derive(Clone, Copy)]
pub struct Transfer {
    /// The serial of the version that is known, if changes are asked for.
    pub known: u32,
    /// The serial of the version from which records are removed, or to which they are added.
    pub version: u32,
    /// The serial of the server's version.
    pub last: u32,
    /// 0, or the number of the error that ended the transfer.
    pub status: u32,
    pub id: u16,
    pub class: u16,
    /// Which of the constants below.
    pub state: u8,
    /// 0 if the whole zone is asked for.
    pub changes: u8,
    pub zone_len: u8,
    /// The octets of the zone's name, uncompressed.
    pub zone: [u8; 255],
}

const WANTED: u8 = 0;

const FIRST: u8 = 1;

const WHOLE: u8 = 2;

const REMOVING: u8 = 3;

const ADDING: u8 = 4;

const ENDED: u8 = 5;

/// Begins a transfer of the zone whose uncompressed name is `zone`: of changes since the version with
/// serial `known`, or of the whole zone.
pub fn begin(
    transfer: &mut Transfer,
    id: u16,
    zone: &[u8],
    class: u16,
    known: Option<u32>,
) -> Result<(), CallError>
    ensures begins { OnOk result (Begins id class (request_from known) zone.now transfer.new) }
    ensures none { IfErr result (λ fault. (fault ≡ CallError.BadText)
        × (IsUncompressed zone.now → ⊥) × (transfer.new ≡ transfer.old)) }
{
    let Ok(name) = Name::from_octets(zone) else {
        return Err(CallError::BadText);
    };
    let (octets, len) = padded(&name.as_parsed());
    *transfer = Transfer {
        known: known.unwrap_or(0),
        version: 0,
        last: 0,
        status: 0,
        id,
        class,
        state: WANTED,
        changes: u8::from(known.is_some()),
        zone_len: len,
        zone: octets,
    };
    Ok(())
}

/// The octets of a name, followed by zeros, and their number.
fn padded(name: &ParsedName<'_>) -> ([u8; 255], u8)
    ensures { take result.1 result.0 ≡ uncompressed (labels name.now) }
{
    let octets = name.uncompressed();
    let len = octets.len();
    let mut out = [0; 255];
    out[..len].copy_from_slice(octets.as_slice());
    (out, len as u8)
}

/// What was read of a transfer.
pub(crate) fn state_of(transfer: &Transfer) -> State
    ensures { result ≡ state_of transfer.now }
{
    match transfer.state {
        WANTED => State::Wanted,
        FIRST => State::First(transfer.last),
        WHOLE => State::Whole(transfer.last),
        REMOVING => State::Removing(transfer.version, transfer.last),
        ADDING => State::Adding(transfer.version, transfer.last),
        _ => State::Ended,
    }
}

/// Keeps what was read of a transfer.
pub(crate) fn set_state(transfer: &mut Transfer, state: State)
    ensures state { state_of transfer.new ≡ state }
    ensures asked { AskAlike transfer.old transfer.new }
    ensures status { transfer.new.status ≡ transfer.old.status }
{
    match state {
        State::Wanted => keep(transfer, WANTED, 0, 0),
        State::First(last) => keep(transfer, FIRST, 0, last),
        State::Whole(last) => keep(transfer, WHOLE, 0, last),
        State::Removing(old, last) => keep(transfer, REMOVING, old, last),
        State::Adding(new, last) => keep(transfer, ADDING, new, last),
        State::Ended => keep(transfer, ENDED, 0, transfer.last),
    }
}

/// Keeps the number of a state, and its serials.
fn keep(transfer: &mut Transfer, number: u8, version: u32, last: u32)
    ensures { transfer.new ≡ record transfer.old {
      version = version;
      last = last;
      state = number;
    } }
{
    transfer.state = number;
    transfer.version = version;
    transfer.last = last;
}

/// What a transfer asks for, if its zone has a name.
pub(crate) fn query_of(transfer: &Transfer) -> Result<Query, CallError>
    ensures query { IfOk result (λ query. IsAskedBy transfer.now (asked_by query)) }
    ensures none { IfErr result (λ fault. (fault ≡ CallError.BadText)
        × LacksZone transfer.now) }
{
    let Ok(zone) = Name::from_octets(zone_of(transfer)) else {
        return Err(CallError::BadText);
    };
    let class = Class::from_int(transfer.class);
    Ok(Query::new(zone, class, transfer.id, request_of(transfer)))
}

/// The octets of the zone's name.
fn zone_of(transfer: &Transfer) -> ArrayVec<u8, 255>
    ensures { result.items ≡ zone_octets transfer.now }
{
    let mut octets = ArrayVec::new();
    octets
        .try_extend_from_slice(&transfer.zone[..usize::from(transfer.zone_len)])
        .unwrap();
    octets
}

/// What is asked for.
fn request_of(transfer: &Transfer) -> Request
    ensures { result ≡ request_of transfer.now }
{
    if transfer.changes == 0 {
        Request::Axfr
    } else {
        Request::Ixfr(transfer.known)
    }
}
