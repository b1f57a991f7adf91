//! What each record of a transfer does (RFC 5936 section 2.2, RFC 1995 sections 2 and 4).
//!
//! These functions see of a record only whether it is the zone's SOA record, and its serial.
ghost use Rattle.std.specs.Prelude.{◌≡◌};
ghost use Rattle.dns_transfer.specs.Grammar.{advance, after_added, begin, falls_back, in_adding};
ghost use Rattle.dns_transfer.specs.Grammar.{in_first, in_removing, in_wanted, in_whole};
ghost use Rattle.dns_transfer.specs.Messages.{is_ended};
ghost use Rattle.dns_transfer.specs.Serials.{is_greater};

use crate::error::TransferError;
use dns_iana::Serial;
use std::cmp::Ordering;

/// What is asked for.
#[derive(Clone, Copy, Debug)]
pub enum Request {
    /// The whole zone.
    Axfr,
    /// The changes since the version with this serial.
    Ixfr(u32),
}

/// What was read of a transfer.
#[derive(Clone, Copy, Debug)]
pub enum State {
    /// Nothing: the first SOA record is wanted.
    Wanted,
    /// The first SOA record, with this serial. The next record tells whether changes follow it, or
    /// the whole zone.
    First(u32),
    /// Records of the whole zone, whose last record is the SOA record with this serial.
    Whole(u32),
    /// Records to be removed from the version with the first serial. The second is that of the last
    /// version.
    Removing(u32, u32),
    /// Records to be added to the version with the first serial. The second is that of the last
    /// version.
    Adding(u32, u32),
    /// Everything.
    Ended,
}

/// What a record is to a transfer.
#[derive(Clone, Copy)]
pub enum Kind {
    /// The zone's SOA record, with this serial.
    Soa(u32),
    /// Another record of the zone.
    Other,
}

/// What a record does.
#[derive(Clone, Copy)]
pub enum Act {
    /// It begins the transfer of the version with this serial.
    Begin(u32),
    /// It says that the version with this serial isn't newer.
    UpToDate(u32),
    /// It shows that the whole zone follows in place of changes, and is then read again.
    FallBack,
    /// It is removed.
    Remove,
    /// It is added.
    Add,
    /// It ends the transfer of the version with this serial.
    End(u32),
}

/// Whether the first serial is greater than the second (RFC 1982 section 3.2).
fn is_greater(serial: u32, other: u32) -> bool
    ensures { result ≡ is_greater serial other }
{
    match Serial::from_int(serial).serial_cmp(Serial::from_int(other)) {
        Some(Ordering::Greater) => true,
        _ => false,
    }
}

/// What the first SOA record does, by its serial.
fn begin(request: Request, serial: u32) -> (Act, State)
    ensures { result ≡ begin request serial }
{
    match request {
        Request::Axfr => (Act::Begin(serial), State::Whole(serial)),
        Request::Ixfr(known) => {
            if is_greater(serial, known) {
                (Act::Begin(serial), State::First(serial))
            } else {
                (Act::UpToDate(serial), State::Ended)
            }
        }
    }
}

/// What a record does if nothing was read before it.
fn in_wanted(request: Request, kind: Kind) -> Result<(Act, State), TransferError>
    ensures { result ≡ in_wanted request kind }
{
    match kind {
        Kind::Soa(serial) => Ok(begin(request, serial)),
        Kind::Other => Err(TransferError::NoSoa),
    }
}

/// What a record does after the first SOA record, with serial `last`.
fn in_first(request: Request, last: u32, kind: Kind) -> (Act, State)
    ensures { result ≡ in_first request last kind }
{
    match request {
        Request::Axfr => (Act::FallBack, State::Whole(last)),
        Request::Ixfr(known) => match kind {
            Kind::Other => (Act::FallBack, State::Whole(last)),
            Kind::Soa(serial) => {
                if serial == known {
                    (Act::Remove, State::Removing(serial, last))
                } else {
                    (Act::FallBack, State::Whole(last))
                }
            }
        },
    }
}

/// What a record does among those of the whole zone.
fn in_whole(last: u32, kind: Kind) -> Result<(Act, State), TransferError>
    ensures { result ≡ in_whole last kind }
{
    match kind {
        Kind::Other => Ok((Act::Add, State::Whole(last))),
        Kind::Soa(serial) => {
            if serial == last {
                Ok((Act::End(serial), State::Ended))
            } else {
                Err(TransferError::WrongSoa)
            }
        }
    }
}

/// What a record does among those to be removed from the version with serial `old`.
fn in_removing(old: u32, last: u32, kind: Kind) -> Result<(Act, State), TransferError>
    ensures { result ≡ in_removing old last kind }
{
    match kind {
        Kind::Other => Ok((Act::Remove, State::Removing(old, last))),
        Kind::Soa(serial) => {
            if is_greater(serial, old) {
                Ok((Act::Add, State::Adding(serial, last)))
            } else {
                Err(TransferError::WrongSoa)
            }
        }
    }
}

/// What the SOA record does that follows the records to be added to the version with serial `new`.
fn after_added(new: u32, last: u32) -> (Act, State)
    ensures { result ≡ after_added new last }
{
    if new == last {
        (Act::End(new), State::Ended)
    } else {
        (Act::Remove, State::Removing(new, last))
    }
}

/// What a record does among those to be added to the version with serial `new`.
fn in_adding(new: u32, last: u32, kind: Kind) -> Result<(Act, State), TransferError>
    ensures { result ≡ in_adding new last kind }
{
    match kind {
        Kind::Other => Ok((Act::Add, State::Adding(new, last))),
        Kind::Soa(serial) => {
            if serial == new {
                Ok(after_added(serial, last))
            } else {
                Err(TransferError::WrongSoa)
            }
        }
    }
}

/// What a record of this kind does in this state, and the state after it.
pub(crate) fn advance(
    request: Request,
    state: State,
    kind: Kind,
) -> Result<(Act, State), TransferError>
    ensures { result ≡ advance request state kind }
{
    match state {
        State::Wanted => in_wanted(request, kind),
        State::First(last) => Ok(in_first(request, last, kind)),
        State::Whole(last) => in_whole(last, kind),
        State::Removing(old, last) => in_removing(old, last, kind),
        State::Adding(new, last) => in_adding(new, last, kind),
        State::Ended => Err(TransferError::AfterEnd),
    }
}

/// Whether a record only shows that the whole zone follows.
pub(crate) fn falls_back(act: Act) -> bool
    ensures { result ≡ falls_back act }
{
    match act {
        Act::FallBack => true,
        _ => false,
    }
}

/// Whether the transfer has ended.
pub fn is_ended(state: State) -> bool
    ensures { result ≡ is_ended state }
{
    match state {
        State::Ended => true,
        _ => false,
    }
}
