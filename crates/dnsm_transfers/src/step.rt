//! The steps of a message of a transfer.
ghost use Rattle.std.specs.Prelude.{◌≡◌, ◌≢◌, ◌<◌, ◌-◌, ◌==◌, if◌then◌else◌, IfErr, IfNone, IfOk, IfSome};
ghost use Rattle.dns_item.specs.Items.{ReadsRecord};
ghost use Rattle.dns_item.specs.ParsedRecord.{parsed_entry};
ghost use Rattle.dns_name.specs.Names.{fault_of};
ghost use Rattle.dns_transfer.specs.Asked.{Asked};
ghost use Rattle.dns_transfer.specs.Messages.{is_ended};
ghost use Rattle.dnsm_status.specs.Codes.{number_of};
ghost use Rattle.dnsm_read.specs.Steps.{ReportsRecord};
ghost use Rattle.dnsm_transfers.specs.Transfers.{act_number, act_serial, state_of};
ghost use Rattle.dnsm_transfers.specs.Transfers.{GivesStep, IsAskedBy, LacksStep, OpensMessage, RefusesToOpen, ReportsOctets, ReportsTransfer};

use crate::transfer::{Transfer, query_of, set_state, state_of};
use dns_item::ParsedRecord;
use dns_octets::{FormError, ParseError};
use dns_read::Message;
use dns_transfer::{Act, Acted, State, TransferError, act_at, answers_of, is_ended};
use dnsm_read::{Cursor, Item};
use dnsm_status::{CallError, code};

/// What a record of a transfer does.
#[repr(C)]
#[derive(Clone, Copy)]
pub struct Step {
    /// The record.
    pub item: Item,
    /// The serial of the version that begins or ends, or 0.
    pub serial: u32,
    /// Which of the constants below.
    pub kind: u8,
}

const BEGIN: u8 = 0;

const UP_TO_DATE: u8 = 1;

const WHOLE: u8 = 2;

const REMOVE: u8 = 3;

const ADD: u8 = 4;

const END: u8 = 5;

/// The number of what a record does, and its serial.
fn numbers_of(act: Act) -> (u8, u32)
    ensures number { result.0 ≡ act_number act }
    ensures serial { result.1 ≡ act_serial act }
{
    match act {
        Act::Begin(serial) => (BEGIN, serial),
        Act::UpToDate(serial) => (UP_TO_DATE, serial),
        Act::FallBack => (WHOLE, 0),
        Act::Remove => (REMOVE, 0),
        Act::Add => (ADD, 0),
        Act::End(serial) => (END, serial),
    }
}

/// The fault that reports what is wrong with octets.
fn octets_fault(error: ParseError) -> CallError
    ensures { ReportsOctets (fault_of error) (number_of result) }
{
    let left_over = ParseError::Form(FormError::TRAILING_DATA);
    if error == left_over {
        CallError::Form
    } else {
        code::of_error(error)
    }
}

/// The fault that reports why a message isn't the next one of a transfer.
fn fault_of(error: TransferError) -> CallError
    ensures { ReportsTransfer error (number_of result) }
{
    match error {
        TransferError::Parse(error) => octets_fault(error),
        TransferError::WrongId | TransferError::WrongQuestion => CallError::OtherQuery,
        TransferError::NoResponse => CallError::NoResponse,
        TransferError::Rcode(_rcode) => CallError::BadRcode,
        TransferError::Truncated => CallError::Truncated,
        TransferError::WrongClass => CallError::WrongClass,
        TransferError::OutsideZone => CallError::OutsideZone,
        TransferError::NoSoa => CallError::NoSoa,
        TransferError::WrongSoa => CallError::WrongSoa,
        TransferError::AfterEnd => CallError::AfterEnd,
        TransferError::Incomplete => CallError::Incomplete,
    }
}

/// The cursor before the records of the next message of a transfer.
fn opened(transfer: &Transfer, octets: &[u8]) -> Result<Cursor, CallError>
    ensures opens { IfOk result (λ cursor. (asked : Asked) → IsAskedBy transfer.now asked
        → OpensMessage asked (state_of transfer.now) octets.now cursor) }
    ensures refuses { IfErr result (λ fault.
        RefusesToOpen transfer.now octets.now (number_of fault)) }
{
    let Ok(message) = Message::from_slice(octets) else {
        return Err(CallError::ShortInput);
    };
    let query = match query_of(transfer) {
        Ok(query) => query,
        Err(fault) => return Err(fault),
    };
    match answers_of(&query, state_of(transfer), &message) {
        Ok(records) => {
            let place = records.pos();
            let left = message.header_counts().ancount();
            Ok(Cursor {
                place,
                left,
                section: 1,
                status: 0,
                owner: 0,
            })
        }
        Err(error) => Err(fault_of(error)),
    }
}

/// Sets the cursor before the records of the next message of a transfer. The transfer keeps an error.
pub fn open(transfer: &mut Transfer, octets: &[u8], cursor: &mut Cursor) -> u32
    ensures kept { transfer.old.status ≢ 0 → (result ≡ transfer.old.status)
        × (transfer.new ≡ transfer.old) }
    ensures opens { result ≡ 0 → (asked : Asked) → IsAskedBy transfer.old asked
        → OpensMessage asked (state_of transfer.old) octets.now cursor.new }
    ensures same { result ≡ 0 → transfer.new ≡ transfer.old }
    ensures refuses { result ≢ 0 → transfer.old.status ≡ 0
        → RefusesToOpen transfer.old octets.now result }
    ensures status { result ≢ 0 → transfer.new ≡ record transfer.old { status = result } }
    ensures unchanged { result ≢ 0 → cursor.new ≡ cursor.old }
{
    if transfer.status != 0 {
        return transfer.status;
    }
    match opened(transfer, octets) {
        Ok(first) => {
            *cursor = first;
            0
        }
        Err(fault) => {
            let status = code::of_fault(fault);
            transfer.status = status;
            status
        }
    }
}

/// The item of a record of the answer section at offset `place`, which ends at offset `after`.
fn item_of(octets: &[u8], shown: &ParsedRecord<'_>, place: usize, after: usize) -> Item
    requires { ReadsRecord octets.now place after (parsed_entry shown.now) }
    ensures { ReportsRecord octets.now result (parsed_entry shown.now) }
{
    Item {
        place,
        data: after - usize::from(shown.rdlen()),
        ttl: shown.ttl().as_secs(),
        rtype: shown.rtype().to_int(),
        class: shown.class().to_int(),
        data_len: shown.rdlen(),
        section: 1,
    }
}

/// The cursor after a record, or before it if the record is taken again.
fn cursor_after(cursor: &Cursor, acted: &Acted<'_>) -> Cursor
    requires { 0 < cursor.now.left }
    ensures { result ≡ (if acted.now.again then cursor.now
        else record cursor.now { place = acted.now.after; left = cursor.now.left - 1 }) }
{
    let mut next = *cursor;
    if !acted.again {
        next.place = acted.after;
        next.left -= 1;
    }
    next
}

/// The first step at a cursor, the state and the cursor after it. `None` if no record is left.
fn taken(
    transfer: &Transfer,
    octets: &[u8],
    cursor: &Cursor,
) -> Result<Option<(Step, State, Cursor)>, CallError>
    ensures gives { IfOk result (λ found. IfSome found (λ it. (asked : Asked)
        → IsAskedBy transfer.now asked → GivesStep asked octets.now cursor.now it.2
        (state_of transfer.now) it.1 it.0)) }
    ensures end { IfOk result (λ found. IfNone found (cursor.now.left ≡ 0)) }
    ensures lacks { IfErr result (λ fault.
        LacksStep transfer.now octets.now cursor.now (number_of fault)) }
{
    let query = match query_of(transfer) {
        Ok(query) => query,
        Err(fault) => return Err(fault),
    };
    if cursor.left == 0 {
        return Ok(None);
    }
    match act_at(&query, state_of(transfer), octets, cursor.place) {
        Ok(acted) => {
            let item = item_of(octets, &acted.shown, cursor.place, acted.after);
            let (kind, serial) = numbers_of(acted.act);
            let step = Step { item, serial, kind };
            Ok(Some((step, acted.state, cursor_after(cursor, &acted))))
        }
        Err(error) => Err(fault_of(error)),
    }
}

/// The next step at a cursor of `open`. Returns 1 if the message has no more. The transfer keeps an
/// error.
pub fn next(transfer: &mut Transfer, octets: &[u8], cursor: &mut Cursor, step: &mut Step) -> u32
    ensures kept { transfer.old.status ≢ 0 → (result ≡ transfer.old.status)
        × (transfer.new ≡ transfer.old) }
    ensures gives { result ≡ 0 → (asked : Asked) → IsAskedBy transfer.old asked
        → GivesStep asked octets.now cursor.old cursor.new (state_of transfer.old)
        (state_of transfer.new) step.new }
    ensures asked { result ≡ 0 → (asked : Asked) → IsAskedBy transfer.old asked
        → IsAskedBy transfer.new asked }
    ensures goes_on { result ≡ 0 → transfer.new.status ≡ 0 }
    ensures end { result ≡ 1 → transfer.old.status ≡ 0 → cursor.old.left ≡ 0 }
    ensures same { result ≡ 1 → transfer.new ≡ transfer.old }
    ensures lacks { result ≢ 0 → result ≢ 1 → transfer.old.status ≡ 0
        → LacksStep transfer.old octets.now cursor.old result }
    ensures status { result ≢ 0 → result ≢ 1
        → transfer.new ≡ record transfer.old { status = result } }
    ensures unchanged { result ≢ 0 → (cursor.new ≡ cursor.old) × (step.new ≡ step.old) }
{
    if transfer.status != 0 {
        return transfer.status;
    }
    match taken(transfer, octets, cursor) {
        Ok(Some((found, state, after))) => {
            set_state(transfer, state);
            *cursor = after;
            *step = found;
            0
        }
        Ok(None) => 1,
        Err(fault) => {
            let status = code::of_fault(fault);
            transfer.status = status;
            status
        }
    }
}

/// Says that no message follows: 0 if the transfer has ended, otherwise the number of the error that
/// it keeps, or that it hasn't ended.
pub fn end(transfer: &Transfer) -> u32
    ensures { result ≡ (if transfer.now.status == 0
        then (if is_ended (state_of transfer.now) then 0 else number_of CallError.Incomplete)
        else transfer.now.status) }
{
    if transfer.status != 0 {
        return transfer.status;
    }
    if is_ended(state_of(transfer)) {
        0
    } else {
        code::of_fault(CallError::Incomplete)
    }
}
