//! The messages of a stream, and the steps of zone transfers.
ghost use Rattle.std.specs.Prelude.{◌≡◌, ◌≢◌, ◌==◌, if◌then◌else◌};
ghost use Rattle.dns_name.specs.Uncompressed.{IsUncompressed};
ghost use Rattle.dns_stream.specs.Frames.{AreMissing, IsPartial};
ghost use Rattle.dns_transfer.specs.Asked.{Asked};
ghost use Rattle.dns_transfer.specs.Messages.{is_ended};
ghost use Rattle.dns_transfer.specs.declared.grammar.Request.TheVariants.{Axfr, Ixfr};
ghost use Rattle.dnsm_status.specs.Codes.{number_of};
ghost use Rattle.dnsm_transfers.specs.Frames.{BeginsWithLength, RefusesLength};
ghost use Rattle.dnsm_transfers.specs.Transfers.{Begins, GivesStep, IsAskedBy, LacksStep, OpensMessage, RefusesToOpen, state_of};

use dnsm_read::Cursor;
use dnsm_status::{CallError, code};
use dnsm_transfers::{Step, Transfer, frame, step, transfer};

/// Sets `len` to the number of octets of the first message of a stream, which follow the two of their
/// length (RFC 1035 section 4.2.2). Returns 1 if octets of its frame are missing. Sets `missing` to
/// how many are: from the length or, once that is there, from the message.
#[unsafe(no_mangle)]
pub extern "C" fn dnsm_first_message(stream: &[u8], len: &mut usize, missing: &mut usize) -> u32
    ensures whole { result ≡ 0 → BeginsWithLength stream.now len.new }
    ensures partial { result ≡ 1 → IsPartial stream.now }
    ensures missing { AreMissing stream.now missing.new }
    ensures refused { result ≢ 0 → result ≢ 1 → (result ≡ number_of CallError.ShortInput)
        × RefusesLength stream.now }
    ensures unchanged { result ≢ 0 → len.new ≡ len.old }
{
    *missing = frame::missing(stream);
    match frame::first_len(stream) {
        Ok(Some(found)) => {
            *len = found;
            0
        }
        Ok(None) => 1,
        Err(fault) => code::of_fault(fault),
    }
}

/// Begins a transfer of the zone whose uncompressed name is `zone`: of the changes since the version
/// with serial `known`, or of the whole zone. `id` is that of the query.
#[unsafe(no_mangle)]
pub extern "C" fn dnsm_begin_transfer(
    transfer: &mut Transfer,
    id: u16,
    zone: &[u8],
    class: u16,
    changes: bool,
    known: u32,
) -> u32
    ensures begins { result ≡ 0
        → Begins id class (if changes then Ixfr known else Axfr) zone.now transfer.new }
    ensures no_zone { result ≢ 0 → (result ≡ number_of CallError.BadText)
        × (IsUncompressed zone.now → ⊥) }
    ensures unchanged { result ≢ 0 → transfer.new ≡ transfer.old }
{
    let known = if changes { Some(known) } else { None };
    match transfer::begin(transfer, id, zone, class, known) {
        Ok(()) => 0,
        Err(fault) => code::of_fault(fault),
    }
}

/// Sets the cursor before the records of the next message of a transfer. The transfer keeps an error,
/// which each later call returns.
#[unsafe(no_mangle)]
pub extern "C" fn dnsm_open_transfer(
    transfer: &mut Transfer,
    message: &[u8],
    cursor: &mut Cursor,
) -> u32
    ensures kept { transfer.old.status ≢ 0 → (result ≡ transfer.old.status)
        × (transfer.new ≡ transfer.old) }
    ensures opens { result ≡ 0 → (asked : Asked) → IsAskedBy transfer.old asked
        → OpensMessage asked (state_of transfer.old) message.now cursor.new }
    ensures same { result ≡ 0 → transfer.new ≡ transfer.old }
    ensures refuses { result ≢ 0 → transfer.old.status ≡ 0
        → RefusesToOpen transfer.old message.now result }
    ensures status { result ≢ 0 → transfer.new ≡ record transfer.old { status = result } }
    ensures unchanged { result ≢ 0 → cursor.new ≡ cursor.old }
{
    step::open(transfer, message, cursor)
}

/// Sets `step` to the next step of a message, and moves the cursor past its record. Returns 1 if the
/// message has no more. The transfer keeps an error, which each later call returns.
#[unsafe(no_mangle)]
pub extern "C" fn dnsm_next_step(
    transfer: &mut Transfer,
    message: &[u8],
    cursor: &mut Cursor,
    step: &mut Step,
) -> u32
    ensures kept { transfer.old.status ≢ 0 → (result ≡ transfer.old.status)
        × (transfer.new ≡ transfer.old) }
    ensures gives { result ≡ 0 → (asked : Asked) → IsAskedBy transfer.old asked
        → GivesStep asked message.now cursor.old cursor.new (state_of transfer.old)
        (state_of transfer.new) step.new }
    ensures asked { result ≡ 0 → (asked : Asked) → IsAskedBy transfer.old asked
        → IsAskedBy transfer.new asked }
    ensures goes_on { result ≡ 0 → transfer.new.status ≡ 0 }
    ensures end { result ≡ 1 → transfer.old.status ≡ 0 → cursor.old.left ≡ 0 }
    ensures same { result ≡ 1 → transfer.new ≡ transfer.old }
    ensures lacks { result ≢ 0 → result ≢ 1 → transfer.old.status ≡ 0
        → LacksStep transfer.old message.now cursor.old result }
    ensures status { result ≢ 0 → result ≢ 1
        → transfer.new ≡ record transfer.old { status = result } }
    ensures unchanged { result ≢ 0 → (cursor.new ≡ cursor.old) × (step.new ≡ step.old) }
{
    step::next(transfer, message, cursor, step)
}

/// Says that no message follows: returns the error that the transfer keeps, or that it hasn't ended.
#[unsafe(no_mangle)]
pub extern "C" fn dnsm_end_transfer(transfer: &Transfer) -> u32
    ensures { result ≡ (if transfer.now.status == 0
        then (if is_ended (state_of transfer.now) then 0 else number_of CallError.Incomplete)
        else transfer.now.status) }
{
    step::end(transfer)
}
