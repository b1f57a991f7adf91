//! Reads the messages of a transfer from a stream, and prints their steps.
ghost use Rattle.std.specs.Prelude.{◌≡◌, OnOk};
ghost use Rattle.dns_message.specs.Messages.{message_octets};
ghost use Rattle.dns_message.specs.Streams.{IsPartial};
ghost use Rattle.dns_message.specs.Transfers.Steps.{asked_of as asked_by_steps, state_left, steps_left};
ghost use Rattle.dns_message.specs.Transfers.{asked_of, state_of};
ghost use Rattle.example_transfer.specs.Printed.{PrintsItems};
ghost use Rattle.example_transfer.specs.Transfer.{Ends, PrintsMessage, PrintsTransfer};

use crate::print::print_item;
use dns_message::message::Message;
use dns_message::stream::{FrameError, MAX_FRAME, first_message};
use dns_message::transfer::{Steps, Transfer, TransferError};
use std::alloc::Global;
use std::io;
use std::io::Write;
use thiserror::Error;

/// Why a transfer isn't complete, or isn't printed.
#[derive(Debug, Drop, Error)]
pub enum Failure {
    /// The length of a message is refused.
    #[error("{0}")]
    Frame(FrameError),
    /// A message isn't the next one of the transfer.
    #[error("{0}")]
    Transfer(TransferError),
    /// The stream ends before the transfer, or within a message.
    #[error("the transfer is cut off")]
    Cut,
    /// Printing failed.
    #[error("{0}")]
    Printing(io::Error),
}

/// Prints the steps of the messages in a stream, in order, up to the first failure. `by_ixfr` says
/// whether changes were asked for.
pub fn print_transfer<W: Write>(
    alloc: Global,
    transfer: Transfer,
    by_ixfr: bool,
    stream: &[u8],
    writer: &mut W,
) -> Result<(), Failure>
    ensures { PrintsTransfer by_ixfr (asked_of transfer) (state_of transfer) stream.now
        (W.contents writer.old) (W.contents writer.new) result }
{
    let mut kept = Vec::new(alloc);
    let mut current = transfer;
    let mut rest = stream;
    'messages: loop {
        match first_message(rest, MAX_FRAME) {
            Ok(Some((message, after))) => {
                match print_message(current, by_ixfr, &mut kept, &message, writer) {
                    Ok(next) => {
                        current = next;
                        rest = after;
                    }
                    Err(failure) => return Err(failure),
                }
            }
            Ok(None) => return end_of(&current, rest),
            Err(error) => return Err(Failure::Frame(error)),
        }
    }
}

/// Whether a transfer is complete at the end of its stream, where these octets are left.
fn end_of(transfer: &Transfer, rest: &[u8]) -> Result<(), Failure>
    ensures { Ends rest.now (state_of transfer.now) result }
{
    if rest.is_empty() && transfer.has_ended() {
        Ok(())
    } else {
        Err(Failure::Cut)
    }
}

/// Prints the steps of a message. Returns the transfer after it. `kept` is the line that a whole zone
/// begins with, if it follows in place of changes.
fn print_message<W: Write>(
    transfer: Transfer,
    by_ixfr: bool,
    kept: &mut Vec<u8>,
    message: &Message<&[u8]>,
    writer: &mut W,
) -> Result<Transfer, Failure>
    ensures { PrintsMessage by_ixfr kept.old.items kept.new.items (asked_of transfer)
        (state_of transfer) (message_octets message.now) (W.contents writer.old)
        (W.contents writer.new) result }
{
    let mut steps = match transfer.take(message) {
        Ok(steps) => steps,
        Err(error) => return Err(Failure::Transfer(error)),
    };
    if let Err(error) = print_steps(&mut steps, by_ixfr, kept, writer) {
        return Err(Failure::Printing(error));
    }
    match steps.finish() {
        Ok(next) => Ok(next),
        Err(error) => Err(Failure::Transfer(error)),
    }
}

/// Prints the steps of a message.
fn print_steps<W: Write>(
    steps: &mut Steps<'_>,
    by_ixfr: bool,
    kept: &mut Vec<u8>,
    writer: &mut W,
) -> io::Result<()>
    ensures printed { OnOk result (PrintsItems by_ixfr kept.old.items (steps_left steps.old)
        kept.new.items (W.contents writer.old) (W.contents writer.new)) }
    ensures state { state_left steps.new ≡ state_left steps.old }
    ensures asked { asked_by_steps steps.new ≡ asked_by_steps steps.old }
{
    while let Some(item) = steps.next() {
        print_item(writer, by_ixfr, kept, &item)?;
    }
    Ok(())
}
