//! Proved callers of zone transfers. Messages are in the cases of `cases_runs`.
ghost use Rattle.std.specs.Prelude.{◌≡◌, ◌≤◌, IfOk, IfSome, Ok, length};
ghost use Rattle.dns_read.specs.Message.{message_octets};
ghost use Rattle.dns_read.specs.SectionStarts.{records_of};
ghost use Rattle.dns_read.specs.declared.section.Section.TheVariants.{Answer};
ghost use Rattle.dns_transfer.specs.Steps.{run_of};
ghost use Rattle.dns_transfer.specs.Transfer.{asked_of, state_of};

use dns_build::PushError;
use dns_item::ComposeRecord;
use dns_read::Message;
use dns_target::TreeCompressor;
use dns_transfer::{Transfer, TransferError};
use dns_transfer_writer::TransferWriter;
use std::alloc::Global;

/// The transfer after all steps of a message.
fn after_message(transfer: Transfer, message: &Message<Vec<u8>>) -> Result<Transfer, TransferError>
    ensures { IfOk result (λ next. (run_of (asked_of transfer)
        (records_of Answer (message_octets message.now)) (state_of transfer)).1
        ≡ Ok (state_of next)) }
{
    match transfer.take(message) {
        Ok(steps) => steps.finish(),
        Err(error) => Err(error),
    }
}

/// The next message of a transfer over TCP, with its names compressed.
fn next_octets<R: ComposeRecord>(
    alloc: Global,
    writer: &mut TransferWriter<'_, R>,
) -> Option<Result<Vec<u8>, PushError>>
    ensures { IfSome result (λ message. IfOk message (λ octets. length octets.items ≤ 65535)) }
{
    let target = TreeCompressor::new(alloc, Vec::new(alloc));
    match writer.next_message(target, u16::MAX) {
        Some(Ok(builder)) => Some(Ok(builder.into_message().into_octets())),
        Some(Err(error)) => Some(Err(error)),
        None => None,
    }
}
