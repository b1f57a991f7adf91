//! The next message of a transfer, up to its answer section.
ghost use Rattle.std.specs.Prelude.{◌≡◌, None, IfErr, IfOk, OnOk};
ghost use Rattle.dns_read.specs.Message.{message_octets};
ghost use Rattle.dns_read.specs.RecordSection.{BeginsSection};
ghost use Rattle.dns_read.specs.declared.section.Section.TheVariants.{Answer};
ghost use Rattle.dns_transfer.specs.Asked.{asked_by};
ghost use Rattle.dns_transfer.specs.Messages.{RefusesMessage, error_before_answers};

use crate::error::TransferError;
use crate::grammar::State;
use crate::query::Query;
use dns_octets::Octets;
use dns_read::{Message, RecordSection};

/// The answer section of the next message of a transfer.
///
/// The errors are those of [`Transfer::take`](crate::Transfer::take).
pub fn answers_of<'a, Octs: Octets>(
    query: &Query,
    state: State,
    message: &'a Message<Octs>,
) -> Result<RecordSection<'a>, TransferError>
    ensures no_error { OnOk result (error_before_answers (asked_by query.now) state
        (message_octets message.now) ≡ None) }
    ensures begins { IfOk result (λ records. BeginsSection Answer (message_octets message.now)
        records) }
    ensures refuses { IfErr result (RefusesMessage (asked_by query.now) state
        (message_octets message.now)) }
{
    let rcode = message.opt_rcode();
    if let Err(error) = query.check(state, message.header(), rcode, message.question()) {
        return Err(error);
    }
    match message.answer() {
        Ok(records) => Ok(records),
        Err(error) => Err(TransferError::Parse(error)),
    }
}
