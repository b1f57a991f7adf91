//! Pushing records while they fit.
ghost use Rattle.std.specs.Prelude.{◌≡◌, IfErr, IfOk, IsTrue};
ghost use Rattle.dns_build.specs.BuilderStates.{InEach};
ghost use Rattle.dns_build.specs.State.{InAnswer};
ghost use Rattle.dns_transfer_writer.specs.Filling.{Fills, is_full};
ghost use Rattle.dns_transfer_writer.specs.Queue.{queue_items};

use crate::queue::Queue;
use dns_build::{AnswerBuilder, PushError};
use dns_item::ComposeRecord;
use dns_wire::Composer;

/// Pushes the next records while they fit, and returns those after them. Fails only if an
/// allocation fails.
pub(crate) fn fill<'a, T: Composer, R: ComposeRecord>(
    builder: &mut AnswerBuilder<T>,
    queue: Queue<'a, R>,
) -> Result<Queue<'a, R>, PushError>
    ensures filled { IfOk result (λ left. InEach InAnswer T.rule builder.old (λ s.
        Fills T.capacity T.rule s (queue_items R.item queue.entry) (queue_items R.item left)
        builder.new)) }
    ensures memory { IfErr result (λ error. (error ≡ PushError.OutOfMemory) × IsTrue T.grows) }
{
    let mut left = queue;
    'records: while let Some((record, after)) = left.split() {
        if let Err(error) = builder.push_ref(record) {
            if is_full(error) {
                return Ok(left);
            }
            return Err(error);
        }
        left = after;
    }
    Ok(left)
}

/// Whether a push fails as the message is full. Else an allocation failed.
fn is_full(error: PushError) -> bool
    ensures { result ≡ is_full error }
{
    match error {
        PushError::ShortBuf | PushError::LimitExceeded | PushError::CountOverflow => true,
        PushError::OutOfMemory => false,
    }
}
