//! The writer of a transfer.
ghost use Rattle.std.specs.Prelude.{◌≡◌, ◌∷◌, false, map, MatchResult};
ghost use Rattle.dns_read.specs.Message.{message_octets};
ghost use Rattle.dns_transfer_writer.specs.Messages.{CantWrite, GivesMessage, Holds};
ghost use Rattle.dns_transfer_writer.specs.Queue.{differences_of, queue_items};
ghost use Rattle.dns_transfer_writer.specs.Sequences.{changes_sequence, whole_sequence};
ghost use Rattle.dns_transfer_writer.specs.Writer.{sending};

use crate::begin::begin;
use crate::fill::fill;
use crate::queue::{Difference, Queue};
use dns_build::{AnswerBuilder, PushError};
use dns_item::ComposeRecord;
use dns_octets::Octets;
use dns_read::Message;
use dns_wire::Composer;

/// A response to a query for a transfer, of which some messages were written, perhaps none.
///
/// Contracts see a writer as a `Sending`: the query, whether a message was written, and the records
/// that are still to be sent.
#[derive(Debug, Drop)]
pub struct TransferWriter<'a, R> {
    query: Message<&'a [u8]>,
    /// Whether a message was written.
    begun: bool,
    queue: Queue<'a, R>,
}

impl<'a, R: ComposeRecord> TransferWriter<'a, R> {
    /// The whole zone, for AXFR, or in place of changes (RFC 5936 section 2.2, RFC 1995 section 4).
    ///
    /// `soa` is the zone's SOA record, `records` are its other records. The SOA record is sent
    /// first and last.
    pub fn whole<Octs: Octets>(query: &'a Message<Octs>, soa: &'a R, records: &'a [R]) -> Self
        ensures { sending R.item result ≡ record {
          query = message_octets query.now;
          begun = false;
          left = whole_sequence (R.item soa.now) (map R.item records.now);
        } }
    {
        TransferWriter::new(query, Queue::whole(soa, records))
    }

    /// The changes since the version that the query knows, for IXFR (RFC 1995 section 4).
    ///
    /// `soa` is the SOA record of the zone's version now. The differences lead to it, oldest first.
    /// If there are none, this SOA record is sent alone: nothing is newer (section 2).
    pub fn changes<Octs: Octets>(
        query: &'a Message<Octs>,
        soa: &'a R,
        differences: &'a [Difference<'a, R>],
    ) -> Self
        ensures { sending R.item result ≡ record {
          query = message_octets query.now;
          begun = false;
          left = changes_sequence (R.item soa.now) (differences_of R.item differences.now);
        } }
    {
        TransferWriter::new(query, Queue::changes(soa, differences))
    }

    /// The writer of these records.
    fn new<Octs: Octets>(query: &'a Message<Octs>, queue: Queue<'a, R>) -> Self
        ensures { sending R.item result ≡ record {
          query = message_octets query.now;
          begun = false;
          left = queue_items R.item queue.entry;
        } }
    {
        TransferWriter {
            query: query.for_slice(),
            begun: false,
            queue,
        }
    }

    /// Writes the next message over `target`, which is emptied, with as many of the next records as
    /// fit in `limit` octets. Returns `None` if all records were written.
    ///
    /// The builder can still take an OPT or TSIG record: pass a lower limit, and set it higher
    /// then. Over TCP a message has at most 65,535 octets.
    ///
    /// Errors: those of a push of the question, which only the first message has, or of the next
    /// record alone; `ShortBuf` if the target hasn't capacity for a header section; `OutOfMemory`.
    /// Nothing changes on error.
    pub fn next_message<T: Composer>(
        &mut self,
        target: T,
        limit: u16,
    ) -> Option<Result<AnswerBuilder<T>, PushError>>
        ensures { GivesMessage T.capacity T.grows T.rule limit (sending R.item self.old)
            (sending R.item self.new) result }
    {
        let Some((first, after)) = self.queue.split() else {
            return None;
        };
        match write(&self.query, self.begun, target, limit, first, after) {
            Ok((builder, left)) => {
                self.begun = true;
                self.queue = left;
                Some(Ok(builder))
            }
            Err(error) => Some(Err(error)),
        }
    }
}

/// Writes a message with the record `first`, and as many of those after it as fit. Returns the
/// others too.
fn write<'a, T: Composer, R: ComposeRecord>(
    query: &Message<&[u8]>,
    begun: bool,
    target: T,
    limit: u16,
    first: &R,
    after: Queue<'a, R>,
) -> Result<(AnswerBuilder<T>, Queue<'a, R>), PushError>
    ensures { let asked = message_octets query.now in MatchResult result
        (λ written. Holds T.capacity T.rule begun limit asked
        (R.item first.now ∷ queue_items R.item after.entry) (queue_items R.item written.1)
        written.0)
        (CantWrite T.capacity T.grows T.rule begun limit asked (R.item first.now)) }
{
    let mut builder = match begin(query, begun, target, limit) {
        Ok(builder) => builder,
        Err(error) => return Err(error),
    };
    if let Err(error) = builder.push_ref(first) {
        return Err(error);
    }
    match fill(&mut builder, after) {
        Ok(left) => Ok((builder, left)),
        Err(error) => Err(error),
    }
}
