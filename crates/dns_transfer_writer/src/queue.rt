//! The records of a transfer, in the order in which they are sent (RFC 5936 section 2.2, RFC 1995
//! section 4).
ghost use Rattle.std.specs.Prelude.{◌≡◌, ◌∷◌, [], map, MatchOption};
ghost use Rattle.dns_item.specs.Items.{RecordItem};
ghost use Rattle.dns_transfer_writer.specs.Queue.{added_items, differences_of, next_items, queue_items, removed_items};
ghost use Rattle.dns_transfer_writer.specs.Sequences.{changes_sequence, whole_sequence};

use dns_item::ComposeRecord;

/// A difference between two versions of a zone (RFC 1995 section 4). The records are those that
/// aren't SOA records of the zone.
#[derive(Debug, Drop)]
pub struct Difference<'a, R> {
    /// The SOA record of the older version.
    pub old_soa: &'a R,
    /// The records of the older version that the newer one hasn't.
    pub removed: &'a [R],
    /// The SOA record of the newer version.
    pub new_soa: &'a R,
    /// The records of the newer version that the older one hasn't.
    pub added: &'a [R],
}

/// What comes next in a transfer.
#[derive(Debug, Drop)]
enum Next<'a, R> {
    /// The SOA record, then the same as with `Added`.
    First(&'a [R], &'a [Difference<'a, R>]),
    /// Records that are added, then the differences, then the SOA record.
    Added(&'a [R], &'a [Difference<'a, R>]),
    /// Records that are removed, an SOA record, then the same as with `Added`.
    Removed(&'a [R], &'a R, &'a [R], &'a [Difference<'a, R>]),
    /// The SOA record alone.
    Last,
    /// Nothing.
    Nothing,
}

/// The records that are still to be sent.
#[derive(Debug, Drop)]
pub(crate) struct Queue<'a, R> {
    /// The SOA record of the server's version.
    soa: &'a R,
    next: Next<'a, R>,
}

impl<'a, R: ComposeRecord> Queue<'a, R> {
    /// The whole zone: its SOA record is sent first and last.
    pub(crate) fn whole(soa: &'a R, records: &'a [R]) -> Self
        ensures { queue_items R.item result
            ≡ whole_sequence (R.item soa.now) (map R.item records.now) }
    {
        Queue {
            soa,
            next: Next::First(records, &[]),
        }
    }

    /// The differences, with the SOA record before and after them, or this record alone if there
    /// are none.
    pub(crate) fn changes(soa: &'a R, differences: &'a [Difference<'a, R>]) -> Self
        ensures { queue_items R.item result ≡ changes_sequence (R.item soa.now)
            (differences_of R.item differences.now) }
    {
        let next = if differences.is_empty() {
            Next::Last
        } else {
            Next::First(&[], differences)
        };
        Queue { soa, next }
    }

    /// The next record, and those after it.
    pub(crate) fn split(&self) -> Option<(&'a R, Queue<'a, R>)>
        ensures { MatchOption result (queue_items R.item self.now ≡ []) (λ p.
            queue_items R.item self.now ≡ R.item p.0.now ∷ queue_items R.item p.1) }
    {
        let soa = self.soa;
        let (record, next) = match self.next {
            Next::First(added, later) => (soa, Next::Added(added, later)),
            Next::Added(added, later) => split_added(soa, added, later),
            Next::Removed(removed, new_soa, added, later) => {
                split_removed(removed, new_soa, added, later)
            }
            Next::Last => (soa, Next::Nothing),
            Next::Nothing => return None,
        };
        Some((record, Queue { soa, next }))
    }
}

/// The next record, where records are added, and what comes after it.
fn split_added<'a, R: ComposeRecord>(
    soa: &'a R,
    added: &'a [R],
    later: &'a [Difference<'a, R>],
) -> (&'a R, Next<'a, R>)
    ensures { added_items R.item (R.item soa.now) added.now later.now
        ≡ R.item result.0.now ∷ next_items R.item (R.item soa.now) result.1 }
{
    if let Some((record, rest)) = added.split_first() {
        return (record, Next::Added(rest, later));
    }
    match later.split_first() {
        Some((first, others)) => (
            first.old_soa,
            Next::Removed(first.removed, first.new_soa, first.added, others),
        ),
        None => (soa, Next::Nothing),
    }
}

/// The next record, where records are removed, and what comes after it.
fn split_removed<'a, R: ComposeRecord>(
    removed: &'a [R],
    new_soa: &'a R,
    added: &'a [R],
    later: &'a [Difference<'a, R>],
) -> (&'a R, Next<'a, R>)
    ensures { (soa : RecordItem)
        → removed_items R.item soa removed.now new_soa.now added.now later.now
        ≡ R.item result.0.now ∷ next_items R.item soa result.1 }
{
    match removed.split_first() {
        Some((record, rest)) => (record, Next::Removed(rest, new_soa, added, later)),
        None => (new_soa, Next::Added(added, later)),
    }
}
