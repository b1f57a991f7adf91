//! The rows of a message.
ghost use Rattle.std.specs.Prelude.{◌≡◌, ◌+◌, ◌<◌, ◌≤◌, ◌∷◌, [], IfOk, length, take};
ghost use Rattle.dns_code.specs.HeaderSection.{header_size};
ghost use Rattle.dns_code.specs.HeaderCounts.{counts};
ghost use Rattle.dnsview_rows.specs.Shown.{Begins, header_rows, short_header, ShowsMessage};
ghost use Rattle.dnsview_rows.specs.Tiles.{Tiles};
ghost use Rattle.dnsview_rows.specs.Entries.{all_parts};
ghost use Rattle.dnsview_rows.specs.Walks.{at, items, octets, sum_of, AreCountsOf, Comes, IsMarked, MarksParts};
ghost use Rattle.dns_read.specs.Sections.{question_count, answer_count, authority_count, additional_count};

use crate::row::{Row, RowFault, RowKind};
use crate::tile;
use crate::walk::{Stop, Walk};
use dns_code::{HeaderCounts, HeaderSection};
use std::alloc::{AllocError, Global};

/// The rows of any octets, each octet in exactly one of them. There is one row for each field of
/// the message up to the first that can't be read, one for the fault there, and one for the
/// remaining octets.
///
/// Octets that are fewer than a header section are one row. Octets after the last item are one row,
/// too. Returns `AllocError` if an allocation fails.
pub fn rows(alloc: Global, octets: &[u8]) -> Result<Vec<Row>, AllocError>
    ensures tiles { IfOk result (λ rows. Tiles rows.items 0 (length octets.now)) }
    ensures short { length octets.now < header_size
        → IfOk result (λ rows. rows.items ≡ short_header (length octets.now) ∷ []) }
    ensures header { header_size ≤ length octets.now
        → IfOk result (λ rows. take 6 rows.items ≡ header_rows) }
    ensures shows { header_size ≤ length octets.now
        → IfOk result (λ rows. ShowsMessage octets.now rows.items) }
{
    if octets.len() < HeaderSection::LEN {
        return short_rows(alloc, octets.len());
    }
    message_rows(alloc, octets)
}

/// The row of octets that are fewer than a header section.
fn short_rows(alloc: Global, len: usize) -> Result<Vec<Row>, AllocError>
    ensures { IfOk result (λ rows. rows.items ≡ short_header len ∷ []) }
{
    let mut rows = Vec::new(alloc);
    rows.push(Row {
        start: 0,
        end: len,
        kind: RowKind::ShortHeader,
    })?;
    Ok(rows)
}

/// The rows of octets that include a header section.
fn message_rows(alloc: Global, octets: &[u8]) -> Result<Vec<Row>, AllocError>
    requires { header_size ≤ length octets.now }
    ensures tiles { IfOk result (λ rows. Tiles rows.items 0 (length octets.now)) }
    ensures shows { IfOk result (λ rows. ShowsMessage octets.now rows.items) }
{
    let mut walk = Walk::new(alloc, octets);
    let stop = fault_of(&mut walk, counts_of(octets))?;
    let mut rows = tile::header(alloc)?;
    rows.append(&mut walk.rows)?;
    tile::push_rest(&mut rows, stop, walk.parser.pos(), octets.len())?;
    Ok(rows)
}

/// The counts of items in the sections of a message.
fn counts_of(octets: &[u8]) -> HeaderCounts
    requires { header_size ≤ length octets.now }
    ensures questions { (counts result).qdcount ≡ question_count octets.now }
    ensures answers { (counts result).ancount ≡ answer_count octets.now }
    ensures authorities { (counts result).nscount ≡ authority_count octets.now }
    ensures additionals { (counts result).arcount ≡ additional_count octets.now }
{
    HeaderCounts::for_message_slice(octets)
}

/// Walks over the items of a message, and returns the fault that ends the walk, if any.
fn fault_of(walk: &mut Walk, all: HeaderCounts) -> Result<Option<RowFault>, AllocError>
    requires marked { IsMarked walk.old }
    requires start { at walk.old ≡ header_size }
    requires counts { AreCountsOf (octets walk.old) (counts all) }
    ensures comes { Comes (sum_of (counts all)) walk.old walk.new }
    ensures begins { IfOk result (λ stop.
        Begins stop (items walk.new) (items walk.old + sum_of (counts all))) }
    ensures shows { IfOk result (λ stop.
        MarksParts all_parts stop walk.old walk.new) }
{
    match walk.items(all) {
        Ok(()) => Ok(None),
        Err(Stop::Fault(fault)) => Ok(Some(fault)),
        Err(Stop::Memory) => Err(AllocError),
    }
}
