//! Rows of a page that share a line of the list, and a link of the grid.
ghost use Rattle.std.specs.Prelude.{◌≡◌, ◌≤◌, ◌∷◌, drop, length, map, take, IfOk};
ghost use Rattle.dnsview_tool.specs.Joined.{are_alike, are_consecutive, begin_on_one_line, begins_line, field_begins_line, is_tiny, last_end, line_of, line_row, lines, shares_line, shares_long_line, shares_tiny_line};

use dnsview_rows::{Row, RowField, RowKind};
use std::alloc::{AllocError, Global};

/// The octets on a line of the grid.
pub(crate) const OCTETS: usize = 16;

/// The maximum size of a row that shares a line of any page, in octets.
const TINY: usize = 2;

/// The rows that share a line of a page: the first, and the others in order.
#[derive(Clone, Copy)]
pub(crate) struct Line<'a> {
    pub(crate) first: Row,
    pub(crate) others: &'a [Row],
}

impl Line<'_> {
    /// The line as one row, of the first one's kind.
    pub(crate) fn row(&self) -> Row
        ensures { result ≡ line_row (line_of self.now) }
    {
        let end = last_end(&self.first, self.others);
        Row { end, ..self.first }
    }
}

/// Where the last of a row and the rows after it ends.
fn last_end(first: &Row, others: &[Row]) -> usize
    ensures { result ≡ last_end first.now others.now }
{
    match others.last() {
        Some(last) => last.end,
        None => first.end,
    }
}

/// The lines of rows, of which more share a line on a brief page.
pub(crate) fn lines<'a>(
    alloc: Global,
    is_brief: bool,
    rows: &'a [Row],
) -> Result<Vec<Line<'a>>, AllocError>
    ensures { IfOk result (λ list. map line_of list.items ≡ lines is_brief rows.now) }
{
    let mut lines = Vec::new(alloc);
    let mut left = rows;
    'lines: while let Some((first, others)) = left.split_first() {
        let (sharing, after) = others.split_at(count_sharing(is_brief, first, others));
        lines.push(Line {
            first: *first,
            others: sharing,
        })?;
        left = after;
    }
    Ok(lines)
}

/// How many of `others` share the line of the row `first`, which precedes them.
fn count_sharing(is_brief: bool, first: &Row, others: &[Row]) -> usize
    ensures within { result ≤ length others.now }
    ensures line { lines is_brief (first.now ∷ others.now)
        ≡ record { first = first.now; others = take result others.now }
        ∷ lines is_brief (drop result others.now) }
{
    let mut last = *first;
    for (index, row) in others.iter().enumerate() {
        if !shares_line(is_brief, &last, row) {
            return index;
        }
        last = *row;
    }
    others.len()
}

/// Whether a row shares the line of the row before it.
fn shares_line(is_brief: bool, before: &Row, row: &Row) -> bool
    ensures { result ≡ shares_line is_brief before.now row.now }
{
    are_consecutive(before, row)
        && if is_brief {
            shares_long_line(before, row)
        } else {
            shares_tiny_line(before, row)
        }
}

/// Whether the row before has octets, and the other begins where it ends.
fn are_consecutive(before: &Row, row: &Row) -> bool
    ensures { result ≡ are_consecutive before.now row.now }
{
    before.start < before.end && before.end == row.start && row.start <= row.end
}

/// Whether both rows begin on the same line of the grid.
fn begin_on_one_line(before: &Row, row: &Row) -> bool
    ensures { result ≡ begin_on_one_line before.now row.now }
{
    before.start / OCTETS == row.start / OCTETS
}

/// Whether both are labels, or character strings.
pub(crate) fn are_alike(before: RowKind, kind: RowKind) -> bool
    ensures { result ≡ are_alike before kind }
{
    match (before, kind) {
        (RowKind::Field(RowField::Label(_)), RowKind::Field(RowField::Label(_))) => true,
        (RowKind::Field(RowField::Text), RowKind::Field(RowField::Text)) => true,
        _ => false,
    }
}

fn is_tiny(row: &Row) -> bool
    ensures { result ≡ is_tiny row.now }
{
    row.start <= row.end && row.end - row.start <= TINY
}

/// Whether a row shares a line of any page: it and the row before it are labels or character
/// strings of at most one octet.
fn shares_tiny_line(before: &Row, row: &Row) -> bool
    ensures { result ≡ shares_tiny_line before.now row.now }
{
    are_alike(before.kind, row.kind)
        && is_tiny(before)
        && is_tiny(row)
        && begin_on_one_line(before, row)
}

/// Whether a row shares a line of a brief page. It does if it begins no line; a label or
/// character string after another also if both begin on the same line of the grid.
fn shares_long_line(before: &Row, row: &Row) -> bool
    ensures { result ≡ shares_long_line before.now row.now }
{
    !begins_line(row.kind) && (!are_alike(before.kind, row.kind) || begin_on_one_line(before, row))
}

/// Whether a row always begins a line.
fn begins_line(kind: RowKind) -> bool
    ensures { result ≡ begins_line kind }
{
    match kind {
        RowKind::Field(field) => field_begins_line(field),
        RowKind::ShortHeader | RowKind::Fault(_) | RowKind::Unread => true,
    }
}

/// Whether a field always begins a line: one of the header section, an item, a pointer, which has
/// an arrow, or an option.
fn field_begins_line(field: RowField) -> bool
    ensures { result ≡ field_begins_line field }
{
    match field {
        RowField::Id | RowField::Flags | RowField::Count(_) | RowField::Item(_, _) => true,
        RowField::Pointer(_, _) | RowField::OptionCode => true,
        _ => false,
    }
}
