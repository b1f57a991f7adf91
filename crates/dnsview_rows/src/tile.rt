//! Rows, and lists of consecutive rows.
ghost use Rattle.std.specs.Prelude.{◌≡◌, ◌++◌, OnOk, IfOk};
ghost use Rattle.dnsview_rows.specs.Fields.{field_row};
ghost use Rattle.dnsview_rows.specs.Shown.{header_rows, fault_rows, unread_rows};

use crate::row::{Part, Row, RowFault, RowField, RowKind};
use std::alloc::{AllocError, Global};

/// The row of a field.
pub(crate) fn field(start: usize, end: usize, field: RowField) -> Row
    ensures { result ≡ field_row start end field }
{
    let kind = RowKind::Field(field);
    Row { start, end, kind }
}

/// The rows of a header section, of 2 octets each (RFC 1035 section 4.1.1).
pub(crate) fn header(alloc: Global) -> Result<Vec<Row>, AllocError>
    ensures { IfOk result (λ rows. rows.items ≡ header_rows) }
{
    let rows = [
        field(0, 2, RowField::Id),
        field(2, 4, RowField::Flags),
        field(4, 6, RowField::Count(Part::Question)),
        field(6, 8, RowField::Count(Part::Answer)),
        field(8, 10, RowField::Count(Part::Authority)),
        field(10, 12, RowField::Count(Part::Additional)),
    ];
    Vec::from_slice(alloc, &rows)
}

/// Appends the row of the fault at `offset`, if there is one, and that of the octets from `offset`
/// to `len`, if there are any.
pub(crate) fn push_rest(
    rows: &mut Vec<Row>,
    stop: Option<RowFault>,
    offset: usize,
    len: usize,
) -> Result<(), AllocError>
    ensures { OnOk result (rows.new.items
        ≡ rows.old.items ++ (fault_rows stop offset ++ unread_rows offset len)) }
{
    push_fault(rows, stop, offset)?;
    if offset < len {
        rows.push(Row {
            start: offset,
            end: len,
            kind: RowKind::Unread,
        })?;
    }
    Ok(())
}

fn push_fault(rows: &mut Vec<Row>, stop: Option<RowFault>, offset: usize) -> Result<(), AllocError>
    ensures { OnOk result (rows.new.items ≡ rows.old.items ++ fault_rows stop offset) }
{
    if let Some(fault) = stop {
        rows.push(Row {
            start: offset,
            end: offset,
            kind: RowKind::Fault(fault),
        })?;
    }
    Ok(())
}
