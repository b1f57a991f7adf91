//! The record types of the table, one after the other.
ghost use Rattle.std.specs.Prelude.{◌≡◌};
ghost use Rattle.fields_table.specs.RecordTypes.{record_types};
ghost use Rattle.fields_table.specs.Rows.{types_left};

use crate::laws::table_is_specified;
use crate::range::TypeRange;
use crate::table::Row;

/// An iterator over the record types with known fields, by increasing numbers.
#[derive(Clone, Copy, Debug)]
pub struct RecordTypes {
    /// The rows that are left of a range.
    left: &'static [Row],
    /// The next range.
    range: Option<TypeRange>,
}

/// The record types with known fields: number, mnemonic, and fields in order.
pub fn record_types() -> RecordTypes
    ensures { types_left result ≡ record_types }
{
    table_is_specified();
    RecordTypes {
        left: &[],
        range: Some(TypeRange::From1),
    }
}

impl RecordTypes {
    ghost use Rattle.std.specs.Prelude.{[]};

    /// If no row is left, takes those of the next range that has rows.
    fn fill(&mut self)
        ensures same { types_left self.new ≡ types_left self.old }
        ensures none { self.new.left.now ≡ [] → types_left self.new ≡ [] }
    {
        'ranges: while self.left.is_empty() {
            let Some(range) = self.range else {
                return;
            };
            self.left = range.rows();
            self.range = range.next();
        }
    }
}

impl Iterator for RecordTypes {
    ghost use Rattle.std.specs.Iterator.{YieldsFirstBy, item_count};
    ghost use Rattle.fields_table.specs.Rows.{types_left};
    ghost use Rattle.fields_table.specs.Table.{type_of};

    type Item = Row;

    ghost next_gives = { YieldsFirstBy type_of types_left };

    ghost remaining = { item_count types_left };

    fn next(&mut self) -> Option<Row> {
        self.fill();
        let [row, after @ ..] = self.left else {
            return None;
        };
        let first = *row;
        self.left = after;
        Some(first)
    }
}
