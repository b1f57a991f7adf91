//! The table in ranges of numbers.
ghost use Rattle.std.specs.Prelude.{◌≡◌, true};
ghost use Rattle.fields_table.specs.Ranges.{next_range, range_of, range_types};
ghost use Rattle.fields_table.specs.Table.{are_above, types_in};

use crate::table::{Row, TYPES_FROM_1, TYPES_FROM_24, TYPES_FROM_48, TYPES_FROM_99};

/// A range of the numbers of record types, whose rows are one constant: the proof of a function
/// that names a constant costs by the square of its rows.
#[derive(Clone, Copy, Debug)]
pub(crate) enum TypeRange {
    /// 1 to 23.
    From1,
    /// 24 to 47.
    From24,
    /// 48 to 98.
    From48,
    /// 99 and greater.
    From99,
}

impl TypeRange {
    /// The range of a number.
    pub(crate) fn of(rtype: u16) -> Self
        ensures { result ≡ range_of rtype }
    {
        if rtype < 24 {
            TypeRange::From1
        } else if rtype < 48 {
            TypeRange::From24
        } else if rtype < 99 {
            TypeRange::From48
        } else {
            TypeRange::From99
        }
    }

    /// The rows of the record types in the range.
    pub(crate) fn rows(self) -> &'static [Row]
        ensures types { types_in result.now ≡ range_types self }
        ensures increasing { are_above 0 result.now ≡ true }
    {
        match self {
            TypeRange::From1 => TYPES_FROM_1,
            TypeRange::From24 => TYPES_FROM_24,
            TypeRange::From48 => TYPES_FROM_48,
            TypeRange::From99 => TYPES_FROM_99,
        }
    }

    /// The next range.
    pub(crate) fn next(self) -> Option<TypeRange>
        ensures { result ≡ next_range self }
    {
        match self {
            TypeRange::From1 => Some(TypeRange::From24),
            TypeRange::From24 => Some(TypeRange::From48),
            TypeRange::From48 => Some(TypeRange::From99),
            TypeRange::From99 => None,
        }
    }
}
