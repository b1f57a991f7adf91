//! Record data from values.
ghost use Rattle.std.specs.Prelude.{◌≡◌, ◌+◌, ◌<◌, ◌^◌, length};
ghost use Rattle.fields_table.specs.Table.{kinds};
ghost use Rattle.fields_values.specs.Appending.{AppendsValues, error_at};
ghost use Rattle.fields_values.specs.ValueData.{MakesData};

use crate::new_value::NewValue;
use crate::push::push_value;
use crate::value_error::{Refusal, ValueError};
use dns_iana::Rtype;
use dns_wire::MAX_OCTETS;
use fields_table::laws::{made_parts_read_back, rest_fields_are_last};
use fields_table::{Kind, OwnedFieldData, fields_of, owned_data};
use std::alloc::Global;

/// The error of the value at this index.
fn error_at(refusal: Refusal, index: usize) -> ValueError
    ensures { result ≡ error_at refusal index }
{
    match refusal {
        Refusal::WrongKind => ValueError::WrongKind(index),
        Refusal::OutOfRange => ValueError::OutOfRange(index),
        Refusal::OutOfMemory => ValueError::OutOfMemory,
    }
}

/// Appends the values of these fields, the first of which is at this index.
fn push_values(
    alloc: Global,
    octets: &mut Vec<u8>,
    fields: &[(&'static str, Kind)],
    values: &[NewValue<'_>],
    index: usize,
) -> Result<(), ValueError>
    requires same { length fields.now ≡ length values.now }
    requires in_range { index + length values.now < 2 ^ 63 }
    ensures { AppendsValues index (kinds fields.now) values.now octets.old.items octets.new.items
        result }
{
    let [field, other_fields @ ..] = fields else {
        return Ok(());
    };
    let [value, other_values @ ..] = values else {
        return Ok(());
    };
    match push_value(alloc, octets, field.1, value) {
        Ok(()) => push_values(alloc, octets, other_fields, other_values, index + 1),
        Err(refusal) => Err(error_at(refusal, index)),
    }
}

/// Makes the RDATA of this record type from a value for each field.
///
/// A type that the table of `fields_table` doesn't list, such as TYPE65280 or OPT, has one field,
/// which takes any `NewValue::Octets`.
///
/// Errors, checked in this order: `WrongCount`; for each value in order `WrongKind` or
/// `OutOfRange`; `TooLong`. `OutOfMemory` if an allocation fails.
pub fn from_values(
    alloc: Global,
    rtype: Rtype,
    values: &[NewValue<'_>],
) -> Result<OwnedFieldData, ValueError>
    ensures { MakesData rtype values.now result }
{
    made_parts_read_back();
    rest_fields_are_last();
    let fields = fields_of(rtype.to_int());
    if fields.len() != values.len() {
        return Err(ValueError::WrongCount);
    }
    let mut octets = Vec::new(alloc);
    if let Err(error) = push_values(alloc, &mut octets, fields, values, 0) {
        return Err(error);
    }
    if octets.len() > MAX_OCTETS {
        return Err(ValueError::TooLong);
    }
    Ok(owned_data(rtype, octets))
}
