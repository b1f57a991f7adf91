//! RDATA that is made again: from the values of its fields, and as copies that own it.
use crate::case::{Case, digits_written};
use crate::named::made_of;
use dns_data::{ComposeRecordData, RecordData};
use dns_wire::{AppendError, FlattenInto, OctetsFrom};
use fields_forms::Location;
use fields_table::{FieldData, Fields, Kind, OwnedFieldData, Value, fields_of};
use fields_values::NewValue;
use std::alloc::{AllocError, Global};

impl Case {
    /// The digits of the RDATA that is made from the values of the fields, or why there is none.
    pub(crate) fn made(&self, alloc: Global) -> Result<String, AllocError> {
        match self.data() {
            Ok(data) => made_again(alloc, &data),
            Err(error) => error.to_string(alloc),
        }
    }

    /// Whether copies own the RDATA: "copied", or what is wrong.
    pub(crate) fn copied(&self, alloc: Global) -> Result<String, AllocError> {
        let word = match self.data() {
            Ok(data) => copies(alloc, &data),
            Err(_) => "malformed",
        };
        String::from_str(alloc, word)
    }
}

/// The digits of the RDATA that is made from the values of these fields.
fn made_again(alloc: Global, data: &FieldData<'_>) -> Result<String, AllocError> {
    let mut fields = data.fields();
    // No record type has more fields than RRSIG (RFC 4034 section 3.1).
    let values = [
        next_value(&mut fields),
        next_value(&mut fields),
        next_value(&mut fields),
        next_value(&mut fields),
        next_value(&mut fields),
        next_value(&mut fields),
        next_value(&mut fields),
        next_value(&mut fields),
        next_value(&mut fields),
    ];
    let count = fields_of(data.rtype().to_int()).len();
    let values = values.get(..count).unwrap_or(&[]);
    digits_written(alloc, made_of(alloc, data.rtype(), values))
}

/// The value of the next field, as it takes it. Zero if there is none.
fn next_value<'a>(fields: &mut Fields<'a>) -> NewValue<'a> {
    match fields.next() {
        Some(field) => own_value(field.kind, &field.value()),
        None => NewValue::Number(0),
    }
}

/// The value as a field of this kind takes it: an address, a locator or a location isn't `Octets`.
fn own_value<'a>(kind: Kind, value: &Value<'a>) -> NewValue<'a> {
    let Value::Octets(octets) = value else {
        return NewValue::from(value);
    };
    match kind {
        Kind::Eui48 => match <[u8; 6]>::try_from(*octets) {
            Ok(address) => NewValue::Eui48(address),
            Err(_) => NewValue::Number(0),
        },
        Kind::Eui64 => match <[u8; 8]>::try_from(*octets) {
            Ok(address) => NewValue::Eui64(address),
            Err(_) => NewValue::Number(0),
        },
        Kind::Locator64 => match <[u8; 8]>::try_from(*octets) {
            Ok(locator) => NewValue::Locator64(locator),
            Err(_) => NewValue::Number(0),
        },
        Kind::Location => match Location::from_octets(octets) {
            Some(location) => NewValue::Location(location),
            None => NewValue::from(value),
        },
        _ => NewValue::from(value),
    }
}

/// Copies RDATA in each way: "copied", or which copy isn't the same.
fn copies(alloc: Global, data: &FieldData<'_>) -> &'static str {
    if !is_copy(alloc, OwnedFieldData::from_field_data(alloc, data), data) {
        return "not by from_field_data";
    }
    if !is_copy(alloc, OwnedFieldData::try_octets_from(alloc, *data), data) {
        return "not by try_octets_from";
    }
    if !is_copy(alloc, data.try_flatten_into(alloc), data) {
        return "not by try_flatten_into";
    }
    "copied"
}

/// Whether a copy and a clone of it are the same RDATA.
fn is_copy(alloc: Global, copy: Result<OwnedFieldData, AppendError>, data: &FieldData<'_>) -> bool {
    let Ok(copy) = copy else {
        return false;
    };
    is_same(alloc, &copy, data) && is_clone(alloc, copy.clone(), data)
}

/// Whether a clone is the same RDATA.
fn is_clone(
    alloc: Global,
    clone: Result<OwnedFieldData, AllocError>,
    data: &FieldData<'_>,
) -> bool {
    match clone {
        Ok(clone) => is_same(alloc, &clone, data),
        Err(_) => false,
    }
}

/// Whether RDATA has the type of other RDATA, is equal to it, and is written as it is.
fn is_same(alloc: Global, owned: &OwnedFieldData, data: &FieldData<'_>) -> bool {
    let mut target = Vec::new(alloc);
    let mut other = Vec::new(alloc);
    owned.rtype() == data.rtype()
        && owned.as_field_data() == *data
        && owned.compose_rdata(&mut target).is_ok()
        && data.compose_rdata(&mut other).is_ok()
        && target.as_slice() == other.as_slice()
}
