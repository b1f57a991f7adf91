//! The fields of RDATA, one by one.
ghost use Rattle.std.specs.Prelude.{◌≡◌, ◌≢◌, ◌+◌, ◌-◌, ◌≤◌, ℕ, true, Err, IfErr, IfOk, Ok};
ghost use Rattle.fields_table.specs.EncodedFields.{part_of};
ghost use Rattle.fields_table.specs.Values.{part_value};
ghost use Rattle.dnsm_status.specs.Codes.{number_of};
ghost use Rattle.dnsm_read.specs.DataFields.{LacksData};
ghost use Rattle.dnsm_read.specs.FieldOffsets.{PartAt};
ghost use Rattle.dnsm_read.specs.FieldValues.{HasEnded, IsDataField, IsPlaced, Shows};

use crate::data_fields::{data_type, fields};
use crate::field_offsets::{end_of, field_at};
use crate::walk::Item;
use dnsm_status::CallError;
use fields_table::{Field, Value, fields_of};

/// A field of RDATA.
#[repr(C)]
#[derive(Clone, Copy)]
pub struct DataField {
    /// The offset of a name or of octets.
    pub place: usize,
    /// The count of octets.
    pub len: usize,
    /// A number, or the number of a record type.
    pub number: u64,
    /// What the field is: 0 a number, 1 a record type, 2 the octets of an IPv4 address, 3 those of
    /// an IPv6 address, 4 a name, 5 the octets of a string, 6 octets that follow their length of 16
    /// bits, 7 any other octets. Members that don't belong to the kind are 0.
    pub kind: u8,
}

/// A number.
fn number(kind: u8, number: u64) -> DataField
    ensures kind { result.kind ≡ kind }
    ensures number { result.number ≡ number }
    ensures place { result.place ≡ 0 }
    ensures len { result.len ≡ 0 }
{
    DataField {
        place: 0,
        len: 0,
        number,
        kind,
    }
}

/// The last `len` octets before offset `end`.
fn octets_before(kind: u8, end: usize, len: usize) -> DataField
    requires { len ≤ end }
    ensures kind { result.kind ≡ kind }
    ensures place { result.place ≡ end - len }
    ensures len { result.len ≡ len }
    ensures number { result.number ≡ 0 }
{
    DataField {
        place: end - len,
        len,
        number: 0,
        kind,
    }
}

/// What C gets of a field that is encoded at offset `start`.
fn shown(octets: &[u8], field: &Field<'_>, start: usize) -> DataField
    requires { (end : ℕ) × PartAt octets.now (part_of field.now.encoded) start end }
    ensures value { Shows octets.now result
        (part_value field.now.kind (part_of field.now.encoded)) }
    ensures placed { (end : ℕ) × PartAt octets.now (part_of field.now.encoded) start end
        × IsPlaced result (part_value field.now.kind (part_of field.now.encoded)) start end }
{
    let end = end_of(octets, &field.encoded, start);
    match field.value() {
        Value::Number(value) => number(0, value),
        Value::RecordType(rtype) => number(1, u64::from(rtype.to_int())),
        Value::Ipv4(own) => octets_before(2, end, own.len()),
        Value::Ipv6(own) => octets_before(3, end, own.len()),
        Value::Name(_) => octets_before(4, start, 0),
        Value::String(own) => octets_before(5, end, own.len()),
        Value::Sized(own) => octets_before(6, end, own.len()),
        Value::Octets(own) => octets_before(7, end, own.len()),
    }
}

/// Reads the field with this index in the RDATA of a record, and adds one to the index. Returns
/// `Ok(false)` if there are no more fields. A question has no RDATA.
pub fn next_field(
    octets: &[u8],
    item: &Item,
    index: &mut usize,
    field: &mut DataField,
) -> Result<bool, CallError>
    ensures question { item.now.section ≡ 0 → result ≡ Err CallError.BadSection }
    ensures field { IfOk result (λ given. given ≡ true
        → IsDataField octets.now item.now index.old field.new) }
    ensures next { IfOk result (λ given. given ≡ true → index.new ≡ index.old + 1) }
    ensures end { IfOk result (λ given. given ≢ true → HasEnded octets.now item.now index.old) }
    ensures none { IfErr result (λ fault. item.now.section ≢ 0
        → LacksData octets.now item.now (number_of fault)) }
    ensures unchanged { result ≢ Ok true → (index.new ≡ index.old) × (field.new ≡ field.old) }
{
    let (seen, data) = fields(octets, item)?;
    if *index >= fields_of(data_type(item).to_int()).len() {
        return Ok(false);
    }
    let Some((start, found)) = field_at(seen, data.fields(), item.data, *index) else {
        return Ok(false);
    };
    *field = shown(seen, &found, start);
    *index += 1;
    Ok(true)
}
