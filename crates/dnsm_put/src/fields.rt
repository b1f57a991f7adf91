//! Puts the fields of RDATA that is read from another message.
ghost use Rattle.std.specs.Prelude.{◌≡◌, ◌+◌, ◌≤◌, length, take, IfSome, IsSome};
ghost use Rattle.dns_code.specs.HeaderSection.{header_size};
ghost use Rattle.dns_wire.specs.Parts.{part_size, parts_size};
ghost use Rattle.fields_table.specs.EncodedFields.{part_of};
ghost use Rattle.fields_table.specs.FieldOrders.{parts_left};
ghost use Rattle.dnsm_put.specs.Writing.{AreWritten, IsPartWritten};

use crate::names::put_name;
use crate::octets::put_octets;
use fields_table::{Encoded, Fields};

/// Puts a field at offset `at`. Only a name of a type of RFC 1035 is compressed (RFC 3597 section
/// 4); its pointer leads to an offset below `top`. Returns the offset after the field, or `None` if
/// it would be past `most`.
fn put_field(
    hints: &mut [u16; 64],
    out: &mut [u8],
    at: usize,
    most: usize,
    top: usize,
    field: &Encoded<'_>,
) -> Option<usize>
    requires most { most ≤ length out.old }
    requires at { at ≤ most }
    requires top { top ≤ at }
    requires after_header { header_size ≤ at }
    ensures written { IfSome result (λ end. IsPartWritten out.new top at end (part_of field.now)) }
    ensures within { IfSome result (λ end. end ≤ most) }
    ensures after { IfSome result (λ end. at ≤ end) }
    ensures size { IfSome result (λ end. end ≤ at + part_size (part_of field.now)) }
    ensures room { at + part_size (part_of field.now) ≤ most → IsSome result }
    ensures length { length out.new ≡ length out.old }
    ensures kept { take at out.new ≡ take at out.old }
{
    match field {
        Encoded::Octets(own) => put_octets(out, at, most, own),
        Encoded::Name(name) => {
            let octets = name.uncompressed();
            put_name(hints, out, at, most, top, octets.as_slice())
        }
        Encoded::UncompressedName(_, name) => {
            let octets = name.uncompressed();
            put_octets(out, at, most, octets.as_slice())
        }
    }
}

/// Puts fields in order, the first at offset `at`. Returns the offset after the last, or `None` if
/// it would be past `most`.
pub(crate) fn put_fields(
    hints: &mut [u16; 64],
    out: &mut [u8],
    at: usize,
    most: usize,
    top: usize,
    fields: Fields<'_>,
) -> Option<usize>
    requires most { most ≤ length out.old }
    requires at { at ≤ most }
    requires top { top ≤ at }
    requires after_header { header_size ≤ at }
    ensures written { IfSome result (λ end.
        AreWritten out.new top at end (parts_left fields.entry)) }
    ensures within { IfSome result (λ end. end ≤ most) }
    ensures after { IfSome result (λ end. at ≤ end) }
    ensures size { IfSome result (λ end. end ≤ at + parts_size (parts_left fields.entry)) }
    ensures room { at + parts_size (parts_left fields.entry) ≤ most → IsSome result }
    ensures length { length out.new ≡ length out.old }
    ensures kept { take at out.new ≡ take at out.old }
{
    let mut end = at;
    for field in fields {
        end = put_field(hints, out, end, most, top, &field.encoded)?;
    }
    Some(end)
}
