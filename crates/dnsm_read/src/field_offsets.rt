//! The offsets at which the fields of RDATA are encoded.
ghost use Rattle.std.specs.Prelude.{◌≡◌, ◌≤◌, ℕ, List, length, IfNone, IfSome};
ghost use Rattle.dns_name.specs.Names.{NameAt};
ghost use Rattle.dns_name.specs.ParsedName.{labels};
ghost use Rattle.fields_table.specs.EncodedFields.{part_of};
ghost use Rattle.fields_table.specs.FieldParts.{NamedPart, fields_left, named_part};
ghost use Rattle.dnsm_read.specs.FieldOffsets.{FieldsAt, IsFieldAt, PartAt};
ghost use Rattle.dnsm_read.specs.NameOffsets.{IsNameAmong, LacksNameAmong, NamesFrom};

use crate::name_offsets::name_within;
use crate::walk::name_end;
use dns_name::ParsedName;
use fields_table::{Encoded, Field, Fields};

/// The offset after a field that is encoded at offset `start`.
pub(crate) fn end_of(octets: &[u8], field: &Encoded<'_>, start: usize) -> usize
    requires { (end : ℕ) × PartAt octets.now (part_of field.now) start end }
    ensures { PartAt octets.now (part_of field.now) start result }
{
    match field {
        Encoded::Octets(own) => start + own.len(),
        Encoded::Name(_) | Encoded::UncompressedName(_, _) => {
            let Ok(end) = name_end(octets, start) else {
                unreachable!()
            };
            end
        }
    }
}

/// The field with this index among fields that are encoded at offset `start`, and its own offset.
pub(crate) fn field_at<'a>(
    octets: &[u8],
    fields: Fields<'a>,
    start: usize,
    index: usize,
) -> Option<(usize, Field<'a>)>
    requires { (end : ℕ) × FieldsAt octets.now (fields_left fields) start end }
    ensures field { IfSome result (λ found. (before : List NamedPart) × (end : ℕ)
        × IsFieldAt octets.now start (fields_left fields.entry) before (named_part found.1) found.0
        end × (length before ≡ index)) }
    ensures none { IfNone result (length (fields_left fields.entry) ≤ index) }
{
    let mut place = start;
    let mut left = index;
    for field in fields {
        if left == 0 {
            return Some((place, field));
        }
        left -= 1;
        place = end_of(octets, &field.encoded, place);
    }
    None
}

/// The name with this index among all names within fields that are encoded at offset `start`, and
/// its offset.
pub(crate) fn name_among<'a>(
    octets: &'a [u8],
    fields: Fields<'a>,
    start: usize,
    index: usize,
) -> Option<(usize, ParsedName<'a>)>
    requires { (offsets : List ℕ) × NamesFrom octets.now (fields_left fields) start offsets }
    ensures offset { IfSome result (λ found.
        IsNameAmong octets.now start (fields_left fields.entry) index found.0) }
    ensures name { IfSome result (λ found. NameAt octets.now found.0 (labels found.1)) }
    ensures none { IfNone result
        (LacksNameAmong octets.now start (fields_left fields.entry) index) }
{
    let mut offset = start;
    let mut left = index;
    for field in fields {
        match name_within(octets, &field, offset, left) {
            Ok(found) => return Some(found),
            Err(fewer) => left = fewer,
        }
        offset = end_of(octets, &field.encoded, offset);
    }
    None
}
