//! Comparisons of fields and their hashes. They don't allocate.
ghost use Rattle.std.specs.Prelude.{◌≡◌, fold};
ghost use Rattle.std.specs.Cmp.Lexicographic.{slice_cmp};
ghost use Rattle.std.specs.List.{flat_map};
ghost use Rattle.dns_name.specs.ParsedName.{labels};
ghost use Rattle.dns_wire.specs.Parts.{CompressibleName};
ghost use Rattle.dns_data.specs.CanonicalOrders.{octet_order};
ghost use Rattle.fields_table.specs.DataOrders.{part_order, part_hash_input};
ghost use Rattle.fields_table.specs.EncodedFields.{part_of};
ghost use Rattle.fields_table.specs.FieldOrders.{canonical_part_octets, field_order, parts_left};

use crate::encoded::Encoded;
use crate::fields::Fields;
use dns_name::ParsedName;
use std::cmp::Ordering;
use std::hash::{Hash, Hasher};

/// Compares the fields in order, in canonical form if `canonical`. The first fields that differ
/// decide.
pub(crate) fn compare_fields(
    fields: Fields<'_>,
    mut others: Fields<'_>,
    canonical: bool,
) -> Ordering
    ensures { result ≡ slice_cmp (field_order canonical) (parts_left fields.entry)
        (parts_left others.entry) }
{
    for field in fields {
        let Some(other) = others.next() else {
            return Ordering::Greater;
        };
        let order = compare_field(&field.encoded, &other.encoded, canonical);
        if order.is_ne() {
            return order;
        }
    }
    match others.next() {
        None => Ordering::Equal,
        Some(_) => Ordering::Less,
    }
}

/// Compares two fields, in canonical form if `canonical`.
fn compare_field(field: &Encoded<'_>, other: &Encoded<'_>, canonical: bool) -> Ordering
    ensures { result ≡ field_order canonical (part_of field.now) (part_of other.now) }
{
    if canonical {
        compare_canonical(field, other)
    } else {
        compare_value(field, other)
    }
}

/// Compares two fields: octets by the first octet that differs, names as names.
fn compare_value(field: &Encoded<'_>, other: &Encoded<'_>) -> Ordering
    ensures { result ≡ part_order (part_of field.now) (part_of other.now) }
{
    match field {
        Encoded::Octets(octets) => match other {
            Encoded::Octets(others) => octets.cmp(others),
            Encoded::Name(_) | Encoded::UncompressedName(..) => Ordering::Less,
        },
        Encoded::Name(name) | Encoded::UncompressedName(_, name) => compare_name(name, other),
    }
}

/// Compares a name with a field.
fn compare_name(name: &ParsedName<'_>, other: &Encoded<'_>) -> Ordering
    ensures { result ≡ part_order (CompressibleName (labels name.now)) (part_of other.now) }
{
    match other {
        Encoded::Octets(_) => Ordering::Greater,
        Encoded::Name(other) | Encoded::UncompressedName(_, other) => name.cmp(other),
    }
}

/// Compares the octets of two fields in canonical form.
fn compare_canonical(field: &Encoded<'_>, other: &Encoded<'_>) -> Ordering
    ensures { result ≡ octet_order (canonical_part_octets (part_of field.now))
        (canonical_part_octets (part_of other.now)) }
{
    match field {
        Encoded::Octets(octets) => compare_octets(octets, other),
        Encoded::Name(name) => compare_octets(name.lowercased().as_slice(), other),
        Encoded::UncompressedName(lowers, name) => {
            if *lowers {
                compare_octets(name.lowercased().as_slice(), other)
            } else {
                compare_octets(name.uncompressed().as_slice(), other)
            }
        }
    }
}

/// Compares octets with the octets of a field in canonical form.
fn compare_octets(octets: &[u8], other: &Encoded<'_>) -> Ordering
    ensures { result ≡ octet_order octets.now (canonical_part_octets (part_of other.now)) }
{
    match other {
        Encoded::Octets(others) => octets.cmp(others),
        Encoded::Name(name) => octets.cmp(name.lowercased().as_slice()),
        Encoded::UncompressedName(lowers, name) => {
            if *lowers {
                octets.cmp(name.lowercased().as_slice())
            } else {
                octets.cmp(name.uncompressed().as_slice())
            }
        }
    }
}

/// Feeds a hasher the fields in order.
pub(crate) fn hash_fields<H: Hasher>(fields: Fields<'_>, state: &mut H)
    ensures { state.new ≡ fold H.write state.old
        (flat_map part_hash_input (parts_left fields.entry)) }
{
    for field in fields {
        hash_field(&field.encoded, state);
    }
}

/// Feeds a hasher a field.
fn hash_field<H: Hasher>(field: &Encoded<'_>, state: &mut H)
    ensures { state.new ≡ fold H.write state.old (part_hash_input (part_of field.now)) }
{
    match field {
        Encoded::Octets(octets) => octets.hash(state),
        Encoded::Name(name) | Encoded::UncompressedName(_, name) => name.hash(state),
    }
}
