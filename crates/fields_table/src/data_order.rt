//! Comparisons of RDATA (RFC 4034 section 6.3) and its hash. They don't allocate.
ghost use Rattle.std.specs.Prelude.{◌≡◌};
ghost use Rattle.fields_table.specs.DataOrders.{data_equal, data_order, data_hash_input, data_canonical_order};
ghost use Rattle.fields_table.specs.OrderLaws.{data_equal-equiv, data_order-total, data_order-ties, data_order-partial, data_hash_input-alike, data_canonical_order-total};
ghost use Rattle.fields_table.specs.FieldOrders.{order_by_fields};

use crate::field_data::FieldData;
use crate::field_order::{compare_fields, hash_fields};
use dns_data::RecordData;
use dns_wire::CanonicalOrd;
use std::cmp::Ordering;
use std::hash::{Hash, Hasher};

/// Compares the types, then the fields, in canonical form if `canonical`. The first fields that
/// differ decide.
fn compare(data: &FieldData<'_>, other: &FieldData<'_>, canonical: bool) -> Ordering
    ensures { result ≡ order_by_fields canonical data.now other.now }
{
    let order = data.rtype().to_int().cmp(&other.rtype().to_int());
    if order.is_ne() {
        return order;
    }
    compare_fields(data.fields(), other.fields(), canonical)
}

/// By the type and the fields. Names are equal ignoring ASCII case.
impl PartialEq for FieldData<'_> {
    ghost use Rattle.std.specs.Cmp.{partial_equiv_from_equiv};

    ghost eq = { data_equal };

    ghost laws = { partial_equiv_from_equiv data_equal-equiv };

    fn eq(&self, other: &Self) -> bool {
        compare(self, other, false).is_eq()
    }
}

impl Eq for FieldData<'_> {
    ghost laws = { data_equal-equiv };
}

impl PartialOrd for FieldData<'_> {
    ghost use Rattle.std.specs.Ordering.{as_partial_cmp};

    ghost partial_cmp = { as_partial_cmp data_order };

    ghost laws = { data_order-partial };

    fn partial_cmp(&self, other: &Self) -> Option<Ordering> {
        Some(self.cmp(other))
    }
}

/// By the type, then by the first fields that differ: names by their labels from the root leftwards
/// (RFC 4034 section 6.1), other fields by their octets.
impl Ord for FieldData<'_> {
    ghost use Rattle.std.proofs.Common.{refl};

    ghost cmp = { data_order };

    ghost total = { data_order-total };

    ghost matches_partial_cmp = { λ x y. refl };

    ghost matches_eq = { data_order-ties };

    fn cmp(&self, other: &Self) -> Ordering {
        compare(self, other, false)
    }
}

/// Hashes the type, then the fields.
impl Hash for FieldData<'_> {
    ghost hash_input = { data_hash_input };

    ghost respects_eq = { data_hash_input-alike };

    fn hash<H: Hasher>(&self, state: &mut H) {
        self.rtype().to_int().hash(state);
        hash_fields(self.fields(), state);
    }
}

/// By the type, then by all octets of the canonical form (RFC 4034 section 6.3).
impl CanonicalOrd for FieldData<'_> {
    ghost canonical_order = { data_canonical_order };

    fn canonical_cmp(&self, other: &Self) -> Ordering {
        compare(self, other, true)
    }

    ghost canonical_total = { data_canonical_order-total };
}
