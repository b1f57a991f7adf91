//! Comparisons of RDATA of a record type of one's own (RFC 4034 section 6.3) and its hash. They
//! don't allocate.

use crate::field_order::{compare_fields, hash_fields};
use crate::own::{DataOf, RecordFields};
use dns_wire::CanonicalOrd;
use std::cmp::Ordering;
use std::hash::{Hash, Hasher};

/// By the fields. Names are equal ignoring ASCII case.
impl<T: RecordFields> PartialEq for DataOf<'_, T> {
    ghost use Rattle.std.specs.Cmp.{partial_equiv_from_equiv};
    ghost use Rattle.fields_table.specs.OwnOrders.{own_equal, own_equal-equiv};

    ghost eq = { own_equal };

    ghost laws = { partial_equiv_from_equiv own_equal-equiv };

    fn eq(&self, other: &Self) -> bool {
        compare_fields(self.fields(), other.fields(), false).is_eq()
    }
}

impl<T: RecordFields> Eq for DataOf<'_, T> {
    ghost use Rattle.fields_table.specs.OwnOrders.{own_equal-equiv};

    ghost laws = { own_equal-equiv };
}

impl<T: RecordFields> PartialOrd for DataOf<'_, T> {
    ghost use Rattle.std.specs.Ordering.{as_partial_cmp};
    ghost use Rattle.fields_table.specs.OwnOrders.{own_order, own_order-partial};

    ghost partial_cmp = { as_partial_cmp own_order };

    ghost laws = { own_order-partial };

    fn partial_cmp(&self, other: &Self) -> Option<Ordering> {
        Some(self.cmp(other))
    }
}

/// By the first fields that differ: names by their labels from the root leftwards (RFC 4034 section
/// 6.1), other fields by their octets.
impl<T: RecordFields> Ord for DataOf<'_, T> {
    ghost use Rattle.std.proofs.Common.{refl};
    ghost use Rattle.fields_table.specs.OwnOrders.{own_order, own_order-total, own_order-ties};

    ghost cmp = { own_order };

    ghost total = { own_order-total };

    ghost matches_partial_cmp = { λ x y. refl };

    ghost matches_eq = { own_order-ties };

    fn cmp(&self, other: &Self) -> Ordering {
        compare_fields(self.fields(), other.fields(), false)
    }
}

/// Hashes the fields.
impl<T: RecordFields> Hash for DataOf<'_, T> {
    ghost use Rattle.fields_table.specs.OwnOrders.{own_hash_input, own_hash_input-alike};

    ghost hash_input = { own_hash_input };

    ghost respects_eq = { own_hash_input-alike };

    fn hash<H: Hasher>(&self, state: &mut H) {
        hash_fields(self.fields(), state);
    }
}

/// By all octets of the canonical form (RFC 4034 section 6.3).
impl<T: RecordFields> CanonicalOrd for DataOf<'_, T> {
    ghost use Rattle.fields_table.specs.OwnOrders.{own_canonical_order, own_canonical_order-total};

    ghost canonical_order = { own_canonical_order };

    fn canonical_cmp(&self, other: &Self) -> Ordering {
        compare_fields(self.fields(), other.fields(), true)
    }

    ghost canonical_total = { own_canonical_order-total };
}
