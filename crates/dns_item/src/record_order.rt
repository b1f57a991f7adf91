//! Comparisons of records. They ignore the TTL (RFC 2136 section 1.1.1).
ghost use Rattle.std.proofs.Common.{rules};
ghost use Rattle.std.specs.Cmp.Rules.{comparing, hashing};
ghost use Rattle.dns_item.specs.RecordOrders.{records_equal, record_order, record_hash_input};

use crate::record::Record;
use std::cmp::Ordering;
use std::hash::{Hash, Hasher};

/// By owner, class and RDATA (RFC 2136 section 1.1.1).
impl<N: PartialEq, D: PartialEq> PartialEq for Record<N, D> {
    ghost eq = { records_equal N.eq D.eq };

    ghost laws = { Prim.search (comparing, rules) };

    fn eq(&self, other: &Self) -> bool {
        self.owner() == other.owner()
            && self.class().to_int() == other.class().to_int()
            && self.data() == other.data()
    }
}

impl<N: Eq, D: Eq> Eq for Record<N, D> {
    ghost laws = { Prim.search (comparing, rules) };
}

impl<N: Ord, D: Ord> PartialOrd for Record<N, D> {
    ghost use Rattle.std.specs.Cmp.{partial_order_from_own_ties};
    ghost use Rattle.std.specs.Ordering.{as_partial_cmp};

    ghost partial_cmp = { as_partial_cmp (record_order N.cmp D.cmp) };

    ghost laws = { partial_order_from_own_ties (Prim.search (comparing, rules))
        (Prim.search (comparing, rules)) };

    fn partial_cmp(&self, other: &Self) -> Option<Ordering> {
        Some(self.cmp(other))
    }
}

/// By owner, then by class, then by RDATA.
impl<N: Ord, D: Ord> Ord for Record<N, D> {
    ghost cmp = { record_order N.cmp D.cmp };

    ghost total = { Prim.search (comparing, rules) };

    ghost matches_partial_cmp = { Prim.search (comparing, rules) };

    ghost matches_eq = { Prim.search (comparing, rules) };

    fn cmp(&self, other: &Self) -> Ordering {
        let class = self.class().to_int();
        self.owner()
            .cmp(other.owner())
            .then_with(|| class.cmp(&other.class().to_int()))
            .then_with(|| self.data().cmp(other.data()))
    }
}

/// Hashes the owner, the class and the RDATA.
impl<N: Hash, D: Hash> Hash for Record<N, D> {
    ghost hash_input = { record_hash_input N.hash_input D.hash_input };

    ghost respects_eq = { Prim.search (hashing, rules) };

    fn hash<H: Hasher>(&self, state: &mut H) {
        self.owner().hash(state);
        self.class().to_int().hash(state);
        self.data().hash(state);
    }
}
