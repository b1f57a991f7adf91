//! Comparisons and hashes of RDATA that is octets. They depend on the octets, not on the type that
//! holds them.
ghost use Rattle.std.proofs.Common.{rules};
ghost use Rattle.std.specs.Cmp.Rules.{comparing, hashing};
ghost use Rattle.dns_data.specs.DataOrders.{unknown_equal, unknown_order, unknown_hash_input, opt_equal, opt_order, opt_hash_input};

use crate::opt::Opt;
use crate::record_data::RecordData;
use crate::unknown::UnknownRecordData;
use dns_octets::Octets;
use std::cmp::Ordering;
use std::hash::{Hash, Hasher};

/// By the type and the octets.
impl<Octs: Octets> PartialEq for UnknownRecordData<Octs> {
    ghost eq = { unknown_equal };

    ghost laws = { Prim.search (comparing, rules) };

    fn eq(&self, other: &Self) -> bool {
        self.rtype().to_int() == other.rtype().to_int()
            && self.data().octets() == other.data().octets()
    }
}

impl<Octs: Octets> Eq for UnknownRecordData<Octs> {
    ghost laws = { Prim.search (comparing, rules) };
}

impl<Octs: Octets> PartialOrd for UnknownRecordData<Octs> {
    ghost use Rattle.std.specs.Cmp.{partial_order_from_own_ties};
    ghost use Rattle.std.specs.Ordering.{as_partial_cmp};

    ghost partial_cmp = { as_partial_cmp unknown_order };

    ghost laws = { partial_order_from_own_ties (Prim.search (comparing, rules))
        (Prim.search (comparing, rules)) };

    fn partial_cmp(&self, other: &Self) -> Option<Ordering> {
        Some(self.cmp(other))
    }
}

/// By the type, then by the octets.
impl<Octs: Octets> Ord for UnknownRecordData<Octs> {
    ghost cmp = { unknown_order };

    ghost total = { Prim.search (comparing, rules) };

    ghost matches_partial_cmp = { Prim.search (comparing, rules) };

    ghost matches_eq = { Prim.search (comparing, rules) };

    fn cmp(&self, other: &Self) -> Ordering {
        let rtype = self.rtype().to_int();
        rtype
            .cmp(&other.rtype().to_int())
            .then_with(|| self.data().octets().cmp(other.data().octets()))
    }
}

/// Hashes the type, then the octets.
impl<Octs: Octets> Hash for UnknownRecordData<Octs> {
    ghost hash_input = { unknown_hash_input };

    ghost respects_eq = { Prim.search (hashing, rules) };

    fn hash<H: Hasher>(&self, state: &mut H) {
        self.rtype().to_int().hash(state);
        self.data().octets().hash(state);
    }
}

/// By the octets.
impl<Octs: Octets> PartialEq for Opt<Octs> {
    ghost eq = { opt_equal };

    ghost laws = { Prim.search (comparing, rules) };

    fn eq(&self, other: &Self) -> bool {
        self.data().octets() == other.data().octets()
    }
}

impl<Octs: Octets> Eq for Opt<Octs> {
    ghost laws = { Prim.search (comparing, rules) };
}

impl<Octs: Octets> PartialOrd for Opt<Octs> {
    ghost use Rattle.std.specs.Cmp.{partial_order_from_own_ties};
    ghost use Rattle.std.specs.Ordering.{as_partial_cmp};

    ghost partial_cmp = { as_partial_cmp opt_order };

    ghost laws = { partial_order_from_own_ties (Prim.search (comparing, rules))
        (Prim.search (comparing, rules)) };

    fn partial_cmp(&self, other: &Self) -> Option<Ordering> {
        Some(self.cmp(other))
    }
}

/// By the octets.
impl<Octs: Octets> Ord for Opt<Octs> {
    ghost cmp = { opt_order };

    ghost total = { Prim.search (comparing, rules) };

    ghost matches_partial_cmp = { Prim.search (comparing, rules) };

    ghost matches_eq = { Prim.search (comparing, rules) };

    fn cmp(&self, other: &Self) -> Ordering {
        self.data().octets().cmp(other.data().octets())
    }
}

/// Hashes the octets.
impl<Octs: Octets> Hash for Opt<Octs> {
    ghost hash_input = { opt_hash_input };

    ghost respects_eq = { Prim.search (hashing, rules) };

    fn hash<H: Hasher>(&self, state: &mut H) {
        self.data().octets().hash(state);
    }
}
