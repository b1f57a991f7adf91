//! The canonical order of RDATA (RFC 4034 section 6.3). Comparing allocates no memory.
ghost use Rattle.std.proofs.Common.{rules};
ghost use Rattle.std.specs.Cmp.Rules.{comparing};
ghost use Rattle.std.specs.Prelude.{◌≡◌};
ghost use Rattle.dns_data.specs.CanonicalOrders.{a_canonical_order, ns_canonical_order, cname_canonical_order, numbers_order, soa_canonical_order, unknown_canonical_order, opt_canonical_order};

use crate::a::A;
use crate::name_data::{Cname, Ns};
use crate::opt::Opt;
use crate::soa::Soa;
use crate::unknown::UnknownRecordData;
use dns_name::ToName;
use dns_octets::Octets;
use dns_wire::{CanonicalOrd, ToNameExt};
use std::cmp::Ordering;

/// By the four octets.
impl CanonicalOrd for A {
    ghost canonical_order = { a_canonical_order };

    fn canonical_cmp(&self, other: &Self) -> Ordering {
        self.octets().cmp(&other.octets())
    }

    ghost canonical_total = { Prim.search (comparing, rules) };
}

/// By the octets of the uncompressed name, lowercased.
impl<N: ToName> CanonicalOrd for Ns<N> {
    ghost canonical_order = { ns_canonical_order N.name };

    fn canonical_cmp(&self, other: &Self) -> Ordering {
        self.nsdname().lowercase_composed_cmp(other.nsdname())
    }

    ghost canonical_total = { Prim.search (comparing, rules) };
}

/// By the octets of the uncompressed name, lowercased.
impl<N: ToName> CanonicalOrd for Cname<N> {
    ghost canonical_order = { cname_canonical_order N.name };

    fn canonical_cmp(&self, other: &Self) -> Ordering {
        self.cname().lowercase_composed_cmp(other.cname())
    }

    ghost canonical_total = { Prim.search (comparing, rules) };
}

/// By the octets of the two uncompressed names, lowercased, then by the five numbers.
impl<N: ToName> CanonicalOrd for Soa<N> {
    ghost canonical_order = { soa_canonical_order N.name };

    fn canonical_cmp(&self, other: &Self) -> Ordering {
        self.mname()
            .lowercase_composed_cmp(other.mname())
            .then_with(|| self.rname().lowercase_composed_cmp(other.rname()))
            .then_with(|| compare_numbers(self, other))
    }

    ghost canonical_total = { Prim.search (comparing, rules) depth 9 };
}

/// Compares the five numbers in the order of the wire.
fn compare_numbers<N>(soa: &Soa<N>, other: &Soa<N>) -> Ordering
    ensures { result ≡ numbers_order soa.now other.now }
{
    soa.serial()
        .cmp(&other.serial())
        .then(soa.refresh().cmp(&other.refresh()))
        .then(soa.retry().cmp(&other.retry()))
        .then(soa.expire().cmp(&other.expire()))
        .then(soa.minimum().cmp(&other.minimum()))
}

/// By the type, then by the octets.
impl<Octs: Octets> CanonicalOrd for UnknownRecordData<Octs> {
    ghost canonical_order = { unknown_canonical_order };

    fn canonical_cmp(&self, other: &Self) -> Ordering {
        self.cmp(other)
    }

    ghost canonical_total = { Prim.search (comparing, rules) };
}

/// By the octets.
impl<Octs: Octets> CanonicalOrd for Opt<Octs> {
    ghost canonical_order = { opt_canonical_order };

    fn canonical_cmp(&self, other: &Self) -> Ordering {
        self.data().octets().cmp(other.data().octets())
    }

    ghost canonical_total = { Prim.search (comparing, rules) };
}
