//! The canonical order of records (RFC 4034 sections 6.1 and 6.3).
ghost use Rattle.std.proofs.Common.{rules};
ghost use Rattle.std.specs.Cmp.Rules.{comparing};
ghost use Rattle.dns_item.specs.RecordOrders.{canonical_record_order};

use crate::record::Record;
use dns_data::RecordData;
use dns_name::ToName;
use dns_wire::{CanonicalOrd, ToNameExt};
use std::cmp::Ordering;

/// By class, then by owner, then by type, then by RDATA (RFC 4034 sections 6.1 and 6.3). Owners
/// compare by their labels from the right.
impl<N: ToName, D: RecordData + CanonicalOrd> CanonicalOrd for Record<N, D> {
    ghost canonical_order = { canonical_record_order N.name D.rtype_of D.canonical_order };

    fn canonical_cmp(&self, other: &Self) -> Ordering {
        let class = self.class().to_int();
        let rtype = self.rtype().to_int();
        class
            .cmp(&other.class().to_int())
            .then_with(|| self.owner().name_cmp(other.owner()))
            .then_with(|| rtype.cmp(&other.rtype().to_int()))
            .then_with(|| self.data().canonical_cmp(other.data()))
    }

    ghost canonical_total = { Prim.search (comparing, rules) depth 9 };
}
