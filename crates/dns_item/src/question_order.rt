//! The canonical order of questions (RFC 4034 section 6).
ghost use Rattle.std.proofs.Common.{rules};
ghost use Rattle.std.specs.Cmp.Rules.{comparing};
ghost use Rattle.dns_item.specs.QuestionOrders.{canonical_question_order};

use crate::question::Question;
use dns_name::ToName;
use dns_wire::{CanonicalOrd, ToNameExt};
use std::cmp::Ordering;

/// By the octets of the uncompressed name, lowercased, then by type, then by class (RFC 4034
/// section 6).
impl<N: ToName> CanonicalOrd for Question<N> {
    ghost canonical_order = { canonical_question_order N.name };

    fn canonical_cmp(&self, other: &Self) -> Ordering {
        let rtype = self.qtype().to_int();
        let class = self.qclass().to_int();
        self.qname()
            .lowercase_composed_cmp(other.qname())
            .then_with(|| rtype.cmp(&other.qtype().to_int()))
            .then_with(|| class.cmp(&other.qclass().to_int()))
    }

    ghost canonical_total = { Prim.search (comparing, rules) };
}
