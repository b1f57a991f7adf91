ghost use Rattle.std.specs.Prelude.{◌≡◌, ◌<◌, ◌↔◌, IsTrue, ℕ, List, [], length};

use crate::head::Head;
use std::cmp::Ordering;
use std::hash::{Hash, Hasher};

/// One label of a name, without its length octet: 1 to 63 octets, or none for the root label.
///
/// Equality, order and hash ignore ASCII case (RFC 1035 section 2.3.3).
#[derive(Clone, Copy, Debug)]
pub struct Label<'a> {
    octets: &'a [u8],
    ghost short: { length octets.now < 64 },
}

impl<'a> Label<'a> {
    ghost use Rattle.dns_name.specs.Names.{Labels, lowered_label, NameAt};
    ghost use Rattle.dns_name.specs.ParsedName.{label_octets, IsFirst};
    ghost use Rattle.dns_name.specs.NameOrders.{framed_order};
    ghost use Rattle.dns_name.specs.Unique.{EncodedName};

    /// The maximum length of a label in octets (RFC 1035 section 2.3.4).
    pub const MAX_LEN: usize = 63;

    pub(crate) fn new(octets: &'a [u8]) -> Self
        requires { length octets.now < 64 }
        ensures { label_octets result ≡ octets.now }
    {
        Label { octets }
    }

    /// Returns the octets of the label.
    pub fn as_slice(&self) -> &'a [u8]
        ensures { result.now ≡ label_octets self.now }
    {
        self.octets
    }

    /// Returns the length of the label in octets, without its length octet.
    pub fn len(&self) -> usize
        ensures { result ≡ length (label_octets self.now) }
    {
        self.octets.len()
    }

    /// Returns whether this is the root label, which ends a name and has no octets.
    pub fn is_root(&self) -> bool
        ensures { IsTrue result ↔ (label_octets self.now ≡ []) }
    {
        self.octets.is_empty()
    }

    /// Returns whether the octets are the same, ignoring ASCII case.
    pub(crate) fn is_same(&self, other: &Label<'_>) -> bool
        ensures { IsTrue result ↔ (lowered_label (label_octets self.now)
            ≡ lowered_label (label_octets other.now)) }
    {
        self.octets.eq_ignore_ascii_case(other.octets)
    }

    /// Compares the length octets, then the octets with ASCII letters lowercased.
    pub(crate) fn lowercase_composed_cmp(&self, other: &Label<'_>) -> Ordering
        ensures { result ≡ framed_order (label_octets self.now) (label_octets other.now) }
    {
        self.len().cmp(&other.len()).then(self.cmp(other))
    }

    /// Returns the first label of the name at offset `pos`, and the offset of the remaining labels.
    /// For the root label this is the offset of its own zero octet.
    pub(crate) fn first_at(octets: &'a [u8], pos: usize) -> (Label<'a>, usize)
        requires { EncodedName octets.now pos }
        ensures { (name : Labels) → NameAt octets.now pos name
            → IsFirst octets.now name result.0 result.1 }
    {
        let mut at = pos;
        'walk: loop {
            let first = Head::first(octets, at);
            if first < 192 {
                let start = at + 1;
                let end = start + usize::from(first);
                let after = if first == 0 { at } else { end };
                return (Label::new(&octets[start..end]), after);
            }
            at = Head::target(octets, at);
        }
    }
}

impl PartialEq for Label<'_> {
    ghost use Rattle.std.specs.Prelude.{◌==◌};
    ghost use Rattle.std.proofs.Common.{rules};
    ghost use Rattle.std.specs.Cmp.Rules.{comparing};
    ghost use Rattle.std.specs.Ordering.{on};
    ghost use Rattle.std.specs.Cmp.Lexicographic.{pointwise};
    ghost use Rattle.dns_name.specs.Names.{lowered_label};
    ghost use Rattle.dns_name.specs.ParsedName.{label_octets};

    ghost eq = { on (λ label. lowered_label (label_octets label)) (pointwise ◌==◌) };

    ghost laws = { Prim.search (comparing, rules) };

    fn eq(&self, other: &Self) -> bool {
        self.is_same(other)
    }
}

impl Eq for Label<'_> {
    ghost use Rattle.std.proofs.Common.{rules};
    ghost use Rattle.std.specs.Cmp.Rules.{comparing};

    ghost laws = { Prim.search (comparing, rules) };
}

impl PartialOrd for Label<'_> {
    ghost use Rattle.std.proofs.Common.{rules};
    ghost use Rattle.std.specs.Cmp.{partial_order_from_own_ties};
    ghost use Rattle.std.specs.Cmp.Rules.{comparing};
    ghost use Rattle.std.specs.Ordering.{on, as_partial_cmp};
    ghost use Rattle.dns_name.specs.ParsedName.{label_octets};
    ghost use Rattle.dns_name.specs.NameOrders.{label_order};

    ghost partial_cmp = { as_partial_cmp (on label_octets label_order) };

    ghost laws = { partial_order_from_own_ties (Prim.search (comparing, rules))
        (Prim.search (comparing, rules)) };

    fn partial_cmp(&self, other: &Self) -> Option<Ordering> {
        Some(self.cmp(other))
    }
}

impl Ord for Label<'_> {
    ghost use Rattle.std.proofs.Common.{rules};
    ghost use Rattle.std.specs.Cmp.Rules.{comparing};
    ghost use Rattle.std.specs.Ordering.{on};
    ghost use Rattle.dns_name.specs.ParsedName.{label_octets};
    ghost use Rattle.dns_name.specs.NameOrders.{label_order};

    ghost cmp = { on label_octets label_order };

    ghost total = { Prim.search (comparing, rules) };

    ghost matches_partial_cmp = { Prim.search (comparing, rules) };

    ghost matches_eq = { Prim.search (comparing, rules) };

    fn cmp(&self, other: &Self) -> Ordering {
        let others = other.octets.iter().map(|octet| octet.to_ascii_lowercase());
        let octets = self.octets.iter().map(|octet| octet.to_ascii_lowercase());
        octets.cmp(others)
    }
}

impl Hash for Label<'_> {
    ghost use Rattle.std.proofs.Common.{rules};
    ghost use Rattle.std.specs.Cmp.Rules.{hashing};
    ghost use Rattle.dns_name.specs.ParsedName.{label_octets};
    ghost use Rattle.dns_name.specs.NameOrders.{label_hash_input};

    ghost hash_input = { λ label. label_hash_input (label_octets label) };

    ghost respects_eq = { Prim.search (hashing, rules) };

    fn hash<H: Hasher>(&self, state: &mut H) {
        state.write_u8(self.len() as u8);
        for octet in self.octets {
            state.write_u8(octet.to_ascii_lowercase());
        }
    }
}
