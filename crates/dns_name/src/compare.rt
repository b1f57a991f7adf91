//! Comparisons of names as they are encoded, label by label. They don't allocate.
ghost use Rattle.std.specs.Prelude.{◌≡◌, ◌↔◌, IsTrue, fold, length, drop};
ghost use Rattle.dns_name.specs.Names.{lowered, with_root};
ghost use Rattle.dns_name.specs.NameOrders.{name_order, composed_order, name_hash_input};
ghost use Rattle.dns_name.specs.ParsedName.{labels, labels_left};
ghost use Rattle.dns_name.specs.Suffixes.{NameStartsWith, NameEndsWith};

use crate::label_iter::LabelIter;
use crate::parsed_name::ParsedName;
use crate::to_name::ToName;
use std::cmp::Ordering;
use std::hash::{Hash, Hasher};

/// Returns whether the labels are the same, ignoring ASCII case (RFC 1035 section 2.3.3).
#[tactic(auto, using(crate::proofs::Orders::same_size))]
pub fn same_labels(name: &ParsedName<'_>, other: &ParsedName<'_>) -> bool
    ensures { IsTrue result ↔ (lowered (labels name.now) ≡ lowered (labels other.now)) }
{
    if name.compose_len() != other.compose_len() {
        return false;
    }
    let mut others = other.iter_labels();
    for label in name.iter_labels() {
        let Some(other_label) = others.next() else {
            return false;
        };
        if !label.is_same(&other_label) {
            return false;
        }
    }
    others.next().is_none()
}

/// Returns whether the labels are the same, octet for octet.
pub fn same_octets(name: &ParsedName<'_>, other: &ParsedName<'_>) -> bool
    ensures { IsTrue result ↔ (labels name.now ≡ labels other.now) }
{
    if name.compose_len() != other.compose_len() {
        return false;
    }
    let mut rest = other.iter_labels();
    for label in name.iter_labels() {
        let Some(other_label) = rest.next() else {
            return false;
        };
        if label.as_slice() != other_label.as_slice() {
            return false;
        }
    }
    rest.next().is_none()
}

/// Returns whether the first labels of `name` are those of `base`, ignoring ASCII case. The root
/// labels don't count.
fn has_first_labels(name: &ParsedName<'_>, base: &ParsedName<'_>) -> bool
    ensures { IsTrue result ↔ NameStartsWith (labels name.now) (labels base.now) }
{
    let mut rest = name.iter_labels();
    for base_label in base.iter_labels() {
        if base_label.is_root() {
            return true;
        }
        let Some(label) = rest.next() else {
            return false;
        };
        if !label.is_same(&base_label) {
            return false;
        }
    }
    true
}

/// Returns whether the last labels of `name` are those of `base`, ignoring ASCII case.
fn has_last_labels(name: &ParsedName<'_>, base: &ParsedName<'_>) -> bool
    ensures { IsTrue result ↔ NameEndsWith (labels name.now) (labels base.now) }
{
    for suffix in name.iter_suffixes() {
        if same_labels(&suffix, base) {
            return true;
        }
    }
    false
}

impl ParsedName<'_> {
    /// Returns whether the first labels of this name are those of `base`, ignoring ASCII case.
    ///
    /// The root label of `base` doesn't count: `www.example.com` starts with `www.example`, and each
    /// name starts with the root.
    pub fn starts_with<N: ToName>(&self, base: &N) -> bool
        ensures { IsTrue result ↔ NameStartsWith (labels self.now) (N.name base.now) }
    {
        has_first_labels(self, &base.as_parsed())
    }

    /// Returns whether this name is `base` or a subdomain of it, ignoring ASCII case (RFC 1034
    /// section 3.1).
    ///
    /// Whole labels count: `www.example.com` ends with `example.com`, but `anexample.com` doesn't.
    /// Each name ends with the root.
    pub fn ends_with<N: ToName>(&self, base: &N) -> bool
        ensures { IsTrue result ↔ NameEndsWith (labels self.now) (N.name base.now) }
    {
        has_last_labels(self, &base.as_parsed())
    }
}

/// Compares the labels from the root leftwards, ignoring ASCII case (RFC 4034 section 6.1).
///
/// Each label is visited once, in encoding order.
#[tactic(auto, using(crate::proofs::RootOrders::name_order_from_ends))]
pub fn order_from_root(name: &ParsedName<'_>, other: &ParsedName<'_>) -> Ordering
    ensures { result ≡ name_order (labels name.now) (labels other.now) }
{
    let count = name.label_count();
    let other_count = other.label_count();
    let labels = labels_after(name, count.saturating_sub(other_count));
    let others = labels_after(other, other_count.saturating_sub(count));
    order_of_as_many(labels, others).then(count.cmp(&other_count))
}

/// Returns the labels of the name without the first `count`.
#[tactic(auto, using(crate::proofs::RootOrders::drop_steps))]
fn labels_after<'a>(name: &ParsedName<'a>, count: usize) -> LabelIter<'a>
    ensures { labels_left result ≡ drop count (with_root (labels name.now)) }
{
    let mut labels = name.iter_labels();
    for _skipped in 0..count {
        labels.next();
    }
    labels
}

/// Compares two iterators with equally many labels, ignoring ASCII case. The last pair that differs
/// decides.
#[tactic(auto, using(crate::proofs::RootOrders::rest_steps))]
fn order_of_as_many(labels: LabelIter<'_>, mut others: LabelIter<'_>) -> Ordering
    requires { length (labels_left labels) ≡ length (labels_left others) }
    ensures { result ≡ name_order (labels_left labels.entry) (labels_left others.entry) }
{
    let mut order = Ordering::Equal;
    for label in labels {
        let Some(other_label) = others.next() else {
            return order;
        };
        order = label.cmp(&other_label).then(order);
    }
    order
}

/// Compares the uncompressed octets of the names, with ASCII letters lowercased (RFC 4034 sections
/// 6.2 and 6.3).
#[tactic(auto, using(crate::proofs::Orders::row_steps))]
pub fn order_composed(name: &ParsedName<'_>, other: &ParsedName<'_>) -> Ordering
    ensures { result ≡ composed_order (labels name.now) (labels other.now) }
{
    let mut others = other.iter_labels();
    for label in name.iter_labels() {
        let Some(other_label) = others.next() else {
            return Ordering::Greater;
        };
        let order = label.lowercase_composed_cmp(&other_label);
        if order.is_ne() {
            return order;
        }
    }
    match others.next() {
        None => Ordering::Equal,
        Some(_) => Ordering::Less,
    }
}

/// Feeds a hasher the uncompressed octets of the name, with ASCII letters lowercased, in one write.
pub(crate) fn hash_name<H: Hasher>(name: &ParsedName<'_>, state: &mut H)
    ensures { state.new ≡ fold H.write state.old (name_hash_input (labels name.now)) }
{
    state.write(name.lowercased().as_slice());
}

impl PartialEq for ParsedName<'_> {
    ghost use Rattle.std.specs.Cmp.{on_equiv, partial_equiv_from_equiv};
    ghost use Rattle.std.specs.Ordering.{on};
    ghost use Rattle.dns_name.specs.NameOrders.{names_equal, names_equal-equiv};

    ghost eq = { on labels names_equal };

    ghost laws = { partial_equiv_from_equiv (on_equiv labels names_equal-equiv) };

    fn eq(&self, other: &Self) -> bool {
        same_labels(self, other)
    }
}

impl Eq for ParsedName<'_> {
    ghost use Rattle.std.specs.Cmp.{on_equiv};
    ghost use Rattle.dns_name.specs.NameOrders.{names_equal-equiv};

    ghost laws = { on_equiv labels names_equal-equiv };
}

impl PartialOrd for ParsedName<'_> {
    ghost use Rattle.std.specs.Cmp.{on_po};
    ghost use Rattle.std.specs.Ordering.{on, as_partial_cmp};
    ghost use Rattle.dns_name.specs.NameOrders.{name_order-partial};

    ghost partial_cmp = { on labels (as_partial_cmp name_order) };

    ghost laws = { on_po labels name_order-partial };

    fn partial_cmp(&self, other: &Self) -> Option<Ordering> {
        Some(self.cmp(other))
    }
}

/// Compares the labels from the root leftwards, ignoring ASCII case (RFC 4034 section 6.1).
impl Ord for ParsedName<'_> {
    ghost use Rattle.std.proofs.Common.{refl};
    ghost use Rattle.std.specs.Cmp.{on_total};
    ghost use Rattle.std.specs.Ordering.{on};
    ghost use Rattle.dns_name.specs.NameOrders.{name_order-total, name_order-ties};

    ghost cmp = { on labels name_order };

    ghost total = { on_total labels name_order-total };

    ghost matches_partial_cmp = { λ x y. refl };

    ghost matches_eq = { λ x y. name_order-ties (labels x) (labels y) };

    fn cmp(&self, other: &Self) -> Ordering {
        order_from_root(self, other)
    }
}

impl Hash for ParsedName<'_> {
    ghost use Rattle.dns_name.specs.NameOrders.{name_hash_input-alike};

    ghost hash_input = { λ name. name_hash_input (labels name) };

    ghost respects_eq = { λ x y same. name_hash_input-alike (labels x) (labels y) same };

    fn hash<H: Hasher>(&self, state: &mut H) {
        hash_name(self, state);
    }
}
