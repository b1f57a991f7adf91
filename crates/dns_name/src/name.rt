ghost use Rattle.std.specs.Prelude.{◌≡◌, ◌+◌, ◌≤◌, ℕ, [], length, OnOk, IfOk, IfErr, IsOk};
ghost use Rattle.dns_name.specs.Uncompressed.{WholeName, WholeName-prop};

use crate::compare::hash_name;
use crate::head::Head;
pub use crate::name_error::{FromStrError, PresentationError};
use crate::name_print::DisplayWithDot;
use crate::parsed_name::ParsedName;
use crate::suffix_iter::SuffixIter;
use crate::to_name::ToName;
use dns_octets::{FormError, Octets, ParseError};
use std::alloc::AllocError;
use std::cmp::Ordering;
use std::hash::{Hash, Hasher};

/// One uncompressed name, in octets of type `Octs` (RFC 1035 section 3.1).
#[derive(Debug, Drop)]
pub struct Name<Octs: Octets> {
    octets: Octs,
    ghost whole: { WholeName (Octs.octets octets) } by { WholeName-prop (Octs.octets octets) },
}

impl Name<&'static [u8]> {
    ghost use Rattle.dns_name.specs.NameReading.{name_labels};

    /// The maximum length of a name in octets, with the root's zero octet (RFC 1035 section 2.3.4).
    pub const MAX_LEN: usize = Head::MAX_SIZE + 1;

    /// Returns the root name.
    pub fn root_slice() -> Self
        ensures { name_labels result ≡ [] }
    {
        Name { octets: &[0] }
    }
}

impl<Octs: Octets> Name<Octs> {
    ghost use Rattle.std.specs.Prelude.{◌↔◌, IsTrue, IfSome, None, drop};
    ghost use Rattle.dns_name.specs.Names.{fault_of, uncompressed, with_root};
    ghost use Rattle.dns_name.specs.NameReading.{name_labels};
    ghost use Rattle.dns_name.specs.DottedNames.{dotted_labels};
    ghost use Rattle.dns_name.specs.ParsedName.{labels};
    ghost use Rattle.dns_name.specs.Suffixes.{suffixes, suffixes_left, NameStartsWith, NameEndsWith};
    ghost use Rattle.dns_name.specs.Uncompressed.{IsUncompressed, NotUncompressed};

    /// Creates a name from `octets`, which must be exactly one uncompressed name.
    ///
    /// Errors: `ShortInput` if octets are missing; `BAD_LABEL` if a length octet has the high bits
    /// 01 or 10; `BAD_POINTER` if there is a pointer; `LONG_NAME` if the name has more than 255
    /// octets, or if octets follow its root label.
    pub fn from_octets(octets: Octs) -> Result<Self, ParseError>
        ensures name { IfOk result (λ name. uncompressed (name_labels name) ≡ Octs.octets octets) }
        ensures accepts { IsUncompressed (Octs.octets octets) → IsOk result }
        ensures fault { IfErr result (λ e. NotUncompressed (Octs.octets octets) (fault_of e)) }
    {
        check(octets.octets())?;
        Ok(Name::of_whole(octets))
    }

    /// Creates a name from `octets`, which are known to be exactly one uncompressed name.
    pub(crate) fn of_whole(octets: Octs) -> Self
        requires { WholeName (Octs.octets octets) }
        ensures { uncompressed (name_labels result) ≡ Octs.octets octets }
    {
        Name { octets }
    }

    /// Returns the octets of the name.
    pub fn as_slice(&self) -> &[u8]
        ensures { result.now ≡ uncompressed (name_labels self.now) }
    {
        self.octets.octets()
    }

    /// Returns the number of labels, with the root label: 1 to 128.
    pub fn label_count(&self) -> usize
        ensures { result ≡ length (with_root (name_labels self.now)) }
    {
        self.as_parsed().label_count()
    }

    /// Returns the name without its first label, or `None` for the root.
    pub fn parent(&self) -> Option<ParsedName<'_>>
        ensures root { (result ≡ None) ↔ (name_labels self.now ≡ []) }
        ensures parent { IfSome result (λ parent.
            labels parent ≡ drop 1 (name_labels self.now)) }
    {
        self.as_parsed().parent()
    }

    /// Iterates over the suffixes of the name: the name itself, its parent, and so on. The root is
    /// the last.
    pub fn iter_suffixes(&self) -> SuffixIter<'_>
        ensures { suffixes_left result ≡ suffixes (name_labels self.now) }
    {
        self.as_parsed().iter_suffixes()
    }

    /// Returns whether the first labels of this name are those of `base`, ignoring ASCII case.
    ///
    /// The root label of `base` doesn't count: `www.example.com` starts with `www.example`, and each
    /// name starts with the root.
    pub fn starts_with<N: ToName>(&self, base: &N) -> bool
        ensures { IsTrue result ↔ NameStartsWith (name_labels self.now) (N.name base.now) }
    {
        self.as_parsed().starts_with(base)
    }

    /// Returns whether this name is `base` or a subdomain of it, ignoring ASCII case (RFC 1034
    /// section 3.1).
    ///
    /// Whole labels count: `www.example.com` ends with `example.com`, but `anexample.com` doesn't.
    /// Each name ends with the root.
    pub fn ends_with<N: ToName>(&self, base: &N) -> bool
        ensures { IsTrue result ↔ NameEndsWith (name_labels self.now) (N.name base.now) }
    {
        self.as_parsed().ends_with(base)
    }

    /// Returns a value that displays the name with a final dot. The root is a single dot.
    pub fn fmt_with_dot(&self) -> DisplayWithDot<'_>
        ensures { dotted_labels result ≡ name_labels self.now }
    {
        self.as_parsed().fmt_with_dot()
    }
}

ghost use Rattle.dns_name.specs.Names.{fault_of};
ghost use Rattle.dns_name.specs.Uncompressed.{IsUncompressed, NotUncompressed};

/// Checks that the octets are exactly one uncompressed name.
fn check(octets: &[u8]) -> Result<(), ParseError>
    ensures name { OnOk result (WholeName octets.now) }
    ensures accepts { IsUncompressed octets.now → IsOk result }
    ensures fault { IfErr result (λ e. NotUncompressed octets.now (fault_of e)) }
{
    let mut size = 0;
    'walk: loop {
        match Head::after(octets, size, size)? {
            Head::Root => break,
            Head::Label(len) => size += usize::from(len) + 1,
            Head::Pointer(_) => return Err(ParseError::Form(FormError::BAD_POINTER)),
        }
    }
    if octets.len() - size > 1 {
        return Err(ParseError::Form(FormError::LONG_NAME));
    }
    Ok(())
}

impl<Octs: Octets> ToName for Name<Octs> {
    ghost use Rattle.std.specs.Prelude.{IsSome, IfSome};
    ghost use Rattle.dns_name.specs.Names.{uncompressed};
    ghost use Rattle.dns_name.specs.NameReading.{name_labels};
    ghost use Rattle.dns_name.specs.Unique.{encoded_name};

    ghost name = { λ n. name_labels n };

    ghost is_name = { λ n. encoded_name n.whole.0.1 };

    fn as_parsed(&self) -> ParsedName<'_> {
        ParsedName::of_whole(self.octets.octets())
    }

    /// Returns all octets of the name, which has no pointers.
    fn as_flat_slice(&self) -> Option<&[u8]>
        ensures lent { IsSome result }
        ensures octets { IfSome result (λ octets.
            octets.now ≡ uncompressed (name_labels self.now)) }
    {
        Some(self.octets.octets())
    }
}

/// Clones the octets. Returns `AllocError` too if the clone doesn't hold the same octets.
impl<Octs: Octets + Clone> Clone for Name<Octs> {
    ghost use Rattle.std.specs.Prelude.{◌≡◌};
    ghost use Rattle.dns_octets.specs.Octets.{ClonesSurely};
    ghost use Rattle.dns_name.specs.NameReading.{name_buffer, name_labels};

    ghost is_clone = { λ name clone. name_labels clone ≡ name_labels name };

    ghost is_infallible = { λ name. ClonesSurely Octs.is_infallible Octs.is_clone Octs.octets
        (name_buffer name) };

    fn clone(&self) -> Result<Self, AllocError> {
        let octets = self.octets.clone()?;
        if octets.octets() != self.as_slice() {
            return Err(AllocError);
        }
        Ok(Name::of_whole(octets))
    }
}

impl<Octs: Octets + Copy> Copy for Name<Octs> {}

impl<Octs: Octets> PartialEq for Name<Octs> {
    ghost use Rattle.std.specs.Cmp.{on_equiv, partial_equiv_from_equiv};
    ghost use Rattle.std.specs.Ordering.{on};
    ghost use Rattle.dns_name.specs.NameReading.{name_labels};
    ghost use Rattle.dns_name.specs.NameOrders.{names_equal, names_equal-equiv};

    ghost eq = { on (λ n. name_labels n) names_equal };

    ghost laws = { partial_equiv_from_equiv (on_equiv (λ n. name_labels n) names_equal-equiv) };

    fn eq(&self, other: &Self) -> bool {
        self.as_parsed() == other.as_parsed()
    }
}

impl<Octs: Octets> Eq for Name<Octs> {
    ghost use Rattle.std.specs.Cmp.{on_equiv};
    ghost use Rattle.dns_name.specs.NameReading.{name_labels};
    ghost use Rattle.dns_name.specs.NameOrders.{names_equal-equiv};

    ghost laws = { on_equiv (λ n. name_labels n) names_equal-equiv };
}

impl<Octs: Octets> PartialOrd for Name<Octs> {
    ghost use Rattle.std.specs.Cmp.{on_po};
    ghost use Rattle.std.specs.Ordering.{on, as_partial_cmp};
    ghost use Rattle.dns_name.specs.NameReading.{name_labels};
    ghost use Rattle.dns_name.specs.NameOrders.{name_order, name_order-partial};

    ghost partial_cmp = { on (λ n. name_labels n) (as_partial_cmp name_order) };

    ghost laws = { on_po (λ n. name_labels n) name_order-partial };

    fn partial_cmp(&self, other: &Self) -> Option<Ordering> {
        Some(self.cmp(other))
    }
}

/// Compares the labels from the root leftwards, ignoring ASCII case (RFC 4034 section 6.1).
impl<Octs: Octets> Ord for Name<Octs> {
    ghost use Rattle.std.proofs.Common.{refl};
    ghost use Rattle.std.specs.Cmp.{on_total};
    ghost use Rattle.std.specs.Ordering.{on};
    ghost use Rattle.dns_name.specs.NameReading.{name_labels};
    ghost use Rattle.dns_name.specs.NameOrders.{name_order, name_order-total, name_order-ties};

    ghost cmp = { on (λ n. name_labels n) name_order };

    ghost total = { on_total (λ n. name_labels n) name_order-total };

    ghost matches_partial_cmp = { λ x y. refl };

    ghost matches_eq = { λ x y. name_order-ties (name_labels x) (name_labels y) };

    fn cmp(&self, other: &Self) -> Ordering {
        self.as_parsed().cmp(&other.as_parsed())
    }
}

impl<Octs: Octets> Hash for Name<Octs> {
    ghost use Rattle.dns_name.specs.NameReading.{name_labels};
    ghost use Rattle.dns_name.specs.NameOrders.{name_hash_input, name_hash_input-alike};

    ghost hash_input = { λ n. name_hash_input (name_labels n) };

    ghost respects_eq = { λ x y same. name_hash_input-alike (name_labels x) (name_labels y) same };

    fn hash<H: Hasher>(&self, state: &mut H) {
        hash_name(&self.as_parsed(), state);
    }
}
