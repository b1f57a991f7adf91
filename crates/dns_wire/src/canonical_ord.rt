//! The canonical order of DNS data (RFC 4034 section 6).
ghost use Rattle.std.specs.Prelude.{◌≡◌};
ghost use Rattle.std.specs.Cmp.{IsTotalOrder, on_total};
ghost use Rattle.std.specs.declared.cmp.Ordering.{Ordering};

use std::cmp::Ordering;

/// A type with a canonical order, in which records are signed (RFC 4034 section 6).
pub trait CanonicalOrd {
    /// The canonical order.
    ghost canonical_order: { Self → Self → Ordering };

    /// Compares two values by the canonical order.
    fn canonical_cmp(&self, other: &Self) -> Ordering
        ensures { result ≡ canonical_order self.now other.now };

    /// The canonical order is total.
    ghost canonical_total: { IsTotalOrder canonical_order };
}

impl<T: CanonicalOrd> CanonicalOrd for &T {
    ghost canonical_order = { λ x y. T.canonical_order x.now y.now };

    fn canonical_cmp(&self, other: &Self) -> Ordering {
        (**self).canonical_cmp(*other)
    }

    ghost canonical_total = { on_total (λ x. x.now) T.canonical_total };
}
