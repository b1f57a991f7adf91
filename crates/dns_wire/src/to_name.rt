use crate::composer::Composer;
use dns_name::ToName;
use dns_name::compare::{order_composed, order_from_root, same_labels, same_octets};
use dns_octets::AppendError;
use std::cmp::Ordering;

/// Comparisons and the canonical form of any value that represents a name. The comparisons don't
/// allocate.
pub trait ToNameExt: ToName {
    ghost use Rattle.std.specs.Prelude.{◌≡◌, ◌↔◌, IsTrue};
    ghost use Rattle.dns_name.specs.Names.{lowered, uncompressed};
    ghost use Rattle.dns_wire.specs.Encoders.{encode_octets};
    ghost use Rattle.dns_wire.specs.Targets.{Appends};
    ghost use Rattle.dns_name.specs.NameOrders.{name_order, composed_order};

    /// Returns whether two names are equal, ignoring ASCII case (RFC 1035 section 2.3.3).
    fn name_eq<N: ToName>(&self, other: &N) -> bool
        ensures { IsTrue result ↔ (lowered (Self.name self.now) ≡ lowered (N.name other.now)) }
    {
        same_labels(&self.as_parsed(), &other.as_parsed())
    }

    /// Returns whether two names have the same labels, octet for octet.
    fn octets_eq<N: ToName>(&self, other: &N) -> bool
        ensures { IsTrue result ↔ (Self.name self.now ≡ N.name other.now) }
    {
        same_octets(&self.as_parsed(), &other.as_parsed())
    }

    /// Compares labels from the root leftwards, ignoring ASCII case (RFC 4034 section 6.1). A name
    /// precedes its subdomains.
    fn name_cmp<N: ToName>(&self, other: &N) -> Ordering
        ensures { result ≡ name_order (Self.name self.now) (N.name other.now) }
    {
        order_from_root(&self.as_parsed(), &other.as_parsed())
    }

    /// Compares the uncompressed octets of the names, with ASCII letters lowercased (RFC 4034
    /// sections 6.2 and 6.3).
    fn lowercase_composed_cmp<N: ToName>(&self, other: &N) -> Ordering
        ensures { result ≡ composed_order (Self.name self.now) (N.name other.now) }
    {
        order_composed(&self.as_parsed(), &other.as_parsed())
    }

    /// Appends the uncompressed octets of the name, with ASCII letters lowercased (RFC 4034 section
    /// 6.2). Nothing changes on error.
    fn compose_canonical<T: Composer>(&self, target: &mut T) -> Result<(), AppendError>
        ensures { Appends T.capacity T.grows
            (encode_octets (uncompressed (lowered (Self.name self.now))))
            (T.written target.old) (T.written target.new) result }
    {
        target.append_slice(self.as_parsed().lowercased().as_slice())
    }
}

impl<T: ToName> ToNameExt for T {}
