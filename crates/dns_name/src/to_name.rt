use crate::parsed_name::ParsedName;

/// A value that represents a name.
pub trait ToName {
    ghost use Rattle.std.specs.Prelude.{◌≡◌, IfSome};
    ghost use Rattle.dns_name.specs.Names.{Labels, IsName, uncompressed};
    ghost use Rattle.dns_name.specs.ParsedName.{labels};

    /// The labels of the name.
    ghost name: { Self → Labels };

    /// Returns the name as a [`ParsedName`] that borrows from this value.
    fn as_parsed(&self) -> ParsedName<'_>
        ensures labels { labels result ≡ name self.now };

    /// Returns the uncompressed octets of the name if they are available as one slice.
    ///
    /// `None` says nothing about the name. The caller then assembles the octets itself.
    fn as_flat_slice(&self) -> Option<&[u8]>
        ensures { IfSome result (λ octets. octets.now ≡ uncompressed (name self.now)) }
    {
        self.as_parsed().as_flat_slice()
    }

    /// Each value represents a name: labels of 1 to 63 octets, at most 255 octets in all.
    ghost is_name: { (n : Self) → IsName (name n) };
}

impl ToName for ParsedName<'_> {
    ghost use Rattle.dns_name.specs.ParsedName.{labels};
    ghost use Rattle.dns_name.specs.Unique.{encoded_name};

    ghost name = { labels };

    ghost is_name = { λ n. encoded_name n.name_at.0.1 };

    fn as_parsed(&self) -> ParsedName<'_> {
        *self
    }
}

impl<N: ToName> ToName for &N {
    ghost name = { λ n. N.name n.now };

    ghost is_name = { λ n. N.is_name n.now };

    fn as_parsed(&self) -> ParsedName<'_> {
        (*self).as_parsed()
    }

    fn as_flat_slice(&self) -> Option<&[u8]> {
        (*self).as_flat_slice()
    }
}
