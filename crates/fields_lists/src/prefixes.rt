//! Address prefixes (RFC 3123 section 4).
ghost use Rattle.std.specs.Prelude.{◌≡◌};
ghost use Rattle.fields_lists.specs.Prefixes.{are_prefixes};

/// An address prefix: the address family, the size of the prefix in bits, whether it is negated, and
/// the octets of the address up to the last one that isn't zero.
#[derive(Clone, Copy, Debug, PartialEq, Eq)]
pub struct AddressPrefix<'a> {
    pub family: u16,
    pub size: u8,
    pub negated: bool,
    pub address: &'a [u8],
}

/// An iterator over address prefixes. If the last address is cut off, it ends with the octets.
#[derive(Clone, Copy, Debug)]
pub struct AddressPrefixes<'a> {
    left: &'a [u8],
}

impl<'a> AddressPrefixes<'a> {
    ghost use Rattle.fields_lists.specs.PrefixItems.{prefixes_of};
    ghost use Rattle.fields_lists.specs.ItemsLeft.{prefixes_left};

    /// The address prefixes of these octets.
    pub fn new(octets: &'a [u8]) -> Self
        ensures { prefixes_left result ≡ prefixes_of octets.now }
    {
        AddressPrefixes { left: octets }
    }
}

impl<'a> Iterator for AddressPrefixes<'a> {
    ghost use Rattle.std.specs.Iterator.{YieldsFirstBy, item_count};
    ghost use Rattle.fields_lists.specs.ItemsLeft.{prefix_item, prefixes_left};

    type Item = AddressPrefix<'a>;

    ghost next_gives = { YieldsFirstBy prefix_item prefixes_left };

    ghost remaining = { item_count prefixes_left };

    fn next(&mut self) -> Option<AddressPrefix<'a>> {
        let [high, low, size, bits, after @ ..] = self.left else {
            return None;
        };
        let (address, left) = after.split_at(usize::from(*bits % 128).min(after.len()));
        self.left = left;
        Some(AddressPrefix {
            family: u16::from(*high) * 256 + u16::from(*low),
            size: *size,
            negated: *bits >= 128,
            address,
        })
    }
}

/// Whether the octets are consecutive address prefixes, perhaps none.
pub fn are_prefixes(octets: &[u8]) -> bool
    ensures { result ≡ are_prefixes octets.now }
{
    let mut left = octets;
    'prefixes: while let [_, _, _, size, rest @ ..] = left {
        let size = usize::from(*size % 128);
        if size > rest.len() {
            return false;
        }
        left = &rest[size..];
    }
    left.is_empty()
}
