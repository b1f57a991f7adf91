//! The types of a type bit map (RFC 4034 section 4.1.2).
ghost use Rattle.std.specs.Prelude.{◌+◌, ◌*◌, ◌≤◌, length};

use crate::type_map::split_block;
use dns_iana::Rtype;

/// An iterator over the record types of a type bit map. It ends with the octets, or at the first
/// block that is malformed.
#[derive(Clone, Copy, Debug)]
pub struct Types<'a> {
    /// The type of the highest bit of `octet`.
    first: u32,
    /// How many bits of `octet` are left.
    count: u8,
    octet: u8,
    /// The octets after it in its block.
    block: &'a [u8],
    /// The blocks after this one.
    left: &'a [u8],
    ghost within: { first + count + 8 * length block.now ≤ 65536 },
}

impl<'a> Types<'a> {
    ghost use Rattle.std.specs.Prelude.{◌≡◌};
    ghost use Rattle.fields_lists.specs.TypeItems.{Steps, types_left};
    ghost use Rattle.fields_lists.specs.TypeMaps.{map_types};

    /// The types of a type bit map.
    pub fn new(octets: &'a [u8]) -> Self
        ensures { types_left result ≡ map_types octets.now }
    {
        Types {
            first: 0,
            count: 0,
            octet: 0,
            block: &[],
            left: octets,
        }
    }

    /// The iterator after a bit, or at the next octet or block, and the type if the bit is set.
    /// `None` at the end.
    fn step(&self) -> Option<(Types<'a>, Option<Rtype>)>
        ensures { Steps self.now result }
    {
        if self.count > 0 {
            let after = Types {
                first: self.first + 1,
                count: self.count - 1,
                octet: self.octet % 128 * 2,
                block: self.block,
                left: self.left,
            };
            if self.octet >= 128 {
                return Some((after, Some(Rtype::from_int(self.first as u16))));
            }
            return Some((after, None));
        }
        if let [octet, block @ ..] = self.block {
            let after = Types {
                first: self.first,
                count: 8,
                octet: *octet,
                block,
                left: self.left,
            };
            return Some((after, None));
        }
        let (first, block, left) = split_block(self.left)?;
        let after = Types {
            first,
            count: 0,
            octet: 0,
            block,
            left,
        };
        Some((after, None))
    }
}

impl<'a> Iterator for Types<'a> {
    ghost use Rattle.std.specs.Iterator.{YieldsFirst, item_count};
    ghost use Rattle.fields_lists.specs.TypeItems.{types_left};

    type Item = Rtype;

    ghost next_gives = { YieldsFirst types_left };

    ghost remaining = { item_count types_left };

    fn next(&mut self) -> Option<Rtype> {
        'bits: while let Some((after, found)) = self.step() {
            *self = after;
            if found.is_some() {
                return found;
            }
        }
        None
    }
}
