//! Client subnets (RFC 7871 section 6).
ghost use Rattle.std.specs.Prelude.{◌≡◌, ◌*◌, ◌≤◌, length};
ghost use Rattle.dns_edns.specs.KnownOptions.{first_bits, prefix_octets};
ghost use Rattle.dns_edns.specs.Prefixes.{ReadsAddress, ReadsSubnetAddr};
ghost use Rattle.dns_edns.specs.ReadOptions.{ReadsClientSubnet};

use crate::error::BadOptData;
use crate::option::SubnetAddr;
use arrayvec::ArrayVec;

/// The subnet of a client (RFC 7871). What its fields promise holds of each value that `parse`
/// returns.
#[derive(Clone, Copy, Debug, PartialEq, Eq)]
pub struct ClientSubnet {
    /// The number of bits of the address that the subnet has.
    pub source: u8,
    /// The number of bits for which a response is valid, 0 in a query.
    pub scope: u8,
    /// The address. Its bits after the first `source` ones are zero.
    pub address: SubnetAddr,
}

impl ClientSubnet {
    /// Reads the octets of the option. Returns an error for an unknown address family, for a prefix
    /// of more bits than an address has, and unless the octets of the address are as many as the
    /// source prefix needs, with its other bits zero.
    pub fn parse(octets: &[u8]) -> Result<Self, BadOptData>
        ensures { ReadsClientSubnet octets.now result }
    {
        let [0, family, source, scope, prefix @ ..] = octets else {
            return Err(BadOptData);
        };
        let address = subnet_address(*family, prefix, *source)?;
        if *scope > address.bits() {
            return Err(BadOptData);
        }
        Ok(ClientSubnet {
            source: *source,
            scope: *scope,
            address,
        })
    }
}

/// The address of the family with this number whose prefix of `bits` bits has these octets, and
/// whose other bits are zero.
fn subnet_address(family: u8, prefix: &[u8], bits: u8) -> Result<SubnetAddr, BadOptData>
    ensures { ReadsSubnetAddr family bits prefix.now result }
{
    match family {
        1 => Ok(SubnetAddr::V4(address_of(prefix, bits)?)),
        2 => Ok(SubnetAddr::V6(address_of(prefix, bits)?)),
        _ => Err(BadOptData),
    }
}

/// The address whose prefix of `bits` bits has these octets, and whose other bits are zero.
fn address_of<const N: usize>(prefix: &[u8], bits: u8) -> Result<[u8; N], BadOptData>
    requires { N ≤ 16 }
    ensures { ReadsAddress N bits prefix.now result }
{
    if prefix.len() > N || usize::from(bits) > 8 * N {
        return Err(BadOptData);
    }
    let mut address = [0; N];
    address[..prefix.len()].copy_from_slice(prefix);
    if address_prefix(&address, bits).as_slice() != prefix {
        return Err(BadOptData);
    }
    Ok(address)
}

/// The first `bits` bits of an address in the fewest octets. The bits after them are zero. It is
/// for the crates that depend on this one, which don't re-export it.
pub fn address_prefix(address: &[u8], bits: u8) -> ArrayVec<u8, 16>
    requires bits { bits ≤ 8 * length address.now }
    requires few { length address.now ≤ 16 }
    ensures { result.items ≡ prefix_octets bits address.now }
{
    let whole = usize::from(bits / 8);
    let mut octets = ArrayVec::new();
    octets.try_extend_from_slice(&address[..whole]).unwrap();
    if bits % 8 > 0 {
        octets.push(keep_first_bits(address[whole], bits % 8));
    }
    octets
}

/// The octet with only its first `count` bits. The others are zero.
fn keep_first_bits(octet: u8, count: u8) -> u8
    requires some { 1 ≤ count }
    requires within { count ≤ 8 }
    ensures { result ≡ first_bits count octet }
{
    let others = 8 - count;
    octet >> others << others
}
