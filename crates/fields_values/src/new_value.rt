//! Values of fields.
ghost use Rattle.std.specs.Prelude.{◌≡◌};
ghost use Rattle.fields_values.specs.GivenValues.{given};

use crate::new_forms::{NewGatewayAndKey, NewHostIdentity, NewRelay};
use dns_iana::Rtype;
use dns_name::ParsedName;
use fields_forms::Location;
use fields_lists::AddressPrefix;
use fields_table::Value;

/// A value for a field of record data. Which variant a field takes depends on its kind
/// (`fields_table::Kind`).
#[derive(Clone, Copy, Debug)]
pub enum NewValue<'a> {
    /// A number, a number of seconds, or a time in seconds since 1970.
    Number(u64),
    /// A record type.
    RecordType(Rtype),
    /// An IPv4 address.
    Ipv4([u8; 4]),
    /// An IPv6 address.
    Ipv6([u8; 16]),
    /// A 48-bit address (RFC 7043 section 3).
    Eui48([u8; 6]),
    /// A 64-bit address (RFC 7043 section 4).
    Eui64([u8; 8]),
    /// A locator of 64 bits, of an L64 or NID record (RFC 6742 sections 2.1 and 2.3).
    Locator64([u8; 8]),
    /// A location of version 0 that has a presentation format (RFC 1876 section 2).
    Location(Location),
    /// A name, as `ToName::as_parsed` returns it.
    Name(ParsedName<'a>),
    /// At most 255 octets, without their length octet: a character string, a tag, a salt or a hash.
    String(&'a [u8]),
    /// At most 65,535 octets, without their length of 16 bits.
    Sized(&'a [u8]),
    /// Character strings, at least one.
    Strings(&'a [&'a [u8]]),
    /// The record types of a type bit map, in any order.
    Types(&'a [Rtype]),
    /// Service parameters, each a key and a value, by increasing keys.
    Parameters(&'a [(u16, &'a [u8])]),
    /// Address prefixes, whose addresses have at most 127 octets.
    Prefixes(&'a [AddressPrefix<'a>]),
    /// A gateway and its public key.
    GatewayAndKey(NewGatewayAndKey<'a>),
    /// A relay.
    Relay(NewRelay<'a>),
    /// A host identity.
    HostIdentity(NewHostIdentity<'a>),
    /// The octets of a field of any other kind, of a list, of a 48-bit or 64-bit address, of a
    /// locator, a location, a gateway, a relay or a host identity, as `fields_table::Value::Octets`
    /// shows them.
    Octets(&'a [u8]),
}

/// A value that was read, as a field of the same kind takes it. An address that doesn't have four or
/// sixteen octets becomes `Octets`; a field has no such address.
impl<'a> From<&Value<'a>> for NewValue<'a> {
    ghost from_gives = { λ old new. new ≡ given old.now };

    fn from(value: &Value<'a>) -> Self {
        given(value)
    }
}

/// The variant of the same name.
fn given<'a>(value: &Value<'a>) -> NewValue<'a>
    ensures { result ≡ given value.now }
{
    match value {
        Value::Number(number) => NewValue::Number(*number),
        Value::RecordType(rtype) => NewValue::RecordType(*rtype),
        Value::Ipv4(octets) => match <[u8; 4]>::try_from(*octets) {
            Ok(address) => NewValue::Ipv4(address),
            Err(_) => NewValue::Octets(octets),
        },
        Value::Ipv6(octets) => match <[u8; 16]>::try_from(*octets) {
            Ok(address) => NewValue::Ipv6(address),
            Err(_) => NewValue::Octets(octets),
        },
        Value::Name(name) => NewValue::Name(*name),
        Value::String(octets) => NewValue::String(octets),
        Value::Sized(octets) => NewValue::Sized(octets),
        Value::Octets(octets) => NewValue::Octets(octets),
    }
}
