//! The values of fields.
ghost use Rattle.std.specs.Prelude.{◌≡◌, ◌≤◌, length, drop};
ghost use Rattle.fields_table.specs.EncodedFields.{part_of};
ghost use Rattle.fields_table.specs.Shapes.{shape_of};
ghost use Rattle.fields_table.specs.Values.{HasSize, number_after, octets_value, part_value, value_shown};
ghost use Rattle.dns_wire.specs.Parts.{Octets};

use crate::encoded::Encoded;
use crate::kind::Kind;
use dns_iana::Rtype;
use dns_name::ParsedName;

/// The value of a field, as a view of the message.
#[derive(Clone, Copy, Debug)]
pub enum Value<'a> {
    /// A number, a number of seconds, or a time in seconds since 1970.
    Number(u64),
    /// A record type.
    RecordType(Rtype),
    /// The four octets of an IPv4 address.
    Ipv4(&'a [u8]),
    /// The sixteen octets of an IPv6 address.
    Ipv6(&'a [u8]),
    /// A name.
    Name(ParsedName<'a>),
    /// A character string, a tag, a salt or a hash, without its length octet.
    String(&'a [u8]),
    /// Octets without their length of 16 bits.
    Sized(&'a [u8]),
    /// The octets of any other field.
    Octets(&'a [u8]),
}

/// The value of a field of this kind.
pub(crate) fn value_of<'a>(kind: Kind, field: &Encoded<'a>) -> Value<'a>
    requires { HasSize (shape_of kind) (part_of field.now) }
    ensures { value_shown result ≡ part_value kind (part_of field.now) }
{
    match field {
        Encoded::Octets(octets) => octets_value(kind, octets),
        Encoded::Name(name) | Encoded::UncompressedName(_, name) => Value::Name(*name),
    }
}

/// The value of these octets, which are a field of this kind.
fn octets_value(kind: Kind, octets: &[u8]) -> Value<'_>
    requires { HasSize (shape_of kind) (Octets octets.now) }
    ensures { value_shown result ≡ octets_value kind octets.now }
{
    match kind {
        Kind::Number8
        | Kind::Number16
        | Kind::Number32
        | Kind::Number48
        | Kind::Number64
        | Kind::SyncScheme
        | Kind::Seconds
        | Kind::Time => Value::Number(number_of(octets)),
        Kind::RecordType => Value::RecordType(rtype_of(octets)),
        Kind::Ipv4 => Value::Ipv4(octets),
        Kind::Ipv6 => Value::Ipv6(octets),
        Kind::CharacterString | Kind::Tag | Kind::Salt | Kind::Hash => {
            Value::String(octets_after(octets, 1))
        }
        Kind::SizedOctets => Value::Sized(octets_after(octets, 2)),
        _ => Value::Octets(octets),
    }
}

/// The big-endian number of at most eight octets.
fn number_of(octets: &[u8]) -> u64
    requires { length octets.now ≤ 8 }
    ensures { result ≡ number_after 0 octets.now }
{
    match octets {
        [octet] => u64::from(*octet),
        [high, low] => u64::from(u16::from_be_bytes([*high, *low])),
        [first, second, third, fourth] => {
            u64::from(u32::from_be_bytes([*first, *second, *third, *fourth]))
        }
        _ => number_by_octets(octets),
    }
}

/// The same, octet by octet.
fn number_by_octets(octets: &[u8]) -> u64
    requires { length octets.now ≤ 8 }
    ensures { result ≡ number_after 0 octets.now }
{
    let mut number: u64 = 0;
    for octet in octets {
        number = number * 256 + u64::from(*octet);
    }
    number
}

/// The record type of two octets.
fn rtype_of(octets: &[u8]) -> Rtype
    requires { length octets.now ≡ 2 }
    ensures { result ≡ number_after 0 octets.now }
{
    Rtype::from_int(u16::from(octets[0]) * 256 + u16::from(octets[1]))
}

/// The octets after the first `n`.
fn octets_after(octets: &[u8], n: usize) -> &[u8]
    ensures { result.now ≡ drop n octets.now }
{
    octets.get(n..).unwrap_or(&[])
}
