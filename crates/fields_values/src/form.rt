//! What fields take as their values.
ghost use Rattle.std.specs.Prelude.{◌≡◌};
ghost use Rattle.fields_values.specs.Forms.{value_form};

use fields_table::Kind;

/// What a field takes as its value.
#[derive(Clone, Copy, Debug, PartialEq, Eq)]
pub(crate) enum Form {
    /// A number of this many octets.
    Number(u8),
    /// A record type.
    RecordType,
    /// An IPv4 address.
    Ipv4,
    /// An IPv6 address.
    Ipv6,
    /// A 48-bit address.
    Eui48,
    /// A 64-bit address.
    Eui64,
    /// A locator of 64 bits.
    Locator64,
    /// A name.
    Name,
    /// At most 255 octets, after a length octet.
    Counted,
    /// Octets after their length of 16 bits.
    Sized,
    /// A location.
    Location,
    /// Character strings.
    Strings,
    /// A type bit map.
    Types,
    /// Service parameters.
    Parameters,
    /// Address prefixes.
    Prefixes,
    /// A gateway and a public key.
    Gateway,
    /// A relay.
    Relay,
    /// A host identity.
    Identity,
    /// All remaining octets.
    Rest,
}

/// What a field of this kind takes as its value.
pub(crate) fn value_form(kind: Kind) -> Form
    ensures { result ≡ value_form kind }
{
    match kind {
        Kind::Number8 | Kind::SyncScheme => Form::Number(1),
        Kind::Number16 => Form::Number(2),
        Kind::Number32 | Kind::Seconds | Kind::Time => Form::Number(4),
        Kind::Number48 => Form::Number(6),
        Kind::Number64 => Form::Number(8),
        Kind::RecordType => Form::RecordType,
        Kind::Ipv4 => Form::Ipv4,
        Kind::Ipv6 => Form::Ipv6,
        Kind::Eui48 => Form::Eui48,
        Kind::Eui64 => Form::Eui64,
        Kind::Locator64 => Form::Locator64,
        Kind::CompressibleName | Kind::PointedName | Kind::LowercasedName | Kind::PlainName => {
            Form::Name
        }
        Kind::CharacterString | Kind::Tag | Kind::Salt | Kind::Hash => Form::Counted,
        Kind::SizedOctets => Form::Sized,
        Kind::Location => Form::Location,
        Kind::Strings => Form::Strings,
        Kind::TypeBitMap => Form::Types,
        Kind::ServiceParameters => Form::Parameters,
        Kind::AddressPrefixes => Form::Prefixes,
        Kind::GatewayAndKey => Form::Gateway,
        Kind::Relay => Form::Relay,
        Kind::HostIdentity => Form::Identity,
        _ => Form::Rest,
    }
}
