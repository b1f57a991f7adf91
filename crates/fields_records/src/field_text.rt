//! Fields in presentation format (RFC 1035 section 5.1).
ghost use Rattle.std.specs.Prelude.{OnErr, OnSome, ◌≡◌, IfSome, is_some};
ghost use Rattle.fields_table.specs.Values.{value_shown};
ghost use Rattle.fields_table.specs.declared.kind.Kind.TheVariants as Kind;
ghost use Rattle.dns_print.specs.Printing.{PrintsOnOk};
ghost use Rattle.fields_records.specs.FieldTexts.{always_has_text, base64_or_hyphen, begins_with_space, ipv4_of, ipv6_of, number_text, octets_text, scheme_text, string_text, value_text};
ghost use Rattle.fields_forms.specs.GatewayTexts.{gateway_text, relay_text};
ghost use Rattle.fields_forms.specs.HostIdentities.{identity_text};

use dns_print::TextWriter;
use fields_forms::{GatewayAndKey, HostIdentity, Location, Relay};
use fields_lists::{
    AddressPrefixes, SmallTypeMap, Strings, are_printable, write_prefixes, write_strings,
    write_type_map,
};
use fields_parameters::write_parameters;
use fields_plain::{
    Timestamp, write_eui, write_locator, write_salt, write_sized, write_timestamp, write_type_name,
    write_zone_name,
};
use fields_table::{Kind, Value};
use fields_text::{Tag, write_base32, write_base64, write_hex, write_quoted};
use std::fmt;
use std::net::Ipv6Addr;

/// Whether octets of a field of this kind have a presentation format.
fn octets_have_text(kind: Kind, octets: &[u8]) -> bool
    ensures { result ≡ is_some (octets_text kind octets.now) }
{
    match kind {
        Kind::Eui48
        | Kind::Eui64
        | Kind::Strings
        | Kind::Text
        | Kind::Base64OrHyphen
        | Kind::TypeBitMap
        | Kind::ServiceParameters => true,
        Kind::Locator64 => octets.len() == 8,
        Kind::Location => Location::from_octets(octets).is_some(),
        Kind::Hexadecimal | Kind::Base64 => !octets.is_empty(),
        Kind::SmallTypeBitMap => SmallTypeMap::from_octets(octets).is_some(),
        Kind::AddressPrefixes => are_printable(octets),
        Kind::GatewayAndKey => GatewayAndKey::from_octets(octets).is_some(),
        Kind::Relay => Relay::from_octets(octets).is_some(),
        Kind::HostIdentity => HostIdentity::from_octets(octets).is_some(),
        _ => false,
    }
}

/// Whether a number of a field of this kind has a presentation format.
fn number_has_text(kind: Kind, number: u64) -> bool
    ensures { result ≡ is_some (number_text kind number) }
{
    match kind {
        Kind::Time => number < 1 << 32,
        _ => true,
    }
}

/// Whether a value of a field of this kind has a presentation format.
pub(crate) fn has_text(kind: Kind, value: &Value<'_>) -> bool
    ensures { result ≡ is_some (value_text kind (value_shown value.now)) }
{
    match value {
        Value::Number(number) => number_has_text(kind, *number),
        Value::String(octets) => match kind {
            Kind::Tag => Tag::from_octets(octets).is_some(),
            Kind::Hash => !octets.is_empty(),
            _ => true,
        },
        Value::Ipv4(octets) => octets.len() == 4,
        Value::Ipv6(octets) => octets.len() == 16,
        Value::Octets(octets) => octets_have_text(kind, octets),
        _ => true,
    }
}

/// Whether a field of this kind has a presentation format, whatever its value is.
pub(crate) fn always_has_text(kind: Kind) -> bool
    ensures { result ≡ always_has_text kind }
{
    matches!(
        kind,
        Kind::Number8
            | Kind::Number16
            | Kind::Number32
            | Kind::Number48
            | Kind::Number64
            | Kind::SyncScheme
            | Kind::Seconds
            | Kind::Ipv4
            | Kind::Ipv6
            | Kind::Eui48
            | Kind::Eui64
            | Kind::Locator64
            | Kind::RecordType
            | Kind::CompressibleName
            | Kind::PointedName
            | Kind::LowercasedName
            | Kind::PlainName
            | Kind::CharacterString
            | Kind::Salt
            | Kind::SizedOctets
            | Kind::Strings
            | Kind::Text
            | Kind::Base64OrHyphen
            | Kind::TypeBitMap
            | Kind::ServiceParameters
    )
}

/// Whether the text of a field of this kind begins with a space. Such fields only follow others.
pub(crate) fn begins_with_space(kind: Kind) -> bool
    ensures { result ≡ begins_with_space kind }
{
    matches!(
        kind,
        Kind::TypeBitMap
            | Kind::SmallTypeBitMap
            | Kind::ServiceParameters
            | Kind::GatewayAndKey
            | Kind::Relay
    )
}

/// Prints octets that are letters and digits.
fn write_tag<W: TextWriter>(f: &mut W, octets: &[u8]) -> fmt::Result
    ensures text { IfSome (string_text Kind.Tag octets.now)
        (λ text. PrintsOnOk W.takes f.old result text f.new) }
    ensures err { OnSome (string_text Kind.Tag octets.now) (OnErr result W.MayFail) }
{
    match Tag::from_octets(octets) {
        Some(tag) => tag.write(f),
        None => Err(fmt::Error),
    }
}

/// Prints a string by the kind of its field.
fn write_string<W: TextWriter>(f: &mut W, kind: Kind, octets: &[u8]) -> fmt::Result
    ensures text { IfSome (string_text kind octets.now)
        (λ text. PrintsOnOk W.takes f.old result text f.new) }
    ensures err { OnSome (string_text kind octets.now) (OnErr result W.MayFail) }
{
    match kind {
        Kind::Tag => write_tag(f, octets),
        Kind::Salt => write_salt(f, octets),
        Kind::Hash => write_base32(f, octets),
        _ => write_quoted(f, octets),
    }
}

/// Prints a location.
fn write_location<W: TextWriter>(f: &mut W, octets: &[u8]) -> fmt::Result
    ensures text { IfSome (octets_text Kind.Location octets.now)
        (λ text. PrintsOnOk W.takes f.old result text f.new) }
    ensures err { OnSome (octets_text Kind.Location octets.now) (OnErr result W.MayFail) }
{
    match Location::from_octets(octets) {
        Some(location) => location.write(f),
        None => Err(fmt::Error),
    }
}

/// Prints a bit map of the types from 0 to 127.
fn write_small_map<W: TextWriter>(f: &mut W, octets: &[u8]) -> fmt::Result
    ensures text { IfSome (octets_text Kind.SmallTypeBitMap octets.now)
        (λ text. PrintsOnOk W.takes f.old result text f.new) }
    ensures err { OnSome (octets_text Kind.SmallTypeBitMap octets.now) (OnErr result W.MayFail) }
{
    match SmallTypeMap::from_octets(octets) {
        Some(map) => map.write(f),
        None => Err(fmt::Error),
    }
}

/// Prints a gateway and a public key.
fn write_gateway<W: TextWriter>(f: &mut W, octets: &[u8]) -> fmt::Result
    ensures text { IfSome (gateway_text octets.now)
        (λ text. PrintsOnOk W.takes f.old result text f.new) }
    ensures err { OnSome (gateway_text octets.now) (OnErr result W.MayFail) }
{
    match GatewayAndKey::from_octets(octets) {
        Some(gateway) => gateway.write(f),
        None => Err(fmt::Error),
    }
}

/// Prints a relay.
fn write_relay<W: TextWriter>(f: &mut W, octets: &[u8]) -> fmt::Result
    ensures text { IfSome (relay_text octets.now)
        (λ text. PrintsOnOk W.takes f.old result text f.new) }
    ensures err { OnSome (relay_text octets.now) (OnErr result W.MayFail) }
{
    match Relay::from_octets(octets) {
        Some(relay) => relay.write(f),
        None => Err(fmt::Error),
    }
}

/// Prints a host identity.
fn write_identity<W: TextWriter>(f: &mut W, octets: &[u8]) -> fmt::Result
    ensures text { IfSome (identity_text octets.now)
        (λ text. PrintsOnOk W.takes f.old result text f.new) }
    ensures err { OnSome (identity_text octets.now) (OnErr result W.MayFail) }
{
    match HostIdentity::from_octets(octets) {
        Some(identity) => identity.write(f),
        None => Err(fmt::Error),
    }
}

/// Prints base64, or a hyphen if there are no octets.
#[tactic(auto, using(dns_print::proofs::theory::Prints::prints, std::proofs::lemmas::Grind::common_steps))]
fn write_base64_or_hyphen<W: TextWriter>(f: &mut W, octets: &[u8]) -> fmt::Result
    ensures text { PrintsOnOk W.takes f.old result (base64_or_hyphen octets.now) f.new }
    ensures err { OnErr result W.MayFail }
{
    if octets.is_empty() {
        return f.write_text("-");
    }
    write_base64(f, octets)
}

/// Prints octets by the kind of their field.
fn write_octets<W: TextWriter>(f: &mut W, kind: Kind, octets: &[u8]) -> fmt::Result
    ensures text { IfSome (octets_text kind octets.now)
        (λ text. PrintsOnOk W.takes f.old result text f.new) }
    ensures err { OnSome (octets_text kind octets.now) (OnErr result W.MayFail) }
{
    match kind {
        Kind::Eui48 | Kind::Eui64 => write_eui(f, octets),
        Kind::Locator64 => write_locator(f, octets),
        Kind::Location => write_location(f, octets),
        Kind::Strings => write_strings(f, octets),
        Kind::Text => write_quoted(f, octets),
        Kind::Hexadecimal => write_hex(f, octets),
        Kind::Base64 => write_base64(f, octets),
        Kind::Base64OrHyphen => write_base64_or_hyphen(f, octets),
        Kind::TypeBitMap => write_type_map(f, octets),
        Kind::SmallTypeBitMap => write_small_map(f, octets),
        Kind::ServiceParameters => write_parameters(f, octets),
        Kind::AddressPrefixes => write_prefixes(f, octets),
        Kind::GatewayAndKey => write_gateway(f, octets),
        Kind::Relay => write_relay(f, octets),
        Kind::HostIdentity => write_identity(f, octets),
        _ => Err(fmt::Error),
    }
}

/// Prints a time in fourteen digits.
fn write_time<W: TextWriter>(f: &mut W, number: u64) -> fmt::Result
    ensures text { IfSome (number_text Kind.Time number)
        (λ text. PrintsOnOk W.takes f.old result text f.new) }
    ensures err { OnSome (number_text Kind.Time number) (OnErr result W.MayFail) }
{
    match u32::try_from(number) {
        Ok(time) => write_timestamp(f, Timestamp(time)),
        Err(_) => Err(fmt::Error),
    }
}

/// Prints a scheme of notifications.
#[tactic(auto, using(dns_print::proofs::theory::Prints::prints, std::proofs::lemmas::Grind::common_steps))]
fn write_scheme<W: TextWriter>(f: &mut W, number: u64) -> fmt::Result
    ensures text { PrintsOnOk W.takes f.old result (scheme_text number) f.new }
    ensures err { OnErr result W.MayFail }
{
    if number == 1 {
        return f.write_text("NOTIFY");
    }
    dns_print::write_number(f, number)
}

/// Prints a number by the kind of its field.
fn write_number<W: TextWriter>(f: &mut W, kind: Kind, number: u64) -> fmt::Result
    ensures text { IfSome (number_text kind number)
        (λ text. PrintsOnOk W.takes f.old result text f.new) }
    ensures err { OnSome (number_text kind number) (OnErr result W.MayFail) }
{
    match kind {
        Kind::Time => write_time(f, number),
        Kind::SyncScheme => write_scheme(f, number),
        _ => dns_print::write_number(f, number),
    }
}

/// Prints the IPv4 address of four octets.
fn write_ipv4<W: TextWriter>(f: &mut W, octets: &[u8]) -> fmt::Result
    ensures text { IfSome (ipv4_of octets.now)
        (λ text. PrintsOnOk W.takes f.old result text f.new) }
    ensures err { OnSome (ipv4_of octets.now) (OnErr result W.MayFail) }
{
    match <[u8; 4]>::try_from(octets) {
        Ok(octets) => dns_print::write_ipv4(f, octets),
        Err(_) => Err(fmt::Error),
    }
}

/// Prints the IPv6 address of sixteen octets.
fn write_ipv6<W: TextWriter>(f: &mut W, octets: &[u8]) -> fmt::Result
    ensures text { IfSome (ipv6_of octets.now)
        (λ text. PrintsOnOk W.takes f.old result text f.new) }
    ensures err { OnSome (ipv6_of octets.now) (OnErr result W.MayFail) }
{
    match <[u8; 16]>::try_from(octets) {
        Ok(octets) => fields_plain::write_ipv6(f, Ipv6Addr::from(octets)),
        Err(_) => Err(fmt::Error),
    }
}

/// Prints a value of a field of this kind, if it has a presentation format.
pub(crate) fn write_text<W: TextWriter>(f: &mut W, kind: Kind, value: &Value<'_>) -> fmt::Result
    ensures text { IfSome (value_text kind (value_shown value.now))
        (λ text. PrintsOnOk W.takes f.old result text f.new) }
    ensures err { OnSome (value_text kind (value_shown value.now)) (OnErr result W.MayFail) }
{
    match value {
        Value::Number(number) => write_number(f, kind, *number),
        Value::RecordType(rtype) => write_type_name(f, *rtype),
        Value::Ipv4(octets) => write_ipv4(f, octets),
        Value::Ipv6(octets) => write_ipv6(f, octets),
        Value::Name(name) => write_zone_name(f, name),
        Value::String(octets) => write_string(f, kind, octets),
        Value::Sized(octets) => write_sized(f, octets),
        Value::Octets(octets) => write_octets(f, kind, octets),
    }
}
