//! Gateways and relays (RFC 4025 section 3.1, RFC 8777 section 4.3.1).
ghost use Rattle.std.specs.Prelude.{OnErr, ◌≡◌, ◌++◌, IfSome, MatchOption, None, Some, codes, decimal, is_some};
ghost use Rattle.std.specs.Net.Addr.{segments_of};
ghost use Rattle.std.specs.Net.Text.{ipv4_text, ipv6_text};
ghost use Rattle.dns_name.specs.NameReading.{name_labels};
ghost use Rattle.dns_print.specs.Printing.{PrintsOnOk};
ghost use Rattle.fields_forms.specs.GatewayTexts.{gateway_at, gateway_text, name_at, relay_text, relay_words, word_at};
ghost use Rattle.fields_forms.specs.GatewayValues.{SplitsGateway, gateway_shown, gateway_word, relay_shown};
ghost use Rattle.fields_forms.specs.Gateways.{gateway_size, size_within, is_gateway_and_key, is_relay};

use crate::plain_names::plain_name_size;
use dns_name::{Name, ParsedName, Parser, ToName};
use dns_print::{TextWriter, write_ipv4, write_number};
use fields_plain::{write_ipv6, write_zone_name};
use fields_text::write_key;
use std::fmt;
use std::net::{Ipv4Addr, Ipv6Addr};

/// A gateway: nothing, an address or a name.
#[derive(Debug, Drop)]
pub(crate) enum Gateway<'a> {
    Nothing,
    Ipv4(Ipv4Addr),
    Ipv6(Ipv6Addr),
    Name(Name<&'a [u8]>),
}

/// The uncompressed name at the start of octets, and the octets after it.
pub(crate) fn split_name(octets: &[u8]) -> Option<(Name<&[u8]>, &[u8])>
    ensures { MatchOption result (name_at octets.now ≡ None)
        (λ split. name_at octets.now ≡ Some (name_labels split.0, split.1.now)) }
{
    let mut parser = Parser::new(octets);
    let Ok(()) = ParsedName::skip(&mut parser) else {
        return None;
    };
    let Some((front, after)) = octets.split_at_checked(parser.pos()) else {
        return None;
    };
    let Ok(name) = Name::from_octets(front) else {
        return None;
    };
    Some((name, after))
}

/// The IPv4 address at the start of octets, and the octets after it.
fn split_ipv4(octets: &[u8]) -> Option<(Gateway<'_>, &[u8])>
    ensures { SplitsGateway (word_at 4 ipv4_text octets.now) result }
{
    let Some((address, after)) = octets.split_first_chunk::<4>() else {
        return None;
    };
    Some((Gateway::Ipv4(Ipv4Addr::from(*address)), after))
}

/// The IPv6 address at the start of octets, and the octets after it.
fn split_ipv6(octets: &[u8]) -> Option<(Gateway<'_>, &[u8])>
    ensures { SplitsGateway (word_at 16 (λ address. ipv6_text (segments_of address)) octets.now)
        result }
{
    let Some((address, after)) = octets.split_first_chunk::<16>() else {
        return None;
    };
    Some((Gateway::Ipv6(Ipv6Addr::from(*address)), after))
}

/// The gateway of this type at the start of octets, and the octets after it. `None` for another type
/// than 0 to 3, and if the octets don't begin with such a gateway.
fn split_gateway(gateway_type: u8, octets: &[u8]) -> Option<(Gateway<'_>, &[u8])>
    ensures { SplitsGateway (gateway_at gateway_type octets.now) result }
{
    match gateway_type {
        0 => Some((Gateway::Nothing, octets)),
        1 => split_ipv4(octets),
        2 => split_ipv6(octets),
        3 => match split_name(octets) {
            Some((name, after)) => Some((Gateway::Name(name), after)),
            None => None,
        },
        _ => None,
    }
}

/// Prints a dot, an address, or a name and a dot.
fn write_gateway<W: TextWriter>(f: &mut W, gateway: &Gateway<'_>) -> fmt::Result
    ensures text { PrintsOnOk W.takes f.old result (gateway_word gateway.now) f.new }
    ensures err { OnErr result W.MayFail }
{
    match gateway {
        Gateway::Nothing => f.write_text("."),
        Gateway::Ipv4(address) => write_ipv4(f, address.octets()),
        Gateway::Ipv6(address) => write_ipv6(f, *address),
        Gateway::Name(name) => write_zone_name(f, &name.as_parsed()),
    }
}

/// A gateway type, an algorithm, a gateway and a public key.
#[derive(Debug, Drop)]
pub struct GatewayAndKey<'a> {
    gateway_type: u8,
    algorithm: u8,
    gateway: Gateway<'a>,
    key: &'a [u8],
}

impl<'a> GatewayAndKey<'a> {
    /// The value of these octets. `None` if they have no presentation format.
    pub fn from_octets(octets: &'a [u8]) -> Option<Self>
        ensures found { is_some result ≡ is_some (gateway_text octets.now) }
        ensures text { IfSome result (λ value.
            Some (gateway_shown value) ≡ gateway_text octets.now) }
    {
        let [gateway_type, algorithm, after @ ..] = octets else {
            return None;
        };
        match split_gateway(*gateway_type, after) {
            Some((gateway, key)) => Some(GatewayAndKey {
                gateway_type: *gateway_type,
                algorithm: *algorithm,
                gateway,
                key,
            }),
            None => None,
        }
    }
}

/// Prints a number after a space.
#[tactic(auto, using(dns_print::proofs::theory::Prints::prints, std::proofs::lemmas::Grind::common_steps))]
fn write_spaced<W: TextWriter>(f: &mut W, number: u8) -> fmt::Result
    ensures text { PrintsOnOk W.takes f.old result (codes " " ++ decimal number) f.new }
    ensures err { OnErr result W.MayFail }
{
    f.write_text(" ")?;
    write_number(f, u64::from(number))
}

/// Prints two numbers and a gateway, each after a space.
#[tactic(auto, using(dns_print::proofs::theory::Prints::prints, std::proofs::lemmas::Grind::common_steps))]
fn write_words<W: TextWriter>(
    f: &mut W,
    first: u8,
    second: u8,
    gateway: &Gateway<'_>,
) -> fmt::Result
    ensures text { PrintsOnOk W.takes f.old result
        (relay_words first second (gateway_word gateway.now)) f.new }
    ensures err { OnErr result W.MayFail }
{
    write_spaced(f, first)?;
    write_spaced(f, second)?;
    f.write_text(" ")?;
    write_gateway(f, gateway)
}

impl GatewayAndKey<'_> {
    /// Prints the words, each after a space. A key of no octets has no word.
    #[tactic(auto, using(dns_print::proofs::theory::Prints::prints, std::proofs::lemmas::Grind::common_steps))]
    pub fn write<W: TextWriter>(&self, f: &mut W) -> fmt::Result
        ensures text { PrintsOnOk W.takes f.old result (gateway_shown self.now) f.new }
        ensures err { OnErr result W.MayFail }
    {
        write_words(f, self.gateway_type, self.algorithm, &self.gateway)?;
        write_key(f, self.key)
    }
}

/// A bit that says whether discovery is optional, a relay type and a relay.
#[derive(Debug, Drop)]
pub struct Relay<'a> {
    discovery: u8,
    relay_type: u8,
    relay: Gateway<'a>,
}

impl<'a> Relay<'a> {
    /// The value of these octets. `None` if they have no presentation format.
    pub fn from_octets(octets: &'a [u8]) -> Option<Self>
        ensures found { is_some result ≡ is_some (relay_text octets.now) }
        ensures text { IfSome result (λ value. Some (relay_shown value) ≡ relay_text octets.now) }
    {
        let [first, after @ ..] = octets else {
            return None;
        };
        let relay_type = *first % 128;
        match split_gateway(relay_type, after) {
            Some((relay, [])) => Some(Relay {
                discovery: *first / 128,
                relay_type,
                relay,
            }),
            _ => None,
        }
    }
}

impl Relay<'_> {
    /// Prints the words, each after a space.
    pub fn write<W: TextWriter>(&self, f: &mut W) -> fmt::Result
        ensures text { PrintsOnOk W.takes f.old result (relay_shown self.now) f.new }
        ensures err { OnErr result W.MayFail }
    {
        write_words(f, self.discovery, self.relay_type, &self.relay)
    }
}

/// This size, if there are that many octets.
fn size_within(size: usize, octets: &[u8]) -> Option<usize>
    ensures { result ≡ size_within size octets.now }
{
    if size <= octets.len() {
        Some(size)
    } else {
        None
    }
}

/// The size of a gateway of this type at the start of the octets: nothing, an IPv4 address, an IPv6
/// address, or a name. `None` if it isn't there.
pub(crate) fn gateway_size(gateway_type: u8, octets: &[u8]) -> Option<usize>
    ensures { result ≡ gateway_size gateway_type octets.now }
{
    match gateway_type {
        0 => Some(0),
        1 => size_within(4, octets),
        2 => size_within(16, octets),
        3 => plain_name_size(octets),
        _ => None,
    }
}

/// Whether the octets are a gateway type, an algorithm, a gateway of that type and a public key.
/// Gateway types above 3 have no known form, and accept all octets.
pub fn is_gateway_and_key(octets: &[u8]) -> bool
    ensures { result ≡ is_gateway_and_key octets.now }
{
    let [gateway_type, _, rest @ ..] = octets else {
        return false;
    };
    *gateway_type > 3 || gateway_size(*gateway_type, rest).is_some()
}

/// Whether the octets are a bit, a relay type and a relay of that type. Relay types above 3 have no
/// known form, and accept all octets.
pub fn is_relay(octets: &[u8]) -> bool
    ensures { result ≡ is_relay octets.now }
{
    let [first, rest @ ..] = octets else {
        return false;
    };
    let relay_type = *first % 128;
    let size = gateway_size(relay_type, rest);
    relay_type > 3 || size.is_some_and(|size| size == rest.len())
}
