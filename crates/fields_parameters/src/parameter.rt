//! Service parameters (RFC 9460 sections 2.1, 2.2 and 7; dohpath: RFC 9461 section 5; ohttp: RFC 9540
//! section 4).
ghost use Rattle.std.specs.Prelude.{OnErr, ◌≡◌, ◌++◌, Some, codes, decimal, length, option_map, true};
ghost use Rattle.std.specs.List.{list_all};
ghost use Rattle.dns_print.specs.Printing.{PrintsOnOk};
ghost use Rattle.fields_parameters.specs.Parameters.{are_keys, are_protocols, has_named_value, ipv4_hints, ipv6_hints, is_bare, key_name, key_word, keys_text, named_value, other_value, parameter_word, port_text, protocols, parameters_text};
ghost use Rattle.fields_parameters.specs.ItemsLeft.{parameter_item};

use crate::parameters::{Parameter, Parameters};
use dns_print::{TextWriter, write_ipv4, write_number};
use fields_lists::Strings;
use fields_plain::write_ipv6;
use fields_text::{write_base64, write_quoted};
use std::fmt;
use std::net::Ipv6Addr;

/// A service parameter that prints by the name of its key if the value is well-formed for that key,
/// else by the number of the key.
#[derive(Clone, Copy, Debug)]
pub struct ParameterText<'a>(pub Parameter<'a>);

/// The name of a key.
pub(crate) fn name_of(key: u16) -> Option<&'static str>
    ensures { option_map (λ text. text.now) result ≡ key_name key }
{
    match key {
        0 => Some("mandatory"),
        1 => Some("alpn"),
        2 => Some("no-default-alpn"),
        3 => Some("port"),
        4 => Some("ipv4hint"),
        5 => Some("ech"),
        6 => Some("ipv6hint"),
        7 => Some("dohpath"),
        8 => Some("ohttp"),
        _ => None,
    }
}

/// Prints `key` and the number of a key.
#[tactic(auto, using(dns_print::proofs::theory::Prints::prints, std::proofs::lemmas::Grind::common_steps))]
fn write_numbered_key<W: TextWriter>(f: &mut W, key: u16) -> fmt::Result
    ensures text { PrintsOnOk W.takes f.old result (codes "key" ++ decimal key) f.new }
    ensures err { OnErr result W.MayFail }
{
    f.write_text("key")?;
    write_number(f, u64::from(key))
}

/// Prints a key: its name, else `key` and its number.
fn write_key<W: TextWriter>(f: &mut W, key: u16) -> fmt::Result
    ensures text { PrintsOnOk W.takes f.old result (key_word key) f.new }
    ensures err { OnErr result W.MayFail }
{
    match name_of(key) {
        Some(name) => f.write_text(name),
        None => write_numbered_key(f, key),
    }
}

/// Prints keys, separated by commas.
fn write_keys<W: TextWriter>(f: &mut W, value: &[u8]) -> fmt::Result
    ensures text { PrintsOnOk W.takes f.old result (keys_text value.now) f.new }
    ensures err { OnErr result W.MayFail }
{
    let mut separator = "";
    let mut left = value;
    'keys: while let Some((key, after)) = left.split_first_chunk::<2>() {
        f.write_text(separator)?;
        write_key(f, u16::from_be_bytes(*key))?;
        separator = ",";
        left = after;
    }
    Ok(())
}

/// Prints IPv4 addresses, separated by commas.
fn write_ipv4_hints<W: TextWriter>(f: &mut W, value: &[u8]) -> fmt::Result
    ensures text { PrintsOnOk W.takes f.old result (ipv4_hints value.now) f.new }
    ensures err { OnErr result W.MayFail }
{
    let mut separator = "";
    let mut left = value;
    'addresses: while let Some((octets, after)) = left.split_first_chunk::<4>() {
        f.write_text(separator)?;
        write_ipv4(f, *octets)?;
        separator = ",";
        left = after;
    }
    Ok(())
}

/// Prints IPv6 addresses, separated by commas.
fn write_ipv6_hints<W: TextWriter>(f: &mut W, value: &[u8]) -> fmt::Result
    ensures text { PrintsOnOk W.takes f.old result (ipv6_hints value.now) f.new }
    ensures err { OnErr result W.MayFail }
{
    let mut separator = "";
    let mut left = value;
    'addresses: while let Some((octets, after)) = left.split_first_chunk::<16>() {
        f.write_text(separator)?;
        write_ipv6(f, Ipv6Addr::from(*octets))?;
        separator = ",";
        left = after;
    }
    Ok(())
}

/// Whether an octet of a protocol name needs no escape in a list in quotes.
fn is_bare(octet: u8) -> bool
    ensures { result ≡ is_bare octet }
{
    matches!(octet, 0x20..=0x7e) && !matches!(octet, b'"' | b'\\' | b',')
}

/// Whether the octets are protocol names after their lengths, none of which is empty or needs an
/// escape.
fn are_protocols(value: &[u8]) -> bool
    ensures { result ≡ are_protocols value.now }
{
    let mut name_left = 0;
    for octet in value {
        if name_left == 0 {
            name_left = *octet;
            if *octet == 0 {
                return false;
            }
        } else if is_bare(*octet) {
            name_left -= 1;
        } else {
            return false;
        }
    }
    name_left == 0 && !value.is_empty()
}

/// Prints octets as they are.
#[tactic(auto, using(dns_print::proofs::theory::Prints::prints, std::proofs::lemmas::Grind::common_steps))]
fn write_plain<W: TextWriter>(f: &mut W, octets: &[u8]) -> fmt::Result
    requires { list_all is_bare octets.now ≡ true }
    ensures text { PrintsOnOk W.takes f.old result octets.now f.new }
    ensures err { OnErr result W.MayFail }
{
    for octet in octets {
        f.write_char(char::from(*octet))?;
    }
    Ok(())
}

/// Prints protocol names, separated by commas.
fn write_protocols<W: TextWriter>(f: &mut W, value: &[u8]) -> fmt::Result
    requires { are_protocols value.now ≡ true }
    ensures text { PrintsOnOk W.takes f.old result (protocols value.now) f.new }
    ensures err { OnErr result W.MayFail }
{
    let mut separator = "";
    for name in Strings::new(value) {
        f.write_text(separator)?;
        write_plain(f, name)?;
        separator = ",";
    }
    Ok(())
}

/// Whether the octets are increasing keys, one at least, without the key of `mandatory` itself.
fn are_keys(value: &[u8]) -> bool
    ensures { result ≡ are_keys value.now }
{
    let mut least = 0;
    let mut left = value;
    'keys: while let [high, low, after @ ..] = left {
        let key = u16::from(*high) * 256 + u16::from(*low);
        if key <= least {
            return false;
        }
        least = key;
        left = after;
    }
    left.is_empty() && !value.is_empty()
}

/// Whether the value is well-formed for the name of its key.
fn has_named_value(key: u16, value: &[u8]) -> bool
    ensures { result ≡ has_named_value key value.now }
{
    match key {
        0 => are_keys(value),
        1 => are_protocols(value),
        2 | 8 => value.is_empty(),
        3 => value.len() == 2,
        4 => !value.is_empty() && value.len() % 4 == 0,
        5 => !value.is_empty(),
        6 => !value.is_empty() && value.len() % 16 == 0,
        _ => key == 7,
    }
}

/// Prints the value of a key with a name, after an equals sign; nothing if the key has no value.
#[tactic(auto, using(dns_print::proofs::theory::Prints::prints, std::proofs::lemmas::Grind::common_steps))]
fn write_named_value<W: TextWriter>(f: &mut W, key: u16, value: &[u8]) -> fmt::Result
    requires { has_named_value key value.now ≡ true }
    ensures text { PrintsOnOk W.takes f.old result (named_value key value.now) f.new }
    ensures err { OnErr result W.MayFail }
{
    if key == 2 || key == 8 {
        return Ok(());
    }
    f.write_text("=")?;
    match key {
        0 => write_keys(f, value),
        1 => write_alpn(f, value),
        3 => write_port(f, value),
        4 => write_ipv4_hints(f, value),
        5 => write_base64(f, value),
        6 => write_ipv6_hints(f, value),
        _ => write_quoted(f, value),
    }
}

/// Prints a number of two octets.
#[tactic(auto, using(dns_print::proofs::theory::Prints::prints, std::proofs::lemmas::Grind::common_steps))]
fn write_port<W: TextWriter>(f: &mut W, value: &[u8]) -> fmt::Result
    requires { length value.now ≡ 2 }
    ensures text { PrintsOnOk W.takes f.old result (port_text value.now) f.new }
    ensures err { OnErr result W.MayFail }
{
    write_number(f, u64::from(u16::from_be_bytes([value[0], value[1]])))
}

/// Prints protocol names in quotes.
#[tactic(auto, using(dns_print::proofs::theory::Prints::prints, std::proofs::lemmas::Grind::common_steps))]
fn write_alpn<W: TextWriter>(f: &mut W, value: &[u8]) -> fmt::Result
    requires { are_protocols value.now ≡ true }
    ensures text { PrintsOnOk W.takes f.old result
        (codes "\"" ++ protocols value.now ++ codes "\"") f.new }
    ensures err { OnErr result W.MayFail }
{
    f.write_text("\"")?;
    write_protocols(f, value)?;
    f.write_text("\"")
}

/// Prints the value of a parameter by the number of its key, after an equals sign; nothing if it is
/// empty.
#[tactic(auto, using(dns_print::proofs::theory::Prints::prints, std::proofs::lemmas::Grind::common_steps))]
fn write_other_value<W: TextWriter>(f: &mut W, value: &[u8]) -> fmt::Result
    ensures text { PrintsOnOk W.takes f.old result (other_value value.now) f.new }
    ensures err { OnErr result W.MayFail }
{
    if value.is_empty() {
        return Ok(());
    }
    f.write_text("=")?;
    write_quoted(f, value)
}

/// Prints a service parameter by the name of its key if the value is well-formed for that key, else by
/// the number of the key (RFC 9460 section 2.1).
#[tactic(auto, using(dns_print::proofs::theory::Prints::prints, std::proofs::lemmas::Grind::common_steps))]
pub fn write_parameter<W: TextWriter>(f: &mut W, parameter: Parameter<'_>) -> fmt::Result
    ensures text { PrintsOnOk W.takes f.old result
        (parameter_word (parameter_item parameter.entry)) f.new }
    ensures err { OnErr result W.MayFail }
{
    let Parameter { key, value } = parameter;
    if has_named_value(key, value) {
        write_key(f, key)?;
        return write_named_value(f, key, value);
    }
    write_numbered_key(f, key)?;
    write_other_value(f, value)
}

impl fmt::Display for ParameterText<'_> {
    ghost output = { λ text. Some (parameter_word (parameter_item text.0)) };

    ghost styled_output = { λ text _. Some (parameter_word (parameter_item text.0)) };

    fn fmt<W: fmt::Write>(&self, f: &mut fmt::Formatter<W>) -> fmt::Result {
        write_parameter(f, self.0)
    }
}

/// Prints a service parameter after a space.
#[tactic(auto, using(dns_print::proofs::theory::Prints::prints, std::proofs::lemmas::Grind::common_steps))]
fn write_next_parameter<W: TextWriter>(f: &mut W, parameter: Parameter<'_>) -> fmt::Result
    ensures text { PrintsOnOk W.takes f.old result
        (codes " " ++ parameter_word (parameter_item parameter.entry)) f.new }
    ensures err { OnErr result W.MayFail }
{
    f.write_text(" ")?;
    write_parameter(f, parameter)
}

/// Prints service parameters, each after a space.
pub fn write_parameters<W: TextWriter>(f: &mut W, octets: &[u8]) -> fmt::Result
    ensures text { PrintsOnOk W.takes f.old result (parameters_text octets.now) f.new }
    ensures err { OnErr result W.MayFail }
{
    for parameter in Parameters::new(octets) {
        write_next_parameter(f, parameter)?;
    }
    Ok(())
}
