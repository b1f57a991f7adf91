//! Gateways and relays (RFC 4025 section 3.1, RFC 8777 section 4.3.1).
ghost use Rattle.std.specs.Prelude.{◌↔◌, IsTrue};
ghost use Rattle.std.specs.Net.Grammar.{IsDotted};
ghost use Rattle.fields_plain.specs.Addresses.{IsIpv6Word};
ghost use Rattle.fields_forms.specs.GatewayWords.{IsGateway, IsGatewayAndKey, IsGatewayOf, IsNumberTo, IsRelay, IsRelayOf};
ghost use Rattle.fields_text.specs.Reading.{AppendsOctets, HasValue, Reads, ReadsWords};

use fields_plain::{push_ipv4, push_ipv6, push_name, read_ipv4, read_ipv6, read_name};
use fields_text::{TextError, push_octets, read_base64_words, read_number};
use std::alloc::Global;

/// A decimal number of at most `most`.
pub(crate) fn read_octet(word: &str, most: u8) -> Option<u8>
    ensures { Reads (IsNumberTo most word.now) result }
{
    match read_number(word, u64::from(most)) {
        Some(number) => Some(number as u8),
        None => None,
    }
}

/// Whether the word is a gateway of this type.
fn is_gateway(gateway_type: u8, word: &str) -> bool
    ensures { IsTrue result ↔ HasValue (IsGatewayOf gateway_type word.now) }
{
    match gateway_type {
        0 => word == ".",
        1 => read_ipv4(word.as_bytes()).is_some(),
        2 => read_ipv6(word.as_bytes()).is_some(),
        3 => read_name(word).is_some(),
        _ => false,
    }
}

/// Appends the gateway of this type that a word represents.
fn push_gateway(octets: &mut Vec<u8>, gateway_type: u8, word: &str) -> Result<(), TextError>
    ensures { AppendsOctets (IsGatewayOf gateway_type word.now) octets.old.items octets.new.items
        result }
{
    match gateway_type {
        0 => {
            if word == "." {
                Ok(())
            } else {
                Err(TextError::BadWord)
            }
        }
        1 => push_ipv4(octets, word),
        2 => push_ipv6(octets, word),
        3 => push_name(octets, word),
        _ => Err(TextError::BadWord),
    }
}

/// A gateway type, an algorithm, a gateway and a public key.
fn read_gateway_and_key(
    alloc: Global,
    gateway_type: &str,
    algorithm: &str,
    gateway: &str,
    key: &[&str],
) -> Result<Vec<u8>, TextError>
    ensures { ReadsWords
        (IsGatewayAndKey gateway_type.now algorithm.now gateway.now key.now) result }
{
    let Some(gateway_type) = read_octet(gateway_type, 3) else {
        return Err(TextError::BadWord);
    };
    let Some(algorithm) = read_octet(algorithm, u8::MAX) else {
        return Err(TextError::BadWord);
    };
    if !is_gateway(gateway_type, gateway) {
        return Err(TextError::BadWord);
    }
    let key = match read_base64_words(alloc, key) {
        Ok(key) => key,
        Err(error) => return Err(error),
    };
    let mut octets = Vec::new(alloc);
    if let Err(error) = push_octets(&mut octets, &[gateway_type, algorithm]) {
        return Err(error);
    }
    if let Err(error) = push_gateway(&mut octets, gateway_type, gateway) {
        return Err(error);
    }
    match push_octets(&mut octets, key.as_slice()) {
        Ok(()) => Ok(octets),
        Err(error) => Err(error),
    }
}

/// A gateway and its public key. The words are the gateway type, the algorithm, the gateway and the
/// key in base64. No gateway is a dot, and a key of no octets has no word.
pub fn read_gateway(alloc: Global, words: &[&str]) -> Result<Vec<u8>, TextError>
    ensures { ReadsWords (IsGateway words.now) result }
{
    let [gateway_type, algorithm, gateway, key @ ..] = words else {
        return Err(TextError::BadWord);
    };
    read_gateway_and_key(alloc, gateway_type, algorithm, gateway, key)
}

/// A bit that says whether discovery is optional, a relay type and a relay.
fn read_typed_relay(
    alloc: Global,
    bit: &str,
    relay_type: &str,
    relay: &str,
) -> Result<Vec<u8>, TextError>
    ensures { ReadsWords (IsRelayOf bit.now relay_type.now relay.now) result }
{
    let Some(bit) = read_octet(bit, 1) else {
        return Err(TextError::BadWord);
    };
    let Some(relay_type) = read_octet(relay_type, 3) else {
        return Err(TextError::BadWord);
    };
    if !is_gateway(relay_type, relay) {
        return Err(TextError::BadWord);
    }
    let mut octets = Vec::new(alloc);
    if let Err(error) = push_octets(&mut octets, &[bit * 128 + relay_type]) {
        return Err(error);
    }
    match push_gateway(&mut octets, relay_type, relay) {
        Ok(()) => Ok(octets),
        Err(error) => Err(error),
    }
}

/// A relay. The words are a bit that says whether discovery is optional, the relay type and the
/// relay.
pub fn read_relay(alloc: Global, words: &[&str]) -> Result<Vec<u8>, TextError>
    ensures { ReadsWords (IsRelay words.now) result }
{
    match words {
        [bit, relay_type, relay] => read_typed_relay(alloc, bit, relay_type, relay),
        _ => Err(TextError::BadWord),
    }
}
