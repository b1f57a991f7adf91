//! Values with a form of their own as octets (RFC 4025 section 2, RFC 8777 section 4.2, RFC 8005
//! section 5).
ghost use Rattle.std.specs.Prelude.{◌≡◌, ◌↔◌, ◌++◌, IsTrue, IfErr, OnOk, length};
ghost use Rattle.fields_values.specs.Appending.{Appends};
ghost use Rattle.fields_values.specs.NewForms.{IsGatewayIn, IsIdentityIn, IsRelayIn, IsWhole, gateway_octets, gateway_type, names_octets};
ghost use Rattle.fields_values.specs.declared.value_error.Refusal.TheVariants.{OutOfMemory};

use crate::lists::{MOST_COUNTED, MOST_SIZED, push};
use crate::new_forms::{NewGateway, NewGatewayAndKey, NewHostIdentity, NewRelay};
use crate::value_error::Refusal;
use dns_name::ParsedName;
use fields_forms::push_identity;

/// The type of a gateway.
fn gateway_type(gateway: &NewGateway<'_>) -> u8
    ensures { result ≡ gateway_type gateway.now }
{
    match gateway {
        NewGateway::Nothing => 0,
        NewGateway::Ipv4(_) => 1,
        NewGateway::Ipv6(_) => 2,
        NewGateway::Name(_) => 3,
    }
}

/// Whether there are this many octets.
fn has_size(octets: &[u8], size: usize) -> bool
    ensures { IsTrue result ↔ (length octets.now ≡ size) }
{
    octets.len() == size
}

/// Whether an address has its size.
fn is_whole(gateway: &NewGateway<'_>) -> bool
    ensures { IsTrue result ↔ IsWhole gateway.now }
{
    match gateway {
        NewGateway::Ipv4(address) => has_size(address, 4),
        NewGateway::Ipv6(address) => has_size(address, 16),
        _ => true,
    }
}

/// Appends the octets of a gateway.
fn push_gateway_octets(octets: &mut Vec<u8>, gateway: &NewGateway<'_>) -> Result<(), Refusal>
    ensures ok { OnOk result (octets.new.items ≡ octets.old.items ++ gateway_octets gateway.now) }
    ensures err { IfErr result (λ refusal. refusal ≡ OutOfMemory) }
{
    match gateway {
        NewGateway::Nothing => Ok(()),
        NewGateway::Ipv4(address) => push(octets, address),
        NewGateway::Ipv6(address) => push(octets, address),
        NewGateway::Name(name) => push(octets, name.uncompressed().as_slice()),
    }
}

/// Appends a gateway and its public key.
pub(crate) fn push_gateway_and_key(
    octets: &mut Vec<u8>,
    value: &NewGatewayAndKey<'_>,
) -> Result<(), Refusal>
    ensures { Appends (IsGatewayIn value.now) octets.old.items octets.new.items result }
{
    if !is_whole(&value.gateway) {
        return Err(Refusal::OutOfRange);
    }
    if let Err(refusal) = push(octets, &[gateway_type(&value.gateway), value.algorithm]) {
        return Err(refusal);
    }
    if let Err(refusal) = push_gateway_octets(octets, &value.gateway) {
        return Err(refusal);
    }
    if let Err(refusal) = push(octets, value.key) {
        return Err(refusal);
    }
    Ok(())
}

/// Appends a relay.
pub(crate) fn push_relay_octets(octets: &mut Vec<u8>, value: &NewRelay<'_>) -> Result<(), Refusal>
    ensures { Appends (IsRelayIn value.now) octets.old.items octets.new.items result }
{
    if !is_whole(&value.relay) {
        return Err(Refusal::OutOfRange);
    }
    let bit: u8 = if value.optional { 128 } else { 0 };
    if let Err(refusal) = push(octets, &[bit + gateway_type(&value.relay)]) {
        return Err(refusal);
    }
    if let Err(refusal) = push_gateway_octets(octets, &value.relay) {
        return Err(refusal);
    }
    Ok(())
}

/// Appends names, uncompressed.
fn push_names(octets: &mut Vec<u8>, names: &[ParsedName<'_>]) -> Result<(), Refusal>
    ensures ok { OnOk result (octets.new.items ≡ octets.old.items ++ names_octets names.now) }
    ensures err { IfErr result (λ refusal. refusal ≡ OutOfMemory) }
{
    let mut left = names;
    'names: while let [name, after @ ..] = left {
        if let Err(refusal) = push(octets, name.uncompressed().as_slice()) {
            return Err(refusal);
        }
        left = after;
    }
    Ok(())
}

/// Appends a host identity.
pub(crate) fn push_host_identity(
    octets: &mut Vec<u8>,
    value: &NewHostIdentity<'_>,
) -> Result<(), Refusal>
    ensures { Appends (IsIdentityIn value.now) octets.old.items octets.new.items result }
{
    if value.tag.len() > MOST_COUNTED {
        return Err(Refusal::OutOfRange);
    }
    if value.key.len() > MOST_SIZED {
        return Err(Refusal::OutOfRange);
    }
    let Ok(()) = push_identity(octets, value.algorithm, value.tag, value.key) else {
        return Err(Refusal::OutOfMemory);
    };
    if let Err(refusal) = push_names(octets, value.servers) {
        return Err(refusal);
    }
    Ok(())
}
