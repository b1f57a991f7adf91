//! Values of fields as octets.
ghost use Rattle.std.specs.Prelude.{◌≡◌, ◌↔◌, ◌<◌, ◌^◌, IsTrue, length};
ghost use Rattle.fields_values.specs.Appending.{Appends, AppendsValue};
ghost use Rattle.fields_values.specs.declared.new_value.NewValue.TheVariants.{Number, RecordType, Ipv4, Ipv6, Eui48, Eui64, Locator64, Location as NewLocation, Name, String, Sized, Strings, Types, Parameters, Prefixes, GatewayAndKey, Relay as AsRelay, HostIdentity, Octets};

use crate::form::{Form, value_form};
use crate::forms::{push_gateway_and_key, push_host_identity, push_relay_octets};
use crate::lists::{
    push, push_big_endian, push_counted, push_parameters, push_prefixes, push_sized, push_strings,
    push_types,
};
use crate::new_forms::{NewGatewayAndKey, NewHostIdentity, NewRelay};
use crate::new_value::NewValue;
use crate::value_error::Refusal;
use dns_iana::Rtype;
use dns_name::ParsedName;
use fields_forms::Location;
use fields_lists::AddressPrefix;
use fields_table::Kind;
use std::alloc::Global;

/// Whether a number has at most this many octets.
fn fits(number: u64, size: u8) -> bool
    ensures { IsTrue result ↔ (number < 256 ^ size) }
{
    if size == 0 {
        return number == 0;
    }
    fits(number / 256, size - 1)
}

/// Appends an address of this many octets.
fn push_address(octets: &mut Vec<u8>, address: &[u8], size: usize) -> Result<(), Refusal>
    ensures { Appends (λ all. (length address.now ≡ size) × (all ≡ address.now))
        octets.old.items octets.new.items result }
{
    if address.len() != size {
        return Err(Refusal::OutOfRange);
    }
    if let Err(refusal) = push(octets, address) {
        return Err(refusal);
    }
    Ok(())
}

/// Appends octets that are a field of this kind.
fn push_plain(octets: &mut Vec<u8>, kind: Kind, more: &[u8]) -> Result<(), Refusal>
    ensures { AppendsValue kind (Octets more.entry) octets.old.items octets.new.items result }
{
    match value_form(kind) {
        Form::Eui48 => push_address(octets, more, 6),
        Form::Eui64 => push_address(octets, more, 8),
        Form::Locator64 => push_address(octets, more, 8),
        Form::Location => push_address(octets, more, 16),
        Form::Strings
        | Form::Types
        | Form::Parameters
        | Form::Prefixes
        | Form::Gateway
        | Form::Relay
        | Form::Identity
        | Form::Rest => {
            if !kind.accepts(more) {
                return Err(Refusal::OutOfRange);
            }
            push(octets, more)
        }
        _ => Err(Refusal::WrongKind),
    }
}

/// Appends a number.
fn push_number(octets: &mut Vec<u8>, kind: Kind, number: u64) -> Result<(), Refusal>
    ensures { AppendsValue kind (Number number) octets.old.items octets.new.items result }
{
    match value_form(kind) {
        Form::Number(size) => {
            if !fits(number, size) {
                return Err(Refusal::OutOfRange);
            }
            push_big_endian(octets, size, number)
        }
        _ => Err(Refusal::WrongKind),
    }
}

/// Appends the number of a record type.
fn push_rtype(octets: &mut Vec<u8>, kind: Kind, rtype: Rtype) -> Result<(), Refusal>
    ensures { AppendsValue kind (RecordType rtype) octets.old.items octets.new.items result }
{
    match value_form(kind) {
        Form::RecordType => push_big_endian(octets, 2, u64::from(rtype.to_int())),
        _ => Err(Refusal::WrongKind),
    }
}

/// Appends an IPv4 address.
fn push_ipv4(octets: &mut Vec<u8>, kind: Kind, address: &[u8; 4]) -> Result<(), Refusal>
    ensures { AppendsValue kind (Ipv4 address.now) octets.old.items octets.new.items result }
{
    match value_form(kind) {
        Form::Ipv4 => push_address(octets, address, 4),
        _ => Err(Refusal::WrongKind),
    }
}

/// Appends an IPv6 address.
fn push_ipv6(octets: &mut Vec<u8>, kind: Kind, address: &[u8; 16]) -> Result<(), Refusal>
    ensures { AppendsValue kind (Ipv6 address.now) octets.old.items octets.new.items result }
{
    match value_form(kind) {
        Form::Ipv6 => push_address(octets, address, 16),
        _ => Err(Refusal::WrongKind),
    }
}

/// Appends a 48-bit address.
fn push_eui48(octets: &mut Vec<u8>, kind: Kind, address: &[u8; 6]) -> Result<(), Refusal>
    ensures { AppendsValue kind (Eui48 address.now) octets.old.items octets.new.items result }
{
    match value_form(kind) {
        Form::Eui48 => push_address(octets, address, 6),
        _ => Err(Refusal::WrongKind),
    }
}

/// Appends a 64-bit address.
fn push_eui64(octets: &mut Vec<u8>, kind: Kind, address: &[u8; 8]) -> Result<(), Refusal>
    ensures { AppendsValue kind (Eui64 address.now) octets.old.items octets.new.items result }
{
    match value_form(kind) {
        Form::Eui64 => push_address(octets, address, 8),
        _ => Err(Refusal::WrongKind),
    }
}

/// Appends a locator.
fn push_locator(octets: &mut Vec<u8>, kind: Kind, locator: &[u8; 8]) -> Result<(), Refusal>
    ensures { AppendsValue kind (Locator64 locator.now) octets.old.items octets.new.items result }
{
    match value_form(kind) {
        Form::Locator64 => push_address(octets, locator, 8),
        _ => Err(Refusal::WrongKind),
    }
}

/// Appends a location.
fn push_location(octets: &mut Vec<u8>, kind: Kind, location: &Location) -> Result<(), Refusal>
    ensures { AppendsValue kind (NewLocation location.now) octets.old.items octets.new.items
        result }
{
    match value_form(kind) {
        Form::Location => push(octets, &location.octets()),
        _ => Err(Refusal::WrongKind),
    }
}

/// Appends a name, uncompressed.
fn push_name(octets: &mut Vec<u8>, kind: Kind, name: &ParsedName<'_>) -> Result<(), Refusal>
    ensures { AppendsValue kind (Name name.now) octets.old.items octets.new.items result }
{
    match value_form(kind) {
        Form::Name => push(octets, name.uncompressed().as_slice()),
        _ => Err(Refusal::WrongKind),
    }
}

/// Appends a string and its length octet.
fn push_string(octets: &mut Vec<u8>, kind: Kind, string: &[u8]) -> Result<(), Refusal>
    ensures { AppendsValue kind (String string.entry) octets.old.items octets.new.items result }
{
    match value_form(kind) {
        Form::Counted => push_counted(octets, string),
        _ => Err(Refusal::WrongKind),
    }
}

/// Appends octets and their length of 16 bits.
fn push_sized_octets(octets: &mut Vec<u8>, kind: Kind, more: &[u8]) -> Result<(), Refusal>
    ensures { AppendsValue kind (Sized more.entry) octets.old.items octets.new.items result }
{
    match value_form(kind) {
        Form::Sized => push_sized(octets, more),
        _ => Err(Refusal::WrongKind),
    }
}

/// Appends character strings, of which there must be one at least.
fn push_some_strings(octets: &mut Vec<u8>, kind: Kind, strings: &[&[u8]]) -> Result<(), Refusal>
    ensures { AppendsValue kind (Strings strings.entry) octets.old.items octets.new.items result }
{
    match value_form(kind) {
        Form::Strings => {
            if strings.is_empty() {
                return Err(Refusal::OutOfRange);
            }
            push_strings(octets, strings)
        }
        _ => Err(Refusal::WrongKind),
    }
}

/// Appends the type bit map of these types.
fn push_map(alloc: Global, octets: &mut Vec<u8>, kind: Kind, types: &[Rtype]) -> Result<(), Refusal>
    ensures { AppendsValue kind (Types types.entry) octets.old.items octets.new.items result }
{
    match value_form(kind) {
        Form::Types => push_types(alloc, octets, types),
        _ => Err(Refusal::WrongKind),
    }
}

/// Appends service parameters.
fn push_service(
    octets: &mut Vec<u8>,
    kind: Kind,
    parameters: &[(u16, &[u8])],
) -> Result<(), Refusal>
    ensures { AppendsValue kind (Parameters parameters.entry) octets.old.items octets.new.items
        result }
{
    match value_form(kind) {
        Form::Parameters => push_parameters(octets, parameters),
        _ => Err(Refusal::WrongKind),
    }
}

/// Appends address prefixes.
fn push_address_prefixes(
    octets: &mut Vec<u8>,
    kind: Kind,
    prefixes: &[AddressPrefix<'_>],
) -> Result<(), Refusal>
    ensures { AppendsValue kind (Prefixes prefixes.entry) octets.old.items octets.new.items
        result }
{
    match value_form(kind) {
        Form::Prefixes => push_prefixes(octets, prefixes),
        _ => Err(Refusal::WrongKind),
    }
}

/// Appends a gateway and its public key.
fn push_gateway(
    octets: &mut Vec<u8>,
    kind: Kind,
    value: &NewGatewayAndKey<'_>,
) -> Result<(), Refusal>
    ensures { AppendsValue kind (GatewayAndKey value.now) octets.old.items octets.new.items
        result }
{
    match value_form(kind) {
        Form::Gateway => push_gateway_and_key(octets, value),
        _ => Err(Refusal::WrongKind),
    }
}

/// Appends a relay.
fn push_relay(octets: &mut Vec<u8>, kind: Kind, value: &NewRelay<'_>) -> Result<(), Refusal>
    ensures { AppendsValue kind (AsRelay value.now) octets.old.items octets.new.items result }
{
    match value_form(kind) {
        Form::Relay => push_relay_octets(octets, value),
        _ => Err(Refusal::WrongKind),
    }
}

/// Appends a host identity.
fn push_host(octets: &mut Vec<u8>, kind: Kind, value: &NewHostIdentity<'_>) -> Result<(), Refusal>
    ensures { AppendsValue kind (HostIdentity value.now) octets.old.items octets.new.items
        result }
{
    match value_form(kind) {
        Form::Identity => push_host_identity(octets, value),
        _ => Err(Refusal::WrongKind),
    }
}

/// Appends the octets of a value that is a field of this kind.
pub(crate) fn push_value(
    alloc: Global,
    octets: &mut Vec<u8>,
    kind: Kind,
    value: &NewValue<'_>,
) -> Result<(), Refusal>
    ensures { AppendsValue kind value.now octets.old.items octets.new.items result }
{
    match value {
        NewValue::Number(number) => push_number(octets, kind, *number),
        NewValue::RecordType(rtype) => push_rtype(octets, kind, *rtype),
        NewValue::Ipv4(address) => push_ipv4(octets, kind, address),
        NewValue::Ipv6(address) => push_ipv6(octets, kind, address),
        NewValue::Eui48(address) => push_eui48(octets, kind, address),
        NewValue::Eui64(address) => push_eui64(octets, kind, address),
        NewValue::Locator64(locator) => push_locator(octets, kind, locator),
        NewValue::Location(location) => push_location(octets, kind, location),
        NewValue::Name(name) => push_name(octets, kind, name),
        NewValue::String(string) => push_string(octets, kind, string),
        NewValue::Sized(more) => push_sized_octets(octets, kind, more),
        NewValue::Strings(strings) => push_some_strings(octets, kind, strings),
        NewValue::Octets(more) => push_plain(octets, kind, more),
        NewValue::Types(types) => push_map(alloc, octets, kind, types),
        NewValue::Parameters(parameters) => push_service(octets, kind, parameters),
        NewValue::Prefixes(prefixes) => push_address_prefixes(octets, kind, prefixes),
        NewValue::GatewayAndKey(value) => push_gateway(octets, kind, value),
        NewValue::Relay(value) => push_relay(octets, kind, value),
        NewValue::HostIdentity(value) => push_host(octets, kind, value),
    }
}
