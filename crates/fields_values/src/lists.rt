//! Lists of values (RFC 1035 section 3.3.14, RFC 9460 section 2.2, RFC 3123 section 4).
ghost use Rattle.std.specs.Prelude.{◌≡◌, ◌↔◌, ◌≤◌, ◌++◌, IsTrue, length, IfErr, OnOk};
ghost use Rattle.fields_parameters.specs.ParameterItems.{two_octets};
ghost use Rattle.fields_text.specs.Base32Words.{last_octets};
ghost use Rattle.fields_text.specs.LengthOctets.{sized};
ghost use Rattle.fields_text.specs.Reading.{HasValue};
ghost use Rattle.fields_values.specs.Appending.{Appends, AppendsMap, Refuses};
ghost use Rattle.fields_values.specs.NewValues.{AreParametersIn, ArePrefixesIn, AreStringsIn, IsParameterIn, IsPrefixIn, IsStringIn};
ghost use Rattle.fields_values.specs.declared.value_error.Refusal.TheVariants.{OutOfMemory};

use crate::value_error::Refusal;
use dns_iana::Rtype;
use fields_lists::{AddressPrefix, push_type_map};
use fields_text::{push_last, push_octets};
use std::alloc::Global;

/// The most octets that a length octet counts.
pub(crate) const MOST_COUNTED: usize = 255;

/// The most octets that a length of 16 bits counts.
pub(crate) const MOST_SIZED: usize = 65_535;

/// Appends octets after a length octet.
pub(crate) fn push_counted(octets: &mut Vec<u8>, string: &[u8]) -> Result<(), Refusal>
    ensures { Appends (IsStringIn string.now) octets.old.items octets.new.items result }
{
    let size = string.len();
    if size > MOST_COUNTED {
        return Err(Refusal::OutOfRange);
    }
    if octets.push(size as u8).is_err() {
        return Err(Refusal::OutOfMemory);
    }
    if let Err(refusal) = push(octets, string) {
        return Err(refusal);
    }
    Ok(())
}

/// Appends octets.
pub(crate) fn push(octets: &mut Vec<u8>, more: &[u8]) -> Result<(), Refusal>
    ensures ok { OnOk result (octets.new.items ≡ octets.old.items ++ more.now) }
    ensures err { IfErr result (λ refusal. refusal ≡ OutOfMemory) }
{
    match push_octets(octets, more) {
        Ok(()) => Ok(()),
        Err(_) => Err(Refusal::OutOfMemory),
    }
}

/// Appends the last `size` octets of a number.
pub(crate) fn push_big_endian(octets: &mut Vec<u8>, size: u8, number: u64) -> Result<(), Refusal>
    ensures ok { OnOk result (octets.new.items ≡ octets.old.items ++ last_octets size number) }
    ensures err { IfErr result (λ refusal. refusal ≡ OutOfMemory) }
{
    match push_last(octets, size, number) {
        Ok(()) => Ok(()),
        Err(_) => Err(Refusal::OutOfMemory),
    }
}

/// Appends a number of 16 bits.
fn push_two(octets: &mut Vec<u8>, number: u16) -> Result<(), Refusal>
    ensures ok { OnOk result (octets.new.items ≡ octets.old.items ++ two_octets number) }
    ensures err { IfErr result (λ refusal. refusal ≡ OutOfMemory) }
{
    push(octets, &[(number / 256) as u8, (number % 256) as u8])
}

/// Why strings aren't appended when appending one of them fails.
fn strings_refusal(strings: &[&[u8]]) -> Refusal
    ensures { Refuses (AreStringsIn strings.now) result }
{
    for string in strings {
        if string.len() > MOST_COUNTED {
            return Refusal::OutOfRange;
        }
    }
    Refusal::OutOfMemory
}

/// Appends character strings.
pub(crate) fn push_strings(octets: &mut Vec<u8>, strings: &[&[u8]]) -> Result<(), Refusal>
    ensures { Appends (AreStringsIn strings.now) octets.old.items octets.new.items result }
{
    for string in strings {
        let Ok(()) = push_counted(octets, string) else {
            return Err(strings_refusal(strings));
        };
    }
    Ok(())
}

/// Appends octets after their length of 16 bits.
pub(crate) fn push_sized(octets: &mut Vec<u8>, more: &[u8]) -> Result<(), Refusal>
    ensures { Appends (λ all. (length more.now ≤ 65535) × (all ≡ sized more.now))
        octets.old.items octets.new.items result }
{
    if more.len() > MOST_SIZED {
        return Err(Refusal::OutOfRange);
    }
    if let Err(refusal) = push_two(octets, more.len() as u16) {
        return Err(refusal);
    }
    if let Err(refusal) = push(octets, more) {
        return Err(refusal);
    }
    Ok(())
}

/// Whether the key is at least `least`, and the value has at most 65,535 octets.
fn is_parameter(least: u32, parameter: &(u16, &[u8])) -> bool
    ensures { IsTrue result ↔ HasValue (IsParameterIn least parameter.now) }
{
    if u32::from(parameter.0) < least {
        return false;
    }
    parameter.1.len() <= MOST_SIZED
}

/// Appends a service parameter whose key is at least `least`.
fn push_parameter(octets: &mut Vec<u8>, least: u32, parameter: &(u16, &[u8])) -> Result<(), Refusal>
    ensures { Appends (IsParameterIn least parameter.now) octets.old.items octets.new.items result }
{
    if !is_parameter(least, parameter) {
        return Err(Refusal::OutOfRange);
    }
    if let Err(refusal) = push_two(octets, parameter.0) {
        return Err(refusal);
    }
    if let Err(refusal) = push_sized(octets, parameter.1) {
        return Err(refusal);
    }
    Ok(())
}

/// Why service parameters aren't appended when appending one of them fails.
fn parameters_refusal(parameters: &[(u16, &[u8])]) -> Refusal
    ensures { Refuses (AreParametersIn 0 parameters.now) result }
{
    let mut least: u32 = 0;
    for parameter in parameters {
        if !is_parameter(least, parameter) {
            return Refusal::OutOfRange;
        }
        let key = u32::from(parameter.0);
        least = key + 1;
    }
    Refusal::OutOfMemory
}

/// Appends service parameters by increasing keys.
pub(crate) fn push_parameters(
    octets: &mut Vec<u8>,
    parameters: &[(u16, &[u8])],
) -> Result<(), Refusal>
    ensures { Appends (AreParametersIn 0 parameters.now) octets.old.items octets.new.items result }
{
    let mut least: u32 = 0;
    for parameter in parameters {
        let Ok(()) = push_parameter(octets, least, parameter) else {
            return Err(parameters_refusal(parameters));
        };
        least = u32::from(parameter.0) + 1;
    }
    Ok(())
}

/// Whether the address has at most 127 octets.
fn is_prefix(prefix: &AddressPrefix<'_>) -> bool
    ensures { IsTrue result ↔ HasValue (IsPrefixIn prefix.now) }
{
    // A proof knows the range of a field that is read.
    let _family = prefix.family;
    prefix.address.len() <= 127
}

/// Appends an address prefix.
fn push_prefix(octets: &mut Vec<u8>, prefix: &AddressPrefix<'_>) -> Result<(), Refusal>
    ensures { Appends (IsPrefixIn prefix.now) octets.old.items octets.new.items result }
{
    if !is_prefix(prefix) {
        return Err(Refusal::OutOfRange);
    }
    if let Err(refusal) = push_two(octets, prefix.family) {
        return Err(refusal);
    }
    let sign: u8 = if prefix.negated { 128 } else { 0 };
    if let Err(refusal) = push(octets, &[prefix.size, sign + prefix.address.len() as u8]) {
        return Err(refusal);
    }
    if let Err(refusal) = push(octets, prefix.address) {
        return Err(refusal);
    }
    Ok(())
}

/// Why address prefixes aren't appended when appending one of them fails.
fn prefixes_refusal(prefixes: &[AddressPrefix<'_>]) -> Refusal
    ensures { Refuses (ArePrefixesIn prefixes.now) result }
{
    for prefix in prefixes {
        if !is_prefix(prefix) {
            return Refusal::OutOfRange;
        }
    }
    Refusal::OutOfMemory
}

/// Appends address prefixes.
pub(crate) fn push_prefixes(
    octets: &mut Vec<u8>,
    prefixes: &[AddressPrefix<'_>],
) -> Result<(), Refusal>
    ensures { Appends (ArePrefixesIn prefixes.now) octets.old.items octets.new.items result }
{
    for prefix in prefixes {
        let Ok(()) = push_prefix(octets, prefix) else {
            return Err(prefixes_refusal(prefixes));
        };
    }
    Ok(())
}

/// Appends the type bit map of these types.
pub(crate) fn push_types(
    alloc: Global,
    octets: &mut Vec<u8>,
    types: &[Rtype],
) -> Result<(), Refusal>
    ensures { AppendsMap types.now octets.old.items octets.new.items result }
{
    let mut numbers = Vec::new(alloc);
    for rtype in types {
        if numbers.push(rtype.to_int()).is_err() {
            return Err(Refusal::OutOfMemory);
        }
    }
    match push_type_map(octets, numbers.as_slice()) {
        Ok(()) => Ok(()),
        Err(_) => Err(Refusal::OutOfMemory),
    }
}
