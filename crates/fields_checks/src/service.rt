//! Service parameters that need others (RFC 9460 sections 7.1.1 and 8).
ghost use Rattle.std.specs.Prelude.{◌≡◌, find, map, not};
ghost use Rattle.std.specs.Int.{from_be_bytes, w16};
ghost use Rattle.fields_checks.specs.Services.{are_ascending, are_mandatory_keys, has_bad_mandatory, has_key, is_bad_mandatory, listed_keys, missing_key, parameters_reason, service_reason};
ghost use Rattle.fields_lists.specs.Groups.{groups};
ghost use Rattle.fields_parameters.specs.ItemsLeft.{parameter_item};
ghost use Rattle.fields_parameters.specs.ParameterItems.{parameters_of};

use crate::check_error::ValueReason;
use fields_parameters::{Parameter, Parameters};

/// Whether one of the parameters has this key.
fn has_key(parameters: &[u8], key: u16) -> bool
    ensures { result ≡ has_key (parameters_of parameters.now) key }
{
    for parameter in Parameters::new(parameters) {
        if parameter.key == key {
            return true;
        }
    }
    false
}

/// The first of these keys that no parameter has.
fn missing_of(parameters: &[u8], keys: &[u8]) -> Option<u16>
    ensures { result ≡ find (λ key. not (has_key (parameters_of parameters.now) key))
        (map (from_be_bytes w16) (groups 2 keys.now)) }
{
    let mut left = keys;
    'keys: while let Some((octets, after)) = left.split_first_chunk::<2>() {
        let key = u16::from_be_bytes(*octets);
        if !has_key(parameters, key) {
            return Some(key);
        }
        left = after;
    }
    None
}

/// The first key that a parameter lists and no parameter has. Only `mandatory` lists keys.
fn missing_listed(parameters: &[u8], parameter: Parameter<'_>) -> Option<u16>
    ensures { result ≡ find (λ key. not (has_key (parameters_of parameters.now) key))
        (listed_keys (parameter_item parameter.entry)) }
{
    if parameter.key != 0 {
        return None;
    }
    missing_of(parameters, parameter.value)
}

/// The first key that `mandatory` lists and no parameter has.
fn missing_key(parameters: &[u8]) -> Option<u16>
    ensures { result ≡ missing_key (parameters_of parameters.now) }
{
    for parameter in Parameters::new(parameters) {
        if let Some(key) = missing_listed(parameters, parameter) {
            return Some(key);
        }
    }
    None
}

/// Whether these keys of two octets are in strictly ascending order, and greater than 0.
fn are_ascending(keys: &[u8]) -> bool
    ensures { result ≡ are_ascending 0 (map (from_be_bytes w16) (groups 2 keys.now)) }
{
    let mut before = 0;
    let mut left = keys;
    'keys: while let Some((octets, after)) = left.split_first_chunk::<2>() {
        let key = u16::from_be_bytes(*octets);
        if key <= before {
            return false;
        }
        before = key;
        left = after;
    }
    true
}

/// Whether octets are a list of mandatory keys.
fn are_mandatory_keys(octets: &[u8]) -> bool
    ensures { result ≡ are_mandatory_keys octets.now }
{
    !octets.is_empty() && octets.len() % 2 == 0 && are_ascending(octets)
}

/// Whether a parameter is `mandatory` with a malformed list.
fn is_bad_mandatory(parameter: Parameter<'_>) -> bool
    ensures { result ≡ is_bad_mandatory (parameter_item parameter.entry) }
{
    parameter.key == 0 && !are_mandatory_keys(parameter.value)
}

/// Whether one of the parameters is `mandatory` with a malformed list.
fn has_bad_mandatory(parameters: &[u8]) -> bool
    ensures { result ≡ has_bad_mandatory (parameters_of parameters.now) }
{
    for parameter in Parameters::new(parameters) {
        if is_bad_mandatory(parameter) {
            return true;
        }
    }
    false
}

/// What is wrong with service parameters that aren't ignored.
fn service_reason(parameters: &[u8]) -> Option<ValueReason>
    ensures { result ≡ service_reason (parameters_of parameters.now) }
{
    if has_bad_mandatory(parameters) {
        return Some(ValueReason::BadMandatory);
    }
    if let Some(key) = missing_key(parameters) {
        return Some(ValueReason::MissingKey(key));
    }
    if has_key(parameters, 2) && !has_key(parameters, 1) {
        return Some(ValueReason::NoAlpn);
    }
    None
}

/// What is wrong with service parameters after this priority. In AliasMode, which has priority 0, they
/// are ignored (RFC 9460 section 2.4.2).
pub(crate) fn parameters_reason(priority: u64, parameters: &[u8]) -> Option<ValueReason>
    ensures { result ≡ parameters_reason priority (parameters_of parameters.now) }
{
    if priority == 0 {
        return None;
    }
    service_reason(parameters)
}
