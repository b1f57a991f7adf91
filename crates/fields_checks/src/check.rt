//! Values that are checked beside their octets.
ghost use Rattle.std.specs.Prelude.{◌≡◌, []};
ghost use Rattle.fields_checks.specs.Checks.{ChecksValues, last_field, last_number, last_octets, number_or, octets_or, reason_of, values_of};
ghost use Rattle.fields_table.specs.Data.{rtype_of};
ghost use Rattle.fields_table.specs.Values.{value_shown};

use crate::check_error::{CheckError, ValueReason};
use crate::digest::digest_reason;
use crate::service::parameters_reason;
use dns_data::RecordData;
use fields_table::{FieldData, Value, fields_of};

/// The number that a value is, or this one.
fn number_or(value: &Value<'_>, number: u64) -> u64
    ensures { result ≡ number_or (value_shown value.now) number }
{
    match value {
        Value::Number(next) => *next,
        _ => number,
    }
}

/// The octets that a value is, or these.
fn octets_or<'a>(value: &Value<'a>, octets: &'a [u8]) -> &'a [u8]
    ensures { result.now ≡ octets_or (value_shown value.now) octets.now }
{
    match value {
        Value::Octets(next) => next,
        _ => octets,
    }
}

/// The last number among the values, and the last octets.
fn last_values<'a>(data: &FieldData<'a>) -> (u64, &'a [u8])
    ensures number { result.0 ≡ last_number 0 (values_of data.now) }
    ensures octets { result.1.now ≡ last_octets [] (values_of data.now) }
{
    let mut number = 0;
    let mut octets: &[u8] = &[];
    for field in data.fields() {
        let value = field.value();
        number = number_or(&value, number);
        octets = octets_or(&value, octets);
    }
    (number, octets)
}

/// The index of the last field of this type.
fn last_field(rtype: u16) -> usize
    ensures { result ≡ last_field rtype }
{
    fields_of(rtype).len().saturating_sub(1)
}

/// What is wrong with the values of RDATA.
fn reason_of(data: &FieldData<'_>) -> Option<ValueReason>
    ensures { result ≡ reason_of (rtype_of data.now) (values_of data.now) }
{
    let (number, octets) = last_values(data);
    match data.rtype().to_int() {
        64 | 65 => parameters_reason(number, octets),
        rtype => digest_reason(rtype, number, octets),
    }
}

/// Checks values that an RFC rules out, though the octets are well-formed.
///
/// - The digest of a DS, CDS, DLV, TA or ZONEMD record and the fingerprint of an SSHFP record has the
///   size of its type, if the type is registered. A ZONEMD record's has 12 octets at least.
/// - In an SVCB or HTTPS record `mandatory` lists keys in ascending order, one at least, and not its
///   own. Each of them has a parameter. `no-default-alpn` comes with `alpn` (RFC 9460 sections 7.1.1
///   and 8). In AliasMode, which has priority 0, parameters are ignored (section 2.4.2).
pub fn check_values(data: &FieldData<'_>) -> Result<(), CheckError>
    ensures { ChecksValues (rtype_of data.now) (values_of data.now) result }
{
    match reason_of(data) {
        Some(reason) => Err(CheckError {
            field: last_field(data.rtype().to_int()),
            reason,
        }),
        None => Ok(()),
    }
}
