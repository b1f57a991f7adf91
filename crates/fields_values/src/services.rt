//! RDATA of record types that lead to services: SVCB, HTTPS and NAPTR.
ghost use Rattle.std.specs.Prelude.{[], ◌∷◌};
ghost use Rattle.fields_values.specs.Named.{MakesNamed};
ghost use Rattle.fields_values.specs.declared.new_value.NewValue.TheVariants.{Number, String, Parameters};

use crate::made::from_values;
use crate::new_value::NewValue;
use crate::value_error::ValueError;
use dns_iana::Rtype;
use dns_name::ToName;
use fields_table::OwnedFieldData;
use std::alloc::Global;

/// Makes the RDATA of NAPTR (RFC 3403 section 4.1). Flags, services and regexp have at most 255
/// octets each.
pub fn naptr<'a, N: ToName>(
    alloc: Global,
    order: u16,
    preference: u16,
    flags: &'a [u8],
    services: &'a [u8],
    regexp: &'a [u8],
    replacement: &'a N,
) -> Result<OwnedFieldData, ValueError>
    ensures { MakesNamed 35 (N.name replacement.now)
        (λ name. Number order ∷ Number preference ∷ String flags.entry ∷ String services.entry
        ∷ String regexp.entry ∷ name ∷ []) result }
{
    let values = [
        NewValue::Number(u64::from(order)),
        NewValue::Number(u64::from(preference)),
        NewValue::String(flags),
        NewValue::String(services),
        NewValue::String(regexp),
        NewValue::Name(replacement.as_parsed()),
    ];
    from_values(alloc, Rtype::NAPTR, &values)
}

/// Makes the RDATA of SVCB (RFC 9460 section 2.2) from a priority, a name and parameters, each a key
/// and a value, by increasing keys.
pub fn svcb<'a, N: ToName>(
    alloc: Global,
    priority: u16,
    target: &'a N,
    parameters: &'a [(u16, &'a [u8])],
) -> Result<OwnedFieldData, ValueError>
    ensures { MakesNamed 64 (N.name target.now)
        (λ name. Number priority ∷ name ∷ Parameters parameters.entry ∷ []) result }
{
    binding(alloc, Rtype::SVCB, priority, target, parameters)
}

/// Makes the RDATA of HTTPS (RFC 9460 section 9) from a priority, a name and parameters, each a key
/// and a value, by increasing keys.
pub fn https<'a, N: ToName>(
    alloc: Global,
    priority: u16,
    target: &'a N,
    parameters: &'a [(u16, &'a [u8])],
) -> Result<OwnedFieldData, ValueError>
    ensures { MakesNamed 65 (N.name target.now)
        (λ name. Number priority ∷ name ∷ Parameters parameters.entry ∷ []) result }
{
    binding(alloc, Rtype::HTTPS, priority, target, parameters)
}

/// Makes the RDATA of a type with the fields of SVCB.
fn binding<'a, N: ToName>(
    alloc: Global,
    rtype: Rtype,
    priority: u16,
    target: &'a N,
    parameters: &'a [(u16, &'a [u8])],
) -> Result<OwnedFieldData, ValueError>
    ensures { MakesNamed rtype (N.name target.now)
        (λ name. Number priority ∷ name ∷ Parameters parameters.entry ∷ []) result }
{
    let values = [
        NewValue::Number(u64::from(priority)),
        NewValue::Name(target.as_parsed()),
        NewValue::Parameters(parameters),
    ];
    from_values(alloc, rtype, &values)
}
