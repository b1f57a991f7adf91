//! RDATA of DNSSEC's record types, and of those for certificates and keys.
ghost use Rattle.std.specs.Prelude.{[], ◌∷◌};
ghost use Rattle.fields_values.specs.Named.{MakesNamed};
ghost use Rattle.fields_values.specs.ValueData.{MakesData};
ghost use Rattle.fields_values.specs.declared.new_value.NewValue.TheVariants.{Number, RecordType, Octets, Types};

use crate::made::from_values;
use crate::new_value::NewValue;
use crate::value_error::ValueError;
use dns_iana::Rtype;
use dns_name::ToName;
use fields_table::OwnedFieldData;
use std::alloc::Global;

/// Makes the RDATA of DNSKEY (RFC 4034 section 2.1).
pub fn dnskey(
    alloc: Global,
    flags: u16,
    protocol: u8,
    algorithm: u8,
    public_key: &[u8],
) -> Result<OwnedFieldData, ValueError>
    ensures { MakesData 48 (Number flags ∷ Number protocol ∷ Number algorithm
        ∷ Octets public_key.entry ∷ []) result }
{
    let values = [
        NewValue::Number(u64::from(flags)),
        NewValue::Number(u64::from(protocol)),
        NewValue::Number(u64::from(algorithm)),
        NewValue::Octets(public_key),
    ];
    from_values(alloc, Rtype::DNSKEY, &values)
}

/// Makes the RDATA of RRSIG (RFC 4034 section 3.1). The original TTL is in seconds, expiration and
/// inception in seconds since 1970 modulo 2^32.
pub fn rrsig<'a, N: ToName>(
    alloc: Global,
    type_covered: Rtype,
    algorithm: u8,
    labels: u8,
    original_ttl: u32,
    expiration: u32,
    inception: u32,
    key_tag: u16,
    signer_name: &'a N,
    signature: &'a [u8],
) -> Result<OwnedFieldData, ValueError>
    ensures { MakesNamed 46 (N.name signer_name.now)
        (λ name. RecordType type_covered ∷ Number algorithm ∷ Number labels ∷ Number original_ttl
        ∷ Number expiration ∷ Number inception ∷ Number key_tag ∷ name ∷ Octets signature.entry
        ∷ []) result }
{
    let values = [
        NewValue::RecordType(type_covered),
        NewValue::Number(u64::from(algorithm)),
        NewValue::Number(u64::from(labels)),
        NewValue::Number(u64::from(original_ttl)),
        NewValue::Number(u64::from(expiration)),
        NewValue::Number(u64::from(inception)),
        NewValue::Number(u64::from(key_tag)),
        NewValue::Name(signer_name.as_parsed()),
        NewValue::Octets(signature),
    ];
    from_values(alloc, Rtype::RRSIG, &values)
}

/// Makes the RDATA of NSEC (RFC 4034 section 4.1): the next owner and the record types at this one,
/// in any order.
pub fn nsec<'a, N: ToName>(
    alloc: Global,
    next: &'a N,
    types: &'a [Rtype],
) -> Result<OwnedFieldData, ValueError>
    ensures { MakesNamed 47 (N.name next.now) (λ name. name ∷ Types types.entry ∷ []) result }
{
    let values = [NewValue::Name(next.as_parsed()), NewValue::Types(types)];
    from_values(alloc, Rtype::NSEC, &values)
}

/// Makes the RDATA of DS (RFC 4034 section 5.1).
pub fn ds(
    alloc: Global,
    key_tag: u16,
    algorithm: u8,
    digest_type: u8,
    digest: &[u8],
) -> Result<OwnedFieldData, ValueError>
    ensures { MakesData 43 (Number key_tag ∷ Number algorithm ∷ Number digest_type
        ∷ Octets digest.entry ∷ []) result }
{
    let values = [
        NewValue::Number(u64::from(key_tag)),
        NewValue::Number(u64::from(algorithm)),
        NewValue::Number(u64::from(digest_type)),
        NewValue::Octets(digest),
    ];
    from_values(alloc, Rtype::DS, &values)
}

/// Makes the RDATA of TLSA (RFC 6698 section 2.1).
pub fn tlsa(
    alloc: Global,
    usage: u8,
    selector: u8,
    matching_type: u8,
    data: &[u8],
) -> Result<OwnedFieldData, ValueError>
    ensures { MakesData 52 (Number usage ∷ Number selector ∷ Number matching_type
        ∷ Octets data.entry ∷ []) result }
{
    let values = [
        NewValue::Number(u64::from(usage)),
        NewValue::Number(u64::from(selector)),
        NewValue::Number(u64::from(matching_type)),
        NewValue::Octets(data),
    ];
    from_values(alloc, Rtype::TLSA, &values)
}

/// Makes the RDATA of SSHFP (RFC 4255 section 3.1).
pub fn sshfp(
    alloc: Global,
    algorithm: u8,
    fingerprint_type: u8,
    fingerprint: &[u8],
) -> Result<OwnedFieldData, ValueError>
    ensures { MakesData 44 (Number algorithm ∷ Number fingerprint_type ∷ Octets fingerprint.entry
        ∷ []) result }
{
    let values = [
        NewValue::Number(u64::from(algorithm)),
        NewValue::Number(u64::from(fingerprint_type)),
        NewValue::Octets(fingerprint),
    ];
    from_values(alloc, Rtype::SSHFP, &values)
}
