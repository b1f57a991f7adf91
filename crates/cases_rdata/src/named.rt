//! RDATA by the calls that are for one record type each.
use dns_code::Rtype;
use dns_wire::ParsedName;
use fields_table::OwnedFieldData;
use fields_values::{
    NewValue, ValueError, a, aaaa, caa, cname, dnskey, ds, from_values, mx, naptr, ns, ptr, rrsig,
    soa, srv, sshfp, tlsa,
};
use std::alloc::Global;

/// RDATA with these values: by the call of its type, if there is one that takes such values.
pub(crate) fn made_of(
    alloc: Global,
    rtype: Rtype,
    values: &[NewValue<'_>],
) -> Result<OwnedFieldData, ValueError> {
    match rtype.to_int() {
        1 | 28 => address(alloc, rtype, values),
        2 | 5 | 6 | 12 => host(alloc, rtype, values),
        15 | 33 | 35 | 46 => named(alloc, rtype, values),
        43 | 44 | 48 | 52 | 257 => secured(alloc, rtype, values),
        _ => from_values(alloc, rtype, values),
    }
}

/// RDATA of an address.
fn address(
    alloc: Global,
    rtype: Rtype,
    values: &[NewValue<'_>],
) -> Result<OwnedFieldData, ValueError> {
    match values.first() {
        Some(NewValue::Ipv4(octets)) => a(alloc, *octets),
        Some(NewValue::Ipv6(octets)) => aaaa(alloc, *octets),
        _ => from_values(alloc, rtype, values),
    }
}

/// RDATA whose first value is a name.
fn host(
    alloc: Global,
    rtype: Rtype,
    values: &[NewValue<'_>],
) -> Result<OwnedFieldData, ValueError> {
    let Some(name) = name_at(values, 0) else {
        return from_values(alloc, rtype, values);
    };
    match rtype.to_int() {
        2 => ns(alloc, &name),
        5 => cname(alloc, &name),
        12 => ptr(alloc, &name),
        _ => zone(alloc, &name, values),
    }
}

/// RDATA of SOA.
fn zone(
    alloc: Global,
    mname: &ParsedName<'_>,
    values: &[NewValue<'_>],
) -> Result<OwnedFieldData, ValueError> {
    let Some(rname) = name_at(values, 1) else {
        return from_values(alloc, Rtype::SOA, values);
    };
    let serial = number_at(values, 2);
    let refresh = number_at(values, 3);
    let retry = number_at(values, 4);
    let expire = number_at(values, 5);
    soa(
        alloc,
        mname,
        &rname,
        serial,
        refresh,
        retry,
        expire,
        number_at(values, 6),
    )
}

/// RDATA with a name after numbers.
fn named(
    alloc: Global,
    rtype: Rtype,
    values: &[NewValue<'_>],
) -> Result<OwnedFieldData, ValueError> {
    let index = match rtype.to_int() {
        15 => 1,
        33 => 3,
        35 => 5,
        _ => 7,
    };
    let Some(name) = name_at(values, index) else {
        return from_values(alloc, rtype, values);
    };
    match rtype.to_int() {
        15 => mx(alloc, short_at(values, 0), &name),
        33 => service(alloc, &name, values),
        35 => pointer(alloc, &name, values),
        _ => signature(alloc, &name, values),
    }
}

/// RDATA of SRV.
fn service(
    alloc: Global,
    target: &ParsedName<'_>,
    values: &[NewValue<'_>],
) -> Result<OwnedFieldData, ValueError> {
    let priority = short_at(values, 0);
    let weight = short_at(values, 1);
    srv(alloc, priority, weight, short_at(values, 2), target)
}

/// RDATA of NAPTR.
fn pointer(
    alloc: Global,
    replacement: &ParsedName<'_>,
    values: &[NewValue<'_>],
) -> Result<OwnedFieldData, ValueError> {
    let order = short_at(values, 0);
    let preference = short_at(values, 1);
    let flags = octets_at(values, 2);
    let services = octets_at(values, 3);
    let regexp = octets_at(values, 4);
    naptr(
        alloc,
        order,
        preference,
        flags,
        services,
        regexp,
        replacement,
    )
}

/// RDATA of RRSIG.
fn signature(
    alloc: Global,
    signer: &ParsedName<'_>,
    values: &[NewValue<'_>],
) -> Result<OwnedFieldData, ValueError> {
    let Some(NewValue::RecordType(covered)) = values.first() else {
        return Err(ValueError::WrongKind(0));
    };
    let algorithm = octet_at(values, 1);
    let labels = octet_at(values, 2);
    let original_ttl = number_at(values, 3);
    let expiration = number_at(values, 4);
    rrsig(
        alloc,
        *covered,
        algorithm,
        labels,
        original_ttl,
        expiration,
        number_at(values, 5),
        short_at(values, 6),
        signer,
        octets_at(values, 8),
    )
}

/// RDATA of numbers and octets.
fn secured(
    alloc: Global,
    rtype: Rtype,
    values: &[NewValue<'_>],
) -> Result<OwnedFieldData, ValueError> {
    let first = octet_at(values, 0);
    let second = octet_at(values, 1);
    let third = octet_at(values, 2);
    match rtype.to_int() {
        43 => ds(
            alloc,
            short_at(values, 0),
            second,
            third,
            octets_at(values, 3),
        ),
        44 => sshfp(alloc, first, second, octets_at(values, 2)),
        48 => dnskey(
            alloc,
            short_at(values, 0),
            second,
            third,
            octets_at(values, 3),
        ),
        52 => tlsa(alloc, first, second, third, octets_at(values, 3)),
        _ => caa(alloc, first, octets_at(values, 1), octets_at(values, 2)),
    }
}

/// The name at an index.
fn name_at<'a>(values: &[NewValue<'a>], index: usize) -> Option<ParsedName<'a>> {
    match values.get(index) {
        Some(NewValue::Name(name)) => Some(*name),
        _ => None,
    }
}

/// The octets or the string at an index.
fn octets_at<'a>(values: &[NewValue<'a>], index: usize) -> &'a [u8] {
    match values.get(index) {
        Some(NewValue::Octets(octets)) => octets,
        Some(NewValue::String(octets)) => octets,
        _ => &[],
    }
}

/// The number at an index. 0 if there is none of 32 bits.
fn number_at(values: &[NewValue<'_>], index: usize) -> u32 {
    match values.get(index) {
        Some(NewValue::Number(number)) => u32::try_from(*number).unwrap_or(0),
        _ => 0,
    }
}

/// The number at an index. 0 if there is none of 16 bits.
fn short_at(values: &[NewValue<'_>], index: usize) -> u16 {
    u16::try_from(number_at(values, index)).unwrap_or(0)
}

/// The number at an index. 0 if there is none of 8 bits.
fn octet_at(values: &[NewValue<'_>], index: usize) -> u8 {
    u8::try_from(number_at(values, index)).unwrap_or(0)
}
