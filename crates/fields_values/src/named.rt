//! RDATA of record types for hosts, mail and text.
ghost use Rattle.std.specs.Prelude.{◌≡◌, [], ◌∷◌, true, IfErr, OnOk};
ghost use Rattle.fields_text.specs.Base32Words.{last_octets};
ghost use Rattle.dns_wire.specs.Parts.Part.{Octets as OctetsPart, CompressibleName, UncompressedName};
ghost use Rattle.fields_values.specs.Named.{IsSplit, MakesText};
ghost use Rattle.fields_values.specs.ValueData.{MakesData, MakesParts};
ghost use Rattle.fields_values.specs.declared.value_error.ValueError.TheVariants.{OutOfMemory};
ghost use Rattle.fields_values.specs.declared.new_value.NewValue.TheVariants.{Number, Strings, String, Octets};

use crate::made::from_values;
use crate::new_value::NewValue;
use crate::value_error::ValueError;
use dns_data::laws::names_are_bounded;
use dns_iana::Rtype;
use dns_name::ToName;
use fields_table::OwnedFieldData;
use std::alloc::Global;

/// Makes the RDATA of A (RFC 1035 section 3.4.1). Fails only if an allocation fails.
pub fn a(alloc: Global, address: [u8; 4]) -> Result<OwnedFieldData, ValueError>
    ensures { MakesParts 1 (OctetsPart address ∷ []) result }
{
    from_values(alloc, Rtype::A, &[NewValue::Ipv4(address)])
}

/// Makes the RDATA of AAAA (RFC 3596 section 2.2). Fails only if an allocation fails.
pub fn aaaa(alloc: Global, address: [u8; 16]) -> Result<OwnedFieldData, ValueError>
    ensures { MakesParts 28 (OctetsPart address ∷ []) result }
{
    from_values(alloc, Rtype::AAAA, &[NewValue::Ipv6(address)])
}

/// Makes the RDATA of NS (RFC 1035 section 3.3.11). Fails only if an allocation fails.
pub fn ns<N: ToName>(alloc: Global, nsdname: &N) -> Result<OwnedFieldData, ValueError>
    ensures { MakesParts 2 (CompressibleName (N.name nsdname.now) ∷ []) result }
{
    names_are_bounded();
    from_values(alloc, Rtype::NS, &[NewValue::Name(nsdname.as_parsed())])
}

/// Makes the RDATA of CNAME (RFC 1035 section 3.3.1). Fails only if an allocation fails.
pub fn cname<N: ToName>(alloc: Global, target: &N) -> Result<OwnedFieldData, ValueError>
    ensures { MakesParts 5 (CompressibleName (N.name target.now) ∷ []) result }
{
    names_are_bounded();
    from_values(alloc, Rtype::CNAME, &[NewValue::Name(target.as_parsed())])
}

/// Makes the RDATA of PTR (RFC 1035 section 3.3.12). Fails only if an allocation fails.
pub fn ptr<N: ToName>(alloc: Global, ptrdname: &N) -> Result<OwnedFieldData, ValueError>
    ensures { MakesParts 12 (CompressibleName (N.name ptrdname.now) ∷ []) result }
{
    names_are_bounded();
    from_values(alloc, Rtype::PTR, &[NewValue::Name(ptrdname.as_parsed())])
}

/// Makes the RDATA of SOA (RFC 1035 section 3.3.13). The last four numbers are seconds. Fails only if
/// an allocation fails.
pub fn soa<'a, M: ToName, R: ToName>(
    alloc: Global,
    mname: &'a M,
    rname: &'a R,
    serial: u32,
    refresh: u32,
    retry: u32,
    expire: u32,
    minimum: u32,
) -> Result<OwnedFieldData, ValueError>
    ensures { MakesParts 6 (CompressibleName (M.name mname.now) ∷ CompressibleName (R.name rname.now)
        ∷ OctetsPart (last_octets 4 serial) ∷ OctetsPart (last_octets 4 refresh)
        ∷ OctetsPart (last_octets 4 retry) ∷ OctetsPart (last_octets 4 expire)
        ∷ OctetsPart (last_octets 4 minimum) ∷ []) result }
{
    names_are_bounded();
    let values = [
        NewValue::Name(mname.as_parsed()),
        NewValue::Name(rname.as_parsed()),
        NewValue::Number(u64::from(serial)),
        NewValue::Number(u64::from(refresh)),
        NewValue::Number(u64::from(retry)),
        NewValue::Number(u64::from(expire)),
        NewValue::Number(u64::from(minimum)),
    ];
    from_values(alloc, Rtype::SOA, &values)
}

/// Makes the RDATA of MX (RFC 1035 section 3.3.9). Fails only if an allocation fails.
pub fn mx<N: ToName>(
    alloc: Global,
    preference: u16,
    exchange: &N,
) -> Result<OwnedFieldData, ValueError>
    ensures { MakesParts 15 (OctetsPart (last_octets 2 preference)
        ∷ CompressibleName (N.name exchange.now) ∷ []) result }
{
    names_are_bounded();
    let values = [
        NewValue::Number(u64::from(preference)),
        NewValue::Name(exchange.as_parsed()),
    ];
    from_values(alloc, Rtype::MX, &values)
}

/// Makes the RDATA of SRV (RFC 2782). Fails only if an allocation fails.
pub fn srv<N: ToName>(
    alloc: Global,
    priority: u16,
    weight: u16,
    port: u16,
    target: &N,
) -> Result<OwnedFieldData, ValueError>
    ensures { MakesParts 33 (OctetsPart (last_octets 2 priority) ∷ OctetsPart (last_octets 2 weight)
        ∷ OctetsPart (last_octets 2 port) ∷ UncompressedName true (N.name target.now) ∷ [])
        result }
{
    names_are_bounded();
    let values = [
        NewValue::Number(u64::from(priority)),
        NewValue::Number(u64::from(weight)),
        NewValue::Number(u64::from(port)),
        NewValue::Name(target.as_parsed()),
    ];
    from_values(alloc, Rtype::SRV, &values)
}

/// Makes the RDATA of TXT from character strings (RFC 1035 section 3.3.14): at least one, each of
/// at most 255 octets.
pub fn txt(alloc: Global, strings: &[&[u8]]) -> Result<OwnedFieldData, ValueError>
    ensures { MakesData 16 (Strings strings.entry ∷ []) result }
{
    from_values(alloc, Rtype::TXT, &[NewValue::Strings(strings)])
}

/// Appends the text as strings of 255 octets. The last one may have fewer.
fn push_split<'a>(strings: &mut Vec<&'a [u8]>, text: &'a [u8]) -> Result<(), ValueError>
    requires { strings.old.items ≡ [] }
    ensures ok { OnOk result (IsSplit text.now strings.new.items) }
    ensures err { IfErr result (λ error. error ≡ OutOfMemory) }
{
    let mut left = text;
    while left.len() > 255 {
        let (string, after) = left.split_at(255);
        if strings.push(string).is_err() {
            return Err(ValueError::OutOfMemory);
        }
        left = after;
    }
    match strings.push(left) {
        Ok(()) => Ok(()),
        Err(_) => Err(ValueError::OutOfMemory),
    }
}

/// Makes the RDATA of TXT from a text of at most 65,279 octets, in character strings of 255 octets
/// (RFC 1035 section 3.3.14). The last one may have fewer.
pub fn text(alloc: Global, text: &[u8]) -> Result<OwnedFieldData, ValueError>
    ensures { MakesText text.now result }
{
    let mut strings: Vec<&[u8]> = Vec::new(alloc);
    match push_split(&mut strings, text) {
        Ok(()) => txt(alloc, strings.as_slice()),
        Err(error) => Err(error),
    }
}

/// Makes the RDATA of CAA (RFC 8659 section 4.1). The tag has at most 255 octets.
pub fn caa<'a>(
    alloc: Global,
    flags: u8,
    tag: &'a [u8],
    value: &'a [u8],
) -> Result<OwnedFieldData, ValueError>
    ensures { MakesData 257 (Number flags ∷ String tag.entry ∷ Octets value.entry ∷ []) result }
{
    let values = [
        NewValue::Number(u64::from(flags)),
        NewValue::String(tag),
        NewValue::Octets(value),
    ];
    from_values(alloc, Rtype::CAA, &values)
}
