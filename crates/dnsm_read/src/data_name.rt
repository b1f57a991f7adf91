//! The names in RDATA.
ghost use Rattle.std.specs.Prelude.{◌≡◌, ◌≢◌, ◌<◌, ◌↔◌, Err, IfErr, IfOk, IsTrue};
ghost use Rattle.dns_name.specs.Names.{Labels, NameAt};
ghost use Rattle.dns_name.specs.NameTexts.{dotted_text};
ghost use Rattle.dns_name.specs.ParsedName.{labels};
ghost use Rattle.fields_table.specs.Table.{definitions_of};
ghost use Rattle.dnsm_status.specs.Codes.{number_of};
ghost use Rattle.dnsm_read.specs.DataNames.{IsDataName, LacksDataName, IsNameInData, most_names, most_names_in, up_to_data_end};
ghost use Rattle.dnsm_status.specs.CallerBuffers.{Holds};

use crate::data_fields::{data_type, fields};
use crate::field_offsets::name_among;
use crate::name_text::write_name;
use crate::walk::Item;
use dns_iana::Rtype;
use dns_name::ParsedName;
use dnsm_status::CallError;
use dnsm_status::sink::End;
use fields_table::{Kind, fields_of};

/// At most how many names a field of this kind has. RDATA has at most 65,535 octets. In a host
/// identity four of them come before the servers, whose names take one octet at least.
fn most_names(kind: Kind) -> usize
    ensures { result ≡ most_names kind }
{
    match kind {
        Kind::CompressibleName
        | Kind::PointedName
        | Kind::LowercasedName
        | Kind::PlainName
        | Kind::GatewayAndKey
        | Kind::Relay => 1,
        Kind::HostIdentity => 65_531,
        _ => 0,
    }
}

/// Whether some RDATA of this type has a name with this index.
fn may_have_name(rtype: Rtype, index: usize) -> bool
    ensures { IsTrue result ↔ (index < most_names_in (definitions_of rtype)) }
{
    let fields = fields_of(rtype.to_int());
    let mut left = index;
    for field in fields {
        let most = most_names(field.1);
        if left < most {
            return true;
        }
        left -= most;
    }
    false
}

/// The name with this index in the RDATA of a record, and its offset. A question has no RDATA.
fn name_in<'a>(
    octets: &'a [u8],
    item: &Item,
    index: usize,
) -> Result<(usize, ParsedName<'a>), CallError>
    ensures question { item.now.section ≡ 0 → result ≡ Err CallError.BadSection }
    ensures place { IfOk result (λ found. IsDataName octets.now item.now index found.0) }
    ensures name { IfOk result (λ found.
        NameAt (up_to_data_end octets.now item.now) found.0 (labels found.1)) }
    ensures none { IfErr result (λ fault. item.now.section ≢ 0
        → LacksDataName octets.now item.now index (number_of fault)) }
{
    if item.section == 0 {
        return Err(CallError::BadSection);
    }
    if !may_have_name(data_type(item), index) {
        return Err(CallError::NoName);
    }
    let (seen, data) = fields(octets, item)?;
    match name_among(seen, data.fields(), item.data, index) {
        Some(found) => Ok(found),
        None => Err(CallError::NoName),
    }
}

/// The offset of the name with this index in the RDATA of a record. A question has no RDATA.
pub fn data_name(octets: &[u8], item: &Item, index: usize) -> Result<usize, CallError>
    ensures question { item.now.section ≡ 0 → result ≡ Err CallError.BadSection }
    ensures name { IfOk result (λ place. IsDataName octets.now item.now index place) }
    ensures none { IfErr result (λ fault. item.now.section ≢ 0
        → LacksDataName octets.now item.now index (number_of fault)) }
{
    match name_in(octets, item, index) {
        Ok((place, _)) => Ok(place),
        Err(fault) => Err(fault),
    }
}

/// The name with this index in the RDATA of a record. A question has no RDATA.
pub fn name<'a>(octets: &'a [u8], item: &Item, index: usize) -> Result<ParsedName<'a>, CallError>
    ensures question { item.now.section ≡ 0 → result ≡ Err CallError.BadSection }
    ensures name { IfOk result (λ name. IsNameInData octets.now item.now index (labels name)) }
    ensures none { IfErr result (λ fault. item.now.section ≢ 0
        → LacksDataName octets.now item.now index (number_of fault)) }
{
    match name_in(octets, item, index) {
        Ok((_, name)) => Ok(name),
        Err(fault) => Err(fault),
    }
}

/// Writes the name with this index in the RDATA of a record, with a dot after each label.
pub fn name_text(octets: &[u8], item: &Item, index: usize, out: &mut [u8]) -> Result<End, CallError>
    ensures question { item.now.section ≡ 0 → result ≡ Err CallError.BadSection }
    ensures text { IfOk result (λ end. (name : Labels) × IsNameInData octets.now item.now index name
        × Holds out.new (dotted_text name) end) }
    ensures none { IfErr result (λ fault. item.now.section ≢ 0
        → LacksDataName octets.now item.now index (number_of fault)) }
{
    let name = name(octets, item, index)?;
    Ok(write_name(&name, out))
}
