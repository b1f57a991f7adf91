//! The RDATA of an item as fields.
ghost use Rattle.std.specs.Prelude.{◌≡◌, ◌≢◌, ◌<◌, ◌≤◌, length, Err, IfErr, IfNone, IfOk, IfSome};
ghost use Rattle.dns_data.specs.Layout.{DataAt};
ghost use Rattle.fields_table.specs.Data.{parts_of, rtype_of};
ghost use Rattle.fields_table.specs.FieldData.{type_layout};
ghost use Rattle.dnsm_status.specs.Codes.{number_of};
ghost use Rattle.dnsm_read.specs.DataFields.{IsDataIn, IsNoRdata, LacksData, data_end, data_fields, data_type, up_to_data_end};
ghost use Rattle.dnsm_read.specs.FieldOffsets.{FieldsAt};

use crate::walk::Item;
use dns_data::ParseAnyRecordData;
use dns_iana::{Class, Rtype};
use dns_name::Parser;
use dnsm_status::CallError;
use fields_table::{FieldData, layout_type};

/// The offset after the RDATA of an item, if that is within the message.
pub(crate) fn data_end(octets: &[u8], item: &Item) -> Result<usize, CallError>
    ensures end { IfOk result (λ end. (end ≡ data_end item.now) × (end ≤ length octets.now)) }
    ensures none { IfErr result (λ fault. (fault ≡ CallError.ShortInput)
        × (length octets.now < data_end item.now)) }
{
    let size = usize::from(item.data_len);
    if item.data > octets.len() || size > octets.len() - item.data {
        return Err(CallError::ShortInput);
    }
    Ok(item.data + size)
}

/// The type whose fields the RDATA of an item has.
pub(crate) fn data_type(item: &Item) -> Rtype
    ensures { result ≡ data_type item.now }
{
    let rtype = Rtype::from_int(item.rtype);
    let class = Class::from_int(item.class);
    layout_type(rtype, class, usize::from(item.data_len))
}

/// The octets from offset `start` on as RDATA of this type, which takes all of them.
fn parse_data(octets: &[u8], rtype: Rtype, start: usize) -> Option<FieldData<'_>>
    requires { start ≤ length octets.now }
    ensures rtype { IfSome result (λ fields. rtype_of fields ≡ rtype) }
    ensures fields { IfSome result (λ fields.
        DataAt octets.now (type_layout rtype) start (length octets.now) (parts_of fields)) }
    ensures none { IfNone result (IsNoRdata octets.now rtype start) }
{
    let mut parser = Parser::new(octets);
    let Ok(()) = parser.seek(start) else {
        unreachable!()
    };
    let Ok(fields) = FieldData::parse_any_rdata(rtype, &mut parser) else {
        return None;
    };
    if parser.remaining() > 0 {
        return None;
    }
    Some(fields)
}

/// The octets up to the end of a record's RDATA, and the RDATA. The octets after it aren't read. A
/// question has none.
pub fn fields<'a>(octets: &'a [u8], item: &Item) -> Result<(&'a [u8], FieldData<'a>), CallError>
    ensures question { item.now.section ≡ 0 → result ≡ Err CallError.BadSection }
    ensures seen { IfOk result (λ found. found.0.now ≡ up_to_data_end octets.now item.now) }
    ensures rtype { IfOk result (λ found. rtype_of found.1 ≡ data_type item.now) }
    ensures there { IfOk result (λ found. IsDataIn octets.now item.now (parts_of found.1)) }
    ensures encoded { IfOk result (λ found. FieldsAt (up_to_data_end octets.now item.now)
        (data_fields item.now (parts_of found.1)) item.now.«data» (data_end item.now)) }
    ensures none { IfErr result (λ fault. item.now.section ≢ 0
        → LacksData octets.now item.now (number_of fault)) }
{
    if item.section == 0 {
        return Err(CallError::BadSection);
    }
    let end = data_end(octets, item)?;
    let seen = &octets[..end];
    match parse_data(seen, data_type(item), item.data) {
        Some(fields) => Ok((seen, fields)),
        None => Err(CallError::BadData),
    }
}
