//! The RDATA of items to write.
ghost use Rattle.std.specs.Prelude.{◌≡◌, IfOk, IfErr};
ghost use Rattle.fields_table.specs.Data.{parts_of};
ghost use Rattle.dnsm_make.specs.Built.{HasNoFields, IsDataOf};
ghost use Rattle.dnsm_make.specs.NewData.{new_rtype, new_parts};

use crate::build::NewItem;
use dns_data::{ComposeRecordData, RecordData, UnknownRecordData};
use dns_iana::{Class, Rtype};
use dns_octets::AppendError;
use dns_wire::Composer;
use dnsm_read::address::is_address;
use dnsm_status::CallError;
use fields_table::{FieldData, layout_type};

/// RDATA to write.
#[derive(Drop)]
pub(crate) enum NewData<'a> {
    /// An address, which isn't read: it is the only field of its record type.
    Address(UnknownRecordData<&'a [u8]>),
    /// A record type, and fields, perhaps those of another type.
    Fields(Rtype, FieldData<'a>),
}

impl RecordData for NewData<'_> {
    ghost rtype_of = { new_rtype };

    ghost parts = { new_parts };

    fn rtype(&self) -> Rtype {
        match self {
            NewData::Address(address) => address.rtype(),
            NewData::Fields(rtype, _fields) => *rtype,
        }
    }
}

impl ComposeRecordData for NewData<'_> {
    #[inline(always)]
    fn flat_rdata(&self) -> Option<&[u8]> {
        match self {
            NewData::Address(address) => address.flat_rdata(),
            NewData::Fields(_rtype, _fields) => None,
        }
    }

    fn compose_rdata<T: Composer>(&self, target: &mut T) -> Result<(), AppendError> {
        match self {
            NewData::Address(address) => address.compose_rdata(target),
            NewData::Fields(_rtype, fields) => fields.compose_rdata(target),
        }
    }

    fn compose_canonical_rdata<T: Composer>(&self, target: &mut T) -> Result<(), AppendError> {
        match self {
            NewData::Address(address) => address.compose_canonical_rdata(target),
            NewData::Fields(_rtype, fields) => fields.compose_canonical_rdata(target),
        }
    }
}

/// The fields that the octets of an item's RDATA are.
fn fields_of<'a>(item: &NewItem<'a>) -> Result<FieldData<'a>, CallError>
    ensures fields { IfOk result (λ fields. IsDataOf item.now (parts_of fields)) }
    ensures none { IfErr result (λ fault. (fault ≡ CallError.BadData) × HasNoFields item.now) }
{
    let rtype = Rtype::from_int(item.rtype);
    let class = Class::from_int(item.class);
    let layout = layout_type(rtype, class, item.rdata.len());
    match FieldData::from_uncompressed(layout, item.rdata) {
        Ok(fields) => Ok(fields),
        Err(_) => Err(CallError::BadData),
    }
}

/// The RDATA of an item.
pub(crate) fn data_of<'a>(item: &NewItem<'a>) -> Result<NewData<'a>, CallError>
    ensures rtype { IfOk result (λ made. new_rtype made ≡ item.now.rtype) }
    ensures parts { IfOk result (λ made. IsDataOf item.now (new_parts made)) }
    ensures none { IfErr result (λ fault. (fault ≡ CallError.BadData) × HasNoFields item.now) }
{
    let rtype = Rtype::from_int(item.rtype);
    if is_address(item.rtype, item.rdata) {
        if let Ok(address) = UnknownRecordData::from_octets(rtype, item.rdata) {
            return Ok(NewData::Address(address));
        }
    }
    Ok(NewData::Fields(rtype, fields_of(item)?))
}
