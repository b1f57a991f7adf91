//! Checks RDATA by the fields of its record type.
ghost use Rattle.std.specs.Prelude.{◌≡◌, true, false};
ghost use Rattle.dnsm_put.specs.Rdata.{HasFields, IsTypeData, layout_of};
ghost use Rattle.dnsm_put.specs.Refusals.{LacksData};

use crate::draft::{Draft, PutItem};
use crate::rdata::{Layout, data_type, has_fields, layout_of_item};
use dnsm_read::address::is_address;
use fields_table::FieldData;

/// Whether the record type has names that may be compressed. RDATA with these names, and the octets
/// beside them, is all fields of the type.
#[inline(always)]
fn has_names(item: &PutItem<'_>) -> bool
    ensures { result ≡ true → HasFields (layout_of item.now) item.now.rdata.now
        → IsTypeData item.now }
{
    match layout_of_item(item) {
        Layout::Name(_before) => true,
        Layout::TwoNames(_after) => true,
        Layout::Plain => false,
    }
}

/// Whether the RDATA is the fields of its record type, uncompressed.
fn are_fields(item: &PutItem<'_>) -> bool
    ensures yes { result ≡ true → IsTypeData item.now }
    ensures no { result ≡ false → IsTypeData item.now → ⊥ }
{
    match FieldData::from_uncompressed(data_type(item), item.rdata) {
        Ok(_fields) => true,
        Err(_) => false,
    }
}

/// Whether a record may be put with its RDATA: it has the names of its type, and, unless that isn't
/// asked for, all fields.
#[inline(always)]
pub(crate) fn may_have(draft: &Draft, item: &PutItem<'_>) -> bool
    ensures fields { result ≡ true → HasFields (layout_of item.now) item.now.rdata.now }
    ensures checked { result ≡ true → draft.now.unchecked ≡ 0 → IsTypeData item.now }
    ensures no { result ≡ false → LacksData draft.now item.now }
{
    if !has_fields(item) {
        return false;
    }
    if draft.unchecked != 0 {
        return true;
    }
    has_names(item) || is_address(item.rtype, item.rdata) || are_fields(item)
}
