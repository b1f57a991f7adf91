//! Octets as record data (RFC 1035 section 3.3).
ghost use Rattle.std.specs.Prelude.{◌≡◌, ◌↔◌, IsTrue};
ghost use Rattle.fields_table.specs.OwnedData.{owned_parts_of, owned_rtype_of};
ghost use Rattle.fields_table.specs.UncompressedData.{IsUncompressedData};
ghost use Rattle.fields_text.specs.Reading.{HasValue};
ghost use Rattle.fields_records.specs.Rdata.{CopiesRdata, ReadsRdata};

use dns_iana::Rtype;
use fields_table::{FieldData, OwnedFieldData, owned_data};
use fields_text::{TextError, push_octets};
use std::alloc::Global;

/// Whether octets are RDATA of this type, uncompressed.
fn are_rdata(rtype: Rtype, octets: &[u8]) -> bool
    ensures { IsTrue result ↔ HasValue (IsUncompressedData rtype octets.now) }
{
    FieldData::from_uncompressed(rtype, octets).is_ok()
}

/// RDATA of this type with these octets. They aren't copied.
fn rdata_of(rtype: Rtype, octets: Vec<u8>) -> OwnedFieldData
    requires { HasValue (IsUncompressedData rtype octets.items) }
    ensures rtype { owned_rtype_of result ≡ rtype }
    ensures rdata { IsUncompressedData rtype octets.items (owned_parts_of result) }
{
    owned_data(rtype, octets)
}

/// RDATA of this type with these octets, which must be uncompressed. They aren't copied.
pub(crate) fn read_rdata(rtype: Rtype, octets: Vec<u8>) -> Result<OwnedFieldData, TextError>
    ensures { ReadsRdata rtype octets.items result }
{
    if !are_rdata(rtype, octets.as_slice()) {
        return Err(TextError::BadWord);
    }
    Ok(rdata_of(rtype, octets))
}

/// RDATA of this type with a copy of these octets, which must be uncompressed.
pub(crate) fn copy_rdata(
    alloc: Global,
    rtype: Rtype,
    octets: &[u8],
) -> Result<OwnedFieldData, TextError>
    ensures { CopiesRdata rtype octets.now result }
{
    if !are_rdata(rtype, octets) {
        return Err(TextError::BadWord);
    }
    let mut copy = Vec::new(alloc);
    if let Err(error) = push_octets(&mut copy, octets) {
        return Err(error);
    }
    Ok(rdata_of(rtype, copy))
}
