//! RDATA of any record type from its octets.
ghost use Rattle.std.specs.Prelude.{◌≡◌, ◌≤◌};
ghost use Rattle.dns_wire.specs.Parts.{parts_size};
ghost use Rattle.fields_table.specs.Layouts.{most};
ghost use Rattle.fields_table.specs.OwnedData.{owned_parts_of, owned_rtype_of};
ghost use Rattle.fields_table.specs.OwnedFields.{AreThere, parts_in};

use crate::owned::OwnedFieldData;
use dns_iana::Rtype;

/// RDATA of this type with these octets, which are its fields, uncompressed. No octet is read: by
/// `laws::made_parts_read_back`, the octets of parts with the layout of the type are such octets.
pub fn owned_data(rtype: Rtype, octets: Vec<u8>) -> OwnedFieldData
    requires encoded { AreThere rtype octets.items }
    requires short { parts_size (parts_in rtype octets.items) ≤ most }
    ensures rtype { owned_rtype_of result ≡ rtype }
    ensures parts { owned_parts_of result ≡ parts_in rtype octets.items }
{
    OwnedFieldData::from_octets(rtype, octets)
}
