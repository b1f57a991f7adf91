//! RDATA of any record type that owns its octets.
ghost use Rattle.std.specs.Prelude.{◌≤◌};
ghost use Rattle.dns_wire.specs.Parts.{parts_size};
ghost use Rattle.fields_table.specs.Layouts.{most};
ghost use Rattle.fields_table.specs.OwnedFields.{AreThere, parts_in};

use crate::field_data::FieldData;
use dns_data::{ComposeRecordData, RecordData};
use dns_iana::Rtype;
use dns_name::{FlattenInto, Parser};
use dns_octets::{AppendError, OctetsFrom};
use dns_wire::Composer;
use std::alloc::{AllocError, Global};

/// RDATA of any record type as fields, which owns its octets. The octets are uncompressed.
#[derive(Debug, Drop)]
pub struct OwnedFieldData {
    rtype: u16,
    octets: Vec<u8>,
    ghost encoded: { AreThere rtype octets.items },
    ghost short: { parts_size (parts_in rtype octets.items) ≤ most },
}

impl OwnedFieldData {
    ghost use Rattle.std.specs.Prelude.{◌≡◌, ⊤};
    ghost use Rattle.dns_octets.specs.Converts.{Converts};
    ghost use Rattle.fields_table.specs.Data.{rtype_of, parts_of};
    ghost use Rattle.fields_table.specs.OwnedData.{owned_rtype_of, owned_parts_of, keeps_data};

    /// A view of the RDATA, as that of a message.
    pub fn as_field_data(&self) -> FieldData<'_>
        ensures rtype { rtype_of result ≡ owned_rtype_of self.now }
        ensures parts { parts_of result ≡ owned_parts_of self.now }
    {
        FieldData::of_encoded(self.rtype, Parser::new(self.octets.as_slice()))
    }

    /// RDATA of this type with these octets.
    pub(crate) fn from_octets(rtype: Rtype, octets: Vec<u8>) -> Self
        requires encoded { AreThere rtype octets.items }
        requires short { parts_size (parts_in rtype octets.items) ≤ most }
        ensures rtype { owned_rtype_of result ≡ rtype }
        ensures parts { owned_parts_of result ≡ parts_in rtype octets.items }
    {
        OwnedFieldData {
            rtype: rtype.to_int(),
            octets,
        }
    }

    /// Copies RDATA. Returns `OutOfMemory` if an allocation fails.
    pub fn from_field_data(alloc: Global, source: &FieldData<'_>) -> Result<Self, AppendError>
        ensures { Converts result (keeps_data source.now) ⊥ ⊤ }
    {
        let mut octets = Vec::new(alloc);
        source.compose_rdata(&mut octets)?;
        Ok(OwnedFieldData {
            rtype: source.rtype().to_int(),
            octets,
        })
    }
}

impl RecordData for OwnedFieldData {
    ghost use Rattle.fields_table.specs.OwnedData.{owned_rtype_of, owned_parts_of};

    ghost rtype_of = { owned_rtype_of };

    ghost parts = { owned_parts_of };

    fn rtype(&self) -> Rtype {
        Rtype::from_int(self.rtype)
    }
}

impl ComposeRecordData for OwnedFieldData {
    fn compose_rdata<T: Composer>(&self, target: &mut T) -> Result<(), AppendError> {
        self.as_field_data().compose_rdata(target)
    }

    fn compose_canonical_rdata<T: Composer>(&self, target: &mut T) -> Result<(), AppendError> {
        self.as_field_data().compose_canonical_rdata(target)
    }
}

/// As `OwnedFieldData::from_field_data`.
impl OctetsFrom<FieldData<'_>> for OwnedFieldData {
    ghost use Rattle.std.specs.Prelude.{⊤};
    ghost use Rattle.fields_table.specs.OwnedData.{keeps_data};

    ghost keeps = { keeps_data };

    ghost too_long = { λ _. ⊥ };

    ghost takes_memory = { ⊤ };

    fn try_octets_from(alloc: Global, source: FieldData<'_>) -> Result<Self, AppendError> {
        OwnedFieldData::from_field_data(alloc, &source)
    }
}

/// As `OwnedFieldData::from_field_data`.
impl FlattenInto<OwnedFieldData> for FieldData<'_> {
    ghost use Rattle.std.specs.Prelude.{⊤};
    ghost use Rattle.fields_table.specs.OwnedData.{keeps_data};

    ghost keeps = { keeps_data };

    ghost too_long = { λ _. ⊥ };

    ghost takes_memory = { ⊤ };

    fn try_flatten_into(self, alloc: Global) -> Result<OwnedFieldData, AppendError> {
        OwnedFieldData::from_field_data(alloc, &self)
    }
}

/// Clones the octets. Returns `AllocError` if an allocation fails.
impl Clone for OwnedFieldData {
    ghost use Rattle.std.specs.Prelude.{◌≡◌};
    ghost use Rattle.fields_table.specs.OwnedData.{owned_rtype_of, owned_parts_of};

    ghost is_clone = { λ owned clone. (owned_rtype_of clone ≡ owned_rtype_of owned)
        × (owned_parts_of clone ≡ owned_parts_of owned) };

    ghost is_infallible = { λ _. ⊥ };

    fn clone(&self) -> Result<Self, AllocError> {
        let octets = self.octets.clone()?;
        Ok(OwnedFieldData {
            rtype: self.rtype,
            octets,
        })
    }
}
