//! RDATA as its uncompressed octets (RFC 1035 sections 3.3 and 4.1.4).
ghost use Rattle.std.specs.Prelude.{◌≡◌, ◌≢◌, ◌++◌, ℕ, List, IfErr, IfOk, IfSome, IsNone, true, false};
ghost use Rattle.dns_name.specs.Names.{fault_of};
ghost use Rattle.fields_table.specs.DataOrders.{octets_of_parts, part_octets};
ghost use Rattle.fields_table.specs.EncodedFields.{part_of};
ghost use Rattle.fields_table.specs.FieldOrders.{parts_left};
ghost use Rattle.fields_table.specs.UncompressedData.{IsUncompressedData, UncompressedDataFault};

use crate::encoded::Encoded;
use crate::field_data::FieldData;
use crate::fields::Fields;
use dns_data::ParseAnyRecordData;
use dns_iana::Rtype;
use dns_name::Parser;
use dns_octets::{FormError, ParseError};

impl<'a> FieldData<'a> {
    ghost use Rattle.fields_table.specs.Data.{parts_of, rtype_of};

    /// RDATA of this type whose fields, uncompressed, are all of `octets`. Else the error is the
    /// first in the fields; or `TRAILING_DATA` if octets are left over, or `BAD_POINTER` if a name
    /// has a pointer.
    pub fn from_uncompressed(rtype: Rtype, octets: &'a [u8]) -> Result<Self, ParseError>
        ensures rtype { IfOk result (λ fields. rtype_of fields ≡ rtype) }
        ensures ok { IfOk result
            (λ fields. IsUncompressedData rtype octets.now (parts_of fields)) }
        ensures err { IfErr result
            (λ error. UncompressedDataFault rtype octets.now (fault_of error)) }
    {
        let mut parser = Parser::new(octets);
        let fields = FieldData::parse_any_rdata(rtype, &mut parser)?;
        if parser.remaining() > 0 {
            return Err(ParseError::Form(FormError::TRAILING_DATA));
        }
        if !are_uncompressed(fields.fields(), octets) {
            return Err(ParseError::Form(FormError::BAD_POINTER));
        }
        Ok(fields)
    }
}

/// Whether these octets are the fields uncompressed.
fn are_uncompressed(fields: Fields<'_>, octets: &[u8]) -> bool
    ensures are { result ≡ true → octets_of_parts (parts_left fields.entry) ≡ octets.now }
    ensures other { result ≡ false → octets_of_parts (parts_left fields.entry) ≢ octets.now }
{
    let mut left = octets;
    for field in fields {
        let Some(after) = octets_after(&field.encoded, left) else {
            return false;
        };
        left = after;
    }
    left.is_empty()
}

/// The octets after those of a field, which `octets` begin with if the field is uncompressed there.
fn octets_after<'a>(field: &Encoded<'_>, octets: &'a [u8]) -> Option<&'a [u8]>
    ensures after { IfSome result (λ after.
        octets.now ≡ part_octets (part_of field.now) ++ after.now) }
    ensures other { IsNone result → (after : List ℕ)
        → octets.now ≢ part_octets (part_of field.now) ++ after }
{
    match field {
        Encoded::Octets(own) => octets.strip_prefix(*own),
        Encoded::Name(name) | Encoded::UncompressedName(_, name) => {
            octets.strip_prefix(name.uncompressed().as_slice())
        }
    }
}
