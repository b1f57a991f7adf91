//! RDATA of any record type, as fields.
ghost use Rattle.std.specs.Prelude.{◌≡◌, ◌≤◌};
ghost use Rattle.dns_wire.specs.Parts.{parts_size};
ghost use Rattle.fields_table.specs.FieldData.{IsThere, parts_from, type_layout};
ghost use Rattle.fields_table.specs.Layouts.{most};
ghost use Rattle.fields_table.specs.Table.{definitions, definitions_of};

use crate::compose::compose;
use crate::fields::Fields;
use crate::kind::Kind;
use crate::skip::skip;
use crate::table::fields_of;
use dns_data::{ComposeRecordData, ParseAnyRecordData, RecordData};
use dns_iana::Rtype;
use dns_name::Parser;
use dns_octets::{AppendError, ParseError};
use dns_wire::{Composer, MAX_OCTETS};

/// RDATA of any record type, as a view of the message. Nothing is copied.
#[derive(Clone, Copy, Debug)]
pub struct FieldData<'a> {
    rtype: u16,
    /// The fields of the record type.
    fields: &'static [(&'static str, Kind)],
    parser: Parser<'a>,
    ghost defined: { definitions fields.now ≡ definitions_of rtype },
    ghost encoded: { IsThere rtype parser },
    ghost short: { parts_size (parts_from rtype parser) ≤ most },
}

impl<'a> FieldData<'a> {
    ghost use Rattle.fields_table.specs.Data.{rtype_of, parts_of};
    ghost use Rattle.fields_table.specs.FieldParts.{named_parts, fields_left};

    /// The fields, in order, with the names and kinds of the record type.
    pub fn fields(&self) -> Fields<'a>
        ensures { fields_left result ≡ named_parts (definitions_of (rtype_of self.now))
            (parts_of self.now) }
    {
        Fields::new(self.fields, self.parser)
    }

    /// RDATA of this type, whose fields are known to be encoded at the parser's offset.
    pub(crate) fn of_encoded(rtype: u16, parser: Parser<'a>) -> Self
        requires encoded { IsThere rtype parser }
        requires short { parts_size (parts_from rtype parser) ≤ most }
        ensures rtype { rtype_of result ≡ rtype }
        ensures parts { parts_of result ≡ parts_from rtype parser.entry }
    {
        FieldData {
            rtype,
            fields: fields_of(rtype),
            parser,
        }
    }
}

impl RecordData for FieldData<'_> {
    ghost use Rattle.fields_table.specs.Data.{rtype_of, parts_of};

    ghost rtype_of = { rtype_of };

    ghost parts = { parts_of };

    fn rtype(&self) -> Rtype {
        Rtype::from_int(self.rtype)
    }
}

impl ComposeRecordData for FieldData<'_> {
    fn compose_rdata<T: Composer>(&self, target: &mut T) -> Result<(), AppendError> {
        compose(self.fields, self.parser, false, target)
    }

    fn compose_canonical_rdata<T: Composer>(&self, target: &mut T) -> Result<(), AppendError> {
        compose(self.fields, self.parser, true, target)
    }
}

impl<'a> ParseAnyRecordData<'a> for FieldData<'a> {
    ghost use Rattle.fields_table.specs.Data.{any_laid_out};

    ghost any_layout = { type_layout };

    /// If the fields take more than 65,535 octets uncompressed, the error is `ShortInput`.
    fn parse_any_rdata(rtype: Rtype, parser: &mut Parser<'a>) -> Result<Self, ParseError> {
        let fields = fields_of(rtype.to_int());
        let skipped = skip(fields, *parser)?;
        if skipped.size > MAX_OCTETS {
            return Err(ParseError::ShortInput);
        }
        let data = FieldData {
            rtype: rtype.to_int(),
            fields,
            parser: *parser,
        };
        *parser = skipped.parser;
        Ok(data)
    }

    ghost any_laid_out = { any_laid_out };
}
