//! The fields of RDATA, in order.
ghost use Rattle.std.specs.Prelude.{◌≡◌};
ghost use Rattle.fields_table.specs.EncodedFields.{part_of};
ghost use Rattle.fields_table.specs.FieldsLeft.{AreLeft};
ghost use Rattle.fields_table.specs.Shapes.{shape_of};
ghost use Rattle.fields_table.specs.Values.{HasSize};

use crate::encoded::{Encoded, parse_field};
use crate::kind::Kind;
use crate::shape::Shape;
use crate::value::{Value, value_of};
use dns_name::Parser;

/// A field: its name, its kind, and how it is encoded.
#[derive(Clone, Copy, Debug)]
pub struct Field<'a> {
    pub name: &'static str,
    pub kind: Kind,
    pub encoded: Encoded<'a>,
    ghost sized: { HasSize (shape_of kind) (part_of encoded) },
}

impl<'a> Field<'a> {
    ghost use Rattle.fields_table.specs.Values.{part_value, value_shown};

    /// The value: a number, a record type, an address, a name, a string or octets.
    pub fn value(&self) -> Value<'a>
        ensures { value_shown result ≡ part_value self.now.kind (part_of self.now.encoded) }
    {
        value_of(self.kind, &self.encoded)
    }
}

/// An iterator over the fields of RDATA, in order.
#[derive(Clone, Copy, Debug)]
pub struct Fields<'a> {
    left: &'static [(&'static str, Kind)],
    parser: Parser<'a>,
    ghost encoded: { AreLeft left.now parser },
}

/// No fields.
const NONE: &[(&str, Kind)] = &[];

impl<'a> Fields<'a> {
    ghost use Rattle.fields_table.specs.FieldParts.{named_parts, fields_left};
    ghost use Rattle.fields_table.specs.FieldsLeft.{parts_from};
    ghost use Rattle.fields_table.specs.Table.{definitions};

    /// An iterator over these fields, which are encoded at the parser's offset.
    pub(crate) fn new(left: &'static [(&'static str, Kind)], parser: Parser<'a>) -> Self
        requires { AreLeft left.now parser }
        ensures { fields_left result ≡ named_parts (definitions left.now)
            (parts_from left.now parser.entry) }
    {
        Fields { left, parser }
    }
}

/// Yields each field of the record type, with its name, its kind and its part.
impl<'a> Iterator for Fields<'a> {
    ghost use Rattle.std.specs.Iterator.{YieldsFirstBy, item_count};
    ghost use Rattle.fields_table.specs.FieldParts.{named_part, fields_left};

    type Item = Field<'a>;

    ghost next_gives = { YieldsFirstBy named_part fields_left };

    ghost remaining = { item_count fields_left };

    #[inline(always)]
    fn next(&mut self) -> Option<Field<'a>> {
        let [field, after @ ..] = self.left else {
            return None;
        };
        let shape = field.1.shape();
        let mut ahead = self.parser;
        let Ok(encoded) = parse_field(field.1, shape, &mut ahead) else {
            return None;
        };
        let item = Field {
            name: field.0,
            kind: field.1,
            encoded,
        };
        if let Shape::Rest = shape {
            *self = Fields::new(NONE, ahead);
        } else {
            *self = Fields::new(after, ahead);
        }
        Some(item)
    }
}
