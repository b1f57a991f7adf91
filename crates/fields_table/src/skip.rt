//! Skipping of fields.
ghost use Rattle.std.specs.Prelude.{◌≡◌};
ghost use Rattle.fields_table.specs.Layouts.{layout_of};
ghost use Rattle.fields_table.specs.Skipping.{Skips};
ghost use Rattle.fields_table.specs.Table.{kinds};

use crate::encoded::parse_field;
use crate::kind::Kind;
use crate::shape::Shape;
use dns_name::Parser;
use dns_octets::ParseError;

/// Where fields end, and the number of octets that they take uncompressed, at most `usize::MAX`.
#[derive(Clone, Copy, Debug)]
pub(crate) struct Skipped<'a> {
    pub(crate) parser: Parser<'a>,
    pub(crate) size: usize,
}

/// Skips the fields. Returns the first error in them if they aren't encoded there.
#[inline(never)]
pub(crate) fn skip<'a>(
    fields: &[(&'static str, Kind)],
    parser: Parser<'a>,
) -> Result<Skipped<'a>, ParseError>
    ensures { Skips (layout_of (kinds fields.now)) parser.entry result }
{
    let mut left = fields;
    let mut ahead = parser;
    let mut size: usize = 0;
    'fields: while let [field, after @ ..] = left {
        let shape = field.1.shape();
        let encoded = parse_field(field.1, shape, &mut ahead)?;
        size = size.saturating_add(encoded.size());
        if let Shape::Rest = shape {
            return Ok(Skipped {
                parser: ahead,
                size,
            });
        }
        left = after;
    }
    Ok(Skipped {
        parser: ahead,
        size,
    })
}
