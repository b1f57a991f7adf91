//! Appending of fields.
ghost use Rattle.std.specs.Prelude.{◌≡◌, ℕ, List};
ghost use Rattle.dns_name.specs.Parsers.{seen, offset};
ghost use Rattle.dns_wire.specs.Parts.{Part, encode_part, encode_parts};
ghost use Rattle.dns_wire.specs.Targets.{Appends, Composes};
ghost use Rattle.dns_data.specs.Layout.{DataAt};
ghost use Rattle.fields_table.specs.EncodedFields.{part_of};
ghost use Rattle.fields_table.specs.Forms.{form, formed};
ghost use Rattle.fields_table.specs.Layouts.{layout_of};
ghost use Rattle.fields_table.specs.Table.{kinds};

use crate::encoded::{Encoded, parse_field};
use crate::kind::Kind;
use crate::shape::Shape;
use dns_data::laws::parts_compose;
use dns_name::Parser;
use dns_octets::AppendError;
use dns_wire::{Composer, ToNameExt};

/// Appends the fields that are encoded at the parser's offset, in canonical form if `canonical`.
pub(crate) fn compose<T: Composer>(
    fields: &[(&'static str, Kind)],
    parser: Parser<'_>,
    canonical: bool,
    target: &mut T,
) -> Result<(), AppendError>
    ensures { (q : ℕ) (ps : List Part)
        → DataAt (seen parser.entry) (layout_of (kinds fields.now)) (offset parser.entry) q ps
        → Composes T.capacity T.grows (encode_parts T.rule (formed canonical ps))
        (T.written target.old) (T.written target.new) result }
{
    parts_compose();
    let [field, after @ ..] = fields else {
        let _ = target.as_slice();
        return Ok(());
    };
    let shape = field.1.shape();
    let mut ahead = parser;
    let Ok(encoded) = parse_field(field.1, shape, &mut ahead) else {
        return Err(AppendError::ShortBuf);
    };
    append_field(encoded, canonical, target)?;
    if let Shape::Rest = shape {
        return Ok(());
    }
    compose(after, ahead, canonical, target)
}

/// Appends a field, in canonical form if `canonical`.
fn append_field<T: Composer>(
    field: Encoded<'_>,
    canonical: bool,
    target: &mut T,
) -> Result<(), AppendError>
    ensures { Appends T.capacity T.grows (encode_part T.rule (form canonical (part_of field.entry)))
        (T.written target.old) (T.written target.new) result }
{
    match field {
        Encoded::Octets(octets) => target.append_slice(octets),
        Encoded::Name(name) => {
            if canonical {
                name.compose_canonical(target)
            } else {
                target.append_compressed_name(&name)
            }
        }
        Encoded::UncompressedName(lowers, name) => {
            if canonical && lowers {
                name.compose_canonical(target)
            } else {
                target.append_slice(name.uncompressed().as_slice())
            }
        }
    }
}
