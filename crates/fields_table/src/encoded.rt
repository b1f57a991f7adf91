//! Reading of fields.
ghost use Rattle.std.specs.Prelude.{◌≡◌, ◌≤◌};
ghost use Rattle.dns_name.specs.ParsedName.{labels};
ghost use Rattle.dns_data.specs.Layout.{may_be_encoded};
ghost use Rattle.fields_table.specs.EncodedFields.{Reads, part_of};
ghost use Rattle.dns_wire.specs.Parts.{part_size};

use crate::kind::Kind;
use crate::shape::Shape;
use dns_name::{ParsedName, Parser};
use dns_octets::{FormError, ParseError};

/// A field as it is encoded, as a view of the message.
#[derive(Clone, Copy, Debug)]
pub enum Encoded<'a> {
    /// Octets.
    Octets(&'a [u8]),
    /// A name that may be compressed.
    Name(ParsedName<'a>),
    /// A name that is never compressed, and whether its canonical form is lowercased.
    UncompressedName(bool, ParsedName<'a>),
}

impl Encoded<'_> {
    /// The number of octets that the field takes uncompressed.
    pub(crate) fn size(&self) -> usize
        ensures { result ≡ part_size (part_of self.now) }
    {
        match self {
            Encoded::Octets(octets) => octets.len(),
            Encoded::Name(name) | Encoded::UncompressedName(_, name) => name.compose_len(),
        }
    }
}

/// Reads a field.
#[inline(always)]
pub(crate) fn parse_field<'a>(
    kind: Kind,
    shape: Shape,
    parser: &mut Parser<'a>,
) -> Result<Encoded<'a>, ParseError>
    ensures { Reads kind shape parser.old parser.new result }
{
    match shape {
        Shape::Octets(size) => {
            let octets = parser.peek(size)?;
            parser.advance(size)?;
            Ok(Encoded::Octets(octets))
        }
        Shape::Counted => {
            let size = 1 + usize::from(parser.peek(1)?[0]);
            let octets = parser.peek(size)?;
            parser.advance(size)?;
            Ok(Encoded::Octets(octets))
        }
        Shape::Sized => {
            let head = parser.peek(2)?;
            let size = 2 + (usize::from(head[0]) * 256 + usize::from(head[1]));
            let octets = parser.peek(size)?;
            parser.advance(size)?;
            Ok(Encoded::Octets(octets))
        }
        Shape::Name => Ok(Encoded::Name(ParsedName::parse(parser)?)),
        Shape::UncompressedName(pointers, lowers) => {
            let start = parser.pos();
            let name = ParsedName::parse(parser)?;
            if !may_be_encoded(pointers, &name, start, parser.pos()) {
                return Err(ParseError::Form(FormError::BAD_POINTER));
            }
            Ok(Encoded::UncompressedName(lowers, name))
        }
        Shape::Rest => {
            let octets = parser.peek(parser.remaining())?;
            if !kind.accepts(octets) {
                return Err(ParseError::ShortInput);
            }
            parser.advance(octets.len())?;
            Ok(Encoded::Octets(octets))
        }
    }
}

/// Whether the name may be encoded from `start` to `end`: with a pointer only if `pointers`.
fn may_be_encoded(pointers: bool, name: &ParsedName<'_>, start: usize, end: usize) -> bool
    requires { start ≤ end }
    ensures { result ≡ may_be_encoded pointers (labels name.now) start end }
{
    pointers || end - start == name.compose_len()
}
