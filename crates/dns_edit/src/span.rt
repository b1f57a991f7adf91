ghost use Rattle.std.specs.Prelude.{◌≤◌, length};
ghost use Rattle.dns_edit.specs.Spans.{SpansOrFails};

use dns_name::{ParsedName, Parser};
use dns_octets::ParseError;

/// Where a record is in a message, without following pointers.
#[derive(Clone, Copy)]
pub(crate) struct Span {
    /// The offset of the ten octets of fields after the owner.
    pub(crate) fields: usize,
    pub(crate) rtype: u16,
    pub(crate) ttl: u32,
    /// The offset after the RDATA.
    pub(crate) end: usize,
}

/// The record at offset `start`, or the error of skipping it.
pub(crate) fn span_at(octets: &[u8], start: usize) -> Result<Span, ParseError>
    requires { start ≤ length octets.now }
    ensures { SpansOrFails octets.now start result }
{
    let mut parser = Parser::new(octets);
    parser.seek(start)?;
    ParsedName::skip(&mut parser)?;
    let fields = parser.pos();
    let rtype = parser.parse_u16_be()?;
    parser.advance(2)?;
    let ttl = parser.parse_u32_be()?;
    let rdlen = parser.parse_u16_be()?;
    parser.advance(usize::from(rdlen))?;
    let end = parser.pos();
    Ok(Span {
        fields,
        rtype,
        ttl,
        end,
    })
}
