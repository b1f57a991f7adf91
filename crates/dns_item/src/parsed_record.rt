//! Records whose RDATA isn't parsed yet (RFC 1035 section 4.1.3).
ghost use Rattle.std.specs.Prelude.{◌≡◌};
ghost use Rattle.dns_name.specs.CachedNames.{IsCached};
ghost use Rattle.dns_name.specs.Parsers.{seen};
ghost use Rattle.dns_item.specs.RecordHeader.{owner_of, rtype_of, class_of, ttl_of, rdlen_of};
ghost use Rattle.dns_item.specs.ParsedRecord.{header_of, data_parser, ParsesRecord, SkipsOverRecord};

use crate::record_header::RecordHeader;
use dns_code::Ttl;
use dns_iana::{Class, Rtype};
use dns_name::{CachedName, ParsedName, Parser};
use dns_octets::ParseError;

/// A record in a message: its header, and the offset of its RDATA, which isn't parsed yet (RFC 1035
/// section 4.1.3). It borrows the message.
#[derive(Clone, Copy, Debug, Drop)]
pub struct ParsedRecord<'a> {
    pub(crate) header: RecordHeader<ParsedName<'a>>,
    /// Is at the RDATA, and sees the whole message.
    pub(crate) data: Parser<'a>,
}

impl<'a> ParsedRecord<'a> {
    /// The record of a header and a parser at the RDATA.
    pub fn new(header: RecordHeader<ParsedName<'a>>, data: Parser<'a>) -> Self
        ensures header { header_of result ≡ header.entry }
        ensures parser { data_parser result ≡ «data».entry }
    {
        ParsedRecord { header, data }
    }

    /// The owner: the name that the record belongs to.
    pub fn owner(&self) -> ParsedName<'a>
        ensures { result ≡ owner_of (header_of self.now) }
    {
        *self.header.owner()
    }

    /// The record type.
    pub fn rtype(&self) -> Rtype
        ensures { result ≡ rtype_of (header_of self.now) }
    {
        self.header.rtype()
    }

    /// The class.
    pub fn class(&self) -> Class
        ensures { result ≡ class_of (header_of self.now) }
    {
        self.header.class()
    }

    /// How long the record may be cached.
    pub fn ttl(&self) -> Ttl
        ensures { result ≡ ttl_of (header_of self.now) }
    {
        self.header.ttl()
    }

    /// RDLENGTH: the number of octets of the RDATA.
    pub fn rdlen(&self) -> u16
        ensures { result ≡ rdlen_of (header_of self.now) }
    {
        self.header.rdlen()
    }

    /// Reads the record at the parser's offset and advances past it. The RDATA isn't parsed.
    ///
    /// Returns the error of its owner, or `ShortInput` if the octets after the owner or the RDATA
    /// aren't all there. The parser doesn't move on error.
    pub fn parse(parser: &mut Parser<'a>) -> Result<Self, ParseError>
        ensures { ParsesRecord parser.old parser.new result }
    {
        parse_record_cached(parser, &mut CachedName::new())
    }

    /// Skips a record without following a pointer in its owner and without parsing its RDATA.
    ///
    /// Returns the error of skipping its owner, or `ShortInput` if the octets after the owner or
    /// the RDATA aren't all there. The parser doesn't move on error.
    pub fn skip(parser: &mut Parser<'_>) -> Result<(), ParseError>
        ensures { SkipsOverRecord parser.old parser.new result }
    {
        let mut ahead = *parser;
        ParsedName::skip(&mut ahead)?;
        ahead.advance(8)?;
        let rdlen = ahead.parse_u16_be()?;
        ahead.advance(usize::from(rdlen))?;
        *parser = ahead;
        Ok(())
    }
}

/// As [`ParsedRecord::parse`], with the owner read by `parse_cached` of `dns_name`, which uses the
/// cached name `cached`.
#[inline(always)]
pub fn parse_record_cached<'a>(
    parser: &mut Parser<'a>,
    cached: &mut CachedName,
) -> Result<ParsedRecord<'a>, ParseError>
    requires cached { IsCached (seen parser.old) cached.old }
    ensures parses { ParsesRecord parser.old parser.new result }
    ensures cached { IsCached (seen parser.old) cached.new }
{
    let (header, data) = RecordHeader::parse_ahead(*parser, cached)?;
    let mut after = data;
    after.advance(usize::from(header.rdlen()))?;
    *parser = after;
    Ok(ParsedRecord { header, data })
}
