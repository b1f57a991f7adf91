//! Record headers (RFC 1035 section 4.1.3).
ghost use Rattle.std.specs.Prelude.{◌≡◌};
ghost use Rattle.dns_name.specs.CachedNames.{IsCached};
ghost use Rattle.dns_name.specs.Parsers.{seen, offset, Takes};
ghost use Rattle.dns_wire.specs.Targets.{Composes};
ghost use Rattle.dns_item.specs.Record.{HasFields};
ghost use Rattle.dns_item.specs.RecordHeader.{owner_of, rtype_of, class_of, ttl_of, rdlen_of, AreFieldsAt, header_fields, header_item, encode_header, ParsesHeader, ReadsAhead, ParsesAndSkips};

use crate::record::Record;
use dns_code::Ttl;
use dns_iana::{Class, Rtype};
use dns_name::{CachedName, ParsedName, Parser, ToName, parse_cached};
use dns_octets::{AppendError, ParseError};
use dns_wire::Composer;

/// The fields of a record before its RDATA: owner, type, class, TTL and RDLENGTH (RFC 1035 section
/// 4.1.3).
#[derive(Clone, Copy, Debug, PartialEq, Eq, PartialOrd, Ord, Hash, Drop)]
pub struct RecordHeader<N> {
    owner: N,
    rtype: u16,
    class: u16,
    ttl: u32,
    rdlen: u16,
}

impl<N> RecordHeader<N> {
    /// The header with these fields. `rdlen` is the number of octets of the RDATA.
    pub fn new(owner: N, rtype: Rtype, class: Class, ttl: Ttl, rdlen: u16) -> Self
        ensures owner { owner_of result ≡ owner }
        ensures rtype { rtype_of result ≡ rtype }
        ensures class { class_of result ≡ class }
        ensures ttl { ttl_of result ≡ ttl }
        ensures rdlen { rdlen_of result ≡ rdlen }
    {
        RecordHeader {
            owner,
            rtype: rtype.to_int(),
            class: class.to_int(),
            ttl: ttl.as_secs(),
            rdlen,
        }
    }

    /// The owner: the name that the record belongs to.
    pub fn owner(&self) -> &N
        ensures { result.now ≡ owner_of self.now }
    {
        &self.owner
    }

    /// The record type.
    pub fn rtype(&self) -> Rtype
        ensures { result ≡ rtype_of self.now }
    {
        Rtype::from_int(self.rtype)
    }

    /// The class.
    pub fn class(&self) -> Class
        ensures { result ≡ class_of self.now }
    {
        Class::from_int(self.class)
    }

    /// How long the record may be cached.
    pub fn ttl(&self) -> Ttl
        ensures { result ≡ ttl_of self.now }
    {
        Ttl::from_secs(self.ttl)
    }

    /// RDLENGTH: the number of octets of the RDATA.
    pub fn rdlen(&self) -> u16
        ensures { result ≡ rdlen_of self.now }
    {
        self.rdlen
    }

    /// The record with this owner, class and TTL, and with RDATA, which has the record type.
    pub fn into_record<D>(self, data: D) -> Record<N, D>
        ensures { HasFields result (owner_of self) (class_of self) (ttl_of self) «data» }
    {
        let class = self.class();
        let ttl = self.ttl();
        let RecordHeader { owner, .. } = self;
        Record::new(owner, class, ttl, data)
    }
}

impl<N: ToName> RecordHeader<N> {
    /// Appends the header: its owner by the target's compression rule, type, class, TTL and
    /// RDLENGTH, but no RDATA.
    ///
    /// On error the content still begins with the old content. A `truncate` to the old length
    /// restores the old target.
    pub fn compose<T: Composer>(&self, target: &mut T) -> Result<(), AppendError>
        ensures { Composes T.capacity T.grows (encode_header T.rule (header_item N.name self.now))
            (T.written target.old) (T.written target.new) result }
    {
        target.append_compressed_name(&self.owner)?;
        target.append_slice(&self.field_octets())
    }
}

impl<N> RecordHeader<N> {
    /// The ten octets after the owner.
    pub(crate) fn field_octets(&self) -> [u8; 10]
        ensures { result ≡ header_fields (rtype_of self.now) (class_of self.now) (ttl_of self.now)
            (rdlen_of self.now) }
    {
        let [a, b] = self.rtype.to_be_bytes();
        let [c, d] = self.class.to_be_bytes();
        let [e, f, g, h] = self.ttl.to_be_bytes();
        let [i, j] = self.rdlen.to_be_bytes();
        [a, b, c, d, e, f, g, h, i, j]
    }
}

impl<'a> RecordHeader<ParsedName<'a>> {
    /// Reads the header of the record at the parser's offset and advances to its RDATA. The RDATA
    /// needn't be there.
    ///
    /// Returns the error of its owner, or `ShortInput` if the ten octets after the owner aren't all
    /// there. The parser doesn't move on error.
    pub fn parse(parser: &mut Parser<'a>) -> Result<Self, ParseError>
        ensures { ParsesHeader parser.old parser.new result }
    {
        let (header, after) = RecordHeader::parse_ahead(*parser, &mut CachedName::new())?;
        *parser = after;
        Ok(header)
    }

    /// As `parse`.
    pub fn parse_ref(parser: &mut Parser<'a>) -> Result<Self, ParseError>
        ensures { ParsesHeader parser.old parser.new result }
    {
        RecordHeader::parse(parser)
    }

    /// Reads the header of the record at the parser's offset and advances past the RDATA.
    ///
    /// Returns the error of its owner, or `ShortInput` if the octets after the owner or the RDATA
    /// aren't all there. The parser doesn't move on error.
    pub fn parse_and_skip(parser: &mut Parser<'a>) -> Result<Self, ParseError>
        ensures { ParsesAndSkips parser.old parser.new result }
    {
        let (header, mut after) = RecordHeader::parse_ahead(*parser, &mut CachedName::new())?;
        after.advance(usize::from(header.rdlen))?;
        *parser = after;
        Ok(header)
    }

    /// The header at the parser's offset, and the parser after it, at the RDATA. The owner is read
    /// by `parse_cached`, which uses the cached name `cached`.
    #[inline(always)]
    pub(crate) fn parse_ahead(
        mut parser: Parser<'a>,
        cached: &mut CachedName,
    ) -> Result<(Self, Parser<'a>), ParseError>
        requires cached { IsCached (seen parser) cached.old }
        ensures reads { ReadsAhead parser.entry result }
        ensures cached { IsCached (seen parser.entry) cached.new }
    {
        let owner = parse_cached(&mut parser, cached)?;
        let (rtype, class, ttl, rdlen) = parse_fields(&mut parser)?;
        Ok((RecordHeader::new(owner, rtype, class, ttl, rdlen), parser))
    }
}

/// Reads the ten octets after an owner.
fn parse_fields(parser: &mut Parser<'_>) -> Result<(Rtype, Class, Ttl, u16), ParseError>
    ensures { Takes parser.old parser.new 10 result
        (λ fields. AreFieldsAt (seen parser.old) (offset parser.old) fields.0 fields.1 fields.2
        fields.3) }
{
    let octets = parser.peek(10)?;
    let rtype = Rtype::from_int(u16::from_be_bytes([octets[0], octets[1]]));
    let class = Class::from_int(u16::from_be_bytes([octets[2], octets[3]]));
    let ttl = u32::from_be_bytes([octets[4], octets[5], octets[6], octets[7]]);
    let rdlen = u16::from_be_bytes([octets[8], octets[9]]);
    parser.advance(10)?;
    Ok((rtype, class, Ttl::from_secs(ttl), rdlen))
}
