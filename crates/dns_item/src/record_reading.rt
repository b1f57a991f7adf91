//! Reading records with their RDATA (RFC 1035 section 4.1.3).
ghost use Rattle.std.specs.Prelude.{◌≡◌, ℕ, IsErrAnd};
ghost use Rattle.dns_name.specs.Names.{Fault, fault_of};
ghost use Rattle.dns_name.specs.Parsers.{seen, offset, MovesTo};
ghost use Rattle.dns_item.specs.Items.{ReadsRecord, RecordEntry, RecordFaultAt};
ghost use Rattle.dns_item.specs.ParsedRecord.{octets_of, parsed_entry};
ghost use Rattle.dns_item.specs.RecordHeader.{rtype_of, record_at};
ghost use Rattle.dns_item.specs.RecordReading.{MovesPastRdata, ReturnsLaidOut, ReturnsTaken, GivesBack, GivesBackTaken, GivesValueBack, GivesValueBackTaken, IsWhole, IsWholeTaken};

use crate::parsed_record::ParsedRecord;
use crate::record::Record;
use crate::record_header::RecordHeader;
use dns_data::{ParseAnyRecordData, ParseRecordData};
use dns_iana::Rtype;
use dns_name::{ParsedName, Parser};
use dns_octets::{FormError, ParseError};

/// Reads RDATA that takes all octets from the parser's offset to its end.
fn parse_data<'a, D: ParseRecordData<'a> + Drop>(
    rtype: Rtype,
    parser: &mut Parser<'a>,
) -> Result<Option<D>, ParseError>
    ensures { IsWholeTaken D.rtype_of D.parts (seen parser.old) (offset parser.old) rtype
        (D.layout rtype) result }
{
    let Some(data) = D::parse_rdata(rtype, parser)? else {
        return Ok(None);
    };
    if parser.remaining() > 0 {
        return Err(ParseError::Form(FormError::TRAILING_DATA));
    }
    Ok(Some(data))
}

/// As `parse_data`, for RDATA types that accept every record type.
fn parse_any_data<'a, D: ParseAnyRecordData<'a> + Drop>(
    rtype: Rtype,
    parser: &mut Parser<'a>,
) -> Result<D, ParseError>
    ensures { IsWhole D.rtype_of D.parts (seen parser.old) (offset parser.old) rtype
        (D.any_layout rtype) result }
{
    let data = D::parse_any_rdata(rtype, parser)?;
    if parser.remaining() > 0 {
        return Err(ParseError::Form(FormError::TRAILING_DATA));
    }
    Ok(data)
}

impl<'a> RecordHeader<ParsedName<'a>> {
    /// Reads the RDATA after this header and returns the record, or `None` if `D` doesn't accept
    /// the record type.
    ///
    /// The parser has to be at the RDATA, and advances past it even if it is malformed. If the
    /// RDATA isn't all there, it returns `ShortInput` and the parser doesn't move. Otherwise an
    /// error is the first one in the RDATA, or `TRAILING_DATA` if octets are left over.
    pub fn parse_into_record<D: ParseRecordData<'a> + Drop>(
        self,
        parser: &mut Parser<'a>,
    ) -> Result<Option<Record<ParsedName<'a>, D>>, ParseError>
        ensures returned { ReturnsTaken D.rtype_of D.parts (seen parser.old)
            (record_at self.entry (offset parser.old)) (D.layout (rtype_of self.entry)) result }
        ensures moves { MovesPastRdata parser.old parser.new
            (record_at self.entry (offset parser.old)) }
    {
        let mut ahead = parser.parse_parser(usize::from(self.rdlen()))?;
        match parse_data(self.rtype(), &mut ahead) {
            Ok(Some(data)) => Ok(Some(self.into_record(data))),
            Ok(None) => Ok(None),
            Err(error) => Err(error),
        }
    }

    /// As `parse_into_record`, for RDATA types that accept every record type.
    pub fn parse_into_any_record<D: ParseAnyRecordData<'a> + Drop>(
        self,
        parser: &mut Parser<'a>,
    ) -> Result<Record<ParsedName<'a>, D>, ParseError>
        ensures returned { ReturnsLaidOut D.rtype_of D.parts (seen parser.old)
            (record_at self.entry (offset parser.old)) (D.any_layout (rtype_of self.entry)) result }
        ensures moves { MovesPastRdata parser.old parser.new
            (record_at self.entry (offset parser.old)) }
    {
        let mut ahead = parser.parse_parser(usize::from(self.rdlen()))?;
        match parse_any_data(self.rtype(), &mut ahead) {
            Ok(data) => Ok(self.into_record(data)),
            Err(error) => Err(error),
        }
    }
}

impl<'a> ParsedRecord<'a> {
    /// The record with its RDATA parsed, or `None` if `D` doesn't accept the record type.
    ///
    /// Errors: `ShortInput` if the RDATA isn't all there, else the first error in the RDATA, or
    /// `TRAILING_DATA` if octets are left over.
    pub fn to_record<D: ParseRecordData<'a> + Drop>(
        &self,
    ) -> Result<Option<Record<ParsedName<'a>, D>>, ParseError>
        ensures returned { ReturnsTaken D.rtype_of D.parts (octets_of self.now)
            (parsed_entry self.now) (D.layout (parsed_entry self.now).rtype) result }
        ensures back { GivesBackTaken D.rtype_of D.parts (octets_of self.now)
            (parsed_entry self.now) (D.layout (parsed_entry self.now).rtype) result }
        ensures value { GivesValueBackTaken D.rtype_of D.parts (octets_of self.now)
            (parsed_entry self.now) result }
    {
        let mut parser = self.data;
        self.header.parse_into_record(&mut parser)
    }

    /// As `to_record`.
    pub fn into_record<D: ParseRecordData<'a> + Drop>(
        self,
    ) -> Result<Option<Record<ParsedName<'a>, D>>, ParseError>
        ensures returned { ReturnsTaken D.rtype_of D.parts (octets_of self.entry)
            (parsed_entry self.entry) (D.layout (parsed_entry self.entry).rtype) result }
        ensures back { GivesBackTaken D.rtype_of D.parts (octets_of self.entry)
            (parsed_entry self.entry) (D.layout (parsed_entry self.entry).rtype) result }
        ensures value { GivesValueBackTaken D.rtype_of D.parts (octets_of self.entry)
            (parsed_entry self.entry) result }
    {
        self.to_record()
    }

    /// As `to_record`, for RDATA types that accept every record type.
    pub fn to_any_record<D: ParseAnyRecordData<'a> + Drop>(
        &self,
    ) -> Result<Record<ParsedName<'a>, D>, ParseError>
        ensures returned { ReturnsLaidOut D.rtype_of D.parts (octets_of self.now)
            (parsed_entry self.now) (D.any_layout (parsed_entry self.now).rtype) result }
        ensures back { GivesBack D.rtype_of D.parts (octets_of self.now)
            (parsed_entry self.now) (D.any_layout (parsed_entry self.now).rtype) result }
        ensures value { GivesValueBack D.rtype_of D.parts (octets_of self.now)
            (parsed_entry self.now) result }
    {
        let mut parser = self.data;
        self.header.parse_into_any_record(&mut parser)
    }

    /// As `to_any_record`.
    pub fn into_any_record<D: ParseAnyRecordData<'a> + Drop>(
        self,
    ) -> Result<Record<ParsedName<'a>, D>, ParseError>
        ensures returned { ReturnsLaidOut D.rtype_of D.parts (octets_of self.entry)
            (parsed_entry self.entry) (D.any_layout (parsed_entry self.entry).rtype) result }
        ensures back { GivesBack D.rtype_of D.parts (octets_of self.entry)
            (parsed_entry self.entry) (D.any_layout (parsed_entry self.entry).rtype) result }
        ensures value { GivesValueBack D.rtype_of D.parts (octets_of self.entry)
            (parsed_entry self.entry) result }
    {
        self.to_any_record()
    }
}

impl<'a, D: ParseRecordData<'a> + Drop> Record<ParsedName<'a>, D> {
    /// Reads the record at the parser's offset with its RDATA, or `None` if `D` doesn't accept the
    /// record type.
    ///
    /// If the owner is malformed or the record isn't all there, it returns the error of the owner
    /// or `ShortInput`, and the parser doesn't move. Otherwise the parser advances past the record,
    /// even if the RDATA is malformed.
    pub fn parse(parser: &mut Parser<'a>) -> Result<Option<Self>, ParseError>
        ensures gives { (q : ℕ) (x : RecordEntry)
            → ReadsRecord (seen parser.old) (offset parser.old) q x
            → ReturnsTaken D.rtype_of D.parts (seen parser.old) x (D.layout x.rtype) result
            × MovesTo parser.old parser.new q }
        ensures back { (q : ℕ) (x : RecordEntry)
            → ReadsRecord (seen parser.old) (offset parser.old) q x
            → GivesBackTaken D.rtype_of D.parts (seen parser.old) x (D.layout x.rtype) result }
        ensures value { (q : ℕ) (x : RecordEntry)
            → ReadsRecord (seen parser.old) (offset parser.old) q x
            → GivesValueBackTaken D.rtype_of D.parts (seen parser.old) x result }
        ensures fault { (f : Fault) → RecordFaultAt (seen parser.old) (offset parser.old) f
            → IsErrAnd result (λ e. fault_of e ≡ f) × (parser.new ≡ parser.old) }
    {
        ParsedRecord::parse(parser)?.into_record()
    }
}
