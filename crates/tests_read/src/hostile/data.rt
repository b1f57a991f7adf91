//! RDATA that is read at an offset, beside plain RDATA.
use crate::hostile::asserts::{assert_located, assert_same};
use crate::hostile::buffer::Buffer;
use crate::hostile::given::{Given, Opaque, expanded};
use crate::hostile::plain::{Entry, Located, Plain, entry_at, entry_in};
use crate::hostile::plain_data::{data_at, has_options, typed_of};
use dns_code::Rtype;
use dns_data::{A, Cname, ComposeRecordData, Ns, Opt, ParseRecordData, Soa};
use dns_item::{ParsedRecord, Record, RecordHeader};
use dns_wire::{ParseError, ParsedName, Parser};
use std::process::Abort;
use tests_plain::EntryKind;

/// The RDATA that a data type reads, its names uncompressed. Its type has to be the one that is
/// asked for.
fn data_of<'a, D: ParseRecordData<'a> + ComposeRecordData + Drop>(
    rtype: Rtype,
    parser: &mut Parser<'a>,
) -> Result<Buffer, ParseError> {
    match D::parse_rdata(rtype, parser) {
        Ok(Some(data)) => Ok(expanded(&data)),
        Ok(None) => Ok(Buffer::of(b"another type")),
        Err(error) => Err(error),
    }
}

/// Checks what a data type reads at this offset, and what it returns for the record that is encoded
/// there, by each call that reads it.
fn assert_typed<'a, D: ParseRecordData<'a> + ComposeRecordData + Drop>(
    rt: &impl Abort,
    plain: &Plain<'a>,
    parser: Parser<'a>,
    rtype: Rtype,
    located: Located<Entry>,
) {
    let (octets, offset) = (plain.octets, parser.pos());
    let expected = data_at(octets, offset, rtype.to_int());
    let mut after = parser;
    let data = data_of::<D>(rtype, &mut after);
    assert_located(rt, plain, "data", offset, (data, after.pos()), expected);
    let expected = typed_of(octets, located, rtype.to_int());
    let mut after = parser;
    let record = Record::<ParsedName<'a>, D>::parse(&mut after).plain();
    let end = match located {
        Ok((_, end)) => end,
        Err(_) => offset,
    };
    assert_same(rt, plain, "record", (record, after.pos()), (expected, end));
    let mut after = parser;
    if let Ok(header) = RecordHeader::parse(&mut after) {
        let record = header.parse_into_record::<D>(&mut after).plain();
        assert_same(rt, plain, "record of a header", record, expected);
    }
    let mut after = parser;
    if let Ok(record) = ParsedRecord::parse(&mut after) {
        let answers = [
            record.to_record::<D>().plain(),
            record.into_record::<D>().plain(),
        ];
        assert_same(rt, plain, "record with data", answers, [expected; 2]);
    }
}

/// Checks the record that is encoded at this offset, with opaque RDATA.
fn assert_opaque<'a>(
    rt: &impl Abort,
    plain: &Plain<'a>,
    parser: Parser<'a>,
    located: Located<Entry>,
) {
    let expected = entry_in(&located);
    let mut after = parser;
    if let Ok(header) = RecordHeader::parse(&mut after) {
        let record = header
            .parse_into_any_record::<Opaque<'a>>(&mut after)
            .plain();
        assert_same(rt, plain, "opaque record of a header", record, expected);
    }
    let mut after = parser;
    if let Ok(record) = ParsedRecord::parse(&mut after) {
        let record = record.into_any_record::<Opaque<'a>>().plain();
        assert_same(rt, plain, "opaque record", record, expected);
    }
}

/// The number of octets that the options in an OPT record with these octets take.
fn len_of_options(octets: &[u8]) -> Option<usize> {
    let opt = Opt::from_octets(octets).ok()?;
    let mut len = 0_usize;
    for (_code, option) in opt.iter() {
        len = len.saturating_add(4).saturating_add(option.len());
    }
    Some(len)
}

/// Checks the RDATA of all types that is read at this offset.
pub(crate) fn assert_data<'a>(rt: &impl Abort, plain: &Plain<'a>, parser: Parser<'a>) {
    let located = entry_at(plain.octets, EntryKind::Record, parser.pos());
    assert_typed::<A>(rt, plain, parser, Rtype::A, located);
    assert_typed::<Ns<ParsedName<'a>>>(rt, plain, parser, Rtype::NS, located);
    assert_typed::<Cname<ParsedName<'a>>>(rt, plain, parser, Rtype::CNAME, located);
    assert_typed::<Soa<ParsedName<'a>>>(rt, plain, parser, Rtype::SOA, located);
    assert_typed::<Opt<&'a [u8]>>(rt, plain, parser, Rtype::OPT, located);
    assert_opaque(rt, plain, parser, located);
    let rest = plain.octets.get(parser.pos()..).unwrap_or(b"");
    let expected = has_options(rest).then_some(rest.len());
    assert_same(rt, plain, "options", len_of_options(rest), expected);
}
