//! What is read and skipped at each offset, beside what is encoded there.
use crate::hostile::asserts::{assert_read, assert_same};
use crate::hostile::data::assert_data;
use crate::hostile::given::Given;
use crate::hostile::plain::{Located, Plain, entry_at, header_at, name_at};
use crate::hostile::plain_data::{header_skipped, octets_at, whole_name};
use dns_code::HeaderSection;
use dns_item::{ParsedRecord, Question, RecordHeader, Ttl};
use dns_wire::{Name, ParseError, ParsedName, Parser};
use std::process::Abort;
use tests_plain::{EntryKind, entry_end, name_end};

/// Checks the name, the question and the record that are read at this offset.
fn assert_entries<'a>(rt: &impl Abort, plain: &Plain<'a>, parser: Parser<'a>) {
    let (octets, offset) = (plain.octets, parser.pos());
    let expected = name_at(octets, offset);
    assert_read(rt, plain, "name", parser, ParsedName::parse, expected);
    let expected = entry_at(octets, EntryKind::Question, offset);
    assert_read(rt, plain, "question", parser, Question::parse, expected);
    let expected = entry_at(octets, EntryKind::Record, offset);
    assert_read(rt, plain, "record", parser, ParsedRecord::parse, expected);
}

/// Checks the record header that is read at this offset, whether or not the RDATA is skipped.
fn assert_headers<'a>(rt: &impl Abort, plain: &Plain<'a>, parser: Parser<'a>) {
    let (octets, offset) = (plain.octets, parser.pos());
    let expected = header_at(octets, offset);
    assert_read(rt, plain, "header", parser, RecordHeader::parse, expected);
    assert_read(
        rt,
        plain,
        "parse_ref",
        parser,
        RecordHeader::parse_ref,
        expected,
    );
    let expected = header_skipped(octets, offset);
    let read = RecordHeader::parse_and_skip;
    assert_read(rt, plain, "parse_and_skip", parser, read, expected);
}

/// Checks the TTL and the header section at this offset, and the name of all octets from it on.
fn assert_fixed<'a>(rt: &impl Abort, plain: &Plain<'a>, parser: Parser<'a>) {
    let (octets, offset) = (plain.octets, parser.pos());
    let expected = octets_at(octets, offset, 4);
    assert_read(rt, plain, "TTL", parser, Ttl::parse, expected);
    let expected = octets_at(octets, offset, 12);
    assert_read(
        rt,
        plain,
        "header section",
        parser,
        HeaderSection::parse,
        expected,
    );
    let rest = octets.get(offset..).unwrap_or(b"");
    let name = Name::from_octets(rest).plain();
    assert_same(rt, plain, "whole name", name, whole_name(rest));
}

/// What is skipped up to an offset, or why it can't be skipped.
fn skipped(end: Result<usize, ParseError>) -> Located<()> {
    match end {
        Ok(end) => Ok(((), end)),
        Err(error) => Err(error),
    }
}

/// Checks what is skipped at this offset.
fn assert_skips<'a>(rt: &impl Abort, plain: &Plain<'a>, parser: Parser<'a>) {
    let (octets, offset) = (plain.octets, parser.pos());
    let expected = skipped(name_end(octets, offset));
    assert_read(
        rt,
        plain,
        "skipped name",
        parser,
        ParsedName::skip,
        expected,
    );
    let expected = skipped(entry_end(octets, EntryKind::Question, offset));
    assert_read(
        rt,
        plain,
        "skipped question",
        parser,
        Question::skip,
        expected,
    );
    let expected = skipped(entry_end(octets, EntryKind::Record, offset));
    assert_read(
        rt,
        plain,
        "skipped record",
        parser,
        ParsedRecord::skip,
        expected,
    );
}

/// Reads and skips at each offset up to the end.
pub(crate) fn assert_walks(rt: &impl Abort, plain: &Plain<'_>) {
    for offset in 0..=plain.octets.len() {
        let mut parser = Parser::new(plain.octets);
        parser.seek(offset).expect(rt, plain.name);
        assert_entries(rt, plain, parser);
        assert_headers(rt, plain, parser);
        assert_fixed(rt, plain, parser);
        assert_skips(rt, plain, parser);
        assert_data(rt, plain, parser);
    }
}
