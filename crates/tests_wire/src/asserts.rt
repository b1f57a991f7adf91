//! Assertions, and values that many tests use. The `row` of an assertion is the name of a row of a
//! table, or says what a test compares.
use dns_wire::{Name, ParsedName, Parser};
use std::alloc::Global;
use std::fmt::{Debug, Display};
use std::process::Abort;

/// Fails unless the value equals the expected one.
pub(crate) fn assert_same<T: PartialEq + Debug + Drop>(
    rt: &impl Abort,
    row: &str,
    value: T,
    expected: T,
) {
    assert_eq!(rt; value, expected, "{row}");
}

/// Fails unless the octets equal the expected ones.
pub(crate) fn assert_octets(rt: &impl Abort, row: &str, octets: &[u8], expected: &[u8]) {
    assert_same(rt, row, octets, expected);
}

/// Fails unless the value is printed as `text`.
pub(crate) fn assert_prints<T: Display>(
    rt: &impl Abort,
    alloc: Global,
    row: &str,
    value: &T,
    text: &str,
) {
    let printed = value.to_string(alloc).expect(rt, row);
    assert_same(rt, row, printed.as_str(), text);
}

/// The uncompressed name in these octets.
pub(crate) fn name_of<'a>(rt: &impl Abort, octets: &'a [u8]) -> Name<&'a [u8]> {
    Name::from_octets(octets).expect(rt, "a name")
}

/// The name at offset `offset` of a message.
pub(crate) fn name_at<'a>(rt: &impl Abort, message: &'a [u8], offset: usize) -> ParsedName<'a> {
    let mut parser = parser_at(rt, message, offset);
    ParsedName::parse(&mut parser).expect(rt, "a name in a message")
}

/// A parser at offset `offset` of a message.
pub(crate) fn parser_at<'a>(rt: &impl Abort, message: &'a [u8], offset: usize) -> Parser<'a> {
    let mut parser = Parser::new(message);
    parser.seek(offset).expect(rt, "an offset in a message");
    parser
}
