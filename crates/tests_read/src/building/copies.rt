//! Records that are copied from one message into another.
use crate::asserts::{assert_holds, assert_octets, message_of};
use crate::building::asserts::over;
use arrayvec::ArrayVec;
use dns_build::{
    AdditionalBuilder, AnswerBuilder, CopyRecords, CopyRecordsError, PushError, copy_records,
};
use dns_data::Cname;
use dns_item::{ParsedRecord, Record};
use dns_wire::{FlattenInto, Name, ParseError, ParsedName};
use std::alloc::Global;
use std::process::Abort;

/// One answer, foo.example.com. 86000 IN CNAME baz.example.com., and one authority record,
/// bar.example.com. 86000 IN NS baz.example.com.
static SOURCE: [u8; 100] =
    *b"\x00\x00\x00\x00\x00\x00\x00\x01\x00\x01\x00\x00\x03foo\x07example\x03com\x00\x00\x05\x00\x01\x00\x01\x4f\xf0\x00\x11\x03baz\x07example\x03com\x00\x03bar\x07example\x03com\x00\x00\x02\x00\x01\x00\x01\x4f\xf0\x00\x11\x03baz\x07example\x03com\x00";

/// The answer of `SOURCE` alone.
static ANSWER: [u8; 56] =
    *b"\x00\x00\x00\x00\x00\x00\x00\x01\x00\x00\x00\x00\x03foo\x07example\x03com\x00\x00\x05\x00\x01\x00\x01\x4f\xf0\x00\x11\x03baz\x07example\x03com\x00";

type CnameRecord<'a> = Record<ParsedName<'a>, Cname<ParsedName<'a>>>;

/// The record with its RDATA, if it is a CNAME record.
fn keep_cname(shown: ParsedRecord<'_>) -> Option<CnameRecord<'_>> {
    shown.into_record().ok().flatten()
}

/// A name of its own, which borrows nothing.
type OwnName = Name<ArrayVec<u8, 255>>;

/// The same, with names of its own.
fn keep_own_cname(
    alloc: Global,
    shown: ParsedRecord<'_>,
) -> Option<Record<OwnName, Cname<OwnName>>> {
    let record = shown.into_record::<Cname<ParsedName<'_>>>().ok()?;
    record?.try_flatten_into(alloc).ok()
}

/// A target with the capacity for `ANSWER`.
type Target = ArrayVec<u8, 56>;

/// A builder at the answer section of an empty message.
fn answers(rt: &impl Abort) -> AnswerBuilder<Target> {
    over(rt, ArrayVec::new()).answer()
}

/// Fails unless the copy is `ANSWER`.
fn assert_copied(
    rt: &impl Abort,
    row: &str,
    copied: Result<AdditionalBuilder<Target>, CopyRecordsError>,
) {
    let copied = copied.expect(rt, row);
    assert_octets(rt, row, copied.as_slice(), &ANSWER);
}

/// Copies the CNAME records of a message. By the trait's call, the closure gives what borrows
/// nothing from the message. A copy of all records, over each target, is in the module `memory` of
/// `tests_message`.
#[test]
fn copies_the_records_of_a_message(rt: HostRuntime) {
    let alloc = rt.alloc();
    let source = message_of(&rt, &SOURCE);
    let copied = copy_records(&source, answers(&rt), keep_cname);
    assert_copied(&rt, "Copy records: the CNAME records", copied);
    let copied = source.copy_records(answers(&rt), |shown| keep_own_cname(alloc, shown));
    assert_copied(&rt, "Copy records: by the trait", copied);
}

/// Errors, and the texts of their parts.
const ERRORS: &[(CopyRecordsError, &str)] = &[
    (
        CopyRecordsError::Push(PushError::LimitExceeded),
        "limit exceeded",
    ),
    (
        CopyRecordsError::Push(PushError::CountOverflow),
        "counter overflow",
    ),
    (
        CopyRecordsError::Push(PushError::ShortBuf),
        "buffer size exceeded",
    ),
    (
        CopyRecordsError::Push(PushError::OutOfMemory),
        "out of memory",
    ),
    (
        CopyRecordsError::Parse(ParseError::ShortInput),
        "unexpected end of input",
    ),
];

#[test]
fn an_error_has_the_text_of_its_part(rt: HostRuntime) {
    for (error, text) in ERRORS {
        let shown = format!(in rt.alloc(); "{error}").expect(&rt, text);
        assert_holds(&rt, text, shown.as_str() == *text);
    }
}
