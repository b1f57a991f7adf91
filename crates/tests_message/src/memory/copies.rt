//! Records that are copied, into another builder if an allocation failed.
use crate::asserts::assert_octets;
use crate::memory::fresh::{Fresh, started};
use dns_message::builder::{AdditionalBuilder, CopyRecordsError, PushError, copy_records};
use dns_message::data::UnknownRecordData;
use dns_message::message::Message;
use dns_message::name::ParsedName;
use dns_message::record::{ParsedRecord, Record};
use std::alloc::Global;
use std::process::Abort;

/// One answer, foo.example.com. 86000 IN CNAME baz.example.com., and one authority record,
/// bar.example.com. 86000 IN NS baz.example.com.
pub(crate) const SOURCE: &[u8; 100] =
    b"\x00\x00\x00\x00\x00\x00\x00\x01\x00\x01\x00\x00\x03foo\x07example\x03com\x00\x00\x05\x00\x01\x00\x01\x4F\xF0\x00\x11\x03baz\x07example\x03com\x00\x03bar\x07example\x03com\x00\x00\x02\x00\x01\x00\x01\x4F\xF0\x00\x11\x03baz\x07example\x03com\x00";

type AnyRecord<'a> = Record<ParsedName<'a>, UnknownRecordData<&'a [u8]>>;

/// The record with its RDATA, whatever its type.
fn keep_any(shown: ParsedRecord<'_>) -> Option<AnyRecord<'_>> {
    shown.into_any_record().ok()
}

/// Copies the records of a message into an empty one.
fn copy<R: Abort, T: Fresh>(
    rt: &R,
    alloc: Global,
    source: &Message<&[u8]>,
) -> Result<AdditionalBuilder<T>, CopyRecordsError> {
    copy_records(source, started(rt, alloc).answer(), keep_any)
}

/// Fails unless the copy of all records of `SOURCE` has these octets.
pub(crate) fn assert_copies<R: Abort, T: Fresh>(rt: &R, alloc: Global, expected: &[u8]) {
    let source = Message::from_slice(SOURCE).expect(rt, "a message");
    let copied: AdditionalBuilder<T> = match copy(rt, alloc, &source) {
        Err(CopyRecordsError::Push(PushError::OutOfMemory)) => {
            assert_octets(rt, "source", source.as_slice(), SOURCE);
            copy(rt, alloc, &source).expect(rt, "a copy")
        }
        answer => answer.expect(rt, "a copy"),
    };
    assert_octets(rt, "Copy records", copied.as_slice(), expected);
}
