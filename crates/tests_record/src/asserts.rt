//! Assertions, and values that many tests use. The `row` of an assertion is the name of a row of a
//! table, or says what a test compares.
use arrayvec::ArrayVec;
use dns_code::Rtype;
use dns_data::{ComposeRecordData, Opt, ParseRecordData, UnknownRecordData};
use dns_item::{ComposeQuestion, ComposeRecord, ParsedRecord};
use dns_message::builder::MessageBuilder;
use dns_message::message::Message;
use dns_message::target::StaticCompressor;
use dns_wire::Name;
use std::alloc::Global;
use std::cmp::Ordering;
use std::fmt::{Debug, Display};
use std::hash::{DefaultHasher, Hash, Hasher};
use std::process::Abort;

/// The uncompressed name in these octets.
pub(crate) fn name_of(rt: &impl Abort, octets: &'static [u8]) -> Name<&'static [u8]> {
    Name::from_octets(octets).expect(rt, "a name")
}

/// Opaque data.
pub(crate) fn opaque(
    rt: &impl Abort,
    rtype: Rtype,
    octets: &'static [u8],
) -> UnknownRecordData<&'static [u8]> {
    UnknownRecordData::from_octets(rtype, octets).expect(rt, "data")
}

/// The RDATA of an OPT record with these options.
pub(crate) fn options(rt: &impl Abort, octets: &'static [u8]) -> Opt<&'static [u8]> {
    Opt::from_octets(octets).expect(rt, "options")
}

/// Fails unless the value equals the expected one.
pub(crate) fn assert_same<T: PartialEq + Debug + Drop>(
    rt: &impl Abort,
    row: &str,
    value: T,
    expected: T,
) {
    assert_eq!(rt; value, expected, "{row}");
}

/// Fails unless the condition holds.
pub(crate) fn assert_holds(rt: &impl Abort, row: &str, holds: bool) {
    assert!(rt; holds, "{row}");
}

/// Fails unless the octets equal the expected ones.
pub(crate) fn assert_octets(rt: &impl Abort, row: &str, octets: &[u8], expected: &[u8]) {
    assert_same(rt, row, octets, expected);
}

/// Fails unless the question has these octets.
pub(crate) fn assert_question<Q: ComposeQuestion>(
    rt: &impl Abort,
    row: &str,
    question: &Q,
    expected: &[u8],
) {
    let mut target = ArrayVec::<u8, 64>::new();
    question.compose_question(&mut target).expect(rt, row);
    assert_octets(rt, row, target.as_slice(), expected);
}

/// Fails unless the record has these octets.
pub(crate) fn assert_record<R: ComposeRecord>(
    rt: &impl Abort,
    row: &str,
    record: &R,
    expected: &[u8],
) {
    let mut target = ArrayVec::<u8, 64>::new();
    record.compose_record(&mut target).expect(rt, row);
    assert_octets(rt, row, target.as_slice(), expected);
}

/// Fails unless the RDATA has these octets.
pub(crate) fn assert_data<D: ComposeRecordData>(
    rt: &impl Abort,
    row: &str,
    data: &D,
    expected: &[u8],
) {
    let mut target = ArrayVec::<u8, 64>::new();
    data.compose_rdata(&mut target).expect(rt, row);
    assert_octets(rt, row, target.as_slice(), expected);
}

/// Fails unless the canonical form of the RDATA has these octets.
pub(crate) fn assert_canonical_data<D: ComposeRecordData>(
    rt: &impl Abort,
    row: &str,
    data: &D,
    expected: &[u8],
) {
    let mut target = ArrayVec::<u8, 64>::new();
    data.compose_canonical_rdata(&mut target).expect(rt, row);
    assert_octets(rt, row, target.as_slice(), expected);
}

/// Fails unless the value is printed as `text`.
pub(crate) fn assert_prints<T: Display>(
    rt: &impl Abort,
    alloc: Global,
    row: &str,
    value: &T,
    text: &str,
) {
    let printed = value.to_string(alloc).expect(rt, row);
    assert_same(rt, row, printed.as_str(), text);
}

fn hash_of<T: Hash>(value: &T) -> u64 {
    let mut state = DefaultHasher::new();
    value.hash(&mut state);
    state.finish()
}

/// Fails unless the two values are equal, compare as equal, and have the same hash.
pub(crate) fn assert_alike<T: Ord + Hash>(rt: &impl Abort, row: &str, first: &T, second: &T) {
    let is_same = first == second && first.cmp(second) == Ordering::Equal;
    assert_holds(rt, row, is_same && hash_of(first) == hash_of(second));
}

/// Fails unless the first value precedes the second, and differs from it.
pub(crate) fn assert_less<T: Ord>(rt: &impl Abort, row: &str, first: &T, second: &T) {
    let is_less = first.cmp(second) == Ordering::Less;
    assert_holds(rt, row, is_less && first < second && first != second);
}

/// Fails unless the message with this answer has these octets, over a compressor.
pub(crate) fn assert_answer<R: ComposeRecord + Drop>(
    rt: &impl Abort,
    alloc: Global,
    row: &str,
    record: R,
    expected: &[u8],
) {
    let target = StaticCompressor::new(Vec::new(alloc));
    let builder = MessageBuilder::from_target(target).expect(rt, row);
    let mut builder = builder.answer();
    builder.push(record).expect(rt, row);
    assert_octets(rt, row, builder.as_slice(), expected);
}

/// The message in these octets.
pub(crate) fn message_of(rt: &impl Abort, octets: &'static [u8]) -> Message<&'static [u8]> {
    Message::from_slice(octets).expect(rt, "a message")
}

/// The first answer, if it can be read.
fn first_answer<'a>(message: &'a Message<&'a [u8]>) -> Option<ParsedRecord<'a>> {
    message.answer().ok()?.next()?.ok()
}

/// The RDATA of the first answer.
pub(crate) fn first_data<'a, D: ParseRecordData<'a> + Drop>(
    rt: &impl Abort,
    message: &'a Message<&'a [u8]>,
) -> D {
    let answer = first_answer(message).expect(rt, "an answer");
    let Ok(Some(record)) = answer.to_record::<D>() else {
        panic!(rt; "no data");
    };
    record.into_data()
}
