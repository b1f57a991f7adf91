//! Builders: limits and counts, what they lend and give, conversions and clones.
use crate::asserts::{assert_holds, assert_octets};
use crate::building::asserts::{ROOT, has_limit, name_of, over};
use crate::building::steps::Answer::{Done, LimitExceeded, ShortBuf};
use crate::building::steps::{Call, Case, EMPTY, push_question, run};
use arrayvec::ArrayVec;
use dns_build::{
    AdditionalBuilder, AnswerBuilder, AuthorityBuilder, MessageBuilder, QuestionBuilder,
    RecordSectionBuilder,
};
use dns_code::Rtype;
use dns_data::A;
use dns_read::Message;
use dns_target::{FingerprintCompressor, HashCompressor, StaticCompressor, TreeCompressor};
use dns_wire::{CloneTarget, Composer, FreezeBuilder, Name};
use std::convert::AsSlice;
use std::process::Abort;

/// Empty message: twelve zero octets, and no item in any section.
#[test]
fn builds_an_empty_message(rt: HostRuntime) {
    let builder = MessageBuilder::new_vec(rt.alloc()).expect(&rt, "memory");
    assert_octets(&rt, "the octets", builder.as_slice(), &[0; 12]);
    let message = builder.as_message();
    let is_empty = message.question().next().is_none() && message.iter().next().is_none();
    assert_holds(&rt, "no item", is_empty);
}

/// A limit below the length of the content, and a full target of 100 octets.
static ANSWERS: Case = Case {
    name: "Limit below the content",
    answers: &[
        (Call::Opaque(ROOT, 39), Done, 62, b""),
        (Call::Limit(25), Done, 62, b""),
        (Call::Opaque(ROOT, 0), LimitExceeded, 62, b""),
        (Call::NoLimit, Done, 62, b""),
        (Call::Opaque(ROOT, 27), Done, 100, b""),
        (Call::Opaque(ROOT, 0), ShortBuf, 100, b""),
    ],
    start: b"\x00\x00\x00\x00\x00\x00\x00\x02\x00\x00\x00\x00",
    ..EMPTY
};

#[test]
fn refuses_answers(rt: HostRuntime) {
    run(&rt, ArrayVec::<u8, 100>::new(), &ANSWERS);
}

/// A message with the ID 1 and two addresses of the root.
static ANSWERED: [u8; 42] =
    *b"\x00\x01\x00\x00\x00\x00\x00\x02\x00\x00\x00\x00\x00\x00\x01\x00\x01\x00\x00\x0E\x10\x00\x04\xCB\x00\x71\x01\x00\x00\x01\x00\x01\x00\x00\x0E\x10\x00\x04\xCB\x00\x71\x01";

/// A builder for `ANSWERED`, over an array.
fn answered(rt: &impl Abort) -> AnswerBuilder<ArrayVec<u8, 42>> {
    let mut builder = over(rt, ArrayVec::new()).answer();
    let mut header = builder.header();
    header.set_id(1);
    builder.set_header(header);
    let address = (Name::root_slice(), 3600, A::from_octets(203, 0, 113, 1));
    builder.push_ref(&address).expect(rt, "a capacity");
    let pushed = RecordSectionBuilder::push(&mut builder, address);
    pushed.expect(rt, "a capacity");
    builder
}

#[test]
fn lends_and_gives_what_it_has(rt: HostRuntime) {
    let builder = answered(&rt);
    let target: &ArrayVec<u8, 42> = builder.as_ref();
    let lent = [
        target.as_slice(),
        builder.as_target().as_slice(),
        AsSlice::as_slice(&builder),
    ];
    assert_holds(&rt, "its octets", lent == [ANSWERED.as_slice(); 3]);
    let lent = builder.as_message();
    assert_octets(&rt, "as_message", lent.as_slice(), &ANSWERED);
    let message = Message::from(builder);
    assert_octets(&rt, "Message::from", message.as_slice(), &ANSWERED);
}

/// Converts the builder through the sections and back.
#[test]
fn converts_between_sections(rt: HostRuntime) {
    let builder = AdditionalBuilder::from(AuthorityBuilder::from(answered(&rt)));
    let builder = AnswerBuilder::from(AuthorityBuilder::from(builder));
    let builder = AnswerBuilder::from(AdditionalBuilder::from(builder));
    let row = "through record sections";
    assert_octets(&rt, row, builder.as_slice(), &ANSWERED);
    let builder = AnswerBuilder::from(QuestionBuilder::from(builder));
    let builder = QuestionBuilder::from(MessageBuilder::from(builder));
    let builder = AuthorityBuilder::from(MessageBuilder::from(builder));
    let header = b"\x00\x01\x00\x00\x00\x00\x00\x00\x00\x00\x00\x00";
    assert_octets(&rt, "back to the start", builder.as_slice(), header);
}

/// A message with the question a. A.
static FIRST: [u8; 19] =
    *b"\x00\x00\x00\x00\x00\x01\x00\x00\x00\x00\x00\x00\x01a\x00\x00\x01\x00\x01";

/// Like `FIRST`, with the same question again.
static TWICE: [u8; 26] =
    *b"\x00\x00\x00\x00\x00\x02\x00\x00\x00\x00\x00\x00\x01a\x00\x00\x01\x00\x01\x01a\x00\x00\x01\x00\x01";

/// Like `TWICE`, with a pointer.
static COMPRESSED: [u8; 25] =
    *b"\x00\x00\x00\x00\x00\x02\x00\x00\x00\x00\x00\x00\x01a\x00\x00\x01\x00\x01\xC0\x0C\x00\x01\x00\x01";

/// Pushes the question a. A.
fn push_first<T: Composer>(rt: &impl Abort, builder: &mut QuestionBuilder<T>) {
    push_question(builder, name_of(rt, b"\x01a\x00"), Rtype::A).expect(rt, "a question");
}

/// Clones a builder with the question a. A and a limit, and pushes the same question onto the clone,
/// which has these octets then.
fn assert_clones<T: CloneTarget>(
    rt: &impl Abort,
    row: &str,
    builder: MessageBuilder<T>,
    octets: &[u8],
) {
    let mut builder = builder.question();
    push_first(rt, &mut builder);
    builder.set_push_limit(500);
    let mut clone = builder.clone().expect(rt, row);
    assert_holds(rt, row, has_limit(&clone, 500));
    push_first(rt, &mut clone);
    assert_octets(rt, row, clone.as_slice(), octets);
    assert_octets(rt, row, builder.as_slice(), &FIRST);
}

/// Clones builders over a compressor. Without items, one gives an empty message.
fn assert_compressor<T: CloneTarget + FreezeBuilder>(rt: &impl Abort, row: &str, target: T) {
    let builder = over(rt, target);
    let empty = builder.clone().expect(rt, row).into_message();
    assert_octets(rt, row, empty.as_slice(), &[0; 12]);
    assert_clones(rt, row, builder, &COMPRESSED);
}

/// Clones: over targets that don't compress, and a message.
#[test]
fn clones_over_plain_targets(rt: HostRuntime) {
    let alloc = rt.alloc();
    let builder = over(&rt, ArrayVec::<u8, 26>::new());
    assert_clones(&rt, "an array vector", builder, &TWICE);
    let stream = MessageBuilder::new_stream_vec(alloc).expect(&rt, "memory");
    assert_clones(&rt, "a stream target", stream, &TWICE);
    let builder = over(&rt, Vec::new(alloc));
    assert_clones(&rt, "a vector", builder, &TWICE);
    let mut builder = over(&rt, Vec::new(alloc)).question();
    push_first(&rt, &mut builder);
    let message = builder.into_message();
    let clone = message.clone().expect(&rt, "memory");
    let octets = [message.as_slice(), clone.as_slice()];
    assert_holds(&rt, "a message", octets == [FIRST.as_slice(); 2]);
}

/// Clones: over each compressor. Each gives its message.
#[test]
fn clones_over_compressors(rt: HostRuntime) {
    let alloc = rt.alloc();
    let target = StaticCompressor::new(Vec::new(alloc));
    assert_compressor(&rt, "a static compressor", target);
    let target = TreeCompressor::new(alloc, Vec::new(alloc));
    assert_compressor(&rt, "a tree compressor", target);
    let target = HashCompressor::new(alloc, Vec::new(alloc));
    assert_compressor(&rt, "a hash compressor", target);
    let target = FingerprintCompressor::new(alloc, Vec::new(alloc));
    assert_compressor(&rt, "a fingerprint compressor", target);
}
