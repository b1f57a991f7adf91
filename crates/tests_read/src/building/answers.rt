//! Answers that are started from a message: the header, the questions that can be read, and a
//! question that is refused.
use crate::asserts::{assert_holds, assert_octets, message_of};
use crate::building::asserts::over;
use arrayvec::ArrayVec;
use dns_build::{AnswerBuilder, MessageBuilder, PushError};
use dns_code::Rcode;
use std::process::Abort;

/// ID 0x1234, RD, a question for the A records of example.com., and one whose name is a pointer to
/// itself.
static UNREADABLE: [u8; 35] =
    *b"\x12\x34\x01\x00\x00\x02\x00\x00\x00\x00\x00\x00\x07example\x03com\x00\x00\x01\x00\x01\xC0\x1D\x00\x01\x00\x01";

/// Like `UNREADABLE`, but the second question is for the A records of example.net.
static READABLE: [u8; 46] =
    *b"\x12\x34\x01\x00\x00\x02\x00\x00\x00\x00\x00\x00\x07example\x03com\x00\x00\x01\x00\x01\x07example\x03net\x00\x00\x01\x00\x01";

/// An answer with the first question and the rcode REFUSED.
static REFUSED: [u8; 29] =
    *b"\x12\x34\x81\x05\x00\x01\x00\x00\x00\x00\x00\x00\x07example\x03com\x00\x00\x01\x00\x01";

/// Like `REFUSED`, with the rcode SERVFAIL.
static SERVFAIL: [u8; 29] =
    *b"\x12\x34\x81\x02\x00\x01\x00\x00\x00\x00\x00\x00\x07example\x03com\x00\x00\x01\x00\x01";

/// A target with the capacity for one question of `READABLE`, but not for two.
type Short = ArrayVec<u8, 40>;

/// A builder over such a target.
fn short(rt: &impl Abort) -> MessageBuilder<Short> {
    over(rt, ArrayVec::new())
}

/// Fails unless there is a builder, with the expected octets.
fn assert_builder(
    rt: &impl Abort,
    row: &str,
    builder: Option<AnswerBuilder<Short>>,
    expected: &[u8],
) {
    let builder = builder.expect(rt, row);
    assert_octets(rt, row, builder.as_slice(), expected);
}

/// The readable questions are pushed, up to one that is refused.
#[test]
fn starts_answers(rt: HostRuntime) {
    let message = message_of(&rt, &UNREADABLE);
    let given = short(&rt).start_answer(&message, Rcode::REFUSED).ok();
    assert_builder(&rt, "Start an answer", given, &REFUSED);
    let message = message_of(&rt, &READABLE);
    let given = short(&rt).try_start_answer(&message, Rcode::NOERROR).err();
    let row = "Start an answer without room: try_start_answer";
    assert_builder(&rt, row, given, &SERVFAIL);
    let given = Some(short(&rt).start_error(&message, Rcode::NOERROR));
    let row = "Start an answer without room: start_error";
    assert_builder(&rt, row, given, &SERVFAIL);
    let given = short(&rt).start_answer(&message, Rcode::NOERROR).err();
    let is_refused = matches!(given, Some(PushError::ShortBuf));
    let row = "Start an answer without room: start_answer";
    assert_holds(&rt, row, is_refused);
}
