//! Assertions, and values that many tests use. The `row` of an assertion is the name of a row, or
//! says what a test compares.
use dns_read::{Message, RecordSection};
use std::process::Abort;

/// Fails unless the condition holds.
pub(crate) fn assert_holds(rt: &impl Abort, row: &str, holds: bool) {
    assert!(rt; holds, "{row}");
}

/// Fails unless the octets equal the expected ones.
pub(crate) fn assert_octets(rt: &impl Abort, row: &str, octets: &[u8], expected: &[u8]) {
    assert!(rt; octets == expected, "{row}: {octets:?}");
}

/// The message in these octets.
pub(crate) fn message_of<'a>(rt: &impl Abort, octets: &'a [u8]) -> Message<&'a [u8]> {
    Message::from_octets(octets).expect(rt, "a message")
}

/// The answer section of a message whose questions can be skipped.
pub(crate) fn answers_of<'a>(rt: &impl Abort, message: &'a Message<&[u8]>) -> RecordSection<'a> {
    message.answer().expect(rt, "an answer section")
}
