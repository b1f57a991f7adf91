//! Untrusted input: messages with replaced octets, messages that are cut, and random octets. What
//! is read, skipped, searched, copied and shown is compared with what `tests_plain` reads, and with
//! RDATA and searches that are written here from RFC 1035 and RFC 6891 alone.
//!
//! The tests are here, over `messages`. `data`, `searches`, `sections` and `walks` compare what
//! they are named after, by `asserts`. `plain` has what `tests_plain` reads; `plain_data`,
//! `plain_searches` and `plain_lines` are the RDATA, the searches and the printed lines. A failure
//! prints the name of the message.

mod asserts;
mod buffer;
mod data;
mod given;
mod messages;
mod plain;
mod plain_data;
mod plain_lines;
mod plain_searches;
mod searches;
mod sections;
mod walks;

use crate::hostile::asserts::assert_same;
use crate::hostile::messages::{
    BOUNDS, NAME_IN_DATA, OPT, POSITIVE_RESPONSE, REPLACEMENTS, long_question, random_message,
};
use crate::hostile::plain::Plain;
use crate::hostile::plain_lines::lines_of;
use crate::hostile::searches::{
    assert_copies, assert_distinguished, assert_question_searches, assert_record_searches,
};
use crate::hostile::sections::{assert_iter, assert_questions, assert_sections};
use crate::hostile::walks::assert_walks;
use arrayvec::ArrayVec;
use dns_read::Message;
use dnsmsg_tool::tool;
use std::alloc::Global;
use std::process::Abort;
use std::{slice, str};

/// The hexadecimal digits.
const DIGITS: &[u8; 16] = b"0123456789abcdef";

/// The octets in hexadecimal.
fn digits_of(octets: &[u8]) -> ArrayVec<u8, 1024> {
    let mut digits = ArrayVec::new();
    for octet in octets {
        let octet = usize::from(*octet);
        let _ = digits.try_extend_from_slice(&[DIGITS[octet / 16], DIGITS[octet % 16]]);
    }
    digits
}

/// Fails unless `dnsmsg show` prints the expected lines.
fn assert_shows(rt: &impl Abort, alloc: Global, plain: &Plain<'_>) {
    let word = String::from_str(alloc, "show").expect(rt, "memory");
    let (words, digits) = (slice::from_ref(&word), digits_of(plain.octets));
    let mut output = Vec::new(alloc);
    let status = tool(alloc, words, digits.as_slice(), &mut output);
    let text = str::from_utf8(&output).expect(rt, plain.name);
    let expected = lines_of(alloc, plain);
    assert_same(rt, plain, "text", (status, text), (0, expected.as_str()));
}

/// Fails unless each result of the library is that of the plain reader.
fn assert_all(rt: &impl Abort, alloc: Global, name: &str, octets: &[u8]) {
    let message = Message::from_octets(octets).expect(rt, name);
    let plain = Plain::of(rt, alloc, name, octets);
    assert_questions(rt, &message, &plain);
    assert_sections(rt, &message, &plain);
    assert_iter(rt, &message, &plain);
    assert_question_searches(rt, &message, &plain);
    assert_record_searches(rt, &message, &plain);
    assert_distinguished(rt, alloc, &message, &plain);
    assert_copies(rt, alloc, &message, &plain);
    assert_walks(rt, &plain);
    assert_shows(rt, alloc, &plain);
}

/// Replaces each octet of a message in turn.
fn assert_replaced<const N: usize>(rt: &impl Abort, alloc: Global, name: &str, octets: [u8; N]) {
    for offset in 0..N {
        for octet in REPLACEMENTS {
            let mut replaced = octets;
            replaced[offset] = octet;
            assert_all(rt, alloc, name, &replaced);
        }
    }
}

/// OPT with one option: each octet is replaced in turn.
#[test]
fn reads_an_option_with_replaced_octets(rt: HostRuntime) {
    assert_replaced(&rt, rt.alloc(), "OPT with one option, replaced", *OPT);
}

/// Name in data: each octet is replaced in turn.
#[test]
fn reads_a_name_in_data_with_replaced_octets(rt: HostRuntime) {
    assert_replaced(&rt, rt.alloc(), "Name in data, replaced", *NAME_IN_DATA);
}

/// Cut in the header, Cut in the question, Cut in the answer: the message is cut after each octet.
/// Without a header section there is no message.
#[test]
fn reads_messages_that_are_cut(rt: HostRuntime) {
    for len in 0..12 {
        let refused = Message::from_octets(&POSITIVE_RESPONSE[..len]).is_err();
        assert!(rt; refused, "cut after {len} octets");
    }
    for len in 12..=45 {
        let octets = &POSITIVE_RESPONSE[..len];
        assert_all(&rt, rt.alloc(), "Positive response, cut", octets);
    }
}

/// Longest name, One octet too long: names of at most 255 octets, and of more. And other messages at
/// a bound.
#[test]
fn reads_messages_at_the_bounds(rt: HostRuntime) {
    let alloc = rt.alloc();
    for last in 59..=63 {
        assert_all(&rt, alloc, "a long question", &long_question(last));
    }
    for bound in BOUNDS {
        assert_all(&rt, alloc, bound.name, bound.octets);
    }
}

#[test]
fn reads_messages_drawn_at_random(rt: HostRuntime) {
    for seed in 1..=64 {
        let message = random_message(seed);
        assert_all(&rt, rt.alloc(), "random octets", message.as_slice());
    }
}
