//! Messages that are built after their length, as on a TCP stream.
use crate::asserts::{assert_holds, assert_octets};
use crate::building::asserts::{EXAMPLE_COM, ROOT, over};
use crate::building::steps::Answer::{Done, ShortBuf};
use crate::building::steps::{Call, Case, EMPTY, run_on};
use arrayvec::ArrayVec;
use dns_build::MessageBuilder;
use dns_target::{StaticCompressor, StreamTarget};
use dns_wire::Composer;
use std::process::Abort;

/// Makes the calls of a case. Fails unless this length precedes the message then.
fn run_after<T: Composer>(
    rt: &impl Abort,
    builder: MessageBuilder<StreamTarget<T>>,
    case: &Case,
    prefix: &[u8],
) {
    let target = run_on(rt, builder, case);
    let is_it = target.as_stream_slice().starts_with(prefix);
    assert_holds(rt, case.name, is_it);
}

/// Two questions for the root, of which one fits.
static FULL_ARRAY: Case = Case {
    name: "Full stream target of fixed size",
    questions: &[(ROOT, Done, 17, b""), (ROOT, ShortBuf, 17, b"")],
    start: b"\x00\x00\x00\x00\x00\x01\x00\x00\x00\x00\x00\x00",
    ..EMPTY
};

/// A record with which the message would have more than 65,535 octets.
static TOO_LONG: Case = Case {
    name: "Full stream message, a record that exceeds it",
    answers: &[(Call::Opaque(ROOT, 65_513), ShortBuf, 12, b"")],
    start: &[0; 12],
    ..EMPTY
};

/// Like `TOO_LONG`, followed by a record with which the message has 65,535 octets.
static FULL: Case = Case {
    name: "Full stream message",
    answers: &[
        (Call::Opaque(ROOT, 65_513), ShortBuf, 12, b""),
        (Call::Opaque(ROOT, 65_512), Done, 65_535, b""),
    ],
    start: b"\x00\x00\x00\x00\x00\x00\x00\x01\x00\x00\x00\x00",
    ..EMPTY
};

/// An array, and messages on builders that are made by `new_stream_vec`, and by `from_target`.
#[test]
fn fills_arrays_and_messages(rt: HostRuntime) {
    let target = StreamTarget::new(ArrayVec::<u8, 20>::new());
    let builder = over(&rt, target.expect(&rt, "a capacity for the length"));
    run_after(&rt, builder, &FULL_ARRAY, b"\x00\x11");
    let alloc = rt.alloc();
    for (case, prefix) in [(&TOO_LONG, b"\x00\x0C"), (&FULL, b"\xFF\xFF")] {
        let builder = MessageBuilder::new_stream_vec(alloc).expect(&rt, "memory");
        run_after(&rt, builder, case, prefix);
        let target = StreamTarget::new_vec(alloc).expect(&rt, "memory");
        run_after(&rt, over(&rt, target), case, prefix);
    }
}

/// A message about example.com. with a record in each section, over a static compressor over a
/// stream target. What is read back is in the cases of `cases_runs`.
static MESSAGE: [u8; 91] =
    *b"\x00\x00\x01\x00\x00\x01\x00\x02\x00\x01\x00\x01\x07example\x03com\x00\x00\x01\x00\x01\xC0\x0C\x00\x01\x00\x01\x00\x01\x51\x80\x00\x04\xC0\x00\x02\x01\xC0\x0C\x00\x01\x00\x01\x00\x01\x51\x80\x00\x04\xC0\x00\x02\x02\xC0\x0C\x00\x02\x00\x01\x00\x00\x00\x00\x00\x02\xC0\x0C\xC0\x0C\x00\x01\x00\x01\x00\x01\x51\x80\x00\x04\xC0\x00\x02\x01";

/// The calls that build `MESSAGE`.
static CALLS: Case = Case {
    name: "Static compressor over a stream",
    header: [0, 0, 1, 0],
    questions: &[(EXAMPLE_COM, Done, 29, EXAMPLE_COM)],
    answers: &[
        (
            Call::Address(EXAMPLE_COM, 86_400, [192, 0, 2, 1]),
            Done,
            45,
            b"\xC0\x0C",
        ),
        (
            Call::Address(EXAMPLE_COM, 86_400, [192, 0, 2, 2]),
            Done,
            61,
            b"\xC0\x0C",
        ),
    ],
    authorities: &[(
        Call::Server(EXAMPLE_COM, 0, EXAMPLE_COM),
        Done,
        75,
        b"\xC0\x0C",
    )],
    additionals: &[(
        Call::Address(EXAMPLE_COM, 86_400, [192, 0, 2, 1]),
        Done,
        91,
        b"\xC0\x0C",
    )],
    start: b"\x00\x00\x01\x00\x00\x01\x00\x02\x00\x01\x00\x01",
};

#[test]
fn compresses_after_the_length(rt: HostRuntime) {
    let target = StreamTarget::new_vec(rt.alloc()).expect(&rt, "memory");
    let builder = over(&rt, StaticCompressor::new(target));
    let target = run_on(&rt, builder, &CALLS);
    let stream = target.as_target();
    let is_prefix = stream.as_stream_slice().starts_with(b"\x00\x5B");
    assert_holds(&rt, CALLS.name, is_prefix);
    assert_octets(&rt, CALLS.name, stream.as_dgram_slice(), &MESSAGE);
}
