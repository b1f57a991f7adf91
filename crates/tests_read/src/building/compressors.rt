//! Messages over compressors: what a refused push removes from the compression table, capacities
//! that are exceeded, and many names. Which names become pointers is in the cases of `cases_runs`.
ghost use Rattle.std.specs.Prelude.{◌<◌};

use crate::asserts::{assert_holds, assert_octets};
use crate::building::asserts::{EXAMPLE_COM, ROOT, over};
use crate::building::steps::Answer::{Done, ShortBuf};
use crate::building::steps::{Call, Case, EMPTY, push_question, run};
use arrayvec::ArrayVec;
use dns_build::{MessageBuilder, QuestionBuilder};
use dns_code::Rtype;
use dns_target::{
    FingerprintCompressor, HashCompressor, StaticCompressor, StreamTarget, TreeCompressor,
};
use dns_wire::{AppendError, CloneTarget, Composer, Name};
use std::alloc::Global;
use std::process::Abort;

const WWW: &[u8] = b"\x03www\x07example\x03com\x00";

static REFUSED_RECORD: Case = Case {
    name: "A refused record forgets only itself",
    questions: &[(EXAMPLE_COM, Done, 29, b"")],
    answers: &[
        (Call::Opaque(WWW, 30), ShortBuf, 29, b""),
        (Call::Opaque(ROOT, 0), Done, 40, b""),
        (Call::Opaque(WWW, 0), Done, 56, b"\x03www\xC0\x0C"),
    ],
    start: b"\x00\x00\x00\x00\x00\x01\x00\x02\x00\x00\x00\x00",
    ..EMPTY
};

#[test]
fn forgets_a_refused_record(rt: HostRuntime) {
    let alloc = rt.alloc();
    let target = StaticCompressor::new(ArrayVec::<u8, 60>::new());
    run(&rt, target, &REFUSED_RECORD);
    let target = TreeCompressor::new(alloc, ArrayVec::<u8, 60>::new());
    run(&rt, target, &REFUSED_RECORD);
    let target = HashCompressor::new(alloc, ArrayVec::<u8, 60>::new());
    run(&rt, target, &REFUSED_RECORD);
}

/// An address of example.com.
const ADDRESS: Call = Call::Address(EXAMPLE_COM, 3600, [203, 0, 113, 1]);

/// The pushes of a positive response if the question doesn't fit.
static NO_QUESTION: Case = Case {
    name: "No room for the question",
    questions: &[(EXAMPLE_COM, ShortBuf, 12, b"")],
    answers: &[(ADDRESS, ShortBuf, 12, b"")],
    start: &[0; 12],
    ..EMPTY
};

/// The pushes of a positive response if the answer doesn't fit.
static NO_ANSWER: Case = Case {
    name: "No room for the answer",
    questions: &[(EXAMPLE_COM, Done, 29, b"")],
    answers: &[(ADDRESS, ShortBuf, 29, b"")],
    start: b"\x00\x00\x00\x00\x00\x01\x00\x00\x00\x00\x00\x00",
    ..EMPTY
};

/// The pushes of a positive response if all fit.
static CAPACITY_FOR_ALL: Case = Case {
    name: "Room for all",
    header: [0, 0, 0x81, 0xA0],
    questions: &[(EXAMPLE_COM, Done, 29, EXAMPLE_COM)],
    answers: &[(ADDRESS, Done, 45, b"\xC0\x0C")],
    start: b"\x00\x00\x81\xA0\x00\x01\x00\x01\x00\x00\x00\x00\x07example\x03com\x00\x00\x01\x00\x01\xC0\x0C\x00\x01\x00\x01\x00\x00\x0E\x10\x00\x04\xCB\x00\x71\x01",
    ..EMPTY
};

/// Makes the calls of a positive response twice on one target.
fn assert_kept<T: Composer>(rt: &impl Abort, mut target: T) {
    for _ in 0..2 {
        run(rt, &mut target, &CAPACITY_FOR_ALL);
        assert_octets(
            rt,
            "a target that is kept",
            target.as_slice(),
            CAPACITY_FOR_ALL.start,
        );
    }
}

#[test]
fn writes_twice_to_a_target_that_is_kept(rt: HostRuntime) {
    let target = StaticCompressor::new(ArrayVec::<u8, 45>::new());
    assert_kept(&rt, target);
}

/// Fails unless the header exceeds the capacity of the target.
fn assert_no_header<T: Composer>(rt: &impl Abort, row: &str, target: T) {
    let refused = MessageBuilder::from_target(target).err();
    assert_holds(rt, row, refused == Some(AppendError::ShortBuf));
}

/// Makes the pushes of a positive response on a static compressor over an array of N octets.
fn assert_within<const N: usize>(rt: &impl Abort)
    requires { N < 64 }
{
    let target = StaticCompressor::new(ArrayVec::<u8, N>::new());
    match N {
        0..12 => assert_no_header(rt, "No room for the header", target),
        12..29 => run(rt, target, &NO_QUESTION),
        29..45 => run(rt, target, &NO_ANSWER),
        _ => run(rt, target, &CAPACITY_FOR_ALL),
    }
}

/// The same for each of four numbers: a generic function is proved once.
fn assert_within_four<const A: usize, const B: usize, const C: usize, const D: usize>(
    rt: &impl Abort,
)
    requires a { A < 64 }
    requires b { B < 64 }
    requires c { C < 64 }
    requires d { D < 64 }
{
    assert_within::<A>(rt);
    assert_within::<B>(rt);
    assert_within::<C>(rt);
    assert_within::<D>(rt);
}

/// No room for the header, No room for the question, No room for the answer, Room for all: for
/// each N up to 47. No room for prefix or header: over an array in a stream target.
#[test]
fn refuses_what_exceeds_the_capacity(rt: HostRuntime) {
    assert_within_four::<0, 1, 2, 3>(&rt);
    assert_within_four::<4, 5, 6, 7>(&rt);
    assert_within_four::<8, 9, 10, 11>(&rt);
    assert_within_four::<12, 13, 14, 15>(&rt);
    assert_within_four::<16, 17, 18, 19>(&rt);
    assert_within_four::<20, 21, 22, 23>(&rt);
    assert_within_four::<24, 25, 26, 27>(&rt);
    assert_within_four::<28, 29, 30, 31>(&rt);
    assert_within_four::<32, 33, 34, 35>(&rt);
    assert_within_four::<36, 37, 38, 39>(&rt);
    assert_within_four::<40, 41, 42, 43>(&rt);
    assert_within_four::<44, 45, 46, 47>(&rt);
    let target = StreamTarget::new(ArrayVec::<u8, 13>::new());
    let target = target.expect(&rt, "a capacity for the length");
    let row = "No room for prefix or header: eleven octets after the length";
    assert_no_header(&rt, row, target);
}

/// Pushes the questions for h0.example.com. to h1999.example.com.
fn push_two_thousand<T: Composer>(
    rt: &impl Abort,
    alloc: Global,
    builder: &mut QuestionBuilder<T>,
) {
    for number in 0..2000_u16 {
        let text = format!(in alloc; "h{number}.example.com.").expect(rt, "memory");
        let name = Name::vec_from_str(alloc, text.as_str()).expect(rt, "a name");
        push_question(builder, name, Rtype::A).expect(rt, "memory");
    }
}

/// Pushes these questions, clones the builder, rewinds, and pushes them again.
fn assert_pushed_again<T: CloneTarget>(rt: &impl Abort, alloc: Global, target: T) {
    let mut builder = over(rt, target).question();
    push_two_thousand(rt, alloc, &mut builder);
    let clone = builder.clone().expect(rt, "memory");
    builder.rewind();
    push_two_thousand(rt, alloc, &mut builder);
    let row = "Two thousand questions";
    assert_octets(rt, row, builder.as_slice(), clone.as_slice());
}

#[test]
fn two_thousand_questions_are_pushed_again(rt: HostRuntime) {
    let alloc = rt.alloc();
    let target = TreeCompressor::new(alloc, Vec::new(alloc));
    assert_pushed_again(&rt, alloc, target);
    let target = HashCompressor::new(alloc, Vec::new(alloc));
    assert_pushed_again(&rt, alloc, target);
    let target = FingerprintCompressor::new(alloc, Vec::new(alloc));
    assert_pushed_again(&rt, alloc, target);
}
