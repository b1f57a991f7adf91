//! A list of calls some of which a stage lacks. Ten lists of calls that end with the same items are
//! in the cases of `cases_runs`; what they end with is here the plain encoding by `tests_plain`.
use crate::asserts::assert_octets;
use arrayvec::ArrayVec;
use dns_message::builder::MessageBuilder;
use dns_message::code::Rtype;
use dns_message::data::A;
use dns_message::name::Name;
use dns_message::script::{Call, OptPlan, Reply, Stage, run};
use dns_message::target::StaticCompressor;
use std::alloc::Global;
use std::process::Abort;
use tests_plain::{PlainItem, PlainMessage, PlainPart, PlainRule, encode};

type AddressCall = Call<(Name<[u8; 9]>, Rtype), (Name<[u8; 9]>, u32, A)>;

/// A letter for each call. `q a d` move to a stage, `Q` pushes a question, `A` an address, and `O`
/// an OPT record. `r` rewinds, `t` rewinds with TC.
const CALLS: &[u8] = b"QArtqAtOQaQOAdQO";

/// A letter for each reply: done or misplaced.
const REPLIES: &[u8] = b"mmmmdmmmddmmddmd";

/// The question, the address and the OPT record that were pushed.
const MESSAGE: &[u8] =
    b"\x00\x00\x00\x00\x00\x01\x00\x01\x00\x00\x00\x01\x07example\x00\x00\x01\x00\x01\xC0\x0C\x00\x01\x00\x01\x00\x00\x00\x3C\x00\x04\xC0\x00\x02\x01\x00\x00\x29\x04\xD0\x00\x00\x80\x00\x00\x00";

/// An OPT record with DO.
fn opt(alloc: Global) -> AddressCall {
    Call::PushOpt(OptPlan {
        udp_payload_size: 1232,
        rcode: None,
        version: 0,
        dnssec_ok: true,
        options: Vec::new(alloc),
    })
}

/// The call that a letter means.
fn call_of(rt: &impl Abort, alloc: Global, letter: u8) -> AddressCall {
    let name = Name::from_octets(*b"\x07example\x00").expect(rt, "a name");
    match letter {
        b'q' => Call::ToQuestion,
        b'a' => Call::ToAnswer,
        b'd' => Call::ToAdditional,
        b'r' => Call::Rewind,
        b't' => Call::TcRewind,
        b'Q' => Call::PushQuestion((name, Rtype::A)),
        b'A' => Call::PushRecord((name, 60, A::from_octets(192, 0, 2, 1))),
        b'O' => opt(alloc),
        _ => panic!(rt; "no letter"),
    }
}

/// The letters of the replies.
fn letters_of(replies: &[Reply]) -> ArrayVec<u8, 16> {
    let mut letters = ArrayVec::new();
    for reply in replies {
        let letter = match *reply {
            Reply::Done => b'd',
            Reply::Misplaced => b'm',
            Reply::Refused(_) => b'r',
        };
        let _ = letters.try_extend_from_slice(&[letter]);
    }
    letters
}

#[test]
fn skips_calls_that_its_stages_lack(rt: HostRuntime) {
    let alloc = rt.alloc();
    let mut calls = Vec::new(alloc);
    for letter in CALLS {
        let call = call_of(&rt, alloc, *letter);
        calls.push(call).expect(&rt, "memory");
    }
    let target = StaticCompressor::new(ArrayVec::<u8, 64>::new());
    let builder = MessageBuilder::from_target(target).expect(&rt, "room");
    let mut replies = Vec::new(alloc);
    let stage = run(alloc, Stage::Builder(builder), &calls, &mut replies).ok();
    let stage = stage.expect(&rt, "memory");
    assert_octets(&rt, "the message", stage.as_slice(), MESSAGE);
    assert_octets(&rt, "the replies", &letters_of(&replies), REPLIES);
}

/// The items that the lists of `cases_runs` end with, each name uncompressed: a question, a record
/// in each section, and an OPT record with rcode 19.
const PLAIN: &[u8] =
    b"\x00\x00\x00\x03\x00\x01\x00\x01\x00\x01\x00\x02\x07example\x03com\x00\x00\x02\x00\x01\x07example\x03com\x00\x00\x02\x00\x01\x00\x00\x00\x3C\x00\x10\x02ns\x07example\x03com\x00\x03www\x07example\x03com\x00\x00\x02\x00\x01\x00\x00\x00\x3C\x00\x14\x02ns\x03www\x07example\x03com\x00\x02ns\x07example\x03com\x00\x00\x02\x00\x01\x00\x00\x00\x3C\x00\x16\x01a\x02ns\x03www\x07example\x03com\x00\x00\x00\x29\x04\xD0\x01\x00\x80\x00\x00\x00";

/// The same items with compressed names: the longest suffix that is encoded earlier is a pointer.
const COMPRESSED: &[u8] =
    b"\x00\x00\x00\x03\x00\x01\x00\x01\x00\x01\x00\x02\x07example\x03com\x00\x00\x02\x00\x01\xC0\x0C\x00\x02\x00\x01\x00\x00\x00\x3C\x00\x05\x02ns\xC0\x0C\x03www\xC0\x0C\x00\x02\x00\x01\x00\x00\x00\x3C\x00\x05\x02ns\xC0\x2E\xC0\x29\x00\x02\x00\x01\x00\x00\x00\x3C\x00\x04\x01a\xC0\x3E\x00\x00\x29\x04\xD0\x01\x00\x80\x00\x00\x00";

const EXAMPLE: &[u8] = b"\x07example\x03com\x00";

const NS: &[u8] = b"\x02ns\x07example\x03com\x00";

/// The OPT record: a payload size of 1,232, rcode 19 and DO.
const PLAIN_OPT: PlainItem<'static> = PlainItem {
    name: b"\x00",
    rtype: 41,
    class: 1232,
    ttl: Some(0x0100_8000),
    parts: &[],
};

/// An NS record of `tests_plain`. The array has the server.
fn server<'a>(owner: &'a [u8], parts: &'a [PlainPart<'a>; 1]) -> PlainItem<'a> {
    PlainItem {
        name: owner,
        rtype: 2,
        class: 1,
        ttl: Some(60),
        parts,
    }
}

/// The plain encoding of the items.
fn plain_octets(rt: &impl Abort, alloc: Global, rule: PlainRule) -> Vec<u8> {
    let answer = [PlainPart::CompressibleName(NS)];
    let authority = [PlainPart::CompressibleName(b"\x02ns\x03www\x07example\x03com\x00")];
    let additional = [PlainPart::CompressibleName(b"\x01a\x02ns\x03www\x07example\x03com\x00")];
    let message = PlainMessage {
        header: [0, 0, 0, 3],
        questions: &[PlainItem {
            name: EXAMPLE,
            rtype: 2,
            class: 1,
            ttl: None,
            parts: &[],
        }],
        answers: &[server(EXAMPLE, &answer)],
        authorities: &[server(b"\x03www\x07example\x03com\x00", &authority)],
        additionals: &[server(NS, &additional), PLAIN_OPT],
    };
    encode(alloc, rule, &message).expect(rt, "memory")
}

#[test]
fn the_octets_are_the_plain_encoding(rt: HostRuntime) {
    let alloc = rt.alloc();
    let octets = plain_octets(&rt, alloc, PlainRule::Plain);
    assert_octets(&rt, "plain", &octets, PLAIN);
    for rule in [PlainRule::Static, PlainRule::Tree, PlainRule::Hash] {
        let octets = plain_octets(&rt, alloc, rule);
        assert_octets(&rt, "compressed", &octets, COMPRESSED);
    }
}
