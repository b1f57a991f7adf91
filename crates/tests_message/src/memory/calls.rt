//! Lists of calls that are made again if an allocation failed.
use crate::asserts::{assert_holds, assert_octets};
use crate::memory::again::Array;
use crate::memory::fresh::{Fresh, started};
use crate::memory::messages::{EXAMPLE_COM, NS_EXAMPLE_COM, name_of, response_header};
use dns_message::code::{Rcode, Rtype};
use dns_message::data::{A, Ns, UnknownRecordData};
use dns_message::name::Name;
use dns_message::question::ComposeQuestion;
use dns_message::record::ComposeRecord;
use dns_message::script::{Call, Reply, Stage, run};
use dns_message::target::Composer;
use std::alloc::Global;
use std::process::Abort;

/// A call with a question for example.com., or with a record of the root whose RDATA is `D`.
type RootCall<D> = Call<(Name<[u8; 13]>, Rtype), (Name<[u8; 1]>, u32, D)>;

/// The number of calls that were done: all; all but one, for which an allocation failed; or none,
/// if the replies couldn't be allocated.
fn count_done(rt: &impl Abort, replies: &[Reply], count: usize) -> usize {
    let mut done = 0_usize;
    for reply in replies {
        if let Reply::Done = reply {
            done = done.saturating_add(1);
        }
    }
    let is_done = replies.len() == count && done.saturating_add(1) >= count;
    assert_holds(rt, "all calls but one", is_done || replies.is_empty());
    done
}

/// Makes calls. Returns the stage and how many were done. The run fails exactly if there is no
/// reply.
fn made<R: Abort, T: Composer, Q: ComposeQuestion, D: ComposeRecord>(
    rt: &R,
    alloc: Global,
    stage: Stage<T>,
    calls: &[Call<Q, D>],
) -> (Stage<T>, usize) {
    let mut replies = Vec::new(alloc);
    let answer = run(alloc, stage, calls, &mut replies);
    let is_answered = answer.is_err() == replies.is_empty();
    assert_holds(rt, "replies", is_answered);
    let (Ok(stage) | Err(stage)) = answer;
    (stage, count_done(rt, &replies, calls.len()))
}

/// Makes calls, and does so again if an allocation failed. If none was done, the stage has to be
/// unchanged.
fn make<R: Abort, T: Composer, Q: ComposeQuestion, D: ComposeRecord>(
    rt: &R,
    alloc: Global,
    stage: Stage<T>,
    calls: &[Call<Q, D>],
) -> Stage<T> {
    let before = Array::try_from(stage.as_slice()).expect(rt, "a capacity");
    let (stage, done) = made(rt, alloc, stage, calls);
    if done == calls.len() {
        return stage;
    }
    if done == 0 {
        assert_octets(rt, "refused call", stage.as_slice(), &before);
    }
    let (stage, done) = made(rt, alloc, stage, calls);
    assert_holds(rt, "all calls are done again", done == calls.len());
    stage
}

/// Makes the calls one by one. The message has these lengths after them.
fn make_each<R: Abort, T: Composer, Q: ComposeQuestion, D: ComposeRecord>(
    rt: &R,
    alloc: Global,
    stage: Stage<T>,
    calls: &[Call<Q, D>],
    lengths: &[usize],
) -> Stage<T> {
    let [length, lengths @ ..] = lengths else {
        return stage;
    };
    let (call, calls) = calls.split_at(calls.len().min(1));
    let stage = make(rt, alloc, stage, call);
    assert!(rt; stage.as_slice().len() == *length, "not {length} octets");
    make_each(rt, alloc, stage, calls, lengths)
}

/// Adds a question, and an answer with one address.
fn add_address<R: Abort, T: Composer>(
    rt: &R,
    alloc: Global,
    stage: Stage<T>,
    lengths: [usize; 4],
) -> Stage<T> {
    let name = name_of(rt, *EXAMPLE_COM);
    let calls = [
        Call::ToQuestion,
        Call::PushQuestion((name, Rtype::A)),
        Call::ToAnswer,
        Call::PushRecord((name, 3600, A::from_octets(203, 0, 113, 1))),
    ];
    make_each(rt, alloc, stage, &calls, &lengths)
}

/// Adds an NS record of the root, and removes it again.
fn add_server<R: Abort, T: Composer>(
    rt: &R,
    alloc: Global,
    stage: Stage<T>,
    lengths: [usize; 4],
) -> Stage<T> {
    let server = Ns::new(name_of(rt, *NS_EXAMPLE_COM));
    let calls: [RootCall<Ns<Name<[u8; 16]>>>; 4] = [
        Call::ToAuthority,
        Call::PushRecord((name_of(rt, [0]), 60, server)),
        Call::Rewind,
        Call::ToAdditional,
    ];
    make_each(rt, alloc, stage, &calls, &lengths)
}

/// Adds a record without RDATA, and removes everything again.
fn add_text<R: Abort, T: Composer>(
    rt: &R,
    alloc: Global,
    stage: Stage<T>,
    lengths: [usize; 4],
) -> Stage<T> {
    let text = UnknownRecordData::from_octets(Rtype::TXT, []).expect(rt, "data");
    let calls: [RootCall<UnknownRecordData<[u8; 0]>>; 4] = [
        Call::PushRecord((name_of(rt, [0]), 0, text)),
        Call::ToAnswer,
        Call::TcRewind,
        Call::ToBuilder,
    ];
    make_each(rt, alloc, stage, &calls, &lengths)
}

/// Checks a positive response that is built by one list of calls.
pub(crate) fn assert_list<R: Abort, T: Fresh>(rt: &R, alloc: Global, expected: &[u8]) {
    let name = name_of(rt, *EXAMPLE_COM);
    let calls = [
        Call::ToBuilder,
        Call::SetHeader(response_header(Rcode::NOERROR, true)),
        Call::ToQuestion,
        Call::PushQuestion((name, Rtype::A)),
        Call::ToAnswer,
        Call::PushRecord((name, 3600, A::from_octets(203, 0, 113, 1))),
    ];
    let stage: Stage<T> = Stage::Builder(started(rt, alloc));
    let stage = make(rt, alloc, stage, &calls);
    assert_octets(rt, "Positive response", stage.as_slice(), expected);
}

/// Checks all moves: the message has these lengths after the calls, and at the end only the bit TC
/// is set.
pub(crate) fn assert_moves<R: Abort, T: Fresh>(rt: &R, alloc: Global, lengths: [[usize; 4]; 3]) {
    let [address, server, text] = lengths;
    let stage: Stage<T> = Stage::Builder(started(rt, alloc));
    let stage = add_address(rt, alloc, stage, address);
    let stage = add_server(rt, alloc, stage, server);
    let stage = add_text(rt, alloc, stage, text);
    let expected = b"\x00\x00\x02\x00\x00\x00\x00\x00\x00\x00\x00\x00";
    assert_octets(rt, "All moves", stage.as_slice(), expected);
}
