//! Many calls: no contract says that these succeed if memory suffices.
use crate::asserts::assert_holds;
use crate::building::asserts::{name_of, over};
use dns_code::Rtype;
use dns_data::A;
use dns_script::{Call, Reply, Stage, run};
use dns_wire::Name;
use std::alloc::Global;
use std::process::Abort;

type LetterName = Name<&'static [u8]>;

type AddressCall = Call<(LetterName, Rtype), (LetterName, u32, A)>;

/// Moves to the answer section, and pushes an address there. The first does nothing if the builder
/// is there.
fn address_calls(rt: &impl Abort, alloc: Global, count: usize) -> Vec<AddressCall> {
    let owner = name_of(rt, b"\x01a\x00");
    let address = A::from_octets(192, 0, 2, 1);
    let mut calls = Vec::new(alloc);
    for _ in 0..count {
        calls.push(Call::ToAnswer).expect(rt, "memory");
        let pushed = calls.push(Call::PushRecord((owner, 60, address)));
        pushed.expect(rt, "memory");
    }
    calls
}

/// The number of calls that were done.
fn count_done(replies: &[Reply]) -> usize {
    let mut done = 0_usize;
    for reply in replies {
        if let Reply::Done = reply {
            done = done.saturating_add(1);
        }
    }
    done
}

#[test]
fn runs_a_thousand_calls(rt: HostRuntime) {
    let alloc = rt.alloc();
    let calls = address_calls(&rt, alloc, 500);
    let stage = Stage::Builder(over(&rt, Vec::new(alloc)));
    let mut replies = Vec::new(alloc);
    let stage = run(alloc, stage, &calls, &mut replies).ok();
    let len = stage.expect(&rt, "memory").as_slice().len();
    let is_done = count_done(&replies) == 1000 && len == 12 + 500 * 17;
    assert_holds(&rt, "the replies and the message", is_done);
}
