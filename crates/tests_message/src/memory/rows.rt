//! Each allocation fails in turn: each message over each target that allocates.
use crate::asserts::assert_octets;
use crate::memory::calls::{assert_list, assert_moves};
use crate::memory::copies::assert_copies;
use crate::memory::fresh::Fresh;
use crate::memory::messages::{assert_name_in_data, assert_negative, assert_positive};
use crate::memory::opts::{assert_error, assert_option};
use crate::memory::written::{COMPRESSED, PLAIN, Written};
use dns_message::target::{
    Composer, FingerprintCompressor, HashCompressor, StaticCompressor, StreamTarget, TreeCompressor,
};
use std::alloc::Global;
use std::process::Abort;

/// Checks all messages that are pushed, copied, and built by lists of calls, with their names
/// written this way.
fn assert_messages<R: Abort, T: Fresh>(rt: &R, alloc: Global, written: Written) {
    assert_positive::<R, T>(rt, alloc, written.positive);
    assert_negative::<R, T>(rt, alloc);
    assert_name_in_data::<R, T>(rt, alloc, written.name_in_data);
    assert_option::<R, T>(rt, alloc);
    assert_error::<R, T>(rt, alloc);
    assert_copies::<R, T>(rt, alloc, written.copied);
    assert_list::<R, T>(rt, alloc, written.positive);
    assert_moves::<R, T>(rt, alloc, written.lengths);
}

#[test]
fn over_plain_targets(rt: HostRuntime) {
    assert_messages::<HostRuntime, Vec<u8>>(&rt, rt.alloc(), PLAIN);
    assert_messages::<HostRuntime, StreamTarget<Vec<u8>>>(&rt, rt.alloc(), PLAIN);
}

#[test]
fn over_static_compressors(rt: HostRuntime) {
    type Streamed = StaticCompressor<StreamTarget<Vec<u8>>>;
    assert_messages::<HostRuntime, StaticCompressor<Vec<u8>>>(&rt, rt.alloc(), COMPRESSED);
    assert_messages::<HostRuntime, Streamed>(&rt, rt.alloc(), COMPRESSED);
}

#[test]
fn over_compressors_with_an_index(rt: HostRuntime) {
    assert_messages::<HostRuntime, TreeCompressor<Vec<u8>>>(&rt, rt.alloc(), COMPRESSED);
    assert_messages::<HostRuntime, HashCompressor<Vec<u8>>>(&rt, rt.alloc(), COMPRESSED);
    assert_messages::<HostRuntime, FingerprintCompressor<Vec<u8>>>(&rt, rt.alloc(), COMPRESSED);
}

/// The first octets of a `Vec` without a capacity.
#[test]
fn takes_what_it_needs_where_more_is_refused(rt: HostRuntime) {
    let octets = b"\x01a\x00";
    let mut target = Vec::new(rt.alloc());
    target.append_slice(octets).expect(&rt, "memory");
    let stream = StreamTarget::new_vec(rt.alloc()).expect(&rt, "memory");
    assert_octets(&rt, "first octets", &target, octets);
    assert_octets(&rt, "stream", stream.as_stream_slice(), b"\x00\x00");
}
