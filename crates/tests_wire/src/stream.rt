//! Messages after their length, as on a TCP stream.
use crate::asserts::{assert_octets, assert_same};
use crate::steps::{Step, assert_steps};
use arrayvec::ArrayVec;
use dns_target::StreamTarget;
use dns_wire::{AppendError, CloneTarget, Composer};
use std::convert::AsSlice;
use std::process::Abort;

const SHORT: AppendError = AppendError::ShortBuf;

/// Checks the message of a target, alone and after its length.
fn assert_message<T: Composer>(
    rt: &impl Abort,
    row: &str,
    target: &StreamTarget<T>,
    message: &[u8],
    stream: &[u8],
) {
    assert_octets(rt, row, AsSlice::as_slice(target), message);
    assert_octets(rt, row, target.as_target().as_slice(), stream);
}

#[test]
fn has_capacity_for_the_length(rt: HostRuntime) {
    let refused = StreamTarget::new(ArrayVec::<u8, 1>::new()).err();
    let row = "No room for prefix or header: a capacity of one octet";
    assert_same(&rt, row, refused, Some(SHORT));
}

/// One further octet fits, and none after it.
const ONE_MORE: &[Step] = &[Step::Octets(b"b", Ok(b"b")), Step::Octets(b"c", Err(SHORT))];

/// A clone of a target of fixed capacity has its own length, and its own content from there on. The
/// octets that the array had are not in the message.
#[test]
fn clones_a_target_of_fixed_size(rt: HostRuntime) {
    let target = StreamTarget::new(ArrayVec::<u8, 4>::from(*b"wxyz"));
    let mut target = target.expect(&rt, "a capacity for the length");
    target
        .append_slice(b"d")
        .expect(&rt, "a capacity for an octet");
    target.write_at(0, b"a");
    let mut clone = target.clone_target().expect(&rt, "a clone");
    assert_steps(&rt, "its clone", &mut clone, ONE_MORE);
    assert_message(&rt, "its clone", &clone, b"ab", b"\x00\x02ab");
    assert_message(&rt, "one octet", &target, b"a", b"\x00\x01a");
}

/// Two octets that exceed the 65,535 that a message may have, if one fits.
const TWO_MORE: &[Step] = &[Step::Octets(b"ab", Err(SHORT))];

/// Refused octets don't make the vector grow, which has no spare capacity.
#[test]
fn is_full_at_65535_octets(rt: HostRuntime) {
    let target = StreamTarget::new_vec(rt.alloc());
    let mut target = target.expect(&rt, "memory for the length");
    target.append_slice(&[b'a'; 65_534]).expect(&rt, "memory");
    let capacity = target.as_target().capacity();
    assert_steps(&rt, "one octet less", &mut target, TWO_MORE);
    assert_same(&rt, "the capacity", target.as_target().capacity(), capacity);
    assert_steps(&rt, "the most octets", &mut target, ONE_MORE);
}
