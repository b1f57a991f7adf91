//! Records in canonical form.
use crate::asserts::{assert_octets, name_of};
use arrayvec::ArrayVec;
use dns_code::Class;
use dns_data::Ns;
use dns_item::{Record, Ttl};
use dns_message::target::{StaticCompressor, StreamTarget};
use dns_wire::Composer;
use std::process::Abort;

/// Composes Example.COM. NS NS.Example.COM. in canonical form on an empty target.
fn assert_canonical<T: Composer>(rt: &impl Abort, row: &str, mut target: T) {
    let owner = name_of(rt, b"\x07Example\x03COM\x00");
    let server = Ns::new(name_of(rt, b"\x02NS\x07Example\x03COM\x00"));
    let record = Record::new(owner, Class::IN, Ttl::HOUR, server);
    record.compose_canonical(&mut target).expect(rt, row);
    assert_octets(
        rt,
        row,
        target.as_slice(),
        b"\x07example\x03com\x00\x00\x02\x00\x01\x00\x00\x0E\x10\x00\x10\x02ns\x07example\x03com\x00",
    );
}

/// Canonical record: in lower case and without a pointer, on a target that is then full, on a
/// stream, and on a compressor.
#[test]
fn composes_a_canonical_record(rt: HostRuntime) {
    assert_canonical(&rt, "an array vector", ArrayVec::<u8, 39>::new());
    let target = StreamTarget::new_vec(rt.alloc()).expect(&rt, "memory");
    assert_canonical(&rt, "a stream target", target);
    let target = StaticCompressor::new(ArrayVec::<u8, 39>::new());
    assert_canonical(&rt, "a static compressor", target);
}
