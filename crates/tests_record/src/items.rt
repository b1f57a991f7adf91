//! Records that are made of tuples.
use crate::asserts::{assert_record, name_of};
use dns_code::Class;
use dns_data::A;
use dns_item::{Record, Ttl};
use dns_wire::ToName;
use std::process::Abort;

/// a. 3600 IN A 203.0.113.1.
const ADDRESS: &[u8; 17] = b"\x01a\x00\x00\x01\x00\x01\x00\x00\x0E\x10\x00\x04\xCB\x00\x71\x01";

/// a. 60 CH A 203.0.113.1.
const CHAOS: &[u8] = b"\x01a\x00\x00\x01\x00\x03\x00\x00\x00\x3C\x00\x04\xCB\x00\x71\x01";

/// Fails unless tuples of these fields have the octets of records.
fn assert_tuples<N: ToName + Copy>(rt: &impl Abort, owner: N, data: A) {
    assert_record(rt, "TTL", &(owner, Ttl::HOUR, data), ADDRESS);
    assert_record(rt, "seconds", &(owner, 3600, data), ADDRESS);
    assert_record(
        rt,
        "class and seconds",
        &(owner, Class::IN, 3600, data),
        ADDRESS,
    );
    assert_record(
        rt,
        "class and TTL",
        &&(owner, Class::CH, Ttl::MINUTE, data),
        CHAOS,
    );
}

/// Fails unless records that are made of tuples have these fields.
fn assert_records<N: ToName + Copy>(rt: &impl Abort, owner: N, data: A) {
    assert_record(
        rt,
        "of seconds",
        &Record::from((owner, 3600, data)),
        ADDRESS,
    );
    let chaos = Record::from((owner, Class::CH, 60, data));
    assert_record(rt, "of class and seconds", &chaos, CHAOS);
    let chaos = Record::from((owner, Class::CH, Ttl::MINUTE, data));
    assert_record(rt, "of class and TTL", &chaos, CHAOS);
    assert_record(
        rt,
        "of a record",
        &Record::<N, A>::from_record(chaos),
        CHAOS,
    );
}

#[test]
fn composes_tuples(rt: HostRuntime) {
    let owner = name_of(&rt, b"\x01a\x00");
    let data = A::from_octets(203, 0, 113, 1);
    assert_tuples(&rt, owner, data);
    assert_records(&rt, owner, data);
}
