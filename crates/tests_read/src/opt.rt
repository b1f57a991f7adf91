//! Messages whose OPT record is removed (RFC 6891 section 6.1.1).
use crate::asserts::{assert_holds, assert_octets};
use dns_edit::{EditError, remove_opt};
use dns_read::Message;

/// A message whose additional section has an OPT record alone, for UDP payloads of 1,232 octets.
const OPT_ALONE: [u8; 23] = [
    0, 1, 0, 0, 0, 0, 0, 0, 0, 0, 0, 1, 0, 0, 41, 4, 208, 0, 0, 0, 0, 0, 0,
];

#[test]
fn removes_the_last_record(rt: HostRuntime) {
    let mut message = Message::from_octets(OPT_ALONE).expect(&rt, "a message");
    let removed = remove_opt(&mut message) == Ok(true);
    assert_holds(&rt, "an OPT record alone", removed);
    let mut expected = OPT_ALONE;
    expected[11] = 0;
    assert_octets(&rt, "ARCOUNT after it", message.as_octets(), &expected);
    let lacks = remove_opt(&mut message) == Ok(false);
    assert_holds(&rt, "no OPT record", lacks);
}

#[test]
fn keeps_a_record_before_others(rt: HostRuntime) {
    // the OPT record, and then an A record of the root
    let mut octets = [0; 38];
    octets[..23].copy_from_slice(&OPT_ALONE);
    octets[11] = 2;
    octets[25] = 1;
    octets[33] = 4;
    let mut message = Message::from_octets(octets).expect(&rt, "a message");
    let error = remove_opt(&mut message) == Err(EditError::NotLast);
    assert_holds(
        &rt,
        "a record after it",
        error && *message.as_octets() == octets,
    );
}
