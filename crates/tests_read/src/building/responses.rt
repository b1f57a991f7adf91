//! Responses that are started from a query, with an OPT record (RFC 6891 section 6.1).
use crate::asserts::{assert_octets, message_of};
use crate::building::asserts::over;
use arrayvec::ArrayVec;
use dns_build::OptBuilder;
use dns_code::Rcode;
use dns_data::A;
use dns_wire::Name;

/// A query for the A records of the root: ID 0x1234, RD and CD, and an OPT record of version 0 with
/// DO and a UDP payload size of 4,096 octets.
static QUERY: &[u8] =
    b"\x12\x34\x01\x10\x00\x01\x00\x00\x00\x00\x00\x01\x00\x00\x01\x00\x01\x00\x00\x29\x10\x00\x00\x00\x80\x00\x00\x00";

/// The same with version 1.
static VERSION_1: &[u8] =
    b"\x12\x34\x01\x10\x00\x01\x00\x00\x00\x00\x00\x01\x00\x00\x01\x00\x01\x00\x00\x29\x10\x00\x00\x01\x80\x00\x00\x00";

/// The query with its OPT record twice.
static TWO_OPTS: &[u8] =
    b"\x12\x34\x01\x10\x00\x01\x00\x00\x00\x00\x00\x02\x00\x00\x01\x00\x01\x00\x00\x29\x10\x00\x00\x00\x80\x00\x00\x00\x00\x00\x29\x10\x00\x00\x00\x80\x00\x00\x00";

/// QR, RD and CD, the rcode 0, and an OPT record of version 0 with DO and a UDP payload size of
/// 1,232 octets.
static RESPONSE: &[u8] =
    b"\x12\x34\x81\x10\x00\x01\x00\x00\x00\x00\x00\x01\x00\x00\x01\x00\x01\x00\x00\x29\x04\xD0\x00\x00\x80\x00\x00\x00";

/// The same with BADVERS, which is 16: 1 in the OPT record and 0 in the header.
static BADVERS: &[u8] =
    b"\x12\x34\x81\x10\x00\x01\x00\x00\x00\x00\x00\x01\x00\x00\x01\x00\x01\x00\x00\x29\x04\xD0\x01\x00\x80\x00\x00\x00";

/// The response with FORMERR, which is 1 (RFC 6891 section 6.1.1).
static FORMERR: &[u8] =
    b"\x12\x34\x81\x11\x00\x01\x00\x00\x00\x00\x00\x01\x00\x00\x01\x00\x01\x00\x00\x29\x04\xD0\x00\x00\x80\x00\x00\x00";

/// TC, an address of the root, and an OPT record for UDP payloads of 1,232 octets.
static TRUNCATED: &[u8] =
    b"\x00\x00\x02\x00\x00\x00\x00\x01\x00\x00\x00\x01\x00\x00\x01\x00\x01\x00\x00\x00\x3C\x00\x04\xC0\x00\x02\x01\x00\x00\x29\x04\xD0\x00\x00\x00\x00\x00\x00";

#[test]
fn responds_with_an_opt_record(rt: HostRuntime) {
    let rows = [(QUERY, RESPONSE), (VERSION_1, BADVERS), (TWO_OPTS, FORMERR)];
    for (query, expected) in rows {
        let query = message_of(&rt, query);
        let builder = over(&rt, ArrayVec::<u8, 28>::new());
        let started = builder.respond(rt.alloc(), &query, Rcode::NOERROR);
        let (mut answer, opt) = started.expect(&rt, "memory");
        let mut opt = opt.expect(&rt, "an OPT record");
        opt.set_udp_payload_size(1232);
        let reserved = answer.reserve_opt(opt).expect(&rt, "no limit");
        let mut additional = answer.additional();
        additional.push_reserved(reserved).expect(&rt, "room");
        assert_octets(&rt, "Response", additional.as_slice(), expected);
    }
}

/// 12 octets of header section, an address of 15, and 11 octets that are reserved for the OPT record
/// are 38 octets.
#[test]
fn an_opt_record_has_the_reserved_octets(rt: HostRuntime) {
    let builder = over(&rt, ArrayVec::<u8, 38>::new()).answer();
    let mut answer = builder.reserve(11).ok().expect(&rt, "capacity");
    let set = [(Name::root_slice(), 60u32, A::from_octets(192, 0, 2, 1))];
    answer.push_set(&set).expect(&rt, "capacity");
    let mut header = answer.as_builder().header();
    header.set_tc(true);
    answer.set_header(header);
    let mut opt = OptBuilder::new(rt.alloc(), header);
    opt.set_udp_payload_size(1232);
    let pushed = answer.authority().additional().push_opt(&opt).ok();
    let additional = pushed.expect(&rt, "reserved");
    assert_octets(&rt, "Response", additional.as_slice(), TRUNCATED);
}
