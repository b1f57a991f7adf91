//! Sets of records that are pushed whole or not at all, marks, the octets that an item takes, and
//! octets that are reserved for a record or an OPT record (RFC 6891 section 6.1).
use crate::asserts::{assert_holds, assert_octets};
use crate::building::asserts::{EXAMPLE_COM, has_limit, name_of, over};
use arrayvec::ArrayVec;
use dns_build::{OptBuilder, PushError};
use dns_code::{Header, OptRcode, Rcode};
use dns_data::A;
use dns_wire::Name;
use std::process::Abort;

/// An address of example.com. Without compression it takes 27 octets: 13 for the owner, ten for
/// type, class, TTL and RDLENGTH, and four for the address.
type Address = (Name<&'static [u8]>, u32, A);

fn address(rt: &impl Abort, last: u8) -> Address {
    let address = A::from_octets(192, 0, 2, last);
    (name_of(rt, EXAMPLE_COM), 3600, address)
}

/// Whether a push failed since the message would be too long.
fn is_too_long(refused: Option<PushError>) -> bool {
    refused.map_or(false, PushError::is_too_long)
}

/// 12 octets of header section and two addresses, 66 octets, are the capacity.
#[test]
fn a_set_is_pushed_whole_or_not_at_all(rt: HostRuntime) {
    let set = [address(&rt, 1), address(&rt, 2)];
    let mut builder = over(&rt, ArrayVec::<u8, 66>::new()).answer();
    let size = builder.size_of(&set[0]).expect(&rt, "room");
    builder.push_set(&set[..1]).expect(&rt, "room");
    let mark = builder.mark();
    let too_long = is_too_long(builder.push_set(&set).err());
    let is_refused = too_long && size == 27 && builder.as_slice().len() == 39;
    assert_holds(&rt, "a set that doesn't fit", is_refused);
    builder.push_set(&set[1..]).expect(&rt, "room");
    let is_full = builder.as_slice().len() == 66;
    assert_holds(&rt, "a full message", is_full);
    builder.rewind_to(mark);
    let mut builder = builder.reserve(27).ok().expect(&rt, "room");
    let too_long = is_too_long(builder.push(set[1]).err());
    assert_holds(&rt, "A record in reserved octets", too_long);
    let builder = builder.authority().additional();
    let pushed = builder.push_reserved(address(&rt, 3)).ok();
    let length = pushed.expect(&rt, "reserved").as_slice().len();
    assert_holds(&rt, "Length", length == 66);
}

/// QR, RD, and the rcode 3 in the header. The record has the upper bits of the rcode 19.
static WITH_RCODE: [u8; 23] =
    *b"\x00\x00\x81\x03\x00\x00\x00\x00\x00\x00\x00\x01\x00\x00\x29\x04\xd0\x01\x00\x00\x00\x00\x00";

/// A header section has 12 octets, an OPT record 11. While the record is reserved, no answer fits
/// the limit, and QR, RD and REFUSED are set. The rcode 19 replaces REFUSED.
#[test]
fn leaves_the_octets_of_an_opt_record(rt: HostRuntime) {
    let row = "Nothing but the record";
    let mut builder = over(&rt, ArrayVec::<u8, 39>::new());
    builder.set_push_limit(23);
    let mut opt = OptBuilder::new(rt.alloc(), builder.header());
    opt.set_udp_payload_size(1232);
    let mut reserved = builder.reserve_opt(opt).expect(&rt, row);
    builder.set_header(Header::for_message_slice(
        b"\x00\x00\x81\x05\x00\x00\x00\x00\x00\x00\x00\x00",
    ));
    let mut builder = builder.answer();
    let refused = builder.push(address(&rt, 1)).err();
    assert_holds(&rt, row, matches!(refused, Some(PushError::LimitExceeded)));
    reserved.set_rcode(OptRcode::from_parts(Rcode::NXDOMAIN, 1));
    let mut builder = builder.additional();
    builder.push_reserved(reserved).expect(&rt, row);
    assert_octets(&rt, row, builder.as_slice(), &WITH_RCODE);
    assert_holds(&rt, "the limit after it", has_limit(&builder, 23));
}
