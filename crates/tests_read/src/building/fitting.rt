//! Responses that fit a limit (RFC 2181 section 9), and padded messages (RFC 8467).
use crate::asserts::assert_holds;
use crate::building::asserts::{EXAMPLE_COM, name_of, over};
use dns_build::OptBuilder;
use dns_code::Header;
use dns_data::A;
use dns_wire::Name;
use std::process::Abort;

/// An address of example.com, which takes 27 octets: 13 for the owner, ten for type, class, TTL and
/// RDLENGTH, and four for the address.
fn address(rt: &impl Abort) -> (Name<&'static [u8]>, u32, A) {
    let address = A::from_octets(192, 0, 2, 1);
    (name_of(rt, EXAMPLE_COM), 3600, address)
}

/// 12 octets of header section, an address and 11 reserved octets are 50 octets. A set that is
/// required and doesn't fit sets TC, and then no set goes in, not even one without records.
#[test]
fn tc_says_that_a_required_set_is_missing(rt: HostRuntime) {
    let set = [address(&rt)];
    let builder = over(&rt, Vec::new(rt.alloc())).answer();
    let mut response = builder.fit(50, 11).ok().expect(&rt, "room");
    let first = response.push_required(&set).expect(&rt, "memory");
    let optional = response.push_optional(&set).expect(&rt, "memory");
    let shown = response.as_builder().header().tc();
    assert_holds(&rt, "An optional set", first && !optional && !shown);
    let required = response.push_required(&set).expect(&rt, "memory");
    let later = response.push_optional(&set[..0]).expect(&rt, "memory");
    let shown = response.as_builder().header().tc();
    assert_holds(&rt, "A required set", !required && !later && shown);
    let response = response.authority().additional();
    let opt = OptBuilder::new(rt.alloc(), Header::new());
    let pushed = response.push_opt(&opt).ok().expect(&rt, "reserved");
    assert_holds(&rt, "Length", pushed.as_slice().len() == 50);
}

/// Without padding the message has 23 octets, 12 of header section and 11 of OPT record. The option
/// takes four at least.
#[test]
fn messages_are_padded_to_blocks(rt: HostRuntime) {
    for (block, limit, length) in [(128, 512, 128), (9, 512, 27), (128, 100, 100), (0, 512, 23)] {
        let mut builder = over(&rt, Vec::new(rt.alloc())).additional();
        builder.set_push_limit(limit);
        let opt = OptBuilder::new(rt.alloc(), Header::new());
        builder.push_padded_opt(opt, block).expect(&rt, "memory");
        assert_holds(&rt, "Length", builder.as_slice().len() == length);
    }
}
