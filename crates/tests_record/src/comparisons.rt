//! Comparisons of questions, headers of records and RDATA: equality, and two orders, that of values
//! and that of canonical forms. Records, and RDATA as fields, are compared in the cases of
//! `cases_rdata`.
use crate::asserts::{assert_alike, assert_less, assert_same, name_of, opaque, options};
use dns_code::{Class, Rtype};
use dns_data::{A, Cname, Ns, Soa};
use dns_item::{Question, RecordHeader, Ttl};
use dns_wire::CanonicalOrd;
use std::cmp::Ordering;
use std::process::Abort;

/// Fails unless the first value precedes the second in canonical order, and each equals itself.
fn assert_canonical_order<T: CanonicalOrd>(rt: &impl Abort, row: &str, first: &T, second: &T) {
    let orders = [
        first.canonical_cmp(second),
        second.canonical_cmp(first),
        first.canonical_cmp(first),
    ];
    let expected = [Ordering::Less, Ordering::Greater, Ordering::Equal];
    assert_same(rt, row, orders, expected);
}

#[test]
fn orders_questions_in_two_ways(rt: HostRuntime) {
    let short = Question::new_in(name_of(&rt, b"\x01b\x00"), Rtype::A);
    let long = Question::new_in(name_of(&rt, b"\x02aa\x00"), Rtype::A);
    assert_less(&rt, "Two orders of questions: by labels", &long, &short);
    assert_canonical_order(
        &rt,
        "Two orders of questions: by the length of a label",
        &short,
        &long,
    );
}

#[test]
fn orders_headers(rt: HostRuntime) {
    let owner = name_of(&rt, b"\x01b\x00");
    let chaos = RecordHeader::new(owner, Rtype::NS, Class::CH, Ttl::MINUTE, 9);
    let short = RecordHeader::new(owner, Rtype::NS, Class::CH, Ttl::MINUTE, 8);
    assert_less(&rt, "lengths", &short, &chaos);
    let internet = RecordHeader::new(owner, Rtype::NS, Class::IN, Ttl::HOUR, 9);
    assert_less(&rt, "classes", &internet, &short);
}

/// The name with the shorter first label comes first, since its length octet is smaller. The first
/// name of a zone decides first, and after the names the serial.
#[test]
fn orders_data_by_canonical_octets(rt: HostRuntime) {
    let low = A::from_octets(9, 255, 255, 255);
    assert_canonical_order(&rt, "addresses", &low, &A::from_octets(10, 0, 0, 0));
    let short = name_of(&rt, b"\x01Z\x00");
    let long = name_of(&rt, b"\x02aa\x00");
    assert_canonical_order(&rt, "servers", &Ns::new(short), &Ns::new(long));
    assert_canonical_order(&rt, "aliases", &Cname::new(short), &Cname::new(long));
    let first = Soa::new(short, long, 9, 1, 1, 1, 1);
    assert_canonical_order(&rt, "zones", &first, &Soa::new(long, short, 1, 1, 1, 1, 1));
    assert_canonical_order(
        &rt,
        "serials",
        &first,
        &Soa::new(short, long, 10, 0, 0, 0, 0),
    );
}

#[test]
fn compares_opaque_data_and_options(rt: HostRuntime) {
    let data = opaque(&rt, Rtype::TXT, b"\x01b");
    let same = opaque(&rt, Rtype::TXT, b"\x01b");
    assert_alike(&rt, "opaque data", &data, &same);
    let other_type = opaque(&rt, Rtype::from_int(33), b"\x01a");
    assert_less(&rt, "types of opaque data", &data, &other_type);
    let row = "types of opaque data, canonically";
    assert_canonical_order(&rt, row, &data, &other_type);
    let none = options(&rt, b"");
    let nsid = options(&rt, b"\x00\x03\x00\x00");
    assert_alike(
        &rt,
        "the same option",
        &nsid,
        &options(&rt, b"\x00\x03\x00\x00"),
    );
    assert_less(&rt, "no option", &none, &nsid);
    assert_canonical_order(&rt, "no option, canonically", &none, &nsid);
}
