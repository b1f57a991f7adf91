//! The RDATA of OPT records, and lists of options (RFC 6891 section 6.1.2).
use crate::asserts::{assert_holds, assert_octets};
use dns_code::OptionCode;
use dns_data::Opt;

/// NSID, DAU with the algorithms 8 and 13, EXPIRE, and a keepalive timeout of 30 seconds.
static OPTIONS: [u8; 20] =
    *b"\x00\x03\x00\x00\x00\x05\x00\x02\x08\x0D\x00\x09\x00\x00\x00\x0B\x00\x02\x01\x2C";

/// The code of an option, and its octets.
struct Expected {
    name: &'static str,
    code: u16,
    octets: &'static [u8],
}

const EXPECTED: &[Expected] = &[
    Expected {
        name: "NSID",
        code: 3,
        octets: b"",
    },
    Expected {
        name: "DAU",
        code: 5,
        octets: b"\x08\x0D",
    },
    Expected {
        name: "EXPIRE",
        code: 9,
        octets: b"",
    },
    Expected {
        name: "keepalive",
        code: 11,
        octets: b"\x01\x2C",
    },
];

/// After the options, the iterator yields no more.
#[test]
fn gives_each_option(rt: HostRuntime) {
    let opt = Opt::from_octets(OPTIONS.as_slice()).expect(&rt, "options");
    let mut options = opt.iter();
    for case in EXPECTED {
        let code = OptionCode::from_int(case.code);
        let is_next = options.next() == Some((code, case.octets));
        assert_holds(&rt, case.name, is_next);
    }
    let is_end = options.next().is_none() && options.next().is_none();
    assert_holds(&rt, "no further option", is_end);
}

#[test]
fn clones(rt: HostRuntime) {
    let octets = OPTIONS.to_vec(rt.alloc()).expect(&rt, "memory");
    let opt = Opt::from_octets(octets).expect(&rt, "options");
    let clone = opt.clone().expect(&rt, "memory");
    assert_octets(&rt, "clone", clone.data().as_slice(), &OPTIONS);
}
