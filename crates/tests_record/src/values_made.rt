//! RDATA from native values, against octets of the RFCs. Values of all types, from their cases, are
//! made into RDATA in `cases_rdata`.
use crate::asserts::{assert_octets, assert_prints, assert_same, name_of};
use dns_code::Rtype;
use dns_data::ComposeRecordData;
use dns_message::fields::{
    AddressPrefix, Location, NewGateway, NewGatewayAndKey, NewHostIdentity, NewRelay, NewValue,
    OwnedFieldData, TypeMap, ValueError, from_values,
};
use dns_message::make::{caa, https, nsec, svcb, text, txt};
use dns_wire::{Name, ToName};
use fields_lists::SmallTypeMap;
use fields_text::Tag;
use std::alloc::Global;
use std::process::Abort;

/// The data has these octets.
fn assert_made(
    rt: &impl Abort,
    alloc: Global,
    row: &str,
    made: Result<OwnedFieldData, ValueError>,
    expected: &[u8],
) {
    let owned = made.expect(rt, row);
    let mut octets = Vec::new(alloc);
    owned.compose_rdata(&mut octets).expect(rt, row);
    assert_octets(rt, row, octets.as_slice(), expected);
}

#[test]
fn makes_one_type(rt: HostRuntime) {
    let alloc = rt.alloc();
    let strings: [&[u8]; 3] = [b"v=spf1", b"", b"-all"];
    let made = txt(alloc, &strings);
    assert_made(&rt, alloc, "txt", made, b"\x06v=spf1\x00\x04-all");
    // RFC 9460 appendix D.2, figure 4
    let target = name_of(&rt, b"\x03foo\x07example\x03com\x00");
    let made = https(alloc, 16, &target, &[(3, b"\x00\x35")]);
    let endpoint = b"\x00\x10\x03foo\x07example\x03com\x00\x00\x03\x00\x02\x00\x35";
    assert_made(&rt, alloc, "https", made, endpoint);
    let made = svcb(alloc, 16, &target, &[(3, b"\x00\x35")]);
    assert_made(&rt, alloc, "svcb", made, endpoint);
}

#[test]
fn makes_a_list_of_types(rt: HostRuntime) {
    let alloc = rt.alloc();
    // RFC 4034 section 4.3, the types in another order
    let next = name_of(&rt, b"\x04host\x07example\x03com\x00");
    let types = [
        Rtype::from_int(1234),
        Rtype::NSEC,
        Rtype::MX,
        Rtype::RRSIG,
        Rtype::A,
        Rtype::MX,
    ];
    let made = nsec(alloc, &next, &types);
    let wanted =
        b"\x04host\x07example\x03com\x00\x00\x06\x40\x01\x00\x00\x00\x03\x04\x1b\x00\x00\x00\x00\x00\x00\x00\x00\x00\x00\x00\x00\x00\x00\x00\x00\x00\x00\x00\x00\x00\x00\x00\x00\x00\x00\x20";
    assert_made(&rt, alloc, "nsec", made, wanted);
}

#[test]
fn makes_gateways(rt: HostRuntime) {
    let alloc = rt.alloc();
    // RFC 4025 section 3.2, with the first octets of the key
    let value = NewGatewayAndKey {
        algorithm: 2,
        gateway: NewGateway::Ipv4([192, 0, 2, 38]),
        key: b"\x01\x03\x51",
    };
    let values = [NewValue::Number(10), NewValue::GatewayAndKey(value)];
    let made = from_values(alloc, Rtype::IPSECKEY, &values);
    let wanted = b"\x0a\x01\x02\xc0\x00\x02\x26\x01\x03\x51";
    assert_made(&rt, alloc, "a gateway", made, wanted);
    // RFC 8777 section 4.3.2
    let relay = name_of(&rt, b"\x09amtrelays\x07example\x03com\x00");
    let value = NewRelay {
        optional: true,
        relay: NewGateway::Name(relay.as_parsed()),
    };
    let values = [NewValue::Number(128), NewValue::Relay(value)];
    let made = from_values(alloc, Rtype::AMTRELAY, &values);
    let wanted = b"\x80\x83\x09amtrelays\x07example\x03com\x00";
    assert_made(&rt, alloc, "a relay", made, wanted);
}

#[test]
fn makes_a_location_and_a_host_identity(rt: HostRuntime) {
    let alloc = rt.alloc();
    // RFC 1876 section 4: 42 21 54 N 71 06 18 W -24m 30m
    let location = Location::new(0x33, 0x16, 0x13, 2_299_997_648, 1_891_505_648, 9_997_600);
    let location = location.expect(&rt, "a location");
    let made = from_values(alloc, Rtype::LOC, &[NewValue::Location(location)]);
    let wanted = b"\x00\x33\x16\x13\x89\x17\x2d\xd0\x70\xbe\x15\xf0\x00\x98\x8d\x20";
    assert_made(&rt, alloc, "a location", made, wanted);
    // RFC 8005 section 5, of a short tag and key, without servers
    let value = NewHostIdentity {
        algorithm: 2,
        tag: b"\x20\x01",
        key: b"\x03\x01\x00",
        servers: &[],
    };
    let made = from_values(alloc, Rtype::HIP, &[NewValue::HostIdentity(value)]);
    let wanted = b"\x02\x02\x00\x03\x20\x01\x03\x01\x00";
    assert_made(&rt, alloc, "a host identity", made, wanted);
}

#[test]
fn makes_a_long_text(rt: HostRuntime) {
    let alloc = rt.alloc();
    // Two strings, of 255 octets and of one.
    let mut wanted = [97; 258];
    wanted[0] = 255;
    wanted[256] = 1;
    assert_made(&rt, alloc, "text", text(alloc, &[97; 256]), &wanted);
}

/// One octet more than a length of 16 bits counts.
const LONG: &[u8] = &[97; 65_536];

/// One octet more than a string has.
const LONG_STRING: &[u8] = &[97; 256];

/// Why there is no RDATA with these values.
fn error_of(alloc: Global, rtype: Rtype, values: &[NewValue<'_>]) -> Option<ValueError> {
    from_values(alloc, rtype, values).err()
}

/// A prefix with this address.
fn prefix(address: &[u8]) -> AddressPrefix<'_> {
    AddressPrefix {
        family: 1,
        size: 0,
        negated: false,
        address,
    }
}

/// What is too long is `OutOfRange`, and not `OutOfMemory`; a text is `TooLong`.
#[test]
fn refuses_what_is_too_long(rt: HostRuntime) {
    let alloc = rt.alloc();
    let root = Name::root_slice();
    let prefixes = [prefix(&[97; 128])];
    let errors = [
        txt(alloc, &[b"", LONG_STRING]).err(),
        caa(alloc, 0, LONG_STRING, b"").err(),
        https(alloc, 1, &root, &[(3, b"aa"), (7, LONG)]).err(),
        error_of(alloc, Rtype::APL, &[NewValue::Prefixes(&prefixes)]),
        text(alloc, LONG).err(),
    ];
    let expected = [
        Some(ValueError::OutOfRange(0)),
        Some(ValueError::OutOfRange(1)),
        Some(ValueError::OutOfRange(2)),
        Some(ValueError::OutOfRange(0)),
        Some(ValueError::TooLong),
    ];
    let row = "a string, a tag, a parameter, a prefix, a text";
    assert_same(&rt, row, errors, expected);
}

/// Errors, and how they are printed.
const ERRORS: [(ValueError, &str); 5] = [
    (ValueError::WrongCount, "wrong number of values"),
    (ValueError::WrongKind(1), "wrong kind of value 1"),
    (ValueError::OutOfRange(2), "value 2 out of range"),
    (ValueError::TooLong, "record data too long"),
    (ValueError::OutOfMemory, "out of memory"),
];

#[test]
fn prints_errors(rt: HostRuntime) {
    for (error, text) in &ERRORS {
        assert_prints(&rt, rt.alloc(), text, error, text);
    }
}

/// RFC 4034 section 4.3: A, MX, RRSIG, NSEC and TYPE1234, of which the first block has four.
const TYPES: &[u8] =
    b"\x00\x06\x40\x01\x00\x00\x00\x03\x04\x1b\x00\x00\x00\x00\x00\x00\x00\x00\x00\x00\x00\x00\x00\x00\x00\x00\x00\x00\x00\x00\x00\x00\x00\x00\x00\x00\x20";

/// The types of maps are printed each after a space, and tags as they are.
#[test]
fn prints_types_and_tags(rt: HostRuntime) {
    let alloc = rt.alloc();
    let text = " A MX RRSIG NSEC TYPE1234";
    assert_prints(&rt, alloc, "types", &TypeMap(TYPES), text);
    // RFC 2535 section 5.2
    let map = SmallTypeMap::from_octets(b"\x40\x01").expect(&rt, "a map");
    assert_prints(&rt, alloc, "a small map", &map, " A MX");
    // RFC 8659 section 4
    let tag = Tag::from_octets(b"issue").expect(&rt, "a tag");
    assert_prints(&rt, alloc, "a tag", &tag, "issue");
}
