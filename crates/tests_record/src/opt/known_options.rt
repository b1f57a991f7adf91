//! The options that RFCs define, as they are added.
use crate::asserts::{assert_holds, assert_octets, name_of};
use dns_code::Header;
use dns_edns::SubnetAddr;
use dns_edns_builder::OptBuilder;
use dns_wire::AppendError;
use std::alloc::Global;
use std::process::Abort;

/// An option that an RFC defines, and what it is made of. A client subnet has the prefix lengths of
/// source and scope, and an address. A cookie has eight octets of the client, and sixteen of
/// the server.
enum Added {
    ClientNsid,
    Nsid(&'static [u8]),
    Dau(&'static [u8]),
    Dhu(&'static [u8]),
    N3u(&'static [u8]),
    ClientSubnet(u8, u8, SubnetAddr),
    Expire(Option<u32>),
    InitialCookie([u8; 8]),
    Cookie([u8; 8], [u8; 16]),
    TcpKeepalive(Option<u16>),
    Padding(u16),
    Chain(&'static [u8]),
    KeyTag(&'static [u16]),
    ExtendedError(u16, Option<&'static str>),
}

/// Adds an option.
fn add(rt: &impl Abort, opt: &mut OptBuilder, added: &Added) -> Result<(), AppendError> {
    match added {
        Added::ClientNsid => opt.client_nsid(),
        Added::Nsid(identifier) => opt.nsid(identifier),
        Added::Dau(algorithms) => opt.dau(algorithms),
        Added::Dhu(algorithms) => opt.dhu(algorithms),
        Added::N3u(algorithms) => opt.n3u(algorithms),
        Added::ClientSubnet(source, scope, address) => {
            opt.client_subnet(*source, *scope, *address)
        }
        Added::Expire(seconds) => opt.expire(*seconds),
        Added::InitialCookie(client) => opt.initial_cookie(*client),
        Added::Cookie(client, server) => opt.cookie(*client, Some(server)),
        Added::TcpKeepalive(timeout) => opt.tcp_keepalive(*timeout),
        Added::Padding(len) => opt.padding(*len),
        Added::Chain(trust_point) => opt.chain(&name_of(rt, *trust_point)),
        Added::KeyTag(tags) => opt.key_tag(tags),
        Added::ExtendedError(code, text) => opt.extended_error(*code, *text),
    }
}

/// A builder to which these options were added.
fn builder_of(rt: &impl Abort, alloc: Global, options: &[Added]) -> OptBuilder {
    let mut opt = OptBuilder::new(alloc, Header::new());
    for added in options {
        add(rt, &mut opt, added).expect(rt, "memory");
    }
    opt
}

/// A client cookie of eight octets.
const CLIENT: [u8; 8] = [1, 2, 3, 4, 5, 6, 7, 8];

/// Options that are added, and their octets.
struct Row {
    name: &'static str,
    options: &'static [Added],
    octets: &'static [u8],
}

const ROWS: &[Row] = &[
    Row {
        name: "Several known options",
        options: &[
            Added::ClientNsid,
            Added::Dau(&[8, 13]),
            Added::Expire(None),
            Added::TcpKeepalive(Some(300)),
        ],
        octets: b"\x00\x03\x00\x00\x00\x05\x00\x02\x08\x0D\x00\x09\x00\x00\x00\x0B\x00\x02\x01\x2C",
    },
    Row {
        name: "NSID, N3U, DHU, EXPIRE",
        options: &[
            Added::Nsid(b"a"),
            Added::N3u(&[1]),
            Added::Dhu(&[2]),
            Added::Expire(Some(258)),
        ],
        octets: b"\x00\x03\x00\x01a\x00\x07\x00\x01\x01\x00\x06\x00\x01\x02\x00\x09\x00\x04\x00\x00\x01\x02",
    },
    Row {
        name: "Cookies",
        options: &[
            Added::InitialCookie(CLIENT),
            Added::Cookie(CLIENT, [0xFF; 16]),
        ],
        octets: b"\x00\x0A\x00\x08\x01\x02\x03\x04\x05\x06\x07\x08\x00\x0A\x00\x18\x01\x02\x03\x04\x05\x06\x07\x08\xFF\xFF\xFF\xFF\xFF\xFF\xFF\xFF\xFF\xFF\xFF\xFF\xFF\xFF\xFF\xFF",
    },
    Row {
        name: "Chain, key tag, extended error",
        options: &[
            Added::Chain(b"\x02Ab\x00"),
            Added::KeyTag(&[0x4F66]),
            Added::ExtendedError(18, Some("no")),
        ],
        octets: b"\x00\x0D\x00\x04\x02Ab\x00\x00\x0E\x00\x02\x4F\x66\x00\x0F\x00\x04\x00\x12no",
    },
];

const SUBNETS: &[Row] = &[
    Row {
        name: "Client subnets: a prefix that ends within an octet",
        options: &[Added::ClientSubnet(20, 0, SubnetAddr::V4([192, 0, 255, 1]))],
        octets: b"\x00\x08\x00\x07\x00\x01\x14\x00\xC0\x00\xF0",
    },
    Row {
        name: "Client subnets: prefixes of more than 32 bits",
        options: &[Added::ClientSubnet(40, 33, SubnetAddr::V4([192, 0, 2, 1]))],
        octets: b"\x00\x08\x00\x08\x00\x01\x20\x20\xC0\x00\x02\x01",
    },
    Row {
        name: "Client subnets: no prefix",
        options: &[Added::ClientSubnet(0, 0, SubnetAddr::V4([192, 0, 2, 1]))],
        octets: b"\x00\x08\x00\x04\x00\x01\x00\x00",
    },
    Row {
        name: "an address of 16 octets",
        options: &[Added::ClientSubnet(
            17,
            200,
            SubnetAddr::V6(*b"\x20\x01\xFF\x00\x00\x00\x00\x00\x00\x00\x00\x00\x00\x00\x00\x00"),
        )],
        octets: b"\x00\x08\x00\x07\x00\x02\x11\x80\x20\x01\x80",
    },
];

/// Fails unless the options of each row have its octets.
fn assert_rows(rt: &impl Abort, alloc: Global, rows: &[Row]) {
    for row in rows {
        let opt = builder_of(rt, alloc, row.options);
        assert_octets(rt, row.name, opt.option_octets(), row.octets);
    }
}

#[test]
fn adds_known_options(rt: HostRuntime) {
    assert_rows(&rt, rt.alloc(), ROWS);
    assert_rows(&rt, rt.alloc(), SUBNETS);
}

#[test]
fn pads_with_zeros_or_given_octets(rt: HostRuntime) {
    let mut opt = OptBuilder::new(rt.alloc(), Header::new());
    // A refused option adds nothing.
    let refused = opt.padding(65_532);
    let is_refused = refused == Err(AppendError::ShortBuf);
    assert_holds(&rt, "Paddings: too many octets", is_refused);
    opt.padding(3).expect(&rt, "memory");
    opt.random_padding(b"\xAA\xBB").expect(&rt, "memory");
    assert_octets(
        &rt,
        "Paddings",
        opt.option_octets(),
        b"\x00\x0C\x00\x03\x00\x00\x00\x00\x0C\x00\x02\xAA\xBB",
    );
}
