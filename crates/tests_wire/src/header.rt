//! Headers, flags and counts of messages. Other fields and the counts of queries are in the runs of
//! `cases_runs`.
use crate::asserts::{assert_octets, assert_prints, assert_same};
use dns_code::{Flags, Header, HeaderCounts, Opcode};

const SECTION: &[u8; 12] = b"\x01\x02\x00\x00\x12\x34\x56\x78\x9a\xbc\xde\xf0";

const NO_FLAG: Flags = Flags {
    qr: false,
    aa: false,
    tc: false,
    rd: false,
    ra: false,
    ad: false,
    cd: false,
};

const ALL_FLAGS: Flags = Flags {
    qr: true,
    aa: true,
    tc: true,
    rd: true,
    ra: true,
    ad: true,
    cd: true,
};

/// The header is the first four octets, and the counts are the others.
#[test]
fn has_the_parts_of_a_section(rt: HostRuntime) {
    let header = Header::for_message_slice(SECTION);
    let counts = HeaderCounts::for_message_slice(SECTION);
    let row = "Header and counts of a slice";
    assert_octets(&rt, row, header.as_slice(), b"\x01\x02\x00\x00");
    let other = b"\x12\x34\x56\x78\x9a\xbc\xde\xf0";
    assert_octets(&rt, row, counts.as_slice(), other);
}

/// Of the number of an opcode, only the low four bits are written. Z is set, and cleared again.
#[test]
fn writes_four_bits_of_an_opcode(rt: HostRuntime) {
    let row = "Opcode keeps to four bits";
    let mut header = Header::new();
    header.set_opcode(Opcode::from_int(0x10));
    header.set_z(true);
    header.set_z(false);
    assert_octets(&rt, row, header.as_slice(), &[0; 4]);
    header.set_opcode(Opcode::from_int(0x1f));
    assert_octets(&rt, row, header.as_slice(), &[0, 0, 0x78, 0]);
}

/// A text, and the flags that it spells with how they are printed.
struct FlagText {
    name: &'static str,
    text: &'static str,
    flags: Option<Flags>,
    printed: &'static str,
}

const FLAG_TEXTS: &[FlagText] = &[
    FlagText {
        name: "Flags texts: any order and letter case",
        text: "tC Aa CD rd",
        flags: Some(Flags {
            aa: true,
            tc: true,
            rd: true,
            cd: true,
            ..NO_FLAG
        }),
        printed: "AA TC RD CD",
    },
    FlagText {
        name: "Flags texts: an unknown flag",
        text: "XXXX",
        flags: None,
        printed: "",
    },
    FlagText {
        name: "Flags texts: no flag",
        text: "",
        flags: Some(NO_FLAG),
        printed: "",
    },
    FlagText {
        name: "Flags texts: all flags",
        text: "QR AA TC RD RA AD CD",
        flags: Some(ALL_FLAGS),
        printed: "QR AA TC RD RA AD CD",
    },
    FlagText {
        name: "Flags with extra spaces",
        text: "  qr  aa ",
        flags: Some(Flags {
            qr: true,
            aa: true,
            ..NO_FLAG
        }),
        printed: "QR AA",
    },
    FlagText {
        name: "Flags with other separators: a comma",
        text: "QR,AA",
        flags: None,
        printed: "",
    },
    FlagText {
        name: "Flags with other separators: a tab",
        text: "QR\tAA",
        flags: None,
        printed: "",
    },
    FlagText {
        name: "two flags",
        text: "RD CD",
        flags: Some(Flags {
            rd: true,
            cd: true,
            ..NO_FLAG
        }),
        printed: "RD CD",
    },
];

/// Each text is read as its flags, which are printed as the row says.
#[test]
fn reads_and_prints_flags(rt: HostRuntime) {
    for case in FLAG_TEXTS {
        let read = case.text.parse::<Flags>().ok();
        assert_same(&rt, case.name, read, case.flags);
        if let Some(flags) = case.flags {
            assert_prints(&rt, rt.alloc(), case.name, &flags, case.printed);
        }
    }
}

/// Counts of 0x0102, 0x0304, 0x0506 and 0x0708.
const COUNTED: &[u8; 12] = b"\x00\x00\x00\x00\x01\x02\x03\x04\x05\x06\x07\x08";

#[test]
fn has_counts(rt: HostRuntime) {
    let counts = HeaderCounts::for_message_slice(COUNTED);
    let found = [
        counts.zocount(),
        counts.prcount(),
        counts.upcount(),
        counts.adcount(),
    ];
    let expected = [0x0102, 0x0304, 0x0506, 0x0708];
    assert_same(&rt, "counts of an update", found, expected);
}

/// Counts of 0x0807, 0x0605, 0x0403 and 0x0201.
const OTHER_COUNTS: &[u8] = b"\x08\x07\x06\x05\x04\x03\x02\x01";

#[test]
fn sets_counts(rt: HostRuntime) {
    let mut query = HeaderCounts::new();
    query.set_qdcount(0x0807);
    query.set_ancount(0x0605);
    query.set_nscount(0x0403);
    query.set_arcount(0x0201);
    let mut update = HeaderCounts::new();
    update.set_zocount(0x0807);
    update.set_prcount(0x0605);
    update.set_upcount(0x0403);
    update.set_adcount(0x0201);
    assert_octets(&rt, "counts of a query", query.as_slice(), OTHER_COUNTS);
    assert_octets(&rt, "counts of an update", update.as_slice(), OTHER_COUNTS);
}

/// Increments each count, and returns which increments failed.
fn raise(counts: &mut HeaderCounts) -> [bool; 4] {
    [
        counts.inc_qdcount().is_err(),
        counts.inc_ancount().is_err(),
        counts.inc_nscount().is_err(),
        counts.inc_arcount().is_err(),
    ]
}

/// A message whose counts are each incremented, once or twice: which increments fail each time, and
/// the counts afterwards.
struct Raised {
    name: &'static str,
    message: &'static [u8; 12],
    refused: &'static [[bool; 4]],
    counts: &'static [u8],
}

const RAISED: &[Raised] = &[
    Raised {
        name: "Counts go up: no error",
        message: COUNTED,
        refused: &[[false; 4]],
        counts: b"\x01\x03\x03\x05\x05\x07\x07\x09",
    },
    Raised {
        name: "Counts go up: QDCOUNT",
        message: b"\x00\x00\x00\x00\xff\xfe\xff\xff\xff\xff\xff\xff",
        refused: &[[false, true, true, true], [true; 4]],
        counts: &[0xff; 8],
    },
    Raised {
        name: "Counts go up: ANCOUNT",
        message: b"\x00\x00\x00\x00\xff\xff\xff\xfe\xff\xff\xff\xff",
        refused: &[[true, false, true, true], [true; 4]],
        counts: &[0xff; 8],
    },
    Raised {
        name: "Counts go up: NSCOUNT",
        message: b"\x00\x00\x00\x00\xff\xff\xff\xff\xff\xfe\xff\xff",
        refused: &[[true, true, false, true], [true; 4]],
        counts: &[0xff; 8],
    },
    Raised {
        name: "Counts go up: ARCOUNT",
        message: b"\x00\x00\x00\x00\xff\xff\xff\xff\xff\xff\xff\xfe",
        refused: &[[true, true, true, false], [true; 4]],
        counts: &[0xff; 8],
    },
];

/// The counts of a message can be raised to 65,535 each, and no further.
#[test]
fn counts_up(rt: HostRuntime) {
    for case in RAISED {
        let (message, refusals) = (case.message, case.refused);
        let mut counts = HeaderCounts::for_message_slice(message);
        for refused in refusals {
            assert_same(&rt, case.name, raise(&mut counts), *refused);
        }
        assert_octets(&rt, case.name, counts.as_slice(), case.counts);
    }
}
