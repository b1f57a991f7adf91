//! Messages to be read: some whose octets are replaced or that are cut, some at a bound, and random
//! ones.
use crate::hostile::buffer::Buffer;

/// A message whose additional section has an OPT record with one option.
pub(crate) const OPT: &[u8; 34] =
    b"\x00\x00\x00\x00\x00\x00\x00\x00\x00\x00\x00\x01\x00\x00\x29\x10\x00\x00\x00\x00\x00\x00\x0B\x00\x03\x00\x07example";

/// A message with a question for example.com. and an NS record whose RDATA is a name that ends with
/// a pointer.
pub(crate) const NAME_IN_DATA: &[u8; 46] =
    b"\x00\x00\x00\x00\x00\x01\x00\x01\x00\x00\x00\x00\x07example\x03com\x00\x00\x02\x00\x01\xC0\x0C\x00\x02\x00\x01\x00\x00\x00\x3C\x00\x05\x02ns\xC0\x0C";

/// A message with a question and an answer, both for example.com.
pub(crate) const POSITIVE_RESPONSE: &[u8; 45] =
    b"\x00\x00\x81\xA0\x00\x01\x00\x01\x00\x00\x00\x00\x07example\x03com\x00\x00\x01\x00\x01\xC0\x0C\x00\x01\x00\x01\x00\x00\x0E\x10\x00\x04\xCB\x00\x71\x01";

/// The octets that replace others.
pub(crate) const REPLACEMENTS: [u8; 6] = [0x00, 0x3F, 0x40, 0x80, 0xC0, 0xFF];

/// A message with one to three entries. Most can't be read or are at a bound.
pub(crate) struct Bound {
    pub(crate) name: &'static str,
    pub(crate) octets: &'static [u8],
}

pub(crate) const BOUNDS: &[Bound] = &[
    Bound {
        name: "Positive response",
        octets: POSITIVE_RESPONSE,
    },
    Bound {
        name: "Name in data",
        octets: NAME_IN_DATA,
    },
    Bound {
        name: "Compression loop",
        octets: b"\x00\x00\x00\x00\x00\x01\x00\x00\x00\x00\x00\x00\x01\x61\xC0\x0C\x00\x01\x00\x01",
    },
    Bound {
        name: "Pointer to its own place",
        octets: b"\x00\x00\x00\x00\x00\x01\x00\x00\x00\x00\x00\x00\xC0\x0C\x00\x01\x00\x01",
    },
    Bound {
        name: "Pointer into the header",
        octets: b"\x00\x00\x00\x00\x00\x01\x00\x00\x00\x00\x00\x00\xC0\x04\x00\x01\x00\x01",
    },
    Bound {
        name: "Reserved label types: 01",
        octets: b"\x00\x00\x00\x00\x00\x01\x00\x00\x00\x00\x00\x00\x40\x00\x00\x01\x00\x01",
    },
    Bound {
        name: "Reserved label types: 10",
        octets: b"\x00\x00\x00\x00\x00\x01\x00\x00\x00\x00\x00\x00\x80\x00\x00\x01\x00\x01",
    },
    Bound {
        name: "Counts without entries",
        octets: b"\x00\x00\x00\x00\xFF\xFF\x00\x00\x00\x00\x00\x00",
    },
    Bound {
        name: "counts without records",
        octets: b"\x00\x00\x00\x00\x00\x00\x00\x00\x00\x01\x00\x01",
    },
    Bound {
        name: "Data cut off",
        octets: b"\x00\x00\x00\x00\x00\x00\x00\x01\x00\x00\x00\x00\x00\x00\x01\x00\x01\x00\x00\x00\x00\x00\x05\x01\x02\x03\x04",
    },
    Bound {
        name: "Unreadable answer is passed over",
        octets: b"\x00\x00\x00\x00\x00\x00\x00\x01\x00\x00\x00\x00\xC0\x0C\x00\x01\x00\x01\x00\x00\x00\x00\x00\x00",
    },
    // AXFR of a. in class CH, and NS of the root.
    Bound {
        name: "questions for a transfer and for name servers",
        octets: b"\x00\x00\x00\x00\x00\x02\x00\x00\x00\x00\x00\x00\x01a\x00\x00\xFC\x00\x03\x00\x00\x02\x00\x01",
    },
    Bound {
        name: "Name past the data's end",
        octets: b"\x00\x00\x00\x00\x00\x00\x00\x01\x00\x00\x00\x00\x00\x00\x05\x00\x01\x00\x00\x00\x00\x00\x01\xC0\x0C",
    },
    Bound {
        name: "Octets left over in class CH",
        octets: b"\x00\x00\x00\x00\x00\x00\x00\x01\x00\x00\x00\x00\x00\x00\x01\x00\x03\x00\x00\x00\x00\x00\x05\x01\x02\x03\x04\x05",
    },
    Bound {
        name: "Last additional record",
        octets: b"\x00\x00\x00\x00\x00\x00\x00\x00\x00\x00\x00\x02\xC0\x0C\x00\x01\x00\x01\x00\x00\x00\x00\x00\x00\x00\x00\x01\x00\x01\x00\x00\x00\x00\x00\x04\x01\x02\x03\x04",
    },
    // Aliases from a. to b. and from B. to c.
    Bound {
        name: "aliases of classes CH and IN",
        octets: b"\x00\x00\x00\x00\x00\x01\x00\x02\x00\x00\x00\x00\x01a\x00\x00\x01\x00\x01\x01a\x00\x00\x05\x00\x03\x00\x00\x00\x00\x00\x03\x01b\x00\x01B\x00\x00\x05\x00\x01\x00\x00\x00\x00\x00\x03\x01c\x00",
    },
    Bound {
        name: "a zone whose second name points to its first",
        octets: b"\x00\x00\x00\x00\x00\x00\x00\x00\x00\x01\x00\x00\x00\x00\x06\x00\x01\x00\x00\x00\x00\x00\x1B\x01a\x00\x01b\xC0\x17\x00\x00\x00\x01\x00\x00\x00\x02\x00\x00\x00\x03\x00\x00\x00\x04\x00\x00\x00\x05",
    },
    Bound {
        name: "the same zone and an octet left over",
        octets: b"\x00\x00\x00\x00\x00\x00\x00\x00\x00\x01\x00\x00\x00\x00\x06\x00\x01\x00\x00\x00\x00\x00\x1C\x01a\x00\x01b\xC0\x17\x00\x00\x00\x01\x00\x00\x00\x02\x00\x00\x00\x03\x00\x00\x00\x04\x00\x00\x00\x05\x00",
    },
    Bound {
        name: "OPT with broken options",
        octets: b"\x00\x00\x00\x00\x00\x00\x00\x00\x00\x00\x00\x01\x00\x00\x29\x10\x00\x01\x00\x00\x00\x00\x00\x01\x00",
    },
];

/// A message with one question, whose name has labels of 63, 63, 63 and `last` octets.
pub(crate) fn long_question(last: u8) -> [u8; 272] {
    let mut octets = [0; 272];
    octets[5] = 1;
    octets[12] = 63;
    octets[76] = 63;
    octets[140] = 63;
    octets[204] = last;
    octets
}

/// The next state of a generator of random numbers (xorshift).
fn next_state(state: u64) -> u64 {
    let state = state ^ state << 13;
    let state = state ^ state >> 7;
    state ^ state << 17
}

/// Names, some of which are well-formed only at some offsets.
const NAMES: [&[u8]; 8] = [
    b"\x00",
    b"\xC0\x0C",
    b"\x01a\x00",
    b"\x01A\x00",
    b"\x01b\x00",
    b"\x01a\xC0\x0C",
    b"\x01c\xC0\x1E",
    b"\x40",
];

/// The type, class and TTL of records: A, NS, CNAME, OPT and TXT.
const FIELDS: [&[u8]; 8] = [
    b"\x00\x01\x00\x01\x00\x00\x00\x00",
    b"\x00\x01\x00\x03\x00\x00\x0E\x10",
    b"\x00\x02\x00\x01\x00\x00\x00\x3C",
    b"\x00\x05\x00\x01\x00\x00\x00\x00",
    b"\x00\x05\x00\x03\x00\x00\x00\x3C",
    b"\x00\x29\x04\xD0\x01\x00\x80\x00",
    b"\x00\x29\x10\x00\x00\x00\x00\x00",
    b"\x00\x10\x00\x01\xFF\xFF\xFF\xFF",
];

/// RDATA after its length.
const DATA: [&[u8]; 8] = [
    b"\x00\x00",
    b"\x00\x04\x01\x02\x03\x04",
    b"\x00\x05\x01\x02\x03\x04\x05",
    b"\x00\x02\xC0\x0C",
    b"\x00\x03\x01b\x00",
    b"\x00\x03\x01A\x00",
    b"\x00\x05\x00\x03\x00\x01x",
    b"\x00\x06\x01\x02\x03",
];

/// One of the pieces, by the low bits of a number.
fn piece(pieces: [&'static [u8]; 8], number: u64) -> &'static [u8] {
    pieces[(number & 7) as usize]
}

/// An odd number whose multiples differ in their higher bits too.
const SPREAD: u64 = 0x9E37_79B9_7F4A_7C15;

/// A message with up to one question and six records, whose pieces are chosen at random.
pub(crate) fn random_message(seed: u64) -> Buffer {
    let mut state = next_state(seed.wrapping_mul(SPREAD));
    let [flags, questions, answers, others, ..] = state.to_be_bytes();
    let mut octets = Buffer::of(&[0, 0, flags, 0, 0, questions & 1, 0, answers & 3]).with(&[
        0,
        others & 1,
        0,
        others >> 1 & 3,
    ]);
    if questions & 1 == 1 {
        octets = octets.with(piece(NAMES, state)).with(&[0, 1, 0, 1]);
    }
    for _ in 0..6 {
        state = next_state(state);
        octets = octets
            .with(piece(NAMES, state))
            .with(piece(FIELDS, state >> 8))
            .with(piece(DATA, state >> 16));
    }
    octets
}
