//! The compressors beside every possible compression of small lists of names (RFC 1035 section
//! 4.1.4).
//!
//! What is written is compared with the plain encoding of `tests_plain`, octet for octet, and its
//! length with that of each compression. A compression is one free choice for each name: all its
//! labels, or its first k >= 0 labels and a pointer to a suffix of an earlier name.
ghost use Rattle.std.specs.Prelude.{◌≤◌};

use crate::asserts::{assert_octets, assert_same};
use crate::compressors::{Check, Compressing, assert_on_each};
use crate::steps::append_name;
use std::alloc::Global;
use std::process::Abort;
use tests_plain::{PlainRule, PlainTarget};

const ROOT: &[u8] = b"\x00";

const A: &[u8] = b"\x01a\x00";

const B: &[u8] = b"\x01b\x00";

const UPPER_A: &[u8] = b"\x01A\x00";

const A_B: &[u8] = b"\x01a\x01b\x00";

const B_B: &[u8] = b"\x01b\x01b\x00";

/// All names with at most two of the labels a, b and A. The letters a and A are two labels.
const NAMES: [&[u8]; 13] = [
    ROOT,
    A,
    B,
    UPPER_A,
    b"\x01a\x01a\x00",
    A_B,
    b"\x01a\x01A\x00",
    b"\x01b\x01a\x00",
    B_B,
    b"\x01b\x01A\x00",
    b"\x01A\x01a\x00",
    b"\x01A\x01b\x00",
    b"\x01A\x01A\x00",
];

/// The octets of a label of one octet, with its length octet.
const LABEL_LEN: usize = 2;

/// The octets of a pointer.
const POINTER_LEN: usize = 2;

/// The octets of a name by each choice for it after earlier names: a pointer in place of each
/// suffix that ends an earlier name, and no pointer. All labels have one octet.
fn choice_lens(rt: &impl Abort, alloc: Global, earlier: &[&[u8]], name: &[u8]) -> Vec<usize> {
    let mut lens = Vec::new(alloc);
    for count in 0..name.len() / LABEL_LEN {
        let offset = count * LABEL_LEN;
        if earlier.iter().any(|other| other.ends_with(&name[offset..])) {
            lens.push(offset + POINTER_LEN).expect(rt, "memory");
        }
    }
    lens.push(name.len()).expect(rt, "memory");
    lens
}

/// The sum of each length and each choice.
fn longer_lens(rt: &impl Abort, alloc: Global, lens: &[usize], choices: &[usize]) -> Vec<usize> {
    let mut longer = Vec::new(alloc);
    for len in lens {
        for choice in choices {
            let sum = len.saturating_add(*choice);
            longer.push(sum).expect(rt, "memory");
        }
    }
    longer
}

/// The octets of each compression of a list of names: one choice for each name.
fn compression_lens(rt: &impl Abort, alloc: Global, names: &[&[u8]]) -> Vec<usize> {
    let mut lens = vec![in alloc; 0].expect(rt, "memory");
    for count in 0..names.len() {
        let choices = choice_lens(rt, alloc, &names[..count], names[count]);
        lens = longer_lens(rt, alloc, &lens, &choices);
    }
    lens
}

/// The plain encoding of names by a rule.
fn plain_octets(rt: &impl Abort, alloc: Global, rule: PlainRule, names: &[&[u8]]) -> Vec<u8> {
    let mut plain = PlainTarget::new(alloc);
    for name in names {
        plain.push_name(rule, name).expect(rt, "memory");
    }
    plain.octets
}

/// A list of names, and the octets that they have to take.
#[derive(Clone, Copy)]
struct Names<'a> {
    alloc: Global,
    names: &'a [&'a [u8]],
    len: Option<usize>,
}

/// The names take so many octets on an empty target, and are the plain encoding.
impl Check for Names<'_> {
    fn assert_on<T: Compressing>(&self, rt: &impl Abort, rule: PlainRule, mut target: T) {
        for name in self.names {
            append_name(rt, &mut target, name).expect(rt, "memory");
        }
        let octets = target.as_slice();
        let written = (self.names, Some(octets.len()));
        assert_same(
            rt,
            "the shortest compression",
            written,
            (self.names, self.len),
        );
        let plain = plain_octets(rt, self.alloc, rule, self.names);
        assert_octets(rt, "the plain encoding", octets, &plain);
    }
}

/// Checks that each compressor writes the names in as many octets as their shortest compression
/// has. Returns the number of compressions.
fn assert_shortest(rt: &impl Abort, alloc: Global, names: &[&[u8]]) -> usize {
    let lens = compression_lens(rt, alloc, names);
    let len = lens.iter().min().copied();
    assert_on_each(rt, alloc, &Vec::new(alloc), &Names { alloc, names, len });
    lens.len()
}

/// Checks the same for each list of `len` names, of which there are `lists`. Returns the number of
/// their compressions.
fn assert_all(rt: &impl Abort, alloc: Global, len: usize, lists: usize) -> usize
    requires { len ≤ 3 }
{
    let mut count: usize = 0;
    for list in 0..lists {
        let names = [
            NAMES[list % 13],
            NAMES[list / 13 % 13],
            NAMES[list / 169 % 13],
        ];
        let compressions = assert_shortest(rt, alloc, &names[..len]);
        count = count.saturating_add(compressions);
    }
    count
}

/// The number of compressions that all lists of no name, of one, of two and of three names have,
/// counted by hand.
///
/// A list of no name or one has one. Each of the 169 lists of two names has one; the 48 lists whose
/// names end with the same label have one more, and the 9 lists with the same two labels twice have
/// yet another. After two names, the 13 possible third names have 13 choices in all, 4 more for
/// each label that ends one of the two, and 1 more for each name of two labels among them. Such a
/// sum, times the number for the two names, adds up to 4519 over all pairs of first names.
const COUNTS: [usize; 4] = [1, 13, 226, 4519];

#[test]
fn none_is_shorter_than_what_is_written(rt: HostRuntime) {
    let alloc = rt.alloc();
    let counts = [
        assert_all(&rt, alloc, 0, 1),
        assert_all(&rt, alloc, 1, 13),
        assert_all(&rt, alloc, 2, 169),
        assert_all(&rt, alloc, 3, 2197),
    ];
    assert_same(&rt, "the numbers of compressions", counts, COUNTS);
}

/// A list of names, and the octets of each of its compressions.
struct Case {
    name: &'static str,
    names: &'static [&'static [u8]],
    lens: &'static [usize],
}

const BY_HAND: &[Case] = &[
    Case {
        name: "no name",
        names: &[],
        lens: &[0],
    },
    Case {
        name: "the root twice",
        names: &[ROOT, ROOT],
        lens: &[2],
    },
    Case {
        name: "one name",
        names: &[A_B],
        lens: &[5],
    },
    Case {
        name: "a name of two labels twice",
        names: &[A_B, A_B],
        lens: &[7, 9, 10],
    },
    Case {
        name: "names in different letter case",
        names: &[A, UPPER_A],
        lens: &[6],
    },
    Case {
        name: "a name that is no suffix",
        names: &[A_B, A],
        lens: &[8],
    },
    Case {
        name: "a name of the same label twice",
        names: &[B_B],
        lens: &[5],
    },
    Case {
        name: "a suffix of two names",
        names: &[B, A_B, B_B],
        lens: &[11, 12, 12, 13],
    },
];

#[test]
fn compressions_by_hand(rt: HostRuntime) {
    for case in BY_HAND {
        let lens = compression_lens(&rt, rt.alloc(), case.names);
        assert_same(&rt, case.name, lens.as_slice(), case.lens);
    }
}
