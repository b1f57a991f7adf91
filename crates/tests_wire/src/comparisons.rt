//! Comparisons and hashes of labels and names.
use crate::asserts::{assert_same, name_at, name_of};
use dns_wire::{Label, ParsedName, Parser, ToNameExt};
use std::cmp::Ordering;
use std::hash::{DefaultHasher, Hash, Hasher};
use std::process::Abort;

fn hash_of<T: Hash>(value: &T) -> u64 {
    let mut state = DefaultHasher::new();
    value.hash(&mut state);
    state.finish()
}

fn compare<T: Ord>(value: &T, other: &T) -> Ordering {
    value.cmp(other)
}

/// The names of RFC 4034 section 6.1, consecutive and in canonical order.
const CANONICAL_ORDER: &[u8] =
    b"\x07example\x00\x01a\x07example\x00\x08yljkjljk\x01a\x07example\x00\x01Z\x01a\x07example\x00\x04zABC\x01a\x07EXAMPLE\x00\x01z\x07example\x00\x01\x01\x01z\x07example\x00\x01*\x01z\x07example\x00\x01\xC8\x01z\x07example\x00";

/// How the names after the first one are printed: each is greater than the one before it.
const PRINTED: [&str; 8] = [
    "a.example",
    "yljkjljk.a.example",
    "Z.a.example",
    "zABC.a.EXAMPLE",
    "z.example",
    "\\001.z.example",
    "*.z.example",
    "\\200.z.example",
];

/// The next name in canonical order.
fn next_name(rt: &impl Abort, parser: &mut Parser<'static>) -> ParsedName<'static> {
    ParsedName::parse(parser).expect(rt, "a name of the RFC")
}

#[test]
fn orders_names_from_the_root(rt: HostRuntime) {
    let mut parser = Parser::new(CANONICAL_ORDER);
    let mut before = next_name(&rt, &mut parser);
    for row in PRINTED {
        let name = next_name(&rt, &mut parser);
        let orders = (
            before.name_cmp(&name),
            compare(&name, &before),
            before < name,
        );
        let expected = (Ordering::Less, Ordering::Greater, true);
        assert_same(&rt, row, orders, expected);
        before = name;
    }
    assert_same(&rt, "octets left over", parser.remaining(), 0);
}

/// www.dE., a pointer to it, WwW.De. and x.de.
const NAMES: &[u8] = b"\x03www\x02dE\x00\xC0\x00\x03WwW\x02De\x00\x01x\x02de\x00";

/// The offset of a name, whether the name equals www.dE. octet for octet and ignoring ASCII case,
/// and how www.dE. compares to it: by labels from the root, and by octets.
struct Case {
    name: &'static str,
    offset: usize,
    is_same: bool,
    is_equal: bool,
    by_labels: Ordering,
    by_octets: Ordering,
}

const CASES: &[Case] = &[
    Case {
        name: "a pointer to the name",
        offset: 8,
        is_same: true,
        is_equal: true,
        by_labels: Ordering::Equal,
        by_octets: Ordering::Equal,
    },
    Case {
        name: "the name in other letter case",
        offset: 10,
        is_same: false,
        is_equal: true,
        by_labels: Ordering::Equal,
        by_octets: Ordering::Equal,
    },
    // www precedes x by its letters, and follows it by the length of the first label.
    Case {
        name: "a name with a shorter first label",
        offset: 18,
        is_same: false,
        is_equal: false,
        by_labels: Ordering::Less,
        by_octets: Ordering::Greater,
    },
];

#[test]
fn ignores_letter_case_but_for_octets_eq(rt: HostRuntime) {
    let name = name_at(&rt, NAMES, 0);
    for case in CASES {
        let other = name_at(&rt, NAMES, case.offset);
        let is_same = name.octets_eq(&other);
        assert_same(&rt, case.name, is_same, case.is_same);
        let equal = [
            name.name_eq(&other),
            name == other,
            hash_of(&name) == hash_of(&other),
        ];
        assert_same(&rt, case.name, equal, [case.is_equal; 3]);
        let orders = (name.name_cmp(&other), name.lowercase_composed_cmp(&other));
        assert_same(&rt, case.name, orders, (case.by_labels, case.by_octets));
    }
}

/// A name, and whether www.dE. starts and ends with it.
struct Base {
    name: &'static str,
    octets: &'static [u8],
    starts: bool,
    ends: bool,
}

const BASES: &[Base] = &[
    Base {
        name: "the root",
        octets: b"\x00",
        starts: true,
        ends: true,
    },
    Base {
        name: "the name in other letter case",
        octets: b"\x03wWw\x02DE\x00",
        starts: true,
        ends: true,
    },
    Base {
        name: "the first label",
        octets: b"\x03Www\x00",
        starts: true,
        ends: false,
    },
    Base {
        name: "the parent",
        octets: b"\x02De\x00",
        starts: false,
        ends: true,
    },
    Base {
        name: "a subdomain",
        octets: b"\x01a\x03www\x02de\x00",
        starts: false,
        ends: false,
    },
    Base {
        name: "a name with one more label before the root",
        octets: b"\x03www\x02de\x02de\x00",
        starts: false,
        ends: false,
    },
    Base {
        name: "the first octets of the first label",
        octets: b"\x02ww\x00",
        starts: false,
        ends: false,
    },
    Base {
        name: "the last octet of the last label",
        octets: b"\x01e\x00",
        starts: false,
        ends: false,
    },
];

/// www.dE., which a pointer leads to.
#[test]
fn starts_and_ends_by_whole_labels(rt: HostRuntime) {
    let name = name_at(&rt, NAMES, 8);
    for case in BASES {
        let base = name_of(&rt, case.octets);
        let found = [name.starts_with(&base), name.ends_with(&base)];
        assert_same(&rt, case.name, found, [case.starts, case.ends]);
    }
}

#[test]
fn compares_names_of_their_own_octets(rt: HostRuntime) {
    let name = name_of(&rt, b"\x01A\x00");
    let same = name_of(&rt, b"\x01a\x00");
    let equal = Some(Ordering::Equal);
    let answers = [
        name == same,
        hash_of(&name) == hash_of(&same),
        Some(compare(&name, &same)) == equal,
        name.partial_cmp(&same) == equal,
    ];
    assert_same(&rt, "equality and order", answers, [true; 4]);
}

/// The first label of the name in these octets.
fn first_label<'a>(rt: &impl Abort, octets: &'a [u8]) -> Label<'a> {
    let mut labels = name_at(rt, octets, 0).iter_labels();
    labels.next().expect(rt, "a label")
}

/// In ASCII, the bracket is between the upper-case and the lower-case letters.
#[test]
fn compares_labels_lowercased(rt: HostRuntime) {
    let label = first_label(&rt, b"\x02aB\x00");
    let same = first_label(&rt, b"\x02Ab\x00");
    let bracket = first_label(&rt, b"\x02a[\x00");
    let answers = [
        label == same,
        hash_of(&label) == hash_of(&same),
        bracket < label,
    ];
    assert_same(&rt, "equality, and a bracket", answers, [true; 3]);
    assert_same(&rt, "order", compare(&label, &same), Ordering::Equal);
}
