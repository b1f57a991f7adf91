//! Names in wire format: iterated over from both ends, and stored in octets of their own. What is
//! parsed and skipped as a name is in the messages of `cases_runs`.
use crate::asserts::{assert_octets, assert_prints, assert_same, name_at, name_of};
use arrayvec::ArrayVec;
use dns_wire::{Composer, FormError, Label, Name, ParseError, ParsedName, ToName, ToNameExt};

const BAD_LABEL: ParseError = ParseError::Form(FormError::BAD_LABEL);

const BAD_POINTER: ParseError = ParseError::Form(FormError::BAD_POINTER);

const LONG_NAME: ParseError = ParseError::Form(FormError::LONG_NAME);

const SHORT: ParseError = ParseError::ShortInput;

/// com., example.com. at offset 5, and a.example.com., through two pointers, at offset 15.
const EXAMPLE: &[u8] = b"\x03com\x00\x07example\xC0\x00\x01a\xC0\x05";

/// The octets of a label.
fn octets_of(label: Option<Label<'_>>) -> Option<&[u8]> {
    Some(label?.as_slice())
}

#[test]
fn goes_over_labels_from_both_ends(rt: HostRuntime) {
    let mut labels = name_at(&rt, EXAMPLE, 15).iter_labels();
    let found = [
        octets_of(labels.next()),
        octets_of(labels.next_back()),
        octets_of(labels.next_back()),
        octets_of(labels.next()),
        octets_of(labels.next()),
    ];
    let expected: [Option<&[u8]>; 5] = [
        Some(b"a"),
        Some(b""),
        Some(b"com"),
        Some(b"example"),
        None,
    ];
    let row = "the first, the last two, the one between, and no more";
    assert_same(&rt, row, found, expected);
}

/// The suffixes of a.example.com., each with its number of labels.
const SUFFIXES: &[(&str, usize)] = &[
    ("a.example.com.", 4),
    ("example.com.", 3),
    ("com.", 2),
    (".", 1),
];

/// Each suffix is the parent of the one before it.
#[test]
fn goes_over_suffixes(rt: HostRuntime) {
    let name = name_at(&rt, EXAMPLE, 15);
    let mut suffixes = name.iter_suffixes();
    let mut ancestor = Some(name);
    for &(text, count) in SUFFIXES {
        let suffix = suffixes.next().expect(&rt, text);
        assert_prints(&rt, rt.alloc(), text, &suffix.fmt_with_dot(), text);
        let found = (ancestor, suffix.label_count());
        assert_same(&rt, text, found, (Some(suffix), count));
        ancestor = suffix.parent();
    }
    let after = [suffixes.next(), ancestor];
    assert_same(&rt, "after the root", after, [None; 2]);
}

/// Octets, and the error for which they are no uncompressed name.
struct Whole {
    name: &'static str,
    octets: &'static [u8],
    fault: Option<ParseError>,
}

const WHOLE: &[Whole] = &[
    Whole {
        name: "the root",
        octets: b"\x00",
        fault: None,
    },
    Whole {
        name: "one label",
        octets: b"\x02Ab\x00",
        fault: None,
    },
    Whole {
        name: "an octet after the root label",
        octets: b"\x02Ab\x00\x00",
        fault: Some(LONG_NAME),
    },
    Whole {
        name: "a pointer",
        octets: b"\x02Ab\xC0\x00",
        fault: Some(BAD_POINTER),
    },
    Whole {
        name: "the reserved label type 01",
        octets: b"\x40\x00",
        fault: Some(BAD_LABEL),
    },
    Whole {
        name: "the reserved label type 10",
        octets: b"\x80\x00",
        fault: Some(BAD_LABEL),
    },
    Whole {
        name: "no root label",
        octets: b"\x02Ab",
        fault: Some(SHORT),
    },
    Whole {
        name: "a label that is cut",
        octets: b"\x02A",
        fault: Some(SHORT),
    },
    Whole {
        name: "half a pointer",
        octets: b"\xC0",
        fault: Some(SHORT),
    },
    Whole {
        name: "no octet",
        octets: b"",
        fault: Some(SHORT),
    },
];

#[test]
fn takes_whole_octets_alone(rt: HostRuntime) {
    for case in WHOLE {
        let fault = Name::from_octets(case.octets).err();
        assert_same(&rt, case.name, fault, case.fault);
    }
}

/// Ab., uncompressed.
const AB: &[u8] = b"\x02Ab\x00";

/// A type of the test's own that represents a name: it wraps one.
#[derive(Drop)]
struct Alias<N> {
    target: N,
}

impl<N: ToName> ToName for Alias<N> {
    ghost name = { λ alias. N.name alias.target };

    ghost is_name = { λ alias. N.is_name alias.target };

    fn as_parsed(&self) -> ParsedName<'_> {
        self.target.as_parsed()
    }
}

/// Whether these are the uncompressed octets that a value lends, or it lends none.
fn lends<N: ToName>(name: &N, octets: Option<&[u8]>) -> bool {
    name.as_flat_slice() == octets
}

#[test]
fn represents_names(rt: HostRuntime) {
    let name = name_of(&rt, AB);
    let alias = Alias { target: name };
    let pointer = name_at(&rt, b"\x02Ab\x00\xC0\x00", 4);
    let answers = [
        lends(&&name, Some(AB)),
        lends(&alias, Some(AB)),
        lends(&pointer, None),
        alias.name_eq(&pointer),
    ];
    assert_same(&rt, "octets that are lent", answers, [true; 4]);
    let mut target = ArrayVec::<u8, 4>::new();
    let answer = target.append_compressed_name(&alias);
    assert_same(&rt, "an alias", answer, Ok(()));
    assert_octets(&rt, "an alias", &target, AB);
}
