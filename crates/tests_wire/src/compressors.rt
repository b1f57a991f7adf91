//! Compressors: the example of RFC 1035 section 4.1.4, cuts, and names that are refused.
ghost use Rattle.std.specs.Prelude.{◌≡◌};
ghost use Rattle.dns_wire.specs.Encoders.{Plain};

use crate::asserts::{assert_octets, assert_same};
use crate::callers::HISTORY;
use crate::steps::{Step, assert_steps, take};
use crate::targets::{Refusing, WANT};
use arrayvec::ArrayVec;
use dns_target::{FingerprintCompressor, HashCompressor, StaticCompressor, TreeCompressor};
use dns_wire::{AppendError, CloneTarget, Composer, FreezeBuilder, Octets};
use std::alloc::Global;
use std::convert::AsSlice;
use std::process::Abort;
use tests_plain::PlainRule;

const A: &[u8] = b"\x01a\x00";

const A_BC_DE: &[u8] = b"\x01a\x02bc\x02de\x00";

const BC_DE: &[u8] = b"\x02bc\x02de\x00";

const DE: &[u8] = b"\x02de\x00";

const F_ISI_ARPA: &[u8] = b"\x01F\x03ISI\x04ARPA\x00";

const FOO_F_ISI_ARPA: &[u8] = b"\x03FOO\x01F\x03ISI\x04ARPA\x00";

const ISI_ARPA: &[u8] = b"\x03ISI\x04ARPA\x00";

const ARPA: &[u8] = b"\x04ARPA\x00";

/// Steps on an empty target, and the length of its content after them. Then steps on a clone.
pub(crate) struct Case {
    pub(crate) name: &'static str,
    pub(crate) steps: &'static [Step],
    pub(crate) len: usize,
    pub(crate) others: &'static [Step],
}

/// No steps.
pub(crate) const ALIKE: Case = Case {
    name: "",
    steps: &[],
    len: 0,
    others: &[],
};

/// The names of the example of RFC 1035 at their offsets 20, 40, 64 and 92. Then a cut within the
/// first of them, which is written in full again, and once more with letters of the other case.
const RFC_1035: &[Step] = &[
    Step::Octets(&[0; 20], Ok(&[0; 20])),
    Step::Name(F_ISI_ARPA, Ok(F_ISI_ARPA)),
    Step::Octets(&[0; 8], Ok(&[0; 8])),
    Step::Name(FOO_F_ISI_ARPA, Ok(b"\x03FOO\xc0\x14")),
    Step::Octets(&[0; 18], Ok(&[0; 18])),
    Step::Name(ARPA, Ok(b"\xc0\x1a")),
    Step::Octets(&[0; 26], Ok(&[0; 26])),
    Step::Name(b"\x00", Ok(b"\x00")),
    Step::Cut(31),
    Step::Name(ARPA, Ok(ARPA)),
    Step::Name(b"\x04arpa\x00", Ok(b"\x04arpa\x00")),
    Step::Name(ISI_ARPA, Ok(b"\x03ISI\xc0\x1f")),
];

/// On an empty `Vec`. Further cases, as of names at offset 16,384, are in `cases_runs`.
const CASES: &[Case] = &[
    Case {
        name: "the example of RFC 1035",
        steps: RFC_1035,
        len: 49,
        ..ALIKE
    },
    Case {
        name: "Cut inside a name",
        steps: &[
            Step::Name(A_BC_DE, Ok(A_BC_DE)),
            Step::Cut(5),
            Step::Name(BC_DE, Ok(BC_DE)),
            Step::Name(A_BC_DE, Ok(b"\x01a\xc0\x05")),
        ],
        len: 16,
        ..ALIKE
    },
    Case {
        name: "Cut inside a pointer",
        steps: &[
            Step::Name(A_BC_DE, Ok(A_BC_DE)),
            Step::Name(BC_DE, Ok(b"\xc0\x02")),
            Step::Cut(10),
            Step::Name(DE, Ok(b"\xc0\x05")),
        ],
        len: 12,
        ..ALIKE
    },
    Case {
        name: "Cut of the last octet",
        steps: &[
            Step::Name(A_BC_DE, Ok(A_BC_DE)),
            Step::Cut(8),
            Step::Name(DE, Ok(DE)),
        ],
        len: 12,
        ..ALIKE
    },
    Case {
        name: "Clones: the same table",
        steps: &[
            Step::Octets(&[0; 12], Ok(&[0; 12])),
            Step::Name(A, Ok(A)),
            Step::Octets(&[0; 4], Ok(&[0; 4])),
        ],
        len: 19,
        others: &[
            Step::Name(A, Ok(b"\xc0\x0c")),
            Step::Octets(b"\x00\x01\x00\x01", Ok(b"\x00\x01\x00\x01")),
        ],
    },
    HISTORY,
];

/// On an `ArrayVec` of 11 octets. A name that exceeds the remaining capacity is refused, and then a
/// shorter one is accepted.
const SHORT_CASES: &[Case] = &[
    Case {
        name: "a capacity of eleven octets",
        steps: &[
            Step::Name(b"\x02Ab\x00", Ok(b"\x02Ab\x00")),
            Step::Name(b"\x05Short\x02Ab\x00", Err(AppendError::ShortBuf)),
            Step::Name(b"\x04Fits\x02Ab\x00", Ok(b"\x04Fits\xc0\x00")),
        ],
        len: 11,
        ..ALIKE
    },
    HISTORY,
];

/// On a target that refuses each growth.
const WANT_CASES: &[Case] = &[Case {
    name: "no memory",
    steps: WANT,
    ..ALIKE
}];

/// A compressor. No two are the same type, or the impls would overlap.
pub(crate) trait Compressing: CloneTarget {}

impl<T: CloneTarget> Compressing for StaticCompressor<T> {}

impl<T: CloneTarget> Compressing for TreeCompressor<T> {}

impl<T: CloneTarget> Compressing for HashCompressor<T> {}

impl<T: CloneTarget> Compressing for FingerprintCompressor<T> {}

/// What is tested on each compressor.
pub(crate) trait Check {
    /// Fails unless a compressor over an empty target writes what it has to. The plain encoding by
    /// `rule` is that of the compressor.
    fn assert_on<T: Compressing>(&self, rt: &impl Abort, rule: PlainRule, target: T);
}

fn clone_of<T: CloneTarget>(rt: &impl Abort, target: &T) -> T {
    target.clone_target().expect(rt, "a clone")
}

/// Tests each compressor over clones of an empty target.
pub(crate) fn assert_on_each<T: CloneTarget, C: Check>(
    rt: &impl Abort,
    alloc: Global,
    empty: &T,
    check: &C,
)
    requires { T.rule ≡ Plain }
{
    let offsets = StaticCompressor::new(clone_of(rt, empty));
    check.assert_on(rt, PlainRule::Static, offsets);
    let tree = TreeCompressor::new(alloc, clone_of(rt, empty));
    check.assert_on(rt, PlainRule::Tree, tree);
    let fingerprints = FingerprintCompressor::new(alloc, clone_of(rt, empty));
    check.assert_on(rt, PlainRule::Tree, fingerprints);
    let hash = HashCompressor::new(alloc, clone_of(rt, empty));
    check.assert_on(rt, PlainRule::Hash, hash);
}

/// Overwriting no octets is allowed everywhere, also inside a name in the compression table.
fn write_nothing<T: Composer>(target: &mut T) {
    if !target.as_slice().is_empty() {
        target.write_at(1, b"");
    }
}

/// Takes the steps of a case on the target, and then other steps on a clone of it. The target
/// doesn't change then.
impl Check for Case {
    fn assert_on<T: Compressing>(&self, rt: &impl Abort, _rule: PlainRule, mut target: T) {
        assert_steps(rt, self.name, &mut target, self.steps);
        write_nothing(&mut target);
        let mut clone = target.clone_target().expect(rt, self.name);
        assert_steps(rt, self.name, &mut clone, self.others);
        clone.truncate(self.len);
        let octets = target.as_slice();
        assert_octets(rt, self.name, octets, clone.as_slice());
        let found = (octets.len(), target.can_compress());
        assert_same(rt, self.name, found, (self.len, true));
    }
}

/// Takes the cases on each compressor over an empty target.
fn assert_cases<T: CloneTarget>(rt: &impl Abort, alloc: Global, empty: &T, cases: &[Case])
    requires { T.rule ≡ Plain }
{
    for case in cases {
        assert_on_each(rt, alloc, empty, case);
    }
}

#[test]
fn each_writes_these_names(rt: HostRuntime) {
    let alloc = rt.alloc();
    assert_cases(&rt, alloc, &Vec::new(alloc), CASES);
    assert_cases(&rt, alloc, &ArrayVec::<u8, 11>::new(), SHORT_CASES);
    assert_cases(&rt, alloc, &Refusing, WANT_CASES);
}

/// Fails unless a compressor over the empty target lends and gives it.
fn assert_lends<T: FreezeBuilder>(rt: &impl Abort, target: T)
    requires { T.rule ≡ Plain }
{
    let mut target = StaticCompressor::new(target);
    take(rt, "a name", &mut target, Step::Name(DE, Ok(DE)));
    assert_octets(rt, "AsSlice", AsSlice::as_slice(&target), DE);
    assert_octets(rt, "as_target", target.as_target().as_slice(), DE);
    let frozen = target.into_target().freeze();
    assert_octets(rt, "the target", frozen.octets(), DE);
}

#[test]
fn lends_and_gives_its_target(rt: HostRuntime) {
    assert_lends(&rt, ArrayVec::<u8, 4>::new());
}
