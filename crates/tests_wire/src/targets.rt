//! Targets: octets and names that are appended and cut, and appends that fail.
use crate::asserts::assert_same;
use crate::steps::{Step, assert_steps};
use arrayvec::ArrayVec;
use dns_wire::{AppendError, CloneTarget, Composer, FreezeBuilder, Octets, ToName};
use std::alloc::AllocError;
use std::process::Abort;

const AB: &[u8] = b"\x02Ab\x00";

const SHORT: AppendError = AppendError::ShortBuf;

/// Appends octets, a name and a canonical name to an empty target, and cuts it back to three
/// octets.
const WRITES: &[Step] = &[
    Step::Octets(b"\x00\x01", Ok(b"\x00\x01")),
    Step::Name(AB, Ok(AB)),
    Step::Canonical(b"\x01C\x02Ab\x00", Ok(b"\x01c\x02ab\x00")),
    Step::Cut(12),
    Step::Cut(3),
];

/// Takes the steps on an empty target, and freezes a clone of it.
fn assert_writes<T: CloneTarget + FreezeBuilder>(rt: &impl Abort, row: &str, mut target: T) {
    assert_steps(rt, row, &mut target, WRITES);
    let frozen = target.clone_target().expect(rt, row).freeze();
    let found = (target.can_compress(), frozen.octets());
    assert_same(rt, row, found, (false, b"\x00\x01\x02".as_slice()));
}

#[test]
fn writes_to_a_vec_and_to_an_array_vec(rt: HostRuntime) {
    assert_writes(&rt, "a vector", Vec::new(rt.alloc()));
    assert_writes(&rt, "an array vector", ArrayVec::<u8, 12>::new());
}

/// Appends to an `ArrayVec` of five octets.
const CAPACITY: &[Step] = &[
    Step::Octets(b"\x00\x01", Ok(b"\x00\x01")),
    Step::Name(AB, Err(SHORT)),
    Step::Canonical(AB, Err(SHORT)),
    Step::Octets(b"\x02\x03\x04\x05", Err(SHORT)),
    Step::Octets(b"\x02\x03\x04", Ok(b"\x02\x03\x04")),
    Step::Octets(b"\x05", Err(SHORT)),
    Step::Octets(b"", Ok(b"")),
    Step::Cut(1),
    Step::Name(AB, Ok(AB)),
];

/// Appends that fail with `OutOfMemory`.
pub(crate) const WANT: &[Step] = &[
    Step::Name(AB, Err(AppendError::OutOfMemory)),
    Step::Name(AB, Err(AppendError::OutOfMemory)),
    Step::Octets(AB, Err(AppendError::OutOfMemory)),
    Step::Canonical(AB, Err(AppendError::OutOfMemory)),
];

#[test]
fn refuses_what_exceeds_the_capacity_or_the_memory(rt: HostRuntime) {
    let mut target = ArrayVec::<u8, 5>::new();
    assert_steps(&rt, "a capacity of five octets", &mut target, CAPACITY);
    assert_steps(&rt, "no memory", &mut Refusing, WANT);
}

/// Appends octets. Fails unless the capacity is then at most 1,024 octets, twice the old capacity or
/// the length, whichever is more: a vector without capacity first has one of 512 octets, and then
/// may double it.
fn assert_grows(rt: &impl Abort, target: &mut Vec<u8>, octets: &[u8]) {
    let twice = target.capacity().saturating_mul(2);
    target.append_slice(octets).expect(rt, "memory");
    let most = twice.max(target.len()).max(1_024);
    assert_same(rt, "the growth", target.capacity() <= most, true);
}

#[test]
fn grows_by_no_more_than_its_size(rt: HostRuntime) {
    for octets in [b"a".as_slice(), &[7; 700]] {
        let mut target = Vec::new(rt.alloc());
        for _ in 0..2000 {
            assert_grows(&rt, &mut target, octets);
        }
    }
}

/// A target that refuses each growth.
#[derive(Drop)]
pub(crate) struct Refusing;

impl Composer for Refusing {
    ghost use Rattle.std.specs.Prelude.{None, true, [], refl};
    ghost use Rattle.dns_wire.specs.Encoders.{nothing, Plain};

    ghost rule = { Plain };

    ghost capacity = { None };

    ghost grows = { true };

    ghost written = { λ _. record { octets = []; table = nothing } };

    ghost plain_forgets = { λ _ _. refl };

    fn as_slice(&self) -> &[u8] {
        &[]
    }

    fn append_slice(&mut self, _octets: &[u8]) -> Result<(), AppendError> {
        Err(AppendError::OutOfMemory)
    }

    fn append_compressed_name<N: ToName>(&mut self, _name: &N) -> Result<(), AppendError> {
        Err(AppendError::OutOfMemory)
    }

    fn can_compress(&self) -> bool {
        false
    }

    #[tactic(auto, using(dns_wire::proofs::theory::CompressionTables::cut_nothing, dns_wire::proofs::theory::CompressionTables::nothing_is_kept))]
    fn truncate(&mut self, _len: usize) {}

    fn write_at(&mut self, _offset: usize, _octets: &[u8]) {}
}

impl CloneTarget for Refusing {
    fn clone_target(&self) -> Result<Self, AllocError> {
        Ok(Refusing)
    }
}
