//! Types that hold octets, and conversions between them.
ghost use Rattle.std.specs.Prelude.{IsOk};

use crate::asserts::{assert_same, name_at, name_of};
use arrayvec::ArrayVec;
use dns_code::Rtype;
use dns_item::Question;
use dns_wire::{AppendError, FlattenInto, Name, Octets, OctetsFrom, ParsedName, ToName, ToNameExt};
use std::alloc::{AllocError, Global};
use std::process::Abort;

/// `example.com`, uncompressed.
const PLAIN: [u8; 13] = *b"\x07example\x03com\x00";

/// `com`, and `example.com` at offset 5, with a pointer after its first label.
const POINTED: &[u8] = b"\x03com\x00\x07example\xC0\x00";

/// Whether the source is converted into a value that holds `abc`.
fn gives_abc<T: OctetsFrom<S> + Octets, S>(alloc: Global, source: S) -> Result<bool, AppendError> {
    Ok(T::try_octets_from(alloc, source)?.octets() == b"abc".as_slice())
}

/// One conversion by each impl, from octets of each type.
#[test]
fn converts_octets(rt: HostRuntime) {
    let alloc = rt.alloc();
    let array = *b"abc";
    let slice = array.as_slice();
    let full = ArrayVec::<u8, 3>::from(array);
    let converted = [
        gives_abc::<Vec<u8>, &ArrayVec<u8, 3>>(alloc, &full),
        gives_abc::<ArrayVec<u8, 3>, &[u8]>(alloc, slice),
        gives_abc::<&[u8], &[u8; 3]>(alloc, &array),
        gives_abc::<&[u8], &[u8]>(alloc, slice),
        gives_abc::<ArrayVec<u8, 2>, [u8; 3]>(alloc, array),
    ];
    let short = Err(AppendError::ShortBuf);
    let expected = [Ok(true), Ok(true), Ok(true), Ok(true), short];
    assert_same(&rt, "octets, at last more than fit", converted, expected);
}

/// The name in an `ArrayVec`.
fn held_name(rt: &impl Abort) -> Name<ArrayVec<u8, 13>> {
    Name::from_octets(ArrayVec::from(PLAIN)).expect(rt, "a name")
}

/// Whether the source is converted into a name with the same octets.
fn gives_name<T: OctetsFrom<S> + ToName + Drop, S>(
    alloc: Global,
    source: S,
    name: &ParsedName<'_>,
) -> Result<bool, AppendError> {
    Ok(T::try_octets_from(alloc, source)?.octets_eq(name))
}

/// Name conversions and clones: one conversion by each impl. Octets in an array vector of twelve
/// octets are too many.
#[test]
fn converts_names(rt: HostRuntime) {
    let alloc = rt.alloc();
    let name = name_at(&rt, POINTED, 5);
    let slice = name_of(&rt, &PLAIN);
    let held = held_name(&rt);
    let converted = [
        gives_name::<Name<Vec<u8>>, _>(alloc, slice, &name),
        gives_name::<Name<Vec<u8>>, _>(alloc, &held, &name),
        gives_name::<Name<ArrayVec<u8, 13>>, _>(alloc, slice, &name),
        gives_name::<Name<ArrayVec<u8, 13>>, _>(alloc, &held, &name),
        gives_name::<Name<&[u8]>, _>(alloc, &held, &name),
        gives_name::<Name<&[u8]>, _>(alloc, slice, &name),
        gives_name::<Name<ArrayVec<u8, 12>>, _>(alloc, slice, &name),
    ];
    let short = Err(AppendError::ShortBuf);
    let done = Ok(true);
    let expected = [done, done, done, done, done, done, short];
    assert_same(&rt, "names, at last one too long", converted, expected);
}

/// Whether the name is flattened into an equal one.
fn flattens_to<T: ToName + Drop, S: FlattenInto<T> + ToName + Copy>(
    alloc: Global,
    name: S,
) -> Result<bool, AppendError> {
    Ok(name.try_flatten_into(alloc)?.octets_eq(&name))
}

/// Name conversions and clones: from a name in a message to a name of its own.
#[test]
fn flattens(rt: HostRuntime) {
    let name = name_at(&rt, POINTED, 5);
    let flat = [
        flattens_to::<Name<Vec<u8>>, _>(rt.alloc(), name),
        flattens_to::<Name<ArrayVec<u8, 255>>, _>(rt.alloc(), name),
    ];
    assert_same(&rt, "into both", flat, [Ok(true); 2]);
}

/// Cloning a question with a borrowed name never fails.
fn clone_of<'a>(question: &Question<Name<&'a [u8]>>) -> Result<Question<Name<&'a [u8]>>, AllocError>
    ensures { IsOk result }
{
    question.clone()
}

/// Cloning a name in an `ArrayVec` never fails.
fn held_clone_of(name: &Name<ArrayVec<u8, 13>>) -> Result<Name<ArrayVec<u8, 13>>, AllocError>
    ensures { IsOk result }
{
    name.clone()
}

/// Name conversions and clones: clones of a question, and of a name in octets of its own.
#[test]
fn clones_a_name_and_a_question(rt: HostRuntime) {
    let slice = name_of(&rt, &PLAIN);
    let question = Question::new_in(slice, Rtype::A);
    let clone = clone_of(&question);
    assert_same(&rt, "a question with a borrowed name", clone, Ok(question));
    let clone = held_clone_of(&held_name(&rt)).expect(&rt, "a clone");
    assert_same(&rt, "a name", clone.octets_eq(&slice), true);
}
