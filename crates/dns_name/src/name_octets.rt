//! Conversions of names between types of octets.
ghost use Rattle.std.specs.Prelude.{◌≡◌, ◌<◌, length, ⊤};
ghost use Rattle.dns_octets.specs.Converts.{Converts};
ghost use Rattle.dns_name.specs.NameReading.{name_labels};
ghost use Rattle.dns_name.specs.Names.{uncompressed};

use crate::name::Name;
use arrayvec::ArrayVec;
use dns_octets::{AppendError, Octets, OctetsFrom};
use std::alloc::Global;

fn vec_name<S: Octets>(alloc: Global, source: &Name<S>) -> Result<Name<Vec<u8>>, AppendError>
    ensures { Converts result (λ name. name_labels name ≡ name_labels source.now) ⊥ ⊤ }
{
    let octets = Vec::from_slice(alloc, source.as_slice())?;
    Ok(Name::of_whole(octets))
}

fn array_name<S: Octets, const N: usize>(
    source: &Name<S>,
) -> Result<Name<ArrayVec<u8, N>>, AppendError>
    ensures { Converts result (λ name. name_labels name ≡ name_labels source.now)
        (N < length (uncompressed (name_labels source.now))) ⊥ }
{
    let Ok(octets) = ArrayVec::try_from(source.as_slice()) else {
        return Err(AppendError::ShortBuf);
    };
    Ok(Name::of_whole(octets))
}

impl<S: Octets> OctetsFrom<Name<S>> for Name<Vec<u8>> {
    ghost keeps = { λ source name. name_labels name ≡ name_labels source };

    ghost too_long = { λ _. ⊥ };

    ghost takes_memory = { ⊤ };

    fn try_octets_from(alloc: Global, source: Name<S>) -> Result<Self, AppendError> {
        vec_name(alloc, &source)
    }
}

impl<S: Octets> OctetsFrom<&Name<S>> for Name<Vec<u8>> {
    ghost keeps = { λ source name. name_labels name ≡ name_labels source.now };

    ghost too_long = { λ _. ⊥ };

    ghost takes_memory = { ⊤ };

    fn try_octets_from(alloc: Global, source: &Name<S>) -> Result<Self, AppendError> {
        vec_name(alloc, source)
    }
}

impl<S: Octets, const N: usize> OctetsFrom<Name<S>> for Name<ArrayVec<u8, N>> {
    ghost keeps = { λ source name. name_labels name ≡ name_labels source };

    ghost too_long = { λ source. N < length (uncompressed (name_labels source)) };

    ghost takes_memory = { ⊥ };

    fn try_octets_from(_alloc: Global, source: Name<S>) -> Result<Self, AppendError> {
        array_name(&source)
    }
}

impl<S: Octets, const N: usize> OctetsFrom<&Name<S>> for Name<ArrayVec<u8, N>> {
    ghost keeps = { λ source name. name_labels name ≡ name_labels source.now };

    ghost too_long = { λ source. N < length (uncompressed (name_labels source.now)) };

    ghost takes_memory = { ⊥ };

    fn try_octets_from(_alloc: Global, source: &Name<S>) -> Result<Self, AppendError> {
        array_name(source)
    }
}

impl<'a, S: Octets> OctetsFrom<&'a Name<S>> for Name<&'a [u8]> {
    ghost keeps = { λ source name. name_labels name ≡ name_labels source.now };

    ghost too_long = { λ _. ⊥ };

    ghost takes_memory = { ⊥ };

    fn try_octets_from(_alloc: Global, source: &'a Name<S>) -> Result<Self, AppendError> {
        Ok(Name::of_whole(source.as_slice()))
    }
}

impl<'a> OctetsFrom<Name<&'a [u8]>> for Name<&'a [u8]> {
    ghost keeps = { λ source name. name_labels name ≡ name_labels source };

    ghost too_long = { λ _. ⊥ };

    ghost takes_memory = { ⊥ };

    fn try_octets_from(_alloc: Global, source: Name<&'a [u8]>) -> Result<Self, AppendError> {
        Ok(source)
    }
}
