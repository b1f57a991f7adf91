ghost use Rattle.std.specs.Prelude.{◌≡◌, ℕ, ◌+◌, ◌<◌, ◌≤◌, List, length, ⊤};
ghost use Rattle.dns_octets.specs.Octets.{overwritten};
ghost use Rattle.dns_octets.specs.Converts.{Converts};

use crate::error::AppendError;
use arrayvec::ArrayVec;
use std::alloc::Global;

/// A type that holds octets.
pub trait Octets: Drop {
    ghost octets: { Self → List ℕ };

    /// Returns the octets.
    fn octets(&self) -> &[u8]
        ensures { result.now ≡ octets self.now };
}

/// A type that holds octets and can overwrite them.
pub trait OctetsMut: Octets {
    /// The name of the mutable borrow that the value is, or 0 for a value that owns its octets.
    ///
    /// A function that changes a value ensures that its loan stays. Then the octets of the value are
    /// those of the borrowed buffer when the borrow ends.
    ghost loan: { Self → ℕ } = { λ _. 0 };

    /// Overwrites the octets from offset `offset` on.
    fn write_at(&mut self, offset: usize, octets: &[u8])
        requires { offset + length octets.now ≤ length (Self.octets self.old) }
        ensures octets { Self.octets self.new
            ≡ overwritten (Self.octets self.old) offset octets.now }
        ensures loan { loan self.new ≡ loan self.old };
}

/// A conversion that keeps what the source holds.
pub trait OctetsFrom<Source>: Sized {
    /// What it means that a value holds what the source holds.
    ghost keeps: { Source → Self → Type 0 };

    /// Whether what the source holds exceeds the capacity of this type.
    ghost too_long: { Source → Type 0 };

    /// Whether a conversion allocates.
    ghost takes_memory: { Type 0 };

    /// Converts the source.
    ///
    /// Errors: `ShortBuf` exactly if it exceeds the capacity; `OutOfMemory` if an allocation from
    /// `alloc` fails.
    fn try_octets_from(alloc: Global, source: Source) -> Result<Self, AppendError>
        ensures { Converts result (keeps source) (too_long source) takes_memory };
}

/// A conversion from other octets that keeps the octets.
pub trait BufferFrom<Source: Octets>: Octets + OctetsFrom<Source> {
    /// A value that keeps what the source holds has the same octets.
    ghost same_octets: { (source : Source) (value : Self) → Self.keeps source value
        → Self.octets value ≡ Source.octets source };
}

impl Octets for &[u8] {
    ghost octets = { λ s. s.now };

    fn octets(&self) -> &[u8] {
        self
    }
}

impl Octets for &mut [u8] {
    ghost octets = { λ s. s.now };

    fn octets(&self) -> &[u8] {
        self
    }
}

impl Octets for Vec<u8> {
    ghost octets = { λ v. v.items };

    fn octets(&self) -> &[u8] {
        self.as_slice()
    }
}

impl<const N: usize> Octets for ArrayVec<u8, N> {
    ghost octets = { λ v. v.items };

    fn octets(&self) -> &[u8] {
        self.as_slice()
    }
}

impl<const N: usize> Octets for [u8; N] {
    ghost octets = { λ a. a };

    fn octets(&self) -> &[u8] {
        self
    }
}

impl<T: Octets> Octets for &T {
    ghost octets = { λ x. T.octets x.now };

    fn octets(&self) -> &[u8] {
        (*self).octets()
    }
}

/// Overwrites the octets of the target from offset `offset` on.
pub(crate) fn overwrite_slice(target: &mut [u8], offset: usize, octets: &[u8])
    requires { offset + length octets.now ≤ length target.old }
    ensures { target.new ≡ overwritten target.old offset octets.now }
{
    target[offset..offset + octets.len()].copy_from_slice(octets);
}

impl OctetsMut for &mut [u8] {
    ghost loan = { λ s. s.ghost_name };

    fn write_at(&mut self, offset: usize, octets: &[u8]) {
        overwrite_slice(self, offset, octets);
    }
}

impl OctetsMut for Vec<u8> {
    fn write_at(&mut self, offset: usize, octets: &[u8]) {
        overwrite_slice(self.as_mut_slice(), offset, octets);
    }
}

impl<const N: usize> OctetsMut for ArrayVec<u8, N> {
    fn write_at(&mut self, offset: usize, octets: &[u8]) {
        overwrite_slice(self.as_mut_slice(), offset, octets);
    }
}

impl<const N: usize> OctetsMut for [u8; N] {
    fn write_at(&mut self, offset: usize, octets: &[u8]) {
        overwrite_slice(self, offset, octets);
    }
}

impl<S: Octets> OctetsFrom<S> for Vec<u8> {
    ghost keeps = { λ source value. value.items ≡ S.octets source };

    ghost too_long = { λ _. ⊥ };

    ghost takes_memory = { ⊤ };

    fn try_octets_from(alloc: Global, source: S) -> Result<Self, AppendError> {
        Ok(Vec::from_slice(alloc, source.octets())?)
    }
}

impl<S: Octets, const N: usize> OctetsFrom<S> for ArrayVec<u8, N> {
    ghost keeps = { λ source value. value.items ≡ S.octets source };

    ghost too_long = { λ source. N < length (S.octets source) };

    ghost takes_memory = { ⊥ };

    fn try_octets_from(_alloc: Global, source: S) -> Result<Self, AppendError> {
        ArrayVec::try_from(source.octets()).map_err(|_| AppendError::ShortBuf)
    }
}

impl<'a, S: Octets> OctetsFrom<&'a S> for &'a [u8] {
    ghost keeps = { λ source value. value.now ≡ S.octets source.now };

    ghost too_long = { λ _. ⊥ };

    ghost takes_memory = { ⊥ };

    fn try_octets_from(_alloc: Global, source: &'a S) -> Result<Self, AppendError> {
        Ok(source.octets())
    }
}

impl<'a> OctetsFrom<&'a [u8]> for &'a [u8] {
    ghost keeps = { λ source value. value.now ≡ source.now };

    ghost too_long = { λ _. ⊥ };

    ghost takes_memory = { ⊥ };

    fn try_octets_from(_alloc: Global, source: &'a [u8]) -> Result<Self, AppendError> {
        Ok(source)
    }
}

impl<S: Octets> BufferFrom<S> for Vec<u8> {
    ghost same_octets = { λ source value same. same };
}

impl<S: Octets, const N: usize> BufferFrom<S> for ArrayVec<u8, N> {
    ghost same_octets = { λ source value same. same };
}

impl<'a, S: Octets> BufferFrom<&'a S> for &'a [u8] {
    ghost same_octets = { λ source value same. same };
}

impl<'a> BufferFrom<&'a [u8]> for &'a [u8] {
    ghost same_octets = { λ source value same. same };
}
