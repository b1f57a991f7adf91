ghost use Rattle.std.specs.Prelude.{◌≡◌, ◌+◌, ◌<◌, ◌≤◌, ℕ, Bool, Option, Some, None, true, false, length, max, refl, IfOk, OnErr, IsTrue, vec_len, vec_capacity};
ghost use Rattle.dns_name.specs.Names.{uncompressed};
ghost use Rattle.dns_wire.specs.Encoders.{IsClear, nothing, Rule, Plain, compresses, encode_octets, encode_name};
ghost use Rattle.dns_wire.specs.Targets.{Written, IsTarget, Fits, Appends, cut_to, overwrite, with_empty_table};

use arrayvec::ArrayVec;
use dns_name::ToName;
use dns_octets::{AppendError, Octets, OctetsMut};
use std::alloc::AllocError;

/// A target that a message is written to: its content in octets, and the compression table of the
/// names in it.
///
/// Errors of an append: `ShortBuf` if the content would exceed the capacity, `OutOfMemory` if an
/// allocation fails. Nothing changes on error.
pub trait Composer: Drop {
    /// How names are compressed.
    ghost rule: { Rule };

    /// The maximum length of the content in octets, if there is one.
    ghost capacity: { Option ℕ };

    /// Whether an append may allocate.
    ghost grows: { Bool };

    /// The content and the compression table.
    ghost written: { Self → Written };

    /// Returns the content.
    fn as_slice(&self) -> &[u8]
        ensures octets { result.now ≡ (written self.now).octets }
        ensures is_target { IsTarget (written self.now) }
        ensures fits { Fits capacity (length (written self.now).octets) };

    /// Appends octets as they are. The compression table doesn't change.
    fn append_slice(&mut self, octets: &[u8]) -> Result<(), AppendError>
        ensures { Appends capacity grows (encode_octets octets.now)
            (written self.old) (written self.new) result };

    /// Appends a name, compressed by the target's rule (RFC 1035 section 4.1.4).
    fn append_compressed_name<N: ToName>(&mut self, name: &N) -> Result<(), AppendError>
        ensures { Appends capacity grows (encode_name rule (N.name name.now)) (written self.old)
            (written self.new) result };

    /// Returns whether names are compressed.
    fn can_compress(&self) -> bool
        ensures { result ≡ compresses rule };

    /// Truncates the content to `len` octets, if it has more. Removes the table entries of names
    /// that end past `len`.
    fn truncate(&mut self, len: usize)
        ensures cut { written self.new ≡ cut_to len (written self.old) }
        ensures is_target { IsTarget (written self.new) };

    /// Overwrites the octets from offset `offset` on, which no name in the table may use.
    fn write_at(&mut self, offset: usize, octets: &[u8])
        requires within { offset + length octets.now ≤ length (written self.old).octets }
        requires clear { IsClear (written self.old).table offset (length octets.now) }
        ensures { written self.new ≡ overwrite offset octets.now (written self.old) };

    /// A target that doesn't compress has an empty table.
    ghost plain_forgets: { rule ≡ Plain → (t : Self) → (written t).table ≡ nothing };
}

/// A target that can be converted into the octets that it holds.
pub trait FreezeBuilder: Composer {
    /// The type of the octets.
    type Octets: Octets;

    /// Returns the content, without allocating.
    fn freeze(self) -> Self::Octets
        ensures { Self.Octets.octets result ≡ (Self.written self).octets };
}

/// A target that can be cloned.
pub trait CloneTarget: Composer + Sized {
    /// Returns an equal target. Returns `AllocError` if an allocation fails.
    fn clone_target(&self) -> Result<Self, AllocError>
        ensures equal { IfOk result (λ clone. Self.written clone ≡ Self.written self.now) }
        ensures memory { OnErr result (IsTrue Self.grows) };
}

/// The octets that a vector without capacity reserves at its first append: the maximum length of a
/// message over UDP (RFC 1035 section 4.2.1).
const FIRST_CAPACITY: usize = 512;

/// Reserves the first 512 octets of a vector without capacity, if that allocation succeeds.
fn reserve_first(octets: &mut Vec<u8>)
    ensures items { octets.new.items ≡ octets.old.items }
    ensures capacity { vec_capacity octets.old ≤ vec_capacity octets.new }
    ensures bounded { vec_capacity octets.new ≤ max (vec_capacity octets.old) 512 }
{
    if octets.capacity() == 0 {
        // If this allocation fails, a smaller one may still succeed.
        let _ = octets.reserve_exact(FIRST_CAPACITY);
    }
}

impl Composer for Vec<u8> {
    ghost rule = { Plain };

    ghost capacity = { None };

    ghost grows = { true };

    ghost written = { λ v. with_empty_table v.items };

    ghost plain_forgets = { λ _ _. refl };

    fn as_slice(&self) -> &[u8] {
        self.as_slice()
    }

    fn append_slice(&mut self, octets: &[u8]) -> Result<(), AppendError>
        ensures appends { Appends None true (encode_octets octets.now)
            (with_empty_table self.old.items) (with_empty_table self.new.items) result }
        ensures full { result ≡ Err AppendError.OutOfMemory
            → vec_capacity self.old < vec_len self.old + length octets.now }
    {
        reserve_first(self);
        self.extend_from_slice(octets)
            .map_err(|_| AppendError::OutOfMemory)
    }

    #[tactic(auto, unfolding(crate::specs::Encoders::encode_name))]
    fn append_compressed_name<N: ToName>(&mut self, name: &N) -> Result<(), AppendError>
        ensures appends { Appends None true (encode_name Plain (N.name name.now))
            (with_empty_table self.old.items) (with_empty_table self.new.items) result }
        ensures full { result ≡ Err AppendError.OutOfMemory → vec_capacity self.old
            < vec_len self.old + length (uncompressed (N.name name.now)) }
    {
        match name.as_flat_slice() {
            Some(flat) => self.append_slice(flat),
            None => self.append_slice(name.as_parsed().uncompressed().as_slice()),
        }
    }

    fn can_compress(&self) -> bool {
        false
    }

    #[tactic(auto, using(crate::proofs::theory::CompressionTables::cut_nothing, crate::proofs::theory::CompressionTables::nothing_is_kept))]
    fn truncate(&mut self, len: usize) {
        self.truncate(len);
    }

    fn write_at(&mut self, offset: usize, octets: &[u8]) {
        OctetsMut::write_at(self, offset, octets);
    }
}

impl FreezeBuilder for Vec<u8> {
    type Octets = Vec<u8>;

    fn freeze(self) -> Vec<u8> {
        self
    }
}

impl CloneTarget for Vec<u8> {
    fn clone_target(&self) -> Result<Self, AllocError>
        ensures equal { IfOk result (λ clone. clone.items ≡ self.now.items) }
        ensures full { OnErr result (0 < vec_len self.now) }
    {
        let mut clone = Vec::with_capacity(*self.allocator(), self.len())?;
        clone.extend_from_slice(self)?;
        Ok(clone)
    }
}

impl<const N: usize> Composer for ArrayVec<u8, N> {
    ghost rule = { Plain };

    ghost capacity = { Some N };

    ghost grows = { false };

    ghost written = { λ v. with_empty_table v.items };

    ghost plain_forgets = { λ _ _. refl };

    fn as_slice(&self) -> &[u8] {
        self.as_slice()
    }

    fn append_slice(&mut self, octets: &[u8]) -> Result<(), AppendError> {
        self.try_extend_from_slice(octets)
            .map_err(|_| AppendError::ShortBuf)
    }

    #[tactic(auto, unfolding(crate::specs::Encoders::encode_name))]
    fn append_compressed_name<M: ToName>(&mut self, name: &M) -> Result<(), AppendError> {
        match name.as_flat_slice() {
            Some(octets) => self.append_slice(octets),
            None => self.append_slice(name.as_parsed().uncompressed().as_slice()),
        }
    }

    fn can_compress(&self) -> bool {
        false
    }

    #[tactic(auto, using(crate::proofs::theory::CompressionTables::cut_nothing, crate::proofs::theory::CompressionTables::nothing_is_kept))]
    fn truncate(&mut self, len: usize) {
        self.truncate(len)
    }

    fn write_at(&mut self, offset: usize, octets: &[u8]) {
        OctetsMut::write_at(self, offset, octets);
    }
}

impl<const N: usize> FreezeBuilder for ArrayVec<u8, N> {
    type Octets = ArrayVec<u8, N>;

    fn freeze(self) -> ArrayVec<u8, N> {
        self
    }
}

impl<const N: usize> CloneTarget for ArrayVec<u8, N> {
    fn clone_target(&self) -> Result<Self, AllocError> {
        ArrayVec::clone(self)
    }
}

/// Writes to the referenced target, so the caller keeps it. What was written is known of the
/// reference that `finish` or `into_target` of a builder returns.
impl<T: Composer> Composer for &mut T {
    ghost rule = { T.rule };

    ghost capacity = { T.capacity };

    ghost grows = { T.grows };

    ghost written = { λ t. T.written t.now };

    ghost plain_forgets = { λ plain t. T.plain_forgets plain t.now };

    #[inline(always)]
    fn as_slice(&self) -> &[u8] {
        (**self).as_slice()
    }

    #[inline(always)]
    fn append_slice(&mut self, octets: &[u8]) -> Result<(), AppendError> {
        (**self).append_slice(octets)
    }

    #[inline(always)]
    fn append_compressed_name<M: ToName>(&mut self, name: &M) -> Result<(), AppendError> {
        (**self).append_compressed_name(name)
    }

    #[inline(always)]
    fn can_compress(&self) -> bool {
        (**self).can_compress()
    }

    #[inline(always)]
    fn truncate(&mut self, len: usize) {
        (**self).truncate(len)
    }

    #[inline(always)]
    fn write_at(&mut self, offset: usize, octets: &[u8]) {
        (**self).write_at(offset, octets)
    }
}
