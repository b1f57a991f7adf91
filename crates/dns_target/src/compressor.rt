//! A target that compresses names, over an index of the suffixes in its compression table.
ghost use Rattle.std.specs.Prelude.{◌≡◌, ◌||◌, [], true, ℕ, List, IfOk, OnErr, IsTrue};
ghost use Rattle.dns_wire.specs.Encoders.{nothing, Plain, encode_octets, encode_name};
ghost use Rattle.dns_wire.specs.Targets.{Appends};
ghost use Rattle.dns_name.specs.Uncompressed.{IsUncompressed};
ghost use Rattle.dns_target.specs.Indexes.{compressing_not_plain};
ghost use Rattle.dns_target.specs.TableEntries.{name_in};

use crate::fingerprint_index::FingerprintIndex;
use crate::hash_index::HashIndex;
use crate::index::SuffixIndex;
use crate::label_starts::{LabelStarts, note_starts};
use crate::name_encoding::append_planned;
use crate::static_index::StaticIndex;
use crate::tree_index::TreeIndex;
use arrayvec::ArrayVec;
use dns_name::ToName;
use dns_octets::AppendError;
use dns_wire::{CloneTarget, Composer, FreezeBuilder};
use std::alloc::{AllocError, Global};
use std::convert::AsSlice;
use std::marker::Model;

/// A target that compresses names, over one that doesn't (RFC 1035 section 4.1.4).
#[derive(Debug, Drop)]
pub struct Compressor<Target: Composer, Index: SuffixIndex> {
    target: Target,
    index: Index,
}

/// A compressor whose table stores the first 24 suffixes that are written as labels below offset
/// 16,384. It allocates nothing itself. Suffixes match octet for octet.
pub type StaticCompressor<Target> = Compressor<Target, StaticIndex>;

/// A compressor whose table stores each suffix that is written as labels below offset 16,384.
/// Suffixes match octet for octet.
pub type TreeCompressor<Target> = Compressor<Target, TreeIndex>;

/// A compressor whose table stores all new suffixes of a name, or none of them if one begins at
/// offset 16,384 or above. Suffixes match octet for octet.
///
/// The hash is fast and has a fixed seed. Use [`TreeCompressor`] for names from untrusted input.
pub type HashCompressor<Target> = Compressor<Target, HashIndex>;

/// A compressor whose table stores each suffix that is written as labels below offset 16,384, by
/// its offset and its hash. Suffixes match octet for octet: they are compared with the octets
/// written so far.
///
/// The hash is fast and has a fixed seed, and suffixes with equal hashes are compared one by one.
/// Use [`TreeCompressor`] for names from untrusted input.
pub type FingerprintCompressor<Target> = Compressor<Target, FingerprintIndex>;

impl<Target: Composer, Index: SuffixIndex> Model for Compressor<Target, Index> {
    ghost use Rattle.dns_wire.specs.Targets.{Written, written_code};
    ghost use Rattle.dns_target.specs.TableEntries.{with_table_entries, HasTableEntries};

    ghost Value = { Written };

    ghost coded = { written_code };

    ghost view = { λ s.
        with_table_entries (Target.written s.target) (Index.table_entries s.index) };

    ghost invariant = { λ s.
        HasTableEntries Target.rule (Target.written s.target) (Index.table_entries s.index)
        × Index.is_of (Target.written s.target).octets s.index };
}

impl<Target: Composer> Compressor<Target, StaticIndex> {
    /// Returns a compressor over `target`, which must not compress. The octets stay, and the table
    /// is empty.
    pub fn new(target: Target) -> Self
        requires { Target.rule ≡ Plain }
        ensures { result ≡ record { octets = (Target.written target).octets; table = nothing } }
    {
        Compressor::over(target, StaticIndex::new())
    }
}

impl<Target: Composer> Compressor<Target, TreeIndex> {
    /// Returns a compressor over `target`, which must not compress. The octets stay, and the table
    /// is empty.
    ///
    /// The table allocates from `alloc`.
    pub fn new(alloc: Global, target: Target) -> Self
        requires { Target.rule ≡ Plain }
        ensures { result ≡ record { octets = (Target.written target).octets; table = nothing } }
    {
        Compressor::over(target, TreeIndex::new(alloc))
    }
}

impl<Target: Composer> Compressor<Target, HashIndex> {
    /// Returns a compressor over `target`, which must not compress. The octets stay, and the table
    /// is empty.
    ///
    /// The table allocates from `alloc`.
    pub fn new(alloc: Global, target: Target) -> Self
        requires { Target.rule ≡ Plain }
        ensures { result ≡ record { octets = (Target.written target).octets; table = nothing } }
    {
        Compressor::over(target, HashIndex::new(alloc))
    }
}

impl<Target: Composer> Compressor<Target, FingerprintIndex> {
    /// Returns a compressor over `target`, which must not compress. The octets stay, and the table
    /// is empty.
    ///
    /// The table allocates from `alloc`.
    pub fn new(alloc: Global, target: Target) -> Self
        requires { Target.rule ≡ Plain }
        ensures { result ≡ record { octets = (Target.written target).octets; table = nothing } }
    {
        Compressor::over(target, FingerprintIndex::new(alloc))
    }
}

impl<Target: Composer, Index: SuffixIndex> Compressor<Target, Index> {
    fn over(target: Target, index: Index) -> Self
        requires plain { Target.rule ≡ Plain }
        requires empty { Index.table_entries index ≡ [] }
        requires is_of { (content : List ℕ) → Index.is_of content index }
        ensures { result ≡ record { octets = (Target.written target).octets; table = nothing } }
    {
        Compressor { target, index }
    }

    /// Returns the target, which holds the octets.
    pub fn as_target(&self) -> &Target
        ensures { Target.written result.now
            ≡ record { octets = self.now.octets; table = nothing } }
    {
        &self.target
    }

    /// Returns the target, which holds the octets. The table is dropped.
    pub fn into_target(self) -> Target
        ensures { Target.written result ≡ record { octets = self.octets; table = nothing } }
    {
        self.target
    }

    /// Returns the octets written so far.
    pub fn as_slice(&self) -> &[u8]
        ensures { result.now ≡ self.now.octets }
    {
        self.target.as_slice()
    }

    /// Appends the name with these uncompressed octets, and adds its new suffixes to the table.
    /// Nothing changes on error.
    fn append_name(&mut self, octets: &[u8]) -> Result<(), AppendError>
        requires { IsUncompressed octets.now }
        ensures { Appends Target.capacity (Index.takes_memory || Target.grows)
            (encode_name Index.rule (name_in octets.now 0)) self.old self.new result }
    {
        let mut starts = ArrayVec::new();
        note_starts(octets, &mut starts);
        let labels = LabelStarts::new(octets, starts.as_slice());
        let content = self.target.as_slice();
        let offset = content.len();
        let (found, hint) = self.index.look_up(content, &labels);
        let plan = self.index.plan(content, &labels, found);
        append_planned(&mut self.target, &labels, found, plan.whole)?;
        let written = self.target.as_slice();
        match self
            .index
            .add_suffixes(written, &labels, offset, found, hint, plan.count)
        {
            Ok(()) => Ok(()),
            Err(_) => {
                self.target.truncate(offset);
                Err(AppendError::OutOfMemory)
            }
        }
    }
}

impl<Target: CloneTarget, Index: SuffixIndex> Compressor<Target, Index> {
    /// Returns a compressor with the same octets and the same table entries.
    pub fn clone(&self) -> Result<Self, AllocError>
        ensures equal { IfOk result (λ clone. clone ≡ self.now) }
        ensures memory { OnErr result (IsTrue (Index.takes_memory || Target.grows)) }
    {
        Ok(Compressor {
            target: self.target.clone_target()?,
            index: self.index.copy()?,
        })
    }
}

impl<Target: Composer, Index: SuffixIndex> Composer for Compressor<Target, Index> {
    ghost rule = { Index.rule };

    ghost capacity = { Target.capacity };

    ghost grows = { Index.takes_memory || Target.grows };

    ghost written = { λ w. w };

    ghost plain_forgets = { λ e _. compressing_not_plain Index.rule Index.compressing e };

    fn as_slice(&self) -> &[u8] {
        self.target.as_slice()
    }

    fn append_slice(&mut self, octets: &[u8]) -> Result<(), AppendError>
        ensures { Appends Target.capacity Target.grows (encode_octets octets.now)
            self.old self.new result }
    {
        self.target.append_slice(octets)
    }

    fn append_compressed_name<N: ToName>(&mut self, name: &N) -> Result<(), AppendError> {
        match name.as_flat_slice() {
            Some(octets) => self.append_name(octets),
            None => self.append_name(name.as_parsed().uncompressed().as_slice()),
        }
    }

    fn can_compress(&self) -> bool {
        true
    }

    fn truncate(&mut self, len: usize) {
        self.target.truncate(len);
        self.index.forget(len);
    }

    fn write_at(&mut self, offset: usize, octets: &[u8]) {
        self.target.write_at(offset, octets);
    }
}

impl<Target: Composer, Index: SuffixIndex> AsSlice<u8> for Compressor<Target, Index> {
    ghost items = { λ w. w.octets };

    fn as_slice(&self) -> &[u8] {
        self.target.as_slice()
    }
}

impl<Target: FreezeBuilder, Index: SuffixIndex> FreezeBuilder for Compressor<Target, Index> {
    type Octets = Target::Octets;

    fn freeze(self) -> Target::Octets {
        self.target.freeze()
    }
}

impl<Target: CloneTarget, Index: SuffixIndex> CloneTarget for Compressor<Target, Index> {
    fn clone_target(&self) -> Result<Self, AllocError> {
        self.clone()
    }
}
