//! The index of a fingerprint compressor: the offsets of suffixes and the hashes of their octets.
ghost use Rattle.std.specs.Prelude.{◌≡◌, ◌+◌, ◌-◌, ◌*◌, ◌<◌, ◌≤◌, ◌⊎◌, ◌∷◌, ◌↔◌, [], length, drop, get_or, max, set, ℕ, List, IsTrue, IfOk, OnOk, OnErr, vec_capacity};
ghost use Rattle.dns_wire.specs.Choice.{label_offset};
ghost use Rattle.dns_name.specs.Names.{Labels};
ghost use Rattle.dns_target.specs.FingerprintIndex.{hash_of, all_hashed_of, most_hashed, bucket, IsLinked, AreHashed, table_entries_at, cut_hashed};
ghost use Rattle.dns_target.specs.TableEntries.{AreNamesAt, LabelledNameAt, offset_in_table};

use crate::index::{Plan, SuffixIndex};
use crate::label_starts::LabelStarts;
use crate::name_encoding::Found;
use crate::names_at::is_whole_name_at;
use crate::octets_hash::octets_hash;
use crate::tree_index::in_range;
use std::alloc::{AllocError, Global};
use std::marker::Model;

/// The maximum number of entries, as they are counted in 32 bits. Fewer suffixes begin below offset
/// 16,384.
const MOST_ENTRIES: usize = u32::MAX as usize;

/// The number of entries that the first allocation is for.
const FIRST_ENTRIES: usize = 32;

/// The hash of a suffix, its offset, and the end of its name. The name begins below offset 16,384,
/// so both fit 16 bits.
#[derive(Clone, Copy, Debug, Default)]
struct Fingerprint {
    hash: u32,
    offset: u16,
    end: u16,
    /// One more than the index of the previous entry in the same bucket, or 0.
    older: u32,
}

/// The entries, the newest last, in buckets by their hashes.
#[derive(Debug, Drop)]
pub struct FingerprintIndex {
    entries: Vec<Fingerprint>,
    /// One more than the index of the newest entry of each bucket, or 0. There are no buckets while
    /// there are few entries.
    heads: Vec<u32>,
}

impl Model for FingerprintIndex {
    ghost use Rattle.std.specs.Prelude.{min, vec_capacity};
    ghost use Rattle.dns_target.specs.FingerprintIndex.{all_hashed_of, IsLinked, FingerprintEntries, most_hashed};

    ghost Value = { FingerprintEntries };

    ghost view = { λ s. record {
      suffixes = all_hashed_of s.entries.items;
      capacity = min (vec_capacity s.entries) most_hashed;
    } };

    ghost invariant = { λ s. IsLinked s.heads.items s.entries.items };
}

/// The hash of the suffix that begins at label `from`: that of its uncompressed octets.
fn suffix_hash(labels: &LabelStarts<'_>, from: usize) -> u32
    requires { from < length labels.now }
    ensures { result ≡ hash_of (drop from labels.now) }
{
    octets_hash(labels.tail(from))
}

/// The hash of the suffix that begins at label `index`. If `from` isn't 0, `known` is the hash of
/// the suffix that begins at label `from - 1`.
fn hash_by(labels: &LabelStarts<'_>, index: usize, from: usize, known: u32) -> u32
    requires index { index < length labels.now }
    requires known { 0 < from → known ≡ hash_of (drop (from - 1) labels.now) }
    ensures { result ≡ hash_of (drop index labels.now) }
{
    if from.checked_sub(1) == Some(index) {
        return known;
    }
    suffix_hash(labels, index)
}

/// Whether the name at offset `offset` is the suffix that begins at label `from`.
fn is_suffix_at(content: &[u8], offset: usize, labels: &LabelStarts<'_>, from: usize) -> bool
    requires offset { offset < length content.now }
    requires from { from < length labels.now }
    ensures { (m : Labels) → LabelledNameAt content.now offset m
        → IsTrue result ↔ (m ≡ drop from labels.now) }
{
    is_whole_name_at(content, offset, labels.tail(from))
}

/// Makes an entry the newest in the bucket of `hash`, and returns the one that was the newest. Both
/// are given as one more than the index, or 0.
fn link(heads: &mut Vec<u32>, hash: u32, newest: u32) -> u32
    ensures heads { heads.new.items
        ≡ set heads.old.items (bucket (length heads.old.items) hash) newest }
    ensures older { 0 < length heads.old.items
        → result ≡ get_or heads.old.items (bucket (length heads.old.items) hash) 0 }
{
    let size = heads.len();
    if size == 0 {
        return 0;
    }
    let at = hash as usize & (size - 1);
    let older = heads[at];
    heads[at] = newest;
    older
}

/// Makes `size` empty buckets. Keeps the old ones if the allocation fails.
fn empty_buckets(heads: &mut Vec<u32>, size: usize) -> Result<(), AllocError>
    ensures ok { OnOk result ((at : ℕ) → get_or heads.new.items at 0 ≡ 0) }
    ensures err { OnErr result (heads.new.items ≡ heads.old.items) }
    ensures full { OnErr result (vec_capacity heads.old < length heads.old.items + size) }
{
    heads.reserve(size)?;
    heads.clear();
    heads.resize(size, 0)
}

/// Links the entries into the buckets, which are empty.
fn chain(heads: &mut Vec<u32>, entries: &mut Vec<Fingerprint>)
    requires few { length entries.old.items ≤ most_hashed }
    requires empty { (at : ℕ) → get_or heads.old.items at 0 ≡ 0 }
    ensures linked { IsLinked heads.new.items entries.new.items }
    ensures suffixes { all_hashed_of entries.new.items ≡ all_hashed_of entries.old.items }
    ensures capacity { vec_capacity entries.new ≡ vec_capacity entries.old }
{
    let mut index = 0;
    while index < entries.len() {
        let hash = entries[index].hash;
        let older = link(heads, hash, (index + 1) as u32);
        entries[index].older = older;
        index += 1;
    }
}

/// Up to this number of entries are searched one by one, without buckets.
const MOST_SCANNED: usize = 16;

/// The number of buckets for `count` entries: none for few entries, else at least two for each, up
/// to 16,384 entries.
fn buckets_for(count: usize) -> usize
    ensures { result ≤ 32 * count }
{
    match count {
        0..=MOST_SCANNED => 0,
        17..=256 => 512,
        257..=1024 => 2048,
        1025..=4096 => 8192,
        _ => 32_768,
    }
}

/// The number of entries to reserve for `additional` further ones.
fn reserved_for(additional: usize, capacity: usize) -> usize
    ensures { (result ≡ additional)
        ⊎ ((capacity ≡ 0) × (0 < additional) × (result ≡ max additional 32)) }
{
    if capacity == 0 && additional > 0 {
        additional.max(FIRST_ENTRIES)
    } else {
        additional
    }
}

impl FingerprintIndex {
    pub(crate) fn new(alloc: Global) -> Self
        ensures { result.suffixes ≡ [] }
    {
        FingerprintIndex {
            entries: Vec::new(alloc),
            heads: Vec::new(alloc),
        }
    }

    /// Reserves capacity for `additional` further entries. It is usually there.
    fn reserve(&mut self, additional: usize) -> Result<(), AllocError>
        ensures suffixes { self.new.suffixes ≡ self.old.suffixes }
        ensures ok { OnOk result (length self.new.suffixes + additional ≤ self.new.capacity) }
        ensures full { OnErr result (self.old.capacity < length self.old.suffixes + additional) }
    {
        let capacity = self.entries.capacity();
        if additional <= capacity - self.entries.len() && capacity <= MOST_ENTRIES {
            return Ok(());
        }
        self.reserve_more(additional)
    }

    /// Like `reserve`, if the capacity may be too small.
    #[cold]
    #[inline(never)]
    fn reserve_more(&mut self, additional: usize) -> Result<(), AllocError>
        ensures suffixes { self.new.suffixes ≡ self.old.suffixes }
        ensures ok { OnOk result (length self.new.suffixes + additional ≤ self.new.capacity) }
        ensures full { OnErr result (self.old.capacity < length self.old.suffixes + additional) }
    {
        if self.entries.len().saturating_add(additional) > MOST_ENTRIES {
            return Err(AllocError);
        }
        let more = reserved_for(additional, self.entries.capacity());
        self.entries.reserve(more)
    }

    /// Grows the buckets for `more` further entries. Keeps the old ones if the allocation fails.
    fn widen(&mut self, more: usize)
        requires { length self.old.suffixes ≤ self.old.capacity }
        ensures suffixes { self.new.suffixes ≡ self.old.suffixes }
        ensures capacity { self.new.capacity ≡ self.old.capacity }
    {
        let count = self.entries.len().saturating_add(more);
        if count <= MOST_SCANNED || count <= self.heads.len() / 2 {
            return;
        }
        self.widen_for(count);
    }

    /// Grows the buckets to the number for `count` entries. Keeps the old ones if the allocation
    /// fails.
    #[cold]
    #[inline(never)]
    fn widen_for(&mut self, count: usize)
        requires { length self.old.suffixes ≤ self.old.capacity }
        ensures suffixes { self.new.suffixes ≡ self.old.suffixes }
        ensures capacity { self.new.capacity ≡ self.old.capacity }
    {
        let size = buckets_for(count);
        if self.heads.len() >= size {
            return;
        }
        if empty_buckets(&mut self.heads, size).is_err() {
            return;
        }
        chain(&mut self.heads, &mut self.entries);
    }

    /// The offset of the suffix that begins at label `from` and has this hash, if it is in the
    /// index.
    fn find(&self, content: &[u8], labels: &LabelStarts<'_>, from: usize, hash: u32) -> Option<u16>
        requires names_at { AreNamesAt content.now (table_entries_at self.now.suffixes) }
        requires hashed { AreHashed content.now self.now.suffixes }
        requires from { from < length labels.now }
        requires hash { hash ≡ hash_of (drop from labels.now) }
        ensures { result
            ≡ offset_in_table content.now (table_entries_at self.now.suffixes)
            (drop from labels.now) }
    {
        let size = self.heads.len();
        if size == 0 {
            return self.scan(content, labels, from, hash);
        }
        let mut at = self.heads[hash as usize & (size - 1)];
        while at > 0 {
            let entry = &self.entries[at as usize - 1];
            if entry.hash == hash
                && is_suffix_at(content, usize::from(entry.offset), labels, from)
            {
                return Some(entry.offset);
            }
            at = entry.older;
        }
        None
    }

    /// Like `find`, if there are no buckets.
    fn scan(&self, content: &[u8], labels: &LabelStarts<'_>, from: usize, hash: u32) -> Option<u16>
        requires names_at { AreNamesAt content.now (table_entries_at self.now.suffixes) }
        requires hashed { AreHashed content.now self.now.suffixes }
        requires from { from < length labels.now }
        requires hash { hash ≡ hash_of (drop from labels.now) }
        ensures { result
            ≡ offset_in_table content.now (table_entries_at self.now.suffixes)
            (drop from labels.now) }
    {
        let mut index = self.entries.len();
        while index > 0 {
            index -= 1;
            let entry = &self.entries[index];
            if entry.hash == hash
                && is_suffix_at(content, usize::from(entry.offset), labels, from)
            {
                return Some(entry.offset);
            }
        }
        None
    }

    fn push(&mut self, hash: u32, offset: u16, end: u16)
        requires { length self.old.suffixes < self.old.capacity }
        ensures suffixes { self.new.suffixes
            ≡ record { hash = hash; offset = offset; end = end } ∷ self.old.suffixes }
        ensures capacity { self.new.capacity ≡ self.old.capacity }
    {
        let index = self.entries.len();
        let older = link(&mut self.heads, hash, (index + 1) as u32);
        self.entries.push_reserved(Fingerprint {
            hash,
            offset,
            end,
            older,
        });
    }

    /// Removes the entries of names that end past `len`.
    fn cut(&mut self, len: usize)
        ensures { self.new.suffixes ≡ cut_hashed len self.old.suffixes }
    {
        while let Some(last) = self.entries.last() {
            if usize::from(last.end) <= len {
                return;
            }
            let Some(entry) = self.entries.pop() else {
                return;
            };
            let _ = link(&mut self.heads, entry.hash, entry.older);
        }
    }
}

impl SuffixIndex for FingerprintIndex {
    /// The hash of the shortest suffix that isn't in the index, if there is one.
    type Hint = u32;

    ghost use Rattle.std.specs.Prelude.{true, refl};
    ghost use Rattle.dns_name.specs.Names.{pointer_end};
    ghost use Rattle.dns_wire.specs.Encoders.{Tree as TreeRule};
    ghost use Rattle.dns_target.specs.FingerprintIndex.{AreHashed, table_entries_at, hashed_stay};

    ghost rule = { TreeRule };

    ghost takes_memory = { true };

    ghost table_entries = { λ s. table_entries_at s.suffixes };

    ghost is_of = { λ b s. AreHashed b s.suffixes };

    ghost is_hint = { λ s name from hint. 0 < from → hint ≡ hash_of (drop (from - 1) name) };

    ghost is_planned = { λ s name w from count.
        (i : ℕ) → i < count → label_offset w name i < pointer_end };

    ghost lacks_capacity = { λ s from count. s.capacity < length s.suffixes + count };

    ghost stays = { λ b c t l e h. hashed_stay b c t.suffixes e h };

    ghost compressing = { refl };

    fn look_up(&self, content: &[u8], labels: &LabelStarts<'_>) -> (Found, u32) {
        let mut missed = 0;
        for from in 0..labels.len() {
            let hash = suffix_hash(labels, from);
            let offset = self.find(content, labels, from, hash);
            if offset.is_some() {
                return (Found { from, offset }, missed);
            }
            missed = hash;
        }
        (Found::nothing(labels), missed)
    }

    fn plan(&self, content: &[u8], labels: &LabelStarts<'_>, found: Found) -> Plan {
        let count = in_range(labels, content.len(), found.from);
        Plan {
            whole: count < found.from,
            count,
        }
    }

    fn add_suffixes(
        &mut self,
        content: &[u8],
        labels: &LabelStarts<'_>,
        offset: usize,
        found: Found,
        missed: u32,
        count: usize,
    ) -> Result<(), AllocError> {
        self.reserve(count)?;
        self.widen(count);
        let mut index = count;
        while index > 0 {
            index -= 1;
            let hash = hash_by(labels, index, found.from, missed);
            let at = (offset + labels.start(index)) as u16;
            self.push(hash, at, content.len() as u16);
        }
        Ok(())
    }

    fn forget(&mut self, len: usize) {
        self.cut(len);
    }

    fn copy(&self) -> Result<Self, AllocError>
        ensures table_entries { IfOk result (λ copy.
            table_entries_at copy.suffixes ≡ table_entries_at self.now.suffixes) }
        ensures is_of { IfOk result (λ copy.
            (b : List ℕ) → AreHashed b self.now.suffixes → AreHashed b copy.suffixes) }
        ensures full { OnErr result (0 < length self.now.suffixes) }
    {
        if self.entries.is_empty() {
            return Ok(FingerprintIndex::new(*self.entries.allocator()));
        }
        Ok(FingerprintIndex {
            entries: self.entries.clone()?,
            heads: self.heads.clone()?,
        })
    }
}
