//! The index of a static compressor: the offsets of suffixes.
ghost use Rattle.std.specs.Prelude.{◌≡◌, ◌+◌, ◌<◌, ◌≤◌, ◌∷◌, [], length, drop, ℕ};
ghost use Rattle.dns_wire.specs.Encoders.{Static as StaticRule};
ghost use Rattle.dns_wire.specs.Choice.{label_offset, Enters};
ghost use Rattle.dns_target.specs.TableEntries.{AreNew, AreNamesAt, offset_in_table, named};

use crate::index::{Plan, SuffixIndex};
use crate::label_starts::LabelStarts;
use crate::name_encoding::Found;
use crate::names_at::is_name_at;
use arrayvec::ArrayVec;
use dns_name::Head;
use std::alloc::AllocError;
use std::marker::Model;

/// The maximum number of entries.
pub(crate) const MOST_SUFFIXES: usize = 24;

/// The offset of a suffix, and the end of its name. The name begins below offset 16,384, so both
/// fit 16 bits.
#[derive(Clone, Copy, Debug, Default)]
struct StaticEntry {
    offset: u16,
    end: u16,
}

/// The offsets of at most 24 suffixes, each with the end of its name.
#[derive(Debug, Drop)]
pub struct StaticIndex {
    entries: ArrayVec<StaticEntry, 24>,
}

impl Model for StaticIndex {
    ghost use Rattle.std.specs.Prelude.{List};
    ghost use Rattle.dns_wire.specs.Encoders.{TableEntry};
    ghost use Rattle.dns_wire.specs.Targets.{table_entry_code};
    ghost use Rattle.std.specs.Coded.{coded_list};
    ghost use Rattle.dns_target.specs.StaticIndex.{table_entries_of};

    ghost Value = { List TableEntry };

    ghost coded = { coded_list table_entry_code };

    ghost view = { λ p. table_entries_of p.entries.items };
}

impl StaticIndex {
    pub(crate) fn new() -> Self
        ensures { result ≡ [] }
    {
        StaticIndex {
            entries: ArrayVec::new(),
        }
    }

    fn len(&self) -> usize
        ensures len { result ≡ length self.now }
        ensures few { result ≤ MOST_SUFFIXES }
    {
        self.entries.len()
    }

    /// The offset of the suffix that begins at label `from`, if it is in the index.
    ///
    /// The oldest entry is tried first, since most names share the suffixes of the first ones.
    #[inline(always)]
    fn find(&self, content: &[u8], labels: &LabelStarts<'_>, from: usize) -> Option<u16>
        requires new { AreNew (named content.now self.now) }
        requires names_at { AreNamesAt content.now self.now }
        requires from { from < length labels.now }
        ensures { result ≡ offset_in_table content.now self.now (drop from labels.now) }
    {
        let label = labels.framed(from);
        let name = labels.tail(from);
        for index in 0..self.entries.len() {
            let offset = self.entries[index].offset;
            if is_name_at(content, usize::from(offset), label, name) {
                return Some(offset);
            }
        }
        None
    }

    fn push(&mut self, offset: u16, end: u16)
        requires { length self.old < MOST_SUFFIXES }
        ensures { self.new ≡ record { offset = offset; end = end } ∷ self.old }
    {
        self.entries.push(StaticEntry { offset, end });
    }
}

/// The number of suffixes to add, to `entries` entries, for a name at offset `offset` whose new
/// suffixes begin at the labels before `from`.
fn kept(labels: &LabelStarts<'_>, offset: usize, entry_count: usize, from: usize) -> usize
    requires from { from ≤ length labels.now }
    requires few { entry_count ≤ MOST_SUFFIXES }
    ensures keeps { Enters StaticRule offset entry_count labels.now from result }
    ensures few { entry_count + result ≤ MOST_SUFFIXES }
{
    for count in 0..from {
        if entry_count + count >= MOST_SUFFIXES
            || offset >= Head::POINTER_END - labels.start(count)
        {
            return count;
        }
    }
    from
}

impl SuffixIndex for StaticIndex {
    type Hint = ();

    ghost use Rattle.std.specs.Prelude.{◌≤◌, ◌+◌, ◌<◌, length, ℕ, false, refl};
    ghost use Rattle.dns_name.specs.Names.{pointer_end};
    ghost use Rattle.dns_wire.specs.Choice.{label_offset};
    ghost use Rattle.dns_wire.specs.Encoders.{static_entries, Static};

    ghost rule = { Static };

    ghost takes_memory = { false };

    ghost table_entries = { λ s. s };

    ghost is_of = { λ b s. Unit {0} };

    ghost is_hint = { λ s name from hint. Unit {0} };

    ghost is_planned = { λ s name w from count.
        (length s + count ≤ static_entries)
        × ((i : ℕ) → i < count → label_offset w name i < pointer_end) };

    ghost lacks_capacity = { λ s from count. ⊥ };

    ghost stays = { λ b c t l e h. tt };

    ghost compressing = { refl };

    #[inline(always)]
    fn look_up(&self, content: &[u8], labels: &LabelStarts<'_>) -> (Found, ()) {
        for from in 0..labels.len() {
            let offset = self.find(content, labels, from);
            if offset.is_some() {
                return (Found { from, offset }, ());
            }
        }
        (Found::nothing(labels), ())
    }

    fn plan(&self, content: &[u8], labels: &LabelStarts<'_>, found: Found) -> Plan {
        let count = kept(labels, content.len(), self.len(), found.from);
        Plan {
            whole: count < found.from,
            count,
        }
    }

    fn add_suffixes(
        &mut self,
        content: &[u8],
        labels: &LabelStarts<'_>,
        offset: usize,
        _found: Found,
        _hint: (),
        count: usize,
    ) -> Result<(), AllocError> {
        let mut index = count;
        while index > 0 {
            index -= 1;
            self.push((offset + labels.start(index)) as u16, content.len() as u16);
        }
        Ok(())
    }

    fn forget(&mut self, len: usize) {
        while let Some(last) = self.entries.last() {
            if usize::from(last.end) <= len {
                return;
            }
            let _ = self.entries.pop();
        }
    }

    fn copy(&self) -> Result<Self, AllocError> {
        Ok(StaticIndex {
            entries: self.entries.clone()?,
        })
    }
}
