//! The index of a hash compressor. It finds a suffix by its first label and the offset of its
//! parent.
ghost use Rattle.std.specs.Prelude.{◌≡◌, ◌≤◌, ◌<◌, [], ℕ, List, None, IfOk, OnErr, length, drop};
ghost use Rattle.dns_target.specs.TableEntries.{table_in};
ghost use Rattle.dns_target.specs.Indexes.{AreTableEntries};
ghost use Rattle.dns_target.specs.HashIndex.{IsParent, ParentIsName, table_entries_in, in_range_count as in_range_count_of};

use crate::index::{Plan, SuffixIndex};
use crate::label_starts::LabelStarts;
use crate::name_encoding::{Found, reaches};
use crate::names_at::is_flat_name_at;
use crate::suffix_map::SuffixMap;
use std::alloc::{AllocError, Global};

/// The suffixes in the table, and a recent one. The next name is first compared with the recent
/// suffix, as consecutive names often share one. It is the suffix to which the pointer of the last
/// name leads. If that name has no pointer, it is the whole name, if it entered the table.
#[derive(Debug, Drop)]
pub struct HashIndex {
    suffixes: SuffixMap,
    /// The offset of the recent suffix, if there is one.
    recent: Option<u16>,
    /// The number of its labels.
    recent_labels: usize,
}

impl HashIndex {
    pub(crate) fn new(alloc: Global) -> Self
        ensures suffixes { result.suffixes.suffixes ≡ [] }
        ensures recent { result.recent ≡ None }
    {
        HashIndex {
            suffixes: SuffixMap::new(alloc),
            recent: None,
            recent_labels: 0,
        }
    }

    /// Finds the recent suffix if the name ends with it, and else nothing.
    #[inline(always)]
    fn recent_in(&self, content: &[u8], labels: &LabelStarts<'_>) -> Found
        requires entries { AreTableEntries content.now
            (table_entries_in self.now.suffixes.suffixes) }
        requires recent { IsParent content.now self.now.suffixes.suffixes self.now.recent }
        ensures within { result.from ≤ length labels.now }
        ensures there { ParentIsName
            (table_in content.now (table_entries_in self.now.suffixes.suffixes))
            result.offset (drop result.from labels.now) }
    {
        let Some(offset) = self.recent else {
            return Found::nothing(labels);
        };
        let count = self.recent_labels;
        if count == 0 || count > labels.len() {
            return Found::nothing(labels);
        }
        let from = labels.len() - count;
        if !is_flat_name_at(content, usize::from(offset), labels.tail(from)) {
            return Found::nothing(labels);
        }
        Found {
            from,
            offset: Some(offset),
        }
    }
}

/// The number of suffixes to add for a name at `offset` whose first `from` suffixes are new: all of
/// these, or none if one begins at 16,384 or above.
fn in_range_count(labels: &LabelStarts<'_>, offset: usize, from: usize) -> usize
    requires { from ≤ length labels.now }
    ensures { result ≡ in_range_count_of offset labels.now from }
{
    if reaches(labels, offset, from) {
        from
    } else {
        0
    }
}

/// The index of a label of the name. The suffix that begins there is compared first with the next
/// name. It is the suffix that was found, or the whole name if none was.
fn shared_from(found: Found) -> usize
    ensures { result ≤ found.from }
{
    match found.offset {
        Some(_) => found.from,
        None => 0,
    }
}

impl SuffixIndex for HashIndex {
    type Hint = ();

    ghost use Rattle.std.specs.Prelude.{◌≡◌, ◌≤◌, ◌+◌, ◌<◌, ◌⊎◌, length, ℕ, true, refl};
    ghost use Rattle.dns_name.specs.Names.{pointer_end};
    ghost use Rattle.dns_wire.specs.Choice.{label_offset};
    ghost use Rattle.dns_wire.specs.Encoders.{Hash};
    ghost use Rattle.dns_target.specs.HashIndex.{table_entries_in, AreKeyed, IsParent, keyed_again, parent_again};

    ghost rule = { Hash };

    ghost takes_memory = { true };

    ghost table_entries = { λ s. table_entries_in s.suffixes.suffixes };

    ghost is_of = { λ b s.
        AreKeyed b s.suffixes.suffixes × IsParent b s.suffixes.suffixes s.recent };

    ghost is_hint = { λ s name from hint. Unit {0} };

    ghost is_planned = { λ s name w from count.
        ((count ≡ 0) ⊎ (count ≡ from))
        × ((i : ℕ) → i < count → label_offset w name i < pointer_end) };

    ghost lacks_capacity = { λ s from count. s.suffixes.spare_capacity < count };

    ghost stays = { λ b c t l e h. (
      keyed_again b c t.suffixes.suffixes e h.0,
      parent_again b c t.suffixes.suffixes t.recent e h.1,
    ) };

    ghost compressing = { refl };

    fn look_up(&self, content: &[u8], labels: &LabelStarts<'_>) -> (Found, ()) {
        let Found {
            mut from,
            mut offset,
        } = self.recent_in(content, labels);
        while from > 0 {
            let Some(longer) = self.suffixes.find(labels.label(from - 1), offset) else {
                return (Found { from, offset }, ());
            };
            offset = Some(longer);
            from -= 1;
        }
        (Found { from, offset }, ())
    }

    fn plan(&self, content: &[u8], labels: &LabelStarts<'_>, found: Found) -> Plan {
        Plan {
            whole: false,
            count: in_range_count(labels, content.len(), found.from),
        }
    }

    fn add_suffixes(
        &mut self,
        content: &[u8],
        labels: &LabelStarts<'_>,
        offset: usize,
        found: Found,
        _hint: (),
        count: usize,
    ) -> Result<(), AllocError> {
        self.suffixes.reserve(count)?;
        let mut parent = found.offset;
        let mut index = count;
        while index > 0 {
            index -= 1;
            let here = (offset + labels.start(index)) as u16;
            self.suffixes
                .push(labels.label(index), parent, here, content.len());
            parent = Some(here);
        }
        self.recent = found.offset.or(parent);
        self.recent_labels = labels.len() - shared_from(found);
        Ok(())
    }

    fn forget(&mut self, len: usize) {
        self.recent = None;
        if self.suffixes.ends_past(len) {
            self.suffixes.clear();
        } else {
            self.suffixes.cut(len);
        }
    }

    fn copy(&self) -> Result<Self, AllocError>
        ensures table_entries { IfOk result (λ copy.
            table_entries_in copy.suffixes.suffixes
            ≡ table_entries_in self.now.suffixes.suffixes) }
        ensures is_of { IfOk result (λ copy. (b : List ℕ)
            → AreKeyed b self.now.suffixes.suffixes
            × IsParent b self.now.suffixes.suffixes self.now.recent
            → AreKeyed b copy.suffixes.suffixes
            × IsParent b copy.suffixes.suffixes copy.recent) }
        ensures full { OnErr result (0 < length self.now.suffixes.suffixes) }
    {
        Ok(HashIndex {
            suffixes: self.suffixes.clone()?,
            recent: self.recent,
            recent_labels: self.recent_labels,
        })
    }
}
