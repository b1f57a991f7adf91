//! The index of a tree compressor: suffixes as a tree, whose nodes are in one vector.
ghost use Rattle.std.specs.Prelude.{◌≡◌, ◌+◌, ◌<◌, ◌≤◌, ◌∷◌, [], ℕ, List, length, get_or, None, Some, false, OnOk, OnErr, IfOk, IfSome};
ghost use Rattle.std.specs.Str.{bytes_eq};
ghost use Rattle.dns_wire.specs.Encoders.{Tree as TreeRule};
ghost use Rattle.dns_wire.specs.Choice.{Enters};
ghost use Rattle.dns_target.specs.OctetHashes.{octets_hash as hash_of};
ghost use Rattle.dns_target.specs.TreeIndex.{code, parents_of, children_of, IsRun, HasRuns, IsIn, IsNode, IsTree, IsWalk, entry_at, name_at, cut_entries};

use crate::hashed_label::HashedLabel;
use crate::index::{Plan, SuffixIndex};
use crate::label_starts::LabelStarts;
use crate::lookup::{Lookup, grow, look_up};
use crate::name_encoding::Found;
use crate::octets_hash::octets_hash;
use dns_name::Head;
use std::alloc::{AllocError, Global};
use std::marker::Model;

/// A suffix: its first label, and the node of its parent.
#[derive(Clone, Debug, Drop)]
struct Node {
    label: HashedLabel,
    /// The number of nodes directly before this one that have the same parent.
    run: usize,
    /// The offset of the suffix, if it is below 16,384.
    offset: Option<u16>,
    /// The end of the name that the node was added for.
    end: usize,
    /// The node of the parent, or none if that is the root.
    parent: Option<usize>,
    /// The newest child.
    newest: Option<usize>,
    /// The next older node with the same parent.
    older: Option<usize>,
}

/// The nodes, each after its parent. The root isn't among them.
#[derive(Debug, Drop)]
pub struct TreeIndex {
    nodes: Vec<Node>,
    /// The newest child of the root.
    newest: Option<usize>,
}

impl Model for TreeIndex {
    ghost use Rattle.std.specs.Prelude.{vec_capacity};
    ghost use Rattle.dns_target.specs.TreeIndex.{Shape, entries_of, IsLinked};

    ghost Value = { Shape };

    ghost view = { λ t. record {
      entries = entries_of t.nodes.items;
      capacity = vec_capacity t.nodes;
    } };

    ghost invariant = { λ t. IsLinked t.nodes.items t.newest };
}

/// The newest child of `parent`. `first` is the newest child of the root.
fn newest_of(nodes: &[Node], first: Option<usize>, parent: Option<usize>) -> Option<usize>
    requires { IsIn (length nodes.now) parent }
    ensures { code result ≡ get_or (code first ∷ children_of nodes.now) (code parent) 0 }
{
    match parent {
        None => first,
        Some(i) => nodes[i].newest,
    }
}

/// The number of consecutive nodes at the end that have the parent `parent`.
fn run_before(nodes: &[Node], parent: Option<usize>) -> usize
    requires { HasRuns nodes.now }
    ensures { IsRun (parents_of nodes.now) (code parent) (length nodes.now) result }
{
    match nodes.last() {
        Some(last) if last.parent == parent => last.run + 1,
        _ => 0,
    }
}

impl TreeIndex {
    pub(crate) fn new(alloc: Global) -> Self
        ensures { result.entries ≡ [] }
    {
        TreeIndex {
            nodes: Vec::new(alloc),
            newest: None,
        }
    }

    fn clone(&self) -> Result<Self, AllocError>
        ensures entries { IfOk result (λ clone. clone.entries ≡ self.now.entries) }
        ensures full { OnErr result (0 < length self.now.entries) }
    {
        if self.nodes.is_empty() {
            return Ok(TreeIndex::new(*self.nodes.allocator()));
        }
        Ok(TreeIndex {
            nodes: self.nodes.clone()?,
            newest: self.newest,
        })
    }

    /// Reserves capacity for `additional` further nodes.
    fn reserve(&mut self, additional: usize) -> Result<(), AllocError>
        ensures entries { self.new.entries ≡ self.old.entries }
        ensures ok { OnOk result (length self.new.entries + additional ≤ self.new.capacity) }
        ensures full { OnErr result (self.old.capacity < length self.old.entries + additional) }
    {
        self.nodes.reserve(additional)
    }

    /// The child of `parent` with this label.
    pub(crate) fn find(&self, parent: Option<usize>, label: &[u8]) -> Option<usize>
        requires tree { IsTree self.now.entries }
        requires parent { IsIn (length self.now.entries) parent }
        ensures { IsNode self.now.entries (label.now ∷ name_at self.now.entries parent) result }
    {
        let hash = octets_hash(label);
        let mut at = newest_of(&self.nodes, self.newest, parent);
        while let Some(i) = at {
            if self.nodes[i].label.is(label, hash) {
                return Some(i);
            }
            at = self.older(i, label, hash);
        }
        None
    }

    /// An older sibling of `newer` at which to continue the search for a label. In the run of
    /// siblings directly before `newer`, it is the next with the label. If none has it, it is the
    /// sibling that the oldest of the run links to. So the search follows one link per run.
    fn older(&self, newer: usize, label: &[u8], hash: u32) -> Option<usize>
        requires tree { IsTree self.now.entries }
        requires walk { let parent = (entry_at self.now.entries newer).parent in
            IsWalk self.now.entries parent (label.now ∷ name_at self.now.entries parent)
            (Some newer) }
        requires other { bytes_eq (entry_at self.now.entries newer).label label.now ≡ false }
        requires hash { hash ≡ hash_of label.now }
        ensures walk { let parent = (entry_at self.now.entries newer).parent in
            IsWalk self.now.entries parent (label.now ∷ name_at self.now.entries parent) result }
        ensures older { IfSome result (λ older. older < newer) }
    {
        let first = newer - self.nodes[newer].run;
        let mut at = newer;
        while at > first {
            at -= 1;
            if self.nodes[at].label.is(label, hash) {
                return Some(at);
            }
        }
        self.nodes[at].older
    }

    /// The offset of a node's suffix, if it is below 16,384.
    pub(crate) fn offset(&self, at: usize) -> Option<u16>
        requires { at < length self.now.entries }
        ensures { result ≡ (entry_at self.now.entries at).offset }
    {
        self.nodes[at].offset
    }

    /// Adds a node and returns its index.
    pub(crate) fn push(
        &mut self,
        label: &[u8],
        offset: Option<u16>,
        end: usize,
        parent: Option<usize>,
    ) -> usize
        requires capacity { length self.old.entries < self.old.capacity }
        requires back { IsIn (length self.old.entries) parent }
        requires label { length label.now ≤ 63 }
        ensures entries { self.new.entries
            ≡ record {
              label = label.now;
              offset = offset;
              end = end;
              parent = parent;
            } ∷ self.old.entries }
        ensures capacity { self.new.capacity ≡ self.old.capacity }
        ensures index { result ≡ length self.old.entries }
    {
        let index = self.nodes.len();
        let older = newest_of(&self.nodes, self.newest, parent);
        let run = run_before(&self.nodes, parent);
        self.nodes.push_reserved(Node {
            label: HashedLabel::new(label),
            run,
            offset,
            end,
            parent,
            newest: None,
            older,
        });
        match parent {
            None => self.newest = Some(index),
            Some(i) => self.nodes[i].newest = Some(index),
        }
        index
    }

    /// Removes the nodes of names that end past `len`.
    fn cut(&mut self, len: usize)
        ensures { self.new.entries ≡ cut_entries len self.old.entries }
    {
        while let Some(last) = self.nodes.last() {
            if last.end <= len {
                return;
            }
            let Some(node) = self.nodes.pop() else {
                return;
            };
            match node.parent {
                None => self.newest = node.older,
                Some(i) => self.nodes[i].newest = node.older,
            }
        }
    }
}

/// How many labels before `from` of a name at offset `offset` begin below 16,384.
pub(crate) fn in_range(labels: &LabelStarts<'_>, offset: usize, from: usize) -> usize
    requires { from ≤ length labels.now }
    ensures { Enters TreeRule offset 0 labels.now from result }
{
    for count in 0..from {
        if offset >= Head::POINTER_END - labels.start(count) {
            return count;
        }
    }
    from
}

impl SuffixIndex for TreeIndex {
    type Hint = Lookup;

    ghost use Rattle.std.specs.Prelude.{◌+◌, ◌<◌, length, true, refl};
    ghost use Rattle.dns_wire.specs.Encoders.{Tree as TreeRule};
    ghost use Rattle.dns_target.specs.TreeIndex.{IsLookup, table_entries_of, IsTreeOf, IsTreePlanned, tree_stays};

    ghost rule = { TreeRule };

    ghost takes_memory = { true };

    ghost table_entries = { λ s. table_entries_of s.entries };

    ghost is_of = { λ b s. IsTreeOf b s.entries };

    ghost is_hint = { λ s name from lookup. IsLookup s.entries name lookup };

    ghost is_planned = { λ s name w from count.
        0 < count → IsTreePlanned s.entries name w from count };

    ghost lacks_capacity = { λ s from count. s.capacity < length s.entries + from };

    ghost stays = { λ b c t l e h. tree_stays b c t.entries l e h };

    ghost compressing = { refl };

    fn look_up(&self, _content: &[u8], labels: &LabelStarts<'_>) -> (Found, Lookup) {
        let lookup = look_up(self, labels);
        (lookup.found, lookup)
    }

    fn plan(&self, content: &[u8], labels: &LabelStarts<'_>, found: Found) -> Plan {
        let count = in_range(labels, content.len(), found.from);
        Plan {
            whole: count < found.from,
            count,
        }
    }

    fn add_suffixes(
        &mut self,
        content: &[u8],
        labels: &LabelStarts<'_>,
        offset: usize,
        found: Found,
        lookup: Lookup,
        count: usize,
    ) -> Result<(), AllocError> {
        if count > 0 {
            self.reserve(found.from)?;
            grow(self, labels, offset, content.len(), lookup);
        }
        Ok(())
    }

    fn forget(&mut self, len: usize) {
        self.cut(len);
    }

    fn copy(&self) -> Result<Self, AllocError>
        ensures table_entries { IfOk result (λ copy.
            table_entries_of copy.entries ≡ table_entries_of self.now.entries) }
        ensures is_of { IfOk result (λ copy.
            (b : List ℕ) → IsTreeOf b self.now.entries → IsTreeOf b copy.entries) }
        ensures full { OnErr result (0 < length self.now.entries) }
    {
        self.clone()
    }
}
