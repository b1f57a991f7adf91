//! Suffixes of names, found by their first label and the offset of their parent.
ghost use Rattle.std.specs.Prelude.{◌≡◌, ◌+◌, ◌<◌, ◌≤◌, ◌∷◌, [], length, ℕ, None, OnOk, OnErr, IsTrue, IfOk};
ghost use Rattle.dns_target.specs.TableEntries.{AreOrdered};
ghost use Rattle.dns_target.specs.HashIndex.{find, cut_suffixes, table_entries_in};

use arrayvec::ArrayVec;
use std::alloc::{AllocError, Global};
use std::collections::HashMap;
use std::hash::{Hash, Hasher};
use std::marker::Model;

/// The first label of a suffix, and the offset of its parent, or none if that is the root.
#[derive(Debug, Drop)]
pub(crate) struct Key {
    label: ArrayVec<u8, 63>,
    parent: Option<u16>,
}

impl Clone for Key {
    ghost use Rattle.std.specs.Prelude.{◌≡◌};

    ghost is_clone = { λ key clone. clone ≡ key };

    fn clone(&self) -> Result<Self, AllocError> {
        Ok(Key {
            label: self.label.clone()?,
            parent: self.parent,
        })
    }
}

impl PartialEq for Key {
    ghost use Rattle.std.proofs.Common.{rules};
    ghost use Rattle.std.specs.Cmp.Rules.{comparing};
    ghost use Rattle.dns_target.specs.HashIndex.{key_eq};

    ghost eq = { key_eq };

    ghost laws = { Prim.search (comparing, rules) };

    fn eq(&self, other: &Self) -> bool {
        self.label.as_slice() == other.label.as_slice() && self.parent == other.parent
    }
}

impl Eq for Key {
    ghost use Rattle.std.proofs.Common.{rules};
    ghost use Rattle.std.specs.Cmp.Rules.{comparing};

    ghost laws = { Prim.search (comparing, rules) };
}

impl Hash for Key {
    ghost use Rattle.std.proofs.Common.{rules};
    ghost use Rattle.std.specs.Prelude.{◌∷◌, unwrap_or};
    ghost use Rattle.std.specs.Hash as fed;

    ghost hash_input = { λ k. k.label.items ∷ fed.u16 (unwrap_or k.parent 0) };

    ghost respects_eq = { Prim.search rules };

    fn hash<H: Hasher>(&self, state: &mut H) {
        state.write(self.label.as_slice());
        state.write_u16(self.parent.unwrap_or(0));
    }
}

/// A key, and the end of the name that it was added for.
#[derive(Clone, Debug, Drop)]
struct EndedKey {
    key: Key,
    end: usize,
}

/// The offsets of suffixes by their keys, and the keys in order, the newest last.
#[derive(Debug, Drop)]
pub struct SuffixMap {
    offsets: HashMap<Key, u16>,
    keys: Vec<EndedKey>,
}

impl Model for SuffixMap {
    ghost use Rattle.std.specs.Prelude.{◌-◌, min, length, vec_capacity};
    ghost use Rattle.std.specs.HashMap.{spare};
    ghost use Rattle.dns_target.specs.HashIndex.{KeyedSuffixes, suffixes_of, IsTabled};

    ghost Value = { KeyedSuffixes };

    ghost view = { λ t. record {
      suffixes = suffixes_of t.offsets t.keys.items;
      spare_capacity = min (spare t.offsets) (vec_capacity t.keys - length t.keys.items);
    } };

    ghost invariant = { λ t. IsTabled t.offsets t.keys.items };
}

impl Key {
    /// An empty key, to be set.
    pub(crate) fn new() -> Self {
        Key {
            label: ArrayVec::new(),
            parent: None,
        }
    }

    /// Sets the label and the offset of its parent.
    pub(crate) fn set(&mut self, label: &[u8], parent: Option<u16>)
        requires { length label.now ≤ 63 }
        ensures label { self.new.label.items ≡ label.now }
        ensures parent { self.new.parent ≡ parent }
    {
        self.label = ArrayVec::new();
        self.label.try_extend_from_slice(label).unwrap();
        self.parent = parent;
    }
}

impl SuffixMap {
    pub(crate) fn new(alloc: Global) -> Self
        ensures { result.suffixes ≡ [] }
    {
        SuffixMap {
            offsets: HashMap::new(alloc),
            keys: Vec::new(alloc),
        }
    }

    pub(crate) fn clone(&self) -> Result<Self, AllocError>
        ensures suffixes { IfOk result (λ clone. clone.suffixes ≡ self.now.suffixes) }
        ensures full { OnErr result (0 < length self.now.suffixes) }
    {
        if self.keys.is_empty() {
            return Ok(SuffixMap::new(*self.keys.allocator()));
        }
        Ok(SuffixMap {
            offsets: self.offsets.clone()?,
            keys: self.keys.clone()?,
        })
    }

    /// Reserves capacity for `additional` further suffixes.
    pub(crate) fn reserve(&mut self, additional: usize) -> Result<(), AllocError>
        ensures suffixes { self.new.suffixes ≡ self.old.suffixes }
        ensures ok { OnOk result (additional ≤ self.new.spare_capacity) }
        ensures full { OnErr result (self.old.spare_capacity < additional) }
    {
        self.offsets.reserve(additional)?;
        self.keys.reserve(additional)
    }

    /// The offset of the suffix with this first label and parent. A key is made only if there are
    /// suffixes.
    #[inline(always)]
    pub(crate) fn find(&self, label: &[u8], parent: Option<u16>) -> Option<u16>
        requires { length label.now ≤ 63 }
        ensures { result ≡ find self.now.suffixes label.now parent }
    {
        if self.keys.is_empty() {
            return None;
        }
        let mut key = Key::new();
        key.set(label, parent);
        self.offsets.get(&key).copied()
    }

    pub(crate) fn push(&mut self, label: &[u8], parent: Option<u16>, offset: u16, end: usize)
        requires spare_capacity { 0 < self.old.spare_capacity }
        requires label { length label.now ≤ 63 }
        requires new { find self.old.suffixes label.now parent ≡ None }
        ensures suffixes { self.new.suffixes
            ≡ record { label = label.now; parent = parent; offset = offset; end = end }
            ∷ self.old.suffixes }
        ensures spare_capacity { self.old.spare_capacity ≤ self.new.spare_capacity + 1 }
    {
        // Each key is set in place, since moving one that was just written takes longer.
        let mut key = Key::new();
        key.set(label, parent);
        let mut kept = Key::new();
        kept.set(label, parent);
        // The capacity is there, and the key is new.
        let _ = self.offsets.insert(key, offset);
        self.keys.push_reserved(EndedKey { key: kept, end });
    }

    /// Whether all names end past `len`. They do if the oldest does.
    pub(crate) fn ends_past(&self, len: usize) -> bool
        requires { AreOrdered (table_entries_in self.now.suffixes) }
        ensures { IsTrue result → cut_suffixes len self.now.suffixes ≡ [] }
    {
        match self.keys.first() {
            Some(first) => first.end > len,
            None => false,
        }
    }

    pub(crate) fn clear(&mut self)
        ensures { self.new.suffixes ≡ [] }
    {
        self.offsets.clear();
        self.keys.clear();
    }

    /// Removes the suffixes of names that end past `len`, one by one.
    pub(crate) fn cut(&mut self, len: usize)
        ensures { self.new.suffixes ≡ cut_suffixes len self.old.suffixes }
    {
        while let Some(last) = self.keys.last() {
            if last.end <= len {
                return;
            }
            if let Some(last) = self.keys.pop() {
                self.offsets.remove(&last.key);
            }
        }
    }
}
