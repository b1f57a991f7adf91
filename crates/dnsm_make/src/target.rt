//! The target that a message is built on.
ghost use Rattle.std.specs.Prelude.{◌≡◌, ◌<◌, ◌+◌, [], true, IfSome};
ghost use Rattle.dns_name.specs.Names.{pointer_end};
ghost use Rattle.dns_wire.specs.Encoders.{pointer};
ghost use Rattle.dns_wire.specs.Targets.{At, with_empty_table};
ghost use Rattle.dnsm_make.specs.LastNames.{IsPointer};

use dns_name::{Head, ToName};
use dns_octets::AppendError;
use dns_target::TreeCompressor;
use dns_wire::Composer;
use dnsm_read::octets::same;
use std::alloc::Global;
use std::marker::Model;

/// A compressing target over a vector. It doesn't look up a name that is the last one again, as the
/// owners of a set of records are.
#[derive(Drop)]
pub struct Target {
    tree: TreeCompressor<Vec<u8>>,
    /// The offset of the last name, or 0 if that may not be in the compression table.
    last: u16,
}

impl Model for Target {
    ghost use Rattle.dns_wire.specs.Targets.{Written, written_code};
    ghost use Rattle.dnsm_make.specs.LastNames.{IsLast};

    ghost Value = { Written };

    ghost coded = { written_code };

    ghost view = { λ t. t.tree };

    ghost invariant = { λ t. IsLast t.tree t.last };
}

/// The octets of a pointer.
fn pointer_to(at: u16) -> [u8; 2]
    requires { at < pointer_end }
    ensures { result ≡ pointer at }
{
    [192 + (at / 256) as u8, (at % 256) as u8]
}

/// Whether these octets are at an offset.
#[inline(always)]
fn are_at(content: &[u8], offset: usize, octets: &[u8]) -> bool
    ensures { result ≡ true → At content.now offset octets.now }
{
    if offset > content.len() || octets.len() > content.len() - offset {
        return false;
    }
    same(&content[offset..offset + octets.len()], octets)
}

/// The offset of a name that takes the octets up to `end`, if it surely is in the compression table
/// with this offset, else 0. It is if it isn't the root or a pointer alone, which have at most two
/// octets, and begins within the range of pointers.
fn offset_in_table(offset: usize, end: usize) -> u16
    ensures { 0 < result
        → (result ≡ offset) × (offset < pointer_end) × (offset + 2 < end) }
{
    if offset < Head::POINTER_END && offset + 2 < end {
        offset as u16
    } else {
        0
    }
}

impl Target {
    pub(crate) fn new(alloc: Global) -> Self
        ensures { result ≡ with_empty_table [] }
    {
        Target {
            tree: TreeCompressor::new(alloc, Vec::new(alloc)),
            last: 0,
        }
    }

    /// The octets of the message.
    pub fn as_slice(&self) -> &[u8]
        ensures { result.now ≡ self.now.octets }
    {
        self.tree.as_slice()
    }

    /// The offset of a name, if it is the last one and was written uncompressed.
    #[inline(always)]
    fn find_last<N: ToName>(&self, name: &N) -> Option<u16>
        ensures pointer { IfSome result (IsPointer self.now (N.name name.now)) }
        ensures in_range { IfSome result (λ at. at < pointer_end) }
    {
        let Some(octets) = name.as_flat_slice() else {
            return None;
        };
        let content = Composer::as_slice(&self.tree);
        if self.last == 0 {
            return None;
        }
        if !are_at(content, usize::from(self.last), octets) {
            return None;
        }
        Some(self.last)
    }
}

impl Composer for Target {
    ghost use Rattle.std.specs.Prelude.{None, refl, true};
    ghost use Rattle.dns_wire.specs.Encoders.{Tree};
    ghost use Rattle.dns_target.specs.Indexes.{compressing_not_plain};

    ghost rule = { Tree };

    ghost capacity = { None };

    ghost grows = { true };

    ghost written = { λ w. w };

    ghost plain_forgets = { λ e _. compressing_not_plain Tree refl e };

    fn as_slice(&self) -> &[u8] {
        Composer::as_slice(&self.tree)
    }

    fn append_slice(&mut self, octets: &[u8]) -> Result<(), AppendError> {
        self.tree.append_slice(octets)
    }

    fn append_compressed_name<N: ToName>(&mut self, name: &N) -> Result<(), AppendError> {
        if let Some(at) = self.find_last(name) {
            return self.tree.append_slice(&pointer_to(at));
        }
        let offset = self.tree.as_slice().len();
        let appended = self.tree.append_compressed_name(name);
        let end = self.tree.as_slice().len();
        self.last = offset_in_table(offset, end);
        appended
    }

    fn can_compress(&self) -> bool {
        true
    }

    fn truncate(&mut self, len: usize) {
        self.last = 0;
        self.tree.truncate(len);
    }

    fn write_at(&mut self, offset: usize, octets: &[u8]) {
        self.tree.write_at(offset, octets);
    }
}
