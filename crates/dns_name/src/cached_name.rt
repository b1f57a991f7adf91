ghost use Rattle.std.specs.Prelude.{ℕ, List, ◌≤◌, ◌<◌, IsTrue, length};
ghost use Rattle.dns_name.specs.Names.{max_size, pointer_end};

/// A name read before in the same octets: its offset, the size of its labels, and the number of its
/// labels.
///
/// The names of a message often point to one offset. With the name there cached, `parse_cached`
/// reads them without walking over it again.
#[derive(Clone, Copy, Debug)]
pub struct CachedName {
    pub(crate) pos: u16,
    /// The size of the labels in octets; 255 if no name is cached, as no name has that size.
    pub(crate) size: u8,
    /// The number of labels, without the root label.
    pub(crate) count: u8,
    ghost reachable: { pos < pointer_end },
}

impl CachedName {
    ghost use Rattle.dns_name.specs.CachedNames.{IsCached, LeadsBackTo};
    ghost use Rattle.dns_name.specs.Unique.{NameOfSizeAndCount};

    /// Caches no name.
    pub fn new() -> CachedName
        ensures { (b : List ℕ) → IsCached b result }
    {
        CachedName {
            pos: 0,
            size: u8::MAX,
            count: 0,
        }
    }

    /// Caches the name at offset `pos`, whose `count` labels take `size` octets.
    pub(crate) fn at(octets: &[u8], pos: u16, size: usize, count: usize) -> CachedName
        requires encoded { NameOfSizeAndCount octets.now pos size count }
        requires short { size ≤ max_size }
        requires reachable { pos < pointer_end }
        ensures { IsCached octets.now result }
    {
        CachedName {
            pos,
            size: size as u8,
            count: count as u8,
        }
    }

    /// Returns whether the name at offset `start` is only a pointer back to the cached name.
    /// Returns `false` if no name is cached.
    #[inline(always)]
    pub(crate) fn is_pointed_to(&self, octets: &[u8], start: usize) -> bool
        requires { start ≤ length octets.now }
        ensures { IsTrue result → LeadsBackTo octets.now start self.now }
    {
        if start + 2 > octets.len() {
            return false;
        }
        let word = u16::from_be_bytes([octets[start], octets[start + 1]]);
        word == self.pos | 0xC000 && self.size < u8::MAX && usize::from(self.pos) < start
    }
}
