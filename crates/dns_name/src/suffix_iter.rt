//! The parent of a name, and its suffixes.
ghost use Rattle.std.specs.Prelude.{◌≡◌, ◌↔◌, [], drop, None, IfSome};

use crate::label::Label;
use crate::parsed_name::ParsedName;

/// An iterator over the suffixes of a name: the name itself, its parent, and so on. The root is the
/// last.
#[derive(Clone, Copy, Debug)]
pub struct SuffixIter<'a> {
    /// The next suffix.
    name: Option<ParsedName<'a>>,
}

impl<'a> Iterator for SuffixIter<'a> {
    ghost use Rattle.std.specs.Iterator.{YieldsFirstBy, item_count};
    ghost use Rattle.dns_name.specs.ParsedName.{labels};
    ghost use Rattle.dns_name.specs.Suffixes.{suffixes_left};

    type Item = ParsedName<'a>;

    ghost next_gives = { YieldsFirstBy labels suffixes_left };

    ghost remaining = { item_count suffixes_left };

    fn next(&mut self) -> Option<ParsedName<'a>> {
        let name = self.name?;
        self.name = name.parent();
        Some(name)
    }
}

impl<'a> ParsedName<'a> {
    ghost use Rattle.dns_name.specs.ParsedName.{labels};
    ghost use Rattle.dns_name.specs.Suffixes.{suffixes, suffixes_left};

    /// Returns the name without its first label, or `None` for the root. Only the first label is
    /// read.
    pub fn parent(&self) -> Option<ParsedName<'a>>
        ensures root { (result ≡ None) ↔ (labels self.now ≡ []) }
        ensures parent { IfSome result (λ parent. labels parent ≡ drop 1 (labels self.now)) }
    {
        if self.is_root() {
            return None;
        }
        let (label, after) = Label::first_at(self.octets, self.pos);
        Some(ParsedName {
            octets: self.octets,
            pos: after,
            size: self.size - (label.len() as u32 + 1),
            count: self.count - 1,
        })
    }

    /// Iterates over the suffixes of the name: the name itself, its parent, and so on. The root is
    /// the last.
    pub fn iter_suffixes(&self) -> SuffixIter<'a>
        ensures { suffixes_left result ≡ suffixes (labels self.now) }
    {
        SuffixIter { name: Some(*self) }
    }
}
