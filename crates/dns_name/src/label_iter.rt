ghost use Rattle.std.specs.Prelude.{◌≡◌};
ghost use Rattle.dns_name.specs.Unique.{LabelsAt, LabelsAt-prop};

use crate::label::Label;

/// An iterator over the labels of a name, from both ends. The root label is the last.
#[derive(Clone, Copy, Debug)]
pub struct LabelIter<'a> {
    octets: &'a [u8],
    /// The offset of the first remaining label, or of a pointer to it.
    pos: usize,
    /// The octets that the remaining labels take, each with its length octet.
    left: usize,
    ghost labels_at: { LabelsAt octets.now pos left } by { LabelsAt-prop octets.now pos left },
}

impl<'a> LabelIter<'a> {
    ghost use Rattle.dns_name.specs.Names.{Labels, with_root, NameAt};
    ghost use Rattle.dns_name.specs.ParsedName.{labels_left};
    ghost use Rattle.dns_name.specs.Unique.{NameOfSize};

    /// Creates an iterator over the labels of the name at offset `pos`, which take `size` octets.
    pub(crate) fn new(octets: &'a [u8], pos: usize, size: usize) -> Self
        requires { NameOfSize octets.now pos size }
        ensures { (name : Labels) → NameAt octets.now pos name → labels_left result
            ≡ with_root name }
    {
        LabelIter {
            octets,
            pos,
            left: size + 1,
        }
    }
}

impl<'a> Iterator for LabelIter<'a> {
    ghost use Rattle.std.specs.Iterator.{YieldsFirstBy, item_count};
    ghost use Rattle.dns_name.specs.ParsedName.{label_octets, labels_left};

    type Item = Label<'a>;

    ghost next_gives = { YieldsFirstBy label_octets labels_left };

    ghost remaining = { item_count labels_left };

    fn next(&mut self) -> Option<Label<'a>> {
        if self.left == 0 {
            return None;
        }
        let (label, after) = Label::first_at(self.octets, self.pos);
        self.left -= label.len() + 1;
        self.pos = after;
        Some(label)
    }
}

impl DoubleEndedIterator for LabelIter<'_> {
    ghost use Rattle.std.specs.Iterator.{YieldsLastBy};
    ghost use Rattle.dns_name.specs.ParsedName.{label_octets, labels_left};

    ghost next_back_gives = { YieldsLastBy label_octets labels_left };

    fn next_back(&mut self) -> Option<Self::Item> {
        if self.left == 0 {
            return None;
        }
        let mut pos = self.pos;
        let mut skipped = 0;
        let last = 'walk: loop {
            let (label, after) = Label::first_at(self.octets, pos);
            let taken = label.len() + 1;
            if skipped + taken == self.left {
                break label;
            }
            skipped += taken;
            pos = after;
        };
        self.left = skipped;
        Some(last)
    }
}
