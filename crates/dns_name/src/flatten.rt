//! Conversion of names in a message into uncompressed names.
ghost use Rattle.std.specs.Prelude.{◌≡◌, ◌+◌, ◌≤◌, ◌++◌, length, ⊤};
ghost use Rattle.arrayvec.specs.ArrayVec.{array_vec_len};
ghost use Rattle.dns_octets.specs.Converts.{Converts};
ghost use Rattle.dns_name.specs.ParsedName.{label_octets, labels};
ghost use Rattle.dns_name.specs.NameReading.{name_labels};
ghost use Rattle.dns_name.specs.Names.{framed, lowered, uncompressed};

use crate::label::Label;
use crate::name::Name;
use crate::parsed_name::ParsedName;
use arrayvec::ArrayVec;
use dns_octets::AppendError;
use std::alloc::Global;

/// A conversion of a value that may contain compressed names into one that contains none.
pub trait FlattenInto<Target>: Sized {
    /// What it means that the target holds the source's value.
    ghost keeps: { Self → Target → Type 0 };

    /// Whether the source's value exceeds the target's capacity.
    ghost too_long: { Self → Type 0 };

    /// Whether a conversion allocates.
    ghost takes_memory: { Type 0 };

    /// Converts the source.
    ///
    /// Errors: `ShortBuf` if the value exceeds the target's capacity; `OutOfMemory` if an
    /// allocation from `alloc` fails.
    fn try_flatten_into(self, alloc: Global) -> Result<Target, AppendError>
        ensures { Converts result (keeps self) (too_long self) takes_memory };
}

/// Appends a label with its length octet.
pub(crate) fn append_label(target: &mut ArrayVec<u8, 255>, label: Label<'_>)
    requires { array_vec_len target.old + length (framed (label_octets label)) ≤ 255 }
    ensures { target.new.items ≡ target.old.items ++ framed (label_octets label.entry) }
{
    target.push(label.len() as u8);
    target.try_extend_from_slice(label.as_slice()).unwrap();
}

impl ParsedName<'_> {
    /// Returns the uncompressed octets of the name, at most 255 (RFC 1035 section 3.1).
    pub fn uncompressed(self) -> ArrayVec<u8, 255>
        ensures { result.items ≡ uncompressed (labels self.entry) }
    {
        let mut octets = ArrayVec::new();
        for label in self.iter_labels() {
            append_label(&mut octets, label);
        }
        octets
    }

    /// Returns the uncompressed octets with ASCII letters lowercased (RFC 4034 section 6.2).
    pub fn lowercased(self) -> ArrayVec<u8, 255>
        ensures { result.items ≡ uncompressed (lowered (labels self.entry)) }
    {
        let mut octets = self.uncompressed();
        octets.as_mut_slice().make_ascii_lowercase();
        octets
    }
}

impl FlattenInto<Name<Vec<u8>>> for ParsedName<'_> {
    ghost keeps = { λ source name. name_labels name ≡ labels source };

    ghost too_long = { λ _. ⊥ };

    ghost takes_memory = { ⊤ };

    fn try_flatten_into(self, alloc: Global) -> Result<Name<Vec<u8>>, AppendError> {
        let octets = Vec::from_slice(alloc, self.uncompressed().as_slice())?;
        Ok(Name::of_whole(octets))
    }
}

impl FlattenInto<Name<ArrayVec<u8, 255>>> for ParsedName<'_> {
    ghost keeps = { λ source name. name_labels name ≡ labels source };

    ghost too_long = { λ _. ⊥ };

    ghost takes_memory = { ⊥ };

    fn try_flatten_into(self, _alloc: Global) -> Result<Name<ArrayVec<u8, 255>>, AppendError> {
        Ok(Name::of_whole(self.uncompressed()))
    }
}
