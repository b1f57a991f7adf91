//! Labels with their hashes.
ghost use Rattle.std.specs.Prelude.{◌≡◌, ◌≤◌, length};
ghost use Rattle.std.specs.Str.{bytes_eq};
ghost use Rattle.dns_target.specs.OctetHashes.{octets_hash};

use crate::octets_hash::octets_hash;
use arrayvec::ArrayVec;
use std::alloc::AllocError;
use std::marker::Model;

/// A label and its hash. Labels are only compared if their hashes are equal.
#[derive(Debug, Drop)]
pub(crate) struct HashedLabel {
    octets: ArrayVec<u8, 63>,
    hash: u32,
}

impl Model for HashedLabel {
    ghost use Rattle.std.specs.Prelude.{◌≡◌, ℕ, List};
    ghost use Rattle.dns_target.specs.OctetHashes.{octets_hash};

    ghost Value = { List ℕ };

    ghost view = { λ l. l.octets.items };

    ghost invariant = { λ l. l.hash ≡ octets_hash l.octets.items };
}

impl HashedLabel {
    #[inline]
    pub(crate) fn new(label: &[u8]) -> Self
        requires { length label.now ≤ 63 }
        ensures { result ≡ label.now }
    {
        let mut octets = ArrayVec::new();
        octets.try_extend_from_slice(label).unwrap();
        HashedLabel {
            octets,
            hash: octets_hash(label),
        }
    }

    /// Whether this is `label`, which has this hash.
    #[inline]
    pub(crate) fn is(&self, label: &[u8], hash: u32) -> bool
        requires { hash ≡ octets_hash label.now }
        ensures { result ≡ bytes_eq self.now label.now }
    {
        self.hash == hash && self.octets.as_slice() == label
    }
}

impl Clone for HashedLabel {
    ghost use Rattle.std.specs.Prelude.{◌≡◌};

    ghost is_clone = { λ label clone. clone ≡ label };

    fn clone(&self) -> Result<Self, AllocError> {
        Ok(HashedLabel {
            octets: self.octets.clone()?,
            hash: self.hash,
        })
    }
}
