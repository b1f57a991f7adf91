//! Octets that are put together.
use std::fmt;

/// The capacity of a buffer in octets: more than a name can have, and more than the messages here
/// have.
pub(crate) const CAPACITY: usize = 320;

/// A list of octets. Octets past the capacity are dropped.
#[derive(Clone, Copy, PartialEq, Eq)]
pub(crate) struct Buffer {
    octets: [u8; CAPACITY],
    len: usize,
}

impl Buffer {
    /// No octets.
    pub(crate) fn new() -> Self {
        Buffer {
            octets: [0; CAPACITY],
            len: 0,
        }
    }

    /// These octets.
    pub(crate) fn of(octets: &[u8]) -> Self {
        Buffer::new().with(octets)
    }

    /// Appends octets.
    pub(crate) fn with(mut self, octets: &[u8]) -> Self {
        for octet in octets {
            if self.len < CAPACITY {
                self.octets[self.len] = *octet;
                self.len += 1;
            }
        }
        self
    }

    /// The octets.
    pub(crate) fn as_slice(&self) -> &[u8] {
        self.octets.get(..self.len).unwrap_or(b"")
    }
}

impl fmt::Debug for Buffer {
    fn fmt<W: fmt::Write>(&self, f: &mut fmt::Formatter<W>) -> fmt::Result {
        self.as_slice().fmt(f)
    }
}
