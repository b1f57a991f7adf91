//! A target for messages over a stream.
ghost use Rattle.std.specs.Prelude.{◌≡◌, [], refl, IfOk, IfErr, OnErr, IsTrue};
ghost use Rattle.dns_wire.specs.Encoders.{Plain};
ghost use Rattle.dns_wire.specs.Targets.{AppendReturns, with_empty_table};
ghost use Rattle.dns_wire.specs.Stream.{stream_capacity, with_prefix};

use crate::composer::{CloneTarget, Composer};
use dns_name::ToName;
use dns_octets::AppendError;
use std::alloc::{AllocError, Global};
use std::convert::AsSlice;
use std::marker::Model;

/// The octets of the length before a message.
const PREFIX_LEN: usize = 2;

/// The maximum length in octets of a message over a stream, of RDATA and of an option's data: the
/// largest number that two octets represent (RFC 1035 sections 3.2.1 and 4.2.2; RFC 6891 section
/// 6.1.2).
pub const MAX_OCTETS: usize = 65_535;

/// A target that stores the length of its message as two octets before the message (RFC 1035
/// section 4.2.2).
///
/// The prefix isn't part of the content: offsets count from the start of the message. A message has
/// at most 65,535 octets. An append that would exceed them is `ShortBuf`, and doesn't allocate.
#[derive(Debug, Drop)]
pub struct StreamTarget<T: Composer> {
    target: T,
}

impl<T: Composer> Model for StreamTarget<T> {
    ghost use Rattle.std.specs.Prelude.{List, ℕ, drop};
    ghost use Rattle.dns_wire.specs.Stream.{IsStream};

    ghost Value = { List ℕ };

    ghost view = { λ s. drop 2 (T.written s.target).octets };

    ghost invariant = { λ s. IsStream T.rule (T.written s.target) };
}

impl StreamTarget<Vec<u8>> {
    /// Creates a target over an empty vector. Returns `OutOfMemory` if an allocation from `alloc`
    /// fails.
    pub fn new_vec(alloc: Global) -> Result<Self, AppendError>
        ensures empty { IfOk result (λ stream. stream ≡ []) }
        ensures memory { IfErr result (λ error. error ≡ AppendError.OutOfMemory) }
    {
        StreamTarget::new(Vec::new(alloc))
    }
}

impl<T: Composer> StreamTarget<T> {
    /// Creates a target with an empty message over `target`, which is emptied and must not
    /// compress.
    ///
    /// Errors: `ShortBuf` exactly if `target` has no capacity for the two octets of the length;
    /// `OutOfMemory` if an allocation fails.
    pub fn new(target: T) -> Result<Self, AppendError>
        requires { T.rule ≡ Plain }
        ensures empty { IfOk result (λ stream. stream ≡ []) }
        ensures outcome { AppendReturns T.capacity T.grows 2 result }
    {
        let mut target = target;
        target.truncate(0);
        target.append_slice(&[0; PREFIX_LEN])?;
        Ok(StreamTarget { target })
    }

    /// Returns the wrapped target, whose content is the length of the message and the message.
    pub fn as_target(&self) -> &T
        ensures { T.written result.now ≡ with_empty_table (with_prefix self.now) }
    {
        &self.target
    }

    /// Returns the wrapped target, whose content is the length of the message and the message.
    pub fn into_target(self) -> T
        ensures { T.written result ≡ with_empty_table (with_prefix self) }
    {
        self.target
    }

    /// Returns the length of the message as two octets, big-endian, followed by the message.
    pub fn as_stream_slice(&self) -> &[u8]
        ensures { result.now ≡ with_prefix self.now }
    {
        self.target.as_slice()
    }

    /// Returns the message.
    pub fn as_dgram_slice(&self) -> &[u8]
        ensures { result.now ≡ self.now }
    {
        Composer::as_slice(self)
    }

    /// Returns the message.
    pub fn as_slice(&self) -> &[u8]
        ensures { result.now ≡ self.now }
    {
        self.as_dgram_slice()
    }
}

impl<T: CloneTarget> StreamTarget<T> {
    /// Clones the target. Returns `AllocError` if an allocation fails.
    pub fn clone(&self) -> Result<Self, AllocError>
        ensures equal { IfOk result (λ clone. clone ≡ self.now) }
        ensures memory { OnErr result (IsTrue T.grows) }
    {
        Ok(StreamTarget {
            target: self.target.clone_target()?,
        })
    }
}

impl<T: Composer> Composer for StreamTarget<T> {
    ghost rule = { Plain };

    ghost capacity = { stream_capacity T.capacity };

    ghost grows = { T.grows };

    ghost written = { with_empty_table };

    ghost plain_forgets = { λ _ _. refl };

    fn as_slice(&self) -> &[u8] {
        &self.target.as_slice()[PREFIX_LEN..]
    }

    fn append_slice(&mut self, octets: &[u8]) -> Result<(), AppendError> {
        let len = self.target.as_slice().len() - PREFIX_LEN;
        if octets.len() > MAX_OCTETS - len {
            return Err(AppendError::ShortBuf);
        }
        self.target.append_slice(octets)?;
        let len = (len + octets.len()) as u16;
        self.target.write_at(0, &len.to_be_bytes());
        Ok(())
    }

    #[tactic(auto, unfolding(crate::specs::Encoders::encode_name))]
    fn append_compressed_name<N: ToName>(&mut self, name: &N) -> Result<(), AppendError> {
        match name.as_flat_slice() {
            Some(octets) => self.append_slice(octets),
            None => self.append_slice(name.as_parsed().uncompressed().as_slice()),
        }
    }

    fn can_compress(&self) -> bool {
        false
    }

    fn truncate(&mut self, len: usize) {
        if len < self.target.as_slice().len() - PREFIX_LEN {
            self.target.truncate(len + PREFIX_LEN);
            self.target.write_at(0, &(len as u16).to_be_bytes());
        }
    }

    fn write_at(&mut self, offset: usize, octets: &[u8]) {
        self.target.write_at(offset + PREFIX_LEN, octets);
    }
}

/// Returns the message.
impl<T: Composer> AsSlice<u8> for StreamTarget<T> {
    ghost items = { λ s. s };

    fn as_slice(&self) -> &[u8] {
        self.as_dgram_slice()
    }
}

impl<T: CloneTarget> CloneTarget for StreamTarget<T> {
    fn clone_target(&self) -> Result<Self, AllocError> {
        self.clone()
    }
}
