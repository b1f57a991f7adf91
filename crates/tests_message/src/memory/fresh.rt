//! New targets of each type that allocates.
use dns_message::builder::MessageBuilder;
use dns_message::target::{
    Composer, FingerprintCompressor, HashCompressor, StaticCompressor, StreamTarget, TreeCompressor,
};
use dns_message::wire::AppendError;
use std::alloc::Global;
use std::process::Abort;

/// A target that can be created anew.
pub(crate) trait Fresh: Composer {
    /// An empty target.
    fn fresh(alloc: Global) -> Result<Self, AppendError>;
}

/// A `Vec` with a capacity of one octet, which has to grow for more. Without a capacity, it would
/// retry after the first failed allocation.
fn octets(alloc: Global) -> Result<Vec<u8>, AppendError> {
    Ok(Vec::with_capacity(alloc, 1)?)
}

impl Fresh for Vec<u8> {
    fn fresh(alloc: Global) -> Result<Self, AppendError> {
        octets(alloc)
    }
}

impl Fresh for StreamTarget<Vec<u8>> {
    fn fresh(alloc: Global) -> Result<Self, AppendError> {
        StreamTarget::new(octets(alloc)?)
    }
}

impl Fresh for StaticCompressor<Vec<u8>> {
    fn fresh(alloc: Global) -> Result<Self, AppendError> {
        Ok(StaticCompressor::new(octets(alloc)?))
    }
}

impl Fresh for StaticCompressor<StreamTarget<Vec<u8>>> {
    fn fresh(alloc: Global) -> Result<Self, AppendError> {
        Ok(StaticCompressor::new(StreamTarget::fresh(alloc)?))
    }
}

impl Fresh for TreeCompressor<Vec<u8>> {
    fn fresh(alloc: Global) -> Result<Self, AppendError> {
        Ok(TreeCompressor::new(alloc, octets(alloc)?))
    }
}

impl Fresh for HashCompressor<Vec<u8>> {
    fn fresh(alloc: Global) -> Result<Self, AppendError> {
        Ok(HashCompressor::new(alloc, octets(alloc)?))
    }
}

impl Fresh for FingerprintCompressor<Vec<u8>> {
    fn fresh(alloc: Global) -> Result<Self, AppendError> {
        Ok(FingerprintCompressor::new(alloc, octets(alloc)?))
    }
}

fn start<T: Fresh>(alloc: Global) -> Result<MessageBuilder<T>, AppendError> {
    MessageBuilder::from_target(T::fresh(alloc)?)
}

/// A builder for an empty message. It is created again if an allocation failed.
pub(crate) fn started<R: Abort, T: Fresh>(rt: &R, alloc: Global) -> MessageBuilder<T> {
    match start(alloc) {
        Err(AppendError::OutOfMemory) => start(alloc).expect(rt, "memory"),
        answer => answer.expect(rt, "a builder"),
    }
}
