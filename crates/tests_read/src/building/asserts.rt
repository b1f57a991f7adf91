//! Values that many tests use.
use dns_build::{Builder, BuilderStage, MessageBuilder};
use dns_wire::{Composer, Name};
use std::process::Abort;

/// Whether the builder has this push limit.
pub(crate) fn has_limit<T: Composer, S: BuilderStage>(
    builder: &Builder<T, S>,
    limit: usize,
) -> bool {
    builder.push_limit() == Some(limit)
}

/// A builder over an empty target.
pub(crate) fn over<T: Composer>(rt: &impl Abort, target: T) -> MessageBuilder<T> {
    MessageBuilder::from_target(target).expect(rt, "room for the header")
}

/// The octets of example.com.
pub(crate) const EXAMPLE_COM: &[u8] = b"\x07example\x03com\x00";

/// The octets of the root.
pub(crate) const ROOT: &[u8] = b"\x00";

/// The uncompressed name in these octets.
pub(crate) fn name_of<'a>(rt: &impl Abort, octets: &'a [u8]) -> Name<&'a [u8]> {
    Name::from_octets(octets).expect(rt, "a name")
}
