//! The octets of a value (RFC 9460 section 2.2).
ghost use Rattle.fields_parameters.specs.PushedValues.{PushesOctets};

use arrayvec::ArrayVec;

/// The most octets of a value, whose length takes 16 bits.
pub(crate) const MOST_OCTETS: usize = 65_535;

/// The most octets of a value that is read at little cost.
pub(crate) const FEW_OCTETS: usize = 512;

/// Appends octets if they fit, else nothing.
pub(crate) fn push_octets<const N: usize>(value: &mut ArrayVec<u8, N>, octets: &[u8]) -> bool
    ensures { PushesOctets N octets.now value.old.items value.new.items result }
{
    match value.try_extend_from_slice(octets) {
        Ok(()) => true,
        Err(_) => false,
    }
}
