//! TTLs that are lowered in place.
use dns_edit::age_ttls;
use dns_read::Message;
use std::alloc::Global;

/// Copies a message, and lowers the TTLs of the copy by a second, `rounds` times. Returns its length,
/// or `None` if the octets are no message, its TTLs can't be changed in place, or an allocation fails.
pub(crate) fn age(alloc: Global, octets: &[u8], rounds: usize) -> Option<usize> {
    let copy = Vec::from_slice(alloc, octets).ok()?;
    let mut message = Message::from_octets(copy).ok()?;
    for _ in 0..rounds {
        age_ttls(&mut message, 1).ok()?;
    }
    Some(message.as_slice().len())
}
