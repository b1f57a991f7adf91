//! RDATA of MX, made from values and from text.
use dns_iana::Rtype;
use dns_name::Name;
use fields_records::from_text;
use fields_values::mx;
use std::alloc::Global;

/// Makes RDATA of MX with preference 10 and this exchange, `rounds` times. `None` if the octets are no
/// name, or an allocation fails.
pub(crate) fn by_value(alloc: Global, exchange: &[u8], rounds: usize) -> Option<usize> {
    let exchange = Name::from_octets(exchange).ok()?;
    for _ in 0..rounds {
        if mx(alloc, 10, &exchange).is_err() {
            return None;
        }
    }
    Some(rounds)
}

/// Makes the same RDATA from its words, `rounds` times. `None` if the octets are no text of a name,
/// or an allocation fails.
pub(crate) fn by_text(alloc: Global, exchange: &[u8], rounds: usize) -> Option<usize> {
    let exchange = std::str::from_utf8(exchange).ok()?;
    for _ in 0..rounds {
        if from_text(alloc, Rtype::MX, &["10", exchange]).is_err() {
            return None;
        }
    }
    Some(rounds)
}
