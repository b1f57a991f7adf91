//! Octets printed as addresses, and counts of things.
use std::fmt;
use std::net::{Ipv4Addr, Ipv6Addr};

/// A count of things, printed as in `1 octet` or `2 octets`.
#[derive(Clone, Copy)]
pub(crate) struct Count {
    number: usize,
    word: &'static str,
}

/// A count of octets.
pub(crate) fn octet_count(number: usize) -> Count {
    let word = "octet";
    Count { number, word }
}

/// A count of seconds.
pub(crate) fn second_count(number: u32) -> Count {
    let number = number as usize;
    let word = "second";
    Count { number, word }
}

impl fmt::Display for Count {
    fn fmt<W: fmt::Write>(&self, f: &mut fmt::Formatter<W>) -> fmt::Result {
        let number = self.number;
        let word = self.word;
        let ending = if number == 1 { "" } else { "s" };
        write!(f, "{number} {word}{ending}")
    }
}

/// Prints 4 octets as an IPv4 address, or 16 as an IPv6 address.
pub(crate) fn write_address<W: fmt::Write>(
    f: &mut fmt::Formatter<W>,
    octets: &[u8],
) -> fmt::Result {
    if let [a, b, c, d] = octets {
        let address = Ipv4Addr::new(*a, *b, *c, *d);
        return write!(f, "{address}");
    }
    if let Ok(octets) = <[u8; 16]>::try_from(octets) {
        let address = Ipv6Addr::from_octets(octets);
        return write!(f, "{address}");
    }
    Ok(())
}
