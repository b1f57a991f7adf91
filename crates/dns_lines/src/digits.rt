//! The hexadecimal digits of a message.
ghost use Rattle.std.specs.Prelude.{◌≡◌, IfOk};
ghost use Rattle.dns_lines.specs.Digits.{unspaced};

use std::alloc::{AllocError, Global};

/// The octets that aren't ASCII white space: space, tab, line feed, form feed and carriage return.
pub fn unspaced(alloc: Global, octets: &[u8]) -> Result<Vec<u8>, AllocError>
    ensures { IfOk result (λ others. others.items ≡ unspaced octets.now) }
{
    octets
        .iter()
        .copied()
        .filter(|octet| !octet.is_ascii_whitespace())
        .collect(alloc)
}
