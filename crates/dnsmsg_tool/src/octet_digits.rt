//! Octets in hexadecimal digits (RFC 4648 section 8).
ghost use Rattle.std.specs.Prelude.{◌≡◌, IfOk, Ok};
ghost use Rattle.hex.specs.Hex.{decode_of};
ghost use Rattle.dnsmsg_tool.specs.ScriptWords.{ReadsValue};

use hex::FromHexError;
use std::alloc::{AllocError, Global};

/// Reads two digits for each octet, in either case. Returns `None` for any other text.
pub(crate) fn octets(alloc: Global, digits: &[u8]) -> Result<Option<Vec<u8>>, AllocError>
    ensures { IfOk result (ReadsValue (λ octets. octets.items)
        (λ octets. decode_of digits.now ≡ Ok octets)) }
{
    match hex::decode(alloc, digits) {
        Ok(octets) => Ok(Some(octets)),
        Err(FromHexError::OutOfMemory) => Err(AllocError),
        Err(_) => Ok(None),
    }
}
