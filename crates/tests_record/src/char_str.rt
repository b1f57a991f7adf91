//! Character strings, for data types of the test's own (RFC 1035 section 3.3).
ghost use Rattle.std.specs.Prelude.{◌≡◌, ◌+◌, ◌≤◌, length};
ghost use Rattle.dns_message.specs.Data.{string_size};

use dns_message::wire::{ParseError, Parser};
use std::process::Abort;

/// A character string in wire format: a length octet and that many octets (RFC 1035 section 3.3).
#[derive(Clone, Copy)]
pub struct CharStr<'a> {
    /// The length octet and the octets after it.
    pub octets: &'a [u8],
    ghost is_string: { length octets.now ≡ string_size octets.now 0 },
    ghost short: { length octets.now ≤ 256 },
}

impl<'a> CharStr<'a> {
    ghost use Rattle.std.specs.Prelude.{◌↔◌, slice_range, IfSome, IsSome};
    ghost use Rattle.dns_message.specs.Wire.{seen, offset, Takes};

    /// The character string in these octets. `None` unless the first octet is the number of the
    /// others.
    pub fn from_octets(octets: &'a [u8]) -> Option<Self>
        ensures accepts { IsSome result ↔ (length octets.now ≡ string_size octets.now 0) }
        ensures octets { IfSome result (λ string. string.octets.now ≡ octets.now) }
    {
        let [len, text @ ..] = octets else {
            return None;
        };
        if text.len() != usize::from(*len) {
            return None;
        }
        Some(CharStr { octets })
    }

    /// The length octet and the octets after it.
    pub fn as_slice(&self) -> &'a [u8]
        ensures octets { result.now ≡ self.now.octets.now }
        ensures short { length result.now ≤ 256 }
    {
        self.octets
    }

    /// Reads a character string and advances past it.
    pub fn parse(parser: &mut Parser<'a>) -> Result<Self, ParseError>
        ensures { let n = string_size (seen parser.old) (offset parser.old) in
            Takes parser.old parser.new n result (λ string. string.octets.now
            ≡ slice_range (seen parser.old) (offset parser.old) (offset parser.old + n)) }
    {
        let size = 1 + usize::from(parser.peek(1)?[0]);
        let octets = parser.peek(size)?;
        parser.advance(size)?;
        Ok(CharStr { octets })
    }
}

/// The character string in these octets.
pub(crate) fn string(rt: &impl Abort, octets: &'static [u8]) -> CharStr<'static> {
    CharStr::from_octets(octets).expect(rt, "a string")
}
