//! Reading octets of RDATA.
ghost use Rattle.std.specs.Prelude.{◌≡◌, ◌+◌, slice_range};
ghost use Rattle.dns_name.specs.Parsers.{seen, offset, Takes};

use dns_name::Parser;
use dns_octets::ParseError;

/// Reads the next `n` octets and advances past them. Returns `ShortInput` if fewer remain.
pub(crate) fn take_octets<'a>(parser: &mut Parser<'a>, n: usize) -> Result<&'a [u8], ParseError>
    ensures { Takes parser.old parser.new n result
        (λ octets. octets.now ≡ slice_range (seen parser.old) (offset parser.old)
        (offset parser.old + n)) }
{
    let octets = parser.peek(n)?;
    parser.advance(n)?;
    Ok(octets)
}
