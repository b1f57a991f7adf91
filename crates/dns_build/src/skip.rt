//! Where the first records of a section end.
ghost use Rattle.std.specs.Prelude.{◌≤◌, ℕ, length, IfOk, OnErr};
ghost use Rattle.dns_item.specs.Items.{SkipsRecord};
ghost use Rattle.dns_read.specs.Reading.{Skipped};

use dns_item::ParsedRecord;
use dns_name::Parser;
use dns_octets::ParseError;

/// The offset after `count` records from offset `start`, or an error if they can't all be skipped.
pub(crate) fn records_end(octets: &[u8], start: usize, count: u16) -> Result<usize, ParseError>
    ensures ok { IfOk result (λ end. Skipped (SkipsRecord octets.now) count start end) }
    ensures after { IfOk result (λ end. start ≤ end) }
    ensures err { OnErr result (start ≤ length octets.now → (end : ℕ)
        → Skipped (SkipsRecord octets.now) count start end → ⊥) }
{
    let mut parser = Parser::new(octets);
    if let Err(error) = parser.seek(start) {
        return Err(error);
    }
    for _record in 0..count {
        ParsedRecord::skip(&mut parser)?;
    }
    Ok(parser.pos())
}
