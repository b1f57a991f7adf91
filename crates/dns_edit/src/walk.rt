ghost use Rattle.std.specs.Prelude.{◌≡◌, ◌≤◌, IfErr, IfOk, cond, length};
ghost use Rattle.dns_name.specs.Names.{fault_of};
ghost use Rattle.dns_read.specs.Message.{message_octets};
ghost use Rattle.dns_edit.specs.Edits.{IsLeastTtl, RecordsFault, least_with};
ghost use Rattle.dns_edit.specs.Ends.{RecordsEndAt};
ghost use Rattle.dns_edit.specs.Ttls.{holds_ttl};

use crate::change::has_ttl;
use crate::edit::record_count;
use crate::span::span_at;
use dns_octets::{Octets, ParseError};
use dns_read::Message;

/// The offset after the last record, and the least TTL of the records in seconds, if one has a TTL.
pub(crate) fn walk_records<Octs: Octets>(
    message: &Message<Octs>,
) -> Result<(usize, Option<u32>), ParseError>
    ensures end { IfOk result (λ walked. RecordsEndAt (message_octets message.now) walked.0) }
    ensures within { IfOk result (λ walked. walked.0 ≤ length (message_octets message.now)) }
    ensures least { IfOk result (λ walked. IsLeastTtl (message_octets message.now) walked.1) }
    ensures fault { IfErr result (λ e. RecordsFault (message_octets message.now) (fault_of e)) }
{
    let octets = message.as_slice();
    let start = message.answer()?.pos();
    let mut pos = start;
    let mut least = None;
    for _record in 0..record_count(octets) {
        let span = span_at(octets, pos)?;
        least = lesser(least, span.rtype, span.ttl);
        pos = span.end;
    }
    Ok((pos, least))
}

/// The least of the TTLs so far and that of a record of this type, if it has one.
fn lesser(least: Option<u32>, rtype: u16, ttl: u32) -> Option<u32>
    ensures { result ≡ cond (holds_ttl rtype) (least_with ttl least) least }
{
    if !has_ttl(rtype) {
        return least;
    }
    match least {
        None => Some(ttl),
        Some(least) => Some(ttl.min(least)),
    }
}
