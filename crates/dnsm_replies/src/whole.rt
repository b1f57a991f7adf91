//! What is asked of all questions and records of a message.
ghost use Rattle.std.specs.Prelude.{◌≡◌, ◌↔◌, ◌<◌, ◌≤◌, length, IfErr, IfOk, IsTrue, OnOk};
ghost use Rattle.dns_code.specs.HeaderSection.{header_size};
ghost use Rattle.dns_edit.specs.Acceptance.{IsRegular};
ghost use Rattle.dns_edit.specs.Edits.{IsLeastTtl};
ghost use Rattle.dns_edit.specs.Ends.{RecordsEndAt};
ghost use Rattle.dnsm_status.specs.Codes.{number_of};
ghost use Rattle.dnsm_replies.specs.Faults.{LacksRecords};

use dns_read::Message;
use dnsm_status::{CallError, code};

/// Whether the message is regular: its entries can be skipped, and each pointer of a name leads to a
/// label of an earlier name (RFC 1035 section 4.1.4).
pub fn is_regular(octets: &[u8]) -> Result<bool, CallError>
    ensures regular { IfOk result (λ regular. IsTrue regular ↔ IsRegular octets.now) }
    ensures long { OnOk result (header_size ≤ length octets.now) }
    ensures short { IfErr result (λ fault. (fault ≡ CallError.ShortInput)
        × (length octets.now < header_size)) }
{
    let Ok(message) = Message::from_slice(octets) else {
        return Err(CallError::ShortInput);
    };
    Ok(dns_edit::is_regular(&message))
}

/// The least TTL of the records, in seconds, or `None` if no record has one.
pub fn min_ttl(octets: &[u8]) -> Result<Option<u32>, CallError>
    ensures least { IfOk result (IsLeastTtl octets.now) }
    ensures none { IfErr result (λ fault. LacksRecords octets.now (number_of fault)) }
{
    let Ok(message) = Message::from_slice(octets) else {
        return Err(CallError::ShortInput);
    };
    match dns_edit::min_ttl(&message) {
        Ok(Some(ttl)) => Ok(Some(ttl.as_secs())),
        Ok(None) => Ok(None),
        Err(error) => Err(code::of_error(error)),
    }
}

/// The offset after the last record.
pub fn records_end(octets: &[u8]) -> Result<usize, CallError>
    ensures end { IfOk result (RecordsEndAt octets.now) }
    ensures within { IfOk result (λ end. end ≤ length octets.now) }
    ensures none { IfErr result (λ fault. LacksRecords octets.now (number_of fault)) }
{
    let Ok(message) = Message::from_slice(octets) else {
        return Err(CallError::ShortInput);
    };
    match dns_edit::records_end(&message) {
        Ok(end) => Ok(end),
        Err(error) => Err(code::of_error(error)),
    }
}
