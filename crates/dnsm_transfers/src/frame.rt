//! The messages of a stream, each after its length in two octets (RFC 1035 section 4.2.2).
ghost use Rattle.std.specs.Prelude.{◌≡◌, IfErr, IfNone, IfOk, IfSome};
ghost use Rattle.dns_stream.specs.Frames.{AreMissing, IsPartial};
ghost use Rattle.dnsm_transfers.specs.Frames.{BeginsWithLength, RefusesLength};

use dns_stream::{MAX_FRAME, first_message, missing_octets};
use dnsm_status::CallError;

/// The number of octets of the first message of a stream, or `None` if octets of its frame are
/// missing.
pub fn first_len(octets: &[u8]) -> Result<Option<usize>, CallError>
    ensures whole { IfOk result (λ found. IfSome found (BeginsWithLength octets.now)) }
    ensures partial { IfOk result (λ found. IfNone found (IsPartial octets.now)) }
    ensures refused { IfErr result (λ fault. (fault ≡ CallError.ShortInput)
        × RefusesLength octets.now) }
{
    match first_message(octets, MAX_FRAME) {
        Ok(Some((message, _after))) => Ok(Some(message.as_slice().len())),
        Ok(None) => Ok(None),
        Err(_error) => Err(CallError::ShortInput),
    }
}

/// The number of octets that are missing from the first frame: from its length or, once that is there,
/// from its message.
pub fn missing(octets: &[u8]) -> usize
    ensures { AreMissing octets.now result }
{
    missing_octets(octets)
}
