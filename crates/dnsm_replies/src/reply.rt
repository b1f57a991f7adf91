//! What a received message says of a query.
ghost use Rattle.std.specs.Prelude.{◌≡◌, IfErr, IfOk};
ghost use Rattle.dnsm_status.specs.Codes.{number_of};
ghost use Rattle.dnsm_replies.specs.Replies.{LacksReply, SaysReply, fault_of_reason};

use crate::saying::{Saying, saying_of};
use dns_name::Name;
use dns_read::Message;
use dns_reply::{NotReply, reply_to};
use dnsm_status::CallError;

/// What a received message says of the first question of a query, if it is a reply to that. `zone` is
/// the uncompressed name of the zone that the server was asked about.
pub fn reply(query: &[u8], received: &[u8], zone: &[u8]) -> Result<Saying, CallError>
    ensures says { IfOk result (SaysReply query.now received.now zone.now) }
    ensures none { IfErr result (λ fault.
        LacksReply query.now received.now zone.now (number_of fault)) }
{
    let Ok(asked) = Message::from_slice(query) else {
        return Err(CallError::ShortInput);
    };
    let Ok(message) = Message::from_slice(received) else {
        return Err(CallError::ShortInput);
    };
    let Ok(name) = Name::from_octets(zone) else {
        return Err(CallError::BadText);
    };
    match reply_to(&asked, &message, &name) {
        Ok(reply) => Ok(saying_of(&reply)),
        Err(reason) => Err(fault_of_reason(reason)),
    }
}

/// The fault that reports why a message is no reply.
fn fault_of_reason(reason: NotReply) -> CallError
    ensures { result ≡ fault_of_reason reason }
{
    match reason {
        NotReply::NoResponse => CallError::NoResponse,
        NotReply::OtherId | NotReply::OtherOpcode | NotReply::OtherQuestion => {
            CallError::OtherQuery
        }
    }
}
