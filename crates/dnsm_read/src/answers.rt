//! Whether a response answers a query.
ghost use Rattle.std.specs.Prelude.{IfErr, IsOk, OnOk};
ghost use Rattle.dnsm_status.specs.Codes.{number_of};
ghost use Rattle.dnsm_read.specs.Responses.{Answers, LacksAnswer};

use dns_read::Message;
use dnsm_status::CallError;

/// Checks that a response answers a query: QR is set, and its ID, its opcode and its questions are
/// those of the query. Names are compared ASCII case-insensitively.
pub fn answers(query: &[u8], response: &[u8]) -> Result<(), CallError>
    ensures answers { OnOk result (Answers query.now response.now) }
    ensures accepted { Answers query.now response.now → IsOk result }
    ensures none { IfErr result (λ fault.
        LacksAnswer query.now response.now (number_of fault)) }
{
    let query = Message::from_slice(query)?;
    let response = Message::from_slice(response)?;
    if !response.header().qr() {
        return Err(CallError::NoResponse);
    }
    if response.header().opcode() != query.header().opcode() || !response.is_answer(&query) {
        return Err(CallError::OtherQuery);
    }
    Ok(())
}
