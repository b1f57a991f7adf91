//! Whether a message is a reply to a query (RFC 1035 section 4.1.1, RFC 5452 section 9.1).
ghost use Rattle.std.specs.Prelude.{◌≡◌, IfErr, OnOk};
ghost use Rattle.dns_read.specs.Message.{message_octets};
ghost use Rattle.dns_read.specs.Searches.{asked_first};
ghost use Rattle.dns_reply.specs.Matches.{may_lack_question, lacks_question, same_case, case_fits, repeats_questions, IsReply, IsNotReply};

use crate::reply::NotReply;
use dns_iana::{Opcode, OptRcode};
use dns_octets::Octets;
use dns_read::Message;
use dns_wire::ToNameExt;

/// Whether the letter case of the question's name counts.
#[derive(Clone, Copy, Debug, PartialEq, Eq)]
pub enum LetterCase {
    /// It doesn't (RFC 1035 section 2.3.3).
    Ignored,
    /// The reply has the same octets, as servers copy the question. If the letters of a query have
    /// a random case, a forged reply has to guess it.
    Kept,
}

/// Checks that a message is a reply to a query: QR is set, and ID, opcode and questions are those
/// of the query. A reply that reports an error, or one to an UPDATE, may have no question.
///
/// Returns the first of these that differs, in this order.
pub fn check_reply<Asked: Octets, Received: Octets>(
    query: &Message<Asked>,
    received: &Message<Received>,
    case: LetterCase,
) -> Result<(), NotReply>
    ensures reply { OnOk result (IsReply case (message_octets received.now)
        (message_octets query.now)) }
    ensures reason { IfErr result (IsNotReply case (message_octets received.now)
        (message_octets query.now)) }
{
    let header = received.header();
    let asked = query.header();
    if !header.qr() {
        return Err(NotReply::NoResponse);
    }
    if header.id() != asked.id() {
        return Err(NotReply::OtherId);
    }
    if header.opcode() != asked.opcode() {
        return Err(NotReply::OtherOpcode);
    }
    if lacks_question(received) || repeats_questions(query, received, case) {
        return Ok(());
    }
    Err(NotReply::OtherQuestion)
}

/// Whether a message has no question, and may have none.
fn lacks_question<Octs: Octets>(received: &Message<Octs>) -> bool
    ensures { result ≡ lacks_question (message_octets received.now) }
{
    received.header_counts().qdcount() == 0 && may_lack_question(received)
}

/// Whether a reply may have no question: it reports an error, or its opcode is UPDATE.
fn may_lack_question<Octs: Octets>(received: &Message<Octs>) -> bool
    ensures { result ≡ may_lack_question (message_octets received.now) }
{
    received.opt_rcode() != OptRcode::NOERROR || received.header().opcode() == Opcode::UPDATE
}

/// Whether a message has the questions of a query.
fn repeats_questions<Asked: Octets, Received: Octets>(
    query: &Message<Asked>,
    received: &Message<Received>,
    case: LetterCase,
) -> bool
    ensures { result ≡ repeats_questions case (message_octets received.now)
        (message_octets query.now) }
{
    received.header_counts().qdcount() == query.header_counts().qdcount()
        && received.question().same_questions(&query.question())
        && case_fits(query, received, case)
}

/// Whether the letter case doesn't count, or is the same in the names of the first questions.
fn case_fits<Asked: Octets, Received: Octets>(
    query: &Message<Asked>,
    received: &Message<Received>,
    case: LetterCase,
) -> bool
    ensures { result ≡ case_fits case (message_octets received.now) (message_octets query.now) }
{
    match case {
        LetterCase::Ignored => true,
        LetterCase::Kept => same_case(query, received),
    }
}

/// Whether the names of the first questions are the same, octet for octet, or there are none.
fn same_case<Asked: Octets, Received: Octets>(
    query: &Message<Asked>,
    received: &Message<Received>,
) -> bool
    ensures { result ≡ same_case (asked_first (message_octets received.now))
        (asked_first (message_octets query.now)) }
{
    match (received.first_question(), query.first_question()) {
        (Some(question), Some(asked)) => question.qname().octets_eq(asked.qname()),
        (None, None) => true,
        _ => false,
    }
}
