//! The question of a query, and which queries get a response without records.
ghost use Rattle.std.specs.Prelude.{◌≡◌};
ghost use Rattle.dns_message.specs.Messages.{message_octets};
ghost use Rattle.example_response.specs.Questions.{is_meta_type, question_or_rcode, question_result};

use dns_message::code::{Class, Opcode, Rcode, Rtype};
use dns_message::message::Message;
use dns_message::name::ParsedName;
use dns_message::question::Question;
use dns_message::reply::has_many_opts;

/// The question of a query, or the rcode of a response without records.
#[tactic(auto, using(crate::proofs::Asking::opcode_is))]
pub fn asked(query: &Message<Vec<u8>>) -> Result<Question<ParsedName<'_>>, Rcode>
    ensures { question_result result ≡ question_or_rcode (message_octets query.now) }
{
    if has_many_opts(query) {
        return Err(Rcode::FORMERR);
    }
    if let Some(opt) = query.opt() {
        if opt.version() != 0 {
            return Err(Rcode::NOERROR);
        }
    }
    if query.header().opcode() != Opcode::QUERY {
        return Err(Rcode::NOTIMP);
    }
    if query.header_counts().qdcount() != 1 {
        return Err(Rcode::FORMERR);
    }
    let Some(question) = query.first_question() else {
        return Err(Rcode::FORMERR);
    };
    if question.qclass() != Class::IN {
        return Err(Rcode::REFUSED);
    }
    if is_meta_type(question.qtype()) {
        return Err(Rcode::NOTIMP);
    }
    Ok(question)
}

/// Whether no record of a zone has a type: OPT, and the types from 128 to 254, which are for queries
/// such as AXFR, or for meta records such as TSIG (RFC 6895 section 3.1).
fn is_meta_type(rtype: Rtype) -> bool
    ensures { result ≡ is_meta_type rtype }
{
    let number = rtype.to_int();
    rtype == Rtype::OPT || (number >= 128 && number < 255)
}
