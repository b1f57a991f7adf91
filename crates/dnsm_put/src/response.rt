//! Begins the response to a query (RFC 1035 section 4.1).
ghost use Rattle.std.specs.Prelude.{◌≡◌, ◌+◌, ◌≤◌, ◌++◌, ◌∷◌, [], ℕ, length, take, IfOk, IfErr, OnOk, OnErr};
ghost use Rattle.std.specs.Int.{to_be_bytes, w16};
ghost use Rattle.dns_name.specs.Names.{uncompressed};
ghost use Rattle.dns_code.specs.Header.{fields, fields_in};
ghost use Rattle.dns_item.specs.Question.{parsed_question};
ghost use Rattle.dns_item.specs.Questions.{QuestionItem};
ghost use Rattle.dns_build.specs.State.{State, with_question, up_to, InBuilder};
ghost use Rattle.dnsm_put.specs.Drafts.{IsDraftOf, empty_draft};
ghost use Rattle.dnsm_put.specs.Responses.{AsksIn, BeginsResponse, IsUnanswered, asked_size, response_header};
ghost use Rattle.dnsm_put.specs.Writing.{HintsWithin};

use crate::draft::{Draft, PutItem, clear};
use crate::items::put_question;
use dns_code::{Header, HeaderSection};
use dns_iana::Rcode;
use dns_item::Question;
use dns_name::ParsedName;
use dns_octets::ParseError;
use dns_read::Message;
use dnsm_read::asked::first_question;
use dnsm_read::sections::QUESTION;
use dnsm_status::CallError;
use dnsm_status::code::of_error;
use thiserror::Error;

/// Why no response begins, in the order of the checks.
#[derive(Clone, Copy, Debug, Error)]
pub enum ResponseError {
    /// The query is shorter than a header section.
    #[error("the query is shorter than a header section")]
    ShortInput,
    /// The message is a response.
    #[error("the message is a response")]
    IsResponse,
    /// The query doesn't have exactly one question.
    #[error("the query doesn't have exactly one question")]
    NoQuestion,
    /// The question can't be read.
    #[error("the question can't be read: {0}")]
    BadQuestion(ParseError),
    /// The buffer has no room for the header section and the question.
    #[error("the buffer has no room for the question")]
    NoRoom,
}

impl From<ResponseError> for CallError {
    ghost use Rattle.dnsm_put.specs.Responses.{ReportsReason};

    ghost from_gives = { λ error fault. ReportsReason error fault };

    fn from(error: ResponseError) -> Self {
        match error {
            ResponseError::ShortInput => CallError::ShortInput,
            ResponseError::IsResponse => CallError::IsResponse,
            ResponseError::NoQuestion => CallError::NoQuestion,
            ResponseError::BadQuestion(cause) => of_error(cause),
            ResponseError::NoRoom => CallError::NoRoom,
        }
    }
}

/// The question of a query that has exactly one.
fn question_of(query: &[u8]) -> Result<Question<ParsedName<'_>>, ResponseError>
    ensures asks { IfOk result (λ question. AsksIn query.now (parsed_question question)) }
    ensures refused { IfErr result (λ error. (n : ℕ) → IsUnanswered query.now n error) }
{
    let Ok(message) = Message::from_slice(query) else {
        return Err(ResponseError::ShortInput);
    };
    if message.header().qr() {
        return Err(ResponseError::IsResponse);
    }
    if message.header_counts().qdcount() != 1 {
        return Err(ResponseError::NoQuestion);
    }
    match first_question(query) {
        Ok(question) => Ok(question),
        Err(error) => Err(ResponseError::BadQuestion(error)),
    }
}

/// The header of the response to a query with header `asked`.
pub(crate) fn response_header(asked: Header, rcode: u16) -> Header
    ensures { fields result ≡ response_header (fields asked) rcode }
{
    let mut header = asked;
    header.set_qr(true);
    header.set_aa(false);
    header.set_tc(false);
    header.set_ra(false);
    header.set_z(false);
    header.set_ad(false);
    header.set_rcode(Rcode::masked_from_int((rcode % 16) as u8));
    header
}

/// The number with these octets, big-endian.
fn number_of(high: u8, low: u8) -> u16
    ensures { to_be_bytes w16 result ≡ high ∷ low ∷ [] }
{
    u16::from_be_bytes([high, low])
}

/// The four octets of a header as two numbers: the ID, and the third and fourth octets.
pub(crate) fn numbers_in(octets: &[u8]) -> (u16, u16)
    requires { length octets.now ≡ 4 }
    ensures { fields_in (to_be_bytes w16 result.0 ++ to_be_bytes w16 result.1)
        ≡ fields_in octets.now }
{
    let id = number_of(octets[0], octets[1]);
    let flags = number_of(octets[2], octets[3]);
    (id, flags)
}

/// Puts a question in a draft without items. `name` is its uncompressed name.
fn put_first(draft: &mut Draft, out: &mut [u8], question: &Question<ParsedName<'_>>, name: &[u8])
    requires empty { draft.old ≡ empty_draft draft.old.id draft.old.flags }
    requires name { name.now ≡ uncompressed (parsed_question question.now).name }
    requires room { asked_size (parsed_question question.now) ≤ length out.old }
    ensures holds { (s : State) → IsDraftOf out.new draft.new
        (with_question (parsed_question question.now) (up_to InBuilder s)) }
    ensures kept { draft.new ≡ record draft.old {
      len = draft.new.len;
      counts = draft.new.counts;
      hints = draft.new.hints;
    } }
    ensures size { draft.new.len ≤ asked_size (parsed_question question.now) }
    ensures hints { HintsWithin draft.new.len draft.new.hints }
    ensures length { length out.new ≡ length out.old }
{
    let item = PutItem {
        name,
        rdata: &[],
        ttl: 0,
        rtype: question.qtype().to_int(),
        class: question.qclass().to_int(),
        section: QUESTION,
    };
    let most = out.len();
    let hints = &mut draft.hints;
    let Some(end) = put_question(hints, out, HeaderSection::LEN, most, &item) else {
        return;
    };
    draft.len = end;
    draft.counts = [1, 0, 0, 0];
}

/// Puts the question of a query in a draft without items.
fn put_asked(draft: &mut Draft, out: &mut [u8], question: &Question<ParsedName<'_>>)
    requires empty { draft.old ≡ empty_draft draft.old.id draft.old.flags }
    requires room { asked_size (parsed_question question.now) ≤ length out.old }
    ensures holds { (s : State) → IsDraftOf out.new draft.new
        (with_question (parsed_question question.now) (up_to InBuilder s)) }
    ensures kept { draft.new ≡ record draft.old {
      len = draft.new.len;
      counts = draft.new.counts;
      hints = draft.new.hints;
    } }
    ensures size { draft.new.len ≤ asked_size (parsed_question question.now) }
    ensures hints { HintsWithin draft.new.len draft.new.hints }
    ensures length { length out.new ≡ length out.old }
{
    match question.qname().as_flat_slice() {
        Some(name) => put_first(draft, out, question, name),
        None => {
            let name = question.qname().uncompressed();
            put_first(draft, out, question, name.as_slice());
        }
    }
}

/// Begins the response to a query, with the query's question and no other item: its ID, opcode, RD
/// and CD, QR set, the low four bits of `rcode`, and no other flag. Whoever validates nothing
/// clears CD afterwards.
///
/// There is no limit, no octet is reserved, RDATA is checked, and no hint of an older draft is
/// left. For a query whose question can't be read, `begin` begins a response without a question.
pub fn begin_response(
    draft: &mut Draft,
    out: &mut [u8],
    query: &[u8],
    rcode: u16,
) -> Result<(), ResponseError>
    ensures begins { OnOk result (BeginsResponse query.now rcode out.new draft.new) }
    ensures settings { OnOk result ((draft.new.limit ≡ usize.MAX) × (draft.new.reserved ≡ 0)
        × (draft.new.unchecked ≡ 0)) }
    ensures section { OnOk result (draft.new.section ≡ 0) }
    ensures size { OnOk result ((asked : QuestionItem) × AsksIn query.now asked
        × (draft.new.len ≤ asked_size asked) × (asked_size asked ≤ length out.old)) }
    ensures hints { OnOk result (HintsWithin draft.new.len draft.new.hints) }
    ensures refused { IfErr result (λ error.
        IsUnanswered query.now (length out.old) error) }
    ensures same { OnErr result ((draft.new ≡ draft.old) × (out.new ≡ out.old)) }
    ensures length { length out.new ≡ length out.old }
{
    let question = match question_of(query) {
        Ok(question) => question,
        Err(error) => return Err(error),
    };
    if out.len() < HeaderSection::LEN + question.qname().compose_len() + 4 {
        return Err(ResponseError::NoRoom);
    }
    let header = response_header(Header::for_message_slice(query), rcode);
    let (id, flags) = numbers_in(header.as_slice());
    clear(draft, id, flags);
    put_asked(draft, out, &question);
    Ok(())
}
