//! Queries and responses of at most 512 octets, built without allocation.
ghost use Rattle.std.specs.Prelude.{ℕ, ◌≡◌, ◌≢◌, ◌<◌, ◌≤◌, length, take, true, false, IfOk, IfErr, IsOkAnd};
ghost use Rattle.dns_name.specs.NameReading.{name_labels};
ghost use Rattle.dns_name.specs.Names.{fault_of};
ghost use Rattle.dns_name.specs.NameTexts.{SpellsName};
ghost use Rattle.dns_wire.specs.Encoders.{Plain, Static};
ghost use Rattle.dns_code.specs.Header.{fields};
ghost use Rattle.dns_code.specs.HeaderSection.{header_size};
ghost use Rattle.dns_data.specs.A.{address_of};
ghost use Rattle.dns_item.specs.Question.{parsed_question};
ghost use Rattle.dns_item.specs.Questions.{QuestionFaultAt, ReadsQuestion};
ghost use Rattle.dns_build.specs.MessageOf.{IsMessageOf};
ghost use Rattle.dnsm_status.specs.CallerBuffers.{WritesOctets};
ghost use Rattle.dnsm_status.specs.Codes.{number_of};
ghost use Rattle.dnsm_make.specs.Made.{asking, answering, address_record, Asks, AsksOne, AsksNothing, IsQuery, IsResponse, query_header, response_header};
ghost use Rattle.dnsm_text.specs.Texts.{SpellsNoName};

use arrayvec::ArrayVec;
use dns_build::MessageBuilder;
use dns_code::{Header, HeaderSection, Ttl};
use dns_data::A;
use dns_iana::{Class, Opcode, Rcode, Rtype};
use dns_item::Question;
use dns_name::{Name, ParsedName};
use dns_octets::ParseError;
use dns_read::Message;
use dns_target::StaticCompressor;
use dnsm_read::asked::first_question;
use dnsm_status::{CallError, code};
use dnsm_text::names::{Text, name_of};
use std::str::FromStr;

type Small = ArrayVec<u8, 512>;

/// The header of a query.
pub(crate) fn query_header(id: u16, recursion: bool) -> Header
    ensures { fields result ≡ query_header id recursion }
{
    let mut header = Header::new();
    header.set_id(id);
    header.set_rd(recursion);
    header
}

/// The message with this header and question. It always fits.
fn asking(header: Header, name: Text, qtype: Rtype, qclass: Class) -> Result<Small, CallError>
    ensures { IsOkAnd result (λ made. IsMessageOf Plain
        (asking (fields header) (record { name = name_labels name; rtype = qtype; class = qclass }))
        made.items × (length made.items ≤ 512)) }
{
    let mut builder = MessageBuilder::from_target(Small::new())?;
    builder.set_header(header);
    let mut builder = builder.question();
    builder.push((name, qtype, qclass))?;
    Ok(builder.finish())
}

/// A query for the name that the text `name` spells.
pub fn query(
    id: u16,
    recursion: bool,
    name: &[u8],
    qtype: u16,
    qclass: u16,
) -> Result<Small, CallError>
    ensures made { IfOk result (λ made. IsQuery id recursion name.now qtype qclass made.items) }
    ensures short { IfOk result (λ made. length made.items ≤ 512) }
    ensures none { IfErr result (λ fault. (fault ≡ CallError.BadText) × SpellsNoName name.now) }
{
    let name = name_of(name)?;
    asking(
        query_header(id, recursion),
        name,
        Rtype::from_int(qtype),
        Class::from_int(qclass),
    )
}

/// The question of a standard query that has exactly one.
#[tactic(auto, using(dnsm_status::proofs::theory::FaultLemmas::reported_fields))]
fn only_question(query: &[u8]) -> Result<Question<ParsedName<'_>>, CallError>
    ensures asked { IfOk result (λ question. AsksOne query.now (parsed_question question)) }
    ensures none { IfErr result (λ fault. AsksNothing query.now (number_of fault)) }
{
    let message = Message::from_slice(query)?;
    if message.header().qr() {
        return Err(CallError::IsResponse);
    }
    if message.header().opcode() != Opcode::QUERY {
        return Err(CallError::OtherOpcode);
    }
    if message.header_counts().qdcount() != 1 {
        return Err(CallError::NoQuestion);
    }
    match first_question(query) {
        Ok(question) => Ok(question),
        Err(error) => Err(code::of_error(error)),
    }
}

/// The only question of a query, if it asks for IPv4 addresses.
fn asked(query: &[u8]) -> Result<Question<ParsedName<'_>>, CallError>
    ensures asked { IfOk result (λ question. Asks query.now (parsed_question question)) }
    ensures none { IfErr result (λ fault. AsksNothing query.now (number_of fault)) }
{
    let question = only_question(query)?;
    if question.qclass() != Class::IN {
        return Err(CallError::OtherClass);
    }
    if question.qtype() != Rtype::A && question.qtype() != Rtype::ANY {
        return Err(CallError::OtherType);
    }
    Ok(question)
}

/// The header of the response to a query with header `asked`.
fn response_header(asked: Header, authoritative: bool) -> Header
    ensures { fields result ≡ response_header (fields asked) authoritative }
{
    let mut header = asked;
    header.set_qr(true);
    header.set_aa(authoritative);
    header.set_tc(false);
    header.set_ra(false);
    header.set_z(false);
    header.set_ad(false);
    header.set_rcode(Rcode::NOERROR);
    header
}

/// The address with these four octets.
fn address_of(octets: &[u8; 4]) -> A
    ensures value { address_of result ≡ octets.now }
    ensures four { length octets.now ≡ 4 }
{
    let [a, b, c, d] = *octets;
    A::from_octets(a, b, c, d)
}

/// The message with this header, question and A record. It always fits.
fn answering(
    header: Header,
    question: Question<ParsedName<'_>>,
    ttl: u32,
    address: &[u8; 4],
) -> Result<StaticCompressor<Small>, CallError>
    ensures { IsOkAnd result (λ made. IsMessageOf Static
        (answering (fields header) (parsed_question question.entry)
        (address_record (parsed_question question.entry) ttl address.now)) made.octets
        × (length made.octets ≤ 512)) }
{
    let target: StaticCompressor<Small> = StaticCompressor::new(ArrayVec::new());
    let mut builder = MessageBuilder::from_target(target)?;
    builder.set_header(header);
    let mut builder = builder.question();
    builder.push(&question)?;
    let mut builder = builder.answer();
    builder.push((
        question.qname(),
        question.qclass(),
        Ttl::from_secs(ttl),
        address_of(address),
    ))?;
    Ok(builder.finish())
}

/// The response to a query with one question, with one A record.
pub fn respond_a(
    query: &[u8],
    authoritative: bool,
    ttl: u32,
    address: &[u8; 4],
) -> Result<StaticCompressor<Small>, CallError>
    ensures made { IfOk result (λ made.
        IsResponse query.now authoritative ttl address.now made.octets) }
    ensures short { IfOk result (λ made. length made.octets ≤ 512) }
    ensures none { IfErr result (λ fault. AsksNothing query.now (number_of fault)) }
{
    let question = asked(query)?;
    let header = response_header(Header::for_message_slice(query), authoritative);
    answering(header, question, ttl, address)
}
