//! The examples of the modules of `dns_message`.
ghost use Rattle.std.specs.Prelude.{◌≡◌, ◌↔◌, ◌+◌, ◌==◌, ◌&&◌, ◌||◌, ◌++◌, IsTrue, IfOk, IfSome, ◌∷◌, [], codes, map, slice_range, unwrap_or, vec_items};
ghost use Rattle.std.specs.Int.{w16};
ghost use Rattle.std.specs.String.{string_bytes};
ghost use Rattle.dns_message.specs.Names.{name_labels, Labels, lowered, NameAt, name_text};
ghost use Rattle.dns_message.specs.Codes.{mnemonic, registered_rcodes};
ghost use Rattle.dns_message.specs.Wire.{number_at};
ghost use Rattle.dns_message.specs.Questions.{qtype_of, qclass_of};
ghost use Rattle.dns_message.specs.Targets.{Tree};
ghost use Rattle.dns_message.specs.Data.{address_text};
ghost use Rattle.dns_message.specs.Records.{record_fields_text};
ghost use Rattle.dns_message.specs.Messages.{message_octets};
ghost use Rattle.dns_message.specs.Builders.{IsMessageOf};
ghost use Rattle.dns_message.specs.Edits.{ReadsAlike, changed};
ghost use Rattle.dns_message.specs.Streams.{AreFrames, left};
ghost use Rattle.dns_message.specs.declared.edit.TtlChange.TheVariants.{Age};
ghost use Rattle.tests_message.specs.Callers.{AreAnswers};
ghost use Rattle.dns_message.specs.Replies.{members_left};
ghost use Rattle.tests_message.specs.Tour.{GivesSet, HasQuestions, a_layout, address_parts, response_with};

use crate::asserts::{assert_holds, assert_octets};
use arrayvec::ArrayVec;
use dns_message::builder::{MessageBuilder, PushError};
use dns_message::code::{Class, Rcode, Rtype};
use dns_message::data::A;
use dns_message::edit::age_ttls;
use dns_message::message::Message;
use dns_message::name::{Name, ParsedName, ToName, ToNameExt};
use dns_message::question::Question;
use dns_message::record::{ComposeRecord, Record, Ttl};
use dns_message::reply::{Reply, Rrset, reply_to};
use dns_message::stream::{MAX_FRAME, StreamReader};
use dns_message::target::{StaticCompressor, TreeCompressor};
use dns_message::wire::{Octets, ParseError, Parser};
use std::alloc::{AllocError, Global};
use std::process::Abort;

/// Whether the name at the start of the octets equals this one, ignoring ASCII case.
fn begins_with<N: ToName>(octets: &[u8], name: &N) -> bool
    ensures { (found : Labels) → NameAt octets.now 0 found → IsTrue result
        ↔ (lowered found ≡ lowered (N.name name.now)) }
{
    match ParsedName::parse(&mut Parser::new(octets)) {
        Ok(found) => found.name_eq(name),
        Err(_) => false,
    }
}

#[test]
fn finds_a_name(rt: HostRuntime) {
    let name = example_com(&rt);
    let is_found = begins_with(b"\x07EXAMPLE\x03com\x00\x00\x01\x00\x01", &name)
        && !begins_with(b"\x03com\x00", &name)
        && !begins_with(b"\x07example", &name);
    assert_holds(&rt, "the name in other letter case alone", is_found);
}

/// The name example.com.
fn example_com(rt: &impl Abort) -> Name<[u8; 13]> {
    Name::from_octets(*b"\x07example\x03com\x00").expect(rt, "a name")
}

/// The message that asks for the IPv4 addresses of a name.
fn address_query<N: ToName + Drop>(alloc: Global, name: N) -> Result<Message<Vec<u8>>, PushError>
    ensures { IfOk result (λ message. HasQuestions (message_octets message)
        (record { name = N.name name; rtype = 1; class = 1 } ∷ [])) }
{
    let mut builder = MessageBuilder::new_vec(alloc)?.question();
    builder.push((name, Rtype::A))?;
    Ok(builder.into_message())
}

/// A query for the addresses of example.com.
const QUERY: &[u8; 29] =
    b"\x00\x00\x00\x00\x00\x01\x00\x00\x00\x00\x00\x00\x07example\x03com\x00\x00\x01\x00\x01";

/// The addresses in the answer section that can be read, in order. Returns `None` if the section
/// has no start, or an allocation fails.
fn addresses<Octs: Octets>(alloc: Global, message: &Message<Octs>) -> Option<Vec<A>>
    ensures { IfSome result (λ found. AreAnswers address_parts a_layout
        (message_octets message.now) found.items) }
{
    let mut found = Vec::new(alloc);
    for record in message.answer().ok()?.limit_to::<A>() {
        if let Ok(record) = record {
            found.push(record.into_data()).ok()?;
        }
    }
    Some(found)
}

/// The response to a query with one record as its answer. Names are compressed.
fn response<Octs: Octets, R: ComposeRecord + Drop>(
    alloc: Global,
    query: &Message<Octs>,
    answer: R,
) -> Result<Message<Vec<u8>>, PushError>
    ensures { IfOk result (λ response. IsMessageOf Tree
        (response_with (message_octets query.now) (R.item answer)) (message_octets response)) }
{
    let target = TreeCompressor::new(alloc, Vec::new(alloc));
    let builder = MessageBuilder::from_target(target)?;
    let mut response = builder.start_answer(query, Rcode::NOERROR)?;
    response.push(answer)?;
    Ok(response.into_message())
}

/// The response to the query, with an address and a TTL of an hour.
const RESPONSE: &[u8; 45] =
    b"\x00\x00\x80\x00\x00\x01\x00\x01\x00\x00\x00\x00\x07example\x03com\x00\x00\x01\x00\x01\xC0\x0C\x00\x01\x00\x01\x00\x00\x0E\x10\x00\x04\xC0\x00\x02\x01";

/// A response from a cache, `age` seconds after it was stored, or `None` if its TTLs can't be
/// changed in place.
fn after_seconds(mut response: Message<Vec<u8>>, age: u32) -> Option<Message<Vec<u8>>>
    ensures { IfSome result (λ later. ReadsAlike (changed (Age age)) (message_octets response)
        (message_octets later)) }
{
    age_ttls(&mut response, age).ok()?;
    Some(response)
}

/// The messages that are complete once octets were received, in order. Returns `None` if the octets
/// exceed what the reader stores, the length of a message is refused, or an allocation fails.
fn received(alloc: Global, reader: &mut StreamReader, octets: &[u8]) -> Option<Vec<Vec<u8>>>
    ensures { IfSome result (λ messages. AreFrames (left reader.old ++ octets.now)
        (map vec_items messages.items) (left reader.new)) }
{
    reader.push(octets).ok()?;
    let mut messages = Vec::new(alloc);
    loop {
        match reader.next() {
            Ok(Some(message)) => {
                let copy = Vec::from_slice(alloc, message.as_slice()).ok()?;
                messages.push(copy).ok()?;
            }
            Ok(None) => return Some(messages),
            Err(_) => return None,
        }
    }
}

/// The query, and then part of the response, each after its length.
#[test]
fn receives_messages(rt: HostRuntime) {
    let mut reader = StreamReader::new(rt.alloc(), MAX_FRAME);
    reader.push(b"\x00\x1D").expect(&rt, "memory");
    reader.push(QUERY).expect(&rt, "memory");
    let messages = received(rt.alloc(), &mut reader, b"\x00\x2D\x00").expect(&rt, "messages");
    let is_one = messages.len() == 1 && messages[0].as_slice() == QUERY.as_slice();
    assert_holds(&rt, "the query", is_one);
    assert_holds(&rt, "the response", reader.missing_octets() == 44);
}

/// The address records that a message gives, if it is a reply to the query of a server that
/// resolves.
fn address_set<'a, Asked: Octets, Received: Octets>(
    query: &Message<Asked>,
    received: &'a Message<Received>,
) -> Option<Rrset<'a>>
    ensures { IfSome result (λ set. GivesSet (message_octets received.now) [] (members_left set)) }
{
    match reply_to(query, received, &Name::root_slice()) {
        Ok(Reply::Answer(answer)) => {
            let (section, name) = (answer.section(), answer.name());
            Some(Rrset::new(section, name, Class::IN, Rtype::A))
        }
        _ => None,
    }
}

#[test]
fn asks_and_answers(rt: HostRuntime) {
    let alloc = rt.alloc();
    let query = address_query(alloc, example_com(&rt)).expect(&rt, "memory");
    assert_octets(&rt, "the query", query.as_slice(), QUERY);
    let address = A::from_octets(192, 0, 2, 1);
    let answer = (example_com(&rt), 3600u32, address);
    let response = response(alloc, &query, answer).expect(&rt, "memory");
    assert_octets(&rt, "the response", response.as_slice(), RESPONSE);
    let found = addresses(alloc, &response).expect(&rt, "answers");
    let mut set = address_set(&query, &response).expect(&rt, "an answer");
    let has_one = set.next().is_some() && set.next().is_none();
    let is_one = has_one && found.as_slice() == [address].as_slice();
    assert_holds(&rt, "the address, and a set of one", is_one);
    let later = after_seconds(response, 600).expect(&rt, "a message that is accepted");
    // 3,000 is 0x0BB8.
    let mut expected = *RESPONSE;
    expected[37] = 0x0B;
    expected[38] = 0xB8;
    assert_octets(&rt, "the TTL", later.as_slice(), &expected);
}

/// The query for the records of a name and a type, in a buffer of 512 octets. Nothing is allocated.
fn query_in_buffer<N: ToName + Drop>(
    name: N,
    rtype: Rtype,
) -> Result<Message<ArrayVec<u8, 512>>, PushError>
    ensures { IfOk result (λ message. HasQuestions (message_octets message)
        (record { name = N.name name; rtype = rtype; class = 1 } ∷ [])) }
{
    let target = StaticCompressor::new(ArrayVec::<u8, 512>::new());
    let mut builder = MessageBuilder::from_target(target)?.question();
    builder.push((name, rtype))?;
    Ok(builder.into_message())
}

#[test]
fn asks_in_a_buffer(rt: HostRuntime) {
    let query = query_in_buffer(example_com(&rt), Rtype::NS).expect(&rt, "a capacity");
    let mut expected = *QUERY;
    expected[26] = 2;
    assert_octets(&rt, "the query", query.as_slice(), &expected);
}

/// The line of an address record of class IN with a TTL of an hour.
fn address_line(alloc: Global, owner: Name<Vec<u8>>, address: A) -> Result<String, AllocError>
    ensures { IfOk result (λ text. string_bytes text
        ≡ record_fields_text (name_text (name_labels owner)) 3600 1 1 (address_text address)) }
{
    let record = Record::new(owner, Class::IN, Ttl::HOUR, address);
    format!(in alloc; "{record}")
}

/// The first message on a stream: the octets after its length, which has 16 bits (RFC 1035 section
/// 4.2.2).
fn first_message(stream: &[u8]) -> Result<&[u8], ParseError>
    ensures { IfOk result (λ message. message.now
        ≡ slice_range stream.now 2 (2 + number_at w16 stream.now 0)) }
{
    let mut parser = Parser::new(stream);
    let len = parser.parse_u16_be()?;
    parser.peek(usize::from(len))
}

#[test]
fn prints_a_record_and_takes_a_message_off_a_stream(rt: HostRuntime) {
    let alloc = rt.alloc();
    let owner = Name::vec_from_str(alloc, "example.com").expect(&rt, "a name");
    let line = address_line(alloc, owner, A::from_octets(192, 0, 2, 1));
    let line = line.expect(&rt, "memory");
    let expected = b"example.com. 3600 IN A 192.0.2.1";
    assert_octets(&rt, "the line", line.as_bytes(), expected);
    let message = first_message(b"\x00\x03abcd").expect(&rt, "a message");
    assert_octets(&rt, "the message", message, b"abc");
}

/// Whether a question asks for addresses: IPv4 or IPv6, of the class IN.
fn asks_for_addresses<N>(question: &Question<N>) -> bool
    ensures { result ≡ ((qclass_of question.now == 1)
        && ((qtype_of question.now == 1) || (qtype_of question.now == 28))) }
{
    let qtype = question.qtype();
    question.qclass() == Class::IN && (qtype == Rtype::A || qtype == Rtype::AAAA)
}

/// The name of an rcode that IANA has registered, such as `NXDomain`, or else `unassigned`.
fn rcode_name(rcode: Rcode) -> &'static str
    ensures { result.now ≡ unwrap_or (mnemonic registered_rcodes rcode) (codes "unassigned") }
{
    rcode.registered_name().unwrap_or("unassigned")
}
