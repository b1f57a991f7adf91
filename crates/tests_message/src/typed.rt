//! Proved callers that push records and read them back by their types.
ghost use Rattle.std.specs.Prelude.{◌≡◌, [], IfOk};
ghost use Rattle.dns_message.specs.Data.{address_of};
ghost use Rattle.dns_message.specs.Names.{name_labels, labels};
ghost use Rattle.dns_message.specs.Records.{RecordItem, record_item};
ghost use Rattle.dns_message.specs.Messages.{message_octets};
ghost use Rattle.dns_message.specs.Builders.{Represents, InAnswer, State};
ghost use Rattle.tests_message.specs.Typed.{HasOneAnswer, WasPushedFirst};

use crate::asserts::{assert_holds, assert_octets};
use arrayvec::ArrayVec;
use dns_message::builder::laws::{
    builders_are_known_by_states, records_read_back, to_record_reads_back,
};
use dns_message::builder::{AnswerBuilder, MessageBuilder, PushError};
use dns_message::code::Class;
use dns_message::data::{A, Ns, ParseRecordData};
use dns_message::message::Message;
use dns_message::message::laws::start_or_fault;
use dns_message::message::search_laws::starts_are_found;
use dns_message::name::{Name, ParsedName};
use dns_message::record::{ComposeRecord, Record, Ttl};
use dns_message::target::{Composer, TreeCompressor};
use dns_message::wire::{FlattenInto, Octets};
use std::alloc::Global;

/// The only answer whose type `D` accepts.
fn one_answer<'a, Octs: Octets, D: ParseRecordData<'a> + Drop>(
    message: &'a Message<Octs>,
) -> Record<ParsedName<'a>, D>
    requires { (x : RecordItem) × HasOneAnswer D.layout (message_octets message.now) x }
    ensures { (x : RecordItem) → HasOneAnswer D.layout (message_octets message.now) x
        → record_item labels D.rtype_of D.parts result ≡ x }
{
    start_or_fault();
    starts_are_found();
    let answers = message.answer().unwrap();
    let mut records = answers.limit_to();
    records.next().unwrap().unwrap()
}

/// The first answer, if it was pushed first and its type is one that `D` accepts.
fn first_pushed<'a, Octs: Octets, D: ParseRecordData<'a> + Drop>(
    message: &'a Message<Octs>,
) -> Record<ParsedName<'a>, D>
    requires { (x : RecordItem) × WasPushedFirst D.layout (message_octets message.now) x }
    ensures { (x : RecordItem) → WasPushedFirst D.layout (message_octets message.now) x
        → record_item labels D.rtype_of D.parts result ≡ x }
{
    start_or_fault();
    starts_are_found();
    records_read_back();
    to_record_reads_back::<D>();
    let mut answers = message.answer().unwrap();
    let first = answers.next().unwrap().unwrap();
    first.to_record().unwrap().unwrap()
}

/// Pushes a record, and then removes all answers.
fn push_in_vain<T: Composer, R: ComposeRecord + Drop>(
    builder: &mut AnswerBuilder<T>,
    pushed: R,
) -> Result<(), PushError>
    ensures { (s : State) → Represents InAnswer T.rule s builder.old → s.answers ≡ []
        → builder.new ≡ builder.old }
{
    builders_are_known_by_states();
    let result = builder.push(pushed);
    builder.rewind();
    result
}

/// Pushes the NS record of a zone and the address of the server, over a compressor, and reads both
/// back by their types.
fn reported(
    alloc: Global,
    zone: Name<Vec<u8>>,
    server: Name<Vec<u8>>,
    address: A,
) -> Result<(Name<ArrayVec<u8, 255>>, A), PushError>
    ensures server { IfOk result (λ read. name_labels read.0 ≡ name_labels server) }
    ensures address { IfOk result (λ read. address_of read.1 ≡ address_of address) }
{
    let target = TreeCompressor::new(alloc, Vec::new(alloc));
    let mut builder = MessageBuilder::from_target(target)?.answer();
    let delegation = Record::new(zone, Class::IN, Ttl::from_secs(3600), Ns::new(server));
    builder.push(&delegation)?;
    let name = delegation.data().nsdname();
    builder.push((name, Class::IN, Ttl::from_secs(60), address))?;
    let message = builder.as_message();
    records_read_back();
    let found = one_answer::<_, Ns<ParsedName>>(&message);
    let glue = one_answer::<_, A>(&message);
    let name = found.data().nsdname().try_flatten_into(alloc)?;
    Ok((name, glue.into_data()))
}

/// Pushes an address, and reads the first answer back as one.
fn address_reported(alloc: Global, owner: Name<Vec<u8>>, address: A) -> Result<A, PushError>
    ensures { IfOk result (λ read. address_of read ≡ address_of address) }
{
    let mut builder = MessageBuilder::new_vec(alloc)?.answer();
    builder.push((owner, Ttl::from_secs(60), address))?;
    let message = builder.as_message();
    let found = first_pushed::<_, A>(&message);
    Ok(found.into_data())
}

#[test]
fn reads_back_by_types(rt: HostRuntime) {
    let alloc = rt.alloc();
    let zone = Name::vec_from_str(alloc, "example.com.").expect(&rt, "a name");
    let server = Name::vec_from_str(alloc, "ns.example.com.").expect(&rt, "a name");
    let address = A::from_octets(192, 0, 2, 1);
    let (name, glue) = reported(alloc, zone, server, address).expect(&rt, "memory");
    let expected = b"\x02ns\x07example\x03com\x00";
    assert_octets(&rt, "the server", name.as_slice(), expected);
    let owner = Name::vec_from_str(alloc, "a.").expect(&rt, "a name");
    let first = address_reported(alloc, owner, address).expect(&rt, "memory");
    assert_holds(&rt, "addresses", glue == address && first == address);
}
