//! Proved callers: the examples of the pages that say how the crates are called.
ghost use Rattle.std.specs.Prelude.{◌≡◌, ◌≤◌, ◌↔◌, List, length, max, min, true, IfOk, IfSome, IsSome, IsTrue};
ghost use Rattle.std.specs.Fn.{FnOnceReturnsAtMut};
ghost use Rattle.dns_message.specs.Headers.{fields};
ghost use Rattle.dns_message.specs.Data.{End, Fixed, only};
ghost use Rattle.dns_message.specs.Records.{cap_seconds};
ghost use Rattle.dns_message.specs.Builders.{fresh};
ghost use Rattle.dns_message.specs.Script.{after_all, octets_of};
ghost use Rattle.dns_message.specs.declared.script.Reply.{Reply};
ghost use Rattle.dns_message.specs.Messages.{message_octets, HasAnswer};
ghost use Rattle.dns_message.specs.Messages.MessageIter.{message_items};
ghost use Rattle.dns_message.specs.Sections.{AnswersStart};
ghost use Rattle.tests_message.specs.Callers.{IsShortMessage, EncodedFirst, sections_among, SaysWhatIsGathered};

use crate::asserts::{assert_holds, assert_octets};
use dns_message::builder::laws::opts_read_back;
use dns_message::builder::{MessageBuilder, OptBuilder, PushError};
use dns_message::code::{OptRcode, OptionCode, Rtype};
use dns_message::data::{A, ParseRecordData, UnknownRecordData};
use dns_message::header::Header;
use dns_message::message::{Message, Section};
use dns_message::name::{Name, ParsedName};
use dns_message::question::ComposeQuestion;
use dns_message::record::{ComposeRecord, Record, Ttl};
use dns_message::script::{Call, Stage, run};
use dns_message::target::HashCompressor;
use dns_message::wire::{AppendError, Octets};
use std::alloc::{AllocError, Global};
use std::process::Abort;

/// The header of a reply to a query: its ID and RD, and QR.
fn reply_header(query: Header) -> Header
    ensures id { (fields result).id ≡ (fields query).id }
    ensures rd { (fields result).rd ≡ (fields query).rd }
    ensures qr { (fields result).qr ≡ true }
{
    let mut header = Header::new();
    header.set_id(query.id());
    header.set_rd(query.rd());
    header.set_qr(true);
    header
}

/// Octets as opaque record data, if RDATA can have that many.
fn opaque(rtype: Rtype, octets: &[u8]) -> Option<UnknownRecordData<&[u8]>>
    ensures { IsSome result ↔ (length octets.now ≤ 65535) }
{
    UnknownRecordData::from_octets(rtype, octets).ok()
}

/// How long a record is cached: at most a week, but never less than `least`.
fn kept_for(ttl: Ttl, least: Ttl) -> Ttl
    ensures { result ≡ max least (min ttl cap_seconds) }
{
    least.max(ttl.cap())
}

/// Where the answers of a message begin, if each question can be skipped.
fn answers_start<Octs: Octets>(message: &Message<Octs>) -> Option<usize>
    ensures { IfSome result (λ start. AnswersStart (message_octets message.now) start) }
{
    match message.answer() {
        Ok(section) => Some(section.pos()),
        Err(_) => None,
    }
}

/// The first record of the answer section, if it can be read and its RDATA is of type `D`.
fn first_answer<'a, Octs: Octets, D: ParseRecordData<'a> + Drop>(
    message: &'a Message<Octs>,
) -> Option<Record<ParsedName<'a>, D>>
    ensures { IfSome result (EncodedFirst D.rtype_of D.parts D.layout
        (message_octets message.now)) }
{
    let mut answers = message.answer().ok()?;
    let record = answers.next()?.ok()?;
    match record.to_record() {
        Ok(read) => read,
        Err(_) => None,
    }
}

/// The sections of the consecutive readable records, in order.
fn sections_of<Octs: Octets>(
    alloc: Global,
    message: &Message<Octs>,
) -> Result<Vec<Section>, AllocError>
    ensures { IfOk result (λ found. found.items
        ≡ sections_among (message_items (message_octets message.now))) }
{
    let mut found = Vec::new(alloc);
    for item in message.iter() {
        if let Ok((_, section)) = item {
            found.push(section)?;
        }
    }
    Ok(found)
}

/// Whether the answer section has an address, or something that can't be read.
fn has_address<Octs: Octets>(message: &Message<Octs>) -> bool
    ensures { IsTrue result ↔ HasAnswer (only 1 (Fixed 4 End)) (message_octets message.now) }
{
    message.contains_answer::<A>()
}

/// A response with an address of the root, and an additional NS record of the root.
const ADDRESS_AND_SERVER: &[u8] =
    b"\x00\x00\x81\xA0\x00\x00\x00\x01\x00\x00\x00\x01\x00\x00\x01\x00\x01\x00\x00\x00\x00\x00\x04\xCB\x00\x71\x01\x00\x00\x02\x00\x01\x00\x00\x00\x00\x00\x01\x00";

#[test]
fn reads_a_response(rt: HostRuntime) {
    let message = Message::from_slice(ADDRESS_AND_SERVER).expect(&rt, "a message");
    let begins = has_address(&message) && answers_start(&message) == Some(12);
    assert_holds(&rt, "an address after the header section", begins);
    let address = first_answer::<_, A>(&message).expect(&rt, "an address");
    let octets = address.data().octets();
    assert_holds(&rt, "the address", octets == [203, 0, 113, 1]);
    let sections = sections_of(rt.alloc(), &message).expect(&rt, "memory");
    let expected = [Section::Answer, Section::Additional];
    let are_known = sections.as_slice() == expected.as_slice();
    assert_holds(&rt, "the sections", are_known);
}

/// Makes the calls on a new builder over a hash compressor. Returns the stage after them.
fn compressed<Q: ComposeQuestion, R: ComposeRecord>(
    alloc: Global,
    calls: &[Call<Q, R>],
) -> Option<Stage<HashCompressor<Vec<u8>>>>
    ensures { IfSome result (λ stage. (replies : List Reply)
        × IsShortMessage (after_all Q.question R.item fresh calls.now replies) (octets_of stage)) }
{
    let target = HashCompressor::new(alloc, Vec::new(alloc));
    let Ok(builder) = MessageBuilder::from_target(target) else {
        return None;
    };
    match run(alloc, Stage::Builder(builder), calls, &mut Vec::new(alloc)) {
        Ok(stage) => Some(stage),
        Err(_) => None,
    }
}

/// The message with one OPT record, which a closure gathers.
fn opt_message<F: FnOnce(&mut OptBuilder) -> Result<(), AppendError>>(
    alloc: Global,
    gather: F,
) -> Result<Message<Vec<u8>>, PushError>
    requires { F.IsAlwaysCallable gather }
    ensures { IfOk result (λ message. SaysWhatIsGathered (FnOnceReturnsAtMut F.FnOnce gather)
        (message_octets message)) }
{
    let mut builder = MessageBuilder::new_vec(alloc)?.additional();
    builder.opt(alloc, gather)?;
    opts_read_back();
    Ok(builder.into_message())
}

/// An OPT record with a payload size of 1,232, rcode 23, DO, and option 3 without octets.
const GATHERED: &[u8] =
    b"\x00\x00\x00\x07\x00\x00\x00\x00\x00\x00\x00\x01\x00\x00\x29\x04\xD0\x01\x00\x80\x00\x00\x04\x00\x03\x00\x00";

#[test]
fn reads_what_was_gathered(rt: HostRuntime) {
    let rcode = OptRcode::checked_from_int(23).expect(&rt, "an rcode");
    let message = opt_message(rt.alloc(), |opt| {
        opt.set_udp_payload_size(1232);
        opt.set_rcode(rcode);
        opt.set_dnssec_ok(true);
        opt.push_raw_option(OptionCode::from_int(3), b"")
    });
    let message = message.expect(&rt, "memory");
    assert_holds(&rt, "the rcode", message.opt_rcode() == rcode);
    assert_octets(&rt, "the record", message.as_slice(), GATHERED);
}
