//! Searches in messages, and copies of messages, beside plain searches.
use crate::hostile::asserts::assert_same;
use crate::hostile::buffer::Buffer;
use crate::hostile::given::{Given, Opaque};
use crate::hostile::messages::BOUNDS;
use crate::hostile::plain::{Entry, Part, Plain, entry_in};
use crate::hostile::plain_searches::{
    canonical_name, contains_answer, first_question, is_answer, last_additional, opt,
    readable_records, sole_question,
};
use dns_build::{CopyRecordsError, MessageBuilder, copy_records};
use dns_data::A;
use dns_read::Message;
use std::alloc::Global;
use std::process::Abort;

/// Checks the searches for questions and names.
pub(crate) fn assert_question_searches(
    rt: &impl Abort,
    message: &Message<&[u8]>,
    plain: &Plain<'_>,
) {
    let first = first_question(plain);
    let rtype = first.map(|question| question.rtype);
    let found = (
        message.first_question().plain(),
        message.sole_question().plain(),
        message.qtype().map(|rtype| rtype.to_int()),
        message.is_xfr(),
        message.canonical_name().plain(),
    );
    let expected = (
        first,
        sole_question(plain),
        rtype,
        matches!(rtype, Some(251 | 252)),
        canonical_name(plain),
    );
    assert_same(rt, plain, "questions and canonical name", found, expected);
}

/// The payload size, the TTL and the options of the OPT record.
fn opt_of(message: &Message<&[u8]>) -> Option<(u16, u32, Buffer)> {
    let opt = message.opt()?;
    Some((
        opt.udp_payload_size(),
        opt.as_record().ttl().as_secs(),
        Buffer::of(opt.opt().data()),
    ))
}

/// The rcode, whose higher eight bits are in the OPT record.
fn rcode_of(octets: &[u8], opt: Option<Entry>) -> u16 {
    let low = u16::from(octets.get(3).copied().unwrap_or(0) & 0x0F);
    let high = opt.map_or(0, |opt| (opt.ttl >> 24) as u16);
    high << 4 | low
}

/// Checks the searches for records.
pub(crate) fn assert_record_searches(rt: &impl Abort, message: &Message<&[u8]>, plain: &Plain<'_>) {
    let opt = opt(plain);
    let found = (
        message.contains_answer::<A>(),
        message.get_last_additional::<A>().plain(),
        opt_of(message),
        message.opt_rcode().to_int(),
    );
    let expected = (
        contains_answer(plain, 1),
        last_additional(plain, 1),
        opt.map(|opt| (opt.class, opt.ttl, opt.data)),
        rcode_of(plain.octets, opt),
    );
    assert_same(rt, plain, "addresses and OPT record", found, expected);
}

/// Checks whether the message and one with these octets are responses to each other.
fn assert_answer(
    rt: &impl Abort,
    alloc: Global,
    message: &Message<&[u8]>,
    plain: &Plain<'_>,
    octets: &[u8],
) {
    let other = Message::from_octets(octets).expect(rt, plain.name);
    let query = Plain::of(rt, alloc, plain.name, octets);
    let found = [message.is_answer(&other), other.is_answer(message)];
    let expected = [is_answer(plain, &query), is_answer(&query, plain)];
    assert_same(rt, plain, "answer", found, expected);
}

/// Checks whether the message is a response to itself, and to others.
pub(crate) fn assert_distinguished(
    rt: &impl Abort,
    alloc: Global,
    message: &Message<&[u8]>,
    plain: &Plain<'_>,
) {
    assert_answer(rt, alloc, message, plain, plain.octets);
    for bound in BOUNDS {
        assert_answer(rt, alloc, message, plain, bound.octets);
    }
}

/// Checks that the records of a section were copied into the same section, in order.
fn assert_copied(rt: &impl Abort, plain: &Plain<'_>, part: &Part, copied: &Part) {
    let (records, copies) = (&part.items, &copied.items);
    assert_same(rt, plain, "number of copies", copies.len(), records.len());
    for (record, copy) in records.iter().zip(copies) {
        assert_same(rt, plain, "copy", entry_in(copy), entry_in(record));
    }
}

/// Checks that all records are copied, or that the first error is returned, before which the
/// closure got each record.
pub(crate) fn assert_copies(
    rt: &impl Abort,
    alloc: Global,
    message: &Message<&[u8]>,
    plain: &Plain<'_>,
) {
    let mut given = 0_usize;
    let builder = MessageBuilder::new_vec(alloc).expect(rt, plain.name);
    let copied = copy_records(message, builder.answer(), |shown| {
        given = given.wrapping_add(1);
        shown.into_any_record::<Opaque<'_>>().ok()
    });
    let error = match copied {
        Ok(copied) => {
            let copied = Plain::of(rt, alloc, plain.name, copied.as_slice());
            assert_copied(rt, plain, &plain.answers, &copied.answers);
            assert_copied(rt, plain, &plain.authorities, &copied.authorities);
            assert_copied(rt, plain, &plain.additionals, &copied.additionals);
            None
        }
        Err(CopyRecordsError::Parse(error)) => Some(error),
        Err(CopyRecordsError::Push(error)) => panic!(rt; "a copy: {error}"),
    };
    let expected = readable_records(plain);
    assert_same(rt, plain, "records given", (given, error), expected);
}
