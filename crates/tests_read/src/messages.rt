//! Messages: their header, the types that hold their octets, and where their sections begin.
use crate::asserts::{assert_holds, assert_octets, message_of};
use arrayvec::ArrayVec;
use dns_code::Header;
use dns_read::{Message, ShortMessage};
use dns_wire::{AppendError, OctetsFrom, ParseError};
use std::alloc::Global;
use std::convert::AsSlice;
use std::process::Abort;

/// A message with a question and an answer, both for example.com.
const POSITIVE_RESPONSE: &[u8; 45] =
    b"\x00\x00\x81\xA0\x00\x01\x00\x01\x00\x00\x00\x00\x07example\x03com\x00\x00\x01\x00\x01\xC0\x0C\x00\x01\x00\x01\x00\x00\x0E\x10\x00\x04\xCB\x00\x71\x01";

#[test]
fn takes_twelve_octets_and_refuses_fewer(rt: HostRuntime) {
    let row = "Twelve octets are a message: eleven";
    assert_holds(&rt, row, Message::from_octets([0; 11]).is_err());
    let row = "Twelve octets are a message";
    assert_holds(&rt, row, Message::from_octets([0; 12]).is_ok());
    let octets = Message::try_from_octets([1; 11]).err();
    assert_holds(&rt, "octets that are given back", octets == Some([1; 11]));
    let text = format!(in rt.alloc(); "{ShortMessage}").expect(&rt, "memory");
    assert_holds(&rt, "the printed error", text.as_str() == "short message");
}

#[test]
fn takes_another_header(rt: HostRuntime) {
    let mut message = Message::from_octets([7; 12]).expect(&rt, "a message");
    let is_error = message.is_error() && !message.no_error();
    message.set_header(Header::new());
    let is_other = is_error && message.no_error() && !message.is_error();
    assert_holds(&rt, "an rcode other than 0, and then 0", is_other);
    let expected = [0, 0, 0, 0, 7, 7, 7, 7, 7, 7, 7, 7];
    let buffer: &[u8; 12] = message.as_ref();
    let is_lent = *buffer == expected && message.as_octets() == buffer;
    assert_holds(&rt, "octets that are lent", is_lent);
    let octets = message.into_octets();
    assert_octets(&rt, "octets that are taken out", &octets, &expected);
}

/// Where the zone, prerequisite and update sections of a message begin.
fn starts_of(message: &Message<&[u8]>) -> Result<[usize; 3], ParseError> {
    Ok([
        message.zone().pos(),
        message.prerequisite()?.pos(),
        message.update()?.pos(),
    ])
}

#[test]
fn has_a_header_and_sections(rt: HostRuntime) {
    let message = message_of(&rt, POSITIVE_RESPONSE);
    let octets = b"\x00\x00\x81\xA0\x00\x01\x00\x01\x00\x00\x00\x00";
    let section = message.header_section();
    assert_octets(&rt, "the header section", section.as_slice(), octets);
    let header = message.header();
    assert_octets(&rt, "the header", header.as_slice(), b"\x00\x00\x81\xA0");
    let count = message.header_counts().ancount();
    assert_holds(&rt, "the number of answers", count == 1);
    let starts = starts_of(&message) == Ok([12, 29, 45]);
    assert_holds(&rt, "the starts of the sections", starts);
}

/// Fails unless a message is converted into one with these octets.
fn assert_converted<T: OctetsFrom<S> + AsSlice<u8> + Drop, S>(
    rt: &impl Abort,
    alloc: Global,
    octets: &[u8],
    source: S,
) {
    let message = T::try_octets_from(alloc, source).expect(rt, "a message");
    assert_octets(rt, "a converted message", message.as_slice(), octets);
}

/// Into a slice, a vector and an array vector, of the message and of a reference to it. 65,535
/// octets are the most that fit on a stream (RFC 1035 section 4.2.2).
#[test]
fn changes_into_other_octets(rt: HostRuntime) {
    let alloc = rt.alloc();
    let largest = [7; 65_535];
    for octets in [POSITIVE_RESPONSE.as_slice(), largest.as_slice()] {
        let message = message_of(&rt, octets);
        assert_converted::<Message<&[u8]>, _>(&rt, alloc, octets, message);
        assert_converted::<Message<&[u8]>, _>(&rt, alloc, octets, &message);
        assert_converted::<Message<Vec<u8>>, _>(&rt, alloc, octets, message);
        assert_converted::<Message<Vec<u8>>, _>(&rt, alloc, octets, &message);
    }
    let octets = POSITIVE_RESPONSE;
    let message = message_of(&rt, octets);
    assert_converted::<Message<ArrayVec<u8, 45>>, _>(&rt, alloc, octets, message);
    assert_converted::<Message<ArrayVec<u8, 45>>, _>(&rt, alloc, octets, &message);
    let refused = Message::<ArrayVec<u8, 44>>::try_octets_from(alloc, message).err();
    let is_refused = refused == Some(AppendError::ShortBuf);
    assert_holds(&rt, "a capacity of one octet less", is_refused);
}

/// A clone of a message, and slices of it.
#[test]
fn clones_its_octets(rt: HostRuntime) {
    let octets = POSITIVE_RESPONSE.to_vec(rt.alloc()).expect(&rt, "memory");
    let message = Message::from_octets(octets).expect(&rt, "a message");
    let clone = message.clone().expect(&rt, "a clone");
    let (slice, slice_ref) = (message.for_slice(), message.for_slice_ref());
    let expected = POSITIVE_RESPONSE.as_slice();
    let are_same = clone.as_slice() == expected
        && slice.as_slice() == expected
        && slice_ref.as_slice() == expected;
    assert_holds(&rt, "clone, for_slice, for_slice_ref", are_same);
}
