//! RDATA as named fields, and RDATA from text: the examples of the module `fields` of `dns_message`.
use crate::asserts::{assert_holds, assert_octets};
use dns_message::code::Rtype;
use dns_message::data::ComposeRecordData;
use dns_message::fields::{FieldData, OwnedFieldData, TextError, Value, from_text, split_words};
use dns_message::message::Message;
use dns_message::name::{Name, ParsedName, ToNameExt};
use std::alloc::Global;

/// The first name in RDATA, such as the exchange of MX or the target of SRV.
fn first_name<'a>(data: &FieldData<'a>) -> Option<ParsedName<'a>> {
    for field in data.fields() {
        if let Value::Name(name) = field.value() {
            return Some(name);
        }
    }
    None
}

/// An answer: the MX record of a.example, 10 b.a.example (RFC 1035 section 3.3.9).
const MESSAGE: &[u8] =
    b"\x00\x00\x84\x00\x00\x00\x00\x01\x00\x00\x00\x00\x01a\x07example\x00\x00\x0F\x00\x01\x00\x00\x0E\x10\x00\x06\x00\x0A\x01b\xC0\x0C";

#[test]
fn finds_the_exchange(rt: HostRuntime) {
    let message = Message::from_octets(MESSAGE).expect(&rt, "a message");
    let answers = message.answer().expect(&rt, "answers");
    let record = answers.into_records::<FieldData<'_>>().next();
    let record = record.expect(&rt, "a record").expect(&rt, "MX data");
    let exchange = first_name(record.data()).expect(&rt, "a name");
    let expected = Name::from_octets(b"\x01b\x01a\x07example\x00".as_slice());
    let is_it = exchange.octets_eq(&expected.expect(&rt, "a name"));
    assert_holds(&rt, "the exchange", is_it);
}

/// RDATA from what a line of a zone file has after the record type.
fn data_of_line(alloc: Global, rtype: Rtype, line: &str) -> Result<OwnedFieldData, TextError> {
    let words = split_words(alloc, line)?;
    from_text(alloc, rtype, words.as_slice())
}

#[test]
fn reads_a_line(rt: HostRuntime) {
    let alloc = rt.alloc();
    let data = data_of_line(alloc, Rtype::MX, "10 b.a.example. ; the exchange");
    let mut octets = Vec::new(alloc);
    let data = data.expect(&rt, "MX data");
    data.compose_rdata(&mut octets).expect(&rt, "memory");
    let expected = b"\x00\x0A\x01b\x01a\x07example\x00";
    assert_octets(&rt, "the RDATA", &octets, expected);
    let error = data_of_line(alloc, Rtype::MX, "ten b.a.example.").err();
    assert_holds(&rt, "a bad word", error == Some(TextError::BadWord));
}
