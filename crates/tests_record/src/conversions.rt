//! Questions, records and RDATA: converted to other octets, and cloned.
use crate::asserts::{
    assert_data, assert_holds, assert_question, assert_record, name_of, opaque, options,
};
use arrayvec::ArrayVec;
use dns_code::{Class, Rtype};
use dns_data::{A, Cname, ComposeRecordData, Ns, Opt, Soa, UnknownRecordData};
use dns_item::{Question, Record, RecordHeader, Ttl};
use dns_wire::{FlattenInto, Name, OctetsFrom, ParsedName, Parser};
use std::alloc::Global;
use std::process::Abort;

const EXAMPLE_COM: &[u8; 13] = b"\x07example\x03com\x00";

type VecName = Name<Vec<u8>>;

/// Fails unless RDATA is converted to other octets, and then has these.
fn assert_converted<T: OctetsFrom<S> + ComposeRecordData + Drop, S>(
    rt: &impl Abort,
    alloc: Global,
    row: &str,
    source: S,
    expected: &[u8],
) {
    let converted = T::try_octets_from(alloc, source).expect(rt, row);
    assert_data(rt, row, &converted, expected);
}

/// Fails unless RDATA without what it borrows from a message has these octets.
fn assert_flattened<T: ComposeRecordData + Drop, S: FlattenInto<T>>(
    rt: &impl Abort,
    alloc: Global,
    row: &str,
    source: S,
    expected: &[u8],
) {
    let flattened = source.try_flatten_into(alloc).expect(rt, row);
    assert_data(rt, row, &flattened, expected);
}

#[test]
fn converts_a_question(rt: HostRuntime) {
    let source = Question::new(name_of(&rt, EXAMPLE_COM), Rtype::NS, Class::CH);
    let question = Question::<VecName>::try_octets_from(rt.alloc(), source);
    let question = question.expect(&rt, "a question");
    let expected = b"\x07example\x03com\x00\x00\x02\x00\x03";
    assert_question(&rt, "a question", &question, expected);
}

#[test]
fn converts_a_record(rt: HostRuntime) {
    let name = name_of(&rt, EXAMPLE_COM);
    let source = Record::new(name, Class::CH, Ttl::MINUTE, Ns::new(name));
    let record = Record::<VecName, Ns<VecName>>::try_octets_from(rt.alloc(), source);
    assert_record(
        &rt,
        "a record",
        &record.expect(&rt, "a record"),
        b"\x07example\x03com\x00\x00\x02\x00\x03\x00\x00\x00\x3C\x00\x0D\x07example\x03com\x00",
    );
}

/// NSID without an identifier.
const NSID: &[u8] = b"\x00\x03\x00\x00";

#[test]
fn converts_data(rt: HostRuntime) {
    let alloc = rt.alloc();
    let address = A::from_octets(1, 2, 3, 4);
    assert_converted::<A, _>(&rt, alloc, "an address", address, &[1, 2, 3, 4]);
    let source = Soa::new(name_of(&rt, EXAMPLE_COM), Name::root_slice(), 1, 2, 3, 4, 5);
    let zone =
        b"\x07example\x03com\x00\x00\x00\x00\x00\x01\x00\x00\x00\x02\x00\x00\x00\x03\x00\x00\x00\x04\x00\x00\x00\x05";
    assert_converted::<Soa<VecName>, _>(&rt, alloc, "a zone", source, zone);
    let source = options(&rt, NSID);
    assert_converted::<Opt<ArrayVec<u8, 4>>, _>(&rt, alloc, "options", source, NSID);
    let source = opaque(&rt, Rtype::TXT, b"\x01a");
    assert_converted::<UnknownRecordData<Vec<u8>>, _>(&rt, alloc, "opaque", source, b"\x01a");
}

/// The names example.com. and ns.example.com.
const NAMES: &[u8; 18] = b"\x07example\x03com\x00\x02ns\xC0\x00";

/// The next name.
fn next_name(rt: &impl Abort, parser: &mut Parser<'static>) -> ParsedName<'static> {
    ParsedName::parse(parser).expect(rt, "a name")
}

#[test]
fn flattens_a_record(rt: HostRuntime) {
    let mut parser = Parser::new(NAMES);
    let owner = next_name(&rt, &mut parser);
    let server = Ns::new(next_name(&rt, &mut parser));
    let source = Record::new(owner, Class::IN, Ttl::MINUTE, server);
    let record: Result<Record<VecName, Ns<VecName>>, _> = source.try_flatten_into(rt.alloc());
    assert_record(
        &rt,
        "a record",
        &record.expect(&rt, "a record"),
        b"\x07example\x03com\x00\x00\x02\x00\x01\x00\x00\x00\x3C\x00\x10\x02ns\x07example\x03com\x00",
    );
}

#[test]
fn flattens_data(rt: HostRuntime) {
    let mut parser = Parser::new(NAMES);
    let mname = next_name(&rt, &mut parser);
    let rname = next_name(&rt, &mut parser);
    let source = Soa::new(mname, rname, 1, 2, 3, 4, 5);
    let zone =
        b"\x07example\x03com\x00\x02ns\x07example\x03com\x00\x00\x00\x00\x01\x00\x00\x00\x02\x00\x00\x00\x03\x00\x00\x00\x04\x00\x00\x00\x05";
    assert_flattened::<Soa<VecName>, _>(&rt, rt.alloc(), "a zone", source, zone);
    let address = A::from_octets(1, 2, 3, 4);
    assert_flattened::<A, _>(&rt, rt.alloc(), "an address", address, &[1, 2, 3, 4]);
}

/// Fails unless a clone of the value is equal to it.
fn assert_cloned<T: Clone + PartialEq + Drop>(rt: &impl Abort, row: &str, value: T) {
    let clone = value.clone().expect(rt, row);
    assert_holds(rt, row, clone == value);
}

fn vec_name(rt: &impl Abort, alloc: Global) -> VecName {
    VecName::try_octets_from(alloc, name_of(rt, EXAMPLE_COM)).expect(rt, "a name")
}

#[test]
fn clones_data(rt: HostRuntime) {
    let alloc = rt.alloc();
    assert_cloned(&rt, "a server", Ns::new(vec_name(&rt, alloc)));
    assert_cloned(&rt, "an alias", Cname::new(vec_name(&rt, alloc)));
    let mname = vec_name(&rt, alloc);
    let zone = Soa::new(mname, vec_name(&rt, alloc), 1, 2, 3, 4, 5);
    assert_cloned(&rt, "a zone", zone);
}

/// Name conversions and clones: clones of a name, a question and a record header.
#[test]
fn clones_names_questions_and_headers(rt: HostRuntime) {
    let alloc = rt.alloc();
    assert_cloned(&rt, "a name", vec_name(&rt, alloc));
    let question = Question::new_in(vec_name(&rt, alloc), Rtype::A);
    assert_cloned(&rt, "a question", question);
    let owner = vec_name(&rt, alloc);
    let header = RecordHeader::new(owner, Rtype::A, Class::IN, Ttl::HOUR, 4);
    assert_cloned(&rt, "a header", header);
}

/// Name conversions and clones: clones of a record.
#[test]
fn clones_records(rt: HostRuntime) {
    let data = A::from_octets(1, 2, 3, 4);
    let record = Record::new(vec_name(&rt, rt.alloc()), Class::IN, Ttl::HOUR, data);
    let clone = record.clone().expect(&rt, "a clone");
    assert_holds(&rt, "a record", clone == record);
    assert_record(
        &rt,
        "a record",
        clone.as_ref(),
        b"\x07example\x03com\x00\x00\x01\x00\x01\x00\x00\x0E\x10\x00\x04\x01\x02\x03\x04",
    );
}
