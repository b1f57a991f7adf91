//! Calls that allocate, each with enough memory.
use crate::asserts::assert_octets;
use dns_message::code::{Class, Rtype};
use dns_message::data::{
    A, Cname, ComposeRecordData, Opt, Soa, UnknownRecordData, compose_canonical_len_rdata,
    compose_len_rdata,
};
use dns_message::name::{Name, ParsedName};
use dns_message::question::Question;
use dns_message::record::{Record, Ttl};
use dns_message::target::StreamTarget;
use dns_message::wire::{AppendError, FlattenInto, OctetsFrom, Parser};
use std::alloc::Global;
use std::process::Abort;

type VecName = Name<Vec<u8>>;

/// A question for CNAME of Example.com.
const QUESTION: &[u8; 17] = b"\x07Example\x03com\x00\x00\x05\x00\x01";

const NAME: &[u8] = b"\x07Example\x03com\x00";

/// The name as RDATA, after its length.
const ALIAS: &[u8] = b"\x00\x0D\x07Example\x03com\x00";

/// The option as RDATA, after its length.
const OPT: &[u8] = b"\x00\x04\x00\x03\x00\x00";

fn name_of(rt: &impl Abort) -> Name<&'static [u8]> {
    Name::from_octets(NAME).expect(rt, "a name")
}

/// The name of the question in `QUESTION`.
fn qname_of(rt: &impl Abort) -> ParsedName<'static> {
    ParsedName::parse(&mut Parser::new(QUESTION)).expect(rt, "a name")
}

/// The RDATA of an OPT record with an option without data.
fn opt_of(rt: &impl Abort) -> Opt<[u8; 4]> {
    Opt::from_octets([0, 3, 0, 0]).expect(rt, "options")
}

/// Fails unless RDATA is composed as these octets, after its length.
fn assert_data<D: ComposeRecordData>(
    rt: &impl Abort,
    alloc: Global,
    row: &str,
    data: &D,
    expected: &[u8],
) {
    let mut target = Vec::new(alloc);
    compose_len_rdata(data, &mut target).expect(rt, row);
    assert_octets(rt, row, target.as_slice(), expected);
}

/// Fails unless the source is converted to RDATA with these octets.
fn assert_converts<D: OctetsFrom<S> + ComposeRecordData + Drop, S>(
    rt: &impl Abort,
    alloc: Global,
    row: &str,
    source: S,
    expected: &[u8],
) {
    let data = D::try_octets_from(alloc, source).expect(rt, row);
    assert_data(rt, alloc, row, &data, expected);
}

/// Fails unless the source is flattened into RDATA with these octets.
fn assert_flattens<D: ComposeRecordData + Drop, S: FlattenInto<D>>(
    rt: &impl Abort,
    alloc: Global,
    row: &str,
    source: S,
    expected: &[u8],
) {
    let data = source.try_flatten_into(alloc).expect(rt, row);
    assert_data(rt, alloc, row, &data, expected);
}

#[test]
fn converts_and_flattens(rt: HostRuntime) {
    let alloc = rt.alloc();
    let alias = Cname::new(name_of(&rt));
    assert_converts::<Cname<VecName>, _>(&rt, alloc, "alias", alias, ALIAS);
    assert_converts::<Opt<Vec<u8>>, _>(&rt, alloc, "OPT data", opt_of(&rt), OPT);
    assert_flattens::<Opt<Vec<u8>>, _>(&rt, alloc, "flat OPT data", opt_of(&rt), OPT);
    let alias = Cname::new(qname_of(&rt));
    assert_flattens::<Cname<VecName>, _>(&rt, alloc, "flat alias", alias, ALIAS);
    let opaque = UnknownRecordData::from_octets(Rtype::TXT, *b"\x01a").expect(&rt, "data");
    let expected = b"\x00\x02\x01a";
    assert_flattens::<UnknownRecordData<Vec<u8>>, _>(
        &rt,
        alloc,
        "flat opaque data",
        opaque,
        expected,
    );
    let question = Question::new_in(qname_of(&rt), Rtype::CNAME);
    let flat = question.try_flatten_into(alloc);
    let question: Question<VecName> = flat.expect(&rt, "memory for a flat question");
    let name = question.qname().as_slice();
    assert_octets(&rt, "name of a flat question", name, NAME);
}

#[test]
fn clones(rt: HostRuntime) {
    let alloc = rt.alloc();
    let octets = b"\x01a".to_vec(alloc).expect(&rt, "memory");
    let opaque = UnknownRecordData::from_octets(Rtype::TXT, octets).expect(&rt, "data");
    let clone = opaque.clone().expect(&rt, "memory");
    assert_octets(&rt, "opaque data", clone.data().as_slice(), b"\x01a");
    let stream = StreamTarget::new_vec(alloc).expect(&rt, "memory");
    let clone = stream.clone().expect(&rt, "memory");
    assert_octets(&rt, "stream", clone.as_stream_slice(), b"\x00\x00");
}

/// The question, and a CNAME record of the root, whose alias is for the root.
const QUESTION_AND_RECORD: &[u8] =
    b"\x07Example\x03com\x00\x00\x05\x00\x01\x00\x00\x05\x00\x01\x00\x00\x00\x3C\x00\x01\x00";

/// Fails unless all was composed, as these octets.
fn assert_composed(
    rt: &impl Abort,
    composed: &[Result<(), AppendError>],
    target: &[u8],
    expected: &[u8],
) {
    for composed in composed {
        composed.expect(rt, "memory");
    }
    assert_octets(rt, "composed octets", target, expected);
}

#[test]
fn composes_a_question_and_a_record(rt: HostRuntime) {
    let question = Question::new_in(name_of(&rt), Rtype::CNAME);
    let root = Name::root_slice();
    let record = Record::new(root, Class::IN, Ttl::MINUTE, Cname::new(root));
    let mut target = Vec::new(rt.alloc());
    let composed = [question.compose(&mut target), record.compose(&mut target)];
    assert_composed(&rt, &composed, &target, QUESTION_AND_RECORD);
}

/// The canonical forms of an address, opaque data, OPT data, the start of a zone, and an alias after
/// its length.
const CANONICAL: &[u8] =
    b"\x01\x02\x03\x04\x01A\x00\x03\x00\x00\x07example\x03com\x00\x07example\x03com\x00\x00\x00\x00\x01\x00\x00\x00\x02\x00\x00\x00\x03\x00\x00\x00\x04\x00\x00\x00\x05\x00\x0D\x07example\x03com\x00";

#[test]
fn composes_canonical_octets(rt: HostRuntime) {
    let name = name_of(&rt);
    let address = A::from_octets(1, 2, 3, 4);
    let opaque = UnknownRecordData::from_octets(Rtype::TXT, *b"\x01A").expect(&rt, "data");
    let start = Soa::new(name, name, 1, 2, 3, 4, 5);
    let mut target = Vec::new(rt.alloc());
    let composed = [
        address.compose_canonical_rdata(&mut target),
        opaque.compose_canonical_rdata(&mut target),
        opt_of(&rt).compose_canonical_rdata(&mut target),
        start.compose_canonical_rdata(&mut target),
        compose_canonical_len_rdata(&Cname::new(name), &mut target),
    ];
    assert_composed(&rt, &composed, &target, CANONICAL);
}
