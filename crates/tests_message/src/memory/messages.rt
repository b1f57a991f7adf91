//! A positive response, a negative one, and a name in RDATA.
use crate::asserts::assert_octets;
use crate::memory::again::{push_question, push_record};
use crate::memory::fresh::{Fresh, started};
use dns_message::builder::{AnswerBuilder, Builder, RecordStage};
use dns_message::code::{Rcode, Rtype};
use dns_message::data::{A, Ns, Soa};
use dns_message::header::{Flags, Header};
use dns_message::name::Name;
use dns_message::record::ComposeRecord;
use dns_message::target::Composer;
use std::alloc::Global;
use std::process::Abort;

pub(crate) const EXAMPLE_COM: &[u8; 13] = b"\x07example\x03com\x00";

pub(crate) const NS_EXAMPLE_COM: &[u8; 16] = b"\x02ns\x07example\x03com\x00";

/// Rcode 3, a question for example. NS, and an SOA record with a.root-servers.net.
const NEGATIVE_RESPONSE: &[u8] =
    b"\x00\x00\x81\x83\x00\x01\x00\x00\x00\x01\x00\x00\x07example\x00\x00\x02\x00\x01\x00\x00\x06\x00\x01\x00\x01\x51\x76\x00\x40\x01a\x0Croot-servers\x03net\x00\x05nstld\x0Cverisign-grs\x03com\x00\x78\x68\x00\x25\x00\x00\x07\x08\x00\x00\x03\x84\x00\x09\x3A\x80\x00\x01\x51\x80";

/// The header of a response to a recursive query.
pub(crate) fn response_header(rcode: Rcode, is_authentic: bool) -> Header {
    let mut flags = Flags::new();
    flags.qr = true;
    flags.rd = true;
    flags.ra = true;
    flags.ad = is_authentic;
    let mut header = Header::new();
    header.set_flags(flags);
    header.set_rcode(rcode);
    header
}

/// A builder at the answer section, with a header and a question.
fn asked<R: Abort, T: Fresh>(
    rt: &R,
    alloc: Global,
    header: Header,
    qname: &[u8],
    qtype: Rtype,
) -> AnswerBuilder<T> {
    let question = (Name::from_octets(qname).expect(rt, "a name"), qtype);
    let mut builder = started(rt, alloc).question();
    builder.set_header(header);
    push_question(rt, &mut builder, &question);
    builder.answer()
}

/// Fails unless the message with this further record has these octets.
fn assert_record<R: Abort, T: Composer, S: RecordStage, D: ComposeRecord>(
    rt: &R,
    row: &str,
    mut builder: Builder<T, S>,
    record: &D,
    expected: &[u8],
) {
    push_record(rt, &mut builder, record);
    assert_octets(rt, row, builder.as_slice(), expected);
}

/// The name in an array.
pub(crate) fn name_of<R: Abort, const N: usize>(rt: &R, octets: [u8; N]) -> Name<[u8; N]> {
    Name::from_octets(octets).expect(rt, "a name")
}

/// Checks a response with a question for example.com. and an address of it.
pub(crate) fn assert_positive<R: Abort, T: Fresh>(rt: &R, alloc: Global, expected: &[u8]) {
    let address = A::from_octets(203, 0, 113, 1);
    let record = (name_of(rt, *EXAMPLE_COM), 3600, address);
    let header = response_header(Rcode::NOERROR, true);
    let builder: AnswerBuilder<T> = asked(rt, alloc, header, EXAMPLE_COM, Rtype::A);
    assert_record(rt, "Positive response", builder, &record, expected);
}

/// The RDATA of the authority record of `NEGATIVE_RESPONSE`.
fn soa<R: Abort>(rt: &R) -> Soa<Name<&'static [u8]>> {
    let mname = Name::from_octets(b"\x01a\x0Croot-servers\x03net\x00".as_slice());
    let mname = mname.expect(rt, "a name");
    let rname = Name::from_octets(b"\x05nstld\x0Cverisign-grs\x03com\x00".as_slice());
    let rname = rname.expect(rt, "a name");
    Soa::new(mname, rname, 2_020_081_701, 1800, 900, 604_800, 86_400)
}

/// Fails unless the message is `NEGATIVE_RESPONSE`, whose names share no suffix.
pub(crate) fn assert_negative<R: Abort, T: Fresh>(rt: &R, alloc: Global) {
    let record = (Name::root_slice(), 86_390, soa(rt));
    let header = response_header(Rcode::NXDOMAIN, false);
    let builder: AnswerBuilder<T> = asked(rt, alloc, header, b"\x07example\x00", Rtype::NS);
    let (row, builder) = ("Negative response", builder.authority());
    assert_record(rt, row, builder, &record, NEGATIVE_RESPONSE);
}

/// Checks a response with an NS record of example.com. whose server is below example.com.
pub(crate) fn assert_name_in_data<R: Abort, T: Fresh>(rt: &R, alloc: Global, expected: &[u8]) {
    let server = Ns::new(name_of(rt, *NS_EXAMPLE_COM));
    let record = (name_of(rt, *EXAMPLE_COM), 60, server);
    let builder: AnswerBuilder<T> = asked(rt, alloc, Header::new(), EXAMPLE_COM, Rtype::NS);
    assert_record(rt, "Name in data", builder, &record, expected);
}
