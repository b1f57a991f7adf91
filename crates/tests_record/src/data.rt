//! How records, RDATA and errors are printed. Other records are in the messages of `cases_runs`.
use crate::asserts::{assert_prints, name_of, opaque};
use dns_code::{Class, Rtype};
use dns_data::{A, LongRecordData, Ns, Soa};
use dns_edns::{BadOptData, LongOptData};
use dns_item::record::RecordParseError;
use dns_item::{Record, Ttl};
use dns_wire::{Name, ParseError, ShortBuf};
use fields_text::{Base32, TextError};

#[test]
fn prints_records(rt: HostRuntime) {
    let owner = name_of(&rt, b"\x07example\x03com\x00");
    let mut record = Record::new(owner, Class::IN, Ttl::HOUR, A::from_octets(203, 0, 113, 1));
    record.set_class(Class::CH);
    record.set_ttl(Ttl::MINUTE);
    *record.data_mut() = A::from_octets(192, 0, 2, 2);
    let text = "example.com. 60 CH A 192.0.2.2";
    assert_prints(&rt, rt.alloc(), "a changed record", &record, text);
}

#[test]
fn prints_servers_and_zones(rt: HostRuntime) {
    let alloc = rt.alloc();
    let owner = name_of(&rt, b"\x07example\x03com\x00");
    let server = Record::new(Name::root_slice(), Class::CH, Ttl::ZERO, Ns::new(owner));
    assert_prints(&rt, alloc, "a server", &server, ". 0 CH NS example.com.");
    let soa = Soa::new(owner, owner, 1, 2, 3, 4, 5);
    let text = "example.com. example.com. 1 2 3 4 5";
    assert_prints(&rt, alloc, "a zone", &soa, text);
}

#[test]
fn prints_opaque_data(rt: HostRuntime) {
    let data = opaque(&rt, Rtype::TXT, b"");
    assert_prints(&rt, rt.alloc(), "no octet", &data, "\\# 0");
    // RFC 4648 section 10. No RDATA has a hash without octets.
    assert_prints(&rt, rt.alloc(), "no octet in base32", &Base32(b""), "");
}

type ReadingError = RecordParseError<ParseError, LongRecordData>;

#[test]
fn prints_errors(rt: HostRuntime) {
    let alloc = rt.alloc();
    let name = ReadingError::Name(ParseError::ShortInput);
    assert_prints(&rt, alloc, "a name", &name, "unexpected end of input");
    let data = ReadingError::Data(LongRecordData);
    assert_prints(&rt, alloc, "RDATA", &data, "record data too long");
    let memory = TextError::OutOfMemory;
    assert_prints(&rt, alloc, "a text", &memory, "out of memory");
    let short = ReadingError::from(ShortBuf);
    assert_prints(&rt, alloc, "a buffer", &short, "unexpected end of buffer");
    assert_prints(
        &rt,
        alloc,
        "an option",
        &LongOptData,
        "option data too long",
    );
    assert_prints(
        &rt,
        alloc,
        "a kind of option",
        &BadOptData,
        "malformed option data",
    );
}
