//! What is gathered for an OPT record (RFC 6891 section 6.1).
use crate::asserts::assert_octets;
use dns_code::{Class, Header};
use dns_data::Opt;
use dns_edns_builder::OptBuilder;
use dns_item::{OptRecord, Record, Ttl};
use dns_wire::Name;
use std::alloc::Global;
use std::process::Abort;

/// The options NSID, DAU with the algorithms 8 and 13, and EXPIRE.
static THREE: [u8; 14] = *b"\x00\x03\x00\x00\x00\x05\x00\x02\x08\x0D\x00\x09\x00\x00";

/// An OPT record with these options.
fn opt_record<'a>(rt: &impl Abort, row: &str, octets: &'a [u8]) -> OptRecord<&'a [u8]> {
    let options = Opt::from_octets(octets).expect(rt, row);
    OptRecord::from(Record::new(Name::root_slice(), Class::from_int(512), Ttl::ZERO, options))
}

/// Fails unless a builder takes over the options of an OPT record.
fn assert_cloned(rt: &impl Abort, alloc: Global, row: &str, octets: &[u8]) {
    let record = opt_record(rt, row, octets);
    let mut opt = OptBuilder::new(alloc, Header::new());
    opt.clone_from(&record).expect(rt, row);
    assert_octets(rt, row, opt.option_octets(), octets);
}

#[test]
fn clones_options(rt: HostRuntime) {
    assert_cloned(&rt, rt.alloc(), "three options", &THREE);
    // PADDING (12) of 65,531 zeros (RFC 7830 section 3)
    let mut octets = [0; 65_535];
    octets[1] = 12;
    octets[2] = 0xFF;
    octets[3] = 0xFB;
    assert_cloned(&rt, rt.alloc(), "the most octets", &octets);
}
