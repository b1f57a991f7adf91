//! OPT records (RFC 6891 section 6.1).
ghost use Rattle.std.specs.Prelude.{◌≡◌, ◌+◌, ◌*◌, []};
ghost use Rattle.dns_name.specs.NameReading.{name_labels};
ghost use Rattle.dns_code.specs.Header.{fields as header_fields};
ghost use Rattle.dns_item.specs.OptRecord.{opt_class, opt_ttl, opt_data, opt_item, HasOptFields};
ghost use Rattle.dns_item.specs.Record.{owner_of, class_of, ttl_of, data_of};

use crate::record::Record;
use dns_code::{Header, Ttl};
use dns_data::Opt;
use dns_edns::OptHeader;
use dns_iana::OptRcode;
use dns_name::Name;
use dns_octets::Octets;

/// An OPT record: the fields in its class and TTL, and its options (RFC 6891 section 6.1).
#[derive(Clone, Copy, Debug, Drop)]
pub struct OptRecord<Octs: Octets> {
    header: OptHeader,
    data: Opt<Octs>,
}

impl<Octs: Octets> OptRecord<Octs> {
    /// The most octets of a UDP payload that the sender can receive.
    pub fn udp_payload_size(&self) -> u16
        ensures { result ≡ (opt_item self.now).fields.udp_payload_size }
    {
        self.header.udp_payload_size()
    }

    /// The extended rcode. Its lower four bits are those of the message's `header`.
    pub fn rcode(&self, header: Header) -> OptRcode
        ensures { result ≡ (opt_item self.now).fields.ext * 16 + (header_fields header).rcode }
    {
        self.header.rcode(header)
    }

    /// The version of EDNS.
    pub fn version(&self) -> u8
        ensures { result ≡ (opt_item self.now).fields.version }
    {
        self.header.version()
    }

    /// DO: whether the sender accepts DNSSEC records (RFC 3225).
    pub fn dnssec_ok(&self) -> bool
        ensures { result ≡ (opt_item self.now).fields.dnssec_ok }
    {
        self.header.dnssec_ok()
    }

    /// The RDATA, which has the options.
    pub fn opt(&self) -> &Opt<Octs>
        ensures { result.now ≡ opt_data self.now }
    {
        &self.data
    }

    /// The record with this class, TTL and RDATA. Its owner is the root.
    pub fn as_record(&self) -> Record<Name<&'static [u8]>, &Opt<Octs>>
        ensures owner { name_labels (owner_of result) ≡ [] }
        ensures class { class_of result ≡ opt_class self.now }
        ensures ttl { ttl_of result ≡ opt_ttl self.now }
        ensures value { (data_of result).now ≡ opt_data self.now }
    {
        let ttl = Ttl::from_secs(self.header.ttl());
        Record::new(Name::root_slice(), self.header.class(), ttl, &self.data)
    }
}

/// The OPT record in a record's class, TTL and RDATA. The owner, which should be the root, is
/// dropped.
impl<N: Drop, Octs: Octets> From<Record<N, Opt<Octs>>> for OptRecord<Octs> {
    ghost from_gives = { λ r opt. HasOptFields opt (class_of r) (ttl_of r) (data_of r) };

    fn from(record: Record<N, Opt<Octs>>) -> Self {
        OptRecord {
            header: OptHeader::from_fields(record.class(), record.ttl().as_secs()),
            data: record.into_data(),
        }
    }
}
