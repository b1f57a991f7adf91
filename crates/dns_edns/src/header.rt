//! The header of an OPT record (RFC 6891 section 6.1.3).
ghost use Rattle.std.specs.Prelude.{◌≡◌, ◌+◌, ◌*◌, ◌/◌};
ghost use Rattle.dns_code.specs.Header.{fields as header_fields};
ghost use Rattle.dns_edns.specs.OptHeader.{class_of, ttl_of, ttl_in, fields};

use dns_code::Header;
use dns_iana::{Class, OptRcode};

/// The fields of an OPT record that are in its class and its TTL (RFC 6891 section 6.1.3).
#[derive(Clone, Copy, Debug, PartialEq, Eq)]
pub struct OptHeader {
    udp_payload_size: u16,
    /// From the most significant octet: the upper bits of the rcode, the version, and 16 bits, the
    /// first of them DO.
    ttl: u32,
}

/// Class 0 and TTL 0: each field is 0.
impl Default for OptHeader {
    ghost is_default = { λ header. (class_of header ≡ 0) × (ttl_of header ≡ 0) };

    fn default() -> Self {
        OptHeader {
            udp_payload_size: 0,
            ttl: 0,
        }
    }
}

impl OptHeader {
    /// The header in a class and a TTL in seconds.
    pub fn from_fields(class: Class, ttl: u32) -> Self
        ensures class { class_of result ≡ class }
        ensures ttl { ttl_of result ≡ ttl }
    {
        OptHeader {
            udp_payload_size: class.to_int(),
            ttl,
        }
    }

    /// The class of a record with this header.
    pub fn class(self) -> Class
        ensures { result ≡ class_of self }
    {
        Class::from_int(self.udp_payload_size)
    }

    /// The TTL of a record with this header, in seconds.
    pub fn ttl(self) -> u32
        ensures ttl { result ≡ ttl_of self }
        ensures fields { result ≡ ttl_in (fields self) }
    {
        self.ttl
    }

    /// The most octets of a UDP payload that the sender can receive.
    pub fn udp_payload_size(self) -> u16
        ensures { result ≡ (fields self).udp_payload_size }
    {
        self.udp_payload_size
    }

    /// Sets the UDP payload size in octets.
    pub fn set_udp_payload_size(&mut self, size: u16)
        ensures { fields self.new ≡ record (fields self.old) { udp_payload_size = size } }
    {
        self.udp_payload_size = size;
    }

    /// The extended rcode. Its lower four bits are those of the message's `header`.
    pub fn rcode(self, header: Header) -> OptRcode
        ensures { result ≡ (fields self).ext * 16 + (header_fields header).rcode }
    {
        OptRcode::from_parts(header.rcode(), (self.ttl / 0x100_0000) as u8)
    }

    /// Sets the upper eight bits of the extended rcode. The lower four are in the message's header.
    pub fn set_rcode(&mut self, rcode: OptRcode)
        ensures { fields self.new ≡ record (fields self.old) { ext = rcode / 16 } }
    {
        self.ttl = u32::from(rcode.ext()) * 0x100_0000 + self.ttl % 0x100_0000;
    }

    /// The version of EDNS.
    pub fn version(self) -> u8
        ensures { result ≡ (fields self).version }
    {
        (self.ttl / 0x1_0000 % 0x100) as u8
    }

    /// Sets the version of EDNS.
    pub fn set_version(&mut self, version: u8)
        ensures { fields self.new ≡ record (fields self.old) { version = version } }
    {
        let ext = self.ttl / 0x100_0000;
        self.ttl = ext * 0x100_0000 + u32::from(version) * 0x1_0000 + self.ttl % 0x1_0000;
    }

    /// DO: whether the sender accepts DNSSEC records (RFC 3225).
    pub fn dnssec_ok(self) -> bool
        ensures { result ≡ (fields self).dnssec_ok }
    {
        self.ttl / 0x8000 % 2 == 1
    }

    /// Sets or clears DO.
    pub fn set_dnssec_ok(&mut self, set: bool)
        ensures { fields self.new ≡ record (fields self.old) { dnssec_ok = set } }
    {
        let higher = self.ttl / 0x1_0000;
        self.ttl = higher * 0x1_0000 + u32::from(set) * 0x8000 + self.ttl % 0x8000;
    }
}
