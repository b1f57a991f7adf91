//! A builder of OPT records (RFC 6891 section 6.1).
ghost use Rattle.std.specs.Prelude.{◌≡◌, ◌≤◌, length, IsTrue};
ghost use Rattle.dns_edns.specs.Options.{encode_options};
ghost use Rattle.dns_edns.specs.OptionsOf.{are_options, options_in};

use crate::options::{
    append_joined_option, append_numbers_option, append_option, append_zeros_option,
    replace_options,
};
use dns_code::Header;
use dns_edns::{ComposeOptData, OptHeader};
use dns_iana::{OptRcode, OptionCode};
use dns_item::OptRecord;
use dns_octets::{AppendError, Octets};
use std::alloc::Global;

/// The octets of an OPT record before its options: owner, type, class, TTL and RDLENGTH.
const FIXED_LEN: usize = 11;

/// The fields and options of an OPT record, and a copy of the message's header, which has the lower
/// bits of the rcode.
///
/// A call that adds an option returns `ShortBuf` if the options would take more than 65,535 octets,
/// and `OutOfMemory` if an allocation fails. Nothing changes on error.
#[derive(Debug, Drop)]
pub struct OptBuilder {
    header: Header,
    opt_header: OptHeader,
    octets: Vec<u8>,
    ghost listed: { IsTrue (are_options octets.items) },
    ghost whole: { encode_options (options_in octets.items) ≡ octets.items },
    ghost short: { length octets.items ≤ 65535 },
}

impl OptBuilder {
    ghost use Rattle.std.specs.Prelude.{◌+◌, ◌*◌, ◌<◌, ◌++◌, replicate, OnOk, OnErr, IfErr};
    ghost use Rattle.std.specs.Int.{to_be_bytes, w16};
    ghost use Rattle.std.specs.List.{flat_map};
    ghost use Rattle.dns_code.specs.Header.{fields as header_fields};
    ghost use Rattle.dns_edns.specs.OptHeader.{fields as opt_fields};
    ghost use Rattle.dns_edns_builder.specs.Gathered.{gathered, nothing_gathered, opt_size, option_capacity, option_octets, with_extended_rcode};
    ghost use Rattle.dns_edns_builder.specs.Additions.{Adds};
    ghost use Rattle.dns_item.specs.OptRecord.{opt_item};

    /// A builder with a copy of the message's header and without options. The fields of the OPT
    /// record are 0 or false.
    pub fn new(alloc: Global, header: Header) -> Self
        ensures { gathered result ≡ nothing_gathered (header_fields header) }
    {
        OptBuilder {
            header,
            opt_header: OptHeader::default(),
            octets: Vec::new(alloc),
        }
    }

    /// The copy of the message's header, which has the lower bits of the rcode.
    pub fn header(&self) -> Header
        ensures { header_fields result ≡ (gathered self.now).header }
    {
        self.header
    }

    /// The fields in the class and the TTL of the record.
    pub fn opt_header(&self) -> OptHeader
        ensures { opt_fields result ≡ (gathered self.now).fields }
    {
        self.opt_header
    }

    /// The options in wire format, which is the RDATA of the record.
    pub fn option_octets(&self) -> &[u8]
        ensures octets { result.now ≡ option_octets self.now }
        ensures options { result.now ≡ encode_options (gathered self.now).options }
        ensures short { length result.now ≤ 65535 }
    {
        self.octets.as_slice()
    }

    /// The octets that the OPT record takes in a message: 11, and those of the options (RFC 6891
    /// section 6.1.2).
    pub fn compose_len(&self) -> usize
        ensures { result ≡ opt_size (gathered self.now) }
    {
        FIXED_LEN + self.option_octets().len()
    }

    /// The most octets of a UDP payload that the sender can receive.
    pub fn udp_payload_size(&self) -> u16
        ensures { result ≡ (gathered self.now).fields.udp_payload_size }
    {
        self.opt_header.udp_payload_size()
    }

    /// Sets the UDP payload size in octets.
    pub fn set_udp_payload_size(&mut self, size: u16)
        ensures { let old = gathered self.old in gathered self.new ≡
            record old { fields = record old.fields { udp_payload_size = size } } }
    {
        self.opt_header.set_udp_payload_size(size);
    }

    /// The extended rcode. Its lower four bits are in the header.
    pub fn rcode(&self) -> OptRcode
        ensures { let all = gathered self.now in result ≡ all.fields.ext * 16 + all.header.rcode }
    {
        self.opt_header.rcode(self.header)
    }

    /// Sets the extended rcode, in the header and in the record.
    pub fn set_rcode(&mut self, rcode: OptRcode)
        ensures { gathered self.new ≡ with_extended_rcode rcode (gathered self.old) }
    {
        self.header.set_rcode(rcode.rcode());
        self.opt_header.set_rcode(rcode);
    }

    /// The version of EDNS.
    pub fn version(&self) -> u8
        ensures { result ≡ (gathered self.now).fields.version }
    {
        self.opt_header.version()
    }

    /// Sets the version of EDNS.
    pub fn set_version(&mut self, version: u8)
        ensures { let old = gathered self.old in gathered self.new ≡
            record old { fields = record old.fields { version = version } } }
    {
        self.opt_header.set_version(version);
    }

    /// DO: whether the sender accepts DNSSEC records (RFC 3225).
    pub fn dnssec_ok(&self) -> bool
        ensures { result ≡ (gathered self.now).fields.dnssec_ok }
    {
        self.opt_header.dnssec_ok()
    }

    /// Sets or clears DO.
    pub fn set_dnssec_ok(&mut self, set: bool)
        ensures { let old = gathered self.old in gathered self.new ≡
            record old { fields = record old.fields { dnssec_ok = set } } }
    {
        self.opt_header.set_dnssec_ok(set);
    }

    /// Replaces the fields and the options by those of an OPT record. The copy of the header stays.
    ///
    /// The only error is `OutOfMemory`, and then nothing changes. It never fails if the octets of
    /// the options fit without an allocation, as no options do.
    pub fn clone_from<Octs: Octets>(&mut self, opt: &OptRecord<Octs>) -> Result<(), AppendError>
        ensures cloned { OnOk result (gathered self.new ≡ record (gathered self.old) {
          fields = (opt_item opt.now).fields;
          options = (opt_item opt.now).options;
        }) }
        ensures refused { OnErr result (gathered self.new ≡ gathered self.old) }
        ensures memory { IfErr result (λ error. error ≡ AppendError.OutOfMemory) }
        ensures full { OnErr result (option_capacity self.old
            < length (encode_options (opt_item opt.now).options)) }
    {
        let record = opt.as_record();
        let opt_header = OptHeader::from_fields(record.class(), record.ttl().as_secs());
        replace_options(&mut self.octets, opt.opt().data().octets())?;
        self.opt_header = opt_header;
        Ok(())
    }

    /// Adds an option.
    pub fn push<D: ComposeOptData>(&mut self, option: &D) -> Result<(), AppendError>
        ensures { Adds (D.option option.now) self.old self.new result }
    {
        self.append(option.code().to_int(), option.octets())
    }

    /// Adds the option with this code and these octets.
    pub fn push_raw_option(&mut self, code: OptionCode, octets: &[u8]) -> Result<(), AppendError>
        ensures { Adds (record { code = code; octets = octets.now }) self.old self.new result }
    {
        self.append(code.to_int(), octets)
    }

    pub(crate) fn append(&mut self, code: u16, octets: &[u8]) -> Result<(), AppendError>
        ensures { Adds (record { code = code; octets = octets.now }) self.old self.new result }
    {
        append_option(&mut self.octets, code, octets)
    }

    /// Adds the option with this code and the octets of `first`, then `rest`.
    pub(crate) fn append_joined(
        &mut self,
        code: u16,
        first: &[u8],
        rest: &[u8],
    ) -> Result<(), AppendError>
        ensures { Adds (record { code = code; octets = first.now ++ rest.now })
            self.old self.new result }
    {
        append_joined_option(&mut self.octets, code, first, rest)
    }

    /// Adds the option with this code and `count` zero octets.
    pub(crate) fn append_zeros(&mut self, code: u16, count: u16) -> Result<(), AppendError>
        ensures { Adds (record { code = code; octets = replicate count 0 })
            self.old self.new result }
    {
        append_zeros_option(&mut self.octets, code, count)
    }

    /// Adds the option with this code and the numbers, two octets each, big-endian.
    pub(crate) fn append_numbers(&mut self, code: u16, numbers: &[u16]) -> Result<(), AppendError>
        ensures { Adds (record { code = code; octets = flat_map (to_be_bytes w16) numbers.now })
            self.old self.new result }
    {
        append_numbers_option(&mut self.octets, code, numbers)
    }
}
