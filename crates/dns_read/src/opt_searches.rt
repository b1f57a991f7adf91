//! What the OPT record of a message says (RFC 6891 section 6.1).
ghost use Rattle.std.specs.Prelude.{◌≡◌, option_map, option_and_then};
ghost use Rattle.dns_item.specs.OptRecord.{opt_item};
ghost use Rattle.dns_read.specs.RecordSection.{records_left};
ghost use Rattle.dns_read.specs.Message.{message_octets};
ghost use Rattle.dns_read.specs.OptSearches.{first_opt_in, opt_said, opt_of, opt_rcode_of};

use crate::message::Message;
use crate::record_section::RecordSection;
use dns_data::Opt;
use dns_iana::OptRcode;
use dns_item::OptRecord;
use dns_octets::Octets;

impl<Octs: Octets> Message<Octs> {
    /// The first OPT record of the additional section. Returns `None` if there is none, if the
    /// section has no start, if a record before it in the section can't be read, or if its RDATA is
    /// malformed.
    pub fn opt(&self) -> Option<OptRecord<&[u8]>>
        ensures { option_map opt_item result ≡ opt_of (message_octets self.now) }
    {
        match self.additional() {
            Ok(section) => first_opt(section),
            Err(_) => None,
        }
    }

    /// The RCODE of the message: its lower 4 bits are in the header, its higher 8 in the OPT record
    /// that `opt` returns. The higher bits are 0 if there is none (RFC 6891 section 6.1.3).
    pub fn opt_rcode(&self) -> OptRcode
        ensures { result ≡ opt_rcode_of (message_octets self.now) }
    {
        match self.opt() {
            Some(opt) => opt.rcode(self.header()),
            None => OptRcode::from(self.header().rcode()),
        }
    }
}

/// The first OPT record of a section, unless an error comes first.
fn first_opt<'a>(section: RecordSection<'a>) -> Option<OptRecord<&'a [u8]>>
    ensures { option_map opt_item result
        ≡ option_and_then opt_said (first_opt_in (records_left section.entry)) }
{
    match section.limit_to::<Opt<&[u8]>>().next() {
        Some(Ok(record)) => Some(OptRecord::from(record)),
        Some(Err(_)) | None => None,
    }
}
