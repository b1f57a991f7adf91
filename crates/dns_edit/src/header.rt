//! The header of a message, changed in place.
ghost use Rattle.std.specs.Prelude.{◌≡◌, take, drop};
ghost use Rattle.dns_code.specs.Header.{fields_in};
ghost use Rattle.dns_read.specs.Message.{buffer_of, message_octets};

use dns_code::Rcode;
use dns_octets::OctetsMut;
use dns_read::Message;

/// Sets the ID (RFC 1035 section 4.1.1), as for a response from a cache. All else stays.
pub fn set_id<Octs: OctetsMut>(message: &mut Message<Octs>, id: u16)
    ensures header { fields_in (take 4 (message_octets message.new))
        ≡ record (fields_in (take 4 (message_octets message.old))) { id = id } }
    ensures others { drop 4 (message_octets message.new) ≡ drop 4 (message_octets message.old) }
    ensures loan { Octs.loan (buffer_of message.new) ≡ Octs.loan (buffer_of message.old) }
{
    let mut header = message.header();
    header.set_id(id);
    message.set_header(header);
}

/// Sets the rcode of the header (RFC 1035 section 4.1.1), the lower 4 bits of an extended one (RFC
/// 6891 section 6.1.3). All else stays.
pub fn set_rcode<Octs: OctetsMut>(message: &mut Message<Octs>, rcode: Rcode)
    ensures header { fields_in (take 4 (message_octets message.new))
        ≡ record (fields_in (take 4 (message_octets message.old))) { rcode = rcode } }
    ensures others { drop 4 (message_octets message.new) ≡ drop 4 (message_octets message.old) }
    ensures loan { Octs.loan (buffer_of message.new) ≡ Octs.loan (buffer_of message.old) }
{
    let mut header = message.header();
    header.set_rcode(rcode);
    message.set_header(header);
}
