ghost use Rattle.std.specs.Prelude.{◌≡◌, ◌↔◌, ◌≤◌, length, IsOk, IsTrue, OnErr, OnOk};
ghost use Rattle.dns_code.specs.HeaderSection.{header_size};
ghost use Rattle.dns_name.specs.NameReading.{name_labels};
ghost use Rattle.dns_name.specs.Names.{NameAt, uncompressed};
ghost use Rattle.dns_octets.specs.Octets.{overwritten};
ghost use Rattle.dns_read.specs.Message.{buffer_of, message_octets};
ghost use Rattle.dns_edit.specs.Case.{AsksFor};

use crate::edit::questions_in;
use dns_code::HeaderSection;
use dns_name::Name;
use dns_octets::{Octets, OctetsMut};
use dns_read::Message;
use thiserror::Error;

/// The error for a name that isn't the one that a message asks for.
#[derive(Clone, Copy, Debug, PartialEq, Eq, Error)]
#[error("other name in question")]
pub struct OtherName;

/// Gives the name of the first question the letter case of `name`. No other octet changes.
///
/// A resolver that mixes the case of its queries restores that of its client so. Names that point
/// to the question's name change with it.
///
/// Returns `OtherName` if the header counts no question, or if the octets after the header aren't
/// those of `name`, ignoring ASCII case (RFC 1035 section 2.3.3): the question has another name, or
/// one with a pointer. The message then stays as it is. Whether the question is whole isn't asked.
pub fn set_question_case<Octs: OctetsMut, N: Octets>(
    message: &mut Message<Octs>,
    name: &Name<N>,
) -> Result<(), OtherName>
    ensures asked { IsOk result ↔ AsksFor (message_octets message.old)
        (uncompressed (name_labels name.now)) }
    ensures written { OnOk result (message_octets message.new ≡ overwritten
        (message_octets message.old) header_size (uncompressed (name_labels name.now))) }
    ensures reads { OnOk result (NameAt (message_octets message.new) header_size
        (name_labels name.now)) }
    ensures kept { OnErr result (message_octets message.new ≡ message_octets message.old) }
    ensures loan { Octs.loan (buffer_of message.new) ≡ Octs.loan (buffer_of message.old) }
{
    let octets = name.as_slice();
    if !asks_for(message.as_slice(), octets) {
        return Err(OtherName);
    }
    message.overwrite(HeaderSection::LEN, octets);
    Ok(())
}

/// Whether the message has a question, and its name has these octets, ignoring ASCII case.
fn asks_for(message: &[u8], name: &[u8]) -> bool
    requires { header_size ≤ length message.now }
    ensures { IsTrue result ↔ AsksFor message.now name.now }
{
    if questions_in(message) == 0 {
        return false;
    }
    let asked = &message[HeaderSection::LEN..];
    name.len() <= asked.len() && asked[..name.len()].eq_ignore_ascii_case(name)
}
