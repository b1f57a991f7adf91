ghost use Rattle.std.specs.Prelude.{◌↔◌, IsTrue};
ghost use Rattle.dns_read.specs.Message.{message_octets};
ghost use Rattle.dns_edit.specs.Acceptance.{IsRegular};

use crate::edit::check;
use dns_octets::Octets;
use dns_read::Message;

/// Whether each question and record can be skipped, the names in RDATA end within it, and each
/// pointer of a name leads to a label of an earlier name (RFC 1035 section 4.1.4). Names in RDATA
/// are those of the types that [`crate::change_ttls`] knows.
///
/// `change_ttls` accepts exactly these messages. To read a name of one, at most 127 pointers are
/// followed, or 128 if that fails; in another message it can be 8,000. The time grows as the
/// message does: no pointer is followed. Nothing is allocated.
pub fn is_regular<Octs: Octets>(message: &Message<Octs>) -> bool
    ensures { IsTrue result ↔ IsRegular (message_octets message.now) }
{
    check(message.as_slice()).is_ok()
}
