ghost use Rattle.std.specs.Prelude.{◌≡◌, ◌≤◌, length};
ghost use Rattle.dns_read.specs.Message.{buffer_of, message_octets};
ghost use Rattle.dns_edit.specs.Opt.{FindsFirstOpt, FindsOpt, RemovesOpt};

use crate::error::EditError;
use crate::span::{Span, span_at};
use dns_octets::{Octets, OctetsMut, ParseError};
use dns_read::Message;

/// Removes the OPT record (RFC 6891 section 6.1.1) of the additional section, if it is the last
/// record. Returns whether there was one.
///
/// A proxy does so for a client that doesn't know EDNS. ARCOUNT falls by one, and no other octet
/// changes: the octets of the record are then after [`crate::records_end`], and aren't to be sent.
/// The upper eight bits of the rcode go with the record (RFC 6891 section 6.1.3): BADVERS, 16, is
/// then read as 0.
///
/// Returns `NotLast` if a record follows the first OPT record, and `Parse` if an entry before it
/// can't be skipped. The message then stays as it is.
pub fn remove_opt<Octs: OctetsMut>(message: &mut Message<Octs>) -> Result<bool, EditError>
    ensures removes { RemovesOpt (message_octets message.old) (message_octets message.new) result }
    ensures loan { Octs.loan (buffer_of message.new) ≡ Octs.loan (buffer_of message.old) }
{
    let count = message.header_counts().arcount();
    match find_opt(message) {
        Err(error) => Err(EditError::Parse(error)),
        Ok(None) => Ok(false),
        Ok(Some((before, _opt))) => {
            if before + 1 < count {
                return Err(EditError::NotLast);
            }
            message.remove_last_additional();
            Ok(true)
        }
    }
}

/// The first additional OPT record, and the number of additional records before it.
pub(crate) fn find_opt<Octs: Octets>(
    message: &Message<Octs>,
) -> Result<Option<(u16, Span)>, ParseError>
    ensures { FindsFirstOpt (message_octets message.now) result }
{
    let start = message.additional()?.pos();
    first_opt_of(message.as_slice(), start, message.header_counts().arcount())
}

/// The first OPT record of `count` records from offset `start` on, and the number of those before
/// it.
fn first_opt_of(octets: &[u8], start: usize, count: u16) -> Result<Option<(u16, Span)>, ParseError>
    requires { start ≤ length octets.now }
    ensures { FindsOpt octets.now start count result }
{
    let mut pos = start;
    for before in 0..count {
        let span = span_at(octets, pos)?;
        if span.rtype == 41 {
            return Ok(Some((before, span)));
        }
        pos = span.end;
    }
    Ok(None)
}
