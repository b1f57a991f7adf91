ghost use Rattle.std.specs.Prelude.{◌≡◌, ◌+◌, ◌≤◌, length};
ghost use Rattle.std.specs.Int.{w16};
ghost use Rattle.dns_name.specs.Parsers.{number_at};
ghost use Rattle.dns_read.specs.Message.{buffer_of, message_octets};
ghost use Rattle.dns_edit.specs.Options.{FindsOptionIn, FindsOption, ReplacesOption, ReadsOption};

use crate::error::EditError;
use crate::opt::find_opt;
use dns_iana::OptionCode;
use dns_octets::{Octets, OctetsMut, ParseError};
use dns_read::Message;

/// Replaces the data of the first option with this code (RFC 6891 section 6.1.2), in the first OPT
/// record of the additional section, by `octets` of the same length. Returns whether there is one.
///
/// A forwarder replaces a cookie or a client subnet so. No other octet changes.
///
/// Returns `OptionLength` if the option has another length, and `Parse` if an entry before the OPT
/// record, or the record, can't be skipped, or if this option or one before it runs past the RDATA.
/// The message then stays as it is.
pub fn replace_option<Octs: OctetsMut>(
    message: &mut Message<Octs>,
    code: OptionCode,
    octets: &[u8],
) -> Result<bool, EditError>
    ensures replaces { ReplacesOption code octets.now (message_octets message.old)
        (message_octets message.new) result }
    ensures loan { Octs.loan (buffer_of message.new) ≡ Octs.loan (buffer_of message.old) }
{
    match find_option(message, code) {
        Err(error) => Err(EditError::Parse(error)),
        Ok(None) => Ok(false),
        Ok(Some((start, len))) => {
            if len != octets.len() {
                return Err(EditError::OptionLength);
            }
            message.overwrite(start, octets);
            Ok(true)
        }
    }
}

/// The offset and the length of the data of the first option with this code, in the first OPT
/// record of the additional section.
fn find_option<Octs: Octets>(
    message: &Message<Octs>,
    code: OptionCode,
) -> Result<Option<(usize, usize)>, ParseError>
    ensures { FindsOption code (message_octets message.now) result }
{
    match find_opt(message) {
        Err(error) => Err(error),
        Ok(None) => Ok(None),
        Ok(Some((_before, opt))) => {
            find_option_in(message.as_slice(), opt.fields + 10, opt.end, code.to_int())
        }
    }
}

/// The offset and the length of the data of the first option with this code, in RDATA from offset
/// `start` to `end`.
fn find_option_in(
    octets: &[u8],
    start: usize,
    end: usize,
    code: u16,
) -> Result<Option<(usize, usize)>, ParseError>
    requires ordered { start ≤ end }
    requires within { end ≤ length octets.now }
    ensures { FindsOptionIn code octets.now start end result }
{
    let mut pos = start;
    while pos < end {
        match option_at(octets, pos, end) {
            None => return Err(ParseError::ShortInput),
            Some((each, len)) => {
                if each == code {
                    return Ok(Some((pos + 4, len)));
                }
                pos += 4 + len;
            }
        }
    }
    Ok(None)
}

/// The code and the length of the option at offset `start`, or `None` if it doesn't end within
/// RDATA that ends at `end`.
fn option_at(octets: &[u8], start: usize, end: usize) -> Option<(u16, usize)>
    requires ordered { start ≤ end }
    requires within { end ≤ length octets.now }
    ensures { ReadsOption octets.now end start result }
{
    let left = end - start;
    if left < 4 {
        return None;
    }
    let len = usize::from(u16_at(octets, start + 2));
    if left - 4 < len {
        return None;
    }
    Some((u16_at(octets, start), len))
}

/// The 16-bit number at offset `at`.
fn u16_at(octets: &[u8], at: usize) -> u16
    requires { at + 2 ≤ length octets.now }
    ensures { result ≡ number_at w16 octets.now at }
{
    let number = &octets[at..at + 2];
    u16::from_be_bytes([number[0], number[1]])
}
