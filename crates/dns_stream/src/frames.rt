//! The frames in octets of a stream (RFC 1035 section 4.2.2).
ghost use Rattle.std.specs.Prelude.{◌≡◌, ◌≤◌, length, IfOk, IfErr, IfSome, IfNone, OnOk};
ghost use Rattle.dns_code.specs.HeaderSection.{header_size};
ghost use Rattle.dns_read.specs.Message.{message_octets};
ghost use Rattle.dns_stream.specs.Frames.{first_length, Accepts, AreMissing, BeginsWith, IsPartial, Refuses};
ghost use Rattle.dns_stream.specs.Beginnings.{IsBeginning};

use crate::error::FrameError;
use dns_code::HeaderSection;
use dns_read::Message;

/// The octets of the length before a message.
pub(crate) const PREFIX_LEN: usize = 2;

/// The octets of the longest frame: two of the length, and 65,535 of the message.
pub const MAX_FRAME: usize = 65_537;

/// The first message of a stream, and the octets after its frame, or `None` if octets of its frame
/// are missing.
///
/// `octets` begin with the length of a message. `most` is the maximum number of octets of a frame
/// that is accepted, such as [`MAX_FRAME`].
///
/// Errors come as soon as the length is there: `Short` if it is less than 12, `Long` if the frame
/// has more than `most` octets.
pub fn first_message(
    octets: &[u8],
    most: usize,
) -> Result<Option<(Message<&[u8]>, &[u8])>, FrameError>
    ensures message { IfOk result (λ found. IfSome found
        (λ first. BeginsWith octets.now (message_octets first.0) first.1.now)) }
    ensures none { IfOk result (λ found. IfNone found (IsPartial octets.now)) }
    ensures accepted { OnOk result (Accepts most octets.now) }
    ensures refused { IfErr result (Refuses most octets.now) }
{
    match beginning_of(octets, most) {
        Beginning::Frame(len) => {
            let end = PREFIX_LEN + len;
            let (_, after) = octets.split_at(end);
            Ok(Some((long_message(&octets[PREFIX_LEN..end]), after)))
        }
        Beginning::Partial => Ok(None),
        Beginning::Refused(error) => Err(error),
    }
}

/// The number of octets that are missing from the first frame of a stream: from its length or, once
/// that is there, from its message.
///
/// `octets` begin with the length of a message. It is 0 exactly if the frame is complete.
pub fn missing_octets(octets: &[u8]) -> usize
    ensures { AreMissing octets.now result }
{
    if octets.len() < PREFIX_LEN {
        return PREFIX_LEN - octets.len();
    }
    (PREFIX_LEN + length_of(octets)).saturating_sub(octets.len())
}

/// What the octets of a stream begin with.
#[derive(Clone, Copy, Debug)]
pub(crate) enum Beginning {
    /// A frame whose message has this length.
    Frame(usize),
    /// Less than a frame.
    Partial,
    /// A length that is refused.
    Refused(FrameError),
}

/// What the octets begin with, if frames of at most `most` octets are accepted.
pub(crate) fn beginning_of(octets: &[u8], most: usize) -> Beginning
    ensures { IsBeginning most octets.now result }
{
    if octets.len() < PREFIX_LEN {
        return Beginning::Partial;
    }
    let len = length_of(octets);
    if len < HeaderSection::LEN {
        return Beginning::Refused(FrameError::Short);
    }
    if PREFIX_LEN + len > most {
        return Beginning::Refused(FrameError::Long);
    }
    if PREFIX_LEN + len > octets.len() {
        return Beginning::Partial;
    }
    Beginning::Frame(len)
}

/// The length of the first message.
fn length_of(octets: &[u8]) -> usize
    requires { 2 ≤ length octets.now }
    ensures value { result ≡ first_length octets.now }
    ensures small { result ≤ 65535 }
{
    let prefix = &octets[..PREFIX_LEN];
    usize::from(u16::from_be_bytes([prefix[0], prefix[1]]))
}

/// The message in octets that are known to be at least 12.
pub(crate) fn long_message(octets: &[u8]) -> Message<&[u8]>
    requires { header_size ≤ length octets.now }
    ensures { message_octets result ≡ octets.now }
{
    Message::from_slice(octets).unwrap()
}
