ghost use Rattle.std.specs.Prelude.{◌≡◌, ◌≤◌, ◌+◌, length, take, replicate, slice_range};

use crate::counts::HeaderCounts;
use crate::header::Header;
use dns_name::Parser;
use dns_octets::{AppendError, ParseError};
use dns_wire::Composer;

/// The first twelve octets of a message: the header, then the counts (RFC 1035 section 4.1.1).
#[derive(Clone, Copy, Debug, PartialEq, Eq)]
pub struct HeaderSection {
    octets: [u8; HeaderSection::LEN],
}

/// All bits are 0, as in `HeaderSection::new`.
impl Default for HeaderSection {
    ghost use Rattle.dns_code.specs.HeaderSection.{header_size, section_octets};

    ghost is_default = { λ section. section_octets section ≡ replicate header_size 0 };

    fn default() -> Self {
        HeaderSection::new()
    }
}

impl HeaderSection {
    ghost use Rattle.dns_name.specs.Parsers.{seen, offset, Takes};
    ghost use Rattle.dns_wire.specs.Encoders.{encode_octets};
    ghost use Rattle.dns_wire.specs.Targets.{Appends};
    ghost use Rattle.dns_code.specs.Header.{header_octets};
    ghost use Rattle.dns_code.specs.HeaderCounts.{counts_octets};
    ghost use Rattle.dns_code.specs.HeaderSection.{header_size, section_octets, section_header, section_counts};

    /// The length of a header section in octets (RFC 1035 section 4.1.1).
    pub const LEN: usize = 12;

    /// A header section with all bits 0.
    pub fn new() -> Self
        ensures { section_octets result ≡ replicate header_size 0 }
    {
        HeaderSection {
            octets: [0; HeaderSection::LEN],
        }
    }

    /// Copies the header section of a message, its first twelve octets.
    pub fn for_message_slice(message: &[u8]) -> Self
        requires { header_size ≤ length message.now }
        ensures { section_octets result ≡ take header_size message.now }
    {
        let mut octets = [0; HeaderSection::LEN];
        octets.copy_from_slice(&message[..HeaderSection::LEN]);
        HeaderSection { octets }
    }

    /// Reads twelve octets and advances past them. If fewer remain, it returns `ShortInput` and the
    /// parser doesn't move.
    pub fn parse(parser: &mut Parser<'_>) -> Result<Self, ParseError>
        ensures { Takes parser.old parser.new header_size result (λ section.
            section_octets section
            ≡ slice_range (seen parser.old) (offset parser.old) (offset parser.old + header_size)) }
    {
        let octets = parser.peek(HeaderSection::LEN)?;
        parser.advance(HeaderSection::LEN)?;
        Ok(HeaderSection::for_message_slice(octets))
    }

    /// Appends the twelve octets. A failed append changes nothing.
    pub fn compose<T: Composer>(&self, target: &mut T) -> Result<(), AppendError>
        ensures { Appends T.capacity T.grows (encode_octets (section_octets self.now))
            (T.written target.old) (T.written target.new) result }
    {
        target.append_slice(&self.octets)
    }

    /// The twelve octets as in a message.
    pub fn as_slice(&self) -> &[u8]
        ensures octets { result.now ≡ section_octets self.now }
        ensures length { length result.now ≡ header_size }
    {
        &self.octets
    }

    /// The header.
    pub fn header(&self) -> Header
        ensures { result ≡ section_header self.now }
    {
        Header::for_message_slice(&self.octets)
    }

    /// The counts.
    pub fn counts(&self) -> HeaderCounts
        ensures { result ≡ section_counts self.now }
    {
        HeaderCounts::for_message_slice(&self.octets)
    }

    /// Sets the header. The counts stay.
    pub fn set_header(&mut self, header: Header)
        ensures header { section_header self.new ≡ header }
        ensures counts { section_counts self.new ≡ section_counts self.old }
    {
        self.octets[..4].copy_from_slice(header.as_slice());
    }

    /// Sets the counts. The header stays.
    pub fn set_counts(&mut self, counts: HeaderCounts)
        ensures header { section_header self.new ≡ section_header self.old }
        ensures counts { section_counts self.new ≡ counts }
    {
        self.octets[4..].copy_from_slice(counts.as_slice());
    }
}
