//! A message under construction, the items that it takes, and why it refuses one.
ghost use Rattle.std.specs.Prelude.{◌≡◌};
ghost use Rattle.dnsm_put.specs.Drafts.{empty_draft};

use dns_code::HeaderSection;
use dnsm_status::CallError;
use thiserror::Error;

/// A message under construction, which the caller owns. Its buffer isn't part of it.
#[repr(C)]
#[derive(Clone, Copy)]
pub struct Draft {
    /// The length of the message so far, in octets.
    pub len: usize,
    /// The maximum length of the message, in octets.
    pub limit: usize,
    /// The octets to keep free at the end.
    pub reserved: usize,
    /// The ID of the header section.
    pub id: u16,
    /// The third and fourth octets of the header section (RFC 1035 section 4.1.1).
    pub flags: u16,
    /// The number of items in each section.
    pub counts: [u16; 4],
    /// The section of the last item.
    pub section: u8,
    /// 0 if the RDATA of each record is checked by the fields of its type. Otherwise only the names
    /// of types of RFC 1035 are.
    pub unchecked: u8,
    /// Offsets at which names may begin. They may have any values.
    pub hints: [u16; 64],
}

/// A question or a record to write.
#[repr(C)]
#[derive(Clone, Copy)]
pub struct PutItem<'a> {
    /// The uncompressed octets of the name.
    pub name: &'a [u8],
    /// The RDATA, with any names in it uncompressed. That of a question is ignored.
    pub rdata: &'a [u8],
    /// In seconds. That of a question is ignored.
    pub ttl: u32,
    pub rtype: u16,
    pub class: u16,
    /// 0 is the question section; 1, 2 and 3 are answer, authority and additional.
    pub section: u8,
}

/// Why an item isn't put, in the order of the checks.
#[derive(Clone, Copy, Debug, Error)]
pub enum PutError {
    /// The section exceeds 3, or is before that of the last item.
    #[error("the section exceeds 3 or is before that of the last item")]
    BadSection,
    /// The octets of the name aren't exactly one uncompressed name.
    #[error("the octets are no uncompressed name")]
    BadName,
    /// The RDATA of a record has more than 65,535 octets.
    #[error("the RDATA has more than 65,535 octets")]
    LongData,
    /// The RDATA isn't what its record type consists of (RFC 1035 section 3.3).
    #[error("the octets are no RDATA of the record type")]
    BadData,
    /// The section has 65,535 items.
    #[error("the section has 65,535 items")]
    TooMany,
    /// The buffer or the limit has no room for the item.
    #[error("the buffer or the limit has no room for the item")]
    NoRoom,
}

impl From<PutError> for CallError {
    ghost use Rattle.dnsm_put.specs.Refusals.{put_fault};

    ghost from_gives = { λ error fault. fault ≡ put_fault error };

    fn from(error: PutError) -> Self {
        match error {
            PutError::BadSection => CallError::BadSection,
            PutError::BadName => CallError::BadText,
            PutError::LongData => CallError::LongData,
            PutError::BadData => CallError::BadData,
            PutError::TooMany => CallError::TooMany,
            PutError::NoRoom => CallError::NoRoom,
        }
    }
}

/// Makes a draft one without items, limit, reserved octets and hints.
#[inline(always)]
pub(crate) fn clear(draft: &mut Draft, id: u16, flags: u16)
    ensures { draft.new ≡ empty_draft id flags }
{
    draft.len = HeaderSection::LEN;
    draft.limit = usize::MAX;
    draft.reserved = 0;
    draft.id = id;
    draft.flags = flags;
    draft.counts = [0; 4];
    draft.section = 0;
    draft.unchecked = 0;
    draft.hints = [0; 64];
}
