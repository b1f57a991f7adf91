ghost use Rattle.std.specs.Prelude.{◌≡◌, ℕ, ◌+◌, ◌<◌, ◌≤◌, length, OnOk, IfOk, IsOk, Ok, get_or};

use dns_octets::{FormError, ParseError};

/// What begins at an offset in a name (RFC 1035 section 4.1.4).
#[derive(Clone, Copy, Debug, PartialEq, Eq)]
pub enum Head {
    /// A zero octet: the root label, which ends the name.
    Root,
    /// A length octet of 1 to 63, followed by that many octets of a label.
    Label(u8),
    /// A pointer to an offset from the start of the message.
    Pointer(u16),
}

/// Consecutive labels and what ends them.
#[derive(Clone, Copy)]
pub(crate) struct LabelRow {
    /// The offset after the labels, where the root label or a pointer begins.
    pub(crate) end: usize,
    /// The number of labels.
    pub(crate) count: usize,
    /// The offset that the pointer leads to, or `None` for the root label.
    pub(crate) target: Option<u16>,
}

impl Head {
    ghost use Rattle.dns_name.specs.Names.{head_at, max_size, Reads, BeginsOrFails};
    ghost use Rattle.dns_name.specs.CachedNames.{IsInReach, SkipsLabelsOrFails};

    /// The maximum size of a name's labels in octets, each with its length octet: 255 less the
    /// root's zero octet (RFC 1035 section 2.3.4).
    pub const MAX_SIZE: usize = 254;

    /// The first offset that no pointer leads to, since a pointer has 14 bits (RFC 1035 section
    /// 4.1.4).
    pub const POINTER_END: usize = 16_384;

    /// Returns what begins at offset `offset` in a name (RFC 1035 section 4.1.4).
    ///
    /// It reads one octet, and for a pointer two. It doesn't check that the label is complete or
    /// where the pointer leads.
    ///
    /// Errors: `BAD_LABEL` if the octet has the high bits 01 or 10; `ShortInput` if an octet is
    /// missing.
    #[tactic(auto, unfolding(crate::specs::Names::head_at))]
    pub fn at(octets: &[u8], offset: usize) -> Result<Head, ParseError>
        ensures head { Reads result (head_at octets.now offset) }
        ensures within { OnOk result (offset < length octets.now) }
        ensures in_reach { IfOk result (λ head. IsInReach head) }
    {
        let first = *octets.get(offset).ok_or(ParseError::ShortInput)?;
        match first {
            0 => Ok(Head::Root),
            1..64 => Ok(Head::Label(first)),
            64..192 => Err(ParseError::Form(FormError::BAD_LABEL)),
            192.. => {
                let second = *octets.get(offset + 1).ok_or(ParseError::ShortInput)?;
                Ok(Head::Pointer(u16::from(first - 192) * 256 + u16::from(second)))
            }
        }
    }

    /// Returns the octet at offset `offset`, where a root label, a label or a pointer is known to
    /// begin. It is the length of a label, and 0 for the root label.
    #[inline(always)]
    #[tactic(auto, unfolding(crate::specs::Names::head_at))]
    pub(crate) fn first(octets: &[u8], offset: usize) -> u8
        requires { IsOk (head_at octets.now offset) }
        ensures value { result ≡ get_or octets.now offset 0 }
        ensures within { offset < length octets.now }
        ensures root { result ≡ 0 → head_at octets.now offset ≡ Ok Head.Root }
        ensures label { 0 < result → result < 192
            → head_at octets.now offset ≡ Ok (Head.Label result) }
    {
        octets[offset]
    }

    /// Returns the offset that the pointer at offset `offset` leads to. A pointer is known to be
    /// there.
    #[inline(always)]
    #[tactic(auto, unfolding(crate::specs::Names::head_at))]
    pub(crate) fn target(octets: &[u8], offset: usize) -> usize
        requires known { IsOk (head_at octets.now offset) }
        requires pointer { 192 ≤ get_or octets.now offset 0 }
        ensures { head_at octets.now offset ≡ Ok (Head.Pointer result) }
    {
        usize::from(octets[offset] - 192) * 256 + usize::from(octets[offset + 1])
    }

    /// Returns what begins at offset `offset` in a name, after labels of `size` octets.
    ///
    /// A walk over the labels of a name calls it at each label. Each label adds its length and its
    /// length octet to the size, which starts at 0 and stays at most 254. So a caller that stops at
    /// the root label or a pointer skips a name.
    ///
    /// Errors: those of `at`; `LONG_NAME` if a label would make the name too long; `ShortInput` if
    /// a label runs past the end.
    pub fn after(octets: &[u8], offset: usize, size: usize) -> Result<Head, ParseError>
        requires { size ≤ max_size }
        ensures begins { BeginsOrFails octets.now offset size result }
        ensures in_reach { IfOk result (λ head. IsInReach head) }
    {
        let head = Head::at(octets, offset)?;
        if let Head::Label(len) = head {
            let taken = usize::from(len) + 1;
            if size + taken > Head::MAX_SIZE {
                return Err(ParseError::Form(FormError::LONG_NAME));
            }
            if taken > octets.len() - offset {
                return Err(ParseError::ShortInput);
            }
        }
        Ok(head)
    }

    /// Skips the consecutive labels at offset `start` in a name, after labels of `size` octets.
    /// Returns the leftmost error of the name there if the labels are malformed.
    #[inline(always)]
    pub(crate) fn after_labels(
        octets: &[u8],
        start: usize,
        size: usize,
    ) -> Result<LabelRow, ParseError>
        requires within { start ≤ length octets.now }
        requires short { size ≤ max_size }
        ensures { SkipsLabelsOrFails octets.now start size result }
    {
        let longest = start + (Head::MAX_SIZE - size);
        let mut pos = start;
        let mut count = 0;
        'walk: loop {
            match Head::at(octets, pos)? {
                Head::Root => {
                    return Ok(LabelRow {
                        end: pos,
                        count,
                        target: None,
                    });
                }
                Head::Label(len) => pos += usize::from(len) + 1,
                Head::Pointer(target) => {
                    return Ok(LabelRow {
                        end: pos,
                        count,
                        target: Some(target),
                    });
                }
            }
            if pos > longest {
                return Err(ParseError::Form(FormError::LONG_NAME));
            }
            count += 1;
        }
    }
}
