ghost use Rattle.std.specs.Prelude.{◌≡◌, ℕ, List, ◌+◌, ◌↔◌, ◌≤◌, IsTrue, IsSome, IfOk, IfSome, [], length};
ghost use Rattle.dns_name.specs.Unique.{NameOfSizeAndCount, NameOfSizeAndCount-prop};

use crate::cached_name::CachedName;
use crate::cached_reading::parse_cached;
use crate::head::Head;
use crate::label_iter::LabelIter;
use crate::parser::Parser;
use dns_octets::{FormError, ParseError};

/// A name in an input, perhaps with pointers (RFC 1035 section 4.1.4). It borrows the input.
#[derive(Clone, Copy, Debug)]
pub struct ParsedName<'a> {
    pub(crate) octets: &'a [u8],
    pub(crate) pos: usize,
    /// The octets that the labels take, each with its length octet, without the root label.
    pub(crate) size: u32,
    /// The number of labels, without the root label.
    pub(crate) count: u32,
    ghost name_at: { NameOfSizeAndCount octets.now pos size count } by { NameOfSizeAndCount-prop octets.now pos size count },
}

/// What a walk over a name finds.
#[derive(Clone, Copy)]
pub(crate) struct NameExtent {
    /// The offset after the encoding of the name: after its root label or first pointer.
    pub(crate) end: usize,
    /// The octets that the labels take, each with its length octet, without the root label.
    pub(crate) size: usize,
    /// The number of labels, without the root label.
    pub(crate) count: usize,
}

impl<'a> ParsedName<'a> {
    ghost use Rattle.dns_name.specs.Names.{Labels, max_size, uncompressed, with_root, NameAt};
    ghost use Rattle.dns_name.specs.Parsers.{seen, offset};
    ghost use Rattle.dns_name.specs.CachedNames.{IsCached, ArrivesOrFails, MeasuresOrFails};
    ghost use Rattle.dns_name.specs.ParsedName.{labels, BeginsAt, ParsesName, SkipsName, ReadsEncoded, IsFlat, labels_left};
    ghost use Rattle.dns_name.specs.Uncompressed.{WholeName};

    /// Reads the name at the parser's offset and moves past its encoding.
    ///
    /// A name takes at most 255 octets without pointers, and a pointer leads strictly back. The
    /// parser's end bounds the octets that pointers lead to as well.
    ///
    /// Errors: `ShortInput` if an octet is missing; `BAD_LABEL` if a length octet has the high bits
    /// 01 or 10; `BAD_POINTER` if a pointer doesn't lead strictly back; `LONG_NAME` if the name has
    /// more than 255 octets. The leftmost error is returned.
    #[inline(always)]
    pub fn parse(parser: &mut Parser<'a>) -> Result<ParsedName<'a>, ParseError>
        ensures reads { ParsesName parser.old parser.new result }
        ensures name { ReadsEncoded (seen parser.old) (offset parser.old) result }
        ensures begins { IfOk result (BeginsAt (seen parser.old) (offset parser.old)) }
    {
        parse_cached(parser, &mut CachedName::new())
    }

    /// Returns the end of the name at offset `start`, the octets that its labels take, and the
    /// number of its labels. Uses and updates the cached name `cached`.
    #[inline(always)]
    pub(crate) fn walk(
        octets: &[u8],
        start: usize,
        cached: &mut CachedName,
    ) -> Result<NameExtent, ParseError>
        requires within { start ≤ length octets.now }
        requires cached { IsCached octets.now cached.old }
        ensures arrives { ArrivesOrFails octets.now start result }
        ensures cached { IsCached octets.now cached.new }
    {
        if cached.is_pointed_to(octets, start) {
            return Ok(NameExtent {
                end: start + 2,
                size: usize::from(cached.size),
                count: usize::from(cached.count),
            });
        }
        let row = Head::after_labels(octets, start, 0)?;
        let before = row.end - start;
        let Some(target) = row.target else {
            return Ok(NameExtent {
                end: row.end + 1,
                size: before,
                count: row.count,
            });
        };
        if usize::from(target) >= row.end {
            return Err(ParseError::Form(FormError::BAD_POINTER));
        }
        let known = before + usize::from(cached.size);
        if target == cached.pos && known <= Head::MAX_SIZE {
            return Ok(NameExtent {
                end: row.end + 2,
                size: known,
                count: row.count + usize::from(cached.count),
            });
        }
        let (size, count) = ParsedName::size_at(octets, target, before)?;
        *cached = CachedName::at(octets, target, size, count);
        Ok(NameExtent {
            end: row.end + 2,
            size: before + size,
            count: row.count + count,
        })
    }

    /// Returns the octets that the labels of the name at offset `start` take, and their number. A
    /// pointer leads to this name, after labels of `before` octets.
    #[inline(always)]
    fn size_at(octets: &[u8], start: u16, before: usize) -> Result<(usize, usize), ParseError>
        requires within { start ≤ length octets.now }
        requires short { before ≤ max_size }
        ensures { MeasuresOrFails octets.now start before result }
    {
        let mut pos = usize::from(start);
        let mut size = before;
        let mut count = 0;
        'walk: loop {
            let row = Head::after_labels(octets, pos, size)?;
            size += row.end - pos;
            count += row.count;
            let Some(target) = row.target else {
                return Ok((size - before, count));
            };
            pos = usize::from(target);
            if pos >= row.end {
                return Err(ParseError::Form(FormError::BAD_POINTER));
            }
        }
    }

    /// Skips a name without following its pointer.
    ///
    /// Errors: `ShortInput` if an octet is missing, `BAD_LABEL` or `LONG_NAME` as in `parse`.
    pub fn skip(parser: &mut Parser<'_>) -> Result<(), ParseError>
        ensures { SkipsName parser.old parser.new result }
    {
        let octets = &parser.octets[..parser.end];
        let start = parser.pos;
        let mut pos = start;
        let mut size = 0;
        let end = 'walk: loop {
            match Head::after(octets, pos, size)? {
                Head::Root => break pos + 1,
                Head::Label(len) => {
                    let taken = usize::from(len) + 1;
                    size += taken;
                    pos += taken;
                }
                Head::Pointer(_target) => break pos + 2,
            }
        };
        parser.pos = end;
        Ok(())
    }

    /// Returns the name in `octets`, which are known to be exactly one uncompressed name.
    pub(crate) fn of_whole(octets: &'a [u8]) -> ParsedName<'a>
        requires { WholeName octets.now }
        ensures { (name : Labels) → NameAt octets.now 0 name → labels result ≡ name }
    {
        ParsedName {
            octets,
            pos: 0,
            size: (octets.len() - 1) as u32,
            count: ParsedName::count_whole(octets) as u32,
        }
    }

    /// Counts the labels of the name in `octets`, which are known to be exactly one uncompressed
    /// name. The root label isn't counted.
    fn count_whole(octets: &[u8]) -> usize
        requires { WholeName octets.now }
        ensures { (name : Labels) → NameAt octets.now 0 name → result ≡ length name }
    {
        let mut pos = 0;
        let mut count = 0;
        'walk: loop {
            let len = Head::first(octets, pos);
            if len == 0 {
                return count;
            }
            pos += usize::from(len) + 1;
            count += 1;
        }
    }

    /// Iterates over the labels from both ends. The root label is the last.
    pub fn iter_labels(&self) -> LabelIter<'a>
        ensures { labels_left result ≡ with_root (labels self.now) }
    {
        LabelIter::new(self.octets, self.pos, self.size as usize)
    }

    /// Returns whether this is the root name, which has only the root label.
    pub fn is_root(&self) -> bool
        ensures { IsTrue result ↔ (labels self.now ≡ []) }
    {
        self.size == 0
    }

    /// Returns the octets of the name if it has no pointers.
    pub fn as_flat_slice(&self) -> Option<&'a [u8]>
        ensures flat { IsSome result ↔ IsFlat self.now }
        ensures octets { IfSome result (λ octets. octets.now ≡ uncompressed (labels self.now)) }
    {
        let mut pos = self.pos;
        'walk: loop {
            match Head::at(self.octets, pos).unwrap() {
                Head::Root => {
                    let end = self.pos + self.compose_len();
                    return Some(&self.octets[self.pos..end]);
                }
                Head::Label(len) => pos += usize::from(len) + 1,
                Head::Pointer(_) => return None,
            }
        }
    }

    /// Returns the length of the uncompressed name in octets, with the root's zero octet: 1 to 255.
    pub fn compose_len(&self) -> usize
        ensures { result ≡ length (uncompressed (labels self.now)) }
    {
        self.size as usize + 1
    }

    /// Returns the number of labels, with the root label: 1 to 128.
    pub fn label_count(&self) -> usize
        ensures { result ≡ length (with_root (labels self.now)) }
    {
        self.count as usize + 1
    }
}
