//! Plain RDATA, as in RFC 1035 sections 3.3 and 3.4 and RFC 6891 section 6.1.2.
ghost use Rattle.std.specs.Prelude.{◌≤◌};

use crate::hostile::buffer::Buffer;
use crate::hostile::plain::{Entry, Header, Located, header_at, name_at};
use dns_wire::{FormError, ParseError};
use tests_plain::{EntryKind, entry_end};

/// Whether the octets are a list of options, each with a code, a length and that many octets
/// (RFC 6891 section 6.1.2).
pub(crate) fn has_options(octets: &[u8]) -> bool {
    let [_, _, high, low, rest @ ..] = octets else {
        return octets.is_empty();
    };
    match rest.get(usize::from(u16::from_be_bytes([*high, *low]))..) {
        Some(after) => has_options(after),
        None => false,
    }
}

/// `len` octets from this offset on.
pub(crate) fn octets_at(octets: &[u8], offset: usize, len: usize) -> Located<Buffer> {
    match octets.get(offset..).and_then(|after| after.get(..len)) {
        Some(octets) => Ok((Buffer::of(octets), offset.saturating_add(len))),
        None => Err(ParseError::ShortInput),
    }
}

/// The names of SOA, and its five numbers.
fn soa_at(seen: &[u8], offset: usize) -> Located<Buffer> {
    let (mname, offset) = name_at(seen, offset)?;
    let (rname, offset) = name_at(seen, offset)?;
    let (numbers, end) = octets_at(seen, offset, 20)?;
    let names = mname.with(rname.as_slice());
    Ok((names.with(numbers.as_slice()), end))
}

/// All octets from this offset on, which have to be options.
fn options_at(seen: &[u8], offset: usize) -> Located<Buffer> {
    match seen.get(offset..) {
        Some(options) if has_options(options) => Ok((Buffer::of(options), seen.len())),
        _ => Err(ParseError::ShortInput),
    }
}

/// The RDATA of this record type from this offset on, its names uncompressed, or its leftmost
/// error. The types are A, NS, CNAME, SOA and OPT.
pub(crate) fn data_at(seen: &[u8], offset: usize, rtype: u16) -> Located<Buffer> {
    match rtype {
        1 => octets_at(seen, offset, 4),
        2 | 5 => name_at(seen, offset),
        6 => soa_at(seen, offset),
        _ => options_at(seen, offset),
    }
}

/// The record with its RDATA, whose names are uncompressed, or `None` if it has another type. The
/// value has to take all of the RDATA, and its names end within it.
pub(crate) fn typed_of(
    octets: &[u8],
    record: Located<Entry>,
    rtype: u16,
) -> Result<Option<Entry>, ParseError> {
    let (entry, end) = record?;
    if entry.rtype != rtype {
        return Ok(None);
    }
    let start = end.saturating_sub(entry.data.as_slice().len());
    let seen = octets.get(..end).ok_or(ParseError::ShortInput)?;
    let (data, after) = data_at(seen, start, rtype)?;
    if after == end {
        Ok(Some(Entry { data, ..entry }))
    } else {
        Err(ParseError::Form(FormError::TRAILING_DATA))
    }
}

/// The record header at this offset, whose RDATA has to be complete, and the offset after the
/// RDATA.
pub(crate) fn header_skipped(octets: &[u8], offset: usize) -> Located<Header> {
    let (header, _) = header_at(octets, offset)?;
    Ok((header, entry_end(octets, EntryKind::Record, offset)?))
}

/// Checks that all the octets are one uncompressed name whose labels so far take `size` octets
/// (RFC 1035 section 3.1).
fn check_name(octets: &[u8], size: usize) -> Result<(), ParseError>
    requires { size ≤ 254 }
{
    match octets {
        [] | [192..=255] => Err(ParseError::ShortInput),
        [0] => Ok(()),
        [first @ 1..=63, after @ ..] => {
            let len = usize::from(*first);
            if size + len + 1 > 254 {
                return Err(ParseError::Form(FormError::LONG_NAME));
            }
            match after.get(len..) {
                Some(rest) => check_name(rest, size + len + 1),
                None => Err(ParseError::ShortInput),
            }
        }
        [0, ..] => Err(ParseError::Form(FormError::LONG_NAME)),
        [64..=191, ..] => Err(ParseError::Form(FormError::BAD_LABEL)),
        _ => Err(ParseError::Form(FormError::BAD_POINTER)),
    }
}

/// The name that all of these octets are: its labels, and the octets themselves.
pub(crate) fn whole_name(octets: &[u8]) -> Result<[Buffer; 2], ParseError> {
    check_name(octets, 0)?;
    Ok([Buffer::of(octets); 2])
}
