//! Writes names, and compresses them by hints (RFC 1035 section 4.1.4).
ghost use Rattle.std.specs.Prelude.{◌≡◌, ℕ, ◌+◌, ◌<◌, ◌≤◌, length, take, get_or, true, false, IfSome, IsSome};
ghost use Rattle.dns_code.specs.HeaderSection.{header_size};
ghost use Rattle.dns_name.specs.Names.{Labels, IsName, pointer_end, uncompressed};
ghost use Rattle.dns_name.specs.Uncompressed.{IsUncompressed};
ghost use Rattle.dns_wire.specs.Encoders.{pointer};
ghost use Rattle.dns_wire.specs.TargetLaws.{NameAtWithin};
ghost use Rattle.dnsm_put.specs.Writing.{HintsWithin, IsNamed, LeadsTo};

use crate::octets::put_octets;
use dns_code::HeaderSection;
use dns_name::{Head, Label, Name};
use dnsm_read::octets::{number_in, same};

/// The index of the hint that has the name that a pointer led to last.
const LAST: usize = 63;

/// How many hints a hash can choose as the first to try.
const STARTS: u64 = 60;

/// How many hints are tried for each suffix of a name.
const TRIES: usize = 4;

/// 2^64 divided by the golden ratio: products with it differ in their upper bits.
const SPREAD: u64 = 0x9E37_79B9_7F4A_7C15;

/// 2^32, by which a product is divided for its upper half.
const HALF: u64 = 0x1_0000_0000;

/// How many labels and pointers of an earlier name are compared.
const MOST_STEPS: usize = 64;

/// Whether the octets are exactly one uncompressed name.
pub(crate) fn is_name(octets: &[u8]) -> bool
    ensures yes { result ≡ true → IsUncompressed octets.now }
    ensures no { result ≡ false → IsUncompressed octets.now → ⊥ }
{
    if octets.len() > Name::MAX_LEN {
        return false;
    }
    let mut i = 0;
    while i < octets.len() {
        let n = usize::from(octets[i]);
        if n == 0 {
            return i + 1 == octets.len();
        }
        if n > Label::MAX_LEN {
            return false;
        }
        i += 1 + n;
    }
    false
}

/// Whether the name at `offset` is the uncompressed `name`, and uses no octet of the header
/// section. False also after 64 labels and pointers.
fn leads_to(octets: &[u8], offset: usize, name: &[u8]) -> bool
    ensures { result ≡ true → (n : Labels) → IsName n → name.now ≡ uncompressed n
        → NameAtWithin octets.now header_size (length octets.now) offset n }
{
    let mut at = offset;
    let mut i = 0;
    for _step in 0..MOST_STEPS {
        if at < HeaderSection::LEN || at >= octets.len() || i >= name.len() {
            return false;
        }
        let n = octets[at];
        if n >= 192 {
            if octets.len() - at < 2 {
                return false;
            }
            let to = usize::from(n - 192) * 256 + usize::from(octets[at + 1]);
            if to >= at {
                return false;
            }
            at = to;
        } else {
            if n != name[i] {
                return false;
            }
            if n == 0 {
                return true;
            }
            let size = 1 + usize::from(n);
            if size > octets.len() - at || size > name.len() - i {
                return false;
            }
            if !same(&octets[at..at + size], &name[i..i + size]) {
                return false;
            }
            at += size;
            i += size;
        }
    }
    false
}

/// Like `leads_to`, and the name at `offset` begins with a label as `name` does, not with a
/// pointer. First tries the usual case, that the octets of `name` are there.
#[inline(always)]
fn is_at(octets: &[u8], offset: usize, name: &[u8]) -> bool
    requires after_header { header_size ≤ offset }
    requires within { offset < length octets.now }
    requires some { 0 < length name.now }
    ensures name { result ≡ true → (n : Labels) → IsName n → name.now ≡ uncompressed n
        → NameAtWithin octets.now header_size (length octets.now) offset n }
    ensures first { result ≡ true → get_or octets.now offset 0 ≡ get_or name.now 0 0 }
{
    if octets[offset] != name[0] {
        return false;
    }
    if name.len() <= octets.len() - offset && same(&octets[offset..offset + name.len()], name) {
        return true;
    }
    leads_to(octets, offset, name)
}

/// The octets with which a name begins: its first label after the length octet, but at most eight
/// in all.
#[derive(Clone, Copy)]
struct Beginning {
    /// The octets as a number, little-endian.
    octets: u64,
    /// The bits that they take.
    mask: u64,
}

/// A name of fewer than eight octets as a number, little-endian.
fn short_name(name: &[u8]) -> u64
    requires { length name.now < 8 }
{
    let mut eight = [0; 8];
    eight[..name.len()].copy_from_slice(name);
    u64::from_le_bytes(eight)
}

/// How a name begins.
#[inline(always)]
fn beginning_of(name: &[u8]) -> Beginning
    requires { 0 < length name.now }
{
    let len = usize::from(name[0]);
    let mask = if len < 7 {
        u64::MAX >> (56 - 8 * len)
    } else {
        u64::MAX
    };
    let octets = if name.len() < 8 {
        short_name(name)
    } else {
        number_in(&name[..8])
    };
    Beginning {
        octets: octets & mask,
        mask,
    }
}

/// Whether the octets at `offset` differ from those of `beginning`. False also if fewer than eight
/// are left.
#[inline(always)]
fn begins_otherwise(octets: &[u8], offset: usize, beginning: Beginning) -> bool {
    if octets.len() < 8 || offset > octets.len() - 8 {
        return false;
    }
    let found = number_in(&octets[offset..offset + 8]);
    (found ^ beginning.octets) & beginning.mask != 0
}

/// The first hint to try for a name of `len` octets.
#[inline(always)]
fn first_hint(beginning: Beginning, len: usize) -> usize
    ensures { result < 60 }
{
    let hash = beginning
        .octets
        .wrapping_add(len as u64)
        .wrapping_mul(SPREAD);
    (hash / HALF * STARTS / HALF) as usize
}

/// Whether a pointer can lead to the offset in a hint, and the name there equals `name`.
#[inline(always)]
fn is_hinted(before: &[u8], hint: u16, name: &[u8]) -> bool
    requires { 0 < length name.now }
    ensures { result ≡ true → LeadsTo before.now hint name.now }
{
    let offset = usize::from(hint);
    if offset < HeaderSection::LEN || offset >= Head::POINTER_END || offset >= before.len() {
        return false;
    }
    is_at(before, offset, name)
}

/// Makes `own` a hint, if a pointer can lead there.
#[inline(always)]
fn keep(hints: &mut [u16; 64], slot: usize, own: usize)
    requires { slot < 64 }
    ensures { (end : ℕ) → header_size ≤ own → own < end → HintsWithin end hints.old
        → HintsWithin end hints.new }
{
    if own >= Head::POINTER_END {
        return;
    }
    hints[slot] = own as u16;
}

/// The offset of an earlier name that equals `name`, by the hints. If there is none, `own`, the
/// offset at which `name` is going to be, becomes a hint, if need be in place of another.
#[inline(never)]
fn find_by_hash(hints: &mut [u16; 64], before: &[u8], name: &[u8], own: usize) -> Option<u16>
    requires { 0 < length name.now }
    ensures leads { IfSome result (λ offset. LeadsTo before.now offset name.now) }
    ensures hints { (end : ℕ) → header_size ≤ own → own < end → HintsWithin end hints.old
        → HintsWithin end hints.new }
{
    let beginning = beginning_of(name);
    let first = first_hint(beginning, name.len());
    for k in 0..TRIES {
        let hint = hints[first + k];
        if hint == 0 {
            keep(hints, first + k, own);
            return None;
        }
        if !begins_otherwise(before, usize::from(hint), beginning)
            && is_hinted(before, hint, name)
        {
            hints[LAST] = hint;
            return Some(hint);
        }
    }
    keep(hints, first + own / 2 % TRIES, own);
    None
}

/// The offset of an earlier name that equals `name`: the name that a pointer led to last, or what
/// `find_by_hash` finds.
#[inline(always)]
fn find(hints: &mut [u16; 64], before: &[u8], name: &[u8], own: usize) -> Option<u16>
    requires { 0 < length name.now }
    ensures leads { IfSome result (λ offset. LeadsTo before.now offset name.now) }
    ensures hints { (end : ℕ) → header_size ≤ own → own < end → HintsWithin end hints.old
        → HintsWithin end hints.new }
{
    let last = hints[LAST];
    if is_hinted(before, last, name) {
        return Some(last);
    }
    find_by_hash(hints, before, name, own)
}

/// A pointer to `offset`.
fn pointer_to(offset: u16) -> [u8; 2]
    requires { offset < pointer_end }
    ensures { result ≡ pointer offset }
{
    [192 + (offset / 256) as u8, (offset % 256) as u8]
}

/// Writes a name at offset `at`, compressed. A pointer leads to an offset below `top`. Returns the
/// offset after the name, or `None` if it would be past `most`.
#[inline(always)]
pub(crate) fn put_name(
    hints: &mut [u16; 64],
    out: &mut [u8],
    at: usize,
    most: usize,
    top: usize,
    name: &[u8],
) -> Option<usize>
    requires most { most ≤ length out.old }
    requires at { at ≤ most }
    requires after_header { header_size ≤ at }
    requires top { top ≤ at }
    requires name { IsUncompressed name.now }
    ensures named { IfSome result (λ end. (n : Labels) → IsName n → name.now ≡ uncompressed n
        → IsNamed out.new top at end n) }
    ensures within { IfSome result (λ end. end ≤ most) }
    ensures after { IfSome result (λ end. at ≤ end) }
    ensures size { IfSome result (λ end. end ≤ at + length name.now) }
    ensures room { at + length name.now ≤ most → IsSome result }
    ensures hints { IfSome result (λ end. HintsWithin at hints.old → HintsWithin end hints.new) }
    ensures length { length out.new ≡ length out.old }
    ensures kept { take at out.new ≡ take at out.old }
{
    let mut i = 0;
    while i < name.len() && name[i] != 0 {
        if let Some(offset) = find(hints, &out[..top], &name[i..], at + i) {
            let end = put_octets(out, at, most, &name[..i])?;
            return put_octets(out, end, most, &pointer_to(offset));
        }
        i += 1 + usize::from(name[i]);
    }
    put_octets(out, at, most, name)
}
