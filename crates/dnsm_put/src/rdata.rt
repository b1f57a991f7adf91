//! The RDATA of record types of RFC 1035 that have names in it (sections 3.3.1 to 3.3.14).
ghost use Rattle.std.specs.Prelude.{◌≡◌, ◌+◌, ◌≤◌, ◌++◌, List, ℕ, length, take, true, false, IfSome, IsSome};
ghost use Rattle.dns_code.specs.HeaderSection.{header_size};
ghost use Rattle.dns_name.specs.Names.{Labels, IsName, uncompressed};
ghost use Rattle.dns_wire.specs.Parts.{AreParts, Part};
ghost use Rattle.dnsm_put.specs.Rdata.{AreDataOf, HasFields, data_type, layout_of, type_layout};
ghost use Rattle.dnsm_put.specs.Writing.{AreWritten};

use crate::draft::PutItem;
use crate::names::{is_name, put_name};
use crate::octets::put_octets;
use dns_iana::{Class, Rtype};
use fields_table::layout_type;

/// What RDATA consists of, as far as names are concerned.
#[derive(Clone, Copy)]
pub enum Layout {
    /// This number of octets, and then a name, which is compressed.
    Name(usize),
    /// Two names, which are compressed, and then this number of octets.
    TwoNames(usize),
    /// Any octets.
    Plain,
}

/// The layout of the RDATA of a record type: NS, MD, MF, CNAME, MB, MG, MR and PTR are a name, MX a
/// preference and a name, SOA two names and five numbers, and MINFO two names. That of any other
/// type isn't looked at.
#[inline(always)]
fn layout_of_type(rtype: u16) -> Layout
    ensures { result ≡ type_layout rtype }
{
    match rtype {
        2..=5 | 7..=9 | 12 => Layout::Name(0),
        6 => Layout::TwoNames(20),
        14 => Layout::TwoNames(0),
        15 => Layout::Name(2),
        _ => Layout::Plain,
    }
}

/// The type by whose fields the RDATA of an item is read. A record of class NONE or ANY may have no
/// RDATA, whatever its type (RFC 2136 section 2.4).
#[inline(always)]
pub(crate) fn data_type(item: &PutItem<'_>) -> Rtype
    ensures { result ≡ data_type item.now }
{
    let rtype = Rtype::from_int(item.rtype);
    let class = Class::from_int(item.class);
    layout_type(rtype, class, item.rdata.len())
}

/// The layout of the RDATA of an item.
#[inline(always)]
pub(crate) fn layout_of_item(item: &PutItem<'_>) -> Layout
    ensures { result ≡ layout_of item.now }
{
    layout_of_type(data_type(item).to_int())
}

/// The length of the name with which the octets begin, if they begin with an uncompressed name.
fn first_name(octets: &[u8]) -> usize
    ensures within { result ≤ length octets.now }
    ensures name { (n : Labels) (rest : List ℕ) → IsName n → octets.now ≡ uncompressed n ++ rest
        → result ≡ length (uncompressed n) }
{
    let mut i = 0;
    while i < octets.len() {
        if octets[i] == 0 {
            return i + 1;
        }
        i += 1 + usize::from(octets[i]);
    }
    octets.len()
}

/// Whether the octets are two uncompressed names, and then this number of octets.
fn are_two_names(octets: &[u8], after: usize) -> bool
    ensures yes { result ≡ true → HasFields (Layout.TwoNames after) octets.now }
    ensures no { result ≡ false → HasFields (Layout.TwoNames after) octets.now → ⊥ }
{
    let first = first_name(octets);
    let others = &octets[first..];
    let second = first_name(others);
    if others.len() - second != after {
        return false;
    }
    is_name(&octets[..first]) && is_name(&others[..second])
}

/// Whether the RDATA has the names and the length that its record type requires.
pub(crate) fn has_fields(item: &PutItem<'_>) -> bool
    ensures yes { result ≡ true → HasFields (layout_of item.now) item.now.rdata.now }
    ensures no { result ≡ false → HasFields (layout_of item.now) item.now.rdata.now → ⊥ }
{
    let rdata = item.rdata;
    match layout_of_item(item) {
        Layout::Name(before) => before <= rdata.len() && is_name(&rdata[before..]),
        Layout::TwoNames(after) => are_two_names(rdata, after),
        Layout::Plain => true,
    }
}

/// Writes octets, and then a name at offset `at`. Like `put_rdata`.
#[inline(always)]
fn put_named(
    hints: &mut [u16; 64],
    out: &mut [u8],
    at: usize,
    most: usize,
    top: usize,
    before: usize,
    rdata: &[u8],
) -> Option<usize>
    requires most { most ≤ length out.old }
    requires at { at ≤ most }
    requires top { top ≤ at }
    requires after_header { header_size ≤ at }
    requires fields { HasFields (Layout.Name before) rdata.now }
    ensures written { IfSome result (λ end. (parts : List Part) → AreParts parts
        → AreDataOf (Layout.Name before) rdata.now parts
        → AreWritten out.new top at end parts) }
    ensures within { IfSome result (λ end. end ≤ most) }
    ensures after { IfSome result (λ end. at ≤ end) }
    ensures size { IfSome result (λ end. end ≤ at + length rdata.now) }
    ensures room { at + length rdata.now ≤ most → IsSome result }
    ensures length { length out.new ≡ length out.old }
    ensures kept { take at out.new ≡ take at out.old }
{
    let name = put_octets(out, at, most, &rdata[..before])?;
    put_name(hints, out, name, most, top, &rdata[before..])
}

/// Writes two names at offset `at`, and then this number of octets. Like `put_rdata`.
#[inline(always)]
fn put_two_names(
    hints: &mut [u16; 64],
    out: &mut [u8],
    at: usize,
    most: usize,
    top: usize,
    after: usize,
    rdata: &[u8],
) -> Option<usize>
    requires most { most ≤ length out.old }
    requires at { at ≤ most }
    requires top { top ≤ at }
    requires after_header { header_size ≤ at }
    requires fields { HasFields (Layout.TwoNames after) rdata.now }
    ensures written { IfSome result (λ end. (parts : List Part) → AreParts parts
        → AreDataOf (Layout.TwoNames after) rdata.now parts
        → AreWritten out.new top at end parts) }
    ensures within { IfSome result (λ end. end ≤ most) }
    ensures after { IfSome result (λ end. at ≤ end) }
    ensures size { IfSome result (λ end. end ≤ at + length rdata.now) }
    ensures room { at + length rdata.now ≤ most → IsSome result }
    ensures length { length out.new ≡ length out.old }
    ensures kept { take at out.new ≡ take at out.old }
{
    let first = first_name(rdata);
    let others = &rdata[first..];
    let second = first_name(others);
    let middle = put_name(hints, out, at, most, top, &rdata[..first])?;
    let end = put_name(hints, out, middle, most, top, &others[..second])?;
    put_octets(out, end, most, &others[second..])
}

/// Writes RDATA at offset `at`. Pointers lead to offsets below `top`. Returns the offset after the
/// RDATA, or `None` if it would be past `most`.
#[inline(always)]
pub(crate) fn put_rdata(
    hints: &mut [u16; 64],
    out: &mut [u8],
    at: usize,
    most: usize,
    top: usize,
    item: &PutItem<'_>,
) -> Option<usize>
    requires most { most ≤ length out.old }
    requires at { at ≤ most }
    requires top { top ≤ at }
    requires after_header { header_size ≤ at }
    requires fields { HasFields (layout_of item.now) item.now.rdata.now }
    ensures written { IfSome result (λ end. (parts : List Part) → AreParts parts
        → AreDataOf (layout_of item.now) item.now.rdata.now parts
        → AreWritten out.new top at end parts) }
    ensures within { IfSome result (λ end. end ≤ most) }
    ensures after { IfSome result (λ end. at ≤ end) }
    ensures size { IfSome result (λ end. end ≤ at + length item.now.rdata.now) }
    ensures room { at + length item.now.rdata.now ≤ most → IsSome result }
    ensures length { length out.new ≡ length out.old }
    ensures kept { take at out.new ≡ take at out.old }
{
    match layout_of_item(item) {
        Layout::Name(before) => put_named(hints, out, at, most, top, before, item.rdata),
        Layout::TwoNames(after) => put_two_names(hints, out, at, most, top, after, item.rdata),
        Layout::Plain => put_octets(out, at, most, item.rdata),
    }
}
