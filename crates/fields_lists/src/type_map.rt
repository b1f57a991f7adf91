//! Type bit maps (RFC 4034 section 4.1.2, RFC 2535 section 5.2).
ghost use Rattle.std.specs.Prelude.{OnErr, ◌≡◌, ◌+◌, ◌*◌, ◌≤◌, ◌++◌, codes, length, Some, true};
ghost use Rattle.dns_print.specs.Printing.{PrintsOnOk};
ghost use Rattle.fields_lists.specs.TypeMaps.{bit_types, is_small_map, map_types, octet_types, types_text, is_bit_map, is_type_map};
ghost use Rattle.fields_plain.specs.TypeNames.{type_word};
ghost use Rattle.fields_lists.specs.Blocks.{SplitsBlock};

use crate::types::Types;
use dns_iana::Rtype;
use dns_print::TextWriter;
use fields_plain::write_type_name;
use std::fmt;

/// A type bit map: blocks of a window number, a length and bits. It prints as the types whose bits are
/// set, each after a space, up to the first block that is malformed.
#[derive(Clone, Copy, Debug)]
pub struct TypeMap<'a>(pub &'a [u8]);

impl<'a> TypeMap<'a> {
    ghost use Rattle.std.specs.Prelude.{◌==◌};
    ghost use Rattle.std.specs.List.{list_any};
    ghost use Rattle.fields_lists.specs.TypeItems.{types_left};

    /// The types whose bits are set.
    pub fn types(&self) -> Types<'a>
        ensures { types_left result ≡ map_types self.now.0.now }
    {
        Types::new(self.0)
    }

    /// Whether the bit of this type is set.
    pub fn contains(&self, rtype: Rtype) -> bool
        ensures { result ≡ list_any (λ found. found == rtype) (map_types self.now.0.now) }
    {
        self.types().any(|found| found == rtype)
    }
}

/// Prints a type after a space.
#[tactic(auto, using(dns_print::proofs::theory::Prints::prints, std::proofs::lemmas::Grind::common_steps))]
fn write_spaced_type<W: TextWriter>(f: &mut W, rtype: Rtype) -> fmt::Result
    ensures text { PrintsOnOk W.takes f.old result (codes " " ++ type_word rtype) f.new }
    ensures err { OnErr result W.MayFail }
{
    f.write_text(" ")?;
    write_type_name(f, rtype)
}

/// Prints the types of the `count` high bits of an octet, from `first` on, each after a space.
#[tactic(auto, using(dns_print::proofs::theory::Prints::prints, crate::proofs::TypeTexts::bit_set, crate::proofs::TypeTexts::bit_clear))]
fn write_bits<W: TextWriter>(f: &mut W, count: u8, first: u32, octet: u8) -> fmt::Result
    requires { first + count ≤ 65536 }
    ensures text { PrintsOnOk W.takes f.old result
        (types_text (bit_types count first octet)) f.new }
    ensures err { OnErr result W.MayFail }
{
    if count == 0 {
        return Ok(());
    }
    if octet >= 128 {
        write_spaced_type(f, Rtype::from_int(first as u16))?;
    }
    write_bits(f, count - 1, first + 1, octet % 128 * 2)
}

/// Prints the types of octets with a bit for each type from `first` on, each after a space.
fn write_octets<W: TextWriter>(f: &mut W, first: u32, octets: &[u8]) -> fmt::Result
    requires { first + 8 * length octets.now ≤ 65536 }
    ensures text { PrintsOnOk W.takes f.old result
        (types_text (octet_types first octets.now)) f.new }
    ensures err { OnErr result W.MayFail }
{
    let [octet, after @ ..] = octets else {
        return Ok(());
    };
    write_bits(f, 8, first, *octet)?;
    write_octets(f, first + 8, after)
}

/// The first type and the octets of the block at the start of octets, and the octets after it.
pub(crate) fn split_block(octets: &[u8]) -> Option<(u32, &[u8], &[u8])>
    ensures { SplitsBlock octets.now result }
{
    let [window, size, after @ ..] = octets else {
        return None;
    };
    if *size > 32 {
        return None;
    }
    let (block, after) = after.split_at_checked(usize::from(*size))?;
    Some((u32::from(*window) * 256, block, after))
}

/// Prints the types of a type bit map, each after a space, up to the first block that is malformed
/// (RFC 4034 section 4.1.2).
pub fn write_type_map<W: TextWriter>(f: &mut W, octets: &[u8]) -> fmt::Result
    ensures text { PrintsOnOk W.takes f.old result (types_text (map_types octets.now)) f.new }
    ensures err { OnErr result W.MayFail }
{
    let mut left = octets;
    'windows: while let Some((first, block, after)) = split_block(left) {
        write_octets(f, first, block)?;
        left = after;
    }
    Ok(())
}

impl fmt::Display for TypeMap<'_> {
    ghost output = { λ map. Some (types_text (map_types map.0.now)) };

    ghost styled_output = { λ map _. Some (types_text (map_types map.0.now)) };

    fn fmt<W: fmt::Write>(&self, f: &mut fmt::Formatter<W>) -> fmt::Result {
        write_type_map(f, self.0)
    }
}

/// A bit map with a bit for each type from 0 to 127. It prints as the types whose bits are set, each
/// after a space.
#[derive(Clone, Copy, Debug)]
pub struct SmallTypeMap<'a> {
    octets: &'a [u8],
    ghost small: { is_small_map octets.now ≡ true },
}

impl<'a> SmallTypeMap<'a> {
    ghost use Rattle.std.specs.Prelude.{IfSome, is_some};
    ghost use Rattle.fields_lists.specs.SmallMaps.{small_octets};

    /// The bit map that is these octets: 1 to 16 octets of which the last isn't zero. `None` for
    /// others, and if the first bit is set, since it says that the format is another.
    pub fn from_octets(octets: &'a [u8]) -> Option<Self>
        ensures found { is_some result ≡ is_small_map octets.now }
        ensures octets { IfSome result (λ map. small_octets map ≡ octets.now) }
    {
        let (Some(first), Some(last)) = (octets.first(), octets.last()) else {
            return None;
        };
        if *first >= 128 || octets.len() > 16 || *last == 0 {
            return None;
        }
        Some(SmallTypeMap { octets })
    }
}

impl SmallTypeMap<'_> {
    ghost use Rattle.fields_lists.specs.SmallMaps.{small_octets};

    /// Prints the types whose bits are set, each after a space (RFC 2535 section 5.2).
    pub fn write<W: TextWriter>(&self, f: &mut W) -> fmt::Result
        ensures text { PrintsOnOk W.takes f.old result
            (types_text (octet_types 0 (small_octets self.now))) f.new }
        ensures err { OnErr result W.MayFail }
    {
        write_octets(f, 0, self.octets)
    }
}

impl fmt::Display for SmallTypeMap<'_> {
    ghost use Rattle.fields_lists.specs.SmallMaps.{small_octets};

    ghost output = { λ map. Some (types_text (octet_types 0 (small_octets map))) };

    ghost styled_output = { λ map _. Some (types_text (octet_types 0 (small_octets map))) };

    fn fmt<W: fmt::Write>(&self, f: &mut fmt::Formatter<W>) -> fmt::Result {
        self.write(f)
    }
}

/// Whether a bit map of this size is at the start of the octets: 1 to 32 octets, the last of which
/// isn't zero.
fn is_bit_map(size: usize, octets: &[u8]) -> bool
    requires { size ≤ length octets.now }
    ensures { result ≡ is_bit_map size octets.now }
{
    1 <= size && size <= 32 && octets[size - 1] > 0
}

/// Whether the octets are a type bit map: blocks of increasing window numbers.
pub fn is_type_map(octets: &[u8]) -> bool
    ensures { result ≡ is_type_map octets.now }
{
    let mut left = octets;
    let mut least: u16 = 0;
    'windows: while let [window, size, rest @ ..] = left {
        let size = usize::from(*size);
        if size > rest.len() || u16::from(*window) < least || !is_bit_map(size, rest) {
            return false;
        }
        least = u16::from(*window) + 1;
        left = &rest[size..];
    }
    left.is_empty()
}
