//! Parsing of names that may point to a cached name.
ghost use Rattle.std.specs.Prelude.{ℕ, List, IfOk};
ghost use Rattle.dns_name.specs.Names.{NameAt};
ghost use Rattle.dns_name.specs.CachedNames.{IsCached};
ghost use Rattle.dns_name.specs.ParsedName.{labels, BeginsAt, ParsesName, ReadsEncoded};
ghost use Rattle.dns_name.specs.Parsers.{seen, offset};

use crate::cached_name::CachedName;
use crate::head::Head;
use crate::parsed_name::ParsedName;
use crate::parser::Parser;
use dns_octets::ParseError;

/// Parses a name as [`ParsedName::parse`] does, without walking over the cached name `cached` if
/// the first pointer leads to it.
///
/// `cached` becomes the name that the first pointer leads to, unless it is that name or parsing
/// fails. The result doesn't depend on `cached`.
#[inline(always)]
pub fn parse_cached<'a>(
    parser: &mut Parser<'a>,
    cached: &mut CachedName,
) -> Result<ParsedName<'a>, ParseError>
    requires cached { IsCached (seen parser.old) cached.old }
    ensures reads { ParsesName parser.old parser.new result }
    ensures name { ReadsEncoded (seen parser.old) (offset parser.old) result }
    ensures begins { IfOk result (BeginsAt (seen parser.old) (offset parser.old)) }
    ensures cached { IsCached (seen parser.old) cached.new }
{
    let octets = &parser.octets[..parser.end];
    let start = parser.pos;
    let extent = ParsedName::walk(octets, start, cached)?;
    parser.pos = extent.end;
    Ok(ParsedName {
        octets,
        pos: start,
        size: extent.size as u32,
        count: extent.count as u32,
    })
}

/// Caches `name` for [`parse_cached`], as the name encoded at offset `pos`. Caches none if `pos` is
/// beyond the range of pointers.
pub fn cached_at(name: &ParsedName<'_>, pos: usize) -> CachedName
    ensures { (b : List ℕ) → NameAt b pos (labels name.now) → IsCached b result }
{
    if pos >= Head::POINTER_END {
        return CachedName::new();
    }
    CachedName {
        pos: pos as u16,
        size: name.size as u8,
        count: name.count as u8,
    }
}
