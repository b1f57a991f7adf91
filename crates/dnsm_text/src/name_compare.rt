//! Comparisons of two names, each at an offset of a message of its own. ASCII case is ignored (RFC
//! 1035 section 2.3.3).
//!
//! If a name can't be read, the error is that of the first name, or else that of the second.
ghost use Rattle.std.specs.Prelude.{◌≡◌, ◌↔◌, IsTrue, IfOk, IfErr};
ghost use Rattle.dns_name.specs.Names.{NameAt};
ghost use Rattle.dns_name.specs.NameOrders.{names_equal, name_order};
ghost use Rattle.dns_name.specs.ParsedName.{labels};
ghost use Rattle.dns_name.specs.Suffixes.{NameEndsWith};
ghost use Rattle.dnsm_status.specs.Codes.{number_of};
ghost use Rattle.dnsm_text.specs.NamePairs.{AreNamesAt, LacksNames};

use dns_name::ParsedName;
use dnsm_read::walk::name_at;
use dnsm_status::CallError;
use std::cmp::Ordering;

/// Returns whether the names are equal.
pub fn are_equal(
    octets: &[u8],
    place: usize,
    other: &[u8],
    other_place: usize,
) -> Result<bool, CallError>
    ensures equal { IfOk result (λ equal. AreNamesAt octets.now place other.now other_place
        (λ m n. equal ≡ names_equal m n)) }
    ensures none { IfErr result (λ fault.
        LacksNames octets.now place other.now other_place (number_of fault)) }
{
    let (name, other_name) = names_at(octets, place, other, other_place)?;
    Ok(name == other_name)
}

/// Returns whether the first name is the second or a subdomain of it (RFC 1034 section 3.1).
pub fn is_below(
    octets: &[u8],
    place: usize,
    other: &[u8],
    other_place: usize,
) -> Result<bool, CallError>
    ensures below { IfOk result (λ below. AreNamesAt octets.now place other.now other_place
        (λ m n. IsTrue below ↔ NameEndsWith m n)) }
    ensures none { IfErr result (λ fault.
        LacksNames octets.now place other.now other_place (number_of fault)) }
{
    let (name, other_name) = names_at(octets, place, other, other_place)?;
    Ok(name.ends_with(&other_name))
}

/// Compares the names in the canonical order (RFC 4034 section 6.1).
pub fn order(
    octets: &[u8],
    place: usize,
    other: &[u8],
    other_place: usize,
) -> Result<Ordering, CallError>
    ensures order { IfOk result (λ order. AreNamesAt octets.now place other.now other_place
        (λ m n. order ≡ name_order m n)) }
    ensures none { IfErr result (λ fault.
        LacksNames octets.now place other.now other_place (number_of fault)) }
{
    let (name, other_name) = names_at(octets, place, other, other_place)?;
    Ok(name.cmp(&other_name))
}

/// Both names.
fn names_at<'a>(
    octets: &'a [u8],
    place: usize,
    other: &'a [u8],
    other_place: usize,
) -> Result<(ParsedName<'a>, ParsedName<'a>), CallError>
    ensures names { IfOk result (λ names. NameAt octets.now place (labels names.0)
        × NameAt other.now other_place (labels names.1)) }
    ensures none { IfErr result (λ fault.
        LacksNames octets.now place other.now other_place (number_of fault)) }
{
    let name = name_at(octets, place)?;
    let other_name = name_at(other, other_place)?;
    Ok((name, other_name))
}
