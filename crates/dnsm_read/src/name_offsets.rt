//! The offsets of the names within fields of RDATA. A field that is a name is one itself, as are a
//! gateway and a relay of type 3 (RFC 4025 section 2.5, RFC 8777 section 4.2.4) and the rendezvous
//! servers of a host identity (RFC 8005 section 5).
//!
//! A search by index returns the offset of the name, or as an error the index less the count of the
//! names that it searched.
ghost use Rattle.std.specs.Prelude.{◌≡◌, ◌+◌, ◌≤◌, ◌<◌, ◌^◌, ℕ, List, length, Err, IfErr, IfOk, Ok};
ghost use Rattle.std.specs.Option.{option_to_list};
ghost use Rattle.dns_name.specs.Names.{NameAt};
ghost use Rattle.dns_name.specs.ParsedName.{labels};
ghost use Rattle.fields_table.specs.EncodedFields.{part_of};
ghost use Rattle.dnsm_read.specs.FieldOffsets.{PartAt};
ghost use Rattle.dnsm_read.specs.NameOffsets.{Finds, FindsWithin, NamesAt, NamesInOctets, NamesWithin, ServersAt, gateway_offset, relay_offset};

use crate::walk::{name_at, name_end};
use dns_name::ParsedName;
use fields_table::{Encoded, Field, Kind};

/// The offset of a gateway that is a name, in octets at offset `start`.
fn gateway_offset(octets: &[u8], start: usize) -> Option<usize>
    requires { start + length octets.now < 2 ^ 64 }
    ensures { result ≡ gateway_offset octets.now start }
{
    let [gateway_type, _, ..] = octets else {
        return None;
    };
    if *gateway_type == 3 {
        Some(start + 2)
    } else {
        None
    }
}

/// The offset of a relay that is a name, in octets at offset `start`.
fn relay_offset(octets: &[u8], start: usize) -> Option<usize>
    requires { start + length octets.now < 2 ^ 64 }
    ensures { result ≡ relay_offset octets.now start }
{
    let [first, ..] = octets else {
        return None;
    };
    if *first % 128 == 3 {
        Some(start + 1)
    } else {
        None
    }
}

/// Searches for the only name, if there is one.
fn only_name(offset: Option<usize>, index: usize) -> Result<usize, usize>
    ensures { Finds (option_to_list offset) index result }
{
    let Some(offset) = offset else {
        return Err(index);
    };
    if index == 0 {
        Ok(offset)
    } else {
        Err(index - 1)
    }
}

/// Searches consecutive names from offset `start` to offset `end`.
fn name_from(octets: &[u8], start: usize, end: usize, index: usize) -> Result<usize, usize>
    requires { (offsets : List ℕ) × NamesAt octets.now start end offsets }
    ensures { (offsets : List ℕ) × NamesAt octets.now start end offsets
        × Finds offsets index result }
{
    let mut offset = start;
    let mut left = index;
    'names: while offset < end {
        if left == 0 {
            return Ok(offset);
        }
        let Ok(next) = name_end(octets, offset) else {
            unreachable!()
        };
        offset = next;
        left -= 1;
    }
    Err(left)
}

/// Searches the rendezvous servers of a host identity at offset `start`.
fn server_in(octets: &[u8], identity: &[u8], start: usize, index: usize) -> Result<usize, usize>
    requires fits { start + length identity.now ≤ length octets.now }
    requires names { (offsets : List ℕ) × ServersAt octets.now identity.now start offsets }
    ensures { (offsets : List ℕ) × ServersAt octets.now identity.now start offsets
        × Finds offsets index result }
{
    let [tag_size, _, high, low, ..] = identity else {
        return Err(index);
    };
    let size = usize::from(*tag_size) + (usize::from(*high) * 256 + usize::from(*low));
    name_from(octets, start + 4 + size, start + identity.len(), index)
}

/// Searches the names within octets of this kind, which are encoded at offset `start`.
fn offset_in_octets(
    octets: &[u8],
    kind: Kind,
    own: &[u8],
    start: usize,
    index: usize,
) -> Result<usize, usize>
    requires fits { start + length own.now ≤ length octets.now }
    requires names { (offsets : List ℕ) × NamesInOctets octets.now kind own.now start offsets }
    ensures { (offsets : List ℕ) × NamesInOctets octets.now kind own.now start offsets
        × Finds offsets index result }
{
    match kind {
        Kind::GatewayAndKey => only_name(gateway_offset(own, start), index),
        Kind::Relay => only_name(relay_offset(own, start), index),
        Kind::HostIdentity => server_in(octets, own, start, index),
        _ => Err(index),
    }
}

/// Searches the names within a field that is encoded at offset `start`. Returns the name too.
pub(crate) fn name_within<'a>(
    octets: &'a [u8],
    field: &Field<'a>,
    start: usize,
    index: usize,
) -> Result<(usize, ParsedName<'a>), usize>
    requires part { (end : ℕ) × PartAt octets.now (part_of field.now.encoded) start end }
    requires names { (offsets : List ℕ)
        × NamesWithin octets.now field.now.kind (part_of field.now.encoded) start offsets }
    ensures offset { IfOk result (λ found. FindsWithin octets.now field.now.kind
        (part_of field.now.encoded) start index (Ok found.0)) }
    ensures name { IfOk result (λ found. NameAt octets.now found.0 (labels found.1)) }
    ensures left { IfErr result (λ left. FindsWithin octets.now field.now.kind
        (part_of field.now.encoded) start index (Err left)) }
{
    match &field.encoded {
        Encoded::Octets(own) => match offset_in_octets(octets, field.kind, own, start, index) {
            Ok(offset) => {
                let Ok(name) = name_at(octets, offset) else {
                    unreachable!()
                };
                Ok((offset, name))
            }
            Err(left) => Err(left),
        },
        Encoded::Name(name) | Encoded::UncompressedName(_, name) => {
            if index == 0 {
                Ok((start, *name))
            } else {
                Err(index - 1)
            }
        }
    }
}
