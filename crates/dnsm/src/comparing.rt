//! Names of messages compared, and their keys and hashes.
//!
//! If one of two names can't be read, the error is that of the first, or else that of the second.
ghost use Rattle.std.specs.Prelude.{◌≡◌, ◌≢◌, ◌<◌, length, take, if◌then◌else◌};
ghost use Rattle.std.specs.Ordering.{ordering_index};
ghost use Rattle.dns_name.specs.NameOrders.{name_order, names_equal};
ghost use Rattle.dns_name.specs.Names.{Labels, NameAt};
ghost use Rattle.dns_name.specs.Suffixes.{NameEndsWith};
ghost use Rattle.dnsm_status.specs.CallerBuffers.{WritesOctets};
ghost use Rattle.dnsm_status.specs.Codes.{number_of};
ghost use Rattle.dnsm_read.specs.Names.{LacksName};
ghost use Rattle.dnsm_text.specs.NameHashes.{name_hash};
ghost use Rattle.dnsm_text.specs.NameKeys.{name_key};
ghost use Rattle.dnsm_text.specs.NamePairs.{AreNamesAt, IsFlagOf, LacksNames};

use dnsm_status::{CallError, buffers, code};
use dnsm_text::{name_compare, name_hash, name_key};
use std::cmp::Ordering;

/// Sets `equal` to 1 if the name at offset `place` of `message` equals the name at offset
/// `other_place` of `other`, ignoring ASCII case (RFC 1035 section 2.3.3), else to 0.
#[unsafe(no_mangle)]
pub extern "C" fn dnsm_name_equal(
    message: &[u8],
    place: usize,
    other: &[u8],
    other_place: usize,
    equal: &mut u8,
) -> u32
    ensures equal { result ≡ 0 → AreNamesAt message.now place other.now other_place
        (λ m n. equal.new ≡ (if names_equal m n then 1 else 0)) }
    ensures no_name { result ≢ 0 → LacksNames message.now place other.now other_place result }
    ensures unchanged { result ≢ 0 → equal.new ≡ equal.old }
{
    match name_compare::are_equal(message, place, other, other_place) {
        Ok(found) => {
            *equal = u8::from(found);
            0
        }
        Err(fault) => code::of_fault(fault),
    }
}

/// Sets `below` to 1 if the first name is the second or a subdomain of it (RFC 1034 section 3.1), else
/// to 0.
#[unsafe(no_mangle)]
pub extern "C" fn dnsm_name_below(
    message: &[u8],
    place: usize,
    other: &[u8],
    other_place: usize,
    below: &mut u8,
) -> u32
    ensures below { result ≡ 0 → AreNamesAt message.now place other.now other_place
        (λ m n. IsFlagOf (NameEndsWith m n) below.new) }
    ensures no_name { result ≢ 0 → LacksNames message.now place other.now other_place result }
    ensures unchanged { result ≢ 0 → below.new ≡ below.old }
{
    match name_compare::is_below(message, place, other, other_place) {
        Ok(found) => {
            *below = u8::from(found);
            0
        }
        Err(fault) => code::of_fault(fault),
    }
}

/// Sets `order` to 0 if the first name precedes the second in the canonical order (RFC 4034 section
/// 6.1), to 1 if they are equal, and to 2 if it follows.
#[unsafe(no_mangle)]
pub extern "C" fn dnsm_name_order(
    message: &[u8],
    place: usize,
    other: &[u8],
    other_place: usize,
    order: &mut u8,
) -> u32
    ensures order { result ≡ 0 → AreNamesAt message.now place other.now other_place
        (λ m n. order.new ≡ ordering_index (name_order m n)) }
    ensures no_name { result ≢ 0 → LacksNames message.now place other.now other_place result }
    ensures unchanged { result ≢ 0 → order.new ≡ order.old }
{
    match name_compare::order(message, place, other, other_place) {
        Ok(found) => {
            *order = index_of(found);
            0
        }
        Err(fault) => code::of_fault(fault),
    }
}

/// The number of a result: 0, 1 and 2.
fn index_of(order: Ordering) -> u8
    ensures { result ≡ ordering_index order }
{
    match order {
        Ordering::Less => 0,
        Ordering::Equal => 1,
        Ordering::Greater => 2,
    }
}

/// Writes the key of the name at offset `place`: at most 504 octets. `memcmp` of two keys, and of
/// keys that begin alike their lengths, is the canonical order of the names (RFC 4034 section 6.1).
#[unsafe(no_mangle)]
pub extern "C" fn dnsm_name_key(
    message: &[u8],
    place: usize,
    out: &mut [u8],
    len: &mut usize,
) -> u32
    ensures writes { WritesOctets out.old out.new len.new result }
    ensures key { result ≡ 0 → (name : Labels) × NameAt message.now place name
        × (take len.new out.new ≡ name_key name) }
    ensures no_room { result ≡ number_of CallError.NoRoom → (name : Labels)
        × NameAt message.now place name × (length out.old < length (name_key name))
        × (len.new ≡ length (name_key name)) }
    ensures short { result ≡ number_of CallError.NoRoom → length out.old < 504 }
    ensures no_name { result ≢ 0 → result ≢ number_of CallError.NoRoom
        → LacksName message.now place result }
{
    match name_key::key_at(message, place) {
        Ok(key) => buffers::hand_out(key.as_slice(), out, len),
        Err(fault) => buffers::refuse(fault, len),
    }
}

/// Sets `hash` to a hash of the name at offset `place` that ignores ASCII case. Where others choose
/// the names, the seed has to be secret and random, of 16 octets.
#[unsafe(no_mangle)]
pub extern "C" fn dnsm_name_hash(message: &[u8], place: usize, seed: &[u8], hash: &mut u32) -> u32
    ensures hash { result ≡ 0 → (name : Labels) × NameAt message.now place name
        × (hash.new ≡ name_hash seed.now name) }
    ensures no_name { result ≢ 0 → LacksName message.now place result }
    ensures unchanged { result ≢ 0 → hash.new ≡ hash.old }
{
    match name_hash::hash_at(message, place, seed) {
        Ok(found) => {
            *hash = found;
            0
        }
        Err(fault) => code::of_fault(fault),
    }
}
