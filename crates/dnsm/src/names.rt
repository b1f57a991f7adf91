//! Names in messages, and names as text.
ghost use Rattle.std.specs.Prelude.{◌≡◌, ◌≢◌, ◌<◌, ◌+◌, ◌++◌, ◌∷◌, [], length, take};
ghost use Rattle.dns_name.specs.NameTexts.{SpellsName, name_text};
ghost use Rattle.dns_name.specs.Names.{Labels, NameAt, NameEndsAt, uncompressed};
ghost use Rattle.dnsm_status.specs.CallerBuffers.{WritesOctets, WritesText};
ghost use Rattle.dnsm_status.specs.Codes.{number_of};
ghost use Rattle.dnsm_read.specs.Names.{LacksName};
ghost use Rattle.dnsm_text.specs.Texts.{SpellsNoName};

use dnsm_read::{name_text, walk};
use dnsm_status::{CallError, buffers, code};
use dnsm_text::names;

/// Writes the name at offset `place` as text, with a dot after each label, and a zero octet.
#[unsafe(no_mangle)]
pub extern "C" fn dnsm_name_text(
    message: &[u8],
    place: usize,
    out: &mut [u8],
    len: &mut usize,
) -> u32
    ensures writes { WritesText out.old out.new len.new result }
    ensures text { result ≡ 0 → (name : Labels) × NameAt message.now place name
        × (take (len.new + 1) out.new ≡ name_text name ++ 46 ∷ 0 ∷ []) }
    ensures no_room { result ≡ number_of CallError.NoRoom → (name : Labels)
        × NameAt message.now place name × (length out.old < length (name_text name) + 2)
        × (len.new ≡ length (name_text name) + 1) }
    ensures short { result ≡ number_of CallError.NoRoom → length out.old < 1005 }
    ensures no_name { result ≢ 0 → result ≢ number_of CallError.NoRoom
        → LacksName message.now place result }
{
    match name_text::name(message, place, out) {
        Ok(end) => buffers::finish(end, out, len),
        Err(fault) => buffers::refuse(fault, len),
    }
}

/// Writes the name at offset `place` uncompressed: at most 255 octets.
#[unsafe(no_mangle)]
pub extern "C" fn dnsm_name_octets(
    message: &[u8],
    place: usize,
    out: &mut [u8],
    len: &mut usize,
) -> u32
    ensures writes { WritesOctets out.old out.new len.new result }
    ensures name { result ≡ 0 → (name : Labels) × NameAt message.now place name
        × (take len.new out.new ≡ uncompressed name) }
    ensures no_room { result ≡ number_of CallError.NoRoom → (name : Labels)
        × NameAt message.now place name × (length out.old < length (uncompressed name))
        × (len.new ≡ length (uncompressed name)) }
    ensures short { result ≡ number_of CallError.NoRoom → length out.old < 255 }
    ensures no_name { result ≢ 0 → result ≢ number_of CallError.NoRoom
        → LacksName message.now place result }
{
    match walk::name_at(message, place) {
        Ok(name) => buffers::hand_out(name.uncompressed().as_slice(), out, len),
        Err(fault) => buffers::refuse(fault, len),
    }
}

/// Sets `end` to the offset after the name at offset `place`.
#[unsafe(no_mangle)]
pub extern "C" fn dnsm_name_end(message: &[u8], place: usize, end: &mut usize) -> u32
    ensures end { result ≡ 0 → NameEndsAt message.now place end.new }
    ensures name { result ≡ 0 → (name : Labels) × NameAt message.now place name }
    ensures no_name { result ≢ 0 → LacksName message.now place result }
    ensures unchanged { result ≢ 0 → end.new ≡ end.old }
{
    match walk::name_end(message, place) {
        Ok(after) => {
            *end = after;
            0
        }
        Err(fault) => code::of_fault(fault),
    }
}

/// Writes the octets of the name that a text spells, uncompressed: at most 255 octets.
#[unsafe(no_mangle)]
pub extern "C" fn dnsm_name_from_text(text: &[u8], out: &mut [u8], len: &mut usize) -> u32
    ensures writes { WritesOctets out.old out.new len.new result }
    ensures name { result ≡ 0 → (name : Labels) × SpellsName text.now name
        × (take len.new out.new ≡ uncompressed name) }
    ensures no_room { result ≡ number_of CallError.NoRoom → (name : Labels)
        × SpellsName text.now name × (length out.old < length (uncompressed name))
        × (len.new ≡ length (uncompressed name)) }
    ensures short { result ≡ number_of CallError.NoRoom → length out.old < 255 }
    ensures no_name { result ≢ 0 → result ≢ number_of CallError.NoRoom
        → (result ≡ number_of CallError.BadText) × SpellsNoName text.now }
{
    match names::name_of(text) {
        Ok(name) => buffers::hand_out(name.as_slice(), out, len),
        Err(fault) => buffers::refuse(fault, len),
    }
}
