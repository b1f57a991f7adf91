//! The texts of numbers.
ghost use Rattle.std.specs.Prelude.{◌≡◌, ◌≢◌, ◌<◌, ◌+◌, ◌-◌, ◌^◌, ◌++◌, ◌∷◌, [], length, take, min};
ghost use Rattle.dnsm_status.specs.CallerBuffers.{WritesText};
ghost use Rattle.dnsm_status.specs.Codes.{number_of};
ghost use Rattle.dnsm_status.specs.Statuses.{status_text};
ghost use Rattle.dnsm_text.specs.Texts.{class_text, extended_error_text, opcode_text, option_text, rcode_text, type_text};

use dnsm_status::{CallError, buffers, words};
use dnsm_text::numbers;

/// Writes the name that IANA has registered for a record type, or `TYPE` and its number, and a zero
/// octet.
#[unsafe(no_mangle)]
pub extern "C" fn dnsm_type_text(rtype: u16, out: &mut [u8], len: &mut usize) -> u32
    ensures writes { WritesText out.old out.new len.new result }
    ensures text { result ≡ 0 → take (len.new + 1) out.new ≡ type_text rtype ++ 0 ∷ [] }
    ensures no_room { result ≢ 0 → (result ≡ number_of CallError.NoRoom)
        × (length out.old < length (type_text rtype) + 1)
        × (len.new ≡ min (length (type_text rtype)) (2 ^ 64 - 1)) }
    ensures short { result ≢ 0 → length out.old < 16 }
{
    let end = numbers::rtype(rtype, out);
    buffers::finish(end, out, len)
}

/// Writes the name that IANA has registered for a class, or `CLASS` and its number, and a zero octet.
#[unsafe(no_mangle)]
pub extern "C" fn dnsm_class_text(class: u16, out: &mut [u8], len: &mut usize) -> u32
    ensures writes { WritesText out.old out.new len.new result }
    ensures text { result ≡ 0 → take (len.new + 1) out.new ≡ class_text class ++ 0 ∷ [] }
    ensures no_room { result ≢ 0 → (result ≡ number_of CallError.NoRoom)
        × (length out.old < length (class_text class) + 1)
        × (len.new ≡ min (length (class_text class)) (2 ^ 64 - 1)) }
    ensures short { result ≢ 0 → length out.old < 16 }
{
    let end = numbers::class(class, out);
    buffers::finish(end, out, len)
}

/// Writes the name that IANA has registered for an opcode, or `OPCODE` and its number, and a zero octet.
#[unsafe(no_mangle)]
pub extern "C" fn dnsm_opcode_text(opcode: u8, out: &mut [u8], len: &mut usize) -> u32
    ensures writes { WritesText out.old out.new len.new result }
    ensures text { result ≡ 0 → take (len.new + 1) out.new ≡ opcode_text opcode ++ 0 ∷ [] }
    ensures no_room { result ≢ 0 → (result ≡ number_of CallError.NoRoom)
        × (length out.old < length (opcode_text opcode) + 1)
        × (len.new ≡ min (length (opcode_text opcode)) (2 ^ 64 - 1)) }
    ensures short { result ≢ 0 → length out.old < 16 }
{
    let end = numbers::opcode(opcode, out);
    buffers::finish(end, out, len)
}

/// Writes the name that IANA has registered for an extended rcode (RFC 6891 section 6.1.3), or `RCODE`
/// and its number, and a zero octet. 16 is `BADVERS`.
#[unsafe(no_mangle)]
pub extern "C" fn dnsm_rcode_text(rcode: u16, out: &mut [u8], len: &mut usize) -> u32
    ensures writes { WritesText out.old out.new len.new result }
    ensures text { result ≡ 0 → take (len.new + 1) out.new ≡ rcode_text rcode ++ 0 ∷ [] }
    ensures no_room { result ≢ 0 → (result ≡ number_of CallError.NoRoom)
        × (length out.old < length (rcode_text rcode) + 1)
        × (len.new ≡ min (length (rcode_text rcode)) (2 ^ 64 - 1)) }
    ensures short { result ≢ 0 → length out.old < 16 }
{
    let end = numbers::rcode(rcode, out);
    buffers::finish(end, out, len)
}

/// Writes the name that IANA has registered for the code of an option, or `OPTION` and its number, and
/// a zero octet.
#[unsafe(no_mangle)]
pub extern "C" fn dnsm_option_text(code: u16, out: &mut [u8], len: &mut usize) -> u32
    ensures writes { WritesText out.old out.new len.new result }
    ensures text { result ≡ 0 → take (len.new + 1) out.new ≡ option_text code ++ 0 ∷ [] }
    ensures no_room { result ≢ 0 → (result ≡ number_of CallError.NoRoom)
        × (length out.old < length (option_text code) + 1)
        × (len.new ≡ min (length (option_text code)) (2 ^ 64 - 1)) }
    ensures short { result ≢ 0 → length out.old < 32 }
{
    let end = numbers::option(code, out);
    buffers::finish(end, out, len)
}

/// Writes the name that IANA has registered for the code of an extended error (RFC 8914), or `EDE` and
/// its number, and a zero octet.
#[unsafe(no_mangle)]
pub extern "C" fn dnsm_extended_error_text(code: u16, out: &mut [u8], len: &mut usize) -> u32
    ensures writes { WritesText out.old out.new len.new result }
    ensures text { result ≡ 0 → take (len.new + 1) out.new ≡ extended_error_text code ++ 0 ∷ [] }
    ensures no_room { result ≢ 0 → (result ≡ number_of CallError.NoRoom)
        × (length out.old < length (extended_error_text code) + 1)
        × (len.new ≡ min (length (extended_error_text code)) (2 ^ 64 - 1)) }
    ensures short { result ≢ 0 → length out.old < 64 }
{
    let end = numbers::extended_error(code, out);
    buffers::finish(end, out, len)
}

/// Writes what a status means, and a zero octet.
#[unsafe(no_mangle)]
pub extern "C" fn dnsm_status_text(status: u32, out: &mut [u8], len: &mut usize) -> u32
    ensures writes { WritesText out.old out.new len.new result }
    ensures text { result ≡ 0 → take (len.new + 1) out.new ≡ status_text status ++ 0 ∷ [] }
    ensures no_room { result ≢ 0 → (result ≡ number_of CallError.NoRoom)
        × (length out.old < length (status_text status) + 1)
        × (len.new ≡ min (length (status_text status)) (2 ^ 64 - 1)) }
    ensures short { result ≢ 0 → length out.old < 100 }
{
    let end = words::status(status, out);
    buffers::finish(end, out, len)
}
