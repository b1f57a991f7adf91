//! Numbers from their texts: the names that IANA has registered, or a word and the number. ASCII case is
//! ignored.
ghost use Rattle.std.specs.Prelude.{◌≡◌, ◌≢◌, ℕ};
ghost use Rattle.dns_iana.specs.RegisteredTexts.{SpellsExtendedError, SpellsOpcode, SpellsOptRcode, SpellsOption, SpellsRegisteredClass, SpellsRegisteredType};
ghost use Rattle.dnsm_status.specs.Codes.{number_of};

use dnsm_status::{CallError, code};
use dnsm_text::read_numbers;

/// Sets `rtype` to a record type, which a text gives by the name that IANA has registered for it,
/// or by `TYPE` and its number (RFC 3597 section 5).
#[unsafe(no_mangle)]
pub extern "C" fn dnsm_type_from_text(text: &[u8], rtype: &mut u16) -> u32
    ensures number { result ≡ 0 → SpellsRegisteredType text.now rtype.new }
    ensures none { result ≢ 0 → (result ≡ number_of CallError.BadText)
        × ((n : ℕ) → SpellsRegisteredType text.now n → ⊥) }
    ensures unchanged { result ≢ 0 → rtype.new ≡ rtype.old }
{
    match read_numbers::read_rtype(text) {
        Some(found) => {
            *rtype = found;
            0
        }
        None => code::of_fault(CallError::BadText),
    }
}

/// Sets `class` to a class, which a text gives by the name that IANA has registered for it, or by
/// `CLASS` and its number (RFC 3597 section 5).
#[unsafe(no_mangle)]
pub extern "C" fn dnsm_class_from_text(text: &[u8], class: &mut u16) -> u32
    ensures number { result ≡ 0 → SpellsRegisteredClass text.now class.new }
    ensures none { result ≢ 0 → (result ≡ number_of CallError.BadText)
        × ((n : ℕ) → SpellsRegisteredClass text.now n → ⊥) }
    ensures unchanged { result ≢ 0 → class.new ≡ class.old }
{
    match read_numbers::read_class(text) {
        Some(found) => {
            *class = found;
            0
        }
        None => code::of_fault(CallError::BadText),
    }
}

/// Sets `opcode` to an opcode, which a text gives by the name that IANA has registered for it, or
/// by `OPCODE` and its number.
#[unsafe(no_mangle)]
pub extern "C" fn dnsm_opcode_from_text(text: &[u8], opcode: &mut u8) -> u32
    ensures number { result ≡ 0 → SpellsOpcode text.now opcode.new }
    ensures none { result ≢ 0 → (result ≡ number_of CallError.BadText)
        × ((n : ℕ) → SpellsOpcode text.now n → ⊥) }
    ensures unchanged { result ≢ 0 → opcode.new ≡ opcode.old }
{
    match read_numbers::read_opcode(text) {
        Some(found) => {
            *opcode = found;
            0
        }
        None => code::of_fault(CallError::BadText),
    }
}

/// Sets `rcode` to an extended rcode (RFC 6891 section 6.1.3), which a text gives by the name that
/// IANA has registered for it, or by `RCODE` and its number.
#[unsafe(no_mangle)]
pub extern "C" fn dnsm_rcode_from_text(text: &[u8], rcode: &mut u16) -> u32
    ensures number { result ≡ 0 → SpellsOptRcode text.now rcode.new }
    ensures none { result ≢ 0 → (result ≡ number_of CallError.BadText)
        × ((n : ℕ) → SpellsOptRcode text.now n → ⊥) }
    ensures unchanged { result ≢ 0 → rcode.new ≡ rcode.old }
{
    match read_numbers::read_rcode(text) {
        Some(found) => {
            *rcode = found;
            0
        }
        None => code::of_fault(CallError::BadText),
    }
}

/// Sets `code` to the code of an option, which a text gives by the name that IANA has registered
/// for it, or by `OPTION` and its number.
#[unsafe(no_mangle)]
pub extern "C" fn dnsm_option_from_text(text: &[u8], code: &mut u16) -> u32
    ensures number { result ≡ 0 → SpellsOption text.now code.new }
    ensures none { result ≢ 0 → (result ≡ number_of CallError.BadText)
        × ((n : ℕ) → SpellsOption text.now n → ⊥) }
    ensures unchanged { result ≢ 0 → code.new ≡ code.old }
{
    match read_numbers::read_option(text) {
        Some(found) => {
            *code = found;
            0
        }
        None => code::of_fault(CallError::BadText),
    }
}

/// Sets `code` to the code of an extended error (RFC 8914), which a text gives by the name that
/// IANA has registered for it, or by `EDE` and its number.
#[unsafe(no_mangle)]
pub extern "C" fn dnsm_extended_error_from_text(text: &[u8], code: &mut u16) -> u32
    ensures number { result ≡ 0 → SpellsExtendedError text.now code.new }
    ensures none { result ≢ 0 → (result ≡ number_of CallError.BadText)
        × ((n : ℕ) → SpellsExtendedError text.now n → ⊥) }
    ensures unchanged { result ≢ 0 → code.new ≡ code.old }
{
    match read_numbers::read_extended_error(text) {
        Some(found) => {
            *code = found;
            0
        }
        None => code::of_fault(CallError::BadText),
    }
}
