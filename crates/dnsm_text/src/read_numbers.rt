//! Numbers read from the names that IANA has registered, or from a word and the number.
//!
//! ASCII case is ignored. `None` says that the text is of no number.
ghost use Rattle.std.specs.Prelude.{◌≡◌, ◌↔◌, ℕ, Some};
ghost use Rattle.dns_iana.specs.RegisteredTexts.{SpellsExtendedError, SpellsOpcode, SpellsOptRcode, SpellsOption, SpellsRegisteredClass, SpellsRegisteredType};

use dns_iana::{Class, ExtendedErrorCode, Opcode, OptRcode, OptionCode, Rtype};

/// Reads a record type: its registered name, or `TYPE` and a number up to 65,535 (RFC 3597 section
/// 5).
pub fn read_rtype(text: &[u8]) -> Option<u16>
    ensures { (n : ℕ) → SpellsRegisteredType text.now n ↔ (result ≡ Some n) }
{
    let Ok(text) = std::str::from_utf8(text) else {
        return None;
    };
    match Rtype::from_registered_name(text) {
        Some(rtype) => Some(rtype.to_int()),
        None => None,
    }
}

/// Reads a class: its registered name, or `CLASS` and a number up to 65,535 (RFC 3597 section 5).
pub fn read_class(text: &[u8]) -> Option<u16>
    ensures { (n : ℕ) → SpellsRegisteredClass text.now n ↔ (result ≡ Some n) }
{
    let Ok(text) = std::str::from_utf8(text) else {
        return None;
    };
    match Class::from_registered_name(text) {
        Some(class) => Some(class.to_int()),
        None => None,
    }
}

/// Reads an opcode: its registered name, or `OPCODE` and a number up to 255.
pub fn read_opcode(text: &[u8]) -> Option<u8>
    ensures { (n : ℕ) → SpellsOpcode text.now n ↔ (result ≡ Some n) }
{
    let Ok(text) = std::str::from_utf8(text) else {
        return None;
    };
    match Opcode::from_registered_name(text) {
        Some(opcode) => Some(opcode.to_int()),
        None => None,
    }
}

/// Reads an extended rcode: its registered name, or `RCODE` and a number up to 4,095.
pub fn read_rcode(text: &[u8]) -> Option<u16>
    ensures { (n : ℕ) → SpellsOptRcode text.now n ↔ (result ≡ Some n) }
{
    let Ok(text) = std::str::from_utf8(text) else {
        return None;
    };
    match OptRcode::from_registered_name(text) {
        Some(rcode) => Some(rcode.to_int()),
        None => None,
    }
}

/// Reads an option's code: its registered name, or `OPTION` and a number up to 65,535.
pub fn read_option(text: &[u8]) -> Option<u16>
    ensures { (n : ℕ) → SpellsOption text.now n ↔ (result ≡ Some n) }
{
    let Ok(text) = std::str::from_utf8(text) else {
        return None;
    };
    match OptionCode::from_registered_name(text) {
        Some(option) => Some(option.to_int()),
        None => None,
    }
}

/// Reads the code of an extended error: its registered name, or `EDE` and a number up to 65,535.
pub fn read_extended_error(text: &[u8]) -> Option<u16>
    ensures { (n : ℕ) → SpellsExtendedError text.now n ↔ (result ≡ Some n) }
{
    let Ok(text) = std::str::from_utf8(text) else {
        return None;
    };
    match ExtendedErrorCode::from_registered_name(text) {
        Some(extended_error) => Some(extended_error.to_int()),
        None => None,
    }
}
