//! Keys of service parameters (RFC 9460 section 2.1).
ghost use Rattle.std.specs.Prelude.{◌≡◌, ◌↔◌, ℕ};
ghost use Rattle.fields_parameters.specs.ParameterKeys.{IsKey, IsNamedKey, IsNumberedKey, IsPlainNumber};

use fields_text::read_number;

/// The largest number of 16 bits: a key, or a port.
pub(crate) const LARGEST_NUMBER: u64 = 65_535;

/// The key of a name.
pub(crate) fn named_key(name: &str) -> Option<u16>
    ensures { (key : ℕ) → IsNamedKey name.now key ↔ (result ≡ Some key) }
{
    if name == "mandatory" {
        return Some(0);
    }
    if name == "alpn" {
        return Some(1);
    }
    if name == "no-default-alpn" {
        return Some(2);
    }
    if name == "port" {
        return Some(3);
    }
    if name == "ipv4hint" {
        return Some(4);
    }
    if name == "ech" {
        return Some(5);
    }
    if name == "ipv6hint" {
        return Some(6);
    }
    if name == "dohpath" {
        return Some(7);
    }
    if name == "ohttp" {
        return Some(8);
    }
    None
}

/// The number of 16 bits in decimal digits without leading zeros.
fn plain_number(digits: &str) -> Option<u16>
    ensures { (number : ℕ) → IsPlainNumber digits.now number ↔ (result ≡ Some number) }
{
    if digits == "0" {
        return Some(0);
    }
    if digits.starts_with('0') {
        return None;
    }
    let Some(number) = read_number(digits, LARGEST_NUMBER) else {
        return None;
    };
    Some(number as u16)
}

/// The key whose number follows the word `key`.
pub(crate) fn numbered_key(name: &str) -> Option<u16>
    ensures { (key : ℕ) → IsNumberedKey name.now key ↔ (result ≡ Some key) }
{
    let Some(digits) = name.strip_prefix("key") else {
        return None;
    };
    plain_number(digits)
}

/// The key of a name, or whose number follows the word `key`.
pub(crate) fn read_key(text: &str) -> Option<u16>
    ensures { (key : ℕ) → IsKey text.now key ↔ (result ≡ Some key) }
{
    match named_key(text) {
        Some(key) => Some(key),
        None => numbered_key(text),
    }
}
