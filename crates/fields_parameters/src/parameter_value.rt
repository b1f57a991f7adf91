//! Values of service parameters with a named key (RFC 9460 section 7, RFC 9848 section 3, RFC 9461
//! section 5, RFC 9540 section 4). They take no heap memory. What appends one returns `false` if
//! the text is none that fits.
ghost use Rattle.std.specs.Prelude.{◌≡◌, ◌↔◌, [], IsTrue};
ghost use Rattle.fields_parameters.specs.ParameterValues.{AreHints, IsHint, IsNamedValue, IsNothing, IsPort};
ghost use Rattle.fields_parameters.specs.PushedValues.{PushesValue};
ghost use Rattle.fields_text.specs.Strings.{unquoted};

use crate::base64_value::push_ech;
use crate::mandatory::push_mandatory;
use crate::parameter_key::LARGEST_NUMBER;
use crate::protocols::push_alpn;
use crate::value_octets::push_octets;
use arrayvec::ArrayVec;
use fields_plain::{read_ipv4, read_ipv6};
use fields_text::{push_string, read_number};

/// The text between the quotes of a text, or the text if it has none.
pub(crate) fn unquoted(text: &str) -> &str
    ensures { result.now ≡ unquoted text.now }
{
    let Some(after) = text.strip_prefix('"') else {
        return text;
    };
    match after.strip_suffix('"') {
        Some(inner) => inner,
        None => text,
    }
}

/// Whether the text is a string of no octets.
fn is_nothing(text: &str) -> bool
    ensures { IsTrue result ↔ IsNothing text.now [] }
{
    unquoted(text).is_empty()
}

/// Appends the two octets of a port.
fn push_port<const N: usize>(value: &mut ArrayVec<u8, N>, text: &str) -> bool
    ensures { PushesValue N (IsPort text.now) value.old.items value.new.items result }
{
    let Some(port) = read_number(text, LARGEST_NUMBER) else {
        return false;
    };
    push_octets(value, &[(port / 256) as u8, (port % 256) as u8])
}

/// Appends the octets of an address.
fn push_hint<const N: usize>(value: &mut ArrayVec<u8, N>, key: u16, text: &str) -> bool
    ensures { PushesValue N (IsHint key text.now) value.old.items value.new.items result }
{
    if key == 4 {
        let Some(address) = read_ipv4(text.as_bytes()) else {
            return false;
        };
        return push_octets(value, &address);
    }
    let Some(address) = read_ipv6(text.as_bytes()) else {
        return false;
    };
    push_octets(value, &address)
}

/// Appends the octets of addresses with commas between them.
fn push_hints<const N: usize>(value: &mut ArrayVec<u8, N>, key: u16, text: &str) -> bool
    ensures { PushesValue N (AreHints key text.now) value.old.items value.new.items result }
{
    let mut left = text;
    'hints: while let Some((first, others)) = left.split_once(',') {
        if !push_hint(value, key, first) {
            return false;
        }
        left = others;
    }
    push_hint(value, key, left)
}

/// Appends the value of a named key to no octets.
pub(crate) fn push_named<const N: usize>(value: &mut ArrayVec<u8, N>, key: u16, text: &str) -> bool
    requires { value.old.items ≡ [] }
    ensures { PushesValue N (IsNamedValue key text.now) value.old.items value.new.items result }
{
    match key {
        0 => push_mandatory(value, unquoted(text)),
        1 => push_alpn(value, text),
        3 => push_port(value, unquoted(text)),
        4 => push_hints(value, 4, unquoted(text)),
        5 => push_ech(value, unquoted(text)),
        6 => push_hints(value, 6, unquoted(text)),
        7 => push_string(value, text.as_bytes()),
        _ => is_nothing(text),
    }
}
