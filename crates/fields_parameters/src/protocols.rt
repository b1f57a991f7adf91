//! Values of the service parameter `alpn` (RFC 9460 section 7.1 and appendix A.1).
ghost use Rattle.std.specs.Prelude.{◌≡◌, ◌≢◌, ◌<◌, length, MatchOption};
ghost use Rattle.fields_parameters.specs.ParameterValues.{IsAlpn, comma};
ghost use Rattle.fields_parameters.specs.ProtocolNames.{BeginsName, BeginsNone, ContinuesNames, IsCountedName, NamesExceed, SpellsNames};
ghost use Rattle.fields_parameters.specs.PushedValues.{PushesValue};

use crate::parameter_value::unquoted;
use crate::value_octets::push_octets;
use arrayvec::ArrayVec;
use fields_text::split_octet;

/// The octets of a name, whose length takes eight bits.
type NameOctets = ArrayVec<u8, 255>;

/// Appends a name of 1 to 255 octets after its length.
fn push_name<const N: usize>(value: &mut ArrayVec<u8, N>, name: &NameOctets) -> bool
    ensures { PushesValue N (IsCountedName name.now.items) value.old.items value.new.items result }
{
    if name.is_empty() {
        return false;
    }
    if !push_octets(value, &[name.len() as u8]) {
        return false;
    }
    push_octets(value, name.as_slice())
}

/// The octet of a name that a list begins with, and the text after it. The list is the octet
/// `first` and those that the text spells. In names a backslash precedes commas and backslashes.
fn split_name_octet(first: u8, text: &[u8]) -> Option<(u8, &[u8])>
    requires { first ≢ comma }
    ensures { MatchOption result (BeginsNone first text.now)
        (λ split. BeginsName first text.now split.0 split.1.now) }
{
    if first != b'\\' {
        return Some((first, text));
    }
    let Some((octet, left)) = split_octet(text) else {
        return None;
    };
    if octet == b',' {
        return Some((octet, left));
    }
    if octet == b'\\' {
        return Some((octet, left));
    }
    None
}

/// Moves an octet of a name from the text to `name`, or appends the name if the text begins with a
/// comma. Returns the text after it.
fn push_first<'a, const N: usize>(
    value: &mut ArrayVec<u8, N>,
    name: &mut NameOctets,
    text: &'a [u8],
) -> Option<&'a [u8]>
    requires { 0 < length text.now }
    ensures { MatchOption result
        (NamesExceed N name.old.items text.now value.old.items)
        (λ left. (length left.now < length text.now) × ContinuesNames N name.old.items text.now
        value.old.items name.new.items left.now value.new.items) }
{
    let Some((first, after)) = split_octet(text) else {
        return None;
    };
    if first == b',' {
        if !push_name(value, name) {
            return None;
        }
        name.clear();
        return Some(after);
    }
    let Some((octet, left)) = split_name_octet(first, after) else {
        return None;
    };
    match name.try_push(octet) {
        Ok(()) => Some(left),
        Err(_) => None,
    }
}

/// Appends the names of a list, whose first one begins with the octets of `name`.
fn push_names<const N: usize>(
    value: &mut ArrayVec<u8, N>,
    name: &mut NameOctets,
    text: &[u8],
) -> bool
    ensures { PushesValue N (SpellsNames name.old.items text.now)
        value.old.items value.new.items result }
{
    let mut left = text;
    'octets: while !left.is_empty() {
        match push_first(value, name, left) {
            Some(after) => left = after,
            None => return false,
        }
    }
    push_name(value, name)
}

/// Appends the octets of a string of protocol names with commas between them.
pub(crate) fn push_alpn<const N: usize>(value: &mut ArrayVec<u8, N>, text: &str) -> bool
    ensures { PushesValue N (IsAlpn text.now) value.old.items value.new.items result }
{
    let mut name = ArrayVec::new();
    push_names(value, &mut name, unquoted(text).as_bytes())
}
