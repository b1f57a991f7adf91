//! Values of the service parameter `ech` (RFC 9848 section 3).
ghost use Rattle.std.specs.Prelude.{◌≡◌, ◌<◌, ◌≤◌, ℕ, [], List, MatchOption, length, take};
ghost use Rattle.fields_parameters.specs.ParameterValues.{IsEch};
ghost use Rattle.fields_parameters.specs.PushedValues.{DecodesInto, PushesValue};

use arrayvec::ArrayVec;
use base64::engine::general_purpose::STANDARD;

/// Sets the value to this many zeros.
fn fill<const N: usize>(value: &mut ArrayVec<u8, N>, size: usize)
    requires { size ≤ N }
    ensures { length value.new.items ≡ size }
{
    value.clear();
    for _count in 0..size {
        value.push(0);
    }
}

/// Decodes base64 over the first of these octets, and returns how many it is. `None` if the text is
/// no base64, or of more octets than these.
fn decode(octets: &mut [u8], text: &str) -> Option<usize>
    ensures { DecodesInto text.now octets.old octets.new result }
{
    STANDARD.decode_slice(text.as_bytes(), octets).ok()
}

/// Appends the octets of base64, one at least.
pub(crate) fn push_ech<const N: usize>(value: &mut ArrayVec<u8, N>, text: &str) -> bool
    requires { value.old.items ≡ [] }
    ensures { PushesValue N (IsEch text.now) value.old.items value.new.items result }
{
    let most = (text.len() / 4 + 1) * 3;
    fill(value, most.min(N));
    let Some(size) = decode(value.as_mut_slice(), text) else {
        return false;
    };
    if size == 0 {
        return false;
    }
    value.truncate(size);
    true
}
