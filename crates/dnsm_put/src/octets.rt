//! Octets that are written over others.
ghost use Rattle.std.specs.Prelude.{◌≡◌, ◌+◌, ◌≤◌, length, slice_range, IsSome, IfSome, IfNone};
ghost use Rattle.dnsm_put.specs.Writing.{IsPut};

/// Copies octets over others. No octets, and the four of an address, take no call.
#[inline(always)]
fn copy(target: &mut [u8], octets: &[u8])
    requires { length target.old ≡ length octets.now }
    ensures { target.new ≡ octets.now }
{
    if octets.is_empty() {
        return;
    }
    if octets.len() == 4 {
        target.copy_from_slice(octets);
        return;
    }
    target.copy_from_slice(octets);
}

/// Writes `octets` at offset `at`. Returns the offset after them, or `None` if it would be past
/// `most`.
#[inline(always)]
pub(crate) fn put_octets(out: &mut [u8], at: usize, most: usize, octets: &[u8]) -> Option<usize>
    requires { most ≤ length out.old }
    ensures put { IfSome result (IsPut out.old out.new at most octets.now) }
    ensures same { IfNone result (out.new ≡ out.old) }
    ensures room { at + length octets.now ≤ most → IsSome result }
{
    if at > most || octets.len() > most - at {
        return None;
    }
    let end = at + octets.len();
    copy(&mut out[at..end], octets);
    Some(end)
}
