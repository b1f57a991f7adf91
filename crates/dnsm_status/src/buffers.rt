//! What calls leave in the buffers of their callers.
ghost use Rattle.std.specs.Prelude.{◌≡◌, ◌≢◌, ◌<◌, ◌≤◌, ◌+◌, ◌-◌, ◌^◌, ◌++◌, ◌∷◌, ℕ, List, [], length, get_or, take, min};
ghost use Rattle.dnsm_status.specs.CallerBuffers.{Holds, WritesOctets, WritesText};
ghost use Rattle.dnsm_status.specs.Codes.{number_of};

use crate::code;
use crate::code::CallError;
use crate::sink::End;

/// Reports a fault: sets the length to 0 and returns the number of the fault.
pub fn refuse(fault: CallError, len: &mut usize) -> u32
    ensures code { result ≡ number_of fault }
    ensures own { (other : CallError) → number_of other ≡ result → other ≡ fault }
    ensures empty { len.new ≡ 0 }
{
    *len = 0;
    code::of_fault(fault)
}

/// Copies octets to the beginning of `out`, and sets `len` to their count, also if `out` is too
/// short for them.
pub fn hand_out(octets: &[u8], out: &mut [u8], len: &mut usize) -> u32
    ensures writes { WritesOctets out.old out.new len.new result }
    ensures counted { len.new ≡ length octets.now }
    ensures octets { result ≡ 0 → take len.new out.new ≡ octets.now }
    ensures capacity { result ≢ 0 → (result ≡ number_of CallError.NoRoom)
        × (length out.old < length octets.now) }
{
    *len = octets.len();
    if octets.len() > out.len() {
        return code::of_fault(CallError::NoRoom);
    }
    out[..octets.len()].copy_from_slice(octets);
    0
}

/// Terminates a text with a zero octet, sets `len` to its length, and returns the status.
pub fn finish(end: End, out: &mut [u8], len: &mut usize) -> u32
    ensures writes { WritesText out.old out.new len.new result }
    ensures ended { result ≡ 0 → get_or out.new len.new 1 ≡ 0 }
    ensures fault { result ≢ 0 → result ≡ number_of CallError.NoRoom }
    ensures text { (text : List ℕ) → Holds out.old text end → result ≡ 0
        → take (len.new + 1) out.new ≡ text ++ 0 ∷ [] }
    ensures capacity { (text : List ℕ) → Holds out.old text end → result ≢ 0
        → length out.old < length text + 1 }
    ensures counted { (text : List ℕ) → Holds out.old text end
        → len.new ≡ min (length text) (2 ^ 64 - 1) }
{
    *len = end;
    if end >= out.len() {
        return code::of_fault(CallError::NoRoom);
    }
    out[end] = 0;
    0
}

/// Sets `len` to the length of octets that were written, and returns the status.
pub fn finish_octets(size: End, out: &[u8], len: &mut usize) -> u32
    ensures within { result ≡ 0 → len.new ≤ length out.now }
    ensures octets { (octets : List ℕ) → Holds out.now octets size → length octets < 2 ^ 63
        → result ≡ 0 → take len.new out.now ≡ octets }
    ensures fault { result ≢ 0 → result ≡ number_of CallError.NoRoom }
    ensures capacity { (octets : List ℕ) → Holds out.now octets size → result ≢ 0
        → length out.now < length octets }
    ensures counted { (octets : List ℕ) → Holds out.now octets size → length octets < 2 ^ 63
        → len.new ≡ length octets }
{
    *len = size;
    if size > out.len() {
        return code::of_fault(CallError::NoRoom);
    }
    0
}
