//! Text and octets in the caller's buffer.
ghost use Rattle.std.specs.Prelude.{◌++◌, ℕ, List};
ghost use Rattle.dnsm_status.specs.CallerBuffers.{Holds};

use dns_print::TextWriter;
use std::fmt;

/// The length of a text, also if the buffer is too short for the text. At most `usize::MAX`.
pub type End = usize;

/// The length of the empty text.
pub const START: End = 0;

/// Appends octets to those in `out`.
pub fn append_octets(octets: &[u8], out: &mut [u8], end: End) -> End
    ensures { (text : List ℕ) → Holds out.old text end
        → Holds out.new (text ++ octets.now) result }
{
    if end > out.len() || octets.len() > out.len() - end {
        return end.saturating_add(octets.len());
    }
    let after = end + octets.len();
    out[end..after].copy_from_slice(octets);
    after
}

/// A writer of text to a buffer. It also counts what doesn't fit, and never fails.
#[derive(Drop)]
pub struct Sink<'a> {
    pub out: &'a mut [u8],
    pub end: End,
}

impl TextWriter for Sink<'_> {
    ghost use Rattle.dnsm_status.specs.Sinks.{AppendsTo};

    ghost takes = { AppendsTo };

    ghost MayFail = { ⊥ };

    fn write_text(&mut self, text: &str) -> fmt::Result {
        self.end = append_octets(text.as_bytes(), self.out, self.end);
        Ok(())
    }
}
