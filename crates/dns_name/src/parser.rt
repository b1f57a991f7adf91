ghost use Rattle.std.specs.Prelude.{◌≡◌, ◌+◌, ◌<◌, ◌≤◌, length, ⊤, OnOk, IfErr, slice_range, take};
ghost use Rattle.std.specs.Int.{w16, w32};

use dns_octets::ParseError;

/// An offset in an input, where values are read, and an end that reading can't pass.
///
/// Offsets count octets from the start of the input. A call that returns an error leaves the parser
/// unchanged.
#[derive(Clone, Copy, Debug)]
pub struct Parser<'a> {
    pub(crate) octets: &'a [u8],
    pub(crate) pos: usize,
    pub(crate) end: usize,
    ghost before_end: { pos ≤ end },
    ghost within: { end ≤ length octets.now },
}

impl<'a> Parser<'a> {
    ghost use Rattle.dns_name.specs.Parsers.{input, seen, offset, number_at, MovesTo, Takes, Peeks};

    /// Creates a parser at offset 0 that ends at the end of `octets`.
    pub fn new(octets: &'a [u8]) -> Self
        ensures input { input result ≡ octets.now }
        ensures seen { seen result ≡ octets.now }
        ensures offset { offset result ≡ 0 }
    {
        Parser {
            octets,
            pos: 0,
            end: octets.len(),
        }
    }

    /// Returns the offset in the input.
    pub fn pos(&self) -> usize
        ensures { result ≡ offset self.now }
    {
        self.pos
    }

    /// Returns the number of octets left before the end.
    pub fn remaining(&self) -> usize
        ensures { offset self.now + result ≡ length (seen self.now) }
    {
        self.end - self.pos
    }

    /// Returns the whole input, past the parser's end too.
    pub fn as_slice(&self) -> &'a [u8]
        ensures { result.now ≡ input self.now }
    {
        self.octets
    }

    /// Skips `n` octets. Returns `ShortInput` if fewer are left.
    pub fn advance(&mut self, n: usize) -> Result<(), ParseError>
        ensures { Takes self.old self.new n result (λ _. ⊤) }
    {
        if n > self.remaining() {
            return Err(ParseError::ShortInput);
        }
        self.pos += n;
        Ok(())
    }

    /// Moves to offset `pos`. Returns `ShortInput` if it is past the end.
    pub fn seek(&mut self, pos: usize) -> Result<(), ParseError>
        ensures ok { OnOk result ((pos ≤ length (seen self.old)) × MovesTo self.old self.new pos) }
        ensures err { IfErr result (λ e. (length (seen self.old) < pos)
            × (e ≡ ParseError.ShortInput) × (self.new ≡ self.old)) }
    {
        if pos > self.end {
            return Err(ParseError::ShortInput);
        }
        self.pos = pos;
        Ok(())
    }

    /// Returns the next `n` octets without moving. Returns `ShortInput` if fewer are left.
    pub fn peek(&self, n: usize) -> Result<&'a [u8], ParseError>
        ensures { Peeks self.now n result (λ octets. octets.now
            ≡ slice_range (seen self.now) (offset self.now) (offset self.now + n)) }
    {
        if n > self.remaining() {
            return Err(ParseError::ShortInput);
        }
        Ok(&self.seen()[self.pos..self.pos + n])
    }

    /// Reads a big-endian number of two octets. Returns `ShortInput` if fewer are left.
    pub fn parse_u16_be(&mut self) -> Result<u16, ParseError>
        ensures { Takes self.old self.new 2 result
            (λ value. value ≡ number_at w16 (seen self.old) (offset self.old)) }
    {
        let octets = self.peek(2)?;
        let value = u16::from_be_bytes([octets[0], octets[1]]);
        self.pos += 2;
        Ok(value)
    }

    /// Reads a big-endian number of four octets. Returns `ShortInput` if fewer are left.
    pub fn parse_u32_be(&mut self) -> Result<u32, ParseError>
        ensures { Takes self.old self.new 4 result
            (λ value. value ≡ number_at w32 (seen self.old) (offset self.old)) }
    {
        let octets = self.peek(4)?;
        let value = u32::from_be_bytes([octets[0], octets[1], octets[2], octets[3]]);
        self.pos += 4;
        Ok(value)
    }

    /// Returns a parser at this offset that ends `n` octets later, and skips these octets. Returns
    /// `ShortInput` if fewer are left.
    ///
    /// The inner parser sees all octets before its end, so pointers can lead to octets before its
    /// start.
    pub fn parse_parser(&mut self, n: usize) -> Result<Parser<'a>, ParseError>
        ensures { Takes self.old self.new n result
            (λ inner. (input inner ≡ input self.old)
            × (seen inner ≡ take (offset self.old + n) (seen self.old))
            × (offset inner ≡ offset self.old)) }
    {
        let mut inner = *self;
        self.advance(n)?;
        inner.end = self.pos;
        Ok(inner)
    }

    /// Returns the octets before the end.
    pub(crate) fn seen(&self) -> &'a [u8]
        ensures { result.now ≡ seen self.now }
    {
        &self.octets[..self.end]
    }
}
