//! Character strings and tags (RFC 1035 section 5.1; tags: RFC 8659 section 4.1).
ghost use Rattle.std.specs.Prelude.{OnErr, Some, ◌≡◌, true};
ghost use Rattle.std.specs.Char.{is_ascii_alphanumeric};
ghost use Rattle.std.specs.List.{flat_map, list_all};
ghost use Rattle.dns_print.specs.Printing.{PrintsOnOk};
ghost use Rattle.fields_text.specs.String.{is_tag, quoted, string_octet};

use dns_print::{OctetText, TextWriter, write_ascii, write_decimal, write_octets};
use std::fmt;

/// Octets that print in quotes. A backslash precedes a quote or a backslash. An octet that is neither
/// a graphic ASCII character nor a space is printed as a backslash and three decimal digits.
#[derive(Clone, Copy, Debug)]
pub struct Quoted<'a>(pub &'a [u8]);

/// Prints an octet of a quoted string.
#[tactic(auto, using(dns_print::proofs::theory::Prints::prints, std::proofs::lemmas::Grind::common_steps))]
fn write_octet<W: TextWriter>(f: &mut W, octet: u8) -> fmt::Result
    ensures text { PrintsOnOk W.takes f.old result (string_octet octet) f.new }
    ensures err { OnErr result W.MayFail }
{
    match octet {
        b'"' | b'\\' => {
            f.write_char('\\')?;
            f.write_char(char::from(octet))
        }
        0x20..=0x7e => f.write_char(char::from(octet)),
        _ => write_decimal(f, octet),
    }
}

/// Octets between quotes.
struct StringText;

impl OctetText for StringText {
    ghost text_of = { string_octet };

    fn is_plain(octet: u8) -> bool {
        matches!(octet, 0x20..=0x7e) && octet != b'"' && octet != b'\\'
    }

    fn write_octet<W: TextWriter>(f: &mut W, octet: u8) -> fmt::Result {
        write_octet(f, octet)
    }
}

/// Prints octets in quotes, with escapes (RFC 1035 section 5.1).
#[tactic(auto, using(dns_print::proofs::theory::Prints::prints, std::proofs::lemmas::Grind::common_steps))]
pub fn write_quoted<W: TextWriter>(f: &mut W, octets: &[u8]) -> fmt::Result
    ensures text { PrintsOnOk W.takes f.old result (quoted octets.now) f.new }
    ensures err { OnErr result W.MayFail }
{
    f.write_text("\"")?;
    write_octets::<StringText, W>(f, octets)?;
    f.write_text("\"")
}

impl fmt::Display for Quoted<'_> {
    ghost output = { λ string. Some (quoted string.0.now) };

    ghost styled_output = { λ string _. Some (quoted string.0.now) };

    fn fmt<W: fmt::Write>(&self, f: &mut fmt::Formatter<W>) -> fmt::Result {
        write_quoted(f, self.0)
    }
}

/// Letters and digits, which print as they are.
#[derive(Clone, Copy, Debug)]
pub struct Tag<'a> {
    octets: &'a [u8],
    ghost alphanumeric: { is_tag octets.now ≡ true },
}

/// Whether all octets are letters and digits.
fn are_alphanumeric(octets: &[u8]) -> bool
    ensures { result ≡ list_all is_ascii_alphanumeric octets.now }
{
    for octet in octets {
        if !octet.is_ascii_alphanumeric() {
            return false;
        }
    }
    true
}

/// Whether the octets are letters and digits, one at least.
fn is_tag(octets: &[u8]) -> bool
    ensures { result ≡ is_tag octets.now }
{
    !octets.is_empty() && are_alphanumeric(octets)
}

impl<'a> Tag<'a> {
    ghost use Rattle.std.specs.Prelude.{IfSome, is_some};
    ghost use Rattle.fields_text.specs.Tags.{tag_octets};

    /// The tag that is these octets. `None` if they aren't letters and digits, one at least.
    pub fn from_octets(octets: &'a [u8]) -> Option<Self>
        ensures found { is_some result ≡ is_tag octets.now }
        ensures octets { IfSome result (λ tag. tag_octets tag ≡ octets.now) }
    {
        if is_tag(octets) {
            Some(Tag { octets })
        } else {
            None
        }
    }
}

impl Tag<'_> {
    ghost use Rattle.fields_text.specs.Tags.{tag_octets};

    /// Prints the letters and digits (RFC 8659 section 4.1).
    pub fn write<W: TextWriter>(&self, f: &mut W) -> fmt::Result
        ensures text { PrintsOnOk W.takes f.old result (tag_octets self.now) f.new }
        ensures err { OnErr result W.MayFail }
    {
        write_ascii(f, self.octets)
    }
}

impl fmt::Display for Tag<'_> {
    ghost use Rattle.fields_text.specs.Tags.{tag_octets};

    ghost output = { λ tag. Some (tag_octets tag) };

    ghost styled_output = { λ tag _. Some (tag_octets tag) };

    fn fmt<W: fmt::Write>(&self, f: &mut fmt::Formatter<W>) -> fmt::Result {
        self.write(f)
    }
}
