//! Printing of names in presentation format (RFC 1035 section 5.1).
ghost use Rattle.std.specs.Prelude.{◌≡◌, OnErr, Some, ℕ};
ghost use Rattle.dns_name.specs.ParsedName.{label_octets, labels};
ghost use Rattle.dns_name.specs.NameReading.{name_labels};
ghost use Rattle.dns_name.specs.DottedNames.{dotted_labels};
ghost use Rattle.dns_name.specs.NameTexts.{dotted_text, label_text, name_text, octet_text};
ghost use Rattle.dns_print.specs.Printing.{PrintsOnOk};

use crate::label::Label;
use crate::name::Name;
use crate::parsed_name::ParsedName;
use crate::to_name::ToName;
use dns_octets::Octets;
use dns_print::{OctetText, TextWriter, write_decimal, write_octets};
use std::fmt;

/// Prints an octet of a label in presentation format.
#[tactic(auto, using(dns_print::proofs::theory::Prints::prints, std::proofs::lemmas::Grind::common_steps))]
pub fn write_octet<W: TextWriter>(writer: &mut W, octet: u8) -> fmt::Result
    ensures text { PrintsOnOk W.takes writer.old result (octet_text octet) writer.new }
    ensures err { OnErr result W.MayFail }
{
    match octet {
        b'.' | b'\\' => {
            writer.write_char('\\')?;
            writer.write_char(char::from(octet))
        }
        0x21..=0x7e => writer.write_char(char::from(octet)),
        _ => write_decimal(writer, octet),
    }
}

/// Octets of a label in presentation format.
struct LabelText;

impl OctetText for LabelText {
    ghost text_of = { octet_text };

    fn is_plain(octet: u8) -> bool {
        matches!(octet, 0x21..=0x7e) && octet != b'.' && octet != b'\\'
    }

    fn write_octet<W: TextWriter>(writer: &mut W, octet: u8) -> fmt::Result {
        write_octet(writer, octet)
    }
}

/// Prints a label in presentation format.
pub fn write_label<W: TextWriter>(writer: &mut W, label: Label<'_>) -> fmt::Result
    ensures text { PrintsOnOk W.takes writer.old result (label_text (label_octets label.entry))
        writer.new }
    ensures err { OnErr result W.MayFail }
{
    write_octets::<LabelText, W>(writer, label.as_slice())
}

/// Prints the labels separated by dots, and nothing for the root label.
pub fn write_name<W: TextWriter>(writer: &mut W, name: &ParsedName<'_>) -> fmt::Result
    ensures text { PrintsOnOk W.takes writer.old result (name_text (labels name.now)) writer.new }
    ensures err { OnErr result W.MayFail }
{
    let mut separator = "";
    for label in name.iter_labels() {
        if !label.is_root() {
            writer.write_text(separator)?;
            write_label(writer, label)?;
            separator = ".";
        }
    }
    Ok(())
}

/// Prints the labels separated by dots, and a final dot. The root is a single dot.
#[tactic(auto, using(dns_print::proofs::theory::Prints::prints))]
pub fn write_dotted_name<W: TextWriter>(writer: &mut W, name: &ParsedName<'_>) -> fmt::Result
    ensures text { PrintsOnOk W.takes writer.old result (dotted_text (labels name.now))
        writer.new }
    ensures err { OnErr result W.MayFail }
{
    write_name(writer, name)?;
    writer.write_text(".")
}

/// Prints the labels separated by dots, without a final dot. The root is the empty text.
///
/// A backslash precedes a dot or a backslash within a label. An octet that isn't a graphic ASCII
/// character is printed as a backslash and three decimal digits.
impl<Octs: Octets> fmt::Display for Name<Octs> {
    ghost output = { λ name. Some (name_text (name_labels name)) };

    ghost styled_output = { λ name _. Some (name_text (name_labels name)) };

    fn fmt<W: fmt::Write>(&self, f: &mut fmt::Formatter<W>) -> fmt::Result {
        fmt::Display::fmt(&self.as_parsed(), f)
    }
}

/// Prints the same text as for an uncompressed name.
impl fmt::Display for ParsedName<'_> {
    ghost output = { λ name. Some (name_text (labels name)) };

    ghost styled_output = { λ name _. Some (name_text (labels name)) };

    fn fmt<W: fmt::Write>(&self, f: &mut fmt::Formatter<W>) -> fmt::Result {
        write_name(f, self)
    }
}

/// A name that is printed with a final dot. The root is a single dot.
#[derive(Clone, Copy, Debug)]
pub struct DisplayWithDot<'a> {
    name: ParsedName<'a>,
}

/// Prints the text of the name and a dot.
impl fmt::Display for DisplayWithDot<'_> {
    ghost output = { λ it. Some (dotted_text (dotted_labels it)) };

    ghost styled_output = { λ it _. Some (dotted_text (dotted_labels it)) };

    fn fmt<W: fmt::Write>(&self, f: &mut fmt::Formatter<W>) -> fmt::Result {
        write_dotted_name(f, &self.name)
    }
}

impl<'a> ParsedName<'a> {
    /// Returns a value that displays the name with a final dot. The root is a single dot.
    pub fn fmt_with_dot(&self) -> DisplayWithDot<'a>
        ensures { dotted_labels result ≡ labels self.now }
    {
        DisplayWithDot { name: *self }
    }
}
