//! Names in zone files (RFC 1035 section 5.1).
ghost use Rattle.std.specs.Prelude.{◌≡◌, OnErr, Some};
ghost use Rattle.std.specs.List.{flat_map};
ghost use Rattle.dns_name.specs.Names.{with_root};
ghost use Rattle.dns_name.specs.ParsedName.{label_octets, labels};
ghost use Rattle.dns_print.specs.Printing.{PrintsOnOk};
ghost use Rattle.fields_plain.specs.ZoneNames.{dotted_label, means_something, zone_name_text, zone_octet_text};

use dns_name::{Label, ParsedName};
use dns_print::{OctetText, TextWriter, write_decimal, write_octets};
use std::fmt;

/// A name that prints as in a zone file: a dot follows each label, and the root is a single dot.
///
/// A backslash precedes the characters that mean something in a zone file: `"`, `$`, `(`, `)`, `.`,
/// `;`, `@` and `\`. An octet that isn't a graphic ASCII character prints as a backslash and three
/// decimal digits.
#[derive(Clone, Copy, Debug)]
pub struct ZoneName<'a>(pub ParsedName<'a>);

/// Whether a character means something in a zone file.
fn means_something(octet: u8) -> bool
    ensures { result ≡ means_something octet }
{
    matches!(octet, b'"' | b'$' | b'(' | b')' | b';' | b'@') || matches!(octet, b'.' | b'\\')
}

#[tactic(auto, using(dns_print::proofs::theory::Prints::prints, std::proofs::lemmas::Grind::common_steps))]
fn write_octet<W: TextWriter>(f: &mut W, octet: u8) -> fmt::Result
    ensures text { PrintsOnOk W.takes f.old result (zone_octet_text octet) f.new }
    ensures err { OnErr result W.MayFail }
{
    if means_something(octet) {
        f.write_char('\\')?;
        return f.write_char(char::from(octet));
    }
    match octet {
        0x21..=0x7e => f.write_char(char::from(octet)),
        _ => write_decimal(f, octet),
    }
}

/// Octets of a label in a zone file.
struct ZoneLabelText;

impl OctetText for ZoneLabelText {
    ghost text_of = { zone_octet_text };

    fn is_plain(octet: u8) -> bool {
        matches!(octet, 0x21..=0x7e) && !means_something(octet)
    }

    fn write_octet<W: TextWriter>(f: &mut W, octet: u8) -> fmt::Result {
        write_octet(f, octet)
    }
}

/// Prints a label and a dot, and nothing for the root label.
#[tactic(auto, using(dns_print::proofs::theory::Prints::prints, std::proofs::lemmas::Grind::common_steps))]
fn write_dotted<W: TextWriter>(f: &mut W, label: Label<'_>) -> fmt::Result
    ensures text { PrintsOnOk W.takes f.old result (dotted_label (label_octets label.entry)) f.new }
    ensures err { OnErr result W.MayFail }
{
    if label.is_root() {
        return Ok(());
    }
    write_octets::<ZoneLabelText, W>(f, label.as_slice())?;
    f.write_text(".")
}

fn write_labels<W: TextWriter>(f: &mut W, name: &ParsedName<'_>) -> fmt::Result
    ensures text { PrintsOnOk W.takes f.old result
        (flat_map dotted_label (with_root (labels name.now))) f.new }
    ensures err { OnErr result W.MayFail }
{
    for label in name.iter_labels() {
        write_dotted(f, label)?;
    }
    Ok(())
}

/// Prints a name as in a zone file: a dot follows each label, and the root is a single dot.
pub fn write_zone_name<W: TextWriter>(f: &mut W, name: &ParsedName<'_>) -> fmt::Result
    ensures text { PrintsOnOk W.takes f.old result (zone_name_text (labels name.now)) f.new }
    ensures err { OnErr result W.MayFail }
{
    if name.is_root() {
        return f.write_text(".");
    }
    write_labels(f, name)
}

impl fmt::Display for ZoneName<'_> {
    ghost output = { λ name. Some (zone_name_text (labels name.0)) };

    ghost styled_output = { λ name _. Some (zone_name_text (labels name.0)) };

    fn fmt<W: fmt::Write>(&self, f: &mut fmt::Formatter<W>) -> fmt::Result {
        write_zone_name(f, &self.0)
    }
}
