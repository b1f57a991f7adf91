//! Record data without a presentation format (RFC 3597 section 5).
ghost use Rattle.std.specs.Prelude.{OnErr, ◌≡◌, ◌++◌, codes, decimal, length};
ghost use Rattle.std.specs.List.{flat_map};
ghost use Rattle.dns_data.specs.Printing.{hex_octet, opaque_text};
ghost use Rattle.fields_table.specs.DataOrders.{part_octets};
ghost use Rattle.fields_table.specs.EncodedFields.{part_of};
ghost use Rattle.fields_records.specs.DataTexts.{data_fields};
ghost use Rattle.fields_records.specs.FieldTexts.{fields_octets};
ghost use Rattle.dns_name.specs.Names.{framed, uncompressed};
ghost use Rattle.dns_name.specs.ParsedName.{label_octets, labels};
ghost use Rattle.dns_print.specs.Printing.{PrintsOnOk};

use dns_name::{Label, ParsedName};
use dns_print::{TextWriter, write_hex, write_hex_octet, write_number};
use fields_table::{Encoded, FieldData};
use std::fmt;

/// The number of octets of a field, uncompressed.
fn size_of(encoded: &Encoded<'_>) -> usize
    ensures { result ≡ length (part_octets (part_of encoded.now)) }
{
    match encoded {
        Encoded::Octets(octets) => octets.len(),
        Encoded::Name(name) | Encoded::UncompressedName(_, name) => name.compose_len(),
    }
}

/// The number of octets of all fields, uncompressed.
fn data_size(data: &FieldData<'_>) -> usize
    ensures { result ≡ length (fields_octets (data_fields data.now)) }
{
    let mut size = 0;
    for field in data.fields() {
        size += size_of(&field.encoded);
    }
    size
}

/// Prints a label after its length, in hexadecimal digits.
#[tactic(auto, using(dns_print::proofs::theory::Prints::prints, std::proofs::lemmas::Grind::common_steps))]
fn write_label<W: TextWriter>(f: &mut W, label: Label<'_>) -> fmt::Result
    ensures text { PrintsOnOk W.takes f.old result
        (flat_map hex_octet (framed (label_octets label.entry))) f.new }
    ensures err { OnErr result W.MayFail }
{
    let octets = label.as_slice();
    write_hex_octet(f, false, octets.len() as u8)?;
    write_hex(f, false, octets)
}

/// Prints the octets of a name, uncompressed, in hexadecimal digits.
fn write_name<W: TextWriter>(f: &mut W, name: &ParsedName<'_>) -> fmt::Result
    ensures text { PrintsOnOk W.takes f.old result
        (flat_map hex_octet (uncompressed (labels name.now))) f.new }
    ensures err { OnErr result W.MayFail }
{
    for label in name.iter_labels() {
        write_label(f, label)?;
    }
    Ok(())
}

/// Prints the octets of a field in hexadecimal digits.
fn write_field<W: TextWriter>(f: &mut W, encoded: &Encoded<'_>) -> fmt::Result
    ensures text { PrintsOnOk W.takes f.old result
        (flat_map hex_octet (part_octets (part_of encoded.now))) f.new }
    ensures err { OnErr result W.MayFail }
{
    match encoded {
        Encoded::Octets(octets) => write_hex(f, false, octets),
        Encoded::Name(name) | Encoded::UncompressedName(_, name) => write_name(f, name),
    }
}

/// Prints the octets of all fields in hexadecimal digits.
fn write_data<W: TextWriter>(f: &mut W, data: &FieldData<'_>) -> fmt::Result
    ensures text { PrintsOnOk W.takes f.old result
        (flat_map hex_octet (fields_octets (data_fields data.now))) f.new }
    ensures err { OnErr result W.MayFail }
{
    for field in data.fields() {
        write_field(f, &field.encoded)?;
    }
    Ok(())
}

/// Prints `\#` and the number of octets.
#[tactic(auto, using(dns_print::proofs::theory::Prints::prints, std::proofs::lemmas::Grind::common_steps))]
fn write_size<W: TextWriter>(f: &mut W, size: usize) -> fmt::Result
    ensures text { PrintsOnOk W.takes f.old result (codes "\\# " ++ decimal size) f.new }
    ensures err { OnErr result W.MayFail }
{
    f.write_text("\\# ")?;
    write_number(f, size as u64)
}

/// Prints the octets of all fields as `write_opaque` does.
#[tactic(auto, using(dns_print::proofs::theory::Prints::prints, crate::proofs::OctetLemmas::opaque_none, crate::proofs::OctetLemmas::opaque_some))]
pub(crate) fn write_unknown<W: TextWriter>(f: &mut W, data: &FieldData<'_>) -> fmt::Result
    ensures text { PrintsOnOk W.takes f.old result
        (opaque_text (fields_octets (data_fields data.now))) f.new }
    ensures err { OnErr result W.MayFail }
{
    let size = data_size(data);
    write_size(f, size)?;
    if size == 0 {
        return Ok(());
    }
    f.write_text(" ")?;
    write_data(f, data)
}

/// Prints octets as RDATA without a presentation format: `\#`, the number of octets, and the octets in
/// lowercase hexadecimal digits if there are any (RFC 3597 section 5).
#[tactic(auto, using(dns_print::proofs::theory::Prints::prints, crate::proofs::OctetLemmas::opaque_none, crate::proofs::OctetLemmas::opaque_some))]
pub fn write_opaque<W: TextWriter>(f: &mut W, octets: &[u8]) -> fmt::Result
    ensures text { PrintsOnOk W.takes f.old result (opaque_text octets.now) f.new }
    ensures err { OnErr result W.MayFail }
{
    write_size(f, octets.len())?;
    if octets.is_empty() {
        return Ok(());
    }
    f.write_text(" ")?;
    write_hex(f, false, octets)
}
