//! Record data in presentation format (RFC 1035 section 5.1, RFC 3597 section 5).
ghost use Rattle.std.specs.Prelude.{IfSome, OnErr, OnSome, ◌≡◌, [], Some, is_some};
ghost use Rattle.std.specs.List.{list_all};
ghost use Rattle.fields_table.specs.FieldParts.{named_part};
ghost use Rattle.dns_print.specs.Printing.{PrintsOnOk};
ghost use Rattle.fields_records.specs.DataTexts.{data_fields, data_line};
ghost use Rattle.fields_records.specs.FieldTexts.{always_has_text, field_text, fields_text, space_before};

use crate::field_text::{always_has_text, begins_with_space, has_text, write_text};
use crate::unknown::write_unknown;
use dns_data::RecordData;
use dns_print::TextWriter;
use fields_table::{Field, FieldData, Kind, fields_of};
use std::fmt;

/// Record data that prints in presentation format: its fields, separated by spaces. If a field has no
/// presentation format, the data prints as `\#`, the number of octets, and the octets in hexadecimal
/// digits.
#[derive(Clone, Copy, Debug)]
pub struct DataText<'d, 'a>(pub &'d FieldData<'a>);

/// Whether fields of these kinds have a presentation format, whatever their values are.
fn always_have_texts(fields: &[(&str, Kind)]) -> bool
    ensures { result ≡ list_all (λ field. always_has_text field.1) fields.now }
{
    for field in fields {
        if !always_has_text(field.1) {
            return false;
        }
    }
    true
}

/// Whether each field has a presentation format.
fn each_has_text(data: &FieldData<'_>) -> bool
    ensures { result ≡ is_some (fields_text [] (data_fields data.now)) }
{
    for field in data.fields() {
        if !has_text(field.kind, &field.value()) {
            return false;
        }
    }
    true
}

/// Whether each field has a presentation format, so that the data prints as its fields. Reads no
/// fields of a type whose fields always have one.
pub fn is_printable(data: &FieldData<'_>) -> bool
    ensures { result ≡ is_some (fields_text [] (data_fields data.now)) }
{
    if always_have_texts(fields_of(data.rtype().to_int())) {
        return true;
    }
    each_has_text(data)
}

/// Prints the separator, unless the text of the field begins with a space.
#[tactic(auto, using(dns_print::proofs::theory::Prints::prints, std::proofs::lemmas::Grind::common_steps))]
fn write_space<W: TextWriter>(f: &mut W, kind: Kind, separator: &str) -> fmt::Result
    ensures text { PrintsOnOk W.takes f.old result (space_before kind separator.now) f.new }
    ensures err { OnErr result W.MayFail }
{
    if begins_with_space(kind) {
        return Ok(());
    }
    f.write_text(separator)
}

/// Prints a field after its space.
fn write_field<W: TextWriter>(f: &mut W, separator: &str, field: &Field<'_>) -> fmt::Result
    ensures text { IfSome (field_text separator.now (named_part field.now))
        (λ text. PrintsOnOk W.takes f.old result text f.new) }
    ensures err { OnSome (field_text separator.now (named_part field.now))
        (OnErr result W.MayFail) }
{
    write_space(f, field.kind, separator)?;
    write_text(f, field.kind, &field.value())
}

/// Prints the fields, separated by spaces.
fn write_fields<W: TextWriter>(f: &mut W, data: &FieldData<'_>) -> fmt::Result
    ensures text { IfSome (fields_text [] (data_fields data.now))
        (λ text. PrintsOnOk W.takes f.old result text f.new) }
    ensures err { OnSome (fields_text [] (data_fields data.now)) (OnErr result W.MayFail) }
{
    let mut separator = "";
    for field in data.fields() {
        write_field(f, separator, &field)?;
        separator = " ";
    }
    Ok(())
}

/// Prints record data in presentation format: its fields, separated by spaces. If a field has no
/// presentation format, the data prints as `write_opaque` prints its octets, with names uncompressed
/// (RFC 1035 section 5.1, RFC 3597 section 5).
pub fn write_data_text<W: TextWriter>(f: &mut W, data: &FieldData<'_>) -> fmt::Result
    ensures text { PrintsOnOk W.takes f.old result (data_line data.now) f.new }
    ensures err { OnErr result W.MayFail }
{
    if is_printable(data) {
        write_fields(f, data)
    } else {
        write_unknown(f, data)
    }
}

impl fmt::Display for DataText<'_, '_> {
    ghost output = { λ text. Some (data_line text.0.now) };

    ghost styled_output = { λ text _. Some (data_line text.0.now) };

    fn fmt<W: fmt::Write>(&self, f: &mut fmt::Formatter<W>) -> fmt::Result {
        write_data_text(f, self.0)
    }
}
