//! The fields of RDATA, as a case has them.
ghost use Rattle.std.specs.Prelude.{OnOk};
ghost use Rattle.std.specs.Io.KnownBytes.{Appends};
ghost use Rattle.hex.specs.Hex.{encode_lower};

use fields_table::{FieldData, Value};
use std::alloc::Global;
use std::io;
use std::io::Write;

/// Writes each field as a space, its name and its value.
pub(crate) fn write_values<W: Write>(
    alloc: Global,
    writer: &mut W,
    data: &FieldData<'_>,
) -> io::Result<()> {
    for field in data.fields() {
        write!(writer, " {}=", field.name)?;
        print_value(alloc, writer, &field.value())?;
    }
    Ok(())
}

/// Prints numbers as decimal digits, and octets as hexadecimal digits.
fn print_value<W: Write>(alloc: Global, writer: &mut W, value: &Value<'_>) -> io::Result<()> {
    match value {
        Value::Number(number) => write!(writer, "{number}"),
        Value::RecordType(rtype) => write!(writer, "{}", rtype.to_int()),
        Value::Name(name) => write!(writer, "{name}."),
        Value::Ipv4(octets)
        | Value::Ipv6(octets)
        | Value::String(octets)
        | Value::Sized(octets)
        | Value::Octets(octets) => print_digits(alloc, writer, octets),
    }
}

/// Prints octets as two lowercase hexadecimal digits each.
fn print_digits<W: Write>(alloc: Global, writer: &mut W, octets: &[u8]) -> io::Result<()>
    ensures { OnOk result (Appends (W.contents writer.old) (W.contents writer.new)
        (encode_lower octets.now)) }
{
    let digits = hex::encode(alloc, octets)?;
    writer.write_all(digits.as_bytes())
}
