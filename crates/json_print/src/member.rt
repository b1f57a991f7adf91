//! Members of a JSON object (RFC 8259 section 4).
ghost use Rattle.std.specs.Prelude.{◌≡◌, ◌++◌, OnErr, codes};
ghost use Rattle.json.specs.Json.{boolean, string};
ghost use Rattle.dns_print.specs.Printing.{PrintsOnOk};
ghost use Rattle.json_print.specs.Texts.{boolean_word, json_text, member_text, name_text};
ghost use Rattle.json_print.specs.Values.{numeral};

use crate::printed::PrintText;
use crate::string::{write_quoted, write_string};
use dns_print::{TextWriter, write_number};
use std::fmt;

/// Begins an object: prints a brace, the name of the first member, and a colon. The value of that
/// member follows.
pub fn begin_object<T: TextWriter>(writer: &mut T, name: &str) -> fmt::Result
    ensures text { PrintsOnOk T.takes writer.old result (codes "{" ++ name_text name.now)
        writer.new }
    ensures err { OnErr result T.MayFail }
{
    writer.write_text("{")?;
    write_name(writer, name)
}

/// Goes on in an object: prints a comma, the name of the next member, and a colon. The value of
/// that member follows.
pub fn write_member_name<T: TextWriter>(writer: &mut T, name: &str) -> fmt::Result
    ensures text { PrintsOnOk T.takes writer.old result (codes "," ++ name_text name.now)
        writer.new }
    ensures err { OnErr result T.MayFail }
{
    writer.write_text(",")?;
    write_name(writer, name)
}

/// Prints the name of a member and a colon.
fn write_name<T: TextWriter>(writer: &mut T, name: &str) -> fmt::Result
    ensures text { PrintsOnOk T.takes writer.old result (name_text name.now) writer.new }
    ensures err { OnErr result T.MayFail }
{
    write_quoted(writer, name)?;
    writer.write_text(":")
}

/// Prints the next member, whose value is a number.
pub fn write_number_member<T: TextWriter>(writer: &mut T, name: &str, number: u64) -> fmt::Result
    ensures text { PrintsOnOk T.takes writer.old result (member_text (name.now, numeral number))
        writer.new }
    ensures err { OnErr result T.MayFail }
{
    write_member_name(writer, name)?;
    write_number(writer, number)
}

/// Prints the next member, whose value is true or false.
pub fn write_boolean_member<T: TextWriter>(writer: &mut T, name: &str, value: bool) -> fmt::Result
    ensures text { PrintsOnOk T.takes writer.old result (member_text (name.now, boolean value))
        writer.new }
    ensures err { OnErr result T.MayFail }
{
    write_member_name(writer, name)?;
    write_boolean(writer, value)
}

/// Prints `true` or `false`.
fn write_boolean<T: TextWriter>(writer: &mut T, value: bool) -> fmt::Result
    ensures text { PrintsOnOk T.takes writer.old result (json_text (boolean value)) writer.new }
    ensures err { OnErr result T.MayFail }
{
    writer.write_text(boolean_word(value))
}

fn boolean_word(value: bool) -> &'static str
    ensures { result.now ≡ boolean_word value }
{
    if value { "true" } else { "false" }
}

/// Prints the next member, whose value is the text of `value` as a string.
pub fn write_string_member<T: TextWriter, V: PrintText>(
    writer: &mut T,
    name: &str,
    value: &V,
) -> fmt::Result
    ensures text { PrintsOnOk T.takes writer.old result
        (member_text (name.now, string (V.printed value.now))) writer.new }
    ensures err { OnErr result T.MayFail }
{
    write_member_name(writer, name)?;
    write_string(writer, value)
}
