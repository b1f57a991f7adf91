//! A message as a JSON object (RFC 8427 section 2.1).
ghost use Rattle.std.specs.Prelude.{OnErr, OnOk, Some};
ghost use Rattle.std.specs.Io.KnownBytes.{Appends};
ghost use Rattle.dns_print.specs.Printing.{PrintsOnOk};
ghost use Rattle.dns_read.specs.Message.{message_octets};
ghost use Rattle.json_print.specs.Texts.{members_text, object_front};
ghost use Rattle.dns_json.specs.Messages.{body_members, head_members, message_json_text, octets_json_text, octets_members};

use crate::header::{write_counts, write_header};
use crate::question::{write_asked, write_questions};
use crate::readable::is_whole;
use crate::section::write_sections;
use crate::text::HexText;
use dns_print::TextWriter;
use dns_read::Message;
use json_print::{begin_object, write_string, write_string_member};
use std::io::Write;
use std::{fmt, io};

/// A message that prints as a JSON object (RFC 8427), without white space.
#[derive(Clone, Copy, Debug)]
pub struct MessageJson<'m, 'a>(pub &'m Message<&'a [u8]>);

impl fmt::Display for MessageJson<'_, '_> {
    ghost output = { λ json. Some (message_json_text (message_octets json.0.now)) };

    ghost styled_output = { λ json _. Some (message_json_text (message_octets json.0.now)) };

    fn fmt<W: fmt::Write>(&self, f: &mut fmt::Formatter<W>) -> fmt::Result {
        write_json(f, self.0)
    }
}

/// Prints a message as a JSON object (RFC 8427), without white space, and without a line feed after
/// it. Returns the error of `writer` if it fails.
pub fn print_json<W: Write>(writer: &mut W, message: &Message<&[u8]>) -> io::Result<()>
    ensures { OnOk result (Appends (W.contents writer.old) (W.contents writer.new)
        (message_json_text (message_octets message.now))) }
{
    write!(writer, "{}", MessageJson(message))
}

/// Prints a message as a JSON object (RFC 8427), without white space.
///
/// The object has the fields of the header, the counts, the members of the first question, and an
/// array for each section that has a start, with the entries that can be read. If some entry can't
/// be read, or octets follow the last, it also has all octets of the message.
pub fn write_json<T: TextWriter>(writer: &mut T, message: &Message<&[u8]>) -> fmt::Result
    ensures text { PrintsOnOk T.takes writer.old result
        (message_json_text (message_octets message.now)) writer.new }
    ensures err { OnErr result T.MayFail }
{
    write_head(writer, message)?;
    write_body(writer, message)?;
    writer.write_text("}")
}

/// Prints a brace, and the members for the header and the counts.
fn write_head<T: TextWriter>(writer: &mut T, message: &Message<&[u8]>) -> fmt::Result
    ensures text { PrintsOnOk T.takes writer.old result
        (object_front (head_members (message_octets message.now))) writer.new }
    ensures err { OnErr result T.MayFail }
{
    write_header(writer, message.header())?;
    write_counts(writer, message.header_counts())
}

/// Prints the members for the sections, and the octets.
fn write_body<T: TextWriter>(writer: &mut T, message: &Message<&[u8]>) -> fmt::Result
    ensures text { PrintsOnOk T.takes writer.old result
        (members_text (body_members (message_octets message.now))) writer.new }
    ensures err { OnErr result T.MayFail }
{
    write_asked(writer, message.first_question())?;
    write_questions(writer, message.question())?;
    write_sections(writer, message)?;
    write_octets(writer, message)
}

/// Prints the member for the octets of a message, unless they are its entries, and each can be read.
fn write_octets<T: TextWriter>(writer: &mut T, message: &Message<&[u8]>) -> fmt::Result
    ensures text { PrintsOnOk T.takes writer.old result
        (members_text (octets_members (message_octets message.now))) writer.new }
    ensures err { OnErr result T.MayFail }
{
    if is_whole(message) {
        return Ok(());
    }
    write_string_member(writer, "messageOctetsHEX", &HexText(message.as_slice()))
}

/// Octets that print as a JSON object (RFC 8427 section 2.4), if they are too few for a message.
#[derive(Clone, Copy, Debug)]
struct OctetsJson<'a>(&'a [u8]);

impl fmt::Display for OctetsJson<'_> {
    ghost output = { λ json. Some (octets_json_text json.0.now) };

    ghost styled_output = { λ json _. Some (octets_json_text json.0.now) };

    fn fmt<W: fmt::Write>(&self, f: &mut fmt::Formatter<W>) -> fmt::Result {
        write_octets_object(f, self.0)
    }
}

/// Prints octets that are too few for a message as a JSON object (RFC 8427 section 2.4), with only
/// these octets. Returns the error of `writer` if it fails.
pub fn print_octets_json<W: Write>(writer: &mut W, octets: &[u8]) -> io::Result<()>
    ensures { OnOk result (Appends (W.contents writer.old) (W.contents writer.new)
        (octets_json_text octets.now)) }
{
    write!(writer, "{}", OctetsJson(octets))
}

/// Prints octets as an object with nothing else.
fn write_octets_object<T: TextWriter>(writer: &mut T, octets: &[u8]) -> fmt::Result
    ensures text { PrintsOnOk T.takes writer.old result (octets_json_text octets.now) writer.new }
    ensures err { OnErr result T.MayFail }
{
    begin_object(writer, "messageOctetsHEX")?;
    write_string(writer, &HexText(octets))?;
    writer.write_text("}")
}
