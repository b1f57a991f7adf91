//! A message as `dig` prints it.
ghost use Rattle.std.specs.Prelude.{◌≡◌, IfOk, OnErr, Some, string_bytes};
ghost use Rattle.dns_print.specs.Printing.{PrintsOnOk};
ghost use Rattle.dns_read.specs.Message.{message_octets};
ghost use Rattle.dns_dig.specs.Messages.{dig_text, record_sections_text, sections_text, signed_text};

use crate::header::write_header;
use crate::opt::write_opts;
use crate::question::write_questions;
use crate::section::write_records;
use crate::signature::Signature;
use dns_print::TextWriter;
use dns_read::{Message, Section};
use std::alloc::{AllocError, Global};
use std::fmt;

/// A message that prints as `dig` prints it.
#[derive(Clone, Copy, Debug)]
pub struct MessageDig<'m, 'a>(pub &'m Message<&'a [u8]>);

impl fmt::Display for MessageDig<'_, '_> {
    ghost output = { λ message. Some (dig_text (message_octets message.0.now)) };

    ghost styled_output = { λ message _. Some (dig_text (message_octets message.0.now)) };

    fn fmt<W: fmt::Write>(&self, f: &mut fmt::Formatter<W>) -> fmt::Result {
        write_dig(f, self.0)
    }
}

/// A message as `dig` of BIND 9.18 prints it, from the line `;; ->>HEADER<<-` on: the text that
/// `write_dig` prints.
pub fn print_dig(alloc: Global, message: &Message<&[u8]>) -> Result<String, AllocError>
    ensures { IfOk result (λ text. string_bytes text ≡ dig_text (message_octets message.now)) }
{
    format!(in alloc; "{}", MessageDig(message))
}

/// Prints a message as `dig` of BIND 9.18 does, from the line `;; ->>HEADER<<-` on: the header, the
/// fields and options of the OPT record, the sections, and the record that signs the message.
///
/// A section ends with a line that says so if a record or question in it is malformed. If it has no
/// start, a line says that. RDATA prints as `DataText` of `fields_records` has it.
pub fn write_dig<T: TextWriter>(writer: &mut T, message: &Message<&[u8]>) -> fmt::Result
    ensures text { PrintsOnOk T.takes writer.old result (dig_text (message_octets message.now))
        writer.new }
    ensures err { OnErr result T.MayFail }
{
    write_header(writer, message)?;
    write_opts(writer, message.additional())?;
    write_sections(writer, message)?;
    write_signatures(writer, message)
}

/// Prints the four sections.
fn write_sections<T: TextWriter>(writer: &mut T, message: &Message<&[u8]>) -> fmt::Result
    ensures text { PrintsOnOk T.takes writer.old result
        (sections_text (message_octets message.now)) writer.new }
    ensures err { OnErr result T.MayFail }
{
    write_questions(writer, message.header().opcode(), message.question())?;
    write_record_sections(writer, message)
}

/// Prints the sections of records.
fn write_record_sections<T: TextWriter>(writer: &mut T, message: &Message<&[u8]>) -> fmt::Result
    ensures text { PrintsOnOk T.takes writer.old result
        (record_sections_text (message_octets message.now)) writer.new }
    ensures err { OnErr result T.MayFail }
{
    let opcode = message.header().opcode();
    write_records(writer, opcode, Section::Answer, message.answer())?;
    write_records(writer, opcode, Section::Authority, message.authority())?;
    write_records(writer, opcode, Section::Additional, message.additional())
}

/// Prints the records that sign the message.
fn write_signatures<T: TextWriter>(writer: &mut T, message: &Message<&[u8]>) -> fmt::Result
    ensures text { PrintsOnOk T.takes writer.old result (signed_text (message_octets message.now))
        writer.new }
    ensures err { OnErr result T.MayFail }
{
    Signature::Tsig.write_all(writer, message.additional())?;
    Signature::Sig0.write_all(writer, message.additional())
}
