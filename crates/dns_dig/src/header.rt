//! The lines of a header (RFC 1035 section 4.1.1).
ghost use Rattle.std.specs.Prelude.{◌≡◌, ◌++◌, OnErr, codes, decimal};
ghost use Rattle.dns_code.specs.Header.{fields};
ghost use Rattle.dns_code.specs.HeaderCounts.{counts as count_fields};
ghost use Rattle.dns_print.specs.Printing.{PrintsOnOk};
ghost use Rattle.dns_read.specs.Message.{message_octets};
ghost use Rattle.dns_dig.specs.Header.{answer_flags_text, counts_text, extra_warning, first_flags_text, first_counts_text, flags_line, flags_text, header_text, if_set, lacks_recursion, last_counts_text, recursion_warning, status_line};
ghost use Rattle.dns_dig.specs.Words.{rcode_word};

use crate::end::extra_octets;
use crate::word::{write_opcode, write_rcode};
use dns_code::{Header, HeaderCounts};
use dns_iana::OptRcode;
use dns_print::{TextWriter, write_number};
use dns_read::Message;
use std::fmt;

/// Prints the lines of the header, the warnings, and an empty line.
pub(crate) fn write_header<T: TextWriter>(writer: &mut T, message: &Message<&[u8]>) -> fmt::Result
    ensures text { PrintsOnOk T.takes writer.old result
        (header_text (message_octets message.now)) writer.new }
    ensures err { OnErr result T.MayFail }
{
    let header = message.header();
    write_status(writer, header, message.opt_rcode())?;
    write_flags_and_counts(writer, header, message.header_counts())?;
    write_recursion_warning(writer, header)?;
    write_extra_warning(writer, extra_octets(message))?;
    writer.write_text("\n")
}

/// Prints the line with the opcode, the RCODE and the ID.
fn write_status<T: TextWriter>(writer: &mut T, header: Header, rcode: OptRcode) -> fmt::Result
    ensures text { PrintsOnOk T.takes writer.old result (status_line (fields header) rcode)
        writer.new }
    ensures err { OnErr result T.MayFail }
{
    writer.write_text(";; ->>HEADER<<- opcode: ")?;
    write_opcode(writer, header.opcode())?;
    write_rcode_and_id(writer, rcode, header.id())
}

/// Prints the RCODE and the ID, and ends the line.
#[tactic(auto, using(dns_print::proofs::theory::Prints::prints, std::proofs::lemmas::Grind::common_steps))]
fn write_rcode_and_id<T: TextWriter>(writer: &mut T, rcode: OptRcode, id: u16) -> fmt::Result
    ensures text { PrintsOnOk T.takes writer.old result (codes ", status: "
        ++ (rcode_word rcode ++ (codes ", id: " ++ (decimal id ++ codes "\n")))) writer.new }
    ensures err { OnErr result T.MayFail }
{
    writer.write_text(", status: ")?;
    write_rcode(writer, rcode)?;
    writer.write_text(", id: ")?;
    write_number(writer, u64::from(id))?;
    writer.write_text("\n")
}

/// Prints a text if a flag is set.
pub(crate) fn write_if<T: TextWriter>(writer: &mut T, flag: bool, text: &str) -> fmt::Result
    ensures text { PrintsOnOk T.takes writer.old result (if_set flag text.now) writer.new }
    ensures err { OnErr result T.MayFail }
{
    if flag {
        return writer.write_text(text);
    }
    Ok(())
}

/// Prints the line with the flags and the counts.
fn write_flags_and_counts<T: TextWriter>(
    writer: &mut T,
    header: Header,
    counts: HeaderCounts,
) -> fmt::Result
    ensures text { PrintsOnOk T.takes writer.old result
        (flags_line (fields header) (count_fields counts)) writer.new }
    ensures err { OnErr result T.MayFail }
{
    writer.write_text(";; flags:")?;
    write_flags(writer, header)?;
    write_counts(writer, counts)
}

/// Prints the flags that are set.
fn write_flags<T: TextWriter>(writer: &mut T, header: Header) -> fmt::Result
    ensures text { PrintsOnOk T.takes writer.old result (flags_text (fields header)) writer.new }
    ensures err { OnErr result T.MayFail }
{
    write_first_flags(writer, header)?;
    write_answer_flags(writer, header)
}

/// Prints QR, AA, TC and RD if they are set.
fn write_first_flags<T: TextWriter>(writer: &mut T, header: Header) -> fmt::Result
    ensures text { PrintsOnOk T.takes writer.old result (first_flags_text (fields header))
        writer.new }
    ensures err { OnErr result T.MayFail }
{
    write_if(writer, header.qr(), " qr")?;
    write_if(writer, header.aa(), " aa")?;
    write_if(writer, header.tc(), " tc")?;
    write_if(writer, header.rd(), " rd")
}

/// Prints RA, AD, CD and Z if they are set.
fn write_answer_flags<T: TextWriter>(writer: &mut T, header: Header) -> fmt::Result
    ensures text { PrintsOnOk T.takes writer.old result (answer_flags_text (fields header))
        writer.new }
    ensures err { OnErr result T.MayFail }
{
    write_if(writer, header.ra(), " ra")?;
    write_if(writer, header.ad(), " ad")?;
    write_if(writer, header.cd(), " cd")?;
    write_if(writer, header.z(), "; MBZ: 0x4")
}

/// Prints the counts, and ends the line.
fn write_counts<T: TextWriter>(writer: &mut T, counts: HeaderCounts) -> fmt::Result
    ensures text { PrintsOnOk T.takes writer.old result (counts_text (count_fields counts))
        writer.new }
    ensures err { OnErr result T.MayFail }
{
    write_first_counts(writer, counts)?;
    write_last_counts(writer, counts)?;
    writer.write_text("\n")
}

/// Prints the counts of questions and of answers.
fn write_first_counts<T: TextWriter>(writer: &mut T, counts: HeaderCounts) -> fmt::Result
    ensures text { PrintsOnOk T.takes writer.old result (first_counts_text (count_fields counts))
        writer.new }
    ensures err { OnErr result T.MayFail }
{
    writer.write_text("; QUERY: ")?;
    write_number(writer, u64::from(counts.qdcount()))?;
    writer.write_text(", ANSWER: ")?;
    write_number(writer, u64::from(counts.ancount()))
}

/// Prints the counts of authorities and of additional records.
fn write_last_counts<T: TextWriter>(writer: &mut T, counts: HeaderCounts) -> fmt::Result
    ensures text { PrintsOnOk T.takes writer.old result (last_counts_text (count_fields counts))
        writer.new }
    ensures err { OnErr result T.MayFail }
{
    writer.write_text(", AUTHORITY: ")?;
    write_number(writer, u64::from(counts.nscount()))?;
    writer.write_text(", ADDITIONAL: ")?;
    write_number(writer, u64::from(counts.arcount()))
}

/// Prints the warning that recursion isn't available, if a response says so and it was desired.
fn write_recursion_warning<T: TextWriter>(writer: &mut T, header: Header) -> fmt::Result
    ensures text { PrintsOnOk T.takes writer.old result (recursion_warning (fields header))
        writer.new }
    ensures err { OnErr result T.MayFail }
{
    write_if(
        writer,
        lacks_recursion(header),
        ";; WARNING: recursion requested but not available\n",
    )
}

/// Whether a response says that recursion isn't available, and it was desired.
fn lacks_recursion(header: Header) -> bool
    ensures { result ≡ lacks_recursion (fields header) }
{
    header.qr() && header.rd() && !header.ra()
}

/// Prints the warning that octets follow the message, if any do.
#[tactic(auto, using(dns_print::proofs::theory::Prints::prints, dns_print::proofs::theory::Prints::print_none, std::proofs::lemmas::Grind::common_steps, crate::proofs::Choices::extra_none, crate::proofs::Choices::extra_some))]
fn write_extra_warning<T: TextWriter>(writer: &mut T, extra: usize) -> fmt::Result
    ensures text { PrintsOnOk T.takes writer.old result (extra_warning extra) writer.new }
    ensures err { OnErr result T.MayFail }
{
    if extra == 0 {
        return Ok(());
    }
    writer.write_text(";; WARNING: Message has ")?;
    write_number(writer, extra as u64)?;
    writer.write_text(" extra bytes at end\n")
}
