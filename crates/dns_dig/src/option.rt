//! The lines of options (RFC 6891 section 6.1.2).
ghost use Rattle.std.specs.Prelude.{OnErr};
ghost use Rattle.std.specs.List.{flat_map};
ghost use Rattle.dns_edns.specs.OptionIter.{options_left};
ghost use Rattle.dns_print.specs.Printing.{PrintsOnOk};
ghost use Rattle.dns_dig.specs.OptionTexts.{option_line};

use crate::value::write_value;
use crate::word::write_option_code;
use dns_edns::OptionIter;
use dns_iana::OptionCode;
use dns_print::TextWriter;
use std::fmt;

/// Prints a line for each option.
pub(crate) fn write_options<T: TextWriter>(writer: &mut T, options: OptionIter<'_>) -> fmt::Result
    ensures text { PrintsOnOk T.takes writer.old result
        (flat_map option_line (options_left options.entry)) writer.new }
    ensures err { OnErr result T.MayFail }
{
    for (code, octets) in options {
        write_option(writer, code, octets)?;
    }
    Ok(())
}

/// Prints the line of an option.
#[tactic(auto, using(dns_print::proofs::theory::Prints::prints, std::proofs::lemmas::Grind::common_steps))]
fn write_option<T: TextWriter>(writer: &mut T, code: OptionCode, octets: &[u8]) -> fmt::Result
    ensures text { PrintsOnOk T.takes writer.old result
        (option_line (record { code = code; octets = octets.now })) writer.new }
    ensures err { OnErr result T.MayFail }
{
    writer.write_text("; ")?;
    write_option_code(writer, code)?;
    writer.write_text(":")?;
    write_value(writer, code, octets)?;
    writer.write_text("\n")
}
