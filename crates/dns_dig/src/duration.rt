//! Seconds in words.
ghost use Rattle.std.specs.Prelude.{◌≡◌, ◌||◌, ◌==◌, not, false, IfOk, OnErr, OnOk};
ghost use Rattle.std.specs.Fmt.{WritesInCalls};
ghost use Rattle.dns_print.specs.Printing.{PrintsOnOk};
ghost use Rattle.dns_dig.specs.OptionTexts.{duration_text, unit_or_none, unit_text, units_of, units_text};

use crate::header::write_if;
use dns_print::{TextWriter, write_number};
use std::fmt;

/// Prints seconds as weeks, days, hours, minutes and seconds, without those that are 0.
#[tactic(auto, using(dns_print::proofs::theory::Prints::prints, dns_print::proofs::theory::Prints::print_none, std::proofs::lemmas::Grind::common_steps, crate::proofs::Choices::duration_zero, crate::proofs::Choices::duration_some))]
pub(crate) fn write_duration<T: TextWriter>(writer: &mut T, seconds: u32) -> fmt::Result
    ensures text { PrintsOnOk T.takes writer.old result (duration_text seconds) writer.new }
    ensures err { OnErr result T.MayFail }
{
    if seconds == 0 {
        return writer.write_text("0 seconds");
    }
    write_units(writer, seconds)
}

/// Prints the units that aren't 0, with spaces between them.
fn write_units<T: TextWriter>(writer: &mut T, seconds: u32) -> fmt::Result
    ensures text { PrintsOnOk T.takes writer.old result (units_text false (units_of seconds))
        writer.new }
    ensures err { OnErr result T.MayFail }
{
    let after_weeks = write_if_any(writer, false, seconds / 604_800, "week")?;
    let after_days = write_if_any(writer, after_weeks, seconds / 86_400 % 7, "day")?;
    let after_hours = write_if_any(writer, after_days, seconds / 3_600 % 24, "hour")?;
    let after_minutes = write_if_any(writer, after_hours, seconds / 60 % 60, "minute")?;
    write_if_any(writer, after_minutes, seconds % 60, "second")?;
    Ok(())
}

/// Prints a number of units unless it is 0, after a space if it follows another. Returns whether
/// the next number follows another.
#[tactic(auto, using(dns_print::proofs::theory::Prints::prints, dns_print::proofs::theory::Prints::print_none, std::proofs::lemmas::Grind::common_steps, crate::proofs::Choices::unit_none, crate::proofs::Choices::unit_some, crate::proofs::Choices::later_same, crate::proofs::Choices::later_true))]
fn write_if_any<T: TextWriter>(
    writer: &mut T,
    later: bool,
    number: u32,
    word: &str,
) -> Result<bool, fmt::Error>
    ensures text { OnOk result (WritesInCalls T.takes writer.old
        (unit_or_none later (number, word.now)) writer.new) }
    ensures later { IfOk result (λ next. next ≡ (later || not (number == 0))) }
    ensures err { OnErr result T.MayFail }
{
    if number == 0 {
        return Ok(later);
    }
    write_unit(writer, later, number, word)?;
    Ok(true)
}

/// Prints a number of units, after a space if it follows another.
#[tactic(auto, using(dns_print::proofs::theory::Prints::prints, std::proofs::lemmas::Grind::common_steps))]
fn write_unit<T: TextWriter>(writer: &mut T, later: bool, number: u32, word: &str) -> fmt::Result
    ensures text { PrintsOnOk T.takes writer.old result (unit_text later (number, word.now))
        writer.new }
    ensures err { OnErr result T.MayFail }
{
    write_if(writer, later, " ")?;
    write_number(writer, u64::from(number))?;
    writer.write_text(" ")?;
    writer.write_text(word)?;
    write_if(writer, number != 1, "s")
}
