//! The program `cases_rdata` runs cases of RDATA, and of other octets and texts of DNS:
//!
//!     cases_rdata < CASES
//!
//! The program prints a line for each check of a case that fails, what cases ask to be printed, and
//! the counts. Octets are hexadecimal digits.
//!
//! A case has parts, and then checks. Parts:
//!
//! - `type TYPE`: the record type, a mnemonic, or `TYPE` and a number.
//! - `after DIGITS`: octets of the message before the RDATA or the record.
//! - `octets DIGITS`: the RDATA; in a case without a type, a question or a message.
//! - `header DIGITS`: owner, type, class and TTL of the record.
//! - `other TYPE`: the type of the RDATA in `order`, if another.
//! - `line TEXT`, `line-octets DIGITS`: a line of the next check's text, after a line feed if lines
//!   precede it; octets of it.
//!
//! Checks of RDATA:
//!
//! - `fields NAME=VALUE ..`: all fields in order, by their names in `record_types`; numbers in
//!   decimal, names with a final dot, all else in hexadecimal. It is written as it was and
//!   `copied`; each beginning of it is read and written, or too short.
//! - `copied`: RDATA that `from_values` makes from its values is written as it is; copies and
//!   clones are the same RDATA.
//! - `written DIGITS`: what it is written as. `canonical DIGITS`: its canonical form (RFC 4034
//!   section 6.2).
//! - `error ERROR`: why it can't be read; the parser doesn't move.
//! - `checked right`, `checked FIELD TEXT`: what `check_values` says: nothing, or the index of the
//!   field and what is wrong with it.
//! - `text TEXT`: what it prints as, which reads as these octets.
//! - `reads TEXT`, `reads-octets DIGITS`: another text that reads as them.
//! - `refuses TEXT`, `refuses-octets DIGITS`, `refuses-words WORD|WORD`: what represents no such
//!   RDATA.
//! - `order ORDER DIGITS`: how it compares with RDATA of these octets, in both directions: `less`,
//!   `equal` or `greater`. Equality and hashes agree. `canonical-order ORDER DIGITS`: by canonical
//!   forms.
//!
//! Checks of a record:
//!
//! - `record TEXT`: what it prints as, which reads as this record.
//! - `refuses-record TEXT`: a line that is no record.
//! - `zone-line TEXT`: a line of the zone `example.com.` that represents this record, after a
//!   record of `last.example.com.` with a TTL of an hour. With a blank before it, it has no owner.
//! - `record-order ORDER DIGITS`, `canonical-record-order ORDER DIGITS`: as `order`, with the
//!   record of these octets.
//!
//! Checks without a type:
//!
//! - `words WORD|WORD`, `words-octets DIGITS`: the words of the lines before it, with `|` between.
//! - `no-words`: the lines before it are malformed. `many-words NUMBER WORD`: they have this many
//!   words, all this one.
//! - `question TEXT`: the text, or the lines before it, reads as the question of the octets, into
//!   an array and a vector. `prints-question TEXT`: what it prints as.
//! - `no-question ERROR|TEXT`: why the text is no question.
//! - `no-zone-line ERROR|TEXT`, `no-bare-line ERROR|TEXT`: why such a line, or one before which
//!   there is none, represents no record.
//! - `option CODE DIGITS = TEXT`: what an option is read as.
//!
//! Two lines more are for `campaigns/fields`: `print-rewritten` prints the message of the octets,
//! written again from its fields, `print-text` what the RDATA prints as.
#![tactic(auto)]

mod case;
mod checks;
mod fields;
mod key;
mod made;
mod named;
mod options;
mod orders;
mod questions;
mod records;
mod rewriting;
mod shown;
mod zone_lines;

use crate::case::Case;
use crate::checks::take_line;
use cases_files::{Report, blocks, case_of};
use std::alloc::Global;
use std::io;
use std::io::{BufWriter, Write};

fn main(rt: HostRuntime) -> io::Result<()> {
    let text = io::read_to_string(rt.alloc(), rt.stdin())?;
    let blocks = blocks(rt.alloc(), text.as_str())?;
    let writer = BufWriter::new(rt.alloc(), rt.stdout())?;
    check_blocks(rt.alloc(), writer, blocks.as_slice())
}

/// Checks the blocks that are cases. A line outside of cases is malformed.
fn check_blocks<W: Write + Drop>(alloc: Global, writer: W, blocks: &[Vec<&str>]) -> io::Result<()> {
    let mut report = Report::new(writer);
    for block in blocks {
        match case_of(block.as_slice()) {
            Some((name, lines)) => check_case(alloc, &mut report, name, lines)?,
            None => refuse_lines(&mut report, block.as_slice())?,
        }
    }
    report.finish()
}

/// Prints lines that are in no case.
fn refuse_lines<W: Write + Drop>(report: &mut Report<'_, W>, lines: &[&str]) -> io::Result<()> {
    for line in lines {
        report.bad_line(line)?;
    }
    Ok(())
}

/// Checks a case. One that has no check fails, and so does one without a type, unless it is of
/// texts.
fn check_case<'a, W: Write + Drop>(
    alloc: Global,
    report: &mut Report<'a, W>,
    name: &'a str,
    lines: &[&str],
) -> io::Result<()> {
    report.begin(name);
    let checks = report.counts.checks;
    let mut case = Case::new(alloc);
    for line in lines {
        take_line(alloc, report, &mut case, line.trim_ascii_start())?;
    }
    if case.rtype.to_int() == 0 && !case.has_texts {
        report.bad_line("no type")?;
    }
    if report.counts.checks == checks {
        report.bad_line("no check")?;
    }
    Ok(())
}
