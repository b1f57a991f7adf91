//! The program `cases_runs` runs cases of `dnsmsg` and `dnsview`, and of calls for a message:
//!
//!     cases_runs < CASES
//!
//! A case of standard input is a run: the arguments, the input, and what is printed; or it is a
//! message, and what calls of the library return for it. The program prints a line for each check
//! that fails, and the counts. Its page says what the keys are.
#![tactic(auto)]

mod edits;
mod message;
mod opt;
mod part;
mod reading;
mod replies;
mod returned;
mod run;
mod transfer;
mod written;

use crate::message::check_call;
use crate::part::check_part;
use crate::run::Run;
use cases_files::{Report, blocks, case_of};
use std::alloc::Global;
use std::io;
use std::io::{BufWriter, Write};

fn main(rt: HostRuntime) -> io::Result<()> {
    let text = io::read_to_string(rt.alloc(), rt.stdin())?;
    let blocks = blocks(rt.alloc(), text.as_str())?;
    let writer = BufWriter::new(rt.alloc(), rt.stdout())?;
    check_blocks(rt.alloc(), writer, blocks.as_slice())
}

/// Runs the cases of all blocks.
fn check_blocks<W: Write + Drop>(alloc: Global, writer: W, blocks: &[Vec<&str>]) -> io::Result<()> {
    let mut report = Report::new(writer);
    for block in blocks {
        check_block(alloc, &mut report, block.as_slice())?;
    }
    report.finish()
}

/// Checks the case that a block has. One without a check fails.
fn check_block<'a, W: Write + Drop>(
    alloc: Global,
    report: &mut Report<'a, W>,
    block: &[&'a str],
) -> io::Result<()> {
    let Some((name, lines)) = case_of(block) else {
        return refuse_lines(report, block);
    };
    report.begin(name);
    let checks = report.counts.checks;
    let run = read_run(alloc, report, lines)?;
    for line in lines {
        check_call(alloc, report, &run, line.trim_ascii_start())?;
    }
    if run.has_program() {
        check_run(alloc, report, &run, lines)?;
    } else if run.has_printed() {
        report.bad_line("no run")?;
    }
    if report.counts.checks == checks {
        report.bad_line("no check")?;
    }
    Ok(())
}

/// Prints lines that are in no case.
fn refuse_lines<W: Write + Drop>(report: &mut Report<'_, W>, lines: &[&str]) -> io::Result<()> {
    for line in lines {
        report.bad_line(line)?;
    }
    Ok(())
}

/// The run that the lines of a case describe.
fn read_run<'a, W: Write + Drop>(
    alloc: Global,
    report: &mut Report<'a, W>,
    lines: &[&'a str],
) -> io::Result<Run<'a>> {
    let mut run = Run::new(alloc);
    for line in lines {
        let line = line.trim_ascii_start();
        if !run.take_line(alloc, line)? {
            report.bad_line(line)?;
        }
    }
    if run.is_mixed() {
        report.bad_line("all that is printed beside a part of it")?;
    }
    Ok(run)
}

/// Checks what a run prints.
fn check_run<W: Write + Drop>(
    alloc: Global,
    report: &mut Report<'_, W>,
    run: &Run<'_>,
    lines: &[&str],
) -> io::Result<()> {
    let ended = run.end(alloc)?;
    run.check(alloc, report, &ended)?;
    for line in lines {
        check_part(alloc, report, &ended, line.trim_ascii_start())?;
    }
    Ok(())
}
