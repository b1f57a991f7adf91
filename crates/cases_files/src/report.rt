//! The report on cases.
ghost use Rattle.std.specs.Prelude.{◌≡◌, ◌≢◌, OnOk};
ghost use Rattle.std.specs.Io.KnownBytes.{Appends};
ghost use Rattle.cases_files.specs.Report.{counts_text, next};

use std::io;
use std::io::Write;

/// How many cases and checks there were, and how many failures. The greatest number stays.
#[derive(Clone, Copy)]
pub struct Counts {
    pub cases: u64,
    pub checks: u64,
    pub failures: u64,
}

/// A report on cases: a line for each check that fails, and the counts at the end.
#[derive(Drop)]
pub struct Report<'a, W: Drop> {
    pub writer: W,
    pub counts: Counts,
    name: &'a str,
}

impl<'a, W: Write + Drop> Report<'a, W> {
    /// A report on no case.
    pub fn new(writer: W) -> Report<'a, W>
        ensures { result.counts ≡ record { cases = 0; checks = 0; failures = 0 } }
    {
        Report {
            writer,
            counts: Counts {
                cases: 0,
                checks: 0,
                failures: 0,
            },
            name: "",
        }
    }

    /// Begins the case of this name.
    pub fn begin(&mut self, name: &'a str)
        ensures { self.new.counts ≡
            record self.old.counts { cases = next self.old.counts.cases } }
    {
        self.name = name;
        self.counts.cases = self.counts.cases.saturating_add(1);
    }

    /// Compares what is shown with what is wanted. Prints the first line that differs.
    pub fn check(&mut self, key: &str, wanted: &[u8], shown: &[u8]) -> io::Result<()>
        ensures counted { self.new.counts.checks ≡ next self.old.counts.checks }
        ensures passed { wanted.now ≡ shown.now →
            self.new.counts.failures ≡ self.old.counts.failures }
        ensures failed { wanted.now ≢ shown.now →
            self.new.counts.failures ≡ next self.old.counts.failures }
    {
        self.counts.checks = self.counts.checks.saturating_add(1);
        if wanted == shown {
            return Ok(());
        }
        self.counts.failures = self.counts.failures.saturating_add(1);
        write!(self.writer, "FAILED {} | {key}", self.name)?;
        print_difference(&mut self.writer, wanted, shown)
    }

    /// Prints that a line of the case is malformed, which is a failure.
    pub fn bad_line(&mut self, line: &str) -> io::Result<()>
        ensures { self.new.counts ≡
            record self.old.counts { failures = next self.old.counts.failures } }
    {
        self.counts.failures = self.counts.failures.saturating_add(1);
        writeln!(self.writer, "FAILED {} | bad line: {line}", self.name)
    }

    /// Prints the counts, or that there was no case.
    pub fn finish(&mut self) -> io::Result<()>
        ensures text { OnOk result (Appends (W.contents self.old.writer)
            (W.contents self.new.writer) (counts_text self.old.counts)) }
        ensures same { self.new.counts ≡ self.old.counts }
    {
        print_counts(&mut self.writer, self.counts)?;
        self.writer.flush()
    }
}

/// Prints the counts, or that there was no case, which is a failure.
fn print_counts<W: Write>(writer: &mut W, counts: Counts) -> io::Result<()>
    ensures { OnOk result (Appends (W.contents writer.old) (W.contents writer.new)
        (counts_text counts)) }
{
    let (cases, checks, failures) = (counts.cases, counts.checks, counts.failures);
    if cases > 0 {
        return writeln!(writer, "{cases} cases, {checks} checks, {failures} failed");
    }
    writeln!(writer, "FAILED no case")
}

/// What is printed for octets that have no further line.
const END: &[u8] = b"(the end)";

/// Prints the first line that differs.
fn print_difference<W: Write>(writer: &mut W, wanted: &[u8], shown: &[u8]) -> io::Result<()> {
    let (number, wanted, shown) = first_difference(wanted, shown);
    if number > 1 {
        write!(writer, ", line {number}")?;
    }
    write!(writer, " | wanted: ")?;
    writer.write_all(clipped(wanted))?;
    write!(writer, " | is: ")?;
    writer.write_all(clipped(shown))?;
    writeln!(writer, "")
}

/// The number of the first line that differs, from 1 on, and that line of both.
fn first_difference<'a>(wanted: &'a [u8], shown: &'a [u8]) -> (u64, &'a [u8], &'a [u8]) {
    let mut number: u64 = 1;
    let mut others = shown.split(|octet| *octet == b'\n');
    for line in wanted.split(|octet| *octet == b'\n') {
        let other = others.next().unwrap_or(END);
        if line != other {
            return (number, line, other);
        }
        number = number.saturating_add(1);
    }
    (number, END, others.next().unwrap_or(END))
}

/// The first octets of a long line.
fn clipped(line: &[u8]) -> &[u8] {
    line.get(..2000).unwrap_or(line)
}
