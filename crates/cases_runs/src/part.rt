//! Parts of what is printed.
use crate::run::Ended;
use cases_files::{Report, key_of};
use std::alloc::{AllocError, Global};
use std::io;
use std::io::Write;

/// Checks a line of a case that says a part of what is printed, if it is one.
pub(crate) fn check_part<W: Write + Drop>(
    alloc: Global,
    report: &mut Report<'_, W>,
    ended: &Ended,
    line: &str,
) -> io::Result<()> {
    let (key, rest) = key_of(line);
    let output = std::str::from_utf8(ended.output.as_slice()).unwrap_or("octets that are no text");
    let text = plain(alloc, rest)?;
    let text = text.as_str();
    let holds = match key {
        "starts" => output.starts_with(text),
        "has" => output.contains(text),
        "ends" => output.ends_with(text),
        "most" => output.len() <= rest.parse::<usize>().unwrap_or(0),
        "count" => return check_count(alloc, report, line, output, text),
        "line" => return check_line(report, line, output, text),
        _ => return Ok(()),
    };
    let shown = if holds { "yes" } else { "no" };
    report.check(line, b"yes", shown.as_bytes())
}

/// A text with line feeds for `\n`, tabs for `\t` and spaces for `\s`.
fn plain(alloc: Global, text: &str) -> Result<String, AllocError> {
    let text = text.replace(alloc, "\\n", "\n")?;
    let text = text.replace(alloc, "\\t", "\t")?;
    text.replace(alloc, "\\s", " ")
}

/// Checks how often a text is printed: a number and the text.
fn check_count<W: Write + Drop>(
    alloc: Global,
    report: &mut Report<'_, W>,
    line: &str,
    output: &str,
    text: &str,
) -> io::Result<()> {
    let (count, text) = text.split_once(' ').unwrap_or((text, ""));
    let found = output.split(text).skip(1).count();
    let found = format!(in alloc; "{found}")?;
    report.check(line, count.as_bytes(), found.as_bytes())
}

/// Checks a line that is printed: its number, from 1 on, and its text.
fn check_line<W: Write + Drop>(
    report: &mut Report<'_, W>,
    line: &str,
    output: &str,
    text: &str,
) -> io::Result<()> {
    let (number, text) = text.split_once(' ').unwrap_or((text, ""));
    let before = number.parse::<usize>().unwrap_or(0).wrapping_sub(1);
    let found = output.lines().nth(before).unwrap_or("(no such line)");
    report.check(line, text.as_bytes(), found.as_bytes())
}
