//! A run of a program, by these lines of a case:
//!
//! - `run PROGRAM WORDS`: `dnsmsg` or `dnsview`, and its arguments.
//! - `< TEXT`, `<. TEXT`: a line of the input; one without line feed.
//! - `<*9 TEXT`, `<x DIGITS`: nine lines of the input; octets of it.
//! - `> TEXT`, `>. TEXT`, `>x DIGITS`: what is printed, in the same forms.
//! - `skip NUMBER`: how many of the first printed lines `>` leaves out; fewer are an error.
//! - `2> TEXT`: a line of standard error.
//! - `status NUMBER`: the exit status; 0 if no line says it.
//!
//! A run says what is printed to its end, or, by these lines and without `>` and `skip`, parts of
//! it. In their `TEXT`, `\n` is a line feed, `\t` a tab and `\s` a space.
//!
//! - `starts TEXT`, `ends TEXT`, `has TEXT`: the text is at the start, at the end, or anywhere.
//! - `count NUMBER TEXT`: how often it is printed. `line NUMBER TEXT`: the line of this number,
//!   from 1 on.
//! - `most NUMBER`: how many octets are printed at most.
use crate::message::Call;
use cases_files::{Report, key_of, octets_of, push_times};
use std::alloc::{AllocError, Global};
use std::io;
use std::io::Write;

/// A run: the program and its arguments, its input, and what it prints. `has_whole` says that lines
/// of the case are about `printed`, all of it after the skipped lines, `has_parts` that lines are
/// about parts of it. `message` is what calls of the library are given, and `other` a second one.
#[derive(Drop)]
pub(crate) struct Run<'a> {
    words: &'a str,
    pub(crate) input: Vec<u8>,
    pub(crate) message: Vec<u8>,
    pub(crate) other: Vec<u8>,
    printed: Vec<u8>,
    errors: Vec<u8>,
    status: &'a str,
    skipped: usize,
    has_whole: bool,
    has_parts: bool,
}

/// What a run printed, and its exit status.
#[derive(Drop)]
pub(crate) struct Ended {
    pub(crate) output: Vec<u8>,
    errors: Vec<u8>,
    status: u8,
}

impl<'a> Run<'a> {
    /// A run of no program.
    pub(crate) fn new(alloc: Global) -> Run<'a> {
        Run {
            words: "",
            input: Vec::new(alloc),
            message: Vec::new(alloc),
            other: Vec::new(alloc),
            printed: Vec::new(alloc),
            errors: Vec::new(alloc),
            status: "0",
            skipped: 0,
            has_whole: false,
            has_parts: false,
        }
    }

    /// Takes a line of a case. Returns whether its key is one of a run, and its text has the form.
    pub(crate) fn take_line(&mut self, alloc: Global, line: &'a str) -> Result<bool, AllocError> {
        let (key, text) = key_of(line);
        match key {
            "run" => self.words = text,
            "status" => self.status = text,
            "<" => push_line(&mut self.input, text)?,
            "2>" => push_line(&mut self.errors, text)?,
            "<." => self.input.extend_from_slice(text.as_bytes())?,
            "<x" => return push_octets(alloc, &mut self.input, text),
            ">" | ">." | ">x" | "skip" => return self.take_printed(alloc, key, text),
            "starts" | "ends" | "has" | "count" | "line" | "most" => self.has_parts = true,
            "message" => return push_octets(alloc, &mut self.message, text),
            "other" => return push_octets(alloc, &mut self.other, text),
            _ if Call::of_key(key).is_some() => {}
            _ => return self.take_repeated(alloc, key, text),
        }
        Ok(true)
    }

    /// Takes a line about all that is printed. Returns whether its text has the form.
    fn take_printed(&mut self, alloc: Global, key: &str, text: &str) -> Result<bool, AllocError> {
        self.has_whole = true;
        match key {
            ">" => push_line(&mut self.printed, text)?,
            ">." => self.printed.extend_from_slice(text.as_bytes())?,
            ">x" => return push_octets(alloc, &mut self.printed, text),
            _ => return Ok(self.take_skipped(text)),
        }
        Ok(true)
    }

    /// Whether the case has a run.
    pub(crate) fn has_program(&self) -> bool {
        !self.words.is_empty()
    }

    /// Whether lines of the case are about what is printed.
    pub(crate) fn has_printed(&self) -> bool {
        self.has_whole || self.has_parts
    }

    /// Whether lines about parts of what is printed are beside lines about all of it, which aren't
    /// compared then.
    pub(crate) fn is_mixed(&self) -> bool {
        self.has_whole && self.has_parts
    }

    /// Takes the number of lines to skip. Returns whether the text is one.
    fn take_skipped(&mut self, text: &str) -> bool {
        let Ok(lines) = text.parse::<usize>() else {
            return false;
        };
        self.skipped = lines;
        true
    }

    /// Takes a line whose key is `<*` and how often the text is a line of the input.
    fn take_repeated(&mut self, alloc: Global, key: &str, text: &str) -> Result<bool, AllocError> {
        let count = key.strip_prefix("<*").unwrap_or("").parse::<u32>();
        let Ok(count) = count else {
            return Ok(false);
        };
        let mut line = Vec::new(alloc);
        push_line(&mut line, text)?;
        push_times(&mut self.input, line.as_slice(), count)?;
        Ok(true)
    }

    /// Runs the program.
    pub(crate) fn end(&self, alloc: Global) -> io::Result<Ended> {
        let (program, words) = self.words.split_once(' ').unwrap_or((self.words, ""));
        let words = words_of(alloc, words)?;
        let (mut output, mut errors) = (Vec::new(alloc), Vec::new(alloc));
        let mut input = self.input.as_slice();
        let status = match program {
            "dnsmsg" => dnsmsg_tool::tool(alloc, &words, input, &mut output),
            "dnsview" => dnsview_tool::tool(alloc, &words, &mut input, &mut output, &mut errors)?,
            _ => u8::MAX,
        };
        Ok(Ended {
            output,
            errors,
            status,
        })
    }

    /// Checks what the run printed, and its exit status. No line of `dnsview` without arguments has
    /// more than 80 columns.
    pub(crate) fn check<W: Write + Drop>(
        &self,
        alloc: Global,
        report: &mut Report<'_, W>,
        ended: &Ended,
    ) -> io::Result<()> {
        let status = format!(in alloc; "{}", ended.status)?;
        report.check("status", self.status.as_bytes(), status.as_bytes())?;
        report.check("errors", self.errors.as_slice(), ended.errors.as_slice())?;
        let output = ended.output.as_slice();
        if !self.has_parts {
            let printed = after_lines(output, self.skipped);
            report.check("printed", self.printed.as_slice(), printed)?;
        }
        if self.words == "dnsview" {
            report.check("columns", b"", wide_line(output))?;
        }
        Ok(())
    }
}

/// Appends a line.
fn push_line(octets: &mut Vec<u8>, text: &str) -> Result<(), AllocError> {
    octets.extend_from_slice(text.as_bytes())?;
    Ok(octets.push(b'\n')?)
}

/// Appends the octets that digits represent. Returns whether they represent some.
fn push_octets(alloc: Global, octets: &mut Vec<u8>, digits: &str) -> Result<bool, AllocError> {
    let Some(others) = octets_of(alloc, digits)? else {
        return Ok(false);
    };
    octets.extend_from_slice(others.as_slice())?;
    Ok(true)
}

/// Arguments that are separated by spaces, as a program takes them.
pub(crate) fn words_of(alloc: Global, words: &str) -> Result<Vec<String>, AllocError> {
    let mut strings = Vec::new(alloc);
    for word in words.split_ascii_whitespace() {
        strings.push(String::from_str(alloc, word)?)?;
    }
    Ok(strings)
}

/// The octets after some lines.
fn after_lines(octets: &[u8], lines: usize) -> &[u8] {
    octets
        .splitn(lines.saturating_add(1), |octet| *octet == b'\n')
        .nth(lines)
        .unwrap_or(b"(fewer lines)")
}

/// The first line of more than 80 columns. Empty if there is none.
fn wide_line(octets: &[u8]) -> &[u8] {
    octets
        .split(|octet| *octet == b'\n')
        .find(|line| line.len() > 80)
        .unwrap_or(b"")
}
