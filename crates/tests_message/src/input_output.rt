//! Input that comes in parts or fails, and output that fails. The program `dnsmsg` then exits with
//! status 3, and prints that it failed if it can.
use crate::asserts::assert_holds;
use dns_message::tool;
use std::alloc::Global;
use std::io;
use std::io::{ErrorKind, Read, Write};
use std::process::Abort;

/// A run of `dnsmsg`: the arguments, separated by spaces, standard input, what is printed, and the
/// exit status.
#[derive(Clone, Copy)]
struct Run<'a> {
    name: &'a str,
    words: &'a str,
    input: &'a [u8],
    printed: &'a str,
    status: u8,
}

const BUILD: Run<'_> = Run {
    name: "a built message",
    words: "build plain",
    input: b"question\nlimit 17\npush . A\npush . A\n",
    printed: "ok 12\nok 12\nok 17\nrefused limit 17\n0000000000010000000000000000010001\n",
    status: 0,
};

const BAD_LINE: Run<'_> = Run {
    name: "a bad line",
    words: "build static",
    input: b"question\nbogus\n",
    printed: "ok 12\nbad line 2\n",
    status: 1,
};

const SHOW: Run<'_> = Run {
    name: "Show a missing question",
    words: "show",
    input: b"000000000002000000000000076578616d706c6503636f6d0000010001",
    printed: "header id=0 opcode=0 rcode=0 z=0 flags=\ncounts 2 0 0 0\nquestion example.com.\tA\tIN\nquestion error\nanswer missing\n",
    status: 0,
};

const USAGE: Run<'_> = Run {
    name: "no arguments",
    words: "",
    input: b"",
    printed: "usage: dnsmsg build TARGET | dnsmsg show\n",
    status: 2,
};

/// Returns octets, one at each read, and then ends or fails.
#[derive(Drop)]
struct Cut<'a> {
    octets: &'a [u8],
    fails: bool,
}

impl Read for Cut<'_> {
    fn read(&mut self, buf: &mut [u8]) -> io::Result<usize> {
        if self.fails && self.octets.is_empty() {
            return Err(io::Error::from(ErrorKind::BrokenPipe));
        }
        let len = buf.len().min(1);
        self.octets.read(&mut buf[..len])
    }
}

/// Accepts octets, one at each write, except that the writes and flushes with these numbers,
/// counted from 0, fail.
#[derive(Drop)]
struct Gap {
    taken: Vec<u8>,
    steps: usize,
    from: usize,
    to: usize,
}

impl Gap {
    fn step(&mut self) -> io::Result<()> {
        let fails = self.from <= self.steps && self.steps < self.to;
        self.steps = self.steps.saturating_add(1);
        if fails {
            Err(io::Error::from(ErrorKind::BrokenPipe))
        } else {
            Ok(())
        }
    }
}

impl Write for Gap {
    fn write(&mut self, buf: &[u8]) -> io::Result<usize> {
        self.step()?;
        let len = buf.len().min(1);
        self.taken.write(&buf[..len])
    }

    fn flush(&mut self) -> io::Result<()> {
        self.step()
    }
}

/// Runs `dnsmsg` with the arguments of a run. Returns the exit status.
fn status_of<R: Read + Drop, W: Write + Drop>(
    rt: &impl Abort,
    alloc: Global,
    words: &str,
    reader: R,
    writer: W,
) -> u8 {
    let mut strings = Vec::new(alloc);
    for word in words.split_whitespace() {
        let word = String::from_str(alloc, word).expect(rt, "memory");
        strings.push(word).expect(rt, "memory");
    }
    tool(alloc, &strings, reader, writer)
}

/// Whether the run prints what it has to if these octets are read one by one; or if reading fails
/// after them, that it failed.
fn is_read(rt: &impl Abort, alloc: Global, case: Run<'_>, octets: &[u8], fails: bool) -> bool {
    let (printed, status) = if fails {
        ("failed\n", 3)
    } else {
        (case.printed, case.status)
    };
    let mut output = Vec::new(alloc);
    let ended = status_of(rt, alloc, case.words, Cut { octets, fails }, &mut output);
    output.as_slice() == printed.as_bytes() && ended == status
}

/// Fails unless the run fails wherever reading fails.
fn assert_cut_input(rt: &impl Abort, alloc: Global, case: Run<'_>) {
    let is_whole = is_read(rt, alloc, case, case.input, false);
    assert_holds(rt, case.name, is_whole);
    for len in 0..=case.input.len() {
        let is_cut = is_read(rt, alloc, case, &case.input[..len], true);
        assert!(rt; is_cut, "{}: cut after {len} octets", case.name);
    }
}

/// The input is read octet by octet. Reading may fail after each of them.
#[test]
fn fails_where_input_is_cut(rt: HostRuntime) {
    let alloc = rt.alloc();
    assert_cut_input(&rt, alloc, BUILD);
    assert_cut_input(&rt, alloc, SHOW);
}

/// Whether the writer gets what is printed before the steps that fail, followed by `after`, and
/// the exit status is this one.
fn is_cut(
    rt: &impl Abort,
    alloc: Global,
    case: Run<'_>,
    gap: (usize, usize),
    after: &[u8],
    status: u8,
) -> bool {
    let (from, to) = gap;
    let mut writer = Gap {
        taken: Vec::new(alloc),
        steps: 0,
        from,
        to,
    };
    let ended = status_of(rt, alloc, case.words, case.input, &mut writer);
    let printed = case.printed.as_bytes();
    let before = &printed[..from.min(printed.len())];
    writer.taken.strip_suffix(after) == Some(before) && ended == status
}

/// Whether the run is cut at a step: if it alone fails, and if all steps from it on fail.
fn is_cut_at(rt: &impl Abort, alloc: Global, case: Run<'_>, step: usize) -> bool {
    let one = (step, step.saturating_add(1));
    let all = (step, usize::MAX);
    is_cut(rt, alloc, case, one, b"failed\n", 3) && is_cut(rt, alloc, case, all, b"", 3)
}

/// Fails unless the run is cut at each step, and written whole if no step fails.
fn assert_cut_output(rt: &impl Abort, alloc: Global, case: Run<'_>) {
    let whole = (usize::MAX, usize::MAX);
    let is_whole = is_cut(rt, alloc, case, whole, b"", case.status);
    assert_holds(rt, case.name, is_whole);
    for step in 0..=case.printed.len() {
        let is_cut = is_cut_at(rt, alloc, case, step);
        assert!(rt; is_cut, "{}: from step {step}", case.name);
    }
}

/// One step fails, the write of an octet or the last flush; and then all steps from it on. The
/// program prints `failed` if it can.
#[test]
fn fails_where_output_is_not_written(rt: HostRuntime) {
    let alloc = rt.alloc();
    assert_cut_output(&rt, alloc, BUILD);
    assert_cut_output(&rt, alloc, BAD_LINE);
    assert_cut_output(&rt, alloc, SHOW);
    assert_cut_output(&rt, alloc, USAGE);
}
