//! The program `dnsview` reads a message from a file or from standard input, as octets or in
//! hexadecimal digits, and prints it row by row, as a page, as lines, as JSON or as `dig` does:
//!
//!     dnsview [--html | --short | --json | --dig] [FILE]
//!
//! `dnsview_tool::tool` does the work. It is proved to be safe and to terminate on every input.
#![tactic(auto)]

use dnsview_tool::{USAGE, file_of, print_failure, print_unopened, tool};
use std::fs::File;
use std::io::{BufWriter, ErrorKind, Read};
use std::process::ExitCode;
use std::{env, io};

/// The exit status if an argument isn't text.
const NO_TEXT: u8 = 2;

/// The exit status if opening, reading, writing or an allocation fails.
const FAILED: u8 = 3;

/// Prints what the arguments ask for of the reader's octets, and returns the exit status.
fn view<R: Read + Drop>(rt: &HostRuntime, words: &[String], reader: R) -> io::Result<u8> {
    let mut reader = reader;
    let mut writer = BufWriter::new(rt.alloc(), rt.stdout())?;
    let mut errors = rt.stderr();
    tool(rt.alloc(), words, &mut reader, &mut writer, &mut errors)
}

fn view_file(rt: &HostRuntime, words: &[String], file: &str) -> io::Result<u8> {
    match File::open(rt, file) {
        Ok(reader) => view(rt, words, reader),
        Err(error) => {
            print_unopened(rt.alloc(), &mut rt.stderr(), file, &error)?;
            Ok(FAILED)
        }
    }
}

fn run(rt: &HostRuntime) -> io::Result<u8> {
    let words: Vec<String> = match env::args(rt) {
        Ok(args) => args.skip(1).collect(rt.alloc())?,
        Err(error) if error.kind() == ErrorKind::InvalidData => {
            eprint!(rt; "dnsview: an argument is not UTF-8\n{USAGE}")?;
            return Ok(NO_TEXT);
        }
        Err(error) => return Err(error),
    };
    match file_of(&words) {
        Some(file) if file.as_str() != "-" => view_file(rt, &words, file.as_str()),
        _ => view(rt, &words, rt.stdin()),
    }
}

fn main(rt: HostRuntime) -> ExitCode {
    match run(&rt) {
        Ok(status) => ExitCode::from(status),
        Err(error) => {
            let _ = print_failure(rt.alloc(), &mut rt.stderr(), "failed", &error);
            ExitCode::from(FAILED)
        }
    }
}
