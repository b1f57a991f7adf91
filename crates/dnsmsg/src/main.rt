//! The program `dnsmsg` reads standard input: it builds the message that a script describes, or
//! prints the message that is given in hexadecimal digits:
//!
//!     dnsmsg build TARGET < SCRIPT
//!     dnsmsg show < DIGITS
//!
//! `dnsmsg_tool::tool` does the work. It is proved to be safe and to terminate on every input.
#![tactic(auto)]

use dnsmsg_tool::tool;
use std::io::{BufWriter, ErrorKind};
use std::process::ExitCode;
use std::{env, io};

/// The exit status if reading, writing or an allocation fails.
const FAILED: u8 = 3;

/// The arguments after the program's name. Returns none if an argument isn't text.
fn words(rt: &HostRuntime) -> io::Result<Vec<String>> {
    match env::args(rt) {
        Ok(args) => Ok(args.skip(1).collect(rt.alloc())?),
        Err(error) if error.kind() == ErrorKind::InvalidData => Ok(Vec::new(rt.alloc())),
        Err(error) => Err(error),
    }
}

fn run(rt: &HostRuntime) -> io::Result<u8> {
    let words = words(rt)?;
    let writer = BufWriter::new(rt.alloc(), rt.stdout())?;
    Ok(tool(rt.alloc(), &words, rt.stdin(), writer))
}

fn main(rt: HostRuntime) -> ExitCode {
    match run(&rt) {
        Ok(status) => ExitCode::from(status),
        Err(_) => {
            let _ = println!(rt; "failed");
            ExitCode::from(FAILED)
        }
    }
}
