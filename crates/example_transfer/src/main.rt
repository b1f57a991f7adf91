//! The program `example_transfer` prints the steps of a zone transfer (RFC 5936 for AXFR, RFC 1995
//! for IXFR):
//!
//!     example_transfer ID ZONE [SERIAL] < STREAM
//!
//! The arguments are the ID of the query, the name of the zone, and for an IXFR the serial of the
//! version that is known. Standard input has the messages that the server sends over TCP, each
//! after its length in two octets (RFC 1035 section 4.2.2).
//!
//! A record that is added prints as a line of a zone file, so a zone that is sent whole prints as
//! its zone file. A record that is removed prints as such a line after `- `. The comment
//! `; up to date` says that there is no newer version, and `; the whole zone` that the version
//! before is to be forgotten, as the zone follows in place of changes: all of it, from its SOA
//! record on.
//!
//! If the transfer can't be read to its end, or reading or printing fails, the program says so on
//! standard error, and exits with status 1. TSIG isn't checked.
//!
//! The contract of `transfer::print_transfer` says what is printed, and when the transfer is
//! complete.
#![tactic(auto)]

mod print;
mod transfer;

use crate::transfer::print_transfer;
use anyhow::{Context, Result};
use dns_message::code::Class;
use dns_message::name::Name;
use dns_message::serial::Serial;
use dns_message::transfer::Transfer;
use std::env;
use std::io::{BufWriter, Read, Write};

/// How the program is called.
const USAGE: &str = "usage: example_transfer ID ZONE [SERIAL]";

fn main(rt: HostRuntime) -> Result<()> {
    let words: Vec<String> = env::args(&rt)?.skip(1).collect(rt.alloc())?;
    let transfer = transfer_of(&words)?;
    let mut stream = Vec::new(rt.alloc());
    rt.stdin().read_to_end(&mut stream)?;
    let mut writer = BufWriter::new(rt.alloc(), rt.stdout())?;
    let by_ixfr = words.len() > 2;
    let outcome = print_transfer(rt.alloc(), transfer, by_ixfr, &stream, &mut writer);
    writer.flush()?;
    Ok(outcome?)
}

/// The transfer that the arguments ask for.
fn transfer_of(words: &[String]) -> Result<Transfer> {
    let id = words.get(0).context(USAGE)?.parse::<u16>()?;
    let zone = words.get(1).context(USAGE)?.parse()?;
    match words.get(2) {
        Some(serial) => {
            let known = Serial::from_int(serial.parse::<u32>()?);
            Ok(Transfer::ixfr(id, zone, Class::IN, known))
        }
        None => Ok(Transfer::axfr(id, zone, Class::IN)),
    }
}
