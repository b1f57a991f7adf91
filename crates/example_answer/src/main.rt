//! The program `example_answer` answers a query from a small table of addresses:
//!
//!     example_answer < DIGITS
//!
//! It reads the query from standard input as hexadecimal digits, and prints the answer in the same
//! form. If there is no answer, or reading or printing fails, it says why on standard error, and
//! exits with status 1. The contract of `answering::answer` says what the answer is, and that it is never longer
//! than the client accepts.
#![tactic(auto)]

mod answering;

use crate::answering::answer;
use anyhow::Result;
use dns_message::data::A;
use dns_message::name::Name;
use dns_message::record::Record;
use std::io;

fn main(rt: HostRuntime) -> Result<()> {
    let digits = io::read_to_string(rt.alloc(), rt.stdin())?;
    let query = hex::decode(rt.alloc(), digits.trim_ascii())?;
    let name = Name::from_octets(*b"\x07example\x03com\x00")?;
    let mut table = Vec::new(rt.alloc());
    for host in 1..=40 {
        table.push(Record::from((name, 3600u32, A::from_octets(192, 0, 2, host))))?;
    }
    let answer = answer(rt.alloc(), &query, &table)?;
    println!(rt; "{}", hex::encode(rt.alloc(), &answer)?)?;
    Ok(())
}
