//! The program `example_rewrite` writes a message again as a cache may keep it: it caps each TTL,
//! and leaves out OPT records, which must not be cached (RFC 6891 section 6.1.1).
//!
//!     example_rewrite < SECONDS-AND-DIGITS
//!
//! Standard input has two lines: the maximum TTL in seconds, and the octets of the message in
//! hexadecimal digits. The program prints the octets of the new message in the same form. If there
//! is none, or reading or printing fails, it says why on standard error, and exits with status 1.
//! The contract of `rewriting::with_ttls_cut` says that the new message reads back as the old one
//! except for that.
#![tactic(auto)]

mod rewriting;

use crate::rewriting::with_ttls_cut;
use anyhow::{Context, Result};
use dns_message::message::Message;
use dns_message::record::Ttl;
use std::io;

fn main(rt: HostRuntime) -> Result<()> {
    let text = io::read_to_string(rt.alloc(), rt.stdin())?;
    let lines = text.trim_ascii().split_once('\n');
    let (seconds, digits) = lines.context("two lines are wanted")?;
    let seconds = seconds.trim_ascii().parse::<u32>()?;
    let message = Message::from_octets(hex::decode(rt.alloc(), digits.trim_ascii())?)?;
    let cut = with_ttls_cut(rt.alloc(), &message, Ttl::from_secs(seconds))?;
    println!(rt; "{}", hex::encode(rt.alloc(), cut.as_slice())?)?;
    Ok(())
}
