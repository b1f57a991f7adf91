//! The program `example_response` answers queries as an authoritative server of one zone does (RFC
//! 1034 section 4.3.2), without the network:
//!
//!     example_response udp|tcp ZONE < QUERIES
//!
//! `ZONE` is a file with a record a line (RFC 1035 section 5.1), in canonical order, the SOA record
//! first. Each line of standard input is a query in hexadecimal digits. For each the program prints
//! the response in the same form, or an empty line if a message gets none: it is no query, it isn't
//! regular, so that its names may be dear to read, or its questions alone exceed the limit.
//!
//! The contract of `response::response` says which response, that of `zone::Zone::case_of` which case
//! of RFC 1034 section 4.3.2 a question is, and `laws` what that says of the zone, and where the
//! records of a response are from. AXFR and the like get NOTIMP.
#![tactic(auto)]

mod answer;
mod laws;
mod question;
mod reading;
mod response;
mod zone;

use crate::reading::read_zone;
use crate::response::response;
use crate::zone::Zone;
use anyhow::{Context, Result};
use dns_message::edit::is_regular;
use dns_message::message::Message;
use std::alloc::Global;
use std::{env, fs, io};

/// How the program is called.
const USAGE: &str = "usage: example_response udp|tcp ZONE";

/// The most octets of a response over UDP (RFC 6891 section 6.2.5), if the client accepts them.
const MOST_OVER_UDP: u16 = 1232;

fn main(rt: HostRuntime) -> Result<()> {
    let words: Vec<String> = env::args(&rt)?.skip(1).collect(rt.alloc())?;
    let over_tcp = words.get(0).context(USAGE)?.as_str() == "tcp";
    let path = words.get(1).context(USAGE)?;
    let text = fs::read_to_string(&rt, path.as_str())?;
    let zone = read_zone(rt.alloc(), &text)?;
    let queries = io::read_to_string(rt.alloc(), rt.stdin())?;
    for line in queries.lines() {
        let octets = hex::decode(rt.alloc(), line.trim_ascii())?;
        println!(rt; "{}", responded(rt.alloc(), &zone, octets, over_tcp)?)?;
    }
    Ok(())
}

/// The response to a message in hexadecimal digits, or none.
fn responded(alloc: Global, zone: &Zone, octets: Vec<u8>, over_tcp: bool) -> Result<String> {
    let Ok(query) = Message::from_octets(octets) else {
        return Ok(String::new(alloc));
    };
    if query.header().qr() || !is_regular(&query) {
        return Ok(String::new(alloc));
    }
    let limit = if over_tcp {
        u16::MAX
    } else {
        limit_over_udp(&query)
    };
    match response(alloc, zone, &query, limit) {
        Ok(response) => Ok(hex::encode(alloc, response.as_slice())?),
        Err(error) if error.is_too_long() => Ok(String::new(alloc)),
        Err(error) => Err(error.into()),
    }
}

/// The most octets of a response over UDP: what the client accepts, at least 512 (RFC 6891 section
/// 6.2.3).
fn limit_over_udp(query: &Message<Vec<u8>>) -> u16 {
    match query.opt() {
        Some(opt) => opt.udp_payload_size().clamp(512, MOST_OVER_UDP),
        None => 512,
    }
}
