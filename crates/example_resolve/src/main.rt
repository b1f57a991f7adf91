//! The program `example_resolve` is the core of a stub resolver (RFC 1034 section 5.3.1), without
//! the network:
//!
//!     example_resolve < NAME-AND-REPLIES
//!
//! The first line is a name and perhaps a record type, A by default or AAAA. Each further line is a
//! message in hexadecimal digits: the reply to the query that the lines before it lead to.
//!
//! The program prints the addresses, one a line, if the replies give them. Else it prints the next
//! query in hexadecimal digits, and `over TCP` or `to the servers of` a zone if that has to be used
//! or asked. If there are no addresses, it exits with status 1 and a reason on standard error. A
//! message that isn't regular is refused, as its names may be dear to read, unless it is the
//! truncated response to the query: then its records aren't read.
//!
//! The contract of `resolving::query` says what a query is, and that of `resolving::Lookup::judge`
//! what each reply tells to do.
#![tactic(auto)]

mod resolving;

use crate::resolving::{Lookup, Next, query};
use anyhow::{Result, bail, ensure};
use dns_message::code::Rtype;
use dns_message::edit::is_regular;
use dns_message::fields::{DataText, FieldData};
use dns_message::message::Message;
use dns_message::reply::Rrset;
use std::io;

/// The ID of the queries. A program that sends queries has to use unpredictable IDs (RFC 5452
/// section 9.2).
const ID: u16 = 0x1234;

/// How often a reply may lead to another query.
const BUDGET: u32 = 8;

fn main(rt: HostRuntime) -> Result<()> {
    let text = io::read_to_string(rt.alloc(), rt.stdin())?;
    let mut lines = text.trim_ascii().lines();
    let mut lookup = lookup_of(lines.next().unwrap_or(""))?;
    for line in lines {
        let sent = query(ID, &lookup.name, lookup.rtype);
        let received = Message::from_octets(hex::decode(rt.alloc(), line.trim_ascii())?)?;
        let truncated = received.header().tc() && received.is_answer(&sent);
        ensure!(
            truncated || is_regular(&received),
            "ask another server: the reply isn't regular"
        );
        match lookup.judge(rt.alloc(), ID, &received)? {
            Next::Found(set) => return print_set(&rt, set),
            Next::Ask(later) => lookup = later,
            Next::NoData => bail!("no addresses"),
            Next::NoName => bail!("no such name"),
            Next::Spent => bail!("too many queries"),
            Next::Failed(rcode) => {
                let name = rcode.registered_name().unwrap_or("unassigned");
                bail!("the rcode is {name} ({})", rcode.to_int())
            }
            Next::Unusable(why) => bail!("ask another server: {why}"),
        }
    }
    print_query(&rt, &lookup)
}

/// The look-up of a line: of a name, and of type A if no type follows it.
fn lookup_of(line: &str) -> Result<Lookup> {
    let (name, rtype) = match line.split_once(' ') {
        Some((name, rtype)) => (name, rtype.trim_ascii().parse()?),
        None => (line, Rtype::A),
    };
    ensure!(
        rtype == Rtype::A || rtype == Rtype::AAAA,
        "no query for addresses"
    );
    Ok(Lookup {
        name: name.parse()?,
        rtype,
        zone: ".".parse()?,
        over_tcp: false,
        budget: BUDGET,
    })
}

/// Prints the RDATA of each record, one a line, if all of it can be read.
fn print_set(rt: &(impl Print + AllocGlobal), set: Rrset<'_>) -> Result<()> {
    let mut found = Vec::new(rt.alloc());
    for item in set {
        found.push(item?.to_any_record::<FieldData<'_>>()?)?;
    }
    for record in &found {
        println!(rt; "{}", DataText(record.data()))?;
    }
    Ok(())
}

/// Prints the next query, and how it has to be sent.
fn print_query(rt: &(impl Print + AllocGlobal), lookup: &Lookup) -> Result<()> {
    let message = query(ID, &lookup.name, lookup.rtype);
    let digits = hex::encode(rt.alloc(), message.as_slice())?;
    print!(rt; "{digits}")?;
    if lookup.over_tcp {
        print!(rt; " over TCP")?;
    }
    if lookup.zone.label_count() > 1 {
        print!(rt; " to the servers of {}", lookup.zone.fmt_with_dot())?;
    }
    println!(rt; "")?;
    Ok(())
}
