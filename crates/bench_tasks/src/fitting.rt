//! Responses as servers write them: up to 20 addresses, and an OPT record, within a limit.
use arrayvec::ArrayVec;
use dns_build::MessageBuilder;
use dns_data::A;
use dns_iana::Rcode;
use dns_name::ParsedName;
use dns_read::Message;
use dns_target::StaticCompressor;
use std::alloc::Global;

/// The most octets of a response.
const LIMIT: usize = 1_232;

/// The octets of an OPT record without options (RFC 6891 section 6.1.2).
const OPT: u16 = 11;

/// An address of the name that is asked for, with its TTL in seconds.
type Address<'a> = (ParsedName<'a>, u32, A);

/// Writes a response to the query `rounds` times. Returns its length, or `None` if the octets are no
/// query, an allocation fails, or the addresses don't fit.
pub(crate) fn respond(alloc: Global, query: &[u8], rounds: usize) -> Option<usize> {
    let query = Message::from_octets(query).ok()?;
    let addresses = addresses(alloc, &query)?;
    let mut target = StaticCompressor::new(ArrayVec::new());
    let mut len = 0;
    for _ in 0..rounds {
        len = write(alloc, &mut target, &query, addresses.as_slice())?;
    }
    Some(len)
}

/// 20 addresses of the name that a query asks for.
fn addresses<'a>(alloc: Global, query: &'a Message<&'a [u8]>) -> Option<Vec<Address<'a>>> {
    let question = query.first_question()?;
    let mut addresses = Vec::new(alloc);
    for host in 0..20 {
        let address = A::from_octets(192, 0, 2, host);
        addresses.push((*question.qname(), 300, address)).ok()?;
    }
    Some(addresses)
}

/// Writes one response. Returns its length.
fn write(
    alloc: Global,
    target: &mut StaticCompressor<ArrayVec<u8, LIMIT>>,
    query: &Message<&[u8]>,
    addresses: &[Address<'_>],
) -> Option<usize> {
    let builder = MessageBuilder::from_target(target).ok()?;
    let (builder, opt) = builder.respond(alloc, query, Rcode::NOERROR).ok()?;
    let mut response = builder.fit(LIMIT, OPT).ok()?;
    if !response.push_required(addresses).ok()? {
        return None;
    }
    let response = response.authority().additional();
    let response = match opt {
        Some(opt) => response.push_opt(&opt).ok()?,
        None => response.release(),
    };
    Some(response.as_slice().len())
}
