//! Exports for C code that measures times of tasks with responses and with records as text: replies
//! judged, messages printed as JSON, streams and transfers read, responses written that fit, records
//! read and printed. A function that more code calls is less often put in line, so they have a
//! library of their own beside `bench`.
//!
//! Each does its task `rounds` times, or with `times` messages. On failure its result is 0.
#![tactic(auto)]

mod fitting;
mod responses;
mod texts;

use std::alloc::Global;

/// Judges a reply to a query, `rounds` times. Returns the TTL of its answer, or 0 if it isn't one.
#[unsafe(no_mangle)]
pub extern "C" fn dns_bench_reply(query: &[u8], reply: &[u8], rounds: usize) -> usize {
    responses::judge(query, reply, rounds).unwrap_or(0)
}

/// Prints a message as JSON, `rounds` times. Returns the length of the text, or 0 if the octets are
/// no message, or an allocation fails.
#[unsafe(no_mangle)]
pub extern "C" fn dns_bench_json(alloc: Global, octets: &[u8], rounds: usize) -> usize {
    responses::print(alloc, octets, rounds).unwrap_or(0)
}

/// Takes the messages of a stream, `rounds` times. Returns their number, or 0 if one is malformed.
#[unsafe(no_mangle)]
pub extern "C" fn dns_bench_stream(alloc: Global, octets: &[u8], rounds: usize) -> usize {
    responses::receive(alloc, octets, rounds).unwrap_or(0)
}

/// Takes a transfer: one message with the SOA record, `times` messages of records, and the first one
/// again. Returns the number of records that are added, or 0 if a message isn't the next one.
#[unsafe(no_mangle)]
pub extern "C" fn dns_bench_transfer(soa: &[u8], records: &[u8], times: usize) -> usize {
    responses::transfer(soa, records, times).unwrap_or(0)
}

/// Writes a response of 20 addresses to a query, `rounds` times. Returns its length, or 0 if the
/// octets are no query, an allocation fails, or the addresses don't fit.
#[unsafe(no_mangle)]
pub extern "C" fn dns_bench_fit(alloc: Global, query: &[u8], rounds: usize) -> usize {
    fitting::respond(alloc, query, rounds).unwrap_or(0)
}

/// Reads a record of its line, `rounds` times. Returns the length of the line, or 0 on failure.
#[unsafe(no_mangle)]
pub extern "C" fn dns_bench_read_line(alloc: Global, line: &[u8], rounds: usize) -> usize {
    texts::read(alloc, line, rounds).unwrap_or(0)
}

/// Prints the record of this line, `rounds` times. Returns the length of the line, or 0 on failure.
#[unsafe(no_mangle)]
pub extern "C" fn dns_bench_print_line(alloc: Global, line: &[u8], rounds: usize) -> usize {
    texts::print(alloc, line, rounds).unwrap_or(0)
}
