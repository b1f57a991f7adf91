//! Exports for C code that measures times: names written by the four compressors, whole messages
//! written by the builder, and a message that is read whole. Each export but `dns_bench_walk`
//! writes the same message `rounds` times.
//!
//! The last message is copied to the beginning of `out`, and its length is returned. The length is
//! 0 if a name is malformed, an allocation fails, or `out` is too short.
#![tactic(auto)]

mod edit;
mod messages;
mod names;
mod values;
mod walk;

ghost use Rattle.bench.specs.Message.{HandsOut};

use dns_target::{FingerprintCompressor, HashCompressor, StaticCompressor, TreeCompressor};
use dns_wire::Composer;
use messages::{Kind, write_with};
use names::{hand_out, read_names, write_message, write_names};
use std::alloc::Global;
use std::convert::AsSlice;

/// What an export writes.
#[repr(C)]
pub struct Work<'a> {
    /// The names of a message, consecutive and in wire format.
    pub names: &'a [u8],

    /// How many times the message is written.
    pub rounds: usize,
}

/// Writes with one target, which is emptied before each message.
fn write_reused<T: Composer>(alloc: Global, mut target: T, work: &Work<'_>, out: &mut [u8]) -> usize
    ensures { HandsOut out.old out.new result }
{
    let Some(names) = read_names(alloc, work.names) else {
        return 0;
    };
    for _ in 0..work.rounds {
        if write_message(&mut target, names.as_slice()).is_err() {
            return 0;
        }
    }
    hand_out(target.as_slice(), out)
}

/// Writes each message with a new target.
fn write_fresh<T: Composer, F: Fn() -> T>(
    alloc: Global,
    new_target: F,
    work: &Work<'_>,
    out: &mut [u8],
) -> usize
    requires { F.IsAlwaysCallable new_target }
    ensures { HandsOut out.old out.new result }
{
    let Some(names) = read_names(alloc, work.names) else {
        return 0;
    };
    let mut len = 0;
    for _ in 0..work.rounds {
        let mut target = new_target();
        if write_names(&mut target, names.as_slice()).is_err() {
            return 0;
        }
        len = hand_out(target.as_slice(), out);
    }
    len
}

/// Writes with one static compressor, which is emptied before each message.
#[unsafe(no_mangle)]
pub extern "C" fn dns_bench_static(alloc: Global, work: &Work<'_>, out: &mut [u8]) -> usize
    ensures { HandsOut out.old out.new result }
{
    let target = StaticCompressor::new(Vec::new(alloc));
    write_reused(alloc, target, work, out)
}

/// Writes with one tree compressor, which is emptied before each message.
#[unsafe(no_mangle)]
pub extern "C" fn dns_bench_tree(alloc: Global, work: &Work<'_>, out: &mut [u8]) -> usize
    ensures { HandsOut out.old out.new result }
{
    let target = TreeCompressor::new(alloc, Vec::new(alloc));
    write_reused(alloc, target, work, out)
}

/// Writes with one hash compressor, which is emptied before each message.
#[unsafe(no_mangle)]
pub extern "C" fn dns_bench_hash(alloc: Global, work: &Work<'_>, out: &mut [u8]) -> usize
    ensures { HandsOut out.old out.new result }
{
    let target = HashCompressor::new(alloc, Vec::new(alloc));
    write_reused(alloc, target, work, out)
}

/// Writes with one fingerprint compressor, which is emptied before each message.
#[unsafe(no_mangle)]
pub extern "C" fn dns_bench_index(alloc: Global, work: &Work<'_>, out: &mut [u8]) -> usize
    ensures { HandsOut out.old out.new result }
{
    let target = FingerprintCompressor::new(alloc, Vec::new(alloc));
    write_reused(alloc, target, work, out)
}

/// Writes each message with a new static compressor over a new `Vec`.
#[unsafe(no_mangle)]
pub extern "C" fn dns_bench_fresh_static(alloc: Global, work: &Work<'_>, out: &mut [u8]) -> usize
    ensures { HandsOut out.old out.new result }
{
    let new_target = || StaticCompressor::new(Vec::new(alloc));
    write_fresh(alloc, new_target, work, out)
}

/// Writes each message with a new tree compressor over a new `Vec`.
#[unsafe(no_mangle)]
pub extern "C" fn dns_bench_fresh_tree(alloc: Global, work: &Work<'_>, out: &mut [u8]) -> usize
    ensures { HandsOut out.old out.new result }
{
    let new_target = || TreeCompressor::new(alloc, Vec::new(alloc));
    write_fresh(alloc, new_target, work, out)
}

/// Writes each message with a new hash compressor over a new `Vec`.
#[unsafe(no_mangle)]
pub extern "C" fn dns_bench_fresh_hash(alloc: Global, work: &Work<'_>, out: &mut [u8]) -> usize
    ensures { HandsOut out.old out.new result }
{
    let new_target = || HashCompressor::new(alloc, Vec::new(alloc));
    write_fresh(alloc, new_target, work, out)
}

/// Writes each message with a new fingerprint compressor over a new `Vec`.
#[unsafe(no_mangle)]
pub extern "C" fn dns_bench_fresh_index(alloc: Global, work: &Work<'_>, out: &mut [u8]) -> usize
    ensures { HandsOut out.old out.new result }
{
    let new_target = || FingerprintCompressor::new(alloc, Vec::new(alloc));
    write_fresh(alloc, new_target, work, out)
}

/// The sum of all fields of a message, or `u64::MAX` if the message can't be read. RDATA of A, NS and
/// CNAME is read; if `fields` isn't 0, instead all RDATA is, as fields of `fields_table`.
#[unsafe(no_mangle)]
pub extern "C" fn dns_bench_walk(octets: &[u8], fields: u32) -> u64 {
    match walk::walk(octets, fields != 0) {
        Some(sum) => sum,
        None => u64::MAX,
    }
}

/// Writes a response with the target of this number. The first name is that of the question and of
/// one A record.
///
/// Targets 0 to 4 are a `Vec`, and static, tree, hash and fingerprint compressors over a `Vec`,
/// emptied before each message; 5 to 9 are the same, new for each message. Targets 10 and 11 are a
/// static and a fingerprint compressor, emptied before each message, which each builder borrows.
/// Targets 12 and 13 are borrowed too, but new for each message: static compressors over an array of
/// 512 octets and over a `Vec`.
#[unsafe(no_mangle)]
pub extern "C" fn dns_bench_response(
    alloc: Global,
    target: u32,
    work: &Work<'_>,
    out: &mut [u8],
) -> usize
    ensures { HandsOut out.old out.new result }
{
    write_with(alloc, Kind::Response, target, work, out)
}

/// Writes a message of many answers, with a target as in `dns_bench_response`. The first name is
/// that of the question, and each name after it has an A record.
#[unsafe(no_mangle)]
pub extern "C" fn dns_bench_zone(
    alloc: Global,
    target: u32,
    work: &Work<'_>,
    out: &mut [u8],
) -> usize
    ensures { HandsOut out.old out.new result }
{
    write_with(alloc, Kind::Zone, target, work, out)
}

/// Lowers the TTLs of a copy of a message by a second, `rounds` times. Returns its length, or 0 if the
/// octets are no message, or its TTLs can't be changed in place.
#[unsafe(no_mangle)]
pub extern "C" fn dns_bench_age(alloc: Global, octets: &[u8], rounds: usize) -> usize {
    edit::age(alloc, octets, rounds).unwrap_or(0)
}

/// Makes RDATA of MX with preference 10, `rounds` times: of the octets of the exchange by value, or of
/// its text if `text` isn't 0. Returns `rounds`, or 0 on failure.
#[unsafe(no_mangle)]
pub extern "C" fn dns_bench_mx(alloc: Global, exchange: &[u8], text: u32, rounds: usize) -> usize {
    let made = match text {
        0 => values::by_value(alloc, exchange, rounds),
        _ => values::by_text(alloc, exchange, rounds),
    };
    made.unwrap_or(0)
}
