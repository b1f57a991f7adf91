//! Writes whole messages with the builder: a response, and the answers of a zone transfer.
ghost use Rattle.bench.specs.Message.{HandsOut};

use crate::Work;
use crate::names::{hand_out, read_names};
use arrayvec::ArrayVec;
use dns_build::{MessageBuilder, PushError};
use dns_code::{Header, Ttl};
use dns_data::A;
use dns_iana::{Class, Rtype};
use dns_name::Name;
use dns_target::{FingerprintCompressor, HashCompressor, StaticCompressor, TreeCompressor};
use dns_wire::Composer;
use std::alloc::Global;

/// Which message is written from the names.
#[derive(Clone, Copy)]
pub(crate) enum Kind {
    /// A question for the first name, and one address of it.
    Response,

    /// A question for the first name, and an address of each name after it.
    Zone,
}

/// Parses consecutive names that have no pointers.
fn flat_names(alloc: Global, octets: &[u8]) -> Option<Vec<Name<&[u8]>>> {
    let parsed = read_names(alloc, octets)?;
    let mut names = Vec::with_capacity(alloc, parsed.len()).ok()?;
    for name in parsed.as_slice() {
        let name = Name::from_octets(name.as_flat_slice()?).ok()?;
        names.push(name).ok()?;
    }
    Some(names)
}

fn response<T: Composer>(target: T, names: &[Name<&[u8]>]) -> Result<T, PushError> {
    let mut builder = MessageBuilder::from_target(target)?;
    let mut header = Header::new();
    header.set_qr(true);
    header.set_rd(true);
    header.set_ra(true);
    header.set_ad(true);
    builder.set_header(header);
    let mut builder = builder.question();
    let Some(name) = names.first() else {
        return Ok(builder.finish());
    };
    builder.push((name, Rtype::A))?;
    let mut builder = builder.answer();
    builder.push((name, 3600, A::from_octets(203, 0, 113, 1)))?;
    Ok(builder.finish())
}

fn zone<T: Composer>(target: T, names: &[Name<&[u8]>]) -> Result<T, PushError> {
    let mut builder = MessageBuilder::from_target(target)?;
    let mut header = Header::new();
    header.set_id(0x1234);
    header.set_qr(true);
    header.set_aa(true);
    builder.set_header(header);
    let mut builder = builder.question();
    let Some((first, owners)) = names.split_first() else {
        return Ok(builder.finish());
    };
    builder.push((first, Rtype::AXFR))?;
    let mut builder = builder.answer();
    let mut number = 0u16;
    for owner in owners {
        let [high, low] = number.to_be_bytes();
        let data = A::from_octets(10, 0, high, low);
        builder.push((owner, Class::IN, Ttl::from_secs(3600), data))?;
        number = number.wrapping_add(1);
    }
    Ok(builder.finish())
}

fn message<T: Composer>(kind: Kind, target: T, names: &[Name<&[u8]>]) -> Result<T, PushError> {
    match kind {
        Kind::Response => response(target, names),
        Kind::Zone => zone(target, names),
    }
}

/// Writes all messages with one target, which the builder empties before each.
fn write_kept<T: Composer>(
    kind: Kind,
    mut target: T,
    names: &[Name<&[u8]>],
    rounds: usize,
    out: &mut [u8],
) -> usize
    ensures { HandsOut out.old out.new result }
{
    for _ in 0..rounds {
        target = match message(kind, target, names) {
            Ok(kept) => kept,
            Err(_) => return 0,
        };
    }
    hand_out(target.as_slice(), out)
}

/// Like `write_kept`, but each builder borrows the target.
fn write_lent<T: Composer>(
    kind: Kind,
    mut target: T,
    names: &[Name<&[u8]>],
    rounds: usize,
    out: &mut [u8],
) -> usize
    ensures { HandsOut out.old out.new result }
{
    for _ in 0..rounds {
        if message(kind, &mut target, names).is_err() {
            return 0;
        }
    }
    hand_out(target.as_slice(), out)
}

/// Writes each message with a new target.
fn write_fresh<T: Composer, F: Fn() -> T>(
    kind: Kind,
    new_target: F,
    names: &[Name<&[u8]>],
    rounds: usize,
    out: &mut [u8],
) -> usize
    requires { F.IsAlwaysCallable new_target }
    ensures { HandsOut out.old out.new result }
{
    let mut len = 0;
    for _ in 0..rounds {
        len = match message(kind, new_target(), names) {
            Ok(target) => hand_out(target.as_slice(), out),
            Err(_) => return 0,
        };
    }
    len
}

/// Like `write_fresh`, but each builder borrows its target.
fn write_fresh_lent<T: Composer, F: Fn() -> T>(
    kind: Kind,
    new_target: F,
    names: &[Name<&[u8]>],
    rounds: usize,
    out: &mut [u8],
) -> usize
    requires { F.IsAlwaysCallable new_target }
    ensures { HandsOut out.old out.new result }
{
    let mut len = 0;
    for _ in 0..rounds {
        let mut target = new_target();
        if message(kind, &mut target, names).is_err() {
            return 0;
        }
        len = hand_out(target.as_slice(), out);
    }
    len
}

/// Writes the messages with the target of this number.
pub(crate) fn write_with(
    alloc: Global,
    kind: Kind,
    target: u32,
    work: &Work<'_>,
    out: &mut [u8],
) -> usize
    ensures { HandsOut out.old out.new result }
{
    match flat_names(alloc, work.names) {
        Some(names) => write_to(alloc, kind, target, &names, work.rounds, out),
        None => 0,
    }
}

/// Writes the messages of these names.
fn write_to(
    alloc: Global,
    kind: Kind,
    target: u32,
    names: &[Name<&[u8]>],
    rounds: usize,
    out: &mut [u8],
) -> usize
    ensures { HandsOut out.old out.new result }
{
    let octets = || Vec::new(alloc);
    match target {
        0 => write_kept(kind, octets(), names, rounds, out),
        1 => write_kept(kind, StaticCompressor::new(octets()), names, rounds, out),
        2 => write_kept(
            kind,
            TreeCompressor::new(alloc, octets()),
            names,
            rounds,
            out,
        ),
        3 => write_kept(
            kind,
            HashCompressor::new(alloc, octets()),
            names,
            rounds,
            out,
        ),
        4 => {
            let index = FingerprintCompressor::new(alloc, octets());
            write_kept(kind, index, names, rounds, out)
        }
        _ => write_otherwise(alloc, kind, target, names, rounds, out),
    }
}

/// Writes the messages with a target of number 5 or above: the five targets in the same order, new
/// for each message; a static and a fingerprint compressor that are borrowed; new static compressors
/// over an array and over a `Vec` that are borrowed.
fn write_otherwise(
    alloc: Global,
    kind: Kind,
    target: u32,
    names: &[Name<&[u8]>],
    rounds: usize,
    out: &mut [u8],
) -> usize
    ensures { HandsOut out.old out.new result }
{
    let octets = || Vec::new(alloc);
    let fixed = || StaticCompressor::new(octets());
    let tree = || TreeCompressor::new(alloc, octets());
    let hash = || HashCompressor::new(alloc, octets());
    let index = || FingerprintCompressor::new(alloc, octets());
    let array = || StaticCompressor::new(ArrayVec::<u8, 512>::new());
    match target {
        5 => write_fresh(kind, octets, names, rounds, out),
        6 => write_fresh(kind, fixed, names, rounds, out),
        7 => write_fresh(kind, tree, names, rounds, out),
        8 => write_fresh(kind, hash, names, rounds, out),
        9 => write_fresh(kind, index, names, rounds, out),
        10 => write_lent(kind, fixed(), names, rounds, out),
        11 => write_lent(kind, index(), names, rounds, out),
        12 => write_fresh_lent(kind, array, names, rounds, out),
        13 => write_fresh_lent(kind, fixed, names, rounds, out),
        _ => 0,
    }
}
