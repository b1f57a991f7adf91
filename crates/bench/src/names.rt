//! Reads consecutive names, and writes them as one message.
ghost use Rattle.std.specs.Prelude.{◌≡◌, ◌<◌, take, fold, OnOk};
ghost use Rattle.dns_wire.specs.Targets.{cut_to};
ghost use Rattle.bench.specs.Message.{HandsOut, with_name};

use dns_name::{ParsedName, Parser};
use dns_octets::AppendError;
use dns_wire::Composer;
use std::alloc::Global;

/// Parses consecutive names. Returns `None` if one is malformed or an allocation fails.
pub(crate) fn read_names(alloc: Global, octets: &[u8]) -> Option<Vec<ParsedName<'_>>> {
    let mut parser = Parser::new(octets);
    let mut names = Vec::new(alloc);
    for _ in 0..octets.len() {
        if parser.remaining() == 0 {
            break;
        }
        let Ok(name) = ParsedName::parse(&mut parser) else {
            return None;
        };
        if names.push(name).is_err() {
            return None;
        }
    }
    Some(names)
}

/// Appends the names.
pub(crate) fn write_names<T: Composer>(
    target: &mut T,
    names: &[ParsedName<'_>],
) -> Result<(), AppendError>
    ensures { OnOk result (
        T.written target.new ≡ fold (with_name T.rule) (T.written target.old) names.now) }
{
    for name in names {
        target.append_compressed_name(name)?;
    }
    Ok(())
}

/// Writes the names as one message, in place of the target's content.
pub(crate) fn write_message<T: Composer>(
    target: &mut T,
    names: &[ParsedName<'_>],
) -> Result<(), AppendError>
    ensures { OnOk result (
        T.written target.new
        ≡ fold (with_name T.rule) (cut_to 0 (T.written target.old)) names.now) }
{
    target.truncate(0);
    write_names(target, names)
}

/// Copies a message to the beginning of `out`. Returns its length, or 0 if it doesn't fit.
pub(crate) fn hand_out(message: &[u8], out: &mut [u8]) -> usize
    ensures handed_out { HandsOut out.old out.new result }
    ensures message { 0 < result → take result out.new ≡ message.now }
{
    let len = message.len();
    if len > out.len() {
        return 0;
    }
    out[..len].copy_from_slice(message);
    len
}
