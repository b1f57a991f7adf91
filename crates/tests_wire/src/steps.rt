//! Steps on a target, each with the octets that it has to write.
use crate::asserts::{assert_same, name_of};
use crate::callers::take_history;
use dns_wire::{AppendError, Composer, ToNameExt};
use std::process::Abort;

/// The octets that an append writes, or its error.
type Written = Result<&'static [u8], AppendError>;

/// A step on a target.
#[derive(Clone, Copy)]
pub(crate) enum Step {
    /// Appends octets.
    Octets(&'static [u8], Written),
    /// Appends a name, which is given uncompressed.
    Name(&'static [u8], Written),
    /// Appends the canonical form of a name.
    Canonical(&'static [u8], Written),
    /// Cuts the content to this length.
    Cut(usize),
    /// Appends names and octets, and cuts them away again.
    History,
}

/// Appends a name.
pub(crate) fn append_name<T: Composer>(
    rt: &impl Abort,
    target: &mut T,
    name: &[u8],
) -> Result<(), AppendError> {
    target.append_compressed_name(&name_of(rt, name))
}

/// Appends what a step says, or cuts. Returns what the append returned, and what it has to write.
fn append<T: Composer>(
    rt: &impl Abort,
    target: &mut T,
    step: Step,
) -> (Result<(), AppendError>, Written) {
    match step {
        Step::Octets(octets, written) => (target.append_slice(octets), written),
        Step::Name(name, written) => (append_name(rt, target, name), written),
        Step::Canonical(name, written) => (name_of(rt, name).compose_canonical(target), written),
        Step::Cut(len) => {
            target.truncate(len);
            (Ok(()), Ok(b""))
        }
        Step::History => {
            take_history(rt, target);
            (Ok(()), Ok(b""))
        }
    }
}

/// Takes a step. An append that fails writes nothing.
pub(crate) fn take<T: Composer>(rt: &impl Abort, row: &str, target: &mut T, step: Step) {
    let start = match step {
        Step::Cut(len) => len,
        _ => target.as_slice().len(),
    };
    let (answer, written) = append(rt, target, step);
    assert_same(rt, row, answer.err(), written.err());
    let appended = target.as_slice().get(start..);
    assert_same(rt, row, appended, Some(written.unwrap_or(b"")));
}

/// Takes the steps of a row on a target.
pub(crate) fn assert_steps<T: Composer>(
    rt: &impl Abort,
    row: &str,
    target: &mut T,
    steps: &[Step],
) {
    for step in steps {
        take(rt, row, target, *step);
    }
}
