//! A proved caller: what was appended and then cut away leaves no trace in a target.
ghost use Rattle.std.specs.Prelude.{◌≡◌};

use crate::asserts::name_of;
use crate::compressors::{ALIKE, Case};
use crate::steps::Step;
use dns_wire::{Composer, ToName};
use std::process::Abort;

/// Appends names and octets after each, whether or not the appends succeed. Then cuts the content
/// back to its former length.
fn append_and_cut<T: Composer, N: ToName>(target: &mut T, names: &[N], octets: &[u8])
    ensures { T.written target.new ≡ T.written target.old }
{
    let len = target.as_slice().len();
    for name in names {
        let _name = target.append_compressed_name(name);
        let _octets = target.append_slice(octets);
    }
    target.truncate(len);
}

/// Does so with two names that share a suffix, and with the octets of a pointer.
pub(crate) fn take_history<T: Composer>(rt: &impl Abort, target: &mut T) {
    let names = [
        name_of(rt, b"\x01a\x02bc\x02de\x00"),
        name_of(rt, b"\x01x\x02bc\x02de\x00"),
    ];
    append_and_cut(target, &names, b"\xC0\x00");
}

/// A name is written in the same octets before and after that.
pub(crate) const HISTORY: Case = Case {
    name: "a history cut away",
    steps: &[
        Step::Name(b"\x02de\x00", Ok(b"\x02de\x00")),
        Step::History,
        Step::Name(b"\x02bc\x02de\x00", Ok(b"\x02bc\xC0\x00")),
    ],
    len: 9,
    ..ALIKE
};
