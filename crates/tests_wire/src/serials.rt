//! Serials: sums, comparisons and texts, and a proved caller.
ghost use Rattle.std.specs.Prelude.{◌↔◌, IsTrue};
ghost use Rattle.dns_iana.specs.Serials.{IsLess};

use crate::asserts::{assert_prints, assert_same};
use dns_iana::Serial;
use std::cmp::Ordering;

/// A serial, another one, and how the first compares to the second.
const COMPARISONS: &[(&str, u32, u32, Option<Ordering>)] = &[
    ("equal", 12, 12, Some(Ordering::Equal)),
    ("the next", 12, 13, Some(Ordering::Less)),
    (
        "a greater number, far ahead",
        12,
        3_000_000_012,
        Some(Ordering::Greater),
    ),
    (
        "a smaller number, far behind",
        3_000_000_012,
        12,
        Some(Ordering::Less),
    ),
    ("past the wrap", 4_294_967_295, 0, Some(Ordering::Less)),
    ("just below half", 0, 2_147_483_647, Some(Ordering::Less)),
    ("half", 0, 2_147_483_648, None),
    ("half, the other way", 2_147_483_648, 0, None),
    ("just above half", 0, 2_147_483_649, Some(Ordering::Greater)),
];

#[test]
fn compares(rt: HostRuntime) {
    for &(row, serial, other, order) in COMPARISONS {
        let found = Serial::from_int(serial).serial_cmp(Serial::from_int(other));
        assert_same(&rt, row, found, order);
    }
}

/// The greatest addend. A sum past the wrap is in `transfers_newer_zones`.
#[test]
fn adds_and_prints(rt: HostRuntime) {
    let sum = Serial::from(1).add(Serial::MAX_ADDEND);
    assert_same(&rt, "a sum", u32::from(sum), 0x8000_0000);
    assert_prints(&rt, rt.alloc(), "a text", &sum, "2147483648");
}

/// Whether a secondary server has to transfer a zone that it holds.
fn needs_transfer(held: Serial, offered: Serial) -> bool
    ensures { IsTrue result ↔ IsLess held offered }
{
    held.serial_cmp(offered) == Some(Ordering::Less)
}

#[test]
fn transfers_newer_zones(rt: HostRuntime) {
    let held = Serial::from(u32::MAX);
    let needs = [
        needs_transfer(held, held.add(2)),
        needs_transfer(held, held),
    ];
    assert_same(&rt, "a newer zone, and the same", needs, [true, false]);
}
