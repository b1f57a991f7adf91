//! TTLs: arithmetic, other units, and reading.
use crate::asserts::assert_same;
use dns_item::Ttl;
use std::time::Duration;

/// TTL arithmetic, with the cap of a week.
#[test]
fn calculates_within_32_bits(rt: HostRuntime) {
    let minute = Ttl::from_mins(1);
    let checked = [
        Ttl::from_secs(1).checked_add(Ttl::MAX),
        minute.checked_div(2),
        minute.checked_div(0),
        Ttl::checked_sum(&[Ttl::MAX, Ttl::SECOND]),
        Ttl::checked_sum(&[]),
    ];
    let half = Some(Ttl::from_secs(30));
    let expected = [None, half, None, None, Some(Ttl::ZERO)];
    let row = "TTL arithmetic, checked, and Checked sums";
    assert_same(&rt, row, checked, expected);
    let saturated = [
        Ttl::from_secs(u32::MAX - 1).saturating_mul(2),
        Ttl::from_days(50).cap(),
    ];
    let expected = [Ttl::MAX, Ttl::from_secs(604_800)];
    assert_same(&rt, "TTL arithmetic, within bounds", saturated, expected);
}

#[test]
fn converts_to_and_from_other_units(rt: HostRuntime) {
    let most = Ttl::MAX;
    let units = (most.as_days(), most.as_hours(), most.as_minutes());
    let expected = (49_710, 1_193_046, 71_582_788);
    assert_same(&rt, "Largest TTL in other units", units, expected);
    let past = Ttl::from_duration_lossy(Duration::from_secs(4_294_967_301));
    let seconds = [Ttl::from_days(49_710).as_secs(), past.as_secs()];
    let row = "Most days, Duration past 32 bits";
    assert_same(&rt, row, seconds, [4_294_944_000, 5]);
    let hour = Duration::from(Ttl::HOUR);
    assert_same(&rt, "an hour", hour, Duration::from_secs(3_600));
}
