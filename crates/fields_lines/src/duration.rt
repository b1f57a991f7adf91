//! Times in units, as `1h30m`.
ghost use Rattle.std.specs.Prelude.{◌≡◌, ◌+◌, ◌*◌, ◌≤◌};
ghost use Rattle.fields_lines.specs.Durations.{after_octet, duration, in_32_bits, seconds_at_end, unit_seconds, with_digit, with_unit};

/// The seconds of a unit, in either case: `w`, `d`, `h`, `m` or `s`.
fn unit_seconds(unit: u8) -> Option<u32>
    ensures { result ≡ unit_seconds unit }
{
    match unit {
        b'w' | b'W' => Some(604_800),
        b'd' | b'D' => Some(86_400),
        b'h' | b'H' => Some(3_600),
        b'm' | b'M' => Some(60),
        b's' | b'S' => Some(1),
        _ => None,
    }
}

/// The product, if 32 bits hold it.
fn product(number: u32, other: u32) -> Option<u32>
    ensures { result ≡ in_32_bits (number * other) }
{
    number.checked_mul(other)
}

/// The sum, if 32 bits hold it.
fn sum(number: u32, other: u32) -> Option<u32>
    ensures { result ≡ in_32_bits (number + other) }
{
    number.checked_add(other)
}

/// A number with a digit after it, if 32 bits hold it.
fn with_digit(number: u32, digit: u8) -> Option<u32>
    requires { 48 ≤ digit }
    ensures { result ≡ with_digit number digit }
{
    let Some(tens) = product(number, 10) else {
        return None;
    };
    sum(tens, u32::from(digit - b'0'))
}

/// The seconds after a unit that follows a number, if 32 bits hold them.
fn with_unit(total: u32, number: Option<u32>, unit: u8) -> Option<u32>
    ensures { result ≡ with_unit total number unit }
{
    let Some(number) = number else {
        return None;
    };
    let Some(seconds) = unit_seconds(unit) else {
        return None;
    };
    let Some(more) = product(number, seconds) else {
        return None;
    };
    sum(total, more)
}

/// The seconds of the units and the number after them, after one more octet.
fn after_octet(
    total: Option<u32>,
    number: Option<u32>,
    octet: u8,
) -> Option<(Option<u32>, Option<u32>)>
    ensures { result ≡ after_octet total number octet }
{
    if octet.is_ascii_digit() {
        return match with_digit(number.unwrap_or(0), octet) {
            Some(number) => Some((total, Some(number))),
            None => None,
        };
    }
    match with_unit(total.unwrap_or(0), number, octet) {
        Some(seconds) => Some((Some(seconds), None)),
        None => None,
    }
}

/// The seconds at the end: those of units, or those of a number without a unit.
fn seconds_at_end(total: Option<u32>, number: Option<u32>) -> Option<u32>
    ensures { result ≡ seconds_at_end total number }
{
    match (total, number) {
        (None, number) => number,
        (Some(seconds), None) => Some(seconds),
        (Some(_), Some(_)) => None,
    }
}

/// The seconds that a text represents.
fn read_octets(octets: &[u8]) -> Option<u32>
    ensures { result ≡ duration octets.now }
{
    let mut total = None;
    let mut number = None;
    for octet in octets {
        let Some((seconds, digits)) = after_octet(total, number, *octet) else {
            return None;
        };
        total = seconds;
        number = digits;
    }
    seconds_at_end(total, number)
}

/// The seconds that a word represents: a decimal number; or numbers with a unit after each, as
/// `1h30m`, whose sum it is. The units are weeks, days, hours, minutes and seconds, in either case.
/// `None` if 32 bits don't hold the seconds.
pub fn read_duration(word: &str) -> Option<u32>
    ensures { result ≡ duration word.now }
{
    read_octets(word.as_bytes())
}
