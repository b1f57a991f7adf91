//! Times: fourteen digits for year, month, day, hour, minute and second in UTC (RFC 4034 section
//! 3.2).
ghost use Rattle.std.specs.Prelude.{OnErr, ◌≡◌, ◌+◌, ◌<◌, ◌≤◌, ◌/◌, length, Some, ℕ, ◌-◌, ◌*◌, [], ◌∷◌, MatchOption, sum, take};
ghost use Rattle.dns_print.specs.Printing.{PrintsOnOk};
ghost use Rattle.fields_plain.specs.Time.{clock_text, date_text, is_leap, month_of, month_sizes, time_text, two_digits, year_of, year_size};
ghost use Rattle.fields_text.specs.Reading.{Reads, AppendsOctets};
ghost use Rattle.fields_plain.specs.TimeWords.{IsClock, IsClockWord, IsDateWord, IsDay, IsDayWord, IsTimeWord, days_to, IsTime};

use dns_print::TextWriter;
use fields_text::{TextError, push_last, read_number};
use std::fmt;

/// The year in which times begin.
const FIRST_YEAR: u32 = 1970;

/// A time of 32 bits: seconds since the beginning of 1970. It prints as fourteen digits.
#[derive(Clone, Copy, Debug, PartialEq, Eq)]
pub struct Timestamp(pub u32);

/// Whether the year has 366 days.
pub(crate) fn is_leap(year: u32) -> bool
    ensures { result ≡ is_leap year }
{
    year % 4 == 0 && (year % 100 != 0 || year % 400 == 0)
}

/// The days of a year.
fn year_size(year: u32) -> u32
    ensures { result ≡ year_size year }
{
    if is_leap(year) { 366 } else { 365 }
}

/// The days of the months of a year.
fn month_sizes(year: u32) -> [u32; 12]
    ensures { result ≡ month_sizes year }
{
    let february = if is_leap(year) { 29 } else { 28 };
    [31, february, 31, 30, 31, 30, 31, 31, 30, 31, 30, 31]
}

/// A year or a month, and a day in it, counted from 0.
#[derive(Clone, Copy, Debug)]
struct DayOf {
    period: u32,
    day: u32,
}

/// Where the day after `days` days from the beginning of `year` falls, among at most `count` years.
#[tactic(auto, using(crate::proofs::TimeLemmas::year_none, crate::proofs::TimeLemmas::year_here, crate::proofs::TimeLemmas::year_later))]
fn year_of(count: u32, year: u32, days: u32) -> DayOf
    requires { year + count < 10000 }
    ensures period { result.period ≡ (year_of count year days).period }
    ensures day { result.day ≡ (year_of count year days).day }
    ensures within { result.period ≤ year + count }
    ensures before { result.day ≤ days }
{
    let size = year_size(year);
    if count == 0 || days < size {
        return DayOf {
            period: year,
            day: days,
        };
    }
    year_of(count - 1, year + 1, days - size)
}

/// Where the day after `days` days from the beginning of `month` falls, among months of these sizes.
#[tactic(auto, unfolding(crate::specs::Time::month_of))]
fn month_of(sizes: &[u32], month: u32, days: u32) -> DayOf
    requires { month + length sizes.now < 10000 }
    ensures period { result.period ≡ (month_of sizes.now month days).period }
    ensures day { result.day ≡ (month_of sizes.now month days).day }
    ensures before { result.day ≤ days }
{
    let [size, after @ ..] = sizes else {
        return DayOf {
            period: month,
            day: days,
        };
    };
    if days < *size {
        return DayOf {
            period: month,
            day: days,
        };
    }
    month_of(after, month + 1, days - *size)
}

/// Prints the last two decimal digits of a number.
#[tactic(auto, using(dns_print::proofs::theory::Prints::prints, std::proofs::lemmas::Grind::common_steps))]
pub fn write_two_digits<W: TextWriter>(f: &mut W, number: u32) -> fmt::Result
    ensures text { PrintsOnOk W.takes f.old result (two_digits number) f.new }
    ensures err { OnErr result W.MayFail }
{
    f.write_char(char::from(b'0' + (number / 10 % 10) as u8))?;
    f.write_char(char::from(b'0' + (number % 10) as u8))
}

/// Prints a date in eight digits.
#[tactic(auto, using(dns_print::proofs::theory::Prints::prints, std::proofs::lemmas::Grind::common_steps))]
fn write_date<W: TextWriter>(f: &mut W, year: u32, month: u32, day: u32) -> fmt::Result
    ensures text { PrintsOnOk W.takes f.old result (date_text year month day) f.new }
    ensures err { OnErr result W.MayFail }
{
    write_two_digits(f, year / 100)?;
    write_two_digits(f, year % 100)?;
    write_two_digits(f, month)?;
    write_two_digits(f, day)
}

/// Prints the time of the day in six digits.
#[tactic(auto, using(dns_print::proofs::theory::Prints::prints, std::proofs::lemmas::Grind::common_steps))]
fn write_clock<W: TextWriter>(f: &mut W, seconds: u32) -> fmt::Result
    ensures text { PrintsOnOk W.takes f.old result (clock_text seconds) f.new }
    ensures err { OnErr result W.MayFail }
{
    write_two_digits(f, seconds / 3600 % 24)?;
    write_two_digits(f, seconds / 60 % 60)?;
    write_two_digits(f, seconds % 60)
}

/// Prints a time in fourteen digits (RFC 4034 section 3.2).
#[tactic(auto, using(dns_print::proofs::theory::Prints::prints, std::proofs::lemmas::Grind::common_steps))]
pub fn write_timestamp<W: TextWriter>(f: &mut W, time: Timestamp) -> fmt::Result
    ensures text { PrintsOnOk W.takes f.old result (time_text time.0) f.new }
    ensures err { OnErr result W.MayFail }
{
    let in_year = year_of(137, FIRST_YEAR, time.0 / 86400);
    let in_month = month_of(&month_sizes(in_year.period), 1, in_year.day);
    write_date(f, in_year.period, in_month.period, in_month.day + 1)?;
    write_clock(f, time.0)
}

impl fmt::Display for Timestamp {
    ghost output = { λ time. Some (time_text time.0) };

    ghost styled_output = { λ time _. Some (time_text time.0) };

    fn fmt<W: fmt::Write>(&self, f: &mut fmt::Formatter<W>) -> fmt::Result {
        write_timestamp(f, *self)
    }
}

/// The year in which 32 bits of seconds end.
const LAST_YEAR: u32 = 2106;

/// The number that two decimal digits represent.
fn read_two_digits(tens: u8, ones: u8) -> Option<u32>
    ensures { MatchOption result ((n : ℕ) → ¬ (tens ∷ ones ∷ [] ≡ two_digits n))
        (λ n. (n < 100) × (tens ∷ ones ∷ [] ≡ two_digits n)) }
{
    if !tens.is_ascii_digit() || !ones.is_ascii_digit() {
        return None;
    }
    Some(u32::from(tens - b'0') * 10 + u32::from(ones - b'0'))
}

/// The seconds since the beginning of the day, if there is such a time of the day.
fn seconds_of(hour: u32, minute: u32, second: u32) -> Option<u32>
    ensures { Reads (IsClock hour minute second) result }
{
    if hour > 23 || minute > 59 || second > 59 {
        return None;
    }
    Some(hour * 3600 + minute * 60 + second)
}

/// The seconds since the beginning of the day that six digits represent.
fn read_clock(word: &[u8]) -> Option<u32>
    ensures { Reads (IsClockWord word.now) result }
{
    let [a, b, c, d, e, f] = word else {
        return None;
    };
    let hour = read_two_digits(*a, *b)?;
    let minute = read_two_digits(*c, *d)?;
    let second = read_two_digits(*e, *f)?;
    seconds_of(hour, minute, second)
}

/// The days before a year, since the beginning of 1970.
fn days_before_year(year: u32) -> u32
    requires first { 1970 ≤ year }
    requires last { year ≤ 2106 }
    ensures days { result ≡ days_to (year - 1970) }
    ensures bound { result ≤ 366 * (year - 1970) }
{
    let mut days = 0;
    for earlier in FIRST_YEAR..year {
        days += year_size(earlier);
    }
    days
}

/// The days before a month, since the beginning of the year.
fn days_before_month(sizes: &[u32], months: usize) -> u32
    requires sizes { sum sizes.now ≤ 366 }
    requires months { months ≤ length sizes.now }
    ensures days { result ≡ sum (take months sizes.now) }
    ensures bound { result ≤ 366 }
{
    let earlier = &sizes[..months];
    let mut days = 0;
    for size in earlier {
        days += *size;
    }
    days
}

/// The days since the beginning of 1970, if there is such a date.
fn days_of(year: u32, month: u32, day: u32) -> Option<u32>
    ensures { Reads (IsDay year month day) result }
{
    if year < FIRST_YEAR || year > LAST_YEAR || month < 1 || month > 12 {
        return None;
    }
    let sizes = month_sizes(year);
    let months = month as usize - 1;
    if day < 1 || day > sizes[months] {
        return None;
    }
    let days = days_before_year(year) + days_before_month(&sizes, months) + (day - 1);
    if days > 49710 { None } else { Some(days) }
}

/// The days since the beginning of 1970 that eight digits represent.
fn read_day(word: &[u8]) -> Option<u32>
    ensures { Reads (IsDayWord word.now) result }
{
    let [a, b, c, d, e, f, g, h] = word else {
        return None;
    };
    let century = read_two_digits(*a, *b)?;
    let year = read_two_digits(*c, *d)?;
    let month = read_two_digits(*e, *f)?;
    let day = read_two_digits(*g, *h)?;
    days_of(century * 100 + year, month, day)
}

/// The seconds since the beginning of 1970 that 14 digits represent.
fn read_date(word: &[u8]) -> Option<u32>
    ensures { Reads (IsDateWord word.now) result }
{
    if word.len() != 14 {
        return None;
    }
    let days = read_day(&word[..8])?;
    let seconds = read_clock(&word[8..])?;
    let total = u64::from(days) * 86400 + u64::from(seconds);
    if total > 0xffff_ffff {
        return None;
    }
    Some(total as u32)
}

/// A time: 14 digits for year, month, day, hour, minute and second, or a decimal number of seconds.
pub fn read_time(word: &str) -> Option<u32>
    ensures { Reads (IsTimeWord word.now) result }
{
    if word.len() == 14 {
        return read_date(word.as_bytes());
    }
    let number = read_number(word, 0xffff_ffff)?;
    Some(number as u32)
}

/// Appends a time.
pub fn push_time(octets: &mut Vec<u8>, word: &str) -> Result<(), TextError>
    ensures { AppendsOctets (IsTime word.now) octets.old.items octets.new.items result }
{
    match read_time(word) {
        Some(seconds) => push_last(octets, 4, u64::from(seconds)),
        None => Err(TextError::BadWord),
    }
}
