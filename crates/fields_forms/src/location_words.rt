//! Locations (RFC 1876 section 3).
ghost use Rattle.std.specs.Prelude.{◌≡◌, ◌↔◌, ℕ, ◌+◌, ◌*◌, ◌^◌, ◌<◌, ◌≤◌, IsTrue, IfSome};
ghost use Rattle.std.specs.Option.{SomeIff};
ghost use Rattle.fields_forms.specs.LocationWords.{AreDecimals, AreSizes, BeginsWithLetter, FindsDirection, IsAltitude, IsAngle, IsDecimal, IsDirected, IsEither, IsLength, IsLocation, IsMinutes, IsRounded, IsSeconds, IsSize, IsSizeAt, SplitsAngle, location_octets};
ghost use Rattle.fields_text.specs.Reading.{Reads};

use crate::location::Location;
use fields_text::read_number;

/// The number of the equator and of the prime meridian.
const MIDDLE: u32 = 0x8000_0000;

/// The altitude number of the reference spheroid, in centimetres.
const SPHEROID: u64 = 10_000_000;

/// Thousandths of a second of arc in 90 degrees.
const RIGHT_ANGLE: u32 = 324_000_000;

/// The greatest length, in centimetres.
const GREATEST_LENGTH: u64 = 9_000_000_000;

/// One to `places` digits after a dot, times ten to the power of `places`.
fn read_decimals(word: &str, places: u32) -> Option<u64>
    requires { places ≤ 3 }
    ensures read { Reads (AreDecimals places word.now) result }
    ensures bound { IfSome result (λ number. number ≤ 999000) }
{
    if word.len() > places as usize {
        return None;
    }
    let digits = read_number(word, 999)?;
    Some(digits * 10u64.pow(places - word.len() as u32))
}

/// A whole number times ten to the power of `places`, and a part of it, if that is at most `most`.
fn sum_of(whole: u64, part: u64, places: u32, most: u64) -> Option<u64>
    requires whole { whole ≤ 9000000000 }
    requires part { part ≤ 999000 }
    requires places { places ≤ 3 }
    ensures { let number = whole * 10 ^ places + part in
        SomeIff result (number ≤ most) number }
{
    let number = whole * 10u64.pow(places) + part;
    if number > most { None } else { Some(number) }
}

/// A number with at most `places` decimals, times ten to the power of `places`.
fn read_decimal(word: &str, places: u32, most: u64) -> Option<u64>
    requires places { places ≤ 3 }
    requires most { most ≤ 9000000000 }
    ensures { Reads (IsDecimal places most word.now) result }
{
    let Some((whole, decimals)) = word.split_once('.') else {
        let whole = read_number(word, most)?;
        return sum_of(whole, 0, places, most);
    };
    let whole = read_number(whole, most)?;
    let part = read_decimals(decimals, places)?;
    sum_of(whole, part, places, most)
}

/// Seconds, if there is a word, in thousandths.
fn read_seconds(words: &[&str]) -> Option<u32>
    ensures read { Reads (IsSeconds words.now) result }
    ensures bound { IfSome result (λ seconds. seconds < 60000) }
{
    if words.is_empty() {
        return Some(0);
    }
    let [word] = words else {
        return None;
    };
    let seconds = read_decimal(word, 3, 59_999)?;
    Some(seconds as u32)
}

/// Minutes and optional seconds, if there is a word, in thousandths of a second.
fn read_minutes(words: &[&str]) -> Option<u32>
    ensures read { Reads (IsMinutes words.now) result }
    ensures bound { IfSome result (λ minutes. minutes < 3600000) }
{
    let [word, after @ ..] = words else {
        return Some(0);
    };
    let minutes = read_number(word, 59)?;
    let seconds = read_seconds(after)?;
    Some(minutes as u32 * 60_000 + seconds)
}

/// Degrees, and optional minutes and seconds: at most `most` thousandths of a second.
fn read_angle(words: &[&str], most: u32) -> Option<u32>
    requires { most ≤ 648000000 }
    ensures read { Reads (IsAngle most words.now) result }
    ensures bound { IfSome result (λ angle. angle ≤ most) }
{
    let [word, after @ ..] = words else {
        return None;
    };
    let degrees = read_number(word, 180)?;
    let part = read_minutes(after)?;
    let angle = degrees as u32 * 3_600_000 + part;
    if angle > most { None } else { Some(angle) }
}

/// Whether the word is one of two directions.
fn is_direction(word: &str, positive: &str, negative: &str) -> bool
    ensures { IsTrue result ↔ IsEither positive.now negative.now word.now }
{
    word.eq_ignore_ascii_case(positive) || word.eq_ignore_ascii_case(negative)
}

/// The index of the first word that is one of two directions.
fn direction_index(words: &[&str], positive: &str, negative: &str) -> Option<usize>
    ensures { FindsDirection positive.now negative.now words.now result }
{
    for index in 0..words.len() {
        if is_direction(words[index], positive, negative) {
            return Some(index);
        }
    }
    None
}

/// The number of an angle in the direction that the word is.
fn directed(word: &str, positive: &str, negative: &str, angle: u32) -> u32
    requires direction { IsEither positive.now negative.now word.now }
    requires angle { angle ≤ 648000000 }
    ensures { IsDirected positive.now negative.now word.now angle result }
{
    if word.eq_ignore_ascii_case(positive) {
        MIDDLE + angle
    } else {
        MIDDLE - angle
    }
}

/// The number of the angle that words begin with, and the words after its direction.
fn split_angle<'a>(
    words: &'a [&'a str],
    most: u32,
    positive: &str,
    negative: &str,
) -> Option<(u32, &'a [&'a str])>
    requires most { most ≤ 648000000 }
    requires letters { BeginsWithLetter positive.now × BeginsWithLetter negative.now }
    ensures { SplitsAngle most positive.now negative.now words.now result }
{
    let index = direction_index(words, positive, negative)?;
    let angle = read_angle(&words[..index], most)?;
    let number = directed(words[index], positive, negative, angle);
    Some((number, &words[index + 1..]))
}

/// A length in metres with at most two decimals and an optional `m`, in centimetres.
fn read_length(word: &str) -> Option<u64>
    ensures read { Reads (IsLength word.now) result }
    ensures bound { IfSome result (λ centimetres. centimetres ≤ 9000000000) }
{
    match word.strip_suffix('m') {
        Some(number) => read_decimal(number, 2, GREATEST_LENGTH),
        None => read_decimal(word, 2, GREATEST_LENGTH),
    }
}

/// The altitude number of a length above the reference spheroid.
fn above(centimetres: u64) -> Option<u32>
    requires { centimetres ≤ 9000000000 }
    ensures { Reads (λ number. (number < 2 ^ 32) × (number ≡ 10000000 + centimetres)) result }
{
    let number = SPHEROID + centimetres;
    if number > 0xffff_ffff {
        None
    } else {
        Some(number as u32)
    }
}

/// The altitude number of a length below the reference spheroid.
fn below(centimetres: u64) -> Option<u32>
    ensures { Reads (λ number. number + centimetres ≡ 10000000) result }
{
    if centimetres > SPHEROID {
        return None;
    }
    Some((SPHEROID - centimetres) as u32)
}

/// The altitude number of a length in metres, which may be negative.
fn read_altitude(word: &str) -> Option<u32>
    ensures { Reads (IsAltitude word.now) result }
{
    let Some(length) = word.strip_prefix('-') else {
        let centimetres = read_length(word)?;
        return above(centimetres);
    };
    let centimetres = read_length(length)?;
    below(centimetres)
}

/// The octet of a size in centimetres: a digit and a power of ten, rounded down.
fn size_octet(centimetres: u64) -> u8
    requires { centimetres ≤ 9000000000 }
    ensures { IsRounded centimetres result }
{
    if centimetres < 10 {
        return centimetres as u8 * 16;
    }
    size_octet(centimetres / 10) + 1
}

/// The octet of a size.
fn read_size(word: &str) -> Option<u8>
    ensures { Reads (IsSize word.now) result }
{
    let centimetres = read_length(word)?;
    Some(size_octet(centimetres))
}

/// The octet of the size at the index, or the default if there is none.
fn read_size_at(words: &[&str], index: usize, default: u8) -> Option<u8>
    ensures { Reads (IsSizeAt words.now index default) result }
{
    match words.get(index) {
        Some(word) => read_size(word),
        None => Some(default),
    }
}

/// The octets of the size, and of the horizontal and vertical precision.
fn read_sizes(words: &[&str]) -> Option<(u8, u8, u8)>
    ensures { Reads (λ (sizes : ℕ × ℕ × ℕ). AreSizes words.now sizes.0 sizes.1 sizes.2) result }
{
    if words.len() > 3 {
        return None;
    }
    let size = read_size_at(words, 0, 0x12)?;
    let horizontal = read_size_at(words, 1, 0x16)?;
    let vertical = read_size_at(words, 2, 0x13)?;
    Some((size, horizontal, vertical))
}

/// The octets of a location of version 0.
fn octets_of(sizes: (u8, u8, u8), latitude: u32, longitude: u32, altitude: u32) -> [u8; 16]
    ensures { result ≡ location_octets (record {
      size = sizes.0;
      horizontal = sizes.1;
      vertical = sizes.2;
      latitude = latitude;
      longitude = longitude;
      altitude = altitude;
    }) }
{
    let (size, horizontal, vertical) = sizes;
    let [a, b, c, d] = latitude.to_be_bytes();
    let [e, f, g, h] = longitude.to_be_bytes();
    let [i, j, k, l] = altitude.to_be_bytes();
    [
        0, size, horizontal, vertical, a, b, c, d, e, f, g, h, i, j, k, l,
    ]
}

impl Location {
    ghost use Rattle.fields_forms.specs.LocationItems.{location_item};

    /// The octets of the location (RFC 1876 section 2).
    pub fn octets(&self) -> [u8; 16]
        ensures { result ≡ location_octets (location_item self.now) }
    {
        let sizes = (self.size, self.horizontal, self.vertical);
        octets_of(sizes, self.latitude, self.longitude, self.altitude)
    }
}

/// A location: latitude, longitude and altitude, then optionally the size, and the horizontal and
/// vertical precision, by default 1 m, 10,000 m and 10 m.
pub fn read_location(words: &[&str]) -> Option<[u8; 16]>
    ensures { Reads (IsLocation words.now) result }
{
    let (latitude, after) = split_angle(words, RIGHT_ANGLE, "N", "S")?;
    let (longitude, after) = split_angle(after, 2 * RIGHT_ANGLE, "E", "W")?;
    let [altitude, sizes @ ..] = after else {
        return None;
    };
    let altitude = read_altitude(altitude)?;
    let sizes = read_sizes(sizes)?;
    Some(octets_of(sizes, latitude, longitude, altitude))
}
