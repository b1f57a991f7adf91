//! Locations (RFC 1876 sections 2 and 3).
ghost use Rattle.std.specs.Prelude.{OnErr, ◌≡◌, ◌++◌, ◌∷◌, [], Some, decimal, true, nat_lt, if◌then◌else◌};
ghost use Rattle.dns_print.specs.Printing.{PrintsOnOk};
ghost use Rattle.fields_forms.specs.Locations.{altitude_text, angle_text, are_printable, direction_text, is_angle, is_size, metres_text, middle, position_text, seconds_text, size_of, size_text};

use dns_print::{TextWriter, write_number};
use fields_plain::write_two_digits;
use std::fmt;

/// The number of the equator and of the prime meridian.
const MIDDLE: u32 = 0x8000_0000;

/// The altitude number of the reference spheroid, in centimetres.
const SPHEROID: u32 = 10_000_000;

/// Thousandths of a second of arc in 90 degrees.
const RIGHT_ANGLE: u32 = 324_000_000;

/// A location of version 0 that has a presentation format. It prints as latitude, longitude,
/// altitude, size, and horizontal and vertical precision.
///
/// A size or a precision is a digit in the high four bits and a power of ten in the low four: their
/// product is a length in centimetres.
#[derive(Clone, Copy, Debug)]
pub struct Location {
    /// The diameter of a sphere around what is there.
    pub size: u8,
    /// The horizontal precision.
    pub horizontal: u8,
    /// The vertical precision.
    pub vertical: u8,
    /// Thousandths of a second of arc. 2^31 is the equator, and north is more.
    pub latitude: u32,
    /// Thousandths of a second of arc. 2^31 is the prime meridian, and east is more.
    pub longitude: u32,
    /// Centimetres above a point 100,000 m below the reference spheroid of GPS.
    pub altitude: u32,
    ghost printable: { are_printable size horizontal vertical latitude longitude ≡ true },
}

/// Whether the octet is a size: two digits, and zero in one way.
fn is_size(octet: u8) -> bool
    ensures { result ≡ is_size octet }
{
    octet == 0 || octet / 16 != 0 && octet / 16 < 10 && octet % 16 < 10
}

/// Whether the number is at most this far from the middle.
fn is_angle(most: u32, number: u32) -> bool
    ensures { result ≡ is_angle most number }
{
    number.abs_diff(MIDDLE) <= most
}

/// Whether sizes and angles have a presentation format.
fn are_printable(size: u8, horizontal: u8, vertical: u8, latitude: u32, longitude: u32) -> bool
    ensures { result ≡ are_printable size horizontal vertical latitude longitude }
{
    is_size(size)
        && is_size(horizontal)
        && is_size(vertical)
        && is_angle(RIGHT_ANGLE, latitude)
        && is_angle(2 * RIGHT_ANGLE, longitude)
}

impl Location {
    ghost use Rattle.std.specs.Prelude.{option_map};
    ghost use Rattle.fields_forms.specs.LocationItems.{location_if, location_item, location_of};

    /// The location with these fields. `None` if it has no presentation format: a size whose digit
    /// or power is above 9, or zero with a power; a latitude of more than 90 degrees, or a longitude
    /// of more than 180.
    pub fn new(
        size: u8,
        horizontal: u8,
        vertical: u8,
        latitude: u32,
        longitude: u32,
        altitude: u32,
    ) -> Option<Self>
        ensures { option_map location_item result ≡ location_if 0 (record {
          size = size;
          horizontal = horizontal;
          vertical = vertical;
          latitude = latitude;
          longitude = longitude;
          altitude = altitude;
        }) }
    {
        if !are_printable(size, horizontal, vertical, latitude, longitude) {
            return None;
        }
        Some(Location {
            size,
            horizontal,
            vertical,
            latitude,
            longitude,
            altitude,
        })
    }

    /// The location that is these octets. `None` if they have no presentation format.
    pub fn from_octets(octets: &[u8]) -> Option<Self>
        ensures { option_map location_item result ≡ location_of octets.now }
    {
        let [
            version,
            size,
            horizontal,
            vertical,
            a,
            b,
            c,
            d,
            e,
            f,
            g,
            h,
            i,
            j,
            k,
            l,
        ] = octets
        else {
            return None;
        };
        let latitude = u32::from_be_bytes([*a, *b, *c, *d]);
        let longitude = u32::from_be_bytes([*e, *f, *g, *h]);
        if *version != 0 || !are_printable(*size, *horizontal, *vertical, latitude, longitude) {
            return None;
        }
        Some(Location {
            size: *size,
            horizontal: *horizontal,
            vertical: *vertical,
            latitude,
            longitude,
            altitude: u32::from_be_bytes([*i, *j, *k, *l]),
        })
    }
}

/// A size in centimetres.
fn size_of(octet: u8) -> u64
    requires { is_size octet ≡ true }
    ensures { result ≡ size_of octet }
{
    u64::from(octet / 16) * 10u64.pow(u32::from(octet % 16))
}

/// Prints a length in metres with two decimals.
#[tactic(auto, using(dns_print::proofs::theory::Prints::prints, std::proofs::lemmas::Grind::common_steps))]
fn write_metres<W: TextWriter>(f: &mut W, centimetres: u64) -> fmt::Result
    ensures text { PrintsOnOk W.takes f.old result (metres_text centimetres) f.new }
    ensures err { OnErr result W.MayFail }
{
    write_number(f, centimetres / 100)?;
    f.write_text(".")?;
    write_two_digits(f, (centimetres % 100) as u32)?;
    f.write_text("m")
}

/// Prints seconds with three decimals.
#[tactic(auto, using(dns_print::proofs::theory::Prints::prints, std::proofs::lemmas::Grind::common_steps))]
fn write_seconds<W: TextWriter>(f: &mut W, thousandths: u32) -> fmt::Result
    ensures text { PrintsOnOk W.takes f.old result (seconds_text thousandths) f.new }
    ensures err { OnErr result W.MayFail }
{
    write_number(f, u64::from(thousandths / 1000))?;
    f.write_text(".")?;
    f.write_char(char::from(b'0' + (thousandths / 100 % 10) as u8))?;
    write_two_digits(f, thousandths % 100)
}

/// Prints a number and a space.
#[tactic(auto, using(dns_print::proofs::theory::Prints::prints, std::proofs::lemmas::Grind::common_steps))]
fn write_spaced<W: TextWriter>(f: &mut W, number: u32) -> fmt::Result
    ensures text { PrintsOnOk W.takes f.old result (decimal number ++ 32 ∷ []) f.new }
    ensures err { OnErr result W.MayFail }
{
    write_number(f, u64::from(number))?;
    f.write_text(" ")
}

/// Prints an angle: degrees, minutes, and seconds with three decimals.
#[tactic(auto, using(dns_print::proofs::theory::Prints::prints, std::proofs::lemmas::Grind::common_steps))]
fn write_angle<W: TextWriter>(f: &mut W, angle: u32) -> fmt::Result
    ensures text { PrintsOnOk W.takes f.old result (angle_text angle) f.new }
    ensures err { OnErr result W.MayFail }
{
    write_spaced(f, angle / 3_600_000)?;
    write_spaced(f, angle / 60_000 % 60)?;
    write_seconds(f, angle % 60_000)
}

/// The direction of a number from the middle.
fn direction<'a>(number: u32, positive: &'a str, negative: &'a str) -> &'a str
    ensures { result.now ≡ (if nat_lt number middle then negative.entry.now else positive.entry.now) }
{
    if number < MIDDLE { negative } else { positive }
}

/// Prints the angle of a number and its direction.
#[tactic(auto, using(dns_print::proofs::theory::Prints::prints, std::proofs::lemmas::Grind::common_steps))]
fn write_direction<W: TextWriter>(
    f: &mut W,
    number: u32,
    positive: &str,
    negative: &str,
) -> fmt::Result
    ensures text { PrintsOnOk W.takes f.old result
        (direction_text positive.now negative.now number) f.new }
    ensures err { OnErr result W.MayFail }
{
    write_angle(f, number.abs_diff(MIDDLE))?;
    f.write_text(" ")?;
    f.write_text(direction(number, positive, negative))
}

/// Prints the altitude of a number.
#[tactic(auto, using(dns_print::proofs::theory::Prints::prints, std::proofs::lemmas::Grind::common_steps))]
fn write_altitude<W: TextWriter>(f: &mut W, number: u32) -> fmt::Result
    ensures text { PrintsOnOk W.takes f.old result (altitude_text number) f.new }
    ensures err { OnErr result W.MayFail }
{
    if number < SPHEROID {
        f.write_text("-")?;
    }
    write_metres(f, u64::from(number.abs_diff(SPHEROID)))
}

/// Prints a size after a space.
#[tactic(auto, using(dns_print::proofs::theory::Prints::prints, std::proofs::lemmas::Grind::common_steps))]
fn write_size<W: TextWriter>(f: &mut W, octet: u8) -> fmt::Result
    requires { is_size octet ≡ true }
    ensures text { PrintsOnOk W.takes f.old result (size_text octet) f.new }
    ensures err { OnErr result W.MayFail }
{
    f.write_text(" ")?;
    write_metres(f, size_of(octet))
}

/// Prints latitude and longitude, each before a space.
#[tactic(auto, using(dns_print::proofs::theory::Prints::prints, std::proofs::lemmas::Grind::common_steps))]
fn write_position<W: TextWriter>(f: &mut W, latitude: u32, longitude: u32) -> fmt::Result
    ensures text { PrintsOnOk W.takes f.old result (position_text latitude longitude) f.new }
    ensures err { OnErr result W.MayFail }
{
    write_direction(f, latitude, "N", "S")?;
    f.write_text(" ")?;
    write_direction(f, longitude, "E", "W")?;
    f.write_text(" ")
}

impl Location {
    ghost use Rattle.fields_forms.specs.LocationItems.{location_item, location_text};

    /// Prints latitude, longitude, altitude, size, and horizontal and vertical precision (RFC 1876
    /// section 3).
    pub fn write<W: TextWriter>(&self, f: &mut W) -> fmt::Result
        ensures text { PrintsOnOk W.takes f.old result (location_text (location_item self.now))
            f.new }
        ensures err { OnErr result W.MayFail }
    {
        write_position(f, self.latitude, self.longitude)?;
        write_altitude(f, self.altitude)?;
        write_size(f, self.size)?;
        write_size(f, self.horizontal)?;
        write_size(f, self.vertical)
    }
}

impl fmt::Display for Location {
    ghost use Rattle.fields_forms.specs.LocationItems.{location_item, location_text};

    ghost output = { λ location. Some (location_text (location_item location)) };

    ghost styled_output = { λ location _. Some (location_text (location_item location)) };

    fn fmt<W: fmt::Write>(&self, f: &mut fmt::Formatter<W>) -> fmt::Result {
        self.write(f)
    }
}
