ghost use Rattle.std.specs.Prelude.{◌≡◌, ◌↔◌, ℕ, ◌+◌, ◌-◌, ◌*◌, ◌/◌, ◌%◌, ◌^◌, ◌<◌, ◌≤◌, min, sum, IsTrue, SomeIff};
ghost use Rattle.std.specs.Int.{to_be_bytes, w32};
ghost use Rattle.std.specs.Duration.{as_nanos};
ghost use Rattle.dns_name.specs.Parsers.{seen, offset, number_at, Takes};
ghost use Rattle.dns_wire.specs.Encoders.{encode_octets};
ghost use Rattle.dns_wire.specs.Targets.{Appends};
ghost use Rattle.dns_code.specs.Ttl.{FitsTtl, most_seconds, cap_seconds, whole_seconds, nanos_of_seconds};

use dns_name::Parser;
use dns_octets::{AppendError, ParseError};
use dns_wire::Composer;
use std::marker::Model;
use std::ops::{Add, AddAssign, Div, DivAssign, Mul, MulAssign, Sub, SubAssign};
use std::time::Duration;

/// How long a record may be cached: a whole number of seconds below 2^32 (RFC 8767 section 4).
///
/// In a contract it is the number of seconds.
#[derive(Clone, Copy, Debug, PartialEq, Eq, PartialOrd, Ord, Hash)]
pub struct Ttl(u32);

impl Model for Ttl {
    ghost Value = { ℕ };

    ghost view = { λ ttl. ttl.0 };

    ghost inverse = { λ seconds. record { 0 = seconds } };
}

impl Ttl {
    /// One second.
    pub const SECOND: Ttl = Ttl(1);

    /// A minute, 60 seconds.
    pub const MINUTE: Ttl = Ttl(60);

    /// An hour, 3,600 seconds.
    pub const HOUR: Ttl = Ttl(3_600);

    /// A day, 86,400 seconds.
    pub const DAY: Ttl = Ttl(86_400);

    /// Zero seconds.
    pub const ZERO: Ttl = Ttl(0);

    /// The greatest TTL, 4,294,967,295 seconds.
    pub const MAX: Ttl = Ttl(u32::MAX);

    /// The longest that a record should be cached: seven days (RFC 8767 section 4).
    pub const CAP: Ttl = Ttl(604_800);

    /// The most whole minutes in a TTL.
    pub const MAX_MINUTES: u32 = 71_582_788;

    /// The most whole hours in a TTL.
    pub const MAX_HOURS: u32 = 1_193_046;

    /// The most whole days in a TTL.
    pub const MAX_DAYS: u16 = 49_710;

    /// The number of octets of a TTL in a message.
    pub const COMPOSE_LEN: u16 = 4;

    /// The number of seconds.
    pub fn as_secs(&self) -> u32
        ensures { result ≡ self.now }
    {
        self.0
    }

    /// The number of minutes, rounded down.
    pub fn as_minutes(&self) -> u32
        ensures value { result ≡ self.now / 60 }
        ensures bound { result ≤ Self.MAX_MINUTES }
    {
        self.0 / Self::MINUTE.0
    }

    /// The number of hours, rounded down.
    pub fn as_hours(&self) -> u32
        ensures value { result ≡ self.now / 3_600 }
        ensures bound { result ≤ Self.MAX_HOURS }
    {
        self.0 / Self::HOUR.0
    }

    /// The number of days, rounded down.
    pub fn as_days(&self) -> u16
        ensures value { result ≡ self.now / 86_400 }
        ensures bound { result ≤ Self.MAX_DAYS }
    {
        (self.0 / Self::DAY.0) as u16
    }

    /// The TTL as a duration.
    pub fn into_duration(&self) -> Duration
        ensures { as_nanos result ≡ nanos_of_seconds self.now }
    {
        Duration::from_secs(u64::from(self.0))
    }

    /// A TTL of this number of seconds.
    pub fn from_secs(secs: u32) -> Self
        ensures { result ≡ secs }
    {
        Ttl(secs)
    }

    /// A TTL of this number of minutes, at most `MAX_MINUTES`.
    pub fn from_mins(minutes: u32) -> Self
        requires { minutes ≤ Self.MAX_MINUTES }
        ensures { result ≡ minutes * 60 }
    {
        Ttl(minutes * Self::MINUTE.0)
    }

    /// A TTL of this number of hours, at most `MAX_HOURS`.
    pub fn from_hours(hours: u32) -> Self
        requires { hours ≤ Self.MAX_HOURS }
        ensures { result ≡ hours * 3_600 }
    {
        Ttl(hours * Self::HOUR.0)
    }

    /// A TTL of this number of days, at most `MAX_DAYS`.
    pub fn from_days(days: u16) -> Self
        requires { days ≤ Self.MAX_DAYS }
        ensures { result ≡ days * 86_400 }
    {
        Ttl(u32::from(days) * Self::DAY.0)
    }

    /// The low 32 bits of the duration's whole seconds. Higher bits and fractions are dropped.
    pub fn from_duration_lossy(duration: Duration) -> Self
        ensures { result ≡ whole_seconds duration % 2 ^ 32 }
    {
        Ttl((duration.as_secs() % (1 << 32)) as u32)
    }

    /// Whether the TTL is 0.
    pub fn is_zero(&self) -> bool
        ensures { IsTrue result ↔ (self.now ≡ 0) }
    {
        *self == Self::ZERO
    }

    /// The sum, or `None` if it exceeds `MAX`.
    pub fn checked_add(self, rhs: Ttl) -> Option<Ttl>
        ensures { SomeIff result (FitsTtl (self + rhs)) (self + rhs) }
    {
        self.0.checked_add(rhs.0).map(Ttl::from_secs)
    }

    /// The sum, or `MAX` if it exceeds `MAX`.
    pub fn saturating_add(self, rhs: Ttl) -> Ttl
        ensures { result ≡ min (self + rhs) most_seconds }
    {
        self.checked_add(rhs).unwrap_or(Self::MAX)
    }

    /// The difference, or `None` if `rhs` is greater.
    pub fn checked_sub(self, rhs: Ttl) -> Option<Ttl>
        ensures { SomeIff result (rhs ≤ self) (self - rhs) }
    {
        self.0.checked_sub(rhs.0).map(Ttl::from_secs)
    }

    /// The difference, or `ZERO` if `rhs` is greater.
    pub fn saturating_sub(self, rhs: Ttl) -> Ttl
        ensures { result ≡ self - rhs }
    {
        self.checked_sub(rhs).unwrap_or(Self::ZERO)
    }

    /// The product, or `None` if it exceeds `MAX`.
    pub fn checked_mul(self, rhs: u32) -> Option<Ttl>
        ensures { SomeIff result (FitsTtl (self * rhs)) (self * rhs) }
    {
        self.0.checked_mul(rhs).map(Ttl::from_secs)
    }

    /// The product, or `MAX` if it exceeds `MAX`.
    pub fn saturating_mul(self, rhs: u32) -> Ttl
        ensures { result ≡ min (self * rhs) most_seconds }
    {
        self.checked_mul(rhs).unwrap_or(Self::MAX)
    }

    /// The quotient, rounded down, or `None` if the divisor is 0.
    pub fn checked_div(self, rhs: u32) -> Option<Ttl>
        ensures { SomeIff result (0 < rhs) (self / rhs) }
    {
        self.0.checked_div(rhs).map(Ttl::from_secs)
    }

    /// The smaller of this TTL and `CAP`.
    pub fn cap(self) -> Ttl
        ensures { result ≡ min self cap_seconds }
    {
        self.min(Self::CAP)
    }

    /// The sum of all. Requires that it is at most `MAX`.
    pub fn sum(ttls: &[Ttl]) -> Ttl
        requires { FitsTtl (sum ttls.now) }
        ensures { result ≡ sum ttls.now }
    {
        Ttl(ttls.iter().map(Ttl::as_secs).sum())
    }

    /// The sum of all, or `None` if it exceeds `MAX`. The sum of no TTLs is `ZERO`.
    pub fn checked_sum(ttls: &[Ttl]) -> Option<Ttl>
        ensures { SomeIff result (FitsTtl (sum ttls.now)) (sum ttls.now) }
    {
        let mut total = Self::ZERO;
        for ttl in ttls {
            total = total.checked_add(*ttl)?;
        }
        Some(total)
    }

    /// Appends the number of seconds as four octets, big-endian (RFC 1035 section 4.1.3). A failed
    /// append changes nothing.
    pub fn compose<T: Composer>(&self, target: &mut T) -> Result<(), AppendError>
        ensures { Appends T.capacity T.grows (encode_octets (to_be_bytes w32 self.now))
            (T.written target.old) (T.written target.new) result }
    {
        target.append_slice(&self.0.to_be_bytes())
    }

    /// Reads four octets as the number of seconds, big-endian, and advances past them (RFC 1035
    /// section 4.1.3). Returns `ShortInput` if fewer remain.
    pub fn parse(parser: &mut Parser<'_>) -> Result<Self, ParseError>
        ensures { Takes parser.old parser.new Self.COMPOSE_LEN result
            (λ ttl. ttl ≡ number_at w32 (seen parser.old) (offset parser.old)) }
    {
        parser.parse_u32_be().map(Ttl::from_secs)
    }
}

/// The default is `ZERO`.
impl Default for Ttl {
    ghost is_default = { λ ttl. ttl ≡ 0 };

    fn default() -> Self {
        Self::ZERO
    }
}

/// Requires that the sum is at most `MAX`.
impl Add for Ttl {
    type Output = Ttl;

    ghost can_add = { λ ttl rhs. FitsTtl (ttl + rhs) };

    ghost add_gives = { λ ttl rhs sum. sum ≡ ttl + rhs };

    fn add(self, rhs: Self) -> Ttl {
        Ttl(self.0 + rhs.0)
    }
}

/// Requires that the sum is at most `MAX`.
impl AddAssign for Ttl {
    ghost can_add_assign = { λ ttl rhs. FitsTtl (ttl + rhs) };

    ghost add_assign_gives = { λ ttl rhs sum. sum ≡ ttl + rhs };

    fn add_assign(&mut self, rhs: Self) {
        *self = *self + rhs;
    }
}

/// Requires that the right side isn't greater.
impl Sub for Ttl {
    type Output = Ttl;

    ghost can_sub = { λ ttl rhs. rhs ≤ ttl };

    ghost sub_gives = { λ ttl rhs difference. difference ≡ ttl - rhs };

    fn sub(self, rhs: Self) -> Ttl {
        Ttl(self.0 - rhs.0)
    }
}

/// Requires that the right side isn't greater.
impl SubAssign for Ttl {
    ghost can_sub_assign = { λ ttl rhs. rhs ≤ ttl };

    ghost sub_assign_gives = { λ ttl rhs difference. difference ≡ ttl - rhs };

    fn sub_assign(&mut self, rhs: Self) {
        *self = *self - rhs;
    }
}

/// Requires that the product is at most `MAX`.
impl Mul<u32> for Ttl {
    type Output = Ttl;

    ghost can_mul = { λ ttl rhs. FitsTtl (ttl * rhs) };

    ghost mul_gives = { λ ttl rhs product. product ≡ ttl * rhs };

    fn mul(self, rhs: u32) -> Ttl {
        Ttl(self.0 * rhs)
    }
}

/// Requires that the product is at most `MAX`.
impl MulAssign<u32> for Ttl {
    ghost can_mul_assign = { λ ttl rhs. FitsTtl (ttl * rhs) };

    ghost mul_assign_gives = { λ ttl rhs product. product ≡ ttl * rhs };

    fn mul_assign(&mut self, rhs: u32) {
        *self = *self * rhs;
    }
}

/// Rounds down. Requires that the divisor isn't 0.
impl Div<u32> for Ttl {
    type Output = Ttl;

    ghost can_div = { λ _ rhs. 0 < rhs };

    ghost div_gives = { λ ttl rhs quotient. quotient ≡ ttl / rhs };

    fn div(self, rhs: u32) -> Ttl {
        Ttl(self.0 / rhs)
    }
}

/// Rounds down. Requires that the divisor isn't 0.
impl DivAssign<u32> for Ttl {
    ghost can_div_assign = { λ _ rhs. 0 < rhs };

    ghost div_assign_gives = { λ ttl rhs quotient. quotient ≡ ttl / rhs };

    fn div_assign(&mut self, rhs: u32) {
        *self = *self / rhs;
    }
}

/// The TTL as a duration.
impl From<Ttl> for Duration {
    ghost from_gives = { λ ttl duration. as_nanos duration ≡ nanos_of_seconds ttl };

    fn from(ttl: Ttl) -> Self {
        ttl.into_duration()
    }
}
