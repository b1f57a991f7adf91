//! The start of a zone of authority (RFC 1035 section 3.3.13).
ghost use Rattle.std.specs.Prelude.{◌≡◌, ◌+◌, ◌≤◌, length, slice_range, refl};
ghost use Rattle.std.specs.Int.{to_be_bytes, w32};
ghost use Rattle.dns_data.specs.Layout.{DomainName, Fixed, End};
ghost use Rattle.dns_data.specs.RecordData.{only};
ghost use Rattle.dns_data.specs.Soa.{mname_of, rname_of, serial_of, refresh_of, retry_of, expire_of, minimum_of, numbers_of, number_octets, length-number_octets, soa_parts};

use crate::octets::take_octets;
use crate::record_data::{ComposeRecordData, ParseRecordData, RecordData};
use dns_iana::Rtype;
use dns_name::{ParsedName, Parser, ToName};
use dns_octets::{AppendError, ParseError};
use dns_wire::{Composer, ToNameExt};

/// The RDATA of an SOA record: the start of a zone of authority (RFC 1035 section 3.3.13).
#[derive(Clone, Copy, Debug, PartialEq, Eq, PartialOrd, Ord, Hash, Drop)]
pub struct Soa<N> {
    mname: N,
    rname: N,
    serial: u32,
    refresh: u32,
    retry: u32,
    expire: u32,
    minimum: u32,
}

impl<N> Soa<N> {
    /// The RDATA with these fields. All times are in seconds.
    pub fn new(
        mname: N,
        rname: N,
        serial: u32,
        refresh: u32,
        retry: u32,
        expire: u32,
        minimum: u32,
    ) -> Self
        ensures mname { mname_of result ≡ mname }
        ensures rname { rname_of result ≡ rname }
        ensures serial { serial_of result ≡ serial }
        ensures refresh { refresh_of result ≡ refresh }
        ensures retry { retry_of result ≡ retry }
        ensures expire { expire_of result ≡ expire }
        ensures minimum { minimum_of result ≡ minimum }
    {
        Soa {
            mname,
            rname,
            serial,
            refresh,
            retry,
            expire,
            minimum,
        }
    }

    /// MNAME: the primary name server of the zone.
    pub fn mname(&self) -> &N
        ensures { result.now ≡ mname_of self.now }
    {
        &self.mname
    }

    /// RNAME: the mailbox of the person responsible for the zone.
    pub fn rname(&self) -> &N
        ensures { result.now ≡ rname_of self.now }
    {
        &self.rname
    }

    /// SERIAL: the version number of the zone.
    pub fn serial(&self) -> u32
        ensures { result ≡ serial_of self.now }
    {
        self.serial
    }

    /// REFRESH: the seconds until the zone should be refreshed.
    pub fn refresh(&self) -> u32
        ensures { result ≡ refresh_of self.now }
    {
        self.refresh
    }

    /// RETRY: the seconds until a failed refresh should be retried.
    pub fn retry(&self) -> u32
        ensures { result ≡ retry_of self.now }
    {
        self.retry
    }

    /// EXPIRE: the seconds after which the zone is no longer authoritative.
    pub fn expire(&self) -> u32
        ensures { result ≡ expire_of self.now }
    {
        self.expire
    }

    /// MINIMUM: the seconds for which a negative answer may be cached (RFC 2308 section 4).
    pub fn minimum(&self) -> u32
        ensures { result ≡ minimum_of self.now }
    {
        self.minimum
    }

    /// Takes out the two names and the five numbers.
    pub(crate) fn into_parts(self) -> (N, N, [u32; 5])
        ensures mname { result.0 ≡ mname_of self }
        ensures rname { result.1 ≡ rname_of self }
        ensures numbers { result.2 ≡ numbers_of self }
    {
        let numbers = [
            self.serial,
            self.refresh,
            self.retry,
            self.expire,
            self.minimum,
        ];
        (self.mname, self.rname, numbers)
    }

    /// The RDATA of two names and the five numbers.
    pub(crate) fn of_parts(mname: N, rname: N, numbers: [u32; 5]) -> Self
        ensures mname { mname_of result ≡ mname }
        ensures rname { rname_of result ≡ rname }
        ensures numbers { numbers_of result ≡ numbers }
    {
        let [serial, refresh, retry, expire, minimum] = numbers;
        Soa::new(mname, rname, serial, refresh, retry, expire, minimum)
    }

    /// The octets of the five numbers.
    #[tactic(auto, unfolding(crate::specs::Soa::number_octets))]
    fn number_octets(&self) -> [u8; 20]
        ensures { result ≡ number_octets self.now }
    {
        let mut octets = [0; 20];
        octets[..4].copy_from_slice(&self.serial.to_be_bytes());
        octets[4..8].copy_from_slice(&self.refresh.to_be_bytes());
        octets[8..12].copy_from_slice(&self.retry.to_be_bytes());
        octets[12..16].copy_from_slice(&self.expire.to_be_bytes());
        octets[16..].copy_from_slice(&self.minimum.to_be_bytes());
        octets
    }

    /// The RDATA of two names and the octets of the five numbers.
    fn of_octets(mname: N, rname: N, octets: &[u8]) -> Self
        requires { length octets.now ≡ 20 }
        ensures mname { mname_of result ≡ mname }
        ensures rname { rname_of result ≡ rname }
        ensures numbers { number_octets result ≡ octets.now }
    {
        Soa::new(
            mname,
            rname,
            number_at(octets, 0),
            number_at(octets, 4),
            number_at(octets, 8),
            number_at(octets, 12),
            number_at(octets, 16),
        )
    }
}

/// The big-endian number in the four octets at `offset`.
fn number_at(octets: &[u8], offset: usize) -> u32
    requires { offset + 4 ≤ length octets.now }
    ensures { to_be_bytes w32 result ≡ slice_range octets.now offset (offset + 4) }
{
    u32::from_be_bytes([
        octets[offset],
        octets[offset + 1],
        octets[offset + 2],
        octets[offset + 3],
    ])
}

impl<N: ToName> RecordData for Soa<N> {
    ghost rtype_of = { λ _. 6 };

    ghost parts = { soa_parts N.name };

    fn rtype(&self) -> Rtype {
        Rtype::SOA
    }
}

impl<N: ToName> ComposeRecordData for Soa<N> {
    fn compose_rdata<T: Composer>(&self, target: &mut T) -> Result<(), AppendError> {
        target.append_compressed_name(&self.mname)?;
        target.append_compressed_name(&self.rname)?;
        target.append_slice(&self.number_octets())
    }

    fn compose_canonical_rdata<T: Composer>(&self, target: &mut T) -> Result<(), AppendError> {
        self.mname.compose_canonical(target)?;
        self.rname.compose_canonical(target)?;
        target.append_slice(&self.number_octets())
    }
}

impl<'a> ParseRecordData<'a> for Soa<ParsedName<'a>> {
    ghost layout = { only 6 (DomainName (DomainName (Fixed 20 End))) };

    fn parse_rdata(rtype: Rtype, parser: &mut Parser<'a>) -> Result<Option<Self>, ParseError> {
        if rtype != Rtype::SOA {
            return Ok(None);
        }
        let mut ahead = *parser;
        let mname = ParsedName::parse(&mut ahead)?;
        let rname = ParsedName::parse(&mut ahead)?;
        let numbers = take_octets(&mut ahead, 20)?;
        *parser = ahead;
        Ok(Some(Soa::of_octets(mname, rname, numbers)))
    }

    ghost laid_out = { λ soa. (length-number_octets soa, refl) };
}
