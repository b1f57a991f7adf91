//! RDATA of A, NS, CNAME and SOA, which prints by its fields.
ghost use Rattle.dns_name.specs.ParsedName.{labels};
ghost use Rattle.dns_lines.specs.KnownData.{rtype_of, parts_of, known_layout, known_laid_out, known_text};

use dns_data::{A, Cname, ComposeRecordData, Ns, ParseRecordData, RecordData, Soa};
use dns_iana::Rtype;
use dns_name::{ParsedName, Parser, ToName};
use dns_octets::{AppendError, ParseError};
use dns_wire::Composer;
use std::fmt;

/// RDATA of a type whose fields are known, with names of type `N`.
#[derive(Debug, Drop)]
pub enum KnownData<N> {
    A(A),
    Ns(Ns<N>),
    Cname(Cname<N>),
    Soa(Soa<N>),
}

impl<N: ToName> RecordData for KnownData<N> {
    ghost rtype_of = { rtype_of };

    ghost parts = { parts_of N.name };

    fn rtype(&self) -> Rtype {
        match self {
            KnownData::A(data) => data.rtype(),
            KnownData::Ns(data) => data.rtype(),
            KnownData::Cname(data) => data.rtype(),
            KnownData::Soa(data) => data.rtype(),
        }
    }
}

impl<N: ToName> ComposeRecordData for KnownData<N> {
    fn compose_rdata<T: Composer>(&self, target: &mut T) -> Result<(), AppendError> {
        match self {
            KnownData::A(data) => data.compose_rdata(target),
            KnownData::Ns(data) => data.compose_rdata(target),
            KnownData::Cname(data) => data.compose_rdata(target),
            KnownData::Soa(data) => data.compose_rdata(target),
        }
    }

    fn compose_canonical_rdata<T: Composer>(&self, target: &mut T) -> Result<(), AppendError> {
        match self {
            KnownData::A(data) => data.compose_canonical_rdata(target),
            KnownData::Ns(data) => data.compose_canonical_rdata(target),
            KnownData::Cname(data) => data.compose_canonical_rdata(target),
            KnownData::Soa(data) => data.compose_canonical_rdata(target),
        }
    }
}

impl<'a> ParseRecordData<'a> for KnownData<ParsedName<'a>> {
    ghost layout = { known_layout };

    fn parse_rdata(rtype: Rtype, parser: &mut Parser<'a>) -> Result<Option<Self>, ParseError> {
        match rtype {
            Rtype::A => match A::parse_rdata(rtype, parser)? {
                Some(data) => Ok(Some(KnownData::A(data))),
                None => Ok(None),
            },
            Rtype::NS => match Ns::parse_rdata(rtype, parser)? {
                Some(data) => Ok(Some(KnownData::Ns(data))),
                None => Ok(None),
            },
            Rtype::CNAME => match Cname::parse_rdata(rtype, parser)? {
                Some(data) => Ok(Some(KnownData::Cname(data))),
                None => Ok(None),
            },
            Rtype::SOA => match Soa::parse_rdata(rtype, parser)? {
                Some(data) => Ok(Some(KnownData::Soa(data))),
                None => Ok(None),
            },
            _ => Ok(None),
        }
    }

    ghost laid_out = { known_laid_out labels };
}

/// Prints the data as its own type does.
impl<N: fmt::Display> fmt::Display for KnownData<N> {
    ghost output = { known_text N.output };

    ghost styled_output = { λ value _. known_text N.output value };

    fn fmt<W: fmt::Write>(&self, f: &mut fmt::Formatter<W>) -> fmt::Result {
        match self {
            KnownData::A(data) => data.fmt(f),
            KnownData::Ns(data) => data.fmt(f),
            KnownData::Cname(data) => data.fmt(f),
            KnownData::Soa(data) => data.fmt(f),
        }
    }
}
