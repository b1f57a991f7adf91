//! RDATA that is one name (RFC 1035 sections 3.3.1 and 3.3.11).
ghost use Rattle.std.specs.Prelude.{◌≡◌, [], ◌∷◌, refl};
ghost use Rattle.dns_name.specs.Names.{lowered, uncompressed};
ghost use Rattle.dns_wire.specs.Parts.{CompressibleName, Octets, encode_parts};
ghost use Rattle.dns_wire.specs.Targets.{Composes};
ghost use Rattle.dns_data.specs.Layout.{DomainName, End};
ghost use Rattle.dns_data.specs.NameData.{nsdname_of, cname_of};
ghost use Rattle.dns_data.specs.RecordData.{IsData, only};

use crate::record_data::{ComposeRecordData, ParseRecordData, RecordData};
use dns_iana::Rtype;
use dns_name::{ParsedName, Parser, ToName};
use dns_octets::{AppendError, ParseError};
use dns_wire::{Composer, ToNameExt};

fn compose_name<N: ToName, T: Composer>(name: &N, target: &mut T) -> Result<(), AppendError>
    ensures composes { Composes T.capacity T.grows
        (encode_parts T.rule (CompressibleName (N.name name.now) ∷ [])) (T.written target.old)
        (T.written target.new) result }
    ensures is_data { IsData (CompressibleName (N.name name.now) ∷ []) }
{
    target.append_compressed_name(name)
}

fn compose_canonical_name<N: ToName, T: Composer>(
    name: &N,
    target: &mut T,
) -> Result<(), AppendError>
    ensures { Composes T.capacity T.grows (encode_parts T.rule
        (Octets (uncompressed (lowered (N.name name.now))) ∷ [])) (T.written target.old)
        (T.written target.new) result }
{
    name.compose_canonical(target)
}

/// The RDATA of an NS record: the name of a name server (RFC 1035 section 3.3.11).
#[derive(Clone, Copy, Debug, PartialEq, Eq, PartialOrd, Ord, Hash, Drop)]
pub struct Ns<N> {
    nsdname: N,
}

impl<N> Ns<N> {
    /// The RDATA with this name server.
    pub fn new(nsdname: N) -> Self
        ensures { nsdname_of result ≡ nsdname }
    {
        Ns { nsdname }
    }

    /// The name of the name server.
    pub fn nsdname(&self) -> &N
        ensures { result.now ≡ nsdname_of self.now }
    {
        &self.nsdname
    }

    /// Takes out the name of the name server.
    pub(crate) fn into_nsdname(self) -> N
        ensures { result ≡ nsdname_of self }
    {
        let Ns { nsdname } = self;
        nsdname
    }
}

impl<N: ToName> RecordData for Ns<N> {
    ghost rtype_of = { λ _. 2 };

    ghost parts = { λ ns. CompressibleName (N.name (nsdname_of ns)) ∷ [] };

    fn rtype(&self) -> Rtype {
        Rtype::NS
    }
}

impl<N: ToName> ComposeRecordData for Ns<N> {
    fn compose_rdata<T: Composer>(&self, target: &mut T) -> Result<(), AppendError> {
        compose_name(&self.nsdname, target)
    }

    fn compose_canonical_rdata<T: Composer>(&self, target: &mut T) -> Result<(), AppendError> {
        compose_canonical_name(&self.nsdname, target)
    }
}

impl<'a> ParseRecordData<'a> for Ns<ParsedName<'a>> {
    ghost layout = { only 2 (DomainName End) };

    fn parse_rdata(rtype: Rtype, parser: &mut Parser<'a>) -> Result<Option<Self>, ParseError> {
        if rtype != Rtype::NS {
            return Ok(None);
        }
        let nsdname = ParsedName::parse(parser)?;
        Ok(Some(Ns::new(nsdname)))
    }

    ghost laid_out = { λ _. refl };
}

/// The RDATA of a CNAME record: the canonical name of an alias (RFC 1035 section 3.3.1).
#[derive(Clone, Copy, Debug, PartialEq, Eq, PartialOrd, Ord, Hash, Drop)]
pub struct Cname<N> {
    cname: N,
}

impl<N> Cname<N> {
    /// The RDATA with this canonical name.
    pub fn new(cname: N) -> Self
        ensures { cname_of result ≡ cname }
    {
        Cname { cname }
    }

    /// The canonical name.
    pub fn cname(&self) -> &N
        ensures { result.now ≡ cname_of self.now }
    {
        &self.cname
    }

    /// Takes out the canonical name.
    pub fn into_cname(self) -> N
        ensures { result ≡ cname_of self }
    {
        let Cname { cname } = self;
        cname
    }
}

impl<N: ToName> RecordData for Cname<N> {
    ghost rtype_of = { λ _. 5 };

    ghost parts = { λ cname. CompressibleName (N.name (cname_of cname)) ∷ [] };

    fn rtype(&self) -> Rtype {
        Rtype::CNAME
    }
}

impl<N: ToName> ComposeRecordData for Cname<N> {
    fn compose_rdata<T: Composer>(&self, target: &mut T) -> Result<(), AppendError> {
        compose_name(&self.cname, target)
    }

    fn compose_canonical_rdata<T: Composer>(&self, target: &mut T) -> Result<(), AppendError> {
        compose_canonical_name(&self.cname, target)
    }
}

impl<'a> ParseRecordData<'a> for Cname<ParsedName<'a>> {
    ghost layout = { only 5 (DomainName End) };

    fn parse_rdata(rtype: Rtype, parser: &mut Parser<'a>) -> Result<Option<Self>, ParseError> {
        if rtype != Rtype::CNAME {
            return Ok(None);
        }
        let cname = ParsedName::parse(parser)?;
        Ok(Some(Cname::new(cname)))
    }

    ghost laid_out = { λ _. refl };
}
