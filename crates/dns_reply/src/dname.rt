//! The RDATA of DNAME records (RFC 6672 section 2.1).
ghost use Rattle.std.specs.Prelude.{◌≡◌, [], ◌∷◌, refl, false, true};
ghost use Rattle.dns_name.specs.ParsedName.{labels};
ghost use Rattle.dns_wire.specs.Parts.{UncompressedName};
ghost use Rattle.dns_data.specs.Layout.{UncompressedDomainName, End};
ghost use Rattle.dns_data.specs.RecordData.{only};
ghost use Rattle.dns_reply.specs.Dname.{dname_target};

use dns_data::{ParseRecordData, RecordData};
use dns_iana::Rtype;
use dns_name::{ParsedName, Parser};
use dns_octets::{FormError, ParseError};

/// The RDATA of a DNAME record: the name that takes the owner's place in names below it (RFC 6672
/// section 2.1).
#[derive(Clone, Copy, Debug)]
pub(crate) struct Dname<'a> {
    target: ParsedName<'a>,
}

impl<'a> Dname<'a> {
    /// The target.
    pub(crate) fn target(&self) -> ParsedName<'a>
        ensures { result ≡ dname_target self.now }
    {
        self.target
    }
}

impl RecordData for Dname<'_> {
    ghost rtype_of = { λ _. 39 };

    ghost parts = { λ dname. UncompressedName true (labels (dname_target dname)) ∷ [] };

    fn rtype(&self) -> Rtype {
        Rtype::DNAME
    }
}

/// The target may have no pointer (RFC 6672 section 2.5).
impl<'a> ParseRecordData<'a> for Dname<'a> {
    ghost layout = { only 39 (UncompressedDomainName false true End) };

    fn parse_rdata(rtype: Rtype, parser: &mut Parser<'a>) -> Result<Option<Self>, ParseError> {
        if rtype != Rtype::DNAME {
            return Ok(None);
        }
        let mut ahead = *parser;
        let start = ahead.pos();
        let target = ParsedName::parse(&mut ahead)?;
        if ahead.pos().checked_sub(start) != Some(target.compose_len()) {
            return Err(ParseError::Form(FormError::BAD_POINTER));
        }
        *parser = ahead;
        Ok(Some(Dname { target }))
    }

    ghost laid_out = { λ _. (refl, refl) };
}
