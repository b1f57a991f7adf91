//! IPv4 addresses (RFC 1035 section 3.4.1).
ghost use Rattle.std.specs.Prelude.{◌≡◌, [], ◌∷◌, length, refl};
ghost use Rattle.dns_wire.specs.Parts.{Octets};
ghost use Rattle.dns_data.specs.Layout.{Fixed, End};
ghost use Rattle.dns_data.specs.RecordData.{only};

use crate::octets::take_octets;
use crate::record_data::{ComposeRecordData, ParseRecordData, RecordData};
use dns_iana::Rtype;
use dns_name::Parser;
use dns_octets::{AppendError, ParseError};
use dns_wire::Composer;

/// The RDATA of an A record: an IPv4 address (RFC 1035 section 3.4.1).
#[derive(Clone, Copy, Debug, PartialEq, Eq, PartialOrd, Ord, Hash)]
pub struct A {
    octets: [u8; 4],
    ghost four: { length octets ≡ 4 },
}

impl A {
    ghost use Rattle.dns_data.specs.A.{address_of};

    /// The address of four octets, in the order of dotted notation.
    pub fn from_octets(a: u8, b: u8, c: u8, d: u8) -> Self
        ensures { address_of result ≡ a ∷ b ∷ c ∷ d ∷ [] }
    {
        A {
            octets: [a, b, c, d],
        }
    }

    /// The four octets of the address.
    pub fn octets(&self) -> [u8; 4]
        ensures { result ≡ address_of self.now }
    {
        self.octets
    }
}

impl RecordData for A {
    ghost use Rattle.dns_data.specs.A.{address_of};

    ghost rtype_of = { λ _. 1 };

    ghost parts = { λ a. Octets (address_of a) ∷ [] };

    fn rtype(&self) -> Rtype {
        Rtype::A
    }
}

impl ComposeRecordData for A {
    ghost use Rattle.std.specs.Prelude.{◌≡◌, IfSome, IsSome};
    ghost use Rattle.dns_data.specs.A.{address_of};

    /// Returns the four octets of the address.
    #[inline(always)]
    fn flat_rdata(&self) -> Option<&[u8]>
        ensures lent { IsSome result }
        ensures octets { IfSome result (λ octets. octets.now ≡ address_of self.now) }
    {
        Some(&self.octets)
    }

    fn compose_rdata<T: Composer>(&self, target: &mut T) -> Result<(), AppendError> {
        target.append_slice(&self.octets)
    }

    fn compose_canonical_rdata<T: Composer>(&self, target: &mut T) -> Result<(), AppendError> {
        self.compose_rdata(target)
    }
}

impl<'a> ParseRecordData<'a> for A {
    ghost layout = { only 1 (Fixed 4 End) };

    fn parse_rdata(rtype: Rtype, parser: &mut Parser<'a>) -> Result<Option<Self>, ParseError> {
        if rtype != Rtype::A {
            return Ok(None);
        }
        let octets = take_octets(parser, 4)?;
        Ok(Some(A::from_octets(octets[0], octets[1], octets[2], octets[3])))
    }

    ghost laid_out = { λ a. (a.four, refl) };
}
