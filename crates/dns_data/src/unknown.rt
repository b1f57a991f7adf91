//! Opaque RDATA (RFC 3597 section 4).
ghost use Rattle.std.proofs.Common.{rules};
ghost use Rattle.std.specs.Prelude.{◌≤◌, length, refl};

use crate::error::LongRecordData;
use crate::record_data::{ComposeRecordData, ParseAnyRecordData, ParseRecordData, RecordData};
use dns_iana::Rtype;
use dns_name::Parser;
use dns_octets::{AppendError, Octets, ParseError};
use dns_wire::{Composer, MAX_OCTETS};
use std::alloc::AllocError;

/// The RDATA of a record of any type as octets without structure, at most 65,535 (RFC 3597 section
/// 4).
#[derive(Debug, Drop)]
pub struct UnknownRecordData<Octs: Octets> {
    rtype: u16,
    octets: Octs,
    ghost short: { length (Octs.octets octets) ≤ 65535 },
}

impl<Octs: Octets> UnknownRecordData<Octs> {
    ghost use Rattle.std.specs.Prelude.{◌≡◌, ◌<◌, ◌↔◌, length, IfOk, IsErr};
    ghost use Rattle.dns_data.specs.UnknownData.{unknown_rtype_of, unknown_buffer};

    /// The RDATA of a record of this type. Returns an error for more than 65,535 octets.
    pub fn from_octets(rtype: Rtype, octets: Octs) -> Result<Self, LongRecordData>
        ensures rtype { IfOk result (λ unknown. unknown_rtype_of unknown ≡ rtype) }
        ensures octets { IfOk result (λ unknown. unknown_buffer unknown ≡ octets) }
        ensures long { IsErr result ↔ (65535 < length (Octs.octets octets)) }
    {
        if octets.octets().len() > MAX_OCTETS {
            return Err(LongRecordData);
        }
        Ok(UnknownRecordData::of_short(rtype, octets))
    }

    /// The value that holds the octets.
    pub fn data(&self) -> &Octs
        ensures { result.now ≡ unknown_buffer self.now }
    {
        &self.octets
    }

    /// The RDATA of octets that are known to be at most 65,535.
    pub(crate) fn of_short(rtype: Rtype, octets: Octs) -> Self
        requires { length (Octs.octets octets) ≤ 65535 }
        ensures rtype { unknown_rtype_of result ≡ rtype }
        ensures octets { unknown_buffer result ≡ octets }
    {
        UnknownRecordData {
            rtype: rtype.to_int(),
            octets,
        }
    }

    /// Takes out the type and the value that holds the octets.
    pub(crate) fn into_parts(self) -> (Rtype, Octs)
        ensures rtype { result.0 ≡ unknown_rtype_of self }
        ensures octets { result.1 ≡ unknown_buffer self }
        ensures short { length (Octs.octets result.1) ≤ 65535 }
    {
        let UnknownRecordData { rtype, octets } = self;
        (Rtype::from_int(rtype), octets)
    }
}

impl<Octs: Octets> RecordData for UnknownRecordData<Octs> {
    ghost use Rattle.std.specs.Prelude.{[], ◌∷◌};
    ghost use Rattle.dns_wire.specs.Parts.{Octets};
    ghost use Rattle.dns_data.specs.UnknownData.{unknown_rtype_of, unknown_octets};

    ghost rtype_of = { unknown_rtype_of };

    ghost parts = { λ unknown. Octets (unknown_octets unknown) ∷ [] };

    fn rtype(&self) -> Rtype {
        Rtype::from_int(self.rtype)
    }
}

impl<Octs: Octets> ComposeRecordData for UnknownRecordData<Octs> {
    ghost use Rattle.std.specs.Prelude.{◌≡◌, IfSome, IsSome};
    ghost use Rattle.dns_data.specs.UnknownData.{unknown_octets};

    /// Returns all octets of the RDATA.
    #[inline(always)]
    fn flat_rdata(&self) -> Option<&[u8]>
        ensures lent { IsSome result }
        ensures octets { IfSome result (λ octets. octets.now ≡ unknown_octets self.now) }
    {
        Some(self.octets.octets())
    }

    fn compose_rdata<T: Composer>(&self, target: &mut T) -> Result<(), AppendError> {
        target.append_slice(self.octets.octets())
    }

    fn compose_canonical_rdata<T: Composer>(&self, target: &mut T) -> Result<(), AppendError> {
        self.compose_rdata(target)
    }
}

/// Reads all octets up to the parser's end. Returns `ShortInput` for more than 65,535.
impl<'a> ParseAnyRecordData<'a> for UnknownRecordData<&'a [u8]> {
    ghost use Rattle.dns_data.specs.UnknownData.{opaque_layout};

    ghost any_layout = { λ _. opaque_layout };

    fn parse_any_rdata(rtype: Rtype, parser: &mut Parser<'a>) -> Result<Self, ParseError> {
        let octets = parser.peek(parser.remaining())?;
        let Ok(unknown) = UnknownRecordData::from_octets(rtype, octets) else {
            return Err(ParseError::ShortInput);
        };
        parser.advance(octets.len())?;
        Ok(unknown)
    }

    ghost any_laid_out = { λ unknown. (_, refl, Prim.search rules) };
}

/// As `parse_any_rdata`.
impl<'a> ParseRecordData<'a> for UnknownRecordData<&'a [u8]> {
    ghost use Rattle.std.specs.Prelude.{Some};
    ghost use Rattle.dns_data.specs.UnknownData.{opaque_layout};

    ghost layout = { λ _. Some opaque_layout };

    fn parse_rdata(rtype: Rtype, parser: &mut Parser<'a>) -> Result<Option<Self>, ParseError> {
        match UnknownRecordData::parse_any_rdata(rtype, parser) {
            Ok(unknown) => Ok(Some(unknown)),
            Err(error) => Err(error),
        }
    }

    ghost laid_out = { λ unknown. (_, refl, Prim.search rules) };
}

/// Clones the octets. Returns `AllocError` if the clone doesn't hold the same octets.
impl<Octs: Octets + Clone> Clone for UnknownRecordData<Octs> {
    ghost use Rattle.std.specs.Prelude.{◌≡◌};
    ghost use Rattle.dns_octets.specs.Octets.{ClonesSurely};
    ghost use Rattle.dns_data.specs.UnknownData.{unknown_buffer, unknown_rtype_of, unknown_octets};

    ghost is_clone = { λ unknown clone. (unknown_rtype_of clone ≡ unknown_rtype_of unknown)
        × (unknown_octets clone ≡ unknown_octets unknown) };

    ghost is_infallible = { λ unknown. ClonesSurely Octs.is_infallible Octs.is_clone Octs.octets
        (unknown_buffer unknown) };

    fn clone(&self) -> Result<Self, AllocError> {
        let octets = self.octets.clone()?;
        if octets.octets() != self.octets.octets() {
            return Err(AllocError);
        }
        Ok(UnknownRecordData {
            rtype: self.rtype,
            octets,
        })
    }
}

impl<Octs: Octets + Copy> Copy for UnknownRecordData<Octs> {}
