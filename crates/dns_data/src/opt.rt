//! The RDATA of an OPT record: its options (RFC 6891 section 6.1.2).
ghost use Rattle.std.proofs.Common.{rules};
ghost use Rattle.std.specs.Prelude.{◌≤◌, IsTrue, length, refl};
ghost use Rattle.dns_edns.specs.OptionsOf.{are_options};

use crate::record_data::{ComposeRecordData, ParseRecordData, RecordData};
use dns_edns::{
    BadOptData, ClientSubnet, Cookie, Expire, ExtendedError, OptionIter, TcpKeepalive, are_options,
    known_options,
};
use dns_iana::{OptionCode, Rtype};
use dns_name::Parser;
use dns_octets::{AppendError, Octets, ParseError};
use dns_wire::{Composer, MAX_OCTETS};
use std::alloc::AllocError;

/// The options of an OPT record in wire format, at most 65,535 octets (RFC 6891 section 6.1.2).
#[derive(Debug, Drop)]
pub struct Opt<Octs: Octets> {
    octets: Octs,
    ghost options: { IsTrue (are_options (Octs.octets octets)) },
    ghost short: { length (Octs.octets octets) ≤ 65535 },
}

impl<Octs: Octets> Opt<Octs> {
    ghost use Rattle.std.specs.Prelude.{◌≡◌, ◌↔◌, IfOk, IfErr, IsOk, option_copied};
    ghost use Rattle.dns_name.specs.Names.{fault_of};
    ghost use Rattle.dns_name.specs.Names.Fault.{ShortInput};
    ghost use Rattle.dns_edns.specs.OptionIter.{options_left};
    ghost use Rattle.dns_edns.specs.ReadKinds.{ReadsFirst, first_octets};
    ghost use Rattle.dns_edns.specs.ReadOptions.{ReadsClientSubnet, ReadsCookie, ReadsExpire};
    ghost use Rattle.dns_edns.specs.ReadOptions.{ReadsExtendedError, ReadsTcpKeepalive};
    ghost use Rattle.dns_data.specs.Opt.{opt_buffer, opt_options, is_opt_data};

    /// Takes octets as the RDATA. Returns `ShortInput` if they aren't a list of options or are more
    /// than 65,535.
    pub fn from_octets(octets: Octs) -> Result<Self, ParseError>
        ensures octets { IfOk result (λ opt. opt_buffer opt ≡ octets) }
        ensures accepted { IsOk result ↔ IsTrue (is_opt_data (Octs.octets octets)) }
        ensures fault { IfErr result (λ e. fault_of e ≡ ShortInput) }
    {
        let slice = octets.octets();
        if slice.len() > MAX_OCTETS || !are_options(slice) {
            return Err(ParseError::ShortInput);
        }
        Ok(Opt { octets })
    }

    /// The value that holds the octets.
    pub fn data(&self) -> &Octs
        ensures { result.now ≡ opt_buffer self.now }
    {
        &self.octets
    }

    /// The options in order, each as its code and its octets.
    pub fn iter(&self) -> OptionIter<'_>
        ensures { options_left result ≡ opt_options self.now }
    {
        known_options(self.octets.octets())
    }

    /// The octets of the first option with the code, `None` if there is none.
    pub fn first(&self, code: OptionCode) -> Option<&[u8]>
        ensures { option_copied result ≡ first_octets code (opt_options self.now) }
    {
        self.iter().first(code)
    }

    /// The first identifier of the name server, empty in a query (NSID, RFC 5001). `None` if no
    /// option is one.
    pub fn nsid(&self) -> Option<&[u8]>
        ensures { option_copied result ≡ first_octets 3 (opt_options self.now) }
    {
        self.first(OptionCode::NSID)
    }

    /// The first client subnet (RFC 7871). `None` if no option is one, and an error if its octets
    /// are malformed.
    pub fn client_subnet(&self) -> Result<Option<ClientSubnet>, BadOptData>
        ensures { ReadsFirst ReadsClientSubnet (first_octets 8 (opt_options self.now)) result }
    {
        match self.first(OptionCode::CLIENT_SUBNET) {
            Some(octets) => Ok(Some(ClientSubnet::parse(octets)?)),
            None => Ok(None),
        }
    }

    /// When the zone expires, as the first option that says so has it (EXPIRE, RFC 7314). `None` if
    /// none says so, and an error if its octets are malformed.
    pub fn expire(&self) -> Result<Option<Expire>, BadOptData>
        ensures { ReadsFirst ReadsExpire (first_octets 9 (opt_options self.now)) result }
    {
        match self.first(OptionCode::EXPIRE) {
            Some(octets) => Ok(Some(Expire::parse(octets)?)),
            None => Ok(None),
        }
    }

    /// The first cookie (COOKIE, RFC 7873). `None` if no option is one, and an error if its octets
    /// are malformed.
    pub fn cookie(&self) -> Result<Option<Cookie<'_>>, BadOptData>
        ensures { ReadsFirst ReadsCookie (first_octets 10 (opt_options self.now)) result }
    {
        match self.first(OptionCode::COOKIE) {
            Some(octets) => Ok(Some(Cookie::parse(octets)?)),
            None => Ok(None),
        }
    }

    /// How long the TCP connection is kept, as the first option that says so has it (RFC 7828).
    /// `None` if none says so, and an error if its octets are malformed.
    pub fn tcp_keepalive(&self) -> Result<Option<TcpKeepalive>, BadOptData>
        ensures { ReadsFirst ReadsTcpKeepalive (first_octets 11 (opt_options self.now)) result }
    {
        match self.first(OptionCode::TCP_KEEPALIVE) {
            Some(octets) => Ok(Some(TcpKeepalive::parse(octets)?)),
            None => Ok(None),
        }
    }

    /// The octets of the first padding (RFC 7830). `None` if no option is one.
    pub fn padding(&self) -> Option<&[u8]>
        ensures { option_copied result ≡ first_octets 12 (opt_options self.now) }
    {
        self.first(OptionCode::PADDING)
    }

    /// The first extended error (RFC 8914). `None` if no option is one, and an error if its octets
    /// are malformed.
    pub fn extended_error(&self) -> Result<Option<ExtendedError<'_>>, BadOptData>
        ensures { ReadsFirst ReadsExtendedError (first_octets 15 (opt_options self.now)) result }
    {
        match self.first(OptionCode::EXTENDED_ERROR) {
            Some(octets) => Ok(Some(ExtendedError::parse(octets)?)),
            None => Ok(None),
        }
    }

    /// The RDATA of octets that are known to be a list of options of at most 65,535 octets.
    pub(crate) fn of_options(octets: Octs) -> Self
        requires { IsTrue (is_opt_data (Octs.octets octets)) }
        ensures { opt_buffer result ≡ octets }
    {
        Opt { octets }
    }

    /// Takes out the value that holds the octets.
    pub(crate) fn into_data(self) -> Octs
        ensures buffer { result ≡ opt_buffer self }
        ensures options { IsTrue (is_opt_data (Octs.octets result)) }
    {
        let Opt { octets } = self;
        octets
    }
}

impl<Octs: Octets> RecordData for Opt<Octs> {
    ghost use Rattle.std.specs.Prelude.{[], ◌∷◌};
    ghost use Rattle.dns_wire.specs.Parts.{Octets};
    ghost use Rattle.dns_data.specs.Opt.{opt_octets};

    ghost rtype_of = { λ _. 41 };

    ghost parts = { λ opt. Octets (opt_octets opt) ∷ [] };

    fn rtype(&self) -> Rtype {
        Rtype::OPT
    }
}

impl<Octs: Octets> ComposeRecordData for Opt<Octs> {
    fn compose_rdata<T: Composer>(&self, target: &mut T) -> Result<(), AppendError> {
        target.append_slice(self.octets.octets())
    }

    fn compose_canonical_rdata<T: Composer>(&self, target: &mut T) -> Result<(), AppendError> {
        self.compose_rdata(target)
    }
}

/// Reads all octets up to the parser's end. Returns `ShortInput` if `Opt::from_octets` doesn't
/// accept them.
impl<'a> ParseRecordData<'a> for Opt<&'a [u8]> {
    ghost use Rattle.dns_data.specs.Opt.{opt_layout};
    ghost use Rattle.dns_data.specs.RecordData.{only};

    ghost layout = { only 41 opt_layout };

    fn parse_rdata(rtype: Rtype, parser: &mut Parser<'a>) -> Result<Option<Self>, ParseError> {
        if rtype != Rtype::OPT {
            return Ok(None);
        }
        let octets = parser.peek(parser.remaining())?;
        let opt = Opt::from_octets(octets)?;
        parser.advance(octets.len())?;
        Ok(Some(opt))
    }

    ghost laid_out = { λ opt. (_, refl, Prim.search rules) };
}

/// Clones the octets. Returns `AllocError` if the clone doesn't hold the same octets.
impl<Octs: Octets + Clone> Clone for Opt<Octs> {
    ghost use Rattle.std.specs.Prelude.{◌≡◌};
    ghost use Rattle.dns_octets.specs.Octets.{ClonesSurely};
    ghost use Rattle.dns_data.specs.Opt.{opt_buffer, opt_octets};

    ghost is_clone = { λ opt clone. opt_octets clone ≡ opt_octets opt };

    ghost is_infallible = { λ opt. ClonesSurely Octs.is_infallible Octs.is_clone Octs.octets
        (opt_buffer opt) };

    fn clone(&self) -> Result<Self, AllocError> {
        let octets = self.octets.clone()?;
        if octets.octets() != self.octets.octets() {
            return Err(AllocError);
        }
        Ok(Opt { octets })
    }
}

impl<Octs: Octets + Copy> Copy for Opt<Octs> {}
