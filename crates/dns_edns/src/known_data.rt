//! Options of all the kinds that are read.
ghost use Rattle.dns_edns.specs.ReadKinds.{ReadsKnown};

use crate::error::BadOptData;
use crate::kinds::{Cookie, Expire, ExtendedError, TcpKeepalive};
use crate::subnet::ClientSubnet;
use dns_iana::OptionCode;

/// An option by its kind.
#[derive(Clone, Copy, Debug, PartialEq, Eq)]
pub enum KnownOptData<'a> {
    /// The identifier of a name server, empty in a query (NSID, RFC 5001).
    Nsid(&'a [u8]),
    /// The subnet of a client (RFC 7871).
    ClientSubnet(ClientSubnet),
    /// When a zone expires (EXPIRE, RFC 7314).
    Expire(Expire),
    /// Cookies of client and server (COOKIE, RFC 7873).
    Cookie(Cookie<'a>),
    /// How long a TCP connection is kept (RFC 7828).
    TcpKeepalive(TcpKeepalive),
    /// Octets without meaning (RFC 7830).
    Padding(&'a [u8]),
    /// Why a query failed (RFC 8914).
    ExtendedError(ExtendedError<'a>),
}

impl<'a> KnownOptData<'a> {
    /// Reads an option, as an iterator over options yields it. Returns `None` for a code of another
    /// kind, and an error if the octets aren't those of the code's kind.
    pub fn parse(code: OptionCode, octets: &'a [u8]) -> Result<Option<Self>, BadOptData>
        ensures { ReadsKnown code octets.now result }
    {
        let known = match code {
            OptionCode::NSID => KnownOptData::Nsid(octets),
            OptionCode::CLIENT_SUBNET => KnownOptData::ClientSubnet(ClientSubnet::parse(octets)?),
            OptionCode::EXPIRE => KnownOptData::Expire(Expire::parse(octets)?),
            OptionCode::COOKIE => KnownOptData::Cookie(Cookie::parse(octets)?),
            OptionCode::TCP_KEEPALIVE => KnownOptData::TcpKeepalive(TcpKeepalive::parse(octets)?),
            OptionCode::PADDING => KnownOptData::Padding(octets),
            OptionCode::EXTENDED_ERROR => {
                KnownOptData::ExtendedError(ExtendedError::parse(octets)?)
            }
            _ => return Ok(None),
        };
        Ok(Some(known))
    }
}
