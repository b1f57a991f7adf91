//! EXPIRE, TCP keepalive, cookies and extended errors, read from the octets of their options.
ghost use Rattle.std.specs.Prelude.{◌≡◌, ◌↔◌, IfSome, IsSome};
ghost use Rattle.std.specs.Str.{IsUtf8};
ghost use Rattle.dns_edns.specs.ReadOptions.{ReadsCookie, ReadsExpire};
ghost use Rattle.dns_edns.specs.ReadOptions.{ReadsExtendedError, ReadsTcpKeepalive};

use crate::error::BadOptData;

/// EXPIRE (RFC 7314): the seconds until a zone expires, `None` in a query.
#[derive(Clone, Copy, Debug, PartialEq, Eq)]
pub struct Expire(pub Option<u32>);

impl Expire {
    /// Reads the octets of the option. Returns an error unless there are none or four.
    pub fn parse(octets: &[u8]) -> Result<Self, BadOptData>
        ensures { ReadsExpire octets.now result }
    {
        match octets {
            [] => Ok(Expire(None)),
            [a, b, c, d] => Ok(Expire(Some(u32::from_be_bytes([*a, *b, *c, *d])))),
            _ => Err(BadOptData),
        }
    }
}

/// TCP keepalive (RFC 7828): the idle timeout of the connection in units of 100 milliseconds,
/// `None` in a query.
#[derive(Clone, Copy, Debug, PartialEq, Eq)]
pub struct TcpKeepalive(pub Option<u16>);

impl TcpKeepalive {
    /// Reads the octets of the option. Returns an error unless there are none or two.
    pub fn parse(octets: &[u8]) -> Result<Self, BadOptData>
        ensures { ReadsTcpKeepalive octets.now result }
    {
        match octets {
            [] => Ok(TcpKeepalive(None)),
            [high, low] => Ok(TcpKeepalive(Some(u16::from_be_bytes([*high, *low])))),
            _ => Err(BadOptData),
        }
    }
}

/// COOKIE (RFC 7873). What its fields promise holds of each value that `parse` returns.
#[derive(Clone, Copy, Debug, PartialEq, Eq)]
pub struct Cookie<'a> {
    /// The cookie of the client.
    pub client: [u8; 8],
    /// The cookie of the server, 8 to 32 octets, if the client has one.
    pub server: Option<&'a [u8]>,
}

impl<'a> Cookie<'a> {
    /// Reads the octets of the option. Returns an error unless there are 8, or 16 to 40.
    pub fn parse(octets: &'a [u8]) -> Result<Self, BadOptData>
        ensures { ReadsCookie octets.now result }
    {
        let Some((client, server)) = octets.split_first_chunk::<8>() else {
            return Err(BadOptData);
        };
        let client = *client;
        match server.len() {
            0 => Ok(Cookie {
                client,
                server: None,
            }),
            8..=32 => Ok(Cookie {
                client,
                server: Some(server),
            }),
            _ => Err(BadOptData),
        }
    }
}

/// An extended DNS error (RFC 8914): why a query failed.
#[derive(Clone, Copy, Debug, PartialEq, Eq)]
pub struct ExtendedError<'a> {
    /// The code in IANA's registry.
    pub code: u16,
    /// The text with details, which should be UTF-8. It is empty if there is none.
    pub text_octets: &'a [u8],
}

impl<'a> ExtendedError<'a> {
    /// Reads the octets of the option. Returns an error for fewer than two.
    pub fn parse(octets: &'a [u8]) -> Result<Self, BadOptData>
        ensures { ReadsExtendedError octets.now result }
    {
        let [high, low, text_octets @ ..] = octets else {
            return Err(BadOptData);
        };
        Ok(ExtendedError {
            code: u16::from_be_bytes([*high, *low]),
            text_octets,
        })
    }

    /// The text, `None` if its octets aren't UTF-8.
    pub fn text(&self) -> Option<&'a str>
        ensures text { IfSome result (λ text. text.now ≡ self.now.text_octets.now) }
        ensures utf8 { IsSome result ↔ IsUtf8 self.now.text_octets.now }
    {
        match str::from_utf8(self.text_octets) {
            Ok(text) => Some(text),
            Err(_) => None,
        }
    }
}
