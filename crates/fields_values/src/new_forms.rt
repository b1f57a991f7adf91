//! Gateways, relays and host identities, as values of fields.
use dns_name::ParsedName;

/// A gateway or a relay (RFC 4025 section 2.5, RFC 8777 section 4.2.4).
#[derive(Clone, Copy, Debug)]
pub enum NewGateway<'a> {
    /// No gateway. Type 0.
    Nothing,
    /// An IPv4 address. Type 1.
    Ipv4([u8; 4]),
    /// An IPv6 address. Type 2.
    Ipv6([u8; 16]),
    /// A name, which isn't compressed. Type 3.
    Name(ParsedName<'a>),
}

/// A gateway and its public key, of an IPSECKEY record (RFC 4025 section 2.1).
#[derive(Clone, Copy, Debug)]
pub struct NewGatewayAndKey<'a> {
    /// The algorithm of the key (RFC 4025 section 2.4). 0 if there is no key.
    pub algorithm: u8,
    pub gateway: NewGateway<'a>,
    pub key: &'a [u8],
}

/// A relay, of an AMTRELAY record (RFC 8777 section 4.2).
#[derive(Clone, Copy, Debug)]
pub struct NewRelay<'a> {
    /// Whether discovery is optional (RFC 8777 section 4.2.2).
    pub optional: bool,
    pub relay: NewGateway<'a>,
}

/// A host identity, of a HIP record (RFC 8005 section 5).
#[derive(Clone, Copy, Debug)]
pub struct NewHostIdentity<'a> {
    /// The algorithm of the key.
    pub algorithm: u8,
    /// At most 255 octets.
    pub tag: &'a [u8],
    /// At most 65,535 octets.
    pub key: &'a [u8],
    /// The names of rendezvous servers, which aren't compressed.
    pub servers: &'a [ParsedName<'a>],
}
