//! The options that RFCs define, encoded as these say.
ghost use Rattle.std.specs.Prelude.{◌*◌, ◌≤◌, ◌++◌, length, [], ◌∷◌, None, Some, option_copied};
ghost use Rattle.std.specs.Option.{ForSome};
ghost use Rattle.dns_edns.specs.KnownOptions.{nsid_option, dau_option, dhu_option, n3u_option};
ghost use Rattle.dns_edns.specs.KnownOptions.{client_subnet_option, prefix_octets, expire_option};
ghost use Rattle.dns_edns.specs.KnownOptions.{cookie_option, IsServerCookie, tcp_keepalive_option};
ghost use Rattle.dns_edns.specs.KnownOptions.{padding_option, zeros, chain_option, key_tag_option};
ghost use Rattle.dns_edns.specs.KnownOptions.{extended_error_option};
ghost use Rattle.dns_edns_builder.specs.Additions.{Adds};

use crate::builder::OptBuilder;
use dns_edns::{SubnetAddr, address_prefix};
use dns_iana::OptionCode;
use dns_name::ToName;
use dns_octets::AppendError;

impl OptBuilder {
    /// Adds the identifier of the name server (NSID, RFC 5001).
    pub fn nsid(&mut self, identifier: &[u8]) -> Result<(), AppendError>
        ensures { Adds (nsid_option identifier.now) self.old self.new result }
    {
        self.append(OptionCode::NSID.to_int(), identifier)
    }

    /// Requests the identifier of the name server (NSID, RFC 5001).
    pub fn client_nsid(&mut self) -> Result<(), AppendError>
        ensures { Adds (nsid_option []) self.old self.new result }
    {
        self.append(OptionCode::NSID.to_int(), &[])
    }

    /// Adds the numbers of the understood signature algorithms (DAU, RFC 6975).
    pub fn dau(&mut self, algorithms: &[u8]) -> Result<(), AppendError>
        ensures { Adds (dau_option algorithms.now) self.old self.new result }
    {
        self.append(OptionCode::DAU.to_int(), algorithms)
    }

    /// Adds the numbers of the understood DS hash algorithms (DHU, RFC 6975).
    pub fn dhu(&mut self, algorithms: &[u8]) -> Result<(), AppendError>
        ensures { Adds (dhu_option algorithms.now) self.old self.new result }
    {
        self.append(OptionCode::DHU.to_int(), algorithms)
    }

    /// Adds the numbers of the understood NSEC3 hash algorithms (N3U, RFC 6975).
    pub fn n3u(&mut self, algorithms: &[u8]) -> Result<(), AppendError>
        ensures { Adds (n3u_option algorithms.now) self.old self.new result }
    {
        self.append(OptionCode::N3U.to_int(), algorithms)
    }

    /// Adds the subnet of a client: the first `source` bits of its address, and the number of bits
    /// for which the response is valid, `scope` (RFC 7871). Both numbers are capped at the number
    /// of bits of the address.
    pub fn client_subnet(
        &mut self,
        source: u8,
        scope: u8,
        address: SubnetAddr,
    ) -> Result<(), AppendError>
        ensures { Adds (client_subnet_option source scope address) self.old self.new result }
    {
        match address {
            SubnetAddr::V4(octets) => self.append_subnet(1, source.min(32), scope.min(32), &octets),
            SubnetAddr::V6(octets) => self.append_subnet(
                2,
                source.min(128),
                scope.min(128),
                &octets,
            ),
        }
    }

    /// Adds a client's subnet, with an address of this family.
    fn append_subnet(
        &mut self,
        family: u8,
        source: u8,
        scope: u8,
        address: &[u8],
    ) -> Result<(), AppendError>
        requires bits { source ≤ 8 * length address.now }
        requires few { length address.now ≤ 16 }
        ensures { let head = 0 ∷ family ∷ source ∷ scope ∷ [] in
            Adds (record { code = 8; octets = head ++ prefix_octets source address.now })
            self.old self.new result }
    {
        let prefix = address_prefix(address, source);
        self.append_joined(
            OptionCode::CLIENT_SUBNET.to_int(),
            &[0, family, source, scope],
            prefix.as_slice(),
        )
    }

    /// Adds the number of seconds until the zone expires, or requests it with `None` (EXPIRE, RFC
    /// 7314).
    pub fn expire(&mut self, seconds: Option<u32>) -> Result<(), AppendError>
        ensures { Adds (expire_option seconds) self.old self.new result }
    {
        match seconds {
            Some(seconds) => self.append(OptionCode::EXPIRE.to_int(), &seconds.to_be_bytes()),
            None => self.append(OptionCode::EXPIRE.to_int(), &[]),
        }
    }

    /// Adds the cookie of the client and, if the client has one, that of the server, 8 to 32 octets
    /// (COOKIE, RFC 7873).
    pub fn cookie(&mut self, client: [u8; 8], server: Option<&[u8]>) -> Result<(), AppendError>
        requires { ForSome server (λ octets. IsServerCookie octets.now) }
        ensures { Adds (cookie_option client (option_copied server.entry))
            self.old self.new result }
    {
        match server {
            Some(server) => self.append_joined(OptionCode::COOKIE.to_int(), &client, server),
            None => self.append(OptionCode::COOKIE.to_int(), &client),
        }
    }

    /// Adds the cookie of a client that has no cookie of the server (COOKIE, RFC 7873).
    pub fn initial_cookie(&mut self, client: [u8; 8]) -> Result<(), AppendError>
        ensures { Adds (cookie_option client None) self.old self.new result }
    {
        self.append(OptionCode::COOKIE.to_int(), &client)
    }

    /// Adds the idle timeout of the connection in units of 100 milliseconds, or requests it with
    /// `None` (RFC 7828).
    pub fn tcp_keepalive(&mut self, timeout: Option<u16>) -> Result<(), AppendError>
        ensures { Adds (tcp_keepalive_option timeout) self.old self.new result }
    {
        match timeout {
            Some(timeout) => self.append(
                OptionCode::TCP_KEEPALIVE.to_int(),
                &timeout.to_be_bytes(),
            ),
            None => self.append(OptionCode::TCP_KEEPALIVE.to_int(), &[]),
        }
    }

    /// Adds padding of `len` zero octets (RFC 7830).
    pub fn padding(&mut self, len: u16) -> Result<(), AppendError>
        ensures { Adds (padding_option (zeros len)) self.old self.new result }
    {
        self.append_zeros(OptionCode::PADDING.to_int(), len)
    }

    /// Adds padding of the given octets (RFC 7830).
    pub fn random_padding(&mut self, octets: &[u8]) -> Result<(), AppendError>
        ensures { Adds (padding_option octets.now) self.old self.new result }
    {
        self.append(OptionCode::PADDING.to_int(), octets)
    }

    /// Adds the closest trust point. The chain of signatures is requested from there on (CHAIN, RFC
    /// 7901).
    pub fn chain<N: ToName>(&mut self, trust_point: &N) -> Result<(), AppendError>
        ensures { Adds (chain_option (N.name trust_point.now)) self.old self.new result }
    {
        match trust_point.as_flat_slice() {
            Some(octets) => self.append(OptionCode::CHAIN.to_int(), octets),
            None => self.append(
                OptionCode::CHAIN.to_int(),
                trust_point.as_parsed().uncompressed().as_slice(),
            ),
        }
    }

    /// Adds the key tags of the trust anchors (RFC 8145).
    pub fn key_tag(&mut self, tags: &[u16]) -> Result<(), AppendError>
        ensures { Adds (key_tag_option tags.now) self.old self.new result }
    {
        self.append_numbers(OptionCode::KEY_TAG.to_int(), tags)
    }

    /// Adds an extended error: the code says why the query failed, and the text, if any, gives
    /// details (RFC 8914).
    pub fn extended_error(&mut self, code: u16, text: Option<&str>) -> Result<(), AppendError>
        ensures { Adds (extended_error_option code (option_copied text.entry))
            self.old self.new result }
    {
        match text {
            Some(text) => self.append_joined(
                OptionCode::EXTENDED_ERROR.to_int(),
                &code.to_be_bytes(),
                text.as_bytes(),
            ),
            None => self.append(OptionCode::EXTENDED_ERROR.to_int(), &code.to_be_bytes()),
        }
    }
}
