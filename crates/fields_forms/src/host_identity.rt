//! Host identities (RFC 8005 section 6).
ghost use Rattle.std.specs.Prelude.{OnErr, OnSome, ◌≡◌, ◌++◌, IfSome, codes, decimal, is_some};
ghost use Rattle.dns_name.specs.NameReading.{name_labels};
ghost use Rattle.dns_print.specs.Printing.{PrintsOnOk};
ghost use Rattle.fields_text.specs.Hex.{hex_text};
ghost use Rattle.fields_forms.specs.HostIdentities.{identity_text, identity_words, servers_text, is_host_identity};
ghost use Rattle.fields_forms.specs.IdentityValues.{identity_shown};
ghost use Rattle.fields_plain.specs.ZoneNames.{zone_name_text};

use crate::gateway::split_name;
use crate::plain_names::are_plain_names;
use dns_name::{Name, ToName};
use dns_print::{TextWriter, write_number};
use fields_plain::write_zone_name;
use fields_text::{write_base64, write_hex};
use std::fmt;

/// An algorithm, a host identity tag, a public key and the names of rendezvous servers.
#[derive(Clone, Copy, Debug)]
pub struct HostIdentity<'a> {
    algorithm: u8,
    tag: &'a [u8],
    key: &'a [u8],
    servers: &'a [u8],
}

/// Whether the octets are consecutive uncompressed names, perhaps none.
fn are_servers(octets: &[u8]) -> bool
    ensures { result ≡ is_some (servers_text octets.now) }
{
    let mut left = octets;
    'servers: while !left.is_empty() {
        let Some((_, after)) = split_name(left) else {
            return false;
        };
        left = after;
    }
    true
}

impl<'a> HostIdentity<'a> {
    /// The value of these octets. `None` if they have no presentation format: a tag or key of no octets
    /// has none.
    pub fn from_octets(octets: &'a [u8]) -> Option<Self>
        ensures found { is_some result ≡ is_some (identity_text octets.now) }
        ensures text { IfSome result (λ value. identity_shown value ≡ identity_text octets.now) }
    {
        let [tag_size, algorithm, high, low, after @ ..] = octets else {
            return None;
        };
        let key_size = usize::from(*high) * 256 + usize::from(*low);
        let Some((tag, after)) = after.split_at_checked(usize::from(*tag_size)) else {
            return None;
        };
        let Some((key, servers)) = after.split_at_checked(key_size) else {
            return None;
        };
        if tag.is_empty() || key.is_empty() || !are_servers(servers) {
            return None;
        }
        Some(HostIdentity {
            algorithm: *algorithm,
            tag,
            key,
            servers,
        })
    }
}

/// Prints an algorithm and a tag, each before a space.
#[tactic(auto, using(dns_print::proofs::theory::Prints::prints, std::proofs::lemmas::Grind::common_steps))]
fn write_tag<W: TextWriter>(f: &mut W, algorithm: u8, tag: &[u8]) -> fmt::Result
    ensures text { PrintsOnOk W.takes f.old result
        (decimal algorithm ++ codes " " ++ hex_text tag.now ++ codes " ") f.new }
    ensures err { OnErr result W.MayFail }
{
    write_number(f, u64::from(algorithm))?;
    f.write_text(" ")?;
    write_hex(f, tag)?;
    f.write_text(" ")
}

/// Prints an algorithm, a tag and a public key, separated by spaces.
#[tactic(auto, using(dns_print::proofs::theory::Prints::prints, std::proofs::lemmas::Grind::common_steps))]
fn write_words<W: TextWriter>(f: &mut W, algorithm: u8, tag: &[u8], key: &[u8]) -> fmt::Result
    ensures text { PrintsOnOk W.takes f.old result
        (identity_words algorithm tag.now key.now) f.new }
    ensures err { OnErr result W.MayFail }
{
    write_tag(f, algorithm, tag)?;
    write_base64(f, key)
}

/// Prints a name after a space.
#[tactic(auto, using(dns_print::proofs::theory::Prints::prints, std::proofs::lemmas::Grind::common_steps))]
fn write_server<W: TextWriter>(f: &mut W, server: &Name<&[u8]>) -> fmt::Result
    ensures text { PrintsOnOk W.takes f.old result
        (codes " " ++ zone_name_text (name_labels server.now)) f.new }
    ensures err { OnErr result W.MayFail }
{
    f.write_text(" ")?;
    write_zone_name(f, &server.as_parsed())
}

/// Prints consecutive names, each after a space.
fn write_servers<W: TextWriter>(f: &mut W, octets: &[u8]) -> fmt::Result
    ensures text { IfSome (servers_text octets.now)
        (λ text. PrintsOnOk W.takes f.old result text f.new) }
    ensures err { OnSome (servers_text octets.now) (OnErr result W.MayFail) }
{
    let mut left = octets;
    'servers: while !left.is_empty() {
        let Some((server, after)) = split_name(left) else {
            return Err(fmt::Error);
        };
        write_server(f, &server)?;
        left = after;
    }
    Ok(())
}

impl HostIdentity<'_> {
    /// Prints the words, separated by spaces.
    pub fn write<W: TextWriter>(&self, f: &mut W) -> fmt::Result
        ensures text { IfSome (identity_shown self.now)
            (λ text. PrintsOnOk W.takes f.old result text f.new) }
        ensures err { OnSome (identity_shown self.now) (OnErr result W.MayFail) }
    {
        write_words(f, self.algorithm, self.tag, self.key)?;
        write_servers(f, self.servers)
    }
}

/// Whether the octets are the sizes of a tag and of a public key, with an algorithm between them,
/// and then the tag, the key, and the names of rendezvous servers.
pub fn is_host_identity(octets: &[u8]) -> bool
    ensures { result ≡ is_host_identity octets.now }
{
    let [tag_size, _, high, low, rest @ ..] = octets else {
        return false;
    };
    let size = usize::from(*tag_size) + usize::from(*high) * 256 + usize::from(*low);
    size <= rest.len() && are_plain_names(&rest[size..])
}
