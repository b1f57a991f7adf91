//! What the data of options means, in words.
ghost use Rattle.std.specs.Prelude.{◌≡◌};
ghost use Rattle.dnsview_tool.specs.Options.{are_key_tags, is_known_family};

use crate::codes::OptionName;
use crate::counts::{octet_count, second_count};
use dns_edns::{
    BadOptData, ClientSubnet, Cookie, Expire, ExtendedError, KnownOptData, SubnetAddr, TcpKeepalive,
};
use dns_iana::{ExtendedErrorCode, OptionCode};
use dns_name::Name;
use fields_text::Quoted;
use std::fmt;
use std::net::{Ipv4Addr, Ipv6Addr};

/// The data of an option of an OPT record, printed after the option's name.
#[derive(Clone, Copy)]
pub(crate) struct OptionData<'a> {
    pub(crate) code: u16,
    pub(crate) octets: &'a [u8],
}

impl fmt::Display for OptionData<'_> {
    fn fmt<W: fmt::Write>(&self, f: &mut fmt::Formatter<W>) -> fmt::Result {
        let name = OptionName(self.code);
        write!(f, "{name}: ")?;
        write_data(f, self.code, self.octets)
    }
}

/// Prints the data of an option by its code, or says that the octets aren't of its form.
fn write_data<W: fmt::Write>(f: &mut fmt::Formatter<W>, code: u16, octets: &[u8]) -> fmt::Result {
    match KnownOptData::parse(OptionCode::from_int(code), octets) {
        Ok(Some(known)) => write_known(f, known, octets),
        Ok(None) => write_other(f, code, octets),
        Err(BadOptData) => write_unread(f, code, octets),
    }
}

/// Prints a client subnet of an address family other than IPv4 and IPv6, or says that the octets
/// aren't of the option's form.
fn write_unread<W: fmt::Write>(f: &mut fmt::Formatter<W>, code: u16, octets: &[u8]) -> fmt::Result {
    let (8, [high, low, source, scope, ..]) = (code, octets) else {
        return write_malformed(f, octets);
    };
    let family = u16::from_be_bytes([*high, *low]);
    if is_known_family(family) {
        return write_malformed(f, octets);
    }
    write!(f, "family {family}, /{source}, scope {scope}")
}

/// Whether a family of addresses is IPv4 or IPv6 (RFC 7871 section 6).
fn is_known_family(family: u16) -> bool
    ensures { result ≡ is_known_family family }
{
    family == 1 || family == 2
}

/// Prints the data of an option that `dns_edns` reads.
fn write_known<W: fmt::Write>(
    f: &mut fmt::Formatter<W>,
    known: KnownOptData<'_>,
    octets: &[u8],
) -> fmt::Result {
    match known {
        KnownOptData::Nsid(identifier) => write_text(f, identifier),
        KnownOptData::ClientSubnet(subnet) => write_subnet(f, &subnet),
        KnownOptData::Expire(Expire(Some(seconds))) => {
            let seconds = second_count(seconds);
            write!(f, "{seconds}")
        }
        KnownOptData::Cookie(cookie) => write_cookie(f, &cookie),
        KnownOptData::TcpKeepalive(TcpKeepalive(Some(timeout))) => {
            write!(f, "{timeout} tenths of a second")
        }
        KnownOptData::ExtendedError(error) => write_error(f, &error),
        KnownOptData::Expire(_) | KnownOptData::TcpKeepalive(_) | KnownOptData::Padding(_) => {
            write_count(f, octets)
        }
    }
}

/// Prints the data of any other option.
fn write_other<W: fmt::Write>(f: &mut fmt::Formatter<W>, code: u16, octets: &[u8]) -> fmt::Result {
    match code {
        5..=7 => write_algorithms(f, octets),
        13 | 18 => write_option_name(f, octets),
        14 => write_key_tags(f, octets),
        19 => write_zone_version(f, octets),
        _ => write_count(f, octets),
    }
}

/// Prints the number of octets of an option with no other words for them.
fn write_count<W: fmt::Write>(f: &mut fmt::Formatter<W>, octets: &[u8]) -> fmt::Result {
    let count = octet_count(octets.len());
    write!(f, "{count}")
}

/// Says that octets aren't of the form of their option, and prints their number.
fn write_malformed<W: fmt::Write>(f: &mut fmt::Formatter<W>, octets: &[u8]) -> fmt::Result {
    f.write_str("malformed, ")?;
    write_count(f, octets)
}

/// Prints octets in quotation marks.
fn write_text<W: fmt::Write>(f: &mut fmt::Formatter<W>, octets: &[u8]) -> fmt::Result {
    let text = Quoted(octets);
    write!(f, "{text}")
}

/// Prints an extended error: its code, the code's name, and its text (RFC 8914 section 2).
fn write_error<W: fmt::Write>(f: &mut fmt::Formatter<W>, error: &ExtendedError<'_>) -> fmt::Result {
    let code = error.code;
    write!(f, "code {code}")?;
    if let Some(name) = ExtendedErrorCode::from_int(code).registered_name() {
        write!(f, " ({name})")?;
    }
    let text = Quoted(error.text_octets);
    write!(f, ", {text}")
}

/// Prints algorithm numbers, of one octet each (RFC 6975 section 3).
fn write_algorithms<W: fmt::Write>(f: &mut fmt::Formatter<W>, octets: &[u8]) -> fmt::Result {
    f.write_str("algorithms")?;
    for algorithm in octets {
        write!(f, " {algorithm}")?;
    }
    Ok(())
}

/// Prints a client subnet (RFC 7871 section 6).
fn write_subnet<W: fmt::Write>(f: &mut fmt::Formatter<W>, subnet: &ClientSubnet) -> fmt::Result {
    match subnet.address {
        SubnetAddr::V4(octets) => {
            let [a, b, c, d] = octets;
            let address = Ipv4Addr::new(a, b, c, d);
            write!(f, "{address}")?;
        }
        SubnetAddr::V6(octets) => {
            let address = Ipv6Addr::from_octets(octets);
            write!(f, "{address}")?;
        }
    }
    let (source, scope) = (subnet.source, subnet.scope);
    write!(f, "/{source}, scope {scope}")
}

/// Prints the lengths of the client cookie and the server cookie.
fn write_cookie<W: fmt::Write>(f: &mut fmt::Formatter<W>, cookie: &Cookie<'_>) -> fmt::Result {
    let client = octet_count(cookie.client.len());
    write!(f, "{client} of the client")?;
    if let Some(server) = cookie.server {
        let server = server.len();
        write!(f, ", {server} of the server")?;
    }
    Ok(())
}

/// Prints a name that isn't compressed: of the closest trust point (RFC 7901 section 4), or of the
/// agent that errors are reported to (RFC 9567 section 5).
fn write_option_name<W: fmt::Write>(f: &mut fmt::Formatter<W>, octets: &[u8]) -> fmt::Result {
    match Name::from_octets(octets) {
        Ok(name) => write!(f, "{name}."),
        Err(_) => write_malformed(f, octets),
    }
}

/// Prints the key tags of trust anchors, of two octets each (RFC 8145 section 4.1).
fn write_key_tags<W: fmt::Write>(f: &mut fmt::Formatter<W>, octets: &[u8]) -> fmt::Result {
    if !are_key_tags(octets) {
        return write_malformed(f, octets);
    }
    f.write_str("tags")?;
    for pair in octets.chunks_exact(2) {
        if let [high, low] = pair {
            let tag = u16::from_be_bytes([*high, *low]);
            write!(f, " {tag}")?;
        }
    }
    Ok(())
}

/// Prints the version of a zone: the number of labels of its name, and the serial of its SOA record
/// or a version of another type (RFC 9660 section 2). A query has no octets.
fn write_zone_version<W: fmt::Write>(f: &mut fmt::Formatter<W>, octets: &[u8]) -> fmt::Result {
    if octets.is_empty() {
        return write_count(f, octets);
    }
    let [labels, kind, version @ ..] = octets else {
        return write_malformed(f, octets);
    };
    match (*kind, version) {
        (0, [a, b, c, d]) => {
            let serial = u32::from_be_bytes([*a, *b, *c, *d]);
            write!(f, "labels {labels}, SOA serial {serial}")
        }
        (0, _) => write_malformed(f, octets),
        (kind, _) => {
            let count = octet_count(version.len());
            write!(f, "labels {labels}, type {kind}, {count}")
        }
    }
}

/// Whether octets are key tags, one at least.
fn are_key_tags(octets: &[u8]) -> bool
    ensures { result ≡ are_key_tags octets.now }
{
    !octets.is_empty() && octets.len() % 2 == 0
}
