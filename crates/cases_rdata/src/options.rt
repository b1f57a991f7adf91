//! What options are read as.
use cases_files::key_of;
use dns_code::OptionCode;
use dns_edns::{ClientSubnet, Cookie, ExtendedError, KnownOptData, SubnetAddr};
use dns_print::write_hex;
use std::alloc::{AllocError, Global};
use std::fmt;

/// Octets that print as two lowercase hexadecimal digits each.
#[derive(Clone, Copy)]
struct Digits<'a>(&'a [u8]);

impl fmt::Display for Digits<'_> {
    fn fmt<W: fmt::Write>(&self, f: &mut fmt::Formatter<W>) -> fmt::Result {
        write_hex(f, false, self.0)
    }
}

/// The code of an option, the digits of its octets, and after `=` what it is read as. `None` if the
/// code is malformed.
pub(crate) fn option_parts(text: &str) -> Option<(u16, &str, &str)> {
    let (option, wanted) = text.split_once(" = ").unwrap_or((text, ""));
    let (code, digits) = key_of(option);
    Some((code.parse::<u16>().ok()?, digits, wanted))
}

/// What an option is read as, or why it can't be read. Addresses and octets are in digits.
pub(crate) fn option_text(alloc: Global, code: u16, octets: &[u8]) -> Result<String, AllocError> {
    match KnownOptData::parse(OptionCode::from_int(code), octets) {
        Ok(Some(known)) => known_text(alloc, &known),
        Ok(None) => String::from_str(alloc, "another kind"),
        Err(error) => error.to_string(alloc),
    }
}

/// The text of an option of a known kind.
fn known_text(alloc: Global, known: &KnownOptData<'_>) -> Result<String, AllocError> {
    match known {
        KnownOptData::Nsid(octets) => format!(in alloc; "NSID {}", Digits(octets)),
        KnownOptData::Padding(octets) => format!(in alloc; "padding {}", Digits(octets)),
        KnownOptData::ClientSubnet(subnet) => subnet_text(alloc, subnet),
        KnownOptData::Cookie(cookie) => cookie_text(alloc, cookie),
        KnownOptData::ExtendedError(error) => error_text(alloc, error),
        KnownOptData::Expire(expire) => number_text(alloc, "expire", expire.0),
        KnownOptData::TcpKeepalive(timeout) => {
            number_text(alloc, "keepalive", timeout.0.map(u32::from))
        }
    }
}

/// A kind, and a number if there is one.
fn number_text(alloc: Global, kind: &str, number: Option<u32>) -> Result<String, AllocError> {
    match number {
        Some(number) => format!(in alloc; "{kind} {number}"),
        None => format!(in alloc; "{kind} of no number"),
    }
}

/// A subnet.
fn subnet_text(alloc: Global, subnet: &ClientSubnet) -> Result<String, AllocError> {
    let address = match &subnet.address {
        SubnetAddr::V4(octets) => Digits(octets),
        SubnetAddr::V6(octets) => Digits(octets),
    };
    format!(in alloc; "subnet {address}/{} scope {}", subnet.source, subnet.scope)
}

/// The cookies of a client and of a server, if there is one.
fn cookie_text(alloc: Global, cookie: &Cookie<'_>) -> Result<String, AllocError> {
    let client = Digits(&cookie.client);
    match cookie.server {
        Some(server) => format!(in alloc; "cookie {client} server {}", Digits(server)),
        None => format!(in alloc; "cookie {client}"),
    }
}

/// The code of an error, the octets after it, and their text if it is one.
fn error_text(alloc: Global, error: &ExtendedError<'_>) -> Result<String, AllocError> {
    let octets = Digits(error.text_octets);
    match error.text() {
        Some(text) => format!(in alloc; "error {} {octets} \"{text}\"", error.code),
        None => format!(in alloc; "error {} {octets} no text", error.code),
    }
}
