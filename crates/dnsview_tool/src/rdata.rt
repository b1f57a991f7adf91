//! Fields of RDATA in words: their names in the table of `fields_table`, and their values.
use crate::codes::Mnemonic;
use crate::counts::{octet_count, second_count, write_address};
use crate::meaning::number_of;
use base64::display::Base64Display;
use base64::engine::general_purpose::STANDARD;
use dns_iana::Rtype;
use fields_forms::Location;
use fields_lists::{AddressPrefixes, PrefixText, SmallTypeMap, TypeMap};
use fields_parameters::{ParameterText, Parameters};
use fields_plain::{Eui, Locator64, Timestamp};
use fields_table::{Kind, Shape, fields_of};
use fields_text::{Base32, Hex, Quoted};
use std::fmt;

/// The name of a field of RDATA, printed in words: each hyphen is printed as a space. Names in
/// RDATA that RFC 1035 section 3.3 abbreviates are written out.
#[derive(Clone, Copy)]
pub(crate) struct Words(pub(crate) &'static str);

/// The name of a field of RDATA, without the abbreviations of RFC 1035 section 3.3.
fn written_out(name: &'static str) -> &'static str {
    match name {
        "nsdname" => "name server",
        "madname" => "mail host",
        "mgmname" => "group member",
        "newname" => "new name",
        "cname" => "canonical name",
        "ptrdname" => "target",
        "exchange" => "mail exchange",
        "mname" => "primary server",
        "rname" => "mailbox",
        "rmailbx" => "responsible mailbox",
        "emailbx" => "error mailbox",
        other => other,
    }
}

impl fmt::Display for Words {
    fn fmt<W: fmt::Write>(&self, f: &mut fmt::Formatter<W>) -> fmt::Result {
        for letter in written_out(self.0).chars() {
            f.write_char(if letter == '-' { ' ' } else { letter })?;
        }
        Ok(())
    }
}

/// A field of RDATA that isn't a name, printed in words: its name, and its value. If its octets
/// have no text, their number is printed.
#[derive(Clone, Copy)]
pub(crate) struct RdataField<'a> {
    pub(crate) name: &'static str,
    pub(crate) kind: Kind,
    pub(crate) octets: &'a [u8],
}

impl fmt::Display for RdataField<'_> {
    fn fmt<W: fmt::Write>(&self, f: &mut fmt::Formatter<W>) -> fmt::Result {
        let words = Words(self.name);
        write!(f, "{words}")?;
        match self.kind {
            Kind::CharacterString | Kind::Tag | Kind::Salt | Kind::Hash => {
                write_string(f, self.kind, self.octets.get(1..).unwrap_or(&[]))
            }
            Kind::SizedOctets => write_string(f, self.kind, self.octets.get(2..).unwrap_or(&[])),
            Kind::Text | Kind::Hexadecimal | Kind::Base64 | Kind::Base64OrHyphen => {
                f.write_str(": ")?;
                write_octets(f, self.kind, self.octets)
            }
            Kind::TypeBitMap
            | Kind::SmallTypeBitMap
            | Kind::ServiceParameters
            | Kind::AddressPrefixes => self.write_items(f),
            _ => self.write_number(f),
        }
    }
}

impl RdataField<'_> {
    /// Prints a number, an address or a location.
    fn write_number<W: fmt::Write>(&self, f: &mut fmt::Formatter<W>) -> fmt::Result {
        let number = number_of(self.octets);
        match (self.kind, self.octets) {
            (Kind::SyncScheme, [1]) => f.write_str(" NOTIFY"),
            (Kind::Number8 | Kind::SyncScheme | Kind::Number16 | Kind::Number32, _) => {
                write_value(f, &number)
            }
            (Kind::Number48, [a, b, c, d, e, g]) => {
                write_value(f, &u64::from_be_bytes([0, 0, *a, *b, *c, *d, *e, *g]))
            }
            (Kind::Number64, [a, b, c, d, e, g, h, i]) => {
                write_value(f, &u64::from_be_bytes([*a, *b, *c, *d, *e, *g, *h, *i]))
            }
            (Kind::Seconds, _) => write_value(f, &second_count(number)),
            (Kind::Time, _) => write_value(f, &Timestamp(number)),
            (Kind::RecordType, [high, low]) => {
                let rtype = Rtype::from_int(u16::from_be_bytes([*high, *low]));
                write_value(f, &Mnemonic::of_type(rtype))
            }
            _ => self.write_address(f),
        }
    }

    /// Prints an address or a location.
    fn write_address<W: fmt::Write>(&self, f: &mut fmt::Formatter<W>) -> fmt::Result {
        match self.kind {
            Kind::Ipv4 | Kind::Ipv6 => {
                f.write_str(" ")?;
                write_address(f, self.octets)
            }
            Kind::Eui48 | Kind::Eui64 => write_value(f, &Eui(self.octets)),
            Kind::Locator64 => match <[u8; 8]>::try_from(self.octets) {
                Ok(octets) => write_value(f, &Locator64(octets)),
                Err(_) => self.write_count(f),
            },
            Kind::Location => match Location::from_octets(self.octets) {
                Some(location) => write_value(f, &location),
                None => self.write_count(f),
            },
            _ => self.write_count(f),
        }
    }

    /// Prints types, service parameters or address prefixes, each after a space.
    fn write_items<W: fmt::Write>(&self, f: &mut fmt::Formatter<W>) -> fmt::Result {
        if !self.kind.accepts(self.octets) {
            return self.write_count(f);
        }
        match self.kind {
            Kind::TypeBitMap => write_types(f, self.octets),
            Kind::SmallTypeBitMap => match SmallTypeMap::from_octets(self.octets) {
                Some(_) => write_small_types(f, self.octets),
                None => self.write_count(f),
            },
            Kind::ServiceParameters => write_parameters(f, self.octets),
            _ => self.write_prefixes(f),
        }
    }

    fn write_prefixes<W: fmt::Write>(&self, f: &mut fmt::Formatter<W>) -> fmt::Result {
        for prefix in AddressPrefixes::new(self.octets) {
            if !PrefixText(prefix).is_printable() {
                return self.write_count(f);
            }
        }
        f.write_str(":")?;
        for prefix in AddressPrefixes::new(self.octets) {
            let prefix = PrefixText(prefix);
            write!(f, " {prefix}")?;
        }
        Ok(())
    }

    /// Prints the number of octets, and whether their form isn't that of the field.
    fn write_count<W: fmt::Write>(&self, f: &mut fmt::Formatter<W>) -> fmt::Result {
        let count = octet_count(self.octets.len());
        if !self.kind.accepts(self.octets) {
            f.write_str(", malformed")?;
        }
        write!(f, ", {count}")
    }
}

/// Whether RDATA of `len` octets ends where a field begins that needs octets, but takes all that
/// are left. Such a field has no row.
pub(crate) fn lacks_last_field(rtype: u16, len: usize) -> bool {
    let mut left = len;
    for (_, kind) in fields_of(rtype) {
        match kind.shape() {
            Shape::Octets(count) if count <= left => left -= count,
            Shape::Rest => return left == 0 && !kind.accepts(&[]),
            _ => return false,
        }
    }
    false
}

/// Prints a value after a space.
fn write_value<W: fmt::Write, D: fmt::Display>(
    f: &mut fmt::Formatter<W>,
    value: &D,
) -> fmt::Result {
    write!(f, " {value}")
}

/// Prints how many octets follow their length, and the octets. Digits are left out if there are no
/// octets.
fn write_string<W: fmt::Write>(
    f: &mut fmt::Formatter<W>,
    kind: Kind,
    octets: &[u8],
) -> fmt::Result {
    let count = octet_count(octets.len());
    write!(f, " of {count}")?;
    if octets.is_empty() && !matches!(kind, Kind::CharacterString | Kind::Tag) {
        return Ok(());
    }
    f.write_str(": ")?;
    write_octets(f, kind, octets)
}

/// Prints octets in base32, in base64, in hexadecimal, or in quotation marks.
fn write_octets<W: fmt::Write>(
    f: &mut fmt::Formatter<W>,
    kind: Kind,
    octets: &[u8],
) -> fmt::Result {
    match kind {
        Kind::Hash => {
            let digits = Base32(octets);
            write!(f, "{digits}")
        }
        Kind::Base64 | Kind::Base64OrHyphen | Kind::SizedOctets => {
            let digits = Base64Display::new(octets, &STANDARD);
            write!(f, "{digits}")
        }
        Kind::Salt | Kind::Hexadecimal => {
            let digits = Hex(octets);
            write!(f, "{digits}")
        }
        _ => {
            let text = Quoted(octets);
            write!(f, "{text}")
        }
    }
}

/// Prints the types of a bit map, each after a space.
fn write_types<W: fmt::Write>(f: &mut fmt::Formatter<W>, octets: &[u8]) -> fmt::Result {
    f.write_str(":")?;
    for rtype in TypeMap(octets).types() {
        write_value(f, &Mnemonic::of_type(rtype))?;
    }
    Ok(())
}

/// Prints the types of a bit map with a bit for each type from 0 on, each after a space.
fn write_small_types<W: fmt::Write>(f: &mut fmt::Formatter<W>, octets: &[u8]) -> fmt::Result {
    f.write_str(":")?;
    for rtype in 0..128u8 {
        let octet = octets.get(usize::from(rtype / 8)).copied().unwrap_or(0);
        if octet & (0x80 >> (rtype % 8)) != 0 {
            let rtype = Rtype::from_int(u16::from(rtype));
            write_value(f, &Mnemonic::of_type(rtype))?;
        }
    }
    Ok(())
}

/// Prints service parameters, each after a space.
fn write_parameters<W: fmt::Write>(f: &mut fmt::Formatter<W>, octets: &[u8]) -> fmt::Result {
    f.write_str(":")?;
    for parameter in Parameters::new(octets) {
        let parameter = ParameterText(parameter);
        write!(f, " {parameter}")?;
    }
    Ok(())
}
