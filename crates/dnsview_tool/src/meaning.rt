//! What rows mean, in words.
use crate::codes::{Mnemonic, OptionName};
use crate::counts::{octet_count, second_count};
use crate::option::OptionData;
use crate::rdata::{RdataField, Words, lacks_last_field};
use dns_code::Header;
use dns_iana::{Class, OptRcode, Rtype};
use dns_name::{ParsedName, Parser};
use dnsview_rows::{NameOf, Part, Row, RowFault, RowField, RowKind, octets_of, target_of};
use fields_lists::Strings;
use fields_table::layout_type;
use fields_text::Quoted;
use std::fmt;

/// DO, the highest bit of the flags of an OPT record (RFC 3225).
const DNSSEC_OK: u32 = 0x8000;

/// The octets of type, class and TTL, which precede RDLENGTH (RFC 1035 section 4.1.3).
const NUMBERS_LEN: usize = 8;

/// The octets of a header, which is a header section without the counts.
const HEADER_LEN: usize = 4;

/// A row of a message, printed in words, in ASCII.
#[derive(Clone, Copy)]
pub(crate) struct Meaning<'a> {
    /// The octets of the message.
    pub(crate) message: &'a [u8],
    pub(crate) row: Row,
}

/// The big-endian number in one, two or four octets; 0 for any other number of octets.
pub(crate) fn number_of(octets: &[u8]) -> u32 {
    match octets {
        [only] => u32::from(*only),
        [high, low] => u32::from(short_of(&[*high, *low])),
        [a, b, c, d] => u32::from_be_bytes([*a, *b, *c, *d]),
        _ => 0,
    }
}

/// The big-endian number in two octets; 0 for any other number of octets.
fn short_of(octets: &[u8]) -> u16 {
    match octets {
        [high, low] => u16::from_be_bytes([*high, *low]),
        _ => 0,
    }
}

/// The word for an item of a section.
fn word_of(part: Part) -> &'static str {
    match part {
        Part::Question => "question",
        Part::Answer => "answer",
        Part::Authority => "authority",
        Part::Additional => "additional",
    }
}

/// The words for a name of an item.
fn words_of(name: NameOf) -> Words {
    match name {
        NameOf::Question => Words("name"),
        NameOf::Owner => Words("owner"),
        NameOf::Field(name) => Words(name),
    }
}

impl fmt::Display for Meaning<'_> {
    fn fmt<W: fmt::Write>(&self, f: &mut fmt::Formatter<W>) -> fmt::Result {
        match self.row.kind {
            RowKind::ShortHeader => f.write_str("too short for a header section of 12 octets"),
            RowKind::Field(field) => self.write_field(f, field),
            RowKind::Fault(fault) => {
                let message = self.message;
                let offset = self.row.start;
                let words = FaultWords {
                    message,
                    offset,
                    fault,
                };
                write!(f, "FAULT: {words}")
            }
            RowKind::Unread => {
                let count = octet_count(self.octets().len());
                write!(f, "unread, {count}")
            }
        }
    }
}

impl<'a> Meaning<'a> {
    /// The octets of the row.
    fn octets(&self) -> &'a [u8] {
        octets_of(self.message, &self.row)
    }

    /// Prints a field, by `write_number` unless it needs more than its number.
    fn write_field<W: fmt::Write>(
        &self,
        f: &mut fmt::Formatter<W>,
        field: RowField,
    ) -> fmt::Result {
        let octets = self.octets();
        match field {
            RowField::Flags => write_flags(f, self.message),
            RowField::Item(part, number) => {
                let word = word_of(part);
                write!(f, "{word} {number}")
            }
            RowField::Label(name) => {
                let words = words_of(name);
                write!(f, "{words}, ")?;
                write_strings(f, "label", octets)
            }
            RowField::Root(name, start) => {
                let words = words_of(name);
                write!(f, "{words}, root label: ")?;
                write_name(f, self.message, start)
            }
            RowField::Pointer(name, start) => self.write_pointer(f, name, start),
            RowField::Named(name, kind) => {
                let field = RdataField { name, kind, octets };
                write!(f, "{field}")
            }
            RowField::Text => write_strings(f, "text", octets),
            RowField::RdLength => self.write_length(f),
            RowField::ExtendedRcode => write_extended(f, self.message, octets),
            RowField::OptionCode | RowField::OptionLength(_) | RowField::OptionData(_) => {
                write_option(f, field, octets)
            }
            _ => write_number(f, field, octets),
        }
    }

    /// Prints RDLENGTH, and whether RDATA of this length is malformed but has no row that says so:
    /// its last field lacks octets.
    fn write_length<W: fmt::Write>(&self, f: &mut fmt::Formatter<W>) -> fmt::Result {
        let len = short_of(self.octets());
        write!(f, "data length {len}")?;
        if self.lacks_octets(usize::from(len)) {
            f.write_str(", malformed")?;
        }
        Ok(())
    }

    /// Whether the last field of RDATA of this length, after this RDLENGTH, lacks octets.
    fn lacks_octets(&self, len: usize) -> bool {
        let numbers = self.row.start.saturating_sub(NUMBERS_LEN);
        let [a, b, c, d, ..] = self.message.get(numbers..).unwrap_or(&[]) else {
            return false;
        };
        let rtype = Rtype::from_int(u16::from_be_bytes([*a, *b]));
        let class = Class::from_int(u16::from_be_bytes([*c, *d]));
        lacks_last_field(layout_type(rtype, class, len).to_int(), len)
    }

    /// Prints where a pointer leads, and the whole name that it ends.
    fn write_pointer<W: fmt::Write>(
        &self,
        f: &mut fmt::Formatter<W>,
        name: NameOf,
        start: usize,
    ) -> fmt::Result {
        let words = words_of(name);
        let target = target_of(self.octets());
        write!(f, "{words}, pointer to {target}: ")?;
        write_name(f, self.message, start)
    }
}

/// What is wrong with the field at an offset, in words.
#[derive(Clone, Copy)]
pub(crate) struct FaultWords<'a> {
    /// The octets of the message.
    pub(crate) message: &'a [u8],
    pub(crate) offset: usize,
    pub(crate) fault: RowFault,
}

impl fmt::Display for FaultWords<'_> {
    fn fmt<W: fmt::Write>(&self, f: &mut fmt::Formatter<W>) -> fmt::Result {
        let mut parser = Parser::new(self.message);
        let octets = match parser.seek(self.offset) {
            Ok(()) => parser.peek(2).unwrap_or(&[]),
            Err(_) => &[],
        };
        let target = target_of(octets);
        match self.fault {
            RowFault::Short(field) => write_short(f, field),
            RowFault::Label => f.write_str("no label begins with the high bits 01 or 10"),
            RowFault::LongName => f.write_str("with this label the name has more than 255 octets"),
            RowFault::Pointer => write_target(f, target, "which doesn't lead back"),
            RowFault::After => write_target(f, target, "where no name can be read"),
            RowFault::LongPointer => {
                write_target(f, target, "with which the name has more than 255 octets")
            }
            RowFault::Trailing => f.write_str("octets are left behind the value of the data"),
        }
    }
}

/// Says that a field is incomplete.
fn write_short<W: fmt::Write>(f: &mut fmt::Formatter<W>, field: RowField) -> fmt::Result {
    let word = field_words(field);
    write!(f, "the octets end before the {word} does")
}

/// Prints where a pointer leads, and what is wrong with that.
fn write_target<W: fmt::Write>(
    f: &mut fmt::Formatter<W>,
    target: usize,
    words: &str,
) -> fmt::Result {
    write!(f, "pointer to {target}, {words}")
}

/// The words for a field that may be incomplete.
fn field_words(field: RowField) -> Words {
    Words(match field {
        RowField::Label(name) | RowField::Root(name, _) | RowField::Pointer(name, _) => {
            return words_of(name);
        }
        RowField::Named(name, _) => name,
        RowField::Type => "type",
        RowField::Class => "class",
        RowField::Ttl => "TTL",
        RowField::RdLength => "data length",
        RowField::Text => "text",
        RowField::PayloadSize => "UDP payload size",
        RowField::ExtendedRcode => "extended rcode",
        RowField::Version => "EDNS version",
        RowField::OptFlags => "EDNS flags",
        RowField::OptionCode => "option code",
        RowField::OptionLength(_) => "option length",
        RowField::OptionData(_) => "option data",
        _ => "data",
    })
}

/// Prints the absolute name at an offset, or nothing if no name can be read there.
pub(crate) fn write_name<W: fmt::Write>(
    f: &mut fmt::Formatter<W>,
    message: &[u8],
    offset: usize,
) -> fmt::Result {
    let mut parser = Parser::new(message);
    if parser.seek(offset).is_err() {
        return Ok(());
    }
    match ParsedName::parse(&mut parser) {
        Ok(name) => write!(f, "{name}."),
        Err(_) => Ok(()),
    }
}

/// Prints the fields of a header after its ID, in order. Of the flags, prints those that are set.
fn write_flags<W: fmt::Write>(f: &mut fmt::Formatter<W>, message: &[u8]) -> fmt::Result {
    if message.len() < HEADER_LEN {
        return Ok(());
    }
    let header = Header::for_message_slice(message);
    let opcode = Mnemonic::of_opcode(header.opcode());
    let rcode = Mnemonic::of_rcode(OptRcode::from(header.rcode()));
    f.write_str(if header.qr() {
        "response (QR)"
    } else {
        "query"
    })?;
    write!(f, ", opcode {opcode}")?;
    write_set(f, header)?;
    write!(f, ", rcode {rcode}")
}

/// Prints the flags of a header that are set, other than QR.
fn write_set<W: fmt::Write>(f: &mut fmt::Formatter<W>, header: Header) -> fmt::Result {
    let flags = [
        (header.aa(), "authoritative answer (AA)"),
        (header.tc(), "truncated (TC)"),
        (header.rd(), "recursion desired (RD)"),
        (header.ra(), "recursion available (RA)"),
        (header.z(), "reserved bit (Z)"),
        (header.ad(), "authentic data (AD)"),
        (header.cd(), "checking disabled (CD)"),
    ];
    for (is_set, words) in flags {
        if is_set {
            write!(f, ", {words}")?;
        }
    }
    Ok(())
}

/// Prints a label or a character string, which follows its length octet, or several of them.
fn write_strings<W: fmt::Write>(
    f: &mut fmt::Formatter<W>,
    word: &str,
    octets: &[u8],
) -> fmt::Result {
    let [len, text @ ..] = octets else {
        return Ok(());
    };
    if text.len() == usize::from(*len) {
        let count = octet_count(text.len());
        let text = Quoted(text);
        return write!(f, "{word} of {count}: {text}");
    }
    write!(f, "{word}s:")?;
    for text in Strings::new(octets) {
        let text = Quoted(text);
        write!(f, " {text}")?;
    }
    Ok(())
}

/// Prints the upper eight bits of an extended RCODE and, unless they are 0, the RCODE that they
/// form with the header's (RFC 6891 section 6.1.3).
fn write_extended<W: fmt::Write>(
    f: &mut fmt::Formatter<W>,
    message: &[u8],
    octets: &[u8],
) -> fmt::Result {
    let [higher] = octets else {
        return Ok(());
    };
    write!(f, "extended rcode {higher}")?;
    if *higher == 0 || message.len() < HEADER_LEN {
        return Ok(());
    }
    let header = Header::for_message_slice(message);
    let rcode = Mnemonic::of_rcode(OptRcode::from_parts(header.rcode(), *higher));
    write!(f, ", with that of the header {rcode}")
}

/// Prints a field of an option, after the option's name.
fn write_option<W: fmt::Write>(
    f: &mut fmt::Formatter<W>,
    field: RowField,
    octets: &[u8],
) -> fmt::Result {
    let number = short_of(octets);
    match field {
        RowField::OptionLength(code) => {
            let name = OptionName(code);
            write!(f, "{name}, option length {number}")
        }
        RowField::OptionData(code) => {
            let data = OptionData { code, octets };
            write!(f, "{data}")
        }
        _ => {
            let name = OptionName(number);
            write!(f, "{name}, option code {number}")
        }
    }
}

/// The words for a field of which only they and its number are printed.
fn number_word(field: RowField) -> Option<&'static str> {
    match field {
        RowField::Id => Some("identifier"),
        RowField::PayloadSize => Some("UDP payload size"),
        RowField::Version => Some("EDNS version"),
        _ => None,
    }
}

/// Prints a field that is a number, or the length of RDATA that isn't shown in words.
fn write_number<W: fmt::Write>(
    f: &mut fmt::Formatter<W>,
    field: RowField,
    octets: &[u8],
) -> fmt::Result {
    let number = number_of(octets);
    if let Some(word) = number_word(field) {
        return write!(f, "{word} {number}");
    }
    match field {
        RowField::Count(part) => {
            let word = word_of(part);
            write!(f, "{word} count {number}")
        }
        RowField::Type => {
            let rtype = Mnemonic::of_type(Rtype::from_int(short_of(octets)));
            write!(f, "type {rtype}")
        }
        RowField::Class => {
            let class = Mnemonic::of_class(Class::from_int(short_of(octets)));
            write!(f, "class {class}")
        }
        RowField::Ttl => {
            let seconds = second_count(number);
            write!(f, "TTL {seconds}")
        }
        RowField::OptFlags => write_opt_flags(f, number),
        _ => {
            let count = octet_count(octets.len());
            write!(f, "data, {count}")
        }
    }
}

fn write_opt_flags<W: fmt::Write>(f: &mut fmt::Formatter<W>, flags: u32) -> fmt::Result {
    write!(f, "EDNS flags {flags:04x}")?;
    if flags & DNSSEC_OK != 0 {
        f.write_str(", DNSSEC OK (DO)")?;
    }
    Ok(())
}
