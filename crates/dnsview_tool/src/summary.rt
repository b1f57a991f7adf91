//! What a message is, in one line.
ghost use Rattle.std.specs.Prelude.{◌≡◌, ◌<◌, length, IfSome};
ghost use Rattle.std.specs.Option.{option_copied};
ghost use Rattle.dnsview_tool.specs.Summaries.{additional_index, begins_additional, extended_row, first_extended, is_extended_rcode};

use crate::codes::Mnemonic;
use crate::counts::octet_count;
use crate::meaning::{FaultWords, number_of, write_name};
use dns_code::{Header, HeaderSection};
use dns_iana::{Class, Opcode, OptRcode, Rtype};
use dnsview_rows::{NameOf, Part, Row, RowField, RowKind, octets_of};
use std::fmt;

/// A message in one line, in ASCII: whether it is a query or a response, its ID, its first
/// question, its RCODE, how many answers it counts, and its fault if it has one.
#[derive(Clone, Copy)]
pub(crate) struct Summary<'a> {
    pub(crate) message: &'a [u8],
    /// The rows of the message.
    pub(crate) rows: &'a [Row],
}

impl fmt::Display for Summary<'_> {
    fn fmt<W: fmt::Write>(&self, f: &mut fmt::Formatter<W>) -> fmt::Result {
        if self.message.len() < HeaderSection::LEN {
            let count = octet_count(self.message.len());
            return write!(f, "{count}, too short for a header section");
        }
        let header = Header::for_message_slice(self.message);
        self.write_header(f, header)?;
        self.write_question(f)?;
        if header.qr() {
            self.write_rcode(f, header)?;
            self.write_answers(f)?;
        }
        self.write_fault(f)
    }
}

impl<'a> Summary<'a> {
    /// The octets of the first row of a field; empty if there is none.
    fn octets_of_field(&self, field: RowField) -> &'a [u8] {
        match self
            .rows
            .iter()
            .find(|row| row.kind == RowKind::Field(field))
        {
            Some(row) => octets_of(self.message, row),
            None => &[],
        }
    }

    fn write_header<W: fmt::Write>(
        &self,
        f: &mut fmt::Formatter<W>,
        header: Header,
    ) -> fmt::Result {
        let word = if header.qr() { "response" } else { "query" };
        let id = header.id();
        write!(f, "{word} {id}")?;
        if header.opcode() != Opcode::QUERY {
            let opcode = Mnemonic::of_opcode(header.opcode());
            write!(f, ", {opcode}")?;
        }
        Ok(())
    }

    /// Prints the name, the class unless it is IN, and the type of the first question, as far as
    /// it can be read.
    fn write_question<W: fmt::Write>(&self, f: &mut fmt::Formatter<W>) -> fmt::Result {
        let Some(start) = self.question_name() else {
            return Ok(());
        };
        f.write_str(", ")?;
        write_name(f, self.message, start)?;
        if let [high, low] = self.octets_of_field(RowField::Class) {
            let class = Class::from_int(u16::from_be_bytes([*high, *low]));
            if class != Class::IN {
                let class = Mnemonic::of_class(class);
                write!(f, " {class}")?;
            }
        }
        if let [high, low] = self.octets_of_field(RowField::Type) {
            let rtype = Mnemonic::of_type(Rtype::from_int(u16::from_be_bytes([*high, *low])));
            write!(f, " {rtype}")?;
        }
        Ok(())
    }

    /// Where the name of the first question begins. Returns `None` if there is no question, or its
    /// name can't be read.
    fn question_name(&self) -> Option<usize> {
        for row in self.rows {
            match row.kind {
                RowKind::Field(RowField::Root(NameOf::Question, start)) => return Some(start),
                RowKind::Field(RowField::Pointer(NameOf::Question, start)) => return Some(start),
                _ => {}
            }
        }
        None
    }

    /// The octet of the extended RCODE in the additional section; empty if there is none.
    fn extended_octets(&self) -> &'a [u8] {
        match extended_row(self.rows) {
            Some(row) => octets_of(self.message, row),
            None => &[],
        }
    }

    /// Prints the RCODE, extended by that of the OPT record of the additional section.
    fn write_rcode<W: fmt::Write>(&self, f: &mut fmt::Formatter<W>, header: Header) -> fmt::Result {
        let rcode = match self.extended_octets() {
            [higher] => OptRcode::from_parts(header.rcode(), *higher),
            _ => OptRcode::from(header.rcode()),
        };
        let rcode = Mnemonic::of_rcode(rcode);
        write!(f, ", {rcode}")
    }

    fn write_answers<W: fmt::Write>(&self, f: &mut fmt::Formatter<W>) -> fmt::Result {
        let count = number_of(self.octets_of_field(RowField::Count(Part::Answer)));
        let ending = if count == 1 { "" } else { "s" };
        write!(f, ", {count} answer{ending}")
    }

    fn write_fault<W: fmt::Write>(&self, f: &mut fmt::Formatter<W>) -> fmt::Result {
        for row in self.rows {
            if let RowKind::Fault(fault) = row.kind {
                let offset = row.start;
                let message = self.message;
                let words = FaultWords {
                    message,
                    offset,
                    fault,
                };
                return write!(f, ", fault at {offset}: {words}");
            }
        }
        Ok(())
    }
}

/// The row of the extended RCODE of the first OPT record in the additional section.
fn extended_row(rows: &[Row]) -> Option<&Row>
    ensures { option_copied result ≡ extended_row rows.now }
{
    match additional_index(rows) {
        Some(first) => first_extended(&rows[first + 1..]),
        None => None,
    }
}

/// The index of the row where the first item of the additional section begins.
fn additional_index(rows: &[Row]) -> Option<usize>
    ensures value { result ≡ additional_index rows.now }
    ensures within { IfSome result (λ index. index < length rows.now) }
{
    rows.iter().position(|row| begins_additional(row.kind))
}

fn first_extended(rows: &[Row]) -> Option<&Row>
    ensures { option_copied result ≡ first_extended rows.now }
{
    rows.iter().find(|row| is_extended_rcode(row.kind))
}

/// Whether an item of the additional section begins here.
fn begins_additional(kind: RowKind) -> bool
    ensures { result ≡ begins_additional kind }
{
    matches!(kind, RowKind::Field(RowField::Item(Part::Additional, _)))
}

fn is_extended_rcode(kind: RowKind) -> bool
    ensures { result ≡ is_extended_rcode kind }
{
    matches!(kind, RowKind::Field(RowField::ExtendedRcode))
}
