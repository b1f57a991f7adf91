//! A case, and what the library makes of its RDATA.
use crate::fields::write_values;
use crate::key::Key;
use dns_code::Rtype;
use dns_data::{ComposeRecordData, ParseAnyRecordData};
use dns_wire::{AppendError, ParseError, Parser};
use fields_checks::check_values;
use fields_records::{DataText, from_text};
use fields_table::FieldData;
use std::alloc::{AllocError, Global};
use std::fmt::Display;

/// The parts of a case: the type of the RDATA, its octets, and where among them it starts; the type
/// of RDATA that it is compared with, what precedes it in a record but its length; and a text of
/// lines. `has_texts` says that checks were of texts alone, which have no type.
#[derive(Drop)]
pub(crate) struct Case {
    pub(crate) rtype: Rtype,
    pub(crate) octets: Vec<u8>,
    pub(crate) start: usize,
    pub(crate) other: Option<Rtype>,
    pub(crate) header: Vec<u8>,
    pub(crate) lines: Vec<u8>,
    pub(crate) has_lines: bool,
    pub(crate) has_texts: bool,
}

impl Case {
    /// A case with no part yet.
    pub(crate) fn new(alloc: Global) -> Case {
        Case {
            rtype: Rtype::from_int(0),
            octets: Vec::new(alloc),
            start: 0,
            other: None,
            header: Vec::new(alloc),
            lines: Vec::new(alloc),
            has_lines: false,
            has_texts: false,
        }
    }

    /// Takes octets of a part after those that the case has.
    pub(crate) fn take_part(&mut self, key: Key, octets: &[u8]) -> Result<(), AllocError> {
        match key {
            Key::Line => self.take_text_line(octets),
            Key::LineOctets => self.lines.extend_from_slice(octets),
            Key::Header => self.header.extend_from_slice(octets),
            Key::After => {
                let taken = self.octets.extend_from_slice(octets);
                self.start = self.octets.len();
                taken
            }
            _ => self.octets.extend_from_slice(octets),
        }
    }

    /// Takes a further line of the text.
    fn take_text_line(&mut self, text: &[u8]) -> Result<(), AllocError> {
        if self.has_lines && self.lines.push(b'\n').is_err() {
            return Err(AllocError);
        }
        self.has_lines = true;
        self.lines.extend_from_slice(text)
    }

    /// Takes the lines away. The next line begins another text.
    pub(crate) fn end_lines(&mut self) {
        self.has_lines = false;
        self.lines.clear();
    }

    /// The octets of the RDATA.
    pub(crate) fn rdata(&self) -> &[u8] {
        self.octets.get(self.start..).unwrap_or(&[])
    }

    /// A parser at the start of the RDATA.
    fn parser(&self) -> Parser<'_> {
        let mut parser = Parser::new(self.octets.as_slice());
        match parser.advance(self.start) {
            Ok(()) => parser,
            Err(_) => Parser::new(&[]),
        }
    }

    /// The RDATA. An error if an octet is left over.
    pub(crate) fn data(&self) -> Result<FieldData<'_>, ParseError> {
        let mut parser = self.parser();
        let data = FieldData::parse_any_rdata(self.rtype, &mut parser);
        if data.is_ok() && parser.remaining() > 0 {
            return Err(ParseError::ShortInput);
        }
        data
    }

    /// The fields of the RDATA by name, or why there are none.
    pub(crate) fn fields(&self, alloc: Global) -> Result<String, AllocError> {
        match self.data() {
            Ok(data) => fields_text(alloc, &data),
            Err(error) => error.to_string(alloc),
        }
    }

    /// The text of the RDATA, or why there is none.
    pub(crate) fn text(&self, alloc: Global) -> Result<String, AllocError> {
        match self.data() {
            Ok(data) => DataText(&data).to_string(alloc),
            Err(error) => error.to_string(alloc),
        }
    }

    /// The digits of the RDATA as it is written, or why it can't be read.
    pub(crate) fn written(&self, alloc: Global) -> Result<String, AllocError> {
        digits_written(alloc, self.data())
    }

    /// The digits of the canonical form of the RDATA, or why it can't be read.
    pub(crate) fn canonical(&self, alloc: Global) -> Result<String, AllocError> {
        match self.data() {
            Ok(data) => {
                let mut target = Vec::new(alloc);
                let composed = data.compose_canonical_rdata(&mut target);
                digits_composed(alloc, target.as_slice(), composed)
            }
            Err(error) => error.to_string(alloc),
        }
    }

    /// Why the RDATA can't be read. Otherwise what is wrong.
    pub(crate) fn error(&self, alloc: Global) -> Result<String, AllocError> {
        let mut parser = self.parser();
        match FieldData::parse_any_rdata(self.rtype, &mut parser) {
            Ok(_) => String::from_str(alloc, "no error"),
            Err(_) if parser.pos() != self.start => String::from_str(alloc, "the parser moved"),
            Err(error) => error.to_string(alloc),
        }
    }

    /// The index of the field whose value an RFC rules out, and why; or why the RDATA can't be read.
    pub(crate) fn checked(&self, alloc: Global) -> Result<String, AllocError> {
        match self.data() {
            Ok(data) => match check_values(&data) {
                Ok(()) => String::from_str(alloc, "right"),
                Err(error) => format!(in alloc; "{} {}", error.field, error.reason),
            },
            Err(error) => error.to_string(alloc),
        }
    }

    /// The digits of the RDATA that words read as, or why they can't be read.
    pub(crate) fn read_words(&self, alloc: Global, words: &[&str]) -> Result<String, AllocError> {
        digits_written(alloc, from_text(alloc, self.rtype, words))
    }

    /// The first number of octets of the RDATA that are neither read and written as they were, nor
    /// end too early for a parser that doesn't move.
    pub(crate) fn cut(&self, alloc: Global) -> Result<String, AllocError> {
        for len in 0..self.rdata().len() {
            let cut = self.rdata().get(..len).unwrap_or(&[]);
            if !is_kept(alloc, self.rtype, cut) {
                return format!(in alloc; "not at {len} octets");
            }
        }
        String::from_str(alloc, "kept or short")
    }
}

/// The fields of RDATA by name. A vector is written, which fails only if memory is out.
fn fields_text(alloc: Global, data: &FieldData<'_>) -> Result<String, AllocError> {
    let mut shown = Vec::new(alloc);
    if write_values(alloc, &mut shown, data).is_err() {
        return Err(AllocError);
    }
    let text = std::str::from_utf8(shown.as_slice()).unwrap_or("octets that are no text");
    String::from_str(alloc, text.trim_ascii_start())
}

/// The digits of RDATA as it is written, or why there is none.
pub(crate) fn digits_written<D: ComposeRecordData + Drop, E: Display + Drop>(
    alloc: Global,
    data: Result<D, E>,
) -> Result<String, AllocError> {
    match data {
        Ok(data) => {
            let mut target = Vec::new(alloc);
            let composed = data.compose_rdata(&mut target);
            digits_composed(alloc, target.as_slice(), composed)
        }
        Err(error) => error.to_string(alloc),
    }
}

/// The digits of what was composed, or why it wasn't.
pub(crate) fn digits_composed(
    alloc: Global,
    octets: &[u8],
    composed: Result<(), AppendError>,
) -> Result<String, AllocError> {
    match composed {
        Ok(()) => hex::encode(alloc, octets),
        Err(error) => error.to_string(alloc),
    }
}

/// Whether octets are read and written as they were; or they end too early, and the parser doesn't
/// move.
fn is_kept(alloc: Global, rtype: Rtype, octets: &[u8]) -> bool {
    let mut parser = Parser::new(octets);
    match FieldData::parse_any_rdata(rtype, &mut parser) {
        Ok(data) => {
            let mut target = Vec::new(alloc);
            data.compose_rdata(&mut target).is_ok() && target.as_slice() == octets
        }
        Err(error) => matches!(error, ParseError::ShortInput) && parser.pos() == 0,
    }
}
