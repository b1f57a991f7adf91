//! Whole records, as octets and as lines of a zone file.
use crate::case::{Case, digits_composed};
use crate::key::Key;
use crate::orders::order_shown;
use dns_item::{ComposeRecord, ParsedRecord, Record};
use dns_wire::{ParseError, ParsedName, Parser};
use fields_records::{RecordText, read_record};
use fields_table::FieldData;
use std::alloc::{AllocError, Global};

/// A record with its RDATA as fields.
type FieldRecord<'a> = Record<ParsedName<'a>, FieldData<'a>>;

/// The record at an offset, after which nothing is left.
fn record_at(octets: &[u8], start: usize) -> Result<FieldRecord<'_>, ParseError> {
    let mut parser = Parser::new(octets);
    parser.advance(start)?;
    let record = ParsedRecord::parse(&mut parser)?;
    if parser.remaining() > 0 {
        return Err(ParseError::ShortInput);
    }
    record.into_any_record::<FieldData<'_>>()
}

impl Case {
    /// The octets of the message up to the end of the record.
    fn message(&self, alloc: Global) -> Result<Vec<u8>, AllocError> {
        let rdata = self.rdata();
        let len = u16::try_from(rdata.len()).unwrap_or(u16::MAX);
        let front = self.octets.get(..self.start).unwrap_or(&[]);
        joined(
            alloc,
            front,
            self.header.as_slice(),
            &len.to_be_bytes(),
            rdata,
        )
    }

    /// The digits of the record.
    pub(crate) fn record_digits(&self, alloc: Global) -> Result<String, AllocError> {
        let message = self.message(alloc)?;
        hex::encode(alloc, message.as_slice().get(self.start..).unwrap_or(&[]))
    }

    /// The line of the record, or why it can't be read.
    pub(crate) fn record_text(&self, alloc: Global) -> Result<String, AllocError> {
        let message = self.message(alloc)?;
        match record_at(message.as_slice(), self.start) {
            Ok(record) => RecordText(&record).to_string(alloc),
            Err(error) => error.to_string(alloc),
        }
    }

    /// How the record compares with that of these octets, or why one can't be read.
    pub(crate) fn record_order(
        &self,
        alloc: Global,
        key: Key,
        octets: &[u8],
    ) -> Result<String, AllocError> {
        let message = self.message(alloc)?;
        let record = record_at(message.as_slice(), self.start);
        order_shown(alloc, key, record, record_at(octets, 0))
    }
}

/// The octets of the four parts, in order.
fn joined<'a>(
    alloc: Global,
    front: &'a [u8],
    header: &'a [u8],
    len: &'a [u8],
    rdata: &'a [u8],
) -> Result<Vec<u8>, AllocError> {
    [front, header, len, rdata].concat(alloc)
}

/// The digits of the record that words read as, or why they read as none.
pub(crate) fn record_of_words(alloc: Global, words: &[&str]) -> Result<String, AllocError> {
    match read_record(alloc, words) {
        Ok(record) => {
            let mut octets = Vec::new(alloc);
            let composed = record.compose_record(&mut octets);
            digits_composed(alloc, octets.as_slice(), composed)
        }
        Err(error) => error.to_string(alloc),
    }
}
