//! Converts what the library returns to plain values, which the plain reader returns too.
use crate::hostile::buffer::{Buffer, CAPACITY};
use crate::hostile::plain::{Entry, Header};
use arrayvec::ArrayVec;
use dns_code::{Class, HeaderSection, Rtype};
use dns_data::{ComposeRecordData, UnknownRecordData};
use dns_item::{ParsedRecord, Question, Record, RecordHeader, Ttl};
use dns_read::{RecordSection, Section};
use dns_wire::{Name, ParseError, ParsedName, ToName};
use std::fmt::Debug;

/// RDATA as opaque octets.
pub(crate) type Opaque<'a> = UnknownRecordData<&'a [u8]>;

/// What the library returns, which has a plain value.
pub(crate) trait Given {
    type Plain: Copy + Debug + PartialEq;

    /// The plain value.
    fn plain(&self) -> Self::Plain;
}

impl<T: Given> Given for Option<T> {
    type Plain = Option<T::Plain>;

    fn plain(&self) -> Self::Plain {
        match self {
            Some(given) => Some(given.plain()),
            None => None,
        }
    }
}

impl<T: Given> Given for Result<T, ParseError> {
    type Plain = Result<T::Plain, ParseError>;

    fn plain(&self) -> Self::Plain {
        match self {
            Ok(given) => Ok(given.plain()),
            Err(error) => Err(*error),
        }
    }
}

impl Given for ParsedName<'_> {
    type Plain = Buffer;

    fn plain(&self) -> Buffer {
        let mut name = Buffer::new();
        for label in self.iter_labels() {
            let len = (label.len() & 0xff) as u8;
            name = name.with(&[len]).with(label.as_slice());
        }
        name
    }
}

/// A name is its labels, and its octets.
impl Given for Name<&[u8]> {
    type Plain = [Buffer; 2];

    fn plain(&self) -> [Buffer; 2] {
        [self.as_parsed().plain(), Buffer::of(self.as_slice())]
    }
}

/// An entry with these fields.
fn entry_of(name: &ParsedName<'_>, rtype: Rtype, class: Class, ttl: u32, data: Buffer) -> Entry {
    Entry {
        name: name.plain(),
        rtype: rtype.to_int(),
        class: class.to_int(),
        ttl,
        data,
    }
}

impl Given for Question<ParsedName<'_>> {
    type Plain = Entry;

    fn plain(&self) -> Entry {
        let data = Buffer::new();
        entry_of(self.qname(), self.qtype(), self.qclass(), 0, data)
    }
}

impl Given for RecordHeader<ParsedName<'_>> {
    type Plain = Header;

    fn plain(&self) -> Header {
        let ttl = self.ttl().as_secs();
        let header = entry_of(self.owner(), self.rtype(), self.class(), ttl, Buffer::new());
        (header, self.rdlen())
    }
}

/// The RDATA, its names uncompressed. No RDATA of a message here is too long for a buffer.
pub(crate) fn expanded<D: ComposeRecordData>(data: &D) -> Buffer {
    let mut octets: ArrayVec<u8, CAPACITY> = ArrayVec::new();
    match data.compose_rdata(&mut octets) {
        Ok(()) => Buffer::of(octets.as_slice()),
        Err(_) => Buffer::of(b"too long"),
    }
}

impl<'a> Given for ParsedRecord<'a> {
    type Plain = Entry;

    fn plain(&self) -> Entry {
        let data = match self.to_any_record::<Opaque<'a>>() {
            Ok(record) => expanded(record.data()),
            Err(_) => Buffer::of(b"no data"),
        };
        let ttl = self.ttl().as_secs();
        entry_of(&self.owner(), self.rtype(), self.class(), ttl, data)
    }
}

impl<D: ComposeRecordData> Given for Record<ParsedName<'_>, D> {
    type Plain = Entry;

    fn plain(&self) -> Entry {
        let ttl = self.ttl().as_secs();
        let data = expanded(self.data());
        entry_of(self.owner(), self.rtype(), self.class(), ttl, data)
    }
}

/// What is skipped has no value.
impl Given for () {
    type Plain = ();

    fn plain(&self) {}
}

/// A TTL is its four octets.
impl Given for Ttl {
    type Plain = Buffer;

    fn plain(&self) -> Buffer {
        Buffer::of(&self.as_secs().to_be_bytes())
    }
}

/// A header section is its twelve octets.
impl Given for HeaderSection {
    type Plain = Buffer;

    fn plain(&self) -> Buffer {
        Buffer::of(self.as_slice())
    }
}

/// A cursor is its offset.
impl Given for RecordSection<'_> {
    type Plain = usize;

    fn plain(&self) -> usize {
        self.pos()
    }
}

/// A record of a message comes with the number of its section.
impl Given for (ParsedRecord<'_>, Section) {
    type Plain = (u8, Entry);

    fn plain(&self) -> (u8, Entry) {
        let section = match self.1 {
            Section::Answer => 1,
            Section::Authority => 2,
            Section::Additional => 3,
        };
        (section, self.0.plain())
    }
}
