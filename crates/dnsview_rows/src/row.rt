//! Rows, and what their octets are.
use fields_table::Kind;

/// Consecutive octets of a message, from offset `start` up to but not including `end`.
#[derive(Clone, Copy, Debug, PartialEq, Eq)]
pub struct Row {
    pub start: usize,
    pub end: usize,
    pub kind: RowKind,
}

/// What the octets of a row are.
#[derive(Clone, Copy, Debug, PartialEq, Eq)]
pub enum RowKind {
    /// All octets, if they are fewer than the 12 of a header section.
    ShortHeader,
    /// A field that can be read.
    Field(RowField),
    /// No octets: the field that begins here can't be read.
    Fault(RowFault),
    /// The octets after the last field that can be read.
    Unread,
}

impl RowKind {
    ghost use Rattle.std.specs.Prelude.{◌≡◌};
    ghost use Rattle.dnsview_rows.specs.Rows.{is_item, is_pointer};

    /// Whether an item begins here.
    pub fn is_item(self) -> bool
        ensures { result ≡ is_item self }
    {
        matches!(self, RowKind::Field(RowField::Item(_, _)))
    }

    /// Whether the octets are a compression pointer.
    pub fn is_pointer(self) -> bool
        ensures { result ≡ is_pointer self }
    {
        matches!(self, RowKind::Field(RowField::Pointer(_, _)))
    }
}

/// A section of a message (RFC 1035 section 4.1).
#[derive(Clone, Copy, Debug, PartialEq, Eq)]
pub enum Part {
    Question,
    Answer,
    Authority,
    Additional,
}

/// Which name of an item this is (RFC 1035 sections 3.3 and 4.1).
#[derive(Clone, Copy, Debug, PartialEq, Eq)]
pub enum NameOf {
    /// QNAME of a question.
    Question,
    /// The owner of a record.
    Owner,
    /// The name that is this field of RDATA, by the field's name in `fields_table::fields_of`.
    Field(&'static str),
}

/// A field of a message, or a part of one.
#[derive(Clone, Copy, Debug, PartialEq, Eq)]
pub enum RowField {
    /// The ID of the header.
    Id,
    /// The other 2 octets of the header: the flags, the opcode and the RCODE.
    Flags,
    /// The count of items in a section.
    Count(Part),
    /// No octets: an item of a section begins here. Items are numbered from 1.
    Item(Part, usize),
    /// A label with its length octet.
    Label(NameOf),
    /// The root label that ends a name, with the offset where the name begins.
    Root(NameOf, usize),
    /// The compression pointer that ends a name, with the offset where the name begins.
    Pointer(NameOf, usize),
    /// TYPE of a record, or QTYPE of a question.
    Type,
    /// CLASS of a record, or QCLASS of a question.
    Class,
    /// TTL of a record, in seconds.
    Ttl,
    /// RDLENGTH of a record.
    RdLength,
    /// RDATA as a whole.
    Data,
    /// A field of RDATA that isn't a name, with its name and its kind in `fields_table::fields_of`.
    /// Types that aren't in the table have one such field, `data`. A field of no octets has no row.
    Named(&'static str, Kind),
    /// A character string with its length octet, in a field of character strings.
    Text,
    /// The UDP payload size in octets, which an OPT record has as its CLASS.
    PayloadSize,
    /// The upper 8 bits of the extended RCODE in an OPT record.
    ExtendedRcode,
    /// The EDNS version in an OPT record.
    Version,
    /// DO and the 15 reserved bits of an OPT record.
    OptFlags,
    /// The code of an option.
    OptionCode,
    /// The length of the option with this code.
    OptionLength(u16),
    /// The data of the option with this code.
    OptionData(u16),
}

/// Why a field can't be read.
#[derive(Clone, Copy, Debug, PartialEq, Eq)]
pub enum RowFault {
    /// The message or the RDATA ends before the field does.
    Short(RowField),
    /// The octet has the high bits 01 or 10, so it begins no label.
    Label,
    /// The name exceeds 255 octets with this label.
    LongName,
    /// The pointer doesn't lead back.
    Pointer,
    /// The pointer leads to octets from which no name can be read.
    After,
    /// The pointer leads to a name with which this one exceeds 255 octets.
    LongPointer,
    /// Octets follow the last field of the RDATA.
    Trailing,
}
