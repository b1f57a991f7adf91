//! A walk over a message that makes a row of each field (RFC 1035 sections 3.3 and 4.1, RFC 6891
//! section 6.1.2).
ghost use Rattle.std.specs.Prelude.{◌≡◌, ◌+◌, ◌<◌, ◌≤◌, ◌∷◌, ◌++◌, ℕ, [], IsNone, OnOk, IfOk, IfSome, IsTrue, Ok, ◌-◌, length, slice_get, slice_index, Some, None};
ghost use Rattle.std.specs.Int.{w16};
ghost use Rattle.dns_name.specs.Names.{fault_of, head_at, max_size, Faulty, Reads};
ghost use Rattle.dns_name.specs.declared.head.Head.TheVariants as Head;
ghost use Rattle.dns_name.specs.Parsers.{input, offset, seen, number_at};
ghost use Rattle.dns_code.specs.HeaderCounts.{counts};
ghost use Rattle.dns_code.specs.HeaderSection.{header_size};
ghost use Rattle.dnsview_rows.specs.Faults.{StopsName};
ghost use Rattle.dnsview_rows.specs.Fields.{items_at, IsField, field_row};
ghost use Rattle.dnsview_rows.specs.Forms.{form_at, rest_form};
ghost use Rattle.dnsview_rows.specs.Entries.{all_parts, class_rows, holds_records, item_row, number_rows, opt_rows};
ghost use Rattle.dnsview_rows.specs.Walks.{at, octets, items, sum_of, AreCountsOf, IsMarked, Comes, CutsFields, Adds, OnFault, OnFaultOf, LacksField, LacksFields, IsEnd, IsLabelAt, HasName, CoversAllLabels, CoversEnd, CoversName, CoversItemName, MissesName, MissesItemName, MissesOption, CoversNumbers, MarksItem, MarksStop, MarksFirst, MarksAmong, MarksParts, MarksData, MarksFields, MarksOptions, MarksWithin, StopsData, StopsFields, StopsOptions, StopsWithin, CoversAllTexts, CoversField, CoversOctets, CoversOption, MissesField, MissesOctets, MissesText};

use crate::form::Form;
use crate::row::{NameOf, Part, Row, RowFault, RowField};
use crate::tile;
use dns_code::{HeaderCounts, HeaderSection};
use dns_iana::{Class, Rtype};
use dns_name::{Head, ParsedName, Parser};
use dns_octets::ParseError;
use fields_table::{Kind, Shape, fields_of, layout_type};
use std::alloc::Global;

/// Why a walk ends early.
#[derive(Clone, Copy)]
pub(crate) enum Stop {
    Fault(RowFault),
    Memory,
}

/// An offset in a message, after its header section, with the rows of the fields before it.
#[derive(Drop)]
pub(crate) struct Walk<'a> {
    pub(crate) parser: Parser<'a>,
    pub(crate) rows: Vec<Row>,
}

impl<'a> Walk<'a> {
    /// A walk that begins after the header section.
    pub(crate) fn new(alloc: Global, octets: &'a [u8]) -> Self
        requires { header_size ≤ length octets.now }
        ensures marked { IsMarked result }
        ensures items { items result ≡ 0 }
        ensures rows { result.rows.items ≡ [] }
        ensures offset { at result ≡ header_size }
        ensures seen { seen result.parser ≡ octets.now }
        ensures input { input result.parser ≡ octets.now }
    {
        let mut parser = Parser::new(octets);
        parser.advance(HeaderSection::LEN).unwrap();
        Walk {
            parser,
            rows: Vec::new(alloc),
        }
    }

    /// Adds the row of a field from here to the offset of the parser `after`, and continues with
    /// that parser.
    fn mark(&mut self, after: Parser<'a>, field: RowField) -> Result<(), Stop>
        requires marked { IsMarked self.old }
        requires input { input after ≡ input self.old.parser }
        requires order { at self.old ≤ offset after }
        requires is_field { IsField (field_row (at self.old) (offset after) field) }
        ensures comes { Comes (items_at field) self.old self.new }
        ensures begins { OnOk result (items self.new ≡ items self.old + items_at field) }
        ensures adds { OnOk result (self.new.rows.items
            ≡ self.old.rows.items ++ field_row (at self.old) (offset after.entry) field ∷ []) }
        ensures moves { OnOk result (self.new.parser ≡ after.entry) }
        ensures never { OnFault result ⊥ }
    {
        let row = tile::field(self.parser.pos(), after.pos(), field);
        let Ok(()) = self.rows.push(row) else {
            return Err(Stop::Memory);
        };
        self.parser = after;
        Ok(())
    }

    /// Walks over a field of `n` octets.
    fn octets(&mut self, n: usize, field: RowField) -> Result<(), Stop>
        requires marked { IsMarked self.old }
        requires some { 0 < n }
        requires plain { items_at field ≡ 0 }
        ensures comes { Comes 0 self.old self.new }
        ensures adds { OnOk result (Adds (field_row (at self.old) (at self.old + n) field ∷ [])
            (at self.old + n) self.old self.new) }
        ensures within { OnOk result (at self.old + n ≤ length (octets self.old)) }
        ensures short { OnFaultOf result
            (LacksField field (octets self.old) (at self.old + n)) }
        ensures stays { OnFault result (self.new ≡ self.old) }
    {
        let mut after = self.parser;
        if after.advance(n).is_err() {
            return Err(Stop::Fault(RowFault::Short(field)));
        }
        self.mark(after, field)?;
        Ok(())
    }

    /// Walks over a field that is a 16-bit number, and returns the number.
    fn number(&mut self, field: RowField) -> Result<u16, Stop>
        requires marked { IsMarked self.old }
        requires plain { items_at field ≡ 0 }
        ensures comes { Comes 0 self.old self.new }
        ensures adds { OnOk result (Adds (field_row (at self.old) (at self.old + 2) field ∷ [])
            (at self.old + 2) self.old self.new) }
        ensures within { OnOk result (at self.old + 2 ≤ length (octets self.old)) }
        ensures number { IfOk result (λ n. n ≡ number_at w16 (octets self.old) (at self.old)) }
        ensures short { OnFaultOf result
            (LacksField field (octets self.old) (at self.old + 2)) }
        ensures stays { OnFault result (self.new ≡ self.old) }
    {
        let mut after = self.parser;
        let Ok(number) = after.parse_u16_be() else {
            return Err(Stop::Fault(RowFault::Short(field)));
        };
        self.mark(after, field)?;
        Ok(number)
    }

    /// Adds the row where an item begins, and walks over the name that the item begins with.
    fn item(&mut self, part: Part, number: usize, name: NameOf) -> Result<(), Stop>
        requires { IsMarked self.old }
        ensures comes { Comes 1 self.old self.new }
        ensures begins { OnOk result (items self.new ≡ items self.old + 1) }
        ensures covers { OnOk result
            (CoversItemName name (item_row part number (at self.old)) self.old self.new) }
        ensures misses { OnFaultOf result
            (MissesItemName name (item_row part number (at self.old)) self.old self.new) }
    {
        self.mark(self.parser, RowField::Item(part, number))?;
        self.name(name)
    }

    /// The octet at this offset, if there is one.
    fn first(&self) -> Option<u8>
        ensures { slice_get (octets self.now) (at self.now) ≡ result }
    {
        let octets = self.parser.peek(1).ok()?;
        Some(octets[0])
    }

    /// The octet after the one at this offset, if there is one.
    fn second(&self) -> Option<u8>
        ensures { slice_get (octets self.now) (at self.now + 1) ≡ result }
    {
        let octets = self.parser.peek(2).ok()?;
        Some(octets[1])
    }

    /// The octets that the walk sees: those up to the end of the parser.
    #[tactic(auto, using(crate::proofs::Names::whole_range))]
    fn seen_octets(&self) -> &'a [u8]
        ensures { result.now ≡ octets self.now }
    {
        let mut start = self.parser;
        start.seek(0).unwrap();
        start.peek(start.remaining()).unwrap()
    }

    /// What begins here in a name (RFC 1035 section 4.1.4).
    fn head(&self) -> Result<Head, ParseError>
        ensures { Reads result (head_at (octets self.now) (at self.now)) }
    {
        Head::at(self.seen_octets(), self.parser.pos())
    }

    /// The length of the label that begins here, after labels of `size` octets, without its length
    /// octet. Returns `None` if no label begins here, if it runs past the end, or if the name is
    /// too long with it.
    fn label_len(&self, size: usize) -> Option<usize>
        requires { size ≤ max_size }
        ensures some { IfSome result (λ len. IsLabelAt (octets self.now) (at self.now) size len) }
        ensures none { IsNone result → (len : ℕ)
            → IsLabelAt (octets self.now) (at self.now) size len → ⊥ }
    {
        let Ok(Head::Label(octet)) = self.head() else {
            return None;
        };
        let len = usize::from(octet);
        if len >= self.parser.remaining() || size + len >= Head::MAX_SIZE {
            return None;
        }
        Some(len)
    }

    /// Walks over the labels that begin here, up to what is no label of the name.
    fn labels(&mut self, name: NameOf) -> Result<(), Stop>
        requires { IsMarked self.old }
        ensures comes { Comes 0 self.old self.new }
        ensures covers { OnOk result (CoversAllLabels name self.old self.new) }
        ensures never { OnFault result ⊥ }
    {
        let mut size = 0;
        'labels: while let Some(len) = self.label_len(size) {
            self.octets(len + 1, RowField::Label(name))?;
            size += len + 1;
        }
        Ok(())
    }

    /// Walks over a name: its labels, and the root label or pointer that ends it.
    fn name(&mut self, name: NameOf) -> Result<(), Stop>
        requires { IsMarked self.old }
        ensures comes { Comes 0 self.old self.new }
        ensures covers { OnOk result (CoversName name self.old self.new) }
        ensures misses { OnFaultOf result (MissesName name self.old self.new) }
    {
        let start = self.parser.pos();
        let mut after = self.parser;
        let parsed = ParsedName::parse(&mut after);
        self.labels(name)?;
        match parsed {
            Ok(_) => self.end_name(after, name, start),
            Err(error) => Err(Stop::Fault(self.name_fault(name, start, error))),
        }
    }

    /// Walks over the root label or pointer that ends a name here. The name begins at `start`, and
    /// ends at the offset of the parser `after`.
    fn end_name(&mut self, after: Parser<'a>, name: NameOf, start: usize) -> Result<(), Stop>
        requires marked { IsMarked self.old }
        requires input { input after ≡ input self.old.parser }
        requires seen { seen after ≡ octets self.old }
        requires ends { IsEnd (octets self.old) (at self.old) (offset after) }
        ensures comes { Comes 0 self.old self.new }
        ensures covers { OnOk result (CoversEnd name start (offset after.entry) self.old self.new) }
        ensures never { OnFault result ⊥ }
    {
        match self.first() {
            Some(0) => self.mark(after, RowField::Root(name, start)),
            _ => self.mark(after, RowField::Pointer(name, start)),
        }
    }

    /// Why a name that begins at `start` can't be read further than here, after its labels, if
    /// reading it fails with this error.
    fn name_fault(&self, name: NameOf, start: usize, error: ParseError) -> RowFault
        requires fails { Faulty (octets self.now) (at self.now) (at self.now - start)
            (fault_of error) }
        requires none { (n : ℕ)
            → IsLabelAt (octets self.now) (at self.now) (at self.now - start) n → ⊥ }
        ensures { StopsName (octets self.now) name start (at self.now) result }
    {
        match self.head() {
            Ok(head) => match head {
                Head::Pointer(target) => self.pointer_fault(usize::from(target)),
                _ => match error {
                    ParseError::ShortInput => RowFault::Short(RowField::Label(name)),
                    ParseError::Form(_) => RowFault::LongName,
                },
            },
            Err(ParseError::Form(_)) => RowFault::Label,
            Err(ParseError::ShortInput) if self.parser.remaining() == 0 => {
                RowFault::Short(RowField::Label(name))
            }
            Err(ParseError::ShortInput) => RowFault::Short(RowField::Pointer(name, start)),
        }
    }

    /// Why a name can't be read at the pointer that begins here and leads to `target`.
    ///
    /// If a name can be read at the target, this name is too long with it.
    fn pointer_fault(&self, target: usize) -> RowFault
        requires { head_at (octets self.now) (at self.now) ≡ Ok (Head.Pointer target) }
        ensures { (of : NameOf) (start : ℕ)
            → StopsName (octets self.now) of start (at self.now) result }
    {
        if target >= self.parser.pos() {
            RowFault::Pointer
        } else if self.has_name(target) {
            RowFault::LongPointer
        } else {
            RowFault::After
        }
    }

    /// Whether a name can be read at this offset.
    fn has_name(&self, offset: usize) -> bool
        requires { offset ≤ length (octets self.now) }
        ensures { HasName (octets self.now) offset result }
    {
        let mut there = self.parser;
        there.seek(offset).is_ok() && ParsedName::parse(&mut there).is_ok()
    }

    /// Walks over the items of all sections, as many as the header section counts.
    pub(crate) fn items(&mut self, all: HeaderCounts) -> Result<(), Stop>
        requires marked { IsMarked self.old }
        requires start { at self.old ≡ header_size }
        requires counts { AreCountsOf (octets self.old) (counts all) }
        ensures comes { Comes (sum_of (counts all)) self.old self.new }
        ensures begins { OnOk result (items self.new ≡ items self.old + sum_of (counts all)) }
        ensures shows { OnOk result (MarksParts all_parts None self.old self.new) }
        ensures stops { OnFaultOf result
            (λ fault. MarksParts all_parts (Some fault) self.old self.new) }
    {
        self.questions(all.qdcount())?;
        self.records(Part::Answer, all.ancount())?;
        self.records(Part::Authority, all.nscount())?;
        self.records(Part::Additional, all.arcount())?;
        Ok(())
    }

    /// Walks over the questions, as many as the header counts.
    fn questions(&mut self, count: u16) -> Result<(), Stop>
        requires { IsMarked self.old }
        ensures comes { Comes count self.old self.new }
        ensures begins { OnOk result (items self.new ≡ items self.old + count) }
        ensures shows { OnOk result (MarksFirst Part.Question count self.old self.new) }
        ensures stops { OnFaultOf result (MarksAmong Part.Question count self.old self.new) }
    {
        for index in 0..usize::from(count) {
            self.question(index + 1)?;
        }
        Ok(())
    }

    fn question(&mut self, number: usize) -> Result<(), Stop>
        requires { IsMarked self.old }
        ensures comes { Comes 1 self.old self.new }
        ensures begins { OnOk result (items self.new ≡ items self.old + 1) }
        ensures shows { OnOk result (MarksItem Part.Question number self.old self.new) }
        ensures stops { OnFaultOf result (MarksStop Part.Question number self.old self.new) }
    {
        self.item(Part::Question, number, NameOf::Question)?;
        self.number(RowField::Type)?;
        self.number(RowField::Class)?;
        Ok(())
    }

    /// Walks over the records of a section, as many as the header counts.
    fn records(&mut self, part: Part, count: u16) -> Result<(), Stop>
        requires marked { IsMarked self.old }
        requires part { IsTrue (holds_records part) }
        ensures comes { Comes count self.old self.new }
        ensures begins { OnOk result (items self.new ≡ items self.old + count) }
        ensures shows { OnOk result (MarksFirst part count self.old self.new) }
        ensures stops { OnFaultOf result (MarksAmong part count self.old self.new) }
    {
        for index in 0..usize::from(count) {
            self.record(part, index + 1)?;
        }
        Ok(())
    }

    fn record(&mut self, part: Part, number: usize) -> Result<(), Stop>
        requires marked { IsMarked self.old }
        requires part { IsTrue (holds_records part) }
        ensures comes { Comes 1 self.old self.new }
        ensures begins { OnOk result (items self.new ≡ items self.old + 1) }
        ensures shows { OnOk result (MarksItem part number self.old self.new) }
        ensures stops { OnFaultOf result (MarksStop part number self.old self.new) }
    {
        self.item(part, number, NameOf::Owner)?;
        match self.record_fields() {
            Ok(numbers) => {
                let len = usize::from(numbers.2);
                let rtype = layout_type(numbers.0, Class::from_int(numbers.1), len);
                self.within(rtype, len)?;
                Ok(())
            }
            Err(stop) => Err(stop),
        }
    }

    /// Walks over the ten octets after the owner of a record, and returns the record's type, class
    /// and RDLENGTH.
    fn record_fields(&mut self) -> Result<(Rtype, u16, u16), Stop>
        requires { IsMarked self.old }
        ensures comes { Comes 0 self.old self.new }
        ensures covers { IfOk result
            (λ numbers. CoversNumbers numbers.0 numbers.1 numbers.2 self.old self.new) }
        ensures short { OnFaultOf result (LacksFields (octets self.old) (at self.old + 10)) }
        ensures cuts { OnFaultOf result (CutsFields (number_rows
            (number_at w16 (octets self.old) (at self.old)) (at self.old)) self.old self.new) }
    {
        let rtype = Rtype::from_int(self.number(RowField::Type)?);
        let class = self.class_and_ttl(rtype)?;
        let len = self.number(RowField::RdLength)?;
        Ok((rtype, class, len))
    }

    /// Walks over the fields between TYPE and RDLENGTH of a record, and returns its class, in place
    /// of which an OPT record has the UDP payload size.
    fn class_and_ttl(&mut self, rtype: Rtype) -> Result<u16, Stop>
        requires { IsMarked self.old }
        ensures comes { Comes 0 self.old self.new }
        ensures class { IfOk result
            (λ class. class ≡ number_at w16 (octets self.old) (at self.old)) }
        ensures adds { OnOk result (Adds (class_rows rtype (at self.old))
            (at self.old + 6) self.old self.new) }
        ensures short { OnFaultOf result (LacksFields (octets self.old) (at self.old + 6)) }
        ensures cuts { OnFaultOf result
            (CutsFields (class_rows rtype (at self.old)) self.old self.new) }
    {
        if rtype == Rtype::OPT {
            return self.opt_fields();
        }
        let class = self.number(RowField::Class)?;
        self.octets(4, RowField::Ttl)?;
        Ok(class)
    }

    /// Walks over the fields that an OPT record has there, and returns the UDP payload size (RFC
    /// 6891 section 6.1.2).
    fn opt_fields(&mut self) -> Result<u16, Stop>
        requires { IsMarked self.old }
        ensures comes { Comes 0 self.old self.new }
        ensures size { IfOk result
            (λ size. size ≡ number_at w16 (octets self.old) (at self.old)) }
        ensures adds { OnOk result (Adds (opt_rows (at self.old))
            (at self.old + 6) self.old self.new) }
        ensures short { OnFaultOf result (LacksFields (octets self.old) (at self.old + 6)) }
        ensures cuts { OnFaultOf result (CutsFields (opt_rows (at self.old)) self.old self.new) }
    {
        let size = self.number(RowField::PayloadSize)?;
        self.octets(1, RowField::ExtendedRcode)?;
        self.octets(1, RowField::Version)?;
        self.octets(2, RowField::OptFlags)?;
        Ok(size)
    }

    /// Walks over the RDATA of a record, of `len` octets.
    fn within(&mut self, rtype: Rtype, len: usize) -> Result<(), Stop>
        requires { IsMarked self.old }
        ensures comes { Comes 0 self.old self.new }
        ensures there { OnOk result (at self.old + len ≤ length (octets self.old)) }
        ensures seen { OnOk result (octets self.new ≡ octets self.old) }
        ensures offset { OnOk result (at self.new ≡ at self.old + len) }
        ensures shows { OnOk result (MarksWithin rtype len None self.old self.new) }
        ensures stops { OnFaultOf result (StopsWithin rtype len self.old self.new) }
    {
        let mut after = self.parser;
        let Ok(inner) = after.parse_parser(len) else {
            return Err(Stop::Fault(RowFault::Short(RowField::Data)));
        };
        self.parser = inner;
        self.data(rtype)?;
        if self.parser.pos() != after.pos() {
            return Err(Stop::Fault(RowFault::Trailing));
        }
        self.parser = after;
        Ok(())
    }

    /// Walks over the RDATA of a record, up to the end of the parser.
    fn data(&mut self, rtype: Rtype) -> Result<(), Stop>
        requires { IsMarked self.old }
        ensures comes { Comes 0 self.old self.new }
        ensures sees { OnOk result (octets self.new ≡ octets self.old) }
        ensures shows { OnOk result (MarksData rtype None self.old self.new) }
        ensures stops { OnFaultOf result (StopsData rtype self.old self.new) }
    {
        if rtype != Rtype::OPT {
            return self.fields(fields_of(rtype.to_int()));
        }
        self.options()
    }

    /// Walks over fields of RDATA, in order.
    fn fields(&mut self, fields: &'static [(&'static str, Kind)]) -> Result<(), Stop>
        requires { IsMarked self.old }
        ensures comes { Comes 0 self.old self.new }
        ensures sees { OnOk result (octets self.new ≡ octets self.old) }
        ensures shows { OnOk result (MarksFields fields.now None self.old self.new) }
        ensures stops { OnFaultOf result (StopsFields fields.now self.old self.new) }
    {
        let [field, after @ ..] = fields else {
            return Ok(());
        };
        self.field(field.0, field.1)?;
        self.fields(after)
    }

    /// Walks over a field of RDATA, with this name and this kind.
    fn field(&mut self, name: &'static str, kind: Kind) -> Result<(), Stop>
        requires { IsMarked self.old }
        ensures comes { Comes 0 self.old self.new }
        ensures covers { OnOk result (CoversField (name.entry, kind) self.old self.new) }
        ensures misses { OnFaultOf result (MissesField (name.entry, kind) self.old self.new) }
    {
        match self.form(kind) {
            Form::Name => self.name(NameOf::Field(name)),
            Form::Texts => self.texts(),
            Form::Octets(n) => self.some_octets(n, RowField::Named(name, kind)),
        }
    }

    /// How a field of this kind that begins here is shown.
    fn form(&self, kind: Kind) -> Form
        ensures { result ≡ form_at (octets self.now) (at self.now) kind }
    {
        match kind.shape() {
            Shape::Octets(n) => Form::Octets(n),
            Shape::Counted => Form::Octets(1 + self.first_or_zero()),
            Shape::Sized => Form::Octets(2 + (self.first_or_zero() * 256 + self.second_or_zero())),
            Shape::Name | Shape::UncompressedName(_, _) => Form::Name,
            Shape::Rest => self.rest_form(kind),
        }
    }

    /// How a field of this kind that takes all remaining octets is shown.
    fn rest_form(&self, kind: Kind) -> Form
        ensures { result ≡ rest_form (octets self.now) (at self.now) kind }
    {
        match kind {
            Kind::Strings => Form::Texts,
            _ => Form::Octets(self.parser.remaining()),
        }
    }

    /// The octet at this offset, or 0 if there is none.
    fn first_or_zero(&self) -> usize
        ensures octet { result ≡ slice_index (octets self.now) (at self.now) }
        ensures small { result < 256 }
    {
        usize::from(self.first().unwrap_or(0))
    }

    /// The octet after the one at this offset, or 0 if there is none.
    fn second_or_zero(&self) -> usize
        ensures octet { result ≡ slice_index (octets self.now) (at self.now + 1) }
        ensures small { result < 256 }
    {
        usize::from(self.second().unwrap_or(0))
    }

    /// Walks over a field of `n` octets, which has no row if `n` is 0.
    fn some_octets(&mut self, n: usize, field: RowField) -> Result<(), Stop>
        requires marked { IsMarked self.old }
        requires plain { items_at field ≡ 0 }
        ensures comes { Comes 0 self.old self.new }
        ensures covers { OnOk result (CoversOctets field n self.old self.new) }
        ensures misses { OnFaultOf result (MissesOctets field n self.old self.new) }
    {
        match n {
            0 => Ok(()),
            len => self.octets(len, field),
        }
    }

    /// Walks over character strings, up to the end of the parser (RFC 1035 section 3.3.14).
    fn texts(&mut self) -> Result<(), Stop>
        requires { IsMarked self.old }
        ensures comes { Comes 0 self.old self.new }
        ensures covers { OnOk result (CoversAllTexts self.old self.new) }
        ensures misses { OnFaultOf result (MissesText self.old self.new) }
    {
        'texts: while let Some(len) = self.first() {
            self.octets(1 + usize::from(len), RowField::Text)?;
        }
        Ok(())
    }

    /// Walks over the options of an OPT record (RFC 6891 section 6.1.2).
    fn options(&mut self) -> Result<(), Stop>
        requires { IsMarked self.old }
        ensures comes { Comes 0 self.old self.new }
        ensures sees { OnOk result (octets self.new ≡ octets self.old) }
        ensures shows { OnOk result (MarksOptions None self.old self.new) }
        ensures stops { OnFaultOf result (StopsOptions self.old self.new) }
    {
        'options: while self.parser.remaining() > 0 {
            self.option()?;
        }
        Ok(())
    }

    fn option(&mut self) -> Result<(), Stop>
        requires { IsMarked self.old }
        ensures comes { Comes 0 self.old self.new }
        ensures sees { OnOk result (octets self.new ≡ octets self.old) }
        ensures covers { OnOk result (CoversOption self.old self.new) }
        ensures stops { OnFaultOf result (MissesOption self.old self.new) }
    {
        let code = self.number(RowField::OptionCode)?;
        match self.number(RowField::OptionLength(code))? {
            0 => Ok(()),
            len => {
                self.octets(usize::from(len), RowField::OptionData(code))?;
                Ok(())
            }
        }
    }
}
