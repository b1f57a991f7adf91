//! Names, items and messages as they are written (RFC 1035 section 4.1). A name is given as its
//! uncompressed octets.
ghost use Rattle.std.specs.Prelude.{[], ◌≡◌, ◌++◌, nat_lt, drop, ◌+◌, ◌<◌, ◌≤◌, ◌^◌, length, map, IfSome, OnOk, IfOk, option_map};
ghost use Rattle.std.specs.FinMap.{get};
ghost use Rattle.std.specs.List.{list_all, AllZip};
ghost use Rattle.std.specs.Int.{to_be_bytes, w16};
ghost use Rattle.dns_name.specs.Names.{Labels, pointer_end};
ghost use Rattle.dns_wire.specs.Encoders.{CompressionTable, may_enter, encode_name, with_length};
ghost use Rattle.dns_wire.specs.Parts.{encode_part, encode_parts};
ghost use Rattle.dns_wire.specs.Targets.{with_empty_table};
ghost use Rattle.dns_item.specs.Questions.{encode_question};
ghost use Rattle.dns_item.specs.Items.{encode_record};
ghost use Rattle.dns_build.specs.State.{State, all_of, encode};
ghost use Rattle.tests_plain.specs.PlainNames.{rule_of, IsNamed, SplitsFirst, ListsTable, Compresses, Represents, Appends};
ghost use Rattle.tests_plain.specs.PlainItems.{IsPart, IsQuestionItem, IsRecordItem, HasItems};

use std::alloc::{AllocError, Global};

/// A rule by which names are compressed (RFC 1035 section 4.1.4): that of a target that doesn't
/// compress, or of a static, tree or hash compressor.
#[derive(Clone, Copy)]
pub enum PlainRule {
    Plain,
    Static,
    Tree,
    Hash,
}

/// A part of RDATA: octets, or a name that may be compressed. A name that never is (RFC 3597
/// section 4) is octets. Nothing is said of what is written for a name that is none.
#[derive(Clone, Copy)]
pub enum PlainPart<'a> {
    Octets(&'a [u8]),
    CompressibleName(&'a [u8]),
}

/// A question (RFC 1035 section 4.1.2), which has neither a TTL nor parts, or a record (section
/// 4.1.3). The TTL is in seconds. Nothing is said of an item whose `name`, or a name among whose
/// parts, is no name.
#[derive(Clone, Copy)]
pub struct PlainItem<'a> {
    pub name: &'a [u8],
    pub rtype: u16,
    pub class: u16,
    pub ttl: Option<u32>,
    pub parts: &'a [PlainPart<'a>],
}

/// A message: the four octets before the counts, and the items of the sections.
#[derive(Clone, Copy)]
pub struct PlainMessage<'a> {
    pub header: [u8; 4],
    pub questions: &'a [PlainItem<'a>],
    pub answers: &'a [PlainItem<'a>],
    pub authorities: &'a [PlainItem<'a>],
    pub additionals: &'a [PlainItem<'a>],
}

/// A suffix that is written as labels, and its offset.
#[derive(Drop)]
struct Suffix {
    name: Vec<u8>,
    offset: usize,
}

/// The suffixes of a name that may enter the table, the longest first.
type Suffixes = Result<Vec<Suffix>, AllocError>;

/// Octets, and the table of the suffixes in them, the newest first.
#[derive(Drop)]
pub struct PlainTarget {
    pub octets: Vec<u8>,
    table: Vec<Suffix>,
}

/// Returns the first label with its length octet, and the name after it; none for the root.
fn first_label(name: &[u8]) -> Option<(&[u8], &[u8])>
    ensures sizes { IfSome result (λ parts. (1 ≤ length parts.0.now)
        × (length parts.0.now + length parts.1.now ≡ length name.now)) }
    ensures parts { (labels : Labels) → IsNamed name.now labels → SplitsFirst labels result }
{
    let len = usize::from(*name.first()?);
    if len == 0 || name.len() <= len {
        return None;
    }
    Some(name.split_at(len + 1))
}

/// Returns the offset of a name in the table, whose newest entry is the first.
fn find(table: &[Suffix], name: &[u8]) -> Option<usize>
    ensures { (labels : Labels) (m : CompressionTable) → IsNamed name.now labels
        → ListsTable table.now m → result ≡ option_map (λ entry. entry.offset) (get m labels) }
{
    let (first, older) = table.split_first()?;
    if first.name.as_slice() == name {
        return Some(first.offset);
    }
    find(older, name)
}

/// Whether a suffix at an offset may enter a table with this number of entries.
fn may_enter(rule: PlainRule, offset: usize, entry_count: usize) -> bool
    ensures { result ≡ may_enter (rule_of rule) offset entry_count }
{
    match rule {
        PlainRule::Plain => false,
        PlainRule::Static => offset < 16384 && entry_count < 24,
        PlainRule::Tree => offset < 16384,
        PlainRule::Hash => true,
    }
}

/// Appends a number in two octets, big-endian. Of a greater number, the lower 16 bits.
fn push_number(octets: &mut Vec<u8>, number: usize) -> Result<(), AllocError>
    ensures { OnOk result (octets.new.items ≡ octets.old.items ++ to_be_bytes w16 number) }
{
    octets.extend_from_slice(&((number % 65536) as u16).to_be_bytes())
}

impl PlainTarget {
    /// Makes an empty target.
    pub fn new(alloc: Global) -> Self
        ensures { Represents result (with_empty_table []) }
    {
        let (octets, table) = (Vec::new(alloc), Vec::new(alloc));
        PlainTarget { octets, table }
    }

    /// Appends a name as it is compressed while the table has `count` entries, and keeps the table.
    /// Returns the suffixes of the name that may enter it.
    fn compress(&mut self, rule: PlainRule, name: &[u8], count: usize) -> Suffixes
        requires { count + length name.now < 2 ^ 64 }
        ensures table { OnOk result (self.new.table ≡ self.old.table) }
        ensures octets { IfOk result (λ suffixes.
            Compresses (rule_of rule) name.now count self.old
            self.new.octets.items suffixes.items) }
    {
        let (alloc, offset) = (*self.octets.allocator(), self.octets.len());
        let Some((label, parent)) = first_label(name) else {
            self.octets.push(0)?;
            return Ok(Vec::new(alloc));
        };
        if let Some(earlier) = find(&self.table, name) {
            self.octets.push(192 + (earlier / 256 % 64) as u8)?;
            self.octets.push((earlier % 256) as u8)?;
            return Ok(Vec::new(alloc));
        }
        if !may_enter(rule, offset, count) {
            self.octets.extend_from_slice(name)?;
            return Ok(Vec::new(alloc));
        }
        self.octets.extend_from_slice(label)?;
        let mut suffixes = self.compress(rule, parent, count + 1)?;
        let name = Vec::from_slice(alloc, name)?;
        suffixes.insert(0, Suffix { name, offset })?;
        Ok(suffixes)
    }

    /// Appends a name by a rule. Nothing is said of octets that are no name.
    pub fn push_name(&mut self, rule: PlainRule, name: &[u8]) -> Result<(), AllocError>
        ensures { OnOk result
            (Appends (IsNamed name.now) (encode_name (rule_of rule)) self.old self.new) }
    {
        if let PlainRule::Plain = rule {
            return self.octets.extend_from_slice(name);
        }
        let count = self.table.len();
        let mut suffixes = self.compress(rule, name, count)?;
        if suffixes.iter().all(|suffix| suffix.offset < 16384) {
            suffixes.append(&mut self.table)?;
            self.table = suffixes;
        }
        Ok(())
    }

    fn push_parts(&mut self, rule: PlainRule, parts: &[PlainPart<'_>]) -> Result<(), AllocError>
        ensures { OnOk result
            (Appends (AllZip IsPart parts.now) (encode_parts (rule_of rule)) self.old self.new) }
    {
        let Some((part, others)) = parts.split_first() else {
            return Ok(());
        };
        match part {
            PlainPart::Octets(octets) => self.octets.extend_from_slice(octets)?,
            PlainPart::CompressibleName(name) => self.push_name(rule, name)?,
        }
        self.push_parts(rule, others)
    }

    /// Appends RDATA after its length.
    fn push_rdata(&mut self, rule: PlainRule, parts: &[PlainPart<'_>]) -> Result<(), AllocError>
        ensures { OnOk result (Appends (AllZip IsPart parts.now)
            (λ x. with_length (encode_parts (rule_of rule) x)) self.old self.new) }
    {
        let start = self.octets.len();
        push_number(&mut self.octets, 0)?;
        self.push_parts(rule, parts)?;
        let rdata = self.octets.get(start + 2..).unwrap_or(&[]);
        let rdata = Vec::from_slice(*self.octets.allocator(), rdata)?;
        self.octets.truncate(start);
        push_number(&mut self.octets, rdata.len())?;
        self.octets.extend_from_slice(&rdata)
    }

    /// Appends items, which are all questions or all records.
    fn push_items(&mut self, rule: PlainRule, items: &[PlainItem<'_>]) -> Result<(), AllocError>
        ensures questions { OnOk result (Appends (AllZip IsQuestionItem items.now)
            (λ xs. all_of (map (encode_question (rule_of rule)) xs)) self.old self.new) }
        ensures records { OnOk result (Appends (AllZip IsRecordItem items.now)
            (λ xs. all_of (map (encode_record (rule_of rule)) xs)) self.old self.new) }
    {
        let Some((item, others)) = items.split_first() else {
            return Ok(());
        };
        self.push_name(rule, item.name)?;
        push_number(&mut self.octets, usize::from(item.rtype))?;
        push_number(&mut self.octets, usize::from(item.class))?;
        if let Some(ttl) = item.ttl {
            self.octets.extend_from_slice(&ttl.to_be_bytes())?;
            self.push_rdata(rule, item.parts)?;
        }
        self.push_items(rule, others)
    }
}

/// Returns the octets of a message, with names compressed by a rule.
pub fn encode(
    alloc: Global,
    rule: PlainRule,
    message: &PlainMessage<'_>,
) -> Result<Vec<u8>, AllocError>
    ensures { IfOk result (λ octets. (s : State) → HasItems message.now s
        → octets.items ≡ (encode (rule_of rule) s).octets) }
{
    let mut target = PlainTarget::new(alloc);
    target.octets.extend_from_slice(&message.header)?;
    push_number(&mut target.octets, message.questions.len())?;
    push_number(&mut target.octets, message.answers.len())?;
    push_number(&mut target.octets, message.authorities.len())?;
    push_number(&mut target.octets, message.additionals.len())?;
    target.push_items(rule, message.questions)?;
    target.push_items(rule, message.answers)?;
    target.push_items(rule, message.authorities)?;
    target.push_items(rule, message.additionals)?;
    Ok(target.octets)
}
