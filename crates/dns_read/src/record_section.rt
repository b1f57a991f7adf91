ghost use Rattle.std.specs.Prelude.{◌≡◌, ◌≤◌, length};
ghost use Rattle.dns_name.specs.CachedNames.{IsCached, IsCached-prop};
ghost use Rattle.dns_name.specs.Parsers.{input, seen, offset};
ghost use Rattle.dns_code.specs.HeaderSection.{header_size};
ghost use Rattle.dns_item.specs.Items.{SkipsRecord, RecordSkipFaultAt};
ghost use Rattle.dns_read.specs.Skipping.{SkipsAll};

use crate::section::Section;
use dns_code::HeaderCounts;
use dns_item::{ParsedRecord, parse_record_cached};
use dns_name::{CachedName, Parser};
use dns_octets::ParseError;

/// A cursor over the records of a section of a message (RFC 1035 section 4.1.3).
///
/// It yields consecutive records, at most as many as the section's count in the header. For the
/// first that can't be read it yields an error and then ends.
#[derive(Clone, Copy, Debug)]
pub struct RecordSection<'a> {
    parser: Parser<'a>,
    section: Section,
    /// The count of records that may still come, or the error that was yielded.
    left: Result<u16, ParseError>,
    /// A cached name: where the first pointer of the last owner with a pointer led. Before the
    /// first such owner of the answer section, it is the name of the last question yielded, if any.
    /// The next owner may point to it too.
    cached: CachedName,
    ghost long: { header_size ≤ length (input parser) },
    ghost whole: { seen parser ≡ input parser },
    ghost met: { IsCached (seen parser) cached } by { IsCached-prop (seen parser) cached },
}

impl<'a> RecordSection<'a> {
    ghost use Rattle.std.specs.Iterator.{YieldsFirstBy};
    ghost use Rattle.dns_read.specs.RecordSection.{octets_of, position, section_of, to_come, records_left, record_result, MovesPastRecord, IsFresh, MovesOn};
    ghost use Rattle.dns_read.specs.Skipping.{CountsDown};

    /// The section that begins at the parser's offset, with all of its records to come.
    #[inline(always)]
    pub(crate) fn at(section: Section, parser: Parser<'a>, cached: CachedName) -> Self
        requires long { header_size ≤ length (input parser) }
        requires whole { seen parser ≡ input parser }
        requires cached { IsCached (seen parser) cached }
        ensures fresh { IsFresh section (seen parser.entry) result }
        ensures position { position result ≡ offset parser.entry }
    {
        let counts = HeaderCounts::for_message_slice(parser.as_slice());
        let count = match section {
            Section::Answer => counts.ancount(),
            Section::Authority => counts.nscount(),
            Section::Additional => counts.arcount(),
        };
        RecordSection {
            parser,
            section,
            left: Ok(count),
            cached,
        }
    }

    /// The offset after the records that were yielded, in octets from the start of the message.
    pub fn pos(&self) -> usize
        ensures { result ≡ position self.now }
    {
        self.parser.pos()
    }

    /// The section whose records these are.
    pub fn section(&self) -> Section
        ensures { result ≡ section_of self.now }
    {
        self.section
    }

    /// The next record, or the error of the first that can't be read, after which the cursor ends.
    ///
    /// The cursor is then after the record. It doesn't move at a record that can't be read, nor at
    /// the end.
    #[inline(always)]
    pub fn next(&mut self) -> Option<Result<ParsedRecord<'a>, ParseError>>
        ensures steps { YieldsFirstBy record_result records_left self.old result self.new }
        ensures moves { MovesPastRecord self.old self.new result }
        ensures counts { CountsDown (to_come self.old) (to_come self.new) result }
        ensures octets { octets_of self.new ≡ octets_of self.old }
        ensures section { section_of self.new ≡ section_of self.old }
    {
        let left = self.left.ok()?.checked_sub(1)?;
        match parse_record_cached(&mut self.parser, &mut self.cached) {
            Ok(record) => {
                self.left = Ok(left);
                Some(Ok(record))
            }
            Err(error) => {
                self.left = Err(error);
                Some(Err(error))
            }
        }
    }

    /// The next section, which begins after the remaining records, or `None` after the additional
    /// section.
    ///
    /// The remaining records are skipped, so they need not be readable. Returns the error of the
    /// first that can't be skipped, or again the error that the cursor yielded, if any. The
    /// additional section returns `None` even after an error.
    #[inline(always)]
    pub fn next_section(self) -> Result<Option<RecordSection<'a>>, ParseError>
        ensures { MovesOn self.entry result }
    {
        let Some(section) = self.section.next() else {
            return Ok(None);
        };
        let mut parser = self.parser;
        skip_records(&mut parser, self.left?)?;
        Ok(Some(RecordSection::at(section, parser, CachedName::new())))
    }
}

/// Skips `count` records.
#[inline(always)]
fn skip_records(parser: &mut Parser<'_>, count: u16) -> Result<(), ParseError>
    ensures { SkipsAll (SkipsRecord (seen parser.old)) (RecordSkipFaultAt (seen parser.old)) count
        parser.old parser.new result }
{
    for _record in 0..count {
        ParsedRecord::skip(parser)?;
    }
    Ok(())
}

/// The same as the method `next`.
impl<'a> Iterator for RecordSection<'a> {
    ghost use Rattle.std.specs.Iterator.{item_count};
    ghost use Rattle.dns_read.specs.RecordSection.{records_left, GivesNext};

    type Item = Result<ParsedRecord<'a>, ParseError>;

    ghost next_gives = { GivesNext };

    ghost remaining = { item_count records_left };

    #[inline(always)]
    fn next(&mut self) -> Option<Self::Item> {
        RecordSection::next(self)
    }
}
