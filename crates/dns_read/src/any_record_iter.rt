ghost use Rattle.std.specs.Prelude.{◌≡◌};
ghost use Rattle.std.specs.Iterator.{YieldsFirstBy, item_count};
ghost use Rattle.dns_item.specs.TypedRecords.{typed_result};
ghost use Rattle.dns_read.specs.AnyRecordIter.{every, cursor_of, typed_left, GivesNext};
ghost use Rattle.dns_read.specs.Given.{SkipsTo, YieldsNext};
ghost use Rattle.dns_read.specs.Limited.{limited};
ghost use Rattle.dns_read.specs.RecordSection.{to_come, records_left, MovesOn};
ghost use Rattle.dns_read.specs.Skipping.{KeepsError};

use crate::record_section::RecordSection;
use dns_data::ParseAnyRecordData;
use dns_item::Record;
use dns_name::ParsedName;
use dns_octets::ParseError;
use std::alloc::AllocError;
use std::marker::PhantomData;

/// An iterator over all records of a section, with RDATA parsed (RFC 1035 section 4.1.3).
///
/// For malformed RDATA it yields an error and continues with the next record. For a record that
/// can't be read it yields an error and then ends.
#[derive(Drop)]
#[derive_where(Debug)]
pub struct AnyRecordIter<'a, D> {
    cursor: RecordSection<'a>,
    marker: PhantomData<D>,
}

impl<'a> RecordSection<'a> {
    /// The remaining records of this cursor, with RDATA parsed as `D`.
    pub fn into_records<D: ParseAnyRecordData<'a>>(self) -> AnyRecordIter<'a, D>
        ensures cursor { cursor_of result ≡ self.entry }
        ensures left { typed_left D.any_layout result
            ≡ limited (every D.any_layout) (records_left self.entry) }
    {
        AnyRecordIter {
            cursor: self,
            marker: PhantomData,
        }
    }
}

impl<'a, D> AnyRecordIter<'a, D> {
    /// The cursor, after the last record that was yielded.
    pub fn unwrap(self) -> RecordSection<'a>
        ensures { result ≡ cursor_of self.entry }
    {
        self.cursor
    }

    /// The next section, as `RecordSection::next_section` of the cursor returns it.
    pub fn next_section(self) -> Result<Option<RecordSection<'a>>, ParseError>
        ensures { MovesOn (cursor_of self.entry) result }
    {
        self.cursor.next_section()
    }
}

impl<'a, D: ParseAnyRecordData<'a> + Drop> AnyRecordIter<'a, D> {
    /// The next record, or the error in its RDATA. If the record itself can't be read, its error;
    /// the iterator then ends.
    ///
    /// The cursor is then after the record that was yielded, and no later record has been read.
    pub fn next(&mut self) -> Option<Result<Record<ParsedName<'a>, D>, ParseError>>
        ensures steps { YieldsFirstBy (typed_result D.rtype_of D.parts) (typed_left D.any_layout)
            self.old result self.new }
        ensures moves { SkipsTo (typed_result D.rtype_of D.parts) (limited (every D.any_layout))
            (cursor_of self.old) (cursor_of self.new) result }
        ensures yields { YieldsNext (typed_result D.rtype_of D.parts) (limited (every D.any_layout))
            (records_left (cursor_of self.old)) (records_left (cursor_of self.new)) result }
        ensures kept { KeepsError (to_come (cursor_of self.new)) result }
    {
        match self.cursor.next() {
            Some(Ok(record)) => Some(record.to_any_record()),
            Some(Err(error)) => Some(Err(error)),
            None => None,
        }
    }
}

/// The clone continues at the same record. Cloning never fails.
impl<'a, D> Clone for AnyRecordIter<'a, D> {
    ghost use Rattle.std.specs.Bool.{⊤};

    ghost is_clone = { λ it clone. clone ≡ it };

    ghost is_infallible = { λ _. ⊤ };

    fn clone(&self) -> Result<Self, AllocError> {
        Ok(AnyRecordIter {
            cursor: self.cursor,
            marker: PhantomData,
        })
    }
}

/// The same as the method `next`.
impl<'a, D: ParseAnyRecordData<'a> + Drop> Iterator for AnyRecordIter<'a, D> {
    type Item = Result<Record<ParsedName<'a>, D>, ParseError>;

    ghost next_gives = { GivesNext D.rtype_of D.parts D.any_layout };

    ghost remaining = { item_count (typed_left D.any_layout) };

    fn next(&mut self) -> Option<Self::Item> {
        AnyRecordIter::next(self)
    }
}
