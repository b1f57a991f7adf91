ghost use Rattle.std.specs.Prelude.{◌≡◌, true, false, ◌∷◌, [], Some, option_map, option_to_list, Err, IfErr};
ghost use Rattle.std.specs.Iterator.{YieldsFirstBy, item_count};
ghost use Rattle.std.specs.Result.{ForOk};
ghost use Rattle.dns_item.specs.ParsedData.{HasSpan};
ghost use Rattle.dns_item.specs.ParsedRecord.{encoded_record};
ghost use Rattle.dns_item.specs.TypedRecords.{typed_result};
ghost use Rattle.dns_read.specs.Given.{SkipsTo, YieldsNext};
ghost use Rattle.dns_read.specs.Limited.{limited, in_class_in, limited_by};
ghost use Rattle.dns_read.specs.RecordIter.{cursor_of, takes_in_only, typed_left, GivesNext};
ghost use Rattle.dns_read.specs.RecordSection.{to_come, record_result, records_left, MovesOn};
ghost use Rattle.dns_read.specs.Skipping.{KeepsError};

use crate::record_section::RecordSection;
use dns_data::ParseRecordData;
use dns_iana::Class;
use dns_item::{ParsedRecord, Record};
use dns_name::ParsedName;
use dns_octets::ParseError;
use std::alloc::AllocError;
use std::marker::PhantomData;

/// An iterator over the records of a section whose type `D` accepts, with RDATA parsed (RFC 1035
/// section 4.1.3).
///
/// It skips records of other types. For malformed RDATA it yields an error and continues with the
/// next record. For a record that can't be read it yields an error and then ends.
#[derive(Drop)]
#[derive_where(Debug)]
pub struct RecordIter<'a, D> {
    cursor: RecordSection<'a>,
    /// Whether records of classes other than IN are skipped too.
    in_only: bool,
    marker: PhantomData<D>,
}

impl<'a> RecordSection<'a> {
    /// The remaining records whose type `D` accepts, with RDATA parsed.
    pub fn limit_to<D: ParseRecordData<'a>>(self) -> RecordIter<'a, D>
        ensures cursor { cursor_of result ≡ self.entry }
        ensures classes { takes_in_only result ≡ false }
        ensures left { typed_left D.layout result ≡ limited D.layout (records_left self.entry) }
    {
        RecordIter {
            cursor: self,
            in_only: false,
            marker: PhantomData,
        }
    }

    /// The remaining records of class IN whose type `D` accepts, with RDATA parsed. The RDATA of
    /// records of other classes isn't read.
    pub fn limit_to_in<D: ParseRecordData<'a>>(self) -> RecordIter<'a, D>
        ensures cursor { cursor_of result ≡ self.entry }
        ensures classes { takes_in_only result ≡ true }
        ensures left { typed_left D.layout result
            ≡ limited D.layout (in_class_in (records_left self.entry)) }
    {
        RecordIter {
            cursor: self,
            in_only: true,
            marker: PhantomData,
        }
    }
}

impl<'a, D> RecordIter<'a, D> {
    /// The cursor over all records, after the last record that was yielded.
    pub fn unwrap(self) -> RecordSection<'a>
        ensures { result ≡ cursor_of self.entry }
    {
        self.cursor
    }

    /// The next section, as `RecordSection::next_section` of the cursor returns it.
    pub fn next_section(self) -> Result<Option<RecordSection<'a>>, ParseError>
        ensures { MovesOn (cursor_of self.entry) result }
    {
        self.cursor.next_section()
    }
}

impl<'a, D: ParseRecordData<'a> + Drop> RecordIter<'a, D> {
    /// The next record whose type `D` accepts, or the error in its RDATA. If a record itself can't
    /// be read, its error; the iterator then ends.
    ///
    /// The cursor is then after the record that was yielded, and no later record has been read.
    pub fn next(&mut self) -> Option<Result<Record<ParsedName<'a>, D>, ParseError>>
        ensures steps { YieldsFirstBy (typed_result D.rtype_of D.parts) (typed_left D.layout)
            self.old result self.new }
        ensures moves { SkipsTo (typed_result D.rtype_of D.parts)
            (limited_by D.layout (takes_in_only self.old)) (cursor_of self.old)
            (cursor_of self.new) result }
        ensures yields { YieldsNext (typed_result D.rtype_of D.parts)
            (limited_by D.layout (takes_in_only self.old)) (records_left (cursor_of self.old))
            (records_left (cursor_of self.new)) result }
        ensures kept { KeepsError (to_come (cursor_of self.new)) result }
        ensures classes { takes_in_only self.new ≡ takes_in_only self.old }
    {
        while let Some(item) = self.cursor.next() {
            if let Some(answer) = typed(item, self.in_only) {
                return Some(answer);
            }
        }
        None
    }
}

/// Parses the RDATA of the record that a cursor yielded. Returns `None` for a record whose type `D`
/// doesn't accept. If `in_only`, returns `None` without reading the RDATA for a record of another
/// class than IN.
fn typed<'a, D: ParseRecordData<'a> + Drop>(
    item: Result<ParsedRecord<'a>, ParseError>,
    in_only: bool,
) -> Option<Result<Record<ParsedName<'a>, D>, ParseError>>
    requires { ForOk item (λ parsed. HasSpan (encoded_record parsed)) }
    ensures outcome { limited_by D.layout in_only (record_result item.entry ∷ [])
        ≡ option_to_list (option_map (typed_result D.rtype_of D.parts) result) }
    ensures error { IfErr item.entry (λ e. result ≡ Some (Err e)) }
{
    match item {
        Ok(record) => {
            if in_only && record.class() != Class::IN {
                return None;
            }
            record.to_record().transpose()
        }
        Err(error) => Some(Err(error)),
    }
}

/// The clone continues at the same record, in the same classes. Cloning never fails.
impl<'a, D> Clone for RecordIter<'a, D> {
    ghost use Rattle.std.specs.Bool.{⊤};

    ghost is_clone = { λ it clone. clone ≡ it };

    ghost is_infallible = { λ _. ⊤ };

    fn clone(&self) -> Result<Self, AllocError> {
        Ok(RecordIter {
            cursor: self.cursor,
            in_only: self.in_only,
            marker: PhantomData,
        })
    }
}

/// The same as the method `next`.
impl<'a, D: ParseRecordData<'a> + Drop> Iterator for RecordIter<'a, D> {
    type Item = Result<Record<ParsedName<'a>, D>, ParseError>;

    ghost next_gives = { GivesNext D.rtype_of D.parts D.layout };

    ghost remaining = { item_count (typed_left D.layout) };

    fn next(&mut self) -> Option<Self::Item> {
        RecordIter::next(self)
    }
}
