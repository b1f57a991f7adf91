//! The fields of record data, in order.
ghost use Rattle.fields_records.specs.DataWords.{AreFields};
ghost use Rattle.fields_table.specs.Table.{kinds, kinds_of};
ghost use Rattle.fields_text.specs.Reading.{AppendsOctets, ReadsWords};

use crate::extent::word_count;
use crate::field::push_field;
use fields_table::{Kind, fields_of};
use fields_text::TextError;
use std::alloc::Global;

/// Appends the fields that the words represent. After an allocation fails, the other fields are
/// still read, since a bad word among theirs is the error.
fn push_fields(
    alloc: Global,
    octets: &mut Vec<u8>,
    fields: &[(&'static str, Kind)],
    words: &[&str],
) -> Result<(), TextError>
    ensures { AppendsOctets (AreFields (kinds fields.now) words.now)
        octets.old.items octets.new.items result }
{
    let [field, others @ ..] = fields else {
        return if words.is_empty() {
            Ok(())
        } else {
            Err(TextError::BadWord)
        };
    };
    let (own, after) = words.split_at(word_count(field.1, words));
    match push_field(alloc, octets, field.1, own) {
        Ok(()) => push_fields(alloc, octets, others, after),
        Err(TextError::BadWord) => Err(TextError::BadWord),
        Err(TextError::OutOfMemory) => match push_fields(alloc, octets, others, after) {
            Ok(()) => Err(TextError::OutOfMemory),
            Err(error) => Err(error),
        },
    }
}

/// The octets of the fields of this type.
pub(crate) fn read_fields(alloc: Global, rtype: u16, words: &[&str]) -> Result<Vec<u8>, TextError>
    ensures { ReadsWords (AreFields (kinds_of rtype) words.now) result }
{
    let mut octets = Vec::new(alloc);
    match push_fields(alloc, &mut octets, fields_of(rtype), words) {
        Ok(()) => Ok(octets),
        Err(error) => Err(error),
    }
}
