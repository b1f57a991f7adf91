//! Records as lines of text, printed and read.
use arrayvec::ArrayVec;
use dns_item::Record;
use dns_name::Name;
use fields_records::{RecordText, read_record};
use fields_table::OwnedFieldData;
use fields_text::split_words;
use std::alloc::Global;
use std::fmt::Write;

/// A record that was read of its line.
type LineRecord = Record<Name<ArrayVec<u8, 255>>, OwnedFieldData>;

/// Reads a record `rounds` times. Returns the length of its line, or `None` if the octets are no line
/// of a record, or an allocation fails.
pub(crate) fn read(alloc: Global, line: &[u8], rounds: usize) -> Option<usize> {
    for _ in 0..rounds {
        if record_of(alloc, line).is_none() {
            return None;
        }
    }
    Some(line.len())
}

/// Prints a record `rounds` times. Returns the length of its line, or `None` as `read` does.
pub(crate) fn print(alloc: Global, line: &[u8], rounds: usize) -> Option<usize> {
    let owned = record_of(alloc, line)?;
    let (class, ttl) = (owned.class(), owned.ttl());
    let (owner, data) = owned.into_owner_and_data();
    let record = Record::new(owner, class, ttl, data.as_field_data());
    let mut text = String::new(alloc);
    for _ in 0..rounds {
        text.clear();
        write!(text, "{}", RecordText(&record)).ok()?;
    }
    Some(text.len())
}

/// The record that a line represents.
fn record_of(alloc: Global, line: &[u8]) -> Option<LineRecord> {
    let line = std::str::from_utf8(line).ok()?;
    let words = split_words(alloc, line).ok()?;
    read_record(alloc, words.as_slice()).ok()
}
