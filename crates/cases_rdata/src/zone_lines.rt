//! Records as lines of a zone file, with an origin and defaults or without.
use crate::case::digits_composed;
use arrayvec::ArrayVec;
use dns_code::{Class, Ttl};
use dns_item::ComposeRecord;
use dns_wire::{Name, ToName};
use fields_lines::{Defaults, begins_with_owner, read_line};
use fields_text::split_words;
use std::alloc::{AllocError, Global};

/// A name that owns its octets.
type OwnedName = Name<ArrayVec<u8, 255>>;

/// What a line has that leaves nothing to the lines before it.
const NOTHING: Defaults<'static> = Defaults {
    origin: None,
    owner: None,
    ttl: None,
    class: Class::IN,
};

/// The digits of the record that a line represents after lines of the zone `example.com.`, of which
/// the last has the owner `last.example.com.`, with a TTL of an hour; or why it represents none.
pub(crate) fn zone_line(alloc: Global, line: &str) -> Result<String, AllocError> {
    let (Ok(origin), Ok(owner)) = (
        "example.com.".parse::<OwnedName>(),
        "last.example.com.".parse::<OwnedName>(),
    ) else {
        return String::from_str(alloc, "no name");
    };
    let defaults = Defaults {
        origin: Some(origin.as_parsed()),
        owner: Some(owner.as_parsed()),
        ttl: Some(Ttl::HOUR),
        class: Class::IN,
    };
    line_shown(alloc, &defaults, line)
}

/// The same of a line before which there is none.
pub(crate) fn bare_line(alloc: Global, line: &str) -> Result<String, AllocError> {
    line_shown(alloc, &NOTHING, line)
}

/// The digits of the record that a line represents, or why it represents none.
fn line_shown(alloc: Global, defaults: &Defaults<'_>, line: &str) -> Result<String, AllocError> {
    let words = match split_words(alloc, line) {
        Ok(words) => words,
        Err(error) => return error.to_string(alloc),
    };
    let named = begins_with_owner(line);
    match read_line(alloc, defaults, named, words.as_slice()) {
        Ok(record) => {
            let mut octets = Vec::new(alloc);
            let composed = record.compose_record(&mut octets);
            digits_composed(alloc, octets.as_slice(), composed)
        }
        Err(error) => error.to_string(alloc),
    }
}
