//! Where texts end: the number of their characters.
ghost use Rattle.std.specs.Prelude.{◌≡◌, ◌+◌, ◌<◌, length, decimal};
ghost use Rattle.dns_name.specs.ParsedName.{labels};
ghost use Rattle.fields_plain.specs.TypeNames.{class_word, type_word};
ghost use Rattle.fields_plain.specs.ZoneNames.{zone_name_text};
ghost use Rattle.dns_dig.specs.Near.{near};

use crate::column::{advanced, near};
use dns_iana::{Class, Rtype};
use dns_name::ParsedName;
use dns_print::{TextWriter, write_number};
use fields_plain::{write_class_name, write_type_name, write_zone_name};
use std::fmt;

/// A writer that only counts characters, as far as a column says of them (`near`). It never fails.
#[derive(Drop)]
pub(crate) struct Count(usize);

impl TextWriter for Count {
    ghost takes = { λ old text new. near new.0 ≡ near (old.0 + length text) };

    ghost MayFail = { ⊥ };

    fn write_text(&mut self, text: &str) -> fmt::Result {
        self.0 = advanced(self.0, text.len());
        Ok(())
    }
}

/// The number of characters of a name.
pub(crate) fn name_length(name: &ParsedName<'_>) -> usize
    ensures value { result ≡ near (length (zone_name_text (labels name.now))) }
    ensures small { result < 64 }
{
    let mut count = Count(0);
    let _ = write_zone_name(&mut count, name);
    near(count.0)
}

/// The number of characters of a number.
pub(crate) fn number_length(number: u32) -> usize
    ensures value { result ≡ near (length (decimal number)) }
    ensures small { result < 64 }
{
    let mut count = Count(0);
    let _ = write_number(&mut count, u64::from(number));
    near(count.0)
}

/// The number of characters of a class.
pub(crate) fn class_length(class: Class) -> usize
    ensures value { result ≡ near (length (class_word class)) }
    ensures small { result < 64 }
{
    let mut count = Count(0);
    let _ = write_class_name(&mut count, class);
    near(count.0)
}

/// The number of characters of a type.
pub(crate) fn type_length(rtype: Rtype) -> usize
    ensures value { result ≡ near (length (type_word rtype)) }
    ensures small { result < 64 }
{
    let mut count = Count(0);
    let _ = write_type_name(&mut count, rtype);
    near(count.0)
}
