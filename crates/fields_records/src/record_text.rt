//! Records as lines (RFC 1035 section 5.1).
ghost use Rattle.std.specs.Prelude.{OnErr, Some, ◌++◌, codes, decimal};
ghost use Rattle.dns_print.specs.Printing.{PrintsOnOk};
ghost use Rattle.fields_records.specs.DataTexts.{data_line};
ghost use Rattle.fields_records.specs.RecordLines.{record_line};
ghost use Rattle.fields_plain.specs.TypeNames.{class_word, type_word};

use crate::data_text::write_data_text;
use dns_iana::{Class, Rtype};
use dns_item::Record;
use dns_name::ToName;
use dns_print::{TextWriter, write_number};
use fields_plain::{write_class_name, write_type_name, write_zone_name};
use fields_table::FieldData;
use std::fmt;

/// A record that prints as a line: the owner with a final dot, the TTL in seconds, the class, the type
/// and the record data, separated by spaces.
#[derive(Clone, Copy, Debug)]
pub struct RecordText<'r, 'a, N>(pub &'r Record<N, FieldData<'a>>);

/// Prints the TTL and the class, each before a space.
#[tactic(auto, using(dns_print::proofs::theory::Prints::prints, std::proofs::lemmas::Grind::common_steps))]
fn write_ttl_and_class<W: TextWriter>(f: &mut W, ttl: u32, class: Class) -> fmt::Result
    ensures text { PrintsOnOk W.takes f.old result
        (decimal ttl ++ codes " " ++ class_word class ++ codes " ") f.new }
    ensures err { OnErr result W.MayFail }
{
    write_number(f, u64::from(ttl))?;
    f.write_text(" ")?;
    write_class_name(f, class)?;
    f.write_text(" ")
}

/// Prints the type and the record data, with a space between them.
#[tactic(auto, using(dns_print::proofs::theory::Prints::prints, std::proofs::lemmas::Grind::common_steps))]
fn write_type_and_data<W: TextWriter>(f: &mut W, rtype: Rtype, data: &FieldData<'_>) -> fmt::Result
    ensures text { PrintsOnOk W.takes f.old result
        (type_word rtype ++ codes " " ++ data_line data.now) f.new }
    ensures err { OnErr result W.MayFail }
{
    write_type_name(f, rtype)?;
    f.write_text(" ")?;
    write_data_text(f, data)
}

/// Prints a record as a line: the owner with a final dot, the TTL in seconds, the class, the type and
/// the record data, separated by spaces (RFC 1035 section 5.1).
pub fn write_record_text<W: TextWriter, N: ToName>(
    f: &mut W,
    record: &Record<N, FieldData<'_>>,
) -> fmt::Result
    ensures text { PrintsOnOk W.takes f.old result (record_line N.name «record».now) f.new }
    ensures err { OnErr result W.MayFail }
{
    write_zone_name(f, &record.owner().as_parsed())?;
    f.write_text(" ")?;
    write_ttl_and_class(f, record.ttl().as_secs(), record.class())?;
    write_type_and_data(f, record.rtype(), record.data())
}

impl<N: ToName> fmt::Display for RecordText<'_, '_, N> {
    ghost output = { λ text. Some (record_line N.name text.0.now) };

    ghost styled_output = { λ text _. Some (record_line N.name text.0.now) };

    fn fmt<W: fmt::Write>(&self, f: &mut fmt::Formatter<W>) -> fmt::Result {
        write_record_text(f, self.0)
    }
}
