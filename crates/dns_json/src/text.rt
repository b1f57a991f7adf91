//! Texts in the strings of a message's JSON.
ghost use Rattle.dns_name.specs.ParsedName.{labels};
ghost use Rattle.dns_iana.specs.Classes.{class_text};
ghost use Rattle.fields_records.specs.DataTexts.{data_line};
ghost use Rattle.fields_plain.specs.TypeNames.{type_word};
ghost use Rattle.fields_plain.specs.ZoneNames.{zone_name_text};
ghost use Rattle.dns_json.specs.Records.{hex_text, rdata_name};

use dns_iana::{Class, Rtype, write_class};
use dns_name::ParsedName;
use dns_print::{TextWriter, write_hex};
use fields_plain::{write_type_name, write_zone_name};
use fields_records::write_data_text;
use fields_table::FieldData;
use json_print::PrintText;
use std::fmt;

/// A name as in a zone file (RFC 1035 section 5.1).
#[derive(Clone, Copy)]
pub(crate) struct NameText<'a>(pub(crate) ParsedName<'a>);

impl PrintText for NameText<'_> {
    ghost printed = { λ name. zone_name_text (labels name.0) };

    fn print_text<T: TextWriter>(&self, writer: &mut T) -> fmt::Result {
        write_zone_name(writer, &self.0)
    }
}

/// The registered name of a type, else `TYPE` and its number (RFC 3597 section 5).
#[derive(Clone, Copy)]
pub(crate) struct TypeText(pub(crate) Rtype);

impl PrintText for TypeText {
    ghost printed = { λ name. type_word name.0 };

    fn print_text<T: TextWriter>(&self, writer: &mut T) -> fmt::Result {
        write_type_name(writer, self.0)
    }
}

/// `IN`, `CH` or `HS`, else `CLASS` and the number of a class (RFC 3597 section 5).
#[derive(Clone, Copy)]
pub(crate) struct ClassText(pub(crate) Class);

impl PrintText for ClassText {
    ghost printed = { λ name. class_text name.0 };

    fn print_text<T: TextWriter>(&self, writer: &mut T) -> fmt::Result {
        write_class(writer, self.0)
    }
}

/// Octets in hexadecimal digits, in uppercase (RFC 4648 section 8).
#[derive(Clone, Copy)]
pub(crate) struct HexText<'a>(pub(crate) &'a [u8]);

impl PrintText for HexText<'_> {
    ghost printed = { λ octets. hex_text octets.0.now };

    fn print_text<T: TextWriter>(&self, writer: &mut T) -> fmt::Result {
        write_hex(writer, true, self.0)
    }
}

/// The name of the member for RDATA of a type in presentation format: `rdata` and the type.
#[derive(Clone, Copy)]
pub(crate) struct RdataName(pub(crate) Rtype);

impl PrintText for RdataName {
    ghost printed = { λ name. rdata_name name.0 };

    fn print_text<T: TextWriter>(&self, writer: &mut T) -> fmt::Result {
        writer.write_text("rdata")?;
        write_type_name(writer, self.0)
    }
}

/// RDATA in presentation format.
#[derive(Clone, Copy)]
pub(crate) struct RdataText<'d, 'a>(pub(crate) &'d FieldData<'a>);

impl PrintText for RdataText<'_, '_> {
    ghost printed = { λ text. data_line text.0.now };

    fn print_text<T: TextWriter>(&self, writer: &mut T) -> fmt::Result {
        write_data_text(writer, self.0)
    }
}
