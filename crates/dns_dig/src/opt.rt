//! The lines of an OPT record (RFC 6891 section 6.1).
ghost use Rattle.std.specs.Prelude.{◌≡◌, ◌==◌, ◌++◌, if◌then◌else◌, [], IfOk, OnErr, codes, length};
ghost use Rattle.std.specs.List.{flat_map};
ghost use Rattle.dns_edns.specs.OptHeader.{fields};
ghost use Rattle.dns_edns.specs.OptionIter.{options_left};
ghost use Rattle.dns_edns.specs.OptionsOf.{are_options};
ghost use Rattle.dns_item.specs.ParsedRecord.{encoded_record};
ghost use Rattle.dns_name.specs.ParsedName.{labels};
ghost use Rattle.dns_lines.specs.Show.{HasShortData, IsRead};
ghost use Rattle.dns_lines.specs.ZoneLines.{rdata_octets};
ghost use Rattle.dns_print.specs.Printing.{PrintsOnOk};
ghost use Rattle.dns_read.specs.RecordSection.{record_result, records_left};
ghost use Rattle.dns_json.specs.Cursors.{reading_left};
ghost use Rattle.dns_dig.specs.Opt.{edns_line, is_of_root, is_opt, opt_flags_text, opt_text, reserved_text, size_text, version_text};
ghost use Rattle.dns_dig.specs.OptionTexts.{option_line};
ghost use Rattle.dns_dig.specs.Sections.{first_opt_text, is_opt_item, opt_item_text, opts_text};

use crate::header::write_if;
use crate::option::write_options;
use dns_data::UnknownRecordData;
use dns_edns::{OptHeader, OptionIter, are_options};
use dns_iana::Rtype;
use dns_item::ParsedRecord;
use dns_name::ParsedName;
use dns_octets::ParseError;
use dns_print::{TextWriter, write_hex_octet, write_number};
use dns_read::RecordSection;
use std::fmt;

/// Prints the first OPT record of a section that prints by its fields.
pub(crate) fn write_opts<T: TextWriter>(
    writer: &mut T,
    records: Result<RecordSection<'_>, ParseError>,
) -> fmt::Result
    ensures text { PrintsOnOk T.takes writer.old result (opts_text (reading_left records.entry))
        writer.new }
    ensures err { OnErr result T.MayFail }
{
    match records {
        Ok(records) => write_first(writer, records),
        Err(_) => Ok(()),
    }
}

fn write_first<T: TextWriter>(writer: &mut T, records: RecordSection<'_>) -> fmt::Result
    ensures text { PrintsOnOk T.takes writer.old result
        (first_opt_text (records_left records.entry)) writer.new }
    ensures err { OnErr result T.MayFail }
{
    let mut records = records;
    while let Some(parsed) = records.next() {
        if is_opt_item(&parsed) {
            return write_item(writer, parsed);
        }
    }
    Ok(())
}

/// Whether an item of a section is an OPT record that prints by its fields.
pub(crate) fn is_opt_item(parsed: &Result<ParsedRecord<'_>, ParseError>) -> bool
    requires read { IfOk parsed.now (λ r. IsRead (encoded_record r)) }
    requires short { IfOk parsed.now (λ r. HasShortData (encoded_record r)) }
    ensures { result ≡ is_opt_item (record_result parsed.now) }
{
    match parsed {
        Ok(parsed) => is_opt(parsed),
        Err(_) => false,
    }
}

/// Prints a record if it is an OPT record that prints by its fields.
fn write_item<T: TextWriter>(
    writer: &mut T,
    parsed: Result<ParsedRecord<'_>, ParseError>,
) -> fmt::Result
    requires read { IfOk parsed (λ r. IsRead (encoded_record r)) }
    requires short { IfOk parsed (λ r. HasShortData (encoded_record r)) }
    ensures text { PrintsOnOk T.takes writer.old result
        (opt_item_text (record_result parsed.entry)) writer.new }
    ensures err { OnErr result T.MayFail }
{
    match parsed {
        Ok(parsed) => write_if_opt(writer, &parsed),
        Err(_) => Ok(()),
    }
}

fn write_if_opt<T: TextWriter>(writer: &mut T, parsed: &ParsedRecord<'_>) -> fmt::Result
    requires read { IsRead (encoded_record parsed.now) }
    requires short { HasShortData (encoded_record parsed.now) }
    ensures text { PrintsOnOk T.takes writer.old result
        (if is_opt (encoded_record parsed.now) then opt_text (encoded_record parsed.now) else [])
        writer.new }
    ensures err { OnErr result T.MayFail }
{
    if !is_of_root(parsed) {
        return Ok(());
    }
    let found = parsed.to_any_record::<UnknownRecordData<&[u8]>>().unwrap();
    match OptionIter::new(found.data().data()) {
        Some(options) => {
            let header = OptHeader::from_fields(parsed.class(), parsed.ttl().as_secs());
            write_opt(writer, header, options)
        }
        None => Ok(()),
    }
}

/// Whether a record has the type OPT and belongs to the root.
fn is_of_root(parsed: &ParsedRecord<'_>) -> bool
    ensures { result ≡ is_of_root (encoded_record parsed.now) }
{
    parsed.rtype() == Rtype::OPT && is_root(&parsed.owner())
}

/// Whether a name is the root.
fn is_root(name: &ParsedName<'_>) -> bool
    ensures { result ≡ (length (labels name.now) == 0) }
{
    name.is_root()
}

/// Whether a record is an OPT record that prints by its fields.
fn is_opt(parsed: &ParsedRecord<'_>) -> bool
    requires read { IsRead (encoded_record parsed.now) }
    requires short { HasShortData (encoded_record parsed.now) }
    ensures { result ≡ is_opt (encoded_record parsed.now) }
{
    is_of_root(parsed) && has_options(parsed)
}

/// Whether the RDATA of a record is a list of options.
fn has_options(parsed: &ParsedRecord<'_>) -> bool
    requires read { IsRead (encoded_record parsed.now) }
    requires short { HasShortData (encoded_record parsed.now) }
    ensures { result ≡ are_options (rdata_octets (encoded_record parsed.now)) }
{
    let found = parsed.to_any_record::<UnknownRecordData<&[u8]>>().unwrap();
    are_options(found.data().data())
}

/// Prints a heading, the fields of an OPT record, and its options.
fn write_opt<T: TextWriter>(
    writer: &mut T,
    header: OptHeader,
    options: OptionIter<'_>,
) -> fmt::Result
    ensures text { PrintsOnOk T.takes writer.old result (codes ";; OPT PSEUDOSECTION:\n"
        ++ (edns_line (fields header) ++ flat_map option_line (options_left options.entry)))
        writer.new }
    ensures err { OnErr result T.MayFail }
{
    writer.write_text(";; OPT PSEUDOSECTION:\n")?;
    write_edns(writer, header)?;
    write_options(writer, options)
}

/// Prints the version, the flags and the UDP payload size.
fn write_edns<T: TextWriter>(writer: &mut T, header: OptHeader) -> fmt::Result
    ensures text { PrintsOnOk T.takes writer.old result (edns_line (fields header)) writer.new }
    ensures err { OnErr result T.MayFail }
{
    write_version(writer, header.version())?;
    write_opt_flags(writer, header)?;
    write_size(writer, header.udp_payload_size())
}

#[tactic(auto, using(dns_print::proofs::theory::Prints::prints, std::proofs::lemmas::Grind::common_steps))]
fn write_version<T: TextWriter>(writer: &mut T, version: u8) -> fmt::Result
    ensures text { PrintsOnOk T.takes writer.old result (version_text version) writer.new }
    ensures err { OnErr result T.MayFail }
{
    writer.write_text("; EDNS: version: ")?;
    write_number(writer, u64::from(version))?;
    writer.write_text(", flags:")
}

/// Prints the flags, and what precedes the size after them.
fn write_opt_flags<T: TextWriter>(writer: &mut T, header: OptHeader) -> fmt::Result
    ensures text { PrintsOnOk T.takes writer.old result (opt_flags_text (fields header))
        writer.new }
    ensures err { OnErr result T.MayFail }
{
    let bits = header.ttl() % 0x8000;
    write_if(writer, header.dnssec_ok(), " do")?;
    write_if(writer, bits / 0x4000 == 1, " co")?;
    write_reserved(writer, (bits % 0x4000) as u16)
}

/// Prints the bits of Z that should be zero.
#[tactic(auto, using(dns_print::proofs::theory::Prints::prints, std::proofs::lemmas::Grind::common_steps))]
fn write_reserved<T: TextWriter>(writer: &mut T, bits: u16) -> fmt::Result
    ensures text { PrintsOnOk T.takes writer.old result (reserved_text bits) writer.new }
    ensures err { OnErr result T.MayFail }
{
    if bits == 0 {
        return writer.write_text("; ");
    }
    writer.write_text("; MBZ: 0x")?;
    write_hex_octet(writer, false, (bits / 256) as u8)?;
    write_hex_octet(writer, false, (bits % 256) as u8)?;
    writer.write_text(", ")
}

#[tactic(auto, using(dns_print::proofs::theory::Prints::prints, std::proofs::lemmas::Grind::common_steps))]
fn write_size<T: TextWriter>(writer: &mut T, size: u16) -> fmt::Result
    ensures text { PrintsOnOk T.takes writer.old result (size_text size) writer.new }
    ensures err { OnErr result T.MayFail }
{
    writer.write_text("udp: ")?;
    write_number(writer, u64::from(size))?;
    writer.write_text("\n")
}
