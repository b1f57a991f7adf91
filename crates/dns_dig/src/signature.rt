//! Records that sign a message: TSIG (RFC 8945) and SIG(0) (RFC 2931).
ghost use Rattle.std.specs.Prelude.{◌≡◌, ◌++◌, IfOk, OnErr, codes};
ghost use Rattle.std.specs.List.{flat_map};
ghost use Rattle.dns_item.specs.ParsedRecord.{encoded_record};
ghost use Rattle.dns_lines.specs.Show.{HasShortData, IsRead};
ghost use Rattle.dns_lines.specs.ZoneLines.{covers_no_type, rdata_octets};
ghost use Rattle.dns_print.specs.Printing.{PrintsOnOk};
ghost use Rattle.dns_read.specs.RecordSection.{record_result, records_left};
ghost use Rattle.dns_json.specs.Cursors.{reading_left};

use crate::record::write_record;
use dns_data::UnknownRecordData;
use dns_iana::Rtype;
use dns_item::ParsedRecord;
use dns_octets::ParseError;
use dns_print::TextWriter;
use dns_read::RecordSection;
use std::fmt;

/// How a message is signed.
#[derive(Clone, Copy)]
pub(crate) enum Signature {
    Tsig,
    Sig0,
}

impl Signature {
    ghost use Rattle.dns_dig.specs.Records.{record_line};
    ghost use Rattle.dns_dig.specs.Sections.{is_signature, signature_heading, signature_item_text, signature_record_text, signatures_text};

    /// Prints the records of a section that sign the message in this way.
    pub(crate) fn write_all<T: TextWriter>(
        self,
        writer: &mut T,
        records: Result<RecordSection<'_>, ParseError>,
    ) -> fmt::Result
        ensures text { PrintsOnOk T.takes writer.old result
            (signatures_text self (reading_left records.entry)) writer.new }
        ensures err { OnErr result T.MayFail }
    {
        match records {
            Ok(records) => self.write_each(writer, records),
            Err(_) => Ok(()),
        }
    }

    fn write_each<T: TextWriter>(self, writer: &mut T, records: RecordSection<'_>) -> fmt::Result
        ensures text { PrintsOnOk T.takes writer.old result
            (flat_map (signature_item_text self) (records_left records.entry)) writer.new }
        ensures err { OnErr result T.MayFail }
    {
        let mut records = records;
        while let Some(parsed) = records.next() {
            self.write_item(writer, parsed)?;
        }
        Ok(())
    }

    /// Prints a record if it signs the message.
    fn write_item<T: TextWriter>(
        self,
        writer: &mut T,
        parsed: Result<ParsedRecord<'_>, ParseError>,
    ) -> fmt::Result
        requires read { IfOk parsed (λ r. IsRead (encoded_record r)) }
        requires short { IfOk parsed (λ r. HasShortData (encoded_record r)) }
        ensures text { PrintsOnOk T.takes writer.old result
            (signature_item_text self (record_result parsed.entry)) writer.new }
        ensures err { OnErr result T.MayFail }
    {
        match parsed {
            Ok(parsed) => self.write_if_it_signs(writer, &parsed),
            Err(_) => Ok(()),
        }
    }

    fn write_if_it_signs<T: TextWriter>(
        self,
        writer: &mut T,
        parsed: &ParsedRecord<'_>,
    ) -> fmt::Result
        requires read { IsRead (encoded_record parsed.now) }
        requires short { HasShortData (encoded_record parsed.now) }
        ensures text { PrintsOnOk T.takes writer.old result
            (signature_record_text self (encoded_record parsed.now)) writer.new }
        ensures err { OnErr result T.MayFail }
    {
        if self.is_of(parsed) {
            return self.write_record(writer, parsed);
        }
        Ok(())
    }

    /// Prints a record below a heading.
    fn write_record<T: TextWriter>(self, writer: &mut T, parsed: &ParsedRecord<'_>) -> fmt::Result
        requires read { IsRead (encoded_record parsed.now) }
        requires short { HasShortData (encoded_record parsed.now) }
        ensures text { PrintsOnOk T.takes writer.old result (signature_heading self
            ++ (record_line (encoded_record parsed.now) ++ codes "\n")) writer.new }
        ensures err { OnErr result T.MayFail }
    {
        writer.write_text(self.heading())?;
        write_record(writer, parsed)?;
        writer.write_text("\n")
    }

    fn heading(self) -> &'static str
        ensures { result.now ≡ signature_heading self }
    {
        match self {
            Signature::Tsig => ";; TSIG PSEUDOSECTION:\n",
            Signature::Sig0 => ";; SIG0 PSEUDOSECTION:\n",
        }
    }

    /// Whether a record signs the message in this way.
    pub(crate) fn is_of(self, parsed: &ParsedRecord<'_>) -> bool
        requires read { IsRead (encoded_record parsed.now) }
        requires short { HasShortData (encoded_record parsed.now) }
        ensures { result ≡ is_signature self (encoded_record parsed.now) }
    {
        match self {
            Signature::Tsig => parsed.rtype() == Rtype::TSIG,
            Signature::Sig0 => parsed.rtype() == Rtype::SIG && covers_no_type(parsed),
        }
    }
}

/// Whether the RDATA of a record begins with the type 0.
fn covers_no_type(parsed: &ParsedRecord<'_>) -> bool
    requires read { IsRead (encoded_record parsed.now) }
    requires short { HasShortData (encoded_record parsed.now) }
    ensures { result ≡ covers_no_type (rdata_octets (encoded_record parsed.now)) }
{
    let found = parsed.to_any_record::<UnknownRecordData<&[u8]>>().unwrap();
    begins_with_zeros(found.data().data())
}

/// Whether octets begin with two zero octets.
fn begins_with_zeros(octets: &[u8]) -> bool
    ensures { result ≡ covers_no_type octets.now }
{
    octets.starts_with(&[0, 0])
}
