//! Searches in the records of a message (RFC 1035 sections 3.3.1 and 4.1).
ghost use Rattle.std.specs.Prelude.{◌≡◌, ◌↔◌, IfSome, IsTrue, option_map};
ghost use Rattle.dns_name.specs.ParsedName.{labels};
ghost use Rattle.dns_item.specs.ParsedData.{HasSpan};
ghost use Rattle.dns_item.specs.ParsedRecord.{encoded_record};
ghost use Rattle.dns_item.specs.Record.{record_item};
ghost use Rattle.dns_read.specs.Limited.{limited};
ghost use Rattle.dns_read.specs.RecordSection.{records_left};
ghost use Rattle.dns_read.specs.Message.{message_octets};
ghost use Rattle.dns_read.specs.RecordSearches.{HasAnswer, last_record, last_additional, cname_layout, alias_of, CanonicalName};

use crate::message::Message;
use crate::record_section::RecordSection;
use dns_data::{Cname, ParseRecordData};
use dns_item::{ParsedRecord, Record};
use dns_name::ParsedName;
use dns_octets::Octets;

/// The limit on names that `canonical_name` examines, including the first question's.
const MOST_NAMES: usize = 20;

impl<Octs: Octets> Message<Octs> {
    /// Whether the answer section has a record whose type `D` accepts, or a record that can't be
    /// read.
    pub fn contains_answer<'a, D: ParseRecordData<'a> + Drop>(&'a self) -> bool
        ensures { IsTrue result ↔ HasAnswer D.layout (message_octets self.now) }
    {
        match self.answer() {
            Ok(section) => section.limit_to::<D>().next().is_some(),
            Err(_) => false,
        }
    }

    /// The last additional record, with RDATA parsed. Returns `None` if the additional section has
    /// no start, no records, or a malformed record. Also returns `None` if `D` doesn't accept the
    /// type of the last record, or its RDATA is malformed.
    pub fn get_last_additional<'a, D: ParseRecordData<'a> + Drop>(
        &'a self,
    ) -> Option<Record<ParsedName<'a>, D>>
        ensures { option_map (record_item labels D.rtype_of D.parts) result
            ≡ last_additional D.layout (message_octets self.now) }
    {
        last_of(self.additional().ok()?)?.to_record().ok()?
    }

    /// The name that the first question's name is an alias of, by the CNAME records of the answer
    /// section in any class (RFC 1034 section 3.6.2). Returns the question's own name if that is no
    /// alias.
    ///
    /// Returns `None` after 20 aliases in a chain, if the first question can't be read, or if the
    /// answer section has no start.
    pub fn canonical_name(&self) -> Option<ParsedName<'_>>
        ensures { CanonicalName (message_octets self.now) (option_map labels result) }
    {
        let Some(question) = self.first_question() else {
            return None;
        };
        let mut name = question.into_qname();
        let answers = self.answer().ok()?;
        for _name in 0..MOST_NAMES {
            match alias_of(answers, &name) {
                Some(target) => name = target,
                None => return Some(name),
            }
        }
        None
    }
}

/// The last record of a section, if all of them can be read.
fn last_of<'a>(mut section: RecordSection<'a>) -> Option<ParsedRecord<'a>>
    ensures record { option_map encoded_record result
        ≡ last_record (records_left section.entry) }
    ensures span { IfSome result (λ last. HasSpan (encoded_record last)) }
{
    let mut last = None;
    while let Some(record) = section.next() {
        last = Some(record.ok()?);
    }
    last
}

/// The name that `name` is an alias of, by the CNAME records in `answers`.
fn alias_of<'a>(answers: RecordSection<'a>, name: &ParsedName<'a>) -> Option<ParsedName<'a>>
    ensures { option_map labels result
        ≡ alias_of (limited cname_layout (records_left answers.entry)) (labels name.now) }
{
    let mut aliases = answers.limit_to::<Cname<ParsedName<'a>>>();
    while let Some(item) = aliases.next() {
        let Ok(record) = item else { continue };
        if record.owner() == name {
            return Some(record.into_data().into_cname());
        }
    }
    None
}
