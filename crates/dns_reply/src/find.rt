//! Searches for the records of a name, of a zone that it is in, and of those asked for.
ghost use Rattle.std.specs.Prelude.{◌≡◌, option_map};
ghost use Rattle.dns_item.specs.Question.{parsed_question};
ghost use Rattle.dns_item.specs.Record.{record_item};
ghost use Rattle.dns_name.specs.ParsedName.{labels};
ghost use Rattle.dns_read.specs.Limited.{limited};
ghost use Rattle.dns_read.specs.RecordSection.{records_left};
ghost use Rattle.dns_reply.specs.Finding.{is_owner, first_found};
ghost use Rattle.dns_reply.specs.Records.{owns_asked, asked_records, least_ttl};

use crate::owners::{asks_for_class, is_asked_for, is_below, is_within};
use dns_data::ParseRecordData;
use dns_iana::Class;
use dns_item::{Question, Record};
use dns_name::ParsedName;
use dns_read::RecordSection;

/// Which owners a search is for, given a zone and a name within it.
#[derive(Clone, Copy, Debug)]
pub(crate) enum Owner {
    /// The name itself.
    Name,
    /// A name above it, within the zone.
    Above,
    /// The name or one above it, within the zone.
    OfZone,
    /// The name or one above it, below the zone.
    OfCut,
    /// The name, one above it, or one within the zone.
    Related,
}

impl Owner {
    /// Whether `owner` is one of these.
    fn accepts(self, zone: &ParsedName<'_>, name: &ParsedName<'_>, owner: &ParsedName<'_>) -> bool
        ensures { result ≡ is_owner self (labels zone.now) (labels name.now) (labels owner.now) }
    {
        match self {
            Owner::Name => owner == name,
            Owner::Above => is_below(name, owner) && is_within(owner, zone),
            Owner::OfZone => is_within(name, owner) && is_within(owner, zone),
            Owner::OfCut => is_within(name, owner) && is_below(owner, zone),
            Owner::Related => is_within(name, owner) || is_within(owner, zone),
        }
    }
}

/// The first record that `D` accepts, with such an owner, in the classes that `qclass` asks for.
/// Malformed records are skipped.
pub(crate) fn first_found<'a, D: ParseRecordData<'a> + Drop>(
    section: RecordSection<'a>,
    owner: Owner,
    qclass: Class,
    zone: &ParsedName<'_>,
    name: &ParsedName<'_>,
) -> Option<Record<ParsedName<'a>, D>>
    ensures { option_map (record_item labels D.rtype_of D.parts) result
        ≡ first_found owner qclass (labels zone.now) (labels name.now)
        (limited D.layout (records_left section.entry)) }
{
    let mut records = section.limit_to::<D>();
    while let Some(item) = records.next() {
        let Ok(record) = item else { continue };
        if owner.accepts(zone, name, record.owner()) && asks_for_class(qclass, record.class()) {
            return Some(record);
        }
    }
    None
}

/// Whether a name owns a record that the question asks for.
pub(crate) fn owns_asked(
    mut answers: RecordSection<'_>,
    question: &Question<ParsedName<'_>>,
    name: &ParsedName<'_>,
) -> bool
    ensures { result ≡ owns_asked (parsed_question question.now) (records_left answers.entry)
        (labels name.now) }
{
    while let Some(item) = answers.next() {
        let Ok(record) = item else { continue };
        if is_asked_for(question, name, &record) {
            return true;
        }
    }
    false
}

/// The least of a TTL and those of the records that the question asks for of a name, in seconds.
pub(crate) fn least_ttl(
    mut answers: RecordSection<'_>,
    question: &Question<ParsedName<'_>>,
    name: &ParsedName<'_>,
    ttl: u32,
) -> u32
    ensures { result ≡ least_ttl ttl (asked_records (parsed_question question.now)
        (records_left answers.entry) (labels name.now)) }
{
    let mut least = ttl;
    while let Some(item) = answers.next() {
        let Ok(record) = item else { continue };
        if is_asked_for(question, name, &record) {
            least = least.min(record.ttl().as_secs());
        }
    }
    least
}
