//! Records as lines (RFC 1035 section 5.1).
ghost use Rattle.std.specs.Prelude.{ℕ, MatchOption};
ghost use Rattle.fields_records.specs.RecordWords.{AreHeadWords, ReadsRecord};
ghost use Rattle.dns_name.specs.NameReading.{name_labels};
ghost use Rattle.dns_name.specs.Names.{Labels};

use crate::data::from_text;
use arrayvec::ArrayVec;
use dns_code::Ttl;
use dns_iana::{Class, Rtype};
use dns_item::Record;
use dns_name::Name;
use fields_plain::{read_name, read_type};
use fields_table::OwnedFieldData;
use fields_text::{TextError, read_number};
use std::alloc::Global;

/// A name that owns its octets.
type OwnedName = Name<ArrayVec<u8, 255>>;

/// The owner, the TTL, the class and the type, of which the first four words are texts.
fn read_head(words: &[&str]) -> Option<(OwnedName, Ttl, Class, Rtype)>
    ensures { MatchOption result
        ((owner : Labels) (ttl class rtype : ℕ) → ¬ (AreHeadWords words.now owner ttl class rtype))
        (λ head. AreHeadWords words.now (name_labels head.0) head.1 head.2 head.3) }
{
    let [owner, ttl, class, rtype, ..] = words else {
        return None;
    };
    let owner = read_name(owner)?;
    let ttl = read_number(ttl, 0xffff_ffff)?;
    let class = Class::from_registered_name(class)?;
    let rtype = read_type(rtype)?;
    Some((owner, Ttl::from_secs(ttl as u32), class, rtype))
}

/// The record that the words represent: its owner, its TTL in seconds, its class, its type, and
/// its RDATA as `from_text` reads it.
pub fn read_record(
    alloc: Global,
    words: &[&str],
) -> Result<Record<Name<ArrayVec<u8, 255>>, OwnedFieldData>, TextError>
    ensures { ReadsRecord words.now result }
{
    let Some((owner, ttl, class, rtype)) = read_head(words) else {
        return Err(TextError::BadWord);
    };
    match from_text(alloc, rtype, &words[4..]) {
        Ok(value) => Ok(Record::new(owner, class, ttl, value)),
        Err(error) => Err(error),
    }
}
