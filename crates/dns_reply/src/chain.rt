//! Chains of aliases (RFC 1034 section 3.6.2).
ghost use Rattle.std.specs.Prelude.{◌≡◌, option_map};
ghost use Rattle.dns_item.specs.Question.{parsed_question};
ghost use Rattle.dns_name.specs.ParsedName.{labels};
ghost use Rattle.dns_read.specs.RecordSection.{records_left};
ghost use Rattle.dns_reply.specs.Chains.{name_and_ttl, next_alias, ChainEnds};
ghost use Rattle.dns_reply.specs.Records.{alias_at};

use crate::find::{Owner, first_found, owns_asked};
use crate::owners::is_within;
use dns_data::Cname;
use dns_iana::Class;
use dns_item::Question;
use dns_name::ParsedName;
use dns_read::RecordSection;

/// The limit on names in a chain, including the question's.
const MOST_NAMES: usize = 20;

/// The name at the end of the chain of aliases, and the least TTL of these in seconds: `u32::MAX`
/// if there are none. Returns `None` if the chain goes on from 20 names.
pub(crate) fn chain_end<'a>(
    answers: RecordSection<'a>,
    question: &Question<ParsedName<'a>>,
    zone: &ParsedName<'_>,
) -> Option<(ParsedName<'a>, u32)>
    ensures { ChainEnds (labels zone.now) (parsed_question question.now)
        (records_left answers.entry) (option_map name_and_ttl result) }
{
    let mut name = *question.qname();
    let mut ttl = u32::MAX;
    for _name in 0..MOST_NAMES {
        match next_alias(answers, question, zone, &name) {
            Some((target, seconds)) => {
                name = target;
                ttl = ttl.min(seconds);
            }
            None => return Some((name, ttl)),
        }
    }
    None
}

/// Where a chain goes on from a name, with the TTL of the alias: nowhere from a name outside the
/// zone, or one that owns a record that the question asks for.
fn next_alias<'a>(
    answers: RecordSection<'a>,
    question: &Question<ParsedName<'_>>,
    zone: &ParsedName<'_>,
    name: &ParsedName<'_>,
) -> Option<(ParsedName<'a>, u32)>
    ensures { option_map name_and_ttl result ≡ next_alias (labels zone.now)
        (parsed_question question.now) (records_left answers.entry) (labels name.now) }
{
    if !is_within(name, zone) || owns_asked(answers, question, name) {
        return None;
    }
    alias_at(answers, question.qclass(), zone, name)
}

/// The name that a name is an alias of, with the TTL of its first CNAME record.
fn alias_at<'a>(
    answers: RecordSection<'a>,
    qclass: Class,
    zone: &ParsedName<'_>,
    name: &ParsedName<'_>,
) -> Option<(ParsedName<'a>, u32)>
    ensures { option_map name_and_ttl result
        ≡ alias_at qclass (records_left answers.entry) (labels name.now) }
{
    match first_found::<Cname<ParsedName<'a>>>(answers, Owner::Name, qclass, zone, name) {
        Some(record) => {
            let ttl = record.ttl().as_secs();
            Some((*record.data().cname(), ttl))
        }
        None => None,
    }
}
