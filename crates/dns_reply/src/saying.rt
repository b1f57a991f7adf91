//! What a reply says (RFC 1034 section 5.3.3, RFC 2308 section 2).
ghost use Rattle.std.specs.Prelude.{◌≡◌, ◌↔◌, ◌⊎◌, ◌==◌, ◌&&◌, IfErr, IfOk, IsTrue, None, OnOk, option_map};
ghost use Rattle.dns_item.specs.Question.{parsed_question};
ghost use Rattle.dns_name.specs.ParsedName.{labels};
ghost use Rattle.dns_read.specs.Message.{message_octets};
ghost use Rattle.dns_read.specs.RecordSection.{BeginsSection, records_left};
ghost use Rattle.dns_read.specs.declared.section.Section.TheVariants as sections;
ghost use Rattle.dns_reply.specs.Chains.{ttl_of_aliases};
ghost use Rattle.dns_reply.specs.Matches.{IsReply, IsNotReply};
ghost use Rattle.dns_reply.specs.Records.{has_ns, owns_asked, soa_for};
ghost use Rattle.dns_reply.specs.Replies.{said_of};
ghost use Rattle.dns_reply.specs.Sayings.{IsSound, Says, SaysAt, SaysNone, SaysOf, SaysTo, question_of};
ghost use Rattle.dns_reply.specs.declared.matching.LetterCase.TheVariants.{Ignored, Kept};

use crate::chain::chain_end;
use crate::checks::{check_sections, reads_many_opts};
use crate::dname::Dname;
use crate::find::{Owner, first_found, least_ttl, owns_asked};
use crate::matching::{LetterCase, check_reply};
use crate::owners::is_within;
use crate::reply::{Alias, Answer, Denial, NotReply, Redirection, Referral, Reply, Unusable};
use dns_data::{Ns, Soa};
use dns_iana::{Class, Opcode, OptRcode};
use dns_item::Question;
use dns_name::{ParsedName, ToName};
use dns_octets::Octets;
use dns_read::{Message, RecordSection};

/// What a received message says of the first question of `query`, if it is a reply to that,
/// whatever the letter case of its question.
///
/// `zone` is the name of the zone that the server was asked about: the root for a server that
/// resolves, else the zone of the server. No record whose owner isn't within it counts, but NS
/// records of a zone above can make the reply `Lame`, and any malformed record `Unreadable`.
///
/// Ask `is_regular` of the module `edit` first: a message that isn't regular can take seconds.
pub fn reply_to<'a, Asked: Octets, Received: Octets, N: ToName>(
    query: &Message<Asked>,
    received: &'a Message<Received>,
    zone: &N,
) -> Result<Reply<'a>, NotReply>
    ensures reply { OnOk result (IsReply Ignored (message_octets received.now)
        (message_octets query.now)) }
    ensures says { IfOk result (λ reply. Says (message_octets received.now) (N.name zone.now)
        (said_of reply)) }
    ensures reason { IfErr result (IsNotReply Ignored (message_octets received.now)
        (message_octets query.now)) }
{
    match check_reply(query, received, LetterCase::Ignored) {
        Ok(()) => Ok(said(received, &zone.as_parsed())),
        Err(reason) => Err(reason),
    }
}

/// As [`reply_to`], but the question has to repeat the query's name octet for octet.
pub fn reply_to_exact<'a, Asked: Octets, Received: Octets, N: ToName>(
    query: &Message<Asked>,
    received: &'a Message<Received>,
    zone: &N,
) -> Result<Reply<'a>, NotReply>
    ensures reply { OnOk result (IsReply Kept (message_octets received.now)
        (message_octets query.now)) }
    ensures says { IfOk result (λ reply. Says (message_octets received.now) (N.name zone.now)
        (said_of reply)) }
    ensures reason { IfErr result (IsNotReply Kept (message_octets received.now)
        (message_octets query.now)) }
{
    match check_reply(query, received, LetterCase::Kept) {
        Ok(()) => Ok(said(received, &zone.as_parsed())),
        Err(reason) => Err(reason),
    }
}

/// What a reply says.
fn said<'a, Octs: Octets>(received: &'a Message<Octs>, zone: &ParsedName<'_>) -> Reply<'a>
    ensures { Says (message_octets received.now) (labels zone.now) (said_of result) }
{
    if received.header().tc() {
        return Reply::Truncated;
    }
    let Some(question) = question_of(received) else {
        let rcode = received.opt_rcode();
        if rcode == OptRcode::NOERROR {
            return Reply::Done;
        }
        return Reply::Failed(rcode);
    };
    said_to(received, zone, &question)
}

/// What a reply to a question says.
fn said_to<'a, Octs: Octets>(
    received: &'a Message<Octs>,
    zone: &ParsedName<'_>,
    question: &Question<ParsedName<'a>>,
) -> Reply<'a>
    ensures { SaysTo (message_octets received.now) (labels zone.now)
        (parsed_question question.now) (said_of result) }
{
    match received.sections() {
        Ok((_questions, answers, authorities, additionals)) => {
            if let Err(error) = check_sections(answers, authorities, additionals) {
                return Reply::Unusable(Unusable::Unreadable(error));
            }
            if reads_many_opts(additionals) {
                return Reply::Unusable(Unusable::ManyOpts);
            }
            said_soundly(received, zone, question, answers, authorities)
        }
        Err(error) => Reply::Unusable(Unusable::Unreadable(error)),
    }
}

/// What a reply to a question says whose records count.
fn said_soundly<'a, Octs: Octets>(
    received: &'a Message<Octs>,
    zone: &ParsedName<'_>,
    question: &Question<ParsedName<'a>>,
    answers: RecordSection<'a>,
    authorities: RecordSection<'a>,
) -> Reply<'a>
    requires sound { IsSound (message_octets received.now) }
    requires answers { BeginsSection sections.Answer (message_octets received.now) answers }
    requires authorities { BeginsSection sections.Authority (message_octets received.now)
        authorities }
    ensures { SaysTo (message_octets received.now) (labels zone.now)
        (parsed_question question.now) (said_of result) }
{
    let rcode = received.opt_rcode();
    if !is_of_name(rcode) {
        return Reply::Failed(rcode);
    }
    said_of_question(answers, authorities, rcode, zone, question)
}

/// Whether a reply with this RCODE says something of a name: with NOERROR, or with NXDOMAIN.
fn is_of_name(rcode: OptRcode) -> bool
    ensures { IsTrue result ↔ ((rcode ≡ 0) ⊎ (rcode ≡ 3)) }
{
    rcode == OptRcode::NOERROR || rcode == OptRcode::NXDOMAIN
}

/// The question that a message answers: its first, if the opcode is QUERY.
fn question_of<'a, Octs: Octets>(received: &'a Message<Octs>) -> Option<Question<ParsedName<'a>>>
    ensures { option_map parsed_question result ≡ question_of (message_octets received.now) }
{
    if received.header().opcode() == Opcode::QUERY {
        received.first_question()
    } else {
        None
    }
}

/// What a reply with NOERROR or a name error says of its question.
fn said_of_question<'a>(
    answers: RecordSection<'a>,
    authorities: RecordSection<'a>,
    rcode: OptRcode,
    zone: &ParsedName<'_>,
    question: &Question<ParsedName<'a>>,
) -> Reply<'a>
    requires { (rcode ≡ 0) ⊎ (rcode ≡ 3) }
    ensures { SaysOf (records_left answers.entry) (records_left authorities.entry) rcode
        (labels zone.now) (parsed_question question.now) (said_of result) }
{
    let Some((name, ttl)) = chain_end(answers, question, zone) else {
        return Reply::Unusable(Unusable::Loop);
    };
    if !is_within(&name, zone) {
        let alias_ttl = ttl_of_aliases(question, &name, ttl);
        return Reply::Alias(Alias {
            name,
            ttl: alias_ttl.unwrap_or(0),
        });
    }
    said_at(answers, authorities, rcode, zone, question, name, ttl)
}

/// What a reply says of the name at the end of the chain of aliases, whose least TTL is `ttl`.
fn said_at<'a>(
    answers: RecordSection<'a>,
    authorities: RecordSection<'a>,
    rcode: OptRcode,
    zone: &ParsedName<'_>,
    question: &Question<ParsedName<'_>>,
    name: ParsedName<'a>,
    ttl: u32,
) -> Reply<'a>
    requires { (rcode ≡ 0) ⊎ (rcode ≡ 3) }
    ensures { SaysAt (records_left answers.entry) (records_left authorities.entry) rcode
        (labels zone.now) (parsed_question question.now) (labels name.entry) ttl (said_of result) }
{
    if is_answered(answers, rcode, question, &name) {
        let ttl = least_ttl(answers, question, &name, ttl);
        return Reply::Answer(Answer {
            name,
            section: answers,
            ttl,
        });
    }
    let qclass = question.qclass();
    match first_found::<Dname<'a>>(answers, Owner::Above, qclass, zone, &name) {
        Some(record) => Reply::Dname(Redirection {
            name,
            owner: *record.owner(),
            target: record.data().target(),
            ttl: ttl.min(record.ttl().as_secs()),
        }),
        None => {
            let alias_ttl = ttl_of_aliases(question, &name, ttl);
            said_none(authorities, rcode, qclass, zone, name, alias_ttl)
        }
    }
}

/// The least TTL of the aliases that lead to a name, which is `ttl` unless the name is the
/// question's own.
fn ttl_of_aliases(
    question: &Question<ParsedName<'_>>,
    name: &ParsedName<'_>,
    ttl: u32,
) -> Option<u32>
    ensures { result ≡ ttl_of_aliases (parsed_question question.now) (labels name.now) ttl }
{
    if *name == *question.qname() {
        None
    } else {
        Some(ttl)
    }
}

/// Whether there is no error, and the name owns a record that the question asks for.
fn is_answered(
    answers: RecordSection<'_>,
    rcode: OptRcode,
    question: &Question<ParsedName<'_>>,
    name: &ParsedName<'_>,
) -> bool
    ensures { result ≡ ((rcode == 0) && owns_asked (parsed_question question.now)
        (records_left answers.entry) (labels name.now)) }
{
    rcode == OptRcode::NOERROR && owns_asked(answers, question, name)
}

/// What the authority section says of a name that owns no record asked for. `alias_ttl` is the least
/// TTL of the aliases that lead to it, if there are any.
fn said_none<'a>(
    authorities: RecordSection<'a>,
    rcode: OptRcode,
    qclass: Class,
    zone: &ParsedName<'_>,
    name: ParsedName<'a>,
    alias_ttl: Option<u32>,
) -> Reply<'a>
    requires { (rcode ≡ 0) ⊎ (rcode ≡ 3) }
    ensures { SaysNone (records_left authorities.entry) rcode qclass (labels zone.now)
        (labels name.entry) alias_ttl (said_of result) }
{
    let soa = first_found::<Soa<ParsedName<'a>>>(authorities, Owner::OfZone, qclass, zone, &name);
    let denial = Denial {
        name,
        soa,
        alias_ttl,
    };
    if rcode == OptRcode::NXDOMAIN {
        return Reply::NoName(denial);
    }
    if soa.is_some() {
        return Reply::NoData(denial);
    }
    said_by_servers(authorities, qclass, zone, name, alias_ttl)
}

/// What NS records say of a name that owns no record asked for, without an SOA record.
fn said_by_servers<'a>(
    authorities: RecordSection<'a>,
    qclass: Class,
    zone: &ParsedName<'_>,
    name: ParsedName<'a>,
    alias_ttl: Option<u32>,
) -> Reply<'a>
    requires { soa_for qclass (labels zone.now) (records_left authorities) (labels name) ≡ None }
    ensures { SaysNone (records_left authorities.entry) 0 qclass (labels zone.now)
        (labels name.entry) alias_ttl (said_of result) }
{
    let no_data = Reply::NoData(Denial {
        name,
        soa: None,
        alias_ttl,
    });
    if !has_ns(authorities, qclass, zone, &name) {
        return no_data;
    }
    match first_found::<Ns<ParsedName<'a>>>(authorities, Owner::OfCut, qclass, zone, &name) {
        Some(record) => Reply::Referral(Referral {
            name,
            cut: *record.owner(),
            alias_ttl,
        }),
        None => {
            if alias_ttl.is_some() {
                return no_data;
            }
            Reply::Unusable(Unusable::Lame)
        }
    }
}

/// Whether there is an NS record of a zone that the name is in, or of one within the zone.
fn has_ns(
    authorities: RecordSection<'_>,
    qclass: Class,
    zone: &ParsedName<'_>,
    name: &ParsedName<'_>,
) -> bool
    ensures { result ≡ has_ns qclass (labels zone.now) (records_left authorities.entry)
        (labels name.now) }
{
    first_found::<Ns<ParsedName<'_>>>(authorities, Owner::Related, qclass, zone, name).is_some()
}
