//! Responses to queries about a zone (RFC 1035 section 4.1.1).
ghost use Rattle.std.specs.Prelude.{◌≡◌, [], ◌∷◌, IfErr, IfOk, map, option_map};
ghost use Rattle.std.specs.List.{flat_map};
ghost use Rattle.std.specs.Option.{option_copied};
ghost use Rattle.dns_message.specs.Builders.{InAdditional, InAnswer, InAuthority, MovesState, Represents, gathered};
ghost use Rattle.dns_message.specs.Messages.{message_octets};
ghost use Rattle.dns_message.specs.Names.{name_labels};
ghost use Rattle.dns_message.specs.Targets.{Tree};
ghost use Rattle.example_response.specs.Answers.{end_of, is_authoritative as has_aa, step_shown};
ghost use Rattle.example_response.specs.Filling.{Fits, filled as filled_state};
ghost use Rattle.example_response.specs.Sets.{additional_sets, address_sets, answer_sets, authority_sets, found_sets, glue_sets, made_sets, named_set, redirection_sets};
ghost use Rattle.example_response.specs.Responses.{IsAnswered, IsEnded, IsEndedBy, IsReason, IsReasonFor, IsResponse, opt_for, own_opt as with_payload, started as started_state};
ghost use Rattle.example_response.specs.Zones.{case_shown};

use crate::answer::{Step, is_authoritative, name_in, owned, rcode_of, steps};
use crate::question::asked;
use crate::zone::{Case, OwnName, Rrset, Zone, is_within};
use dns_message::builder::{
    AnswerBuilder, AtAdditional, AtAnswer, AtAuthority, MessageBuilder, OptBuilder, PushError,
    RecordStage, ReservedBuilder,
};
use dns_message::code::{Rcode, Rtype};
use dns_message::data::Cname;
use dns_message::fields::OwnedFieldData;
use dns_message::message::Message;
use dns_message::name::ToName;
use dns_message::record::ComposeRecord;
use dns_message::target::TreeCompressor;
use std::alloc::{AllocError, Global};

/// What responses are written to: octets, with names compressed.
type Target = TreeCompressor<Vec<u8>>;

/// A response at a section. Sets of records that don't fit are left out.
type Fitting<S> = ReservedBuilder<Target, S>;

/// The UDP payload size of our OPT records (RFC 6891 section 6.2.5).
const PAYLOAD_SIZE: u16 = 1232;

/// The octets of an OPT record without options (RFC 6891 section 6.1.2).
const OPT_OCTETS: u16 = 11;

/// The response to a query about a zone, of at most `limit` octets.
///
/// A query with two OPT records gets FORMERR, with an EDNS version above 0 BADVERS, with another
/// opcode than QUERY NOTIMP, without exactly one question FORMERR, in another class than IN REFUSED,
/// and for a type that no record of a zone has, such as AXFR, NOTIMP.
pub fn response(
    alloc: Global,
    zone: &Zone,
    query: &Message<Vec<u8>>,
    limit: u16,
) -> Result<Message<Vec<u8>>, PushError>
    ensures ok { IfOk result (λ response. IsResponse zone.now limit (message_octets query.now)
        (message_octets response)) }
    ensures err { IfErr result (IsReason zone.now limit (message_octets query.now)) }
{
    match asked(query) {
        Ok(question) => {
            let name = owned(alloc, *question.qname());
            match steps(alloc, zone, name, question.qtype()) {
                Ok(steps) => answered(alloc, zone, query, rcode_of(&steps), &steps, limit),
                Err(_error) => Err(PushError::OutOfMemory),
            }
        }
        Err(rcode) => answered(alloc, zone, query, rcode, &[], limit),
    }
}

/// The response to a query with this rcode and the records of these steps.
fn answered(
    alloc: Global,
    zone: &Zone,
    query: &Message<Vec<u8>>,
    rcode: Rcode,
    steps: &[Step<'_>],
    limit: u16,
) -> Result<Message<Vec<u8>>, PushError>
    ensures ok { IfOk result (λ response. IsAnswered zone.now rcode (map step_shown steps.now)
        limit (message_octets query.now) (message_octets response)) }
    ensures err { IfErr result (IsReasonFor rcode
        (has_aa (map step_shown steps.now)) limit (message_octets query.now)) }
{
    let authoritative = is_authoritative(steps);
    let (builder, opt) = match started(alloc, query, rcode, authoritative, limit) {
        Ok(response) => response,
        Err(error) => return Err(error),
    };
    let reserved = if opt.is_some() { OPT_OCTETS } else { 0 };
    match builder.fit(usize::from(limit), reserved) {
        Ok(builder) => match filled(alloc, builder, zone, steps) {
            Ok(builder) => ended(builder, opt),
            Err(_error) => Err(PushError::OutOfMemory),
        },
        Err((_builder, error)) => Err(error),
    }
}

/// Starts a response, and makes its OPT record if the query has one. CD is only for servers that
/// resolve (RFC 4035 section 3.1.6).
fn started(
    alloc: Global,
    query: &Message<Vec<u8>>,
    rcode: Rcode,
    authoritative: bool,
    limit: u16,
) -> Result<(AnswerBuilder<Target>, Option<OptBuilder>), PushError>
    ensures state { IfOk result (λ response. Represents InAnswer Tree
        (started_state rcode authoritative limit (message_octets query.now)) response.0) }
    ensures opt { IfOk result (λ response. option_map gathered response.1
        ≡ opt_for rcode (message_octets query.now)) }
    ensures err { IfErr result (IsReasonFor rcode authoritative limit (message_octets query.now)) }
{
    let target = TreeCompressor::new(alloc, Vec::new(alloc));
    let mut builder = MessageBuilder::from_target(target)?;
    builder.set_push_limit(usize::from(limit));
    match builder.respond(alloc, query, rcode) {
        Ok((mut builder, opt)) => {
            let mut header = builder.header();
            header.set_aa(authoritative);
            header.set_cd(false);
            builder.set_header(header);
            Ok((builder, own_opt(opt)))
        }
        Err(error) => Err(error),
    }
}

/// The OPT record of a response with our UDP payload size.
fn own_opt(opt: Option<OptBuilder>) -> Option<OptBuilder>
    ensures { option_map gathered result ≡ option_map with_payload (option_map gathered opt) }
{
    let Some(mut opt) = opt else {
        return None;
    };
    opt.set_udp_payload_size(PAYLOAD_SIZE);
    Some(opt)
}

/// Adds the records of the steps to the three sections, as far as they fit.
fn filled(
    alloc: Global,
    builder: Fitting<AtAnswer>,
    zone: &Zone,
    steps: &[Step<'_>],
) -> Result<Fitting<AtAdditional>, AllocError>
    ensures filled { IfOk result (λ new. MovesState InAnswer InAdditional Tree
        (filled_state builder.reserved zone.now (map step_shown steps.now))
        builder.built new.built) }
    ensures reserved { IfOk result (λ new. new.reserved ≡ builder.reserved) }
{
    let end = end_of(steps);
    let mut builder = builder;
    push_answers(alloc, &mut builder, steps)?;
    let mut builder = builder.authority();
    push_authorities(&mut builder, zone, &end)?;
    let mut builder = builder.additional();
    push_additionals(&mut builder, zone, &end)?;
    Ok(builder)
}

/// Adds the answers of all steps.
fn push_answers(
    alloc: Global,
    builder: &mut Fitting<AtAnswer>,
    steps: &[Step<'_>],
) -> Result<(), AllocError>
    ensures fits { Fits InAnswer (flat_map answer_sets (map step_shown steps.now))
        builder.old builder.new result }
    ensures reserved { builder.new.reserved ≡ builder.old.reserved }
{
    for step in steps {
        push_step(alloc, builder, step)?;
    }
    Ok(())
}

/// Adds the answers of a step.
fn push_step(
    alloc: Global,
    builder: &mut Fitting<AtAnswer>,
    step: &Step<'_>,
) -> Result<(), AllocError>
    ensures fits { Fits InAnswer (answer_sets (step_shown step.now))
        builder.old builder.new result }
    ensures reserved { builder.new.reserved ≡ builder.old.reserved }
{
    match step.case {
        Case::Found(set, _by) => push_found(alloc, builder, step, set),
        Case::Alias(set, _by) => push_named(alloc, builder, &step.name, set),
        Case::Redirected(set) => {
            push_redirection(builder, step, set)?;
            push_made(builder, step, set.ttl)
        }
        _ => Ok(()),
    }
}

/// Adds the records that are asked for, unless an earlier step has them.
fn push_found(
    alloc: Global,
    builder: &mut Fitting<AtAnswer>,
    step: &Step<'_>,
    set: &Rrset,
) -> Result<(), AllocError>
    ensures fits { Fits InAnswer (found_sets (step_shown step.now) set.now)
        builder.old builder.new result }
    ensures reserved { builder.new.reserved ≡ builder.old.reserved }
{
    if step.repeats {
        return Ok(());
    }
    push_named(alloc, builder, &step.name, set)
}

/// Adds DNAME records, unless an earlier step has them.
fn push_redirection(
    builder: &mut Fitting<AtAnswer>,
    step: &Step<'_>,
    set: &Rrset,
) -> Result<(), AllocError>
    ensures fits { Fits InAnswer (redirection_sets (step_shown step.now) set.now)
        builder.old builder.new result }
    ensures reserved { builder.new.reserved ≡ builder.old.reserved }
{
    if step.repeats {
        return Ok(());
    }
    push_set(builder, true, &set.records)
}

/// Adds a set with this name as the owner, which isn't that of a wildcard (RFC 4592 section 3.3.1).
fn push_named(
    alloc: Global,
    builder: &mut Fitting<AtAnswer>,
    name: &OwnName,
    set: &Rrset,
) -> Result<(), AllocError>
    ensures fits { Fits InAnswer (named_set (name_labels name.now) set.now ∷ [])
        builder.old builder.new result }
    ensures reserved { builder.new.reserved ≡ builder.old.reserved }
{
    let mut records = Vec::new(alloc);
    for record in &set.records {
        match records.push((name, record.class(), record.ttl(), record.data())) {
            Ok(()) => {}
            Err(_failed) => return Err(AllocError),
        }
    }
    push_set(builder, true, &records)
}

/// Adds the CNAME record that a DNAME record makes, if it leads to a name (RFC 6672 section 3.1).
fn push_made(builder: &mut Fitting<AtAnswer>, step: &Step<'_>, ttl: u32) -> Result<(), AllocError>
    ensures fits { Fits InAnswer (made_sets (step_shown step.now) ttl)
        builder.old builder.new result }
    ensures reserved { builder.new.reserved ≡ builder.old.reserved }
{
    match &step.next {
        Some(next) => push_set(builder, true, &[(&step.name, ttl, Cname::new(next))]),
        None => Ok(()),
    }
}

/// The case of the last step. Without a step nothing is said of a zone.
fn end_of<'z>(steps: &[Step<'z>]) -> Case<'z>
    ensures { case_shown result ≡ end_of (map step_shown steps.now) }
{
    match steps.last() {
        Some(step) => step.case,
        None => Case::Refused,
    }
}

/// Adds the NS records of a delegation, or the SOA record of a denial (RFC 2308 section 3).
fn push_authorities(
    builder: &mut Fitting<AtAuthority>,
    zone: &Zone,
    end: &Case<'_>,
) -> Result<(), AllocError>
    ensures fits { Fits InAuthority (authority_sets zone.now (case_shown end.now))
        builder.old builder.new result }
    ensures reserved { builder.new.reserved ≡ builder.old.reserved }
{
    match end {
        Case::Delegated(cut) => push_set(builder, true, &cut.records),
        Case::NoData(_by) => push_set(builder, true, &[&zone.denial]),
        Case::NoName => push_set(builder, true, &[&zone.denial]),
        _ => Ok(()),
    }
}

/// Adds the addresses of the name servers of a delegation (RFC 1034 section 4.2.1).
fn push_additionals(
    builder: &mut Fitting<AtAdditional>,
    zone: &Zone,
    end: &Case<'_>,
) -> Result<(), AllocError>
    ensures fits { Fits InAdditional (additional_sets zone.now (case_shown end.now))
        builder.old builder.new result }
    ensures reserved { builder.new.reserved ≡ builder.old.reserved }
{
    let Case::Delegated(cut) = end else {
        return Ok(());
    };
    for record in &cut.records {
        push_glue(builder, zone, cut, record.data())?;
    }
    Ok(())
}

/// Adds the addresses of a name server of a delegation. They are required if it is in the zone that
/// is delegated (RFC 9471 section 3.1).
fn push_glue(
    builder: &mut Fitting<AtAdditional>,
    zone: &Zone,
    cut: &Rrset,
    data: &OwnedFieldData,
) -> Result<(), AllocError>
    ensures fits { Fits InAdditional (glue_sets zone.now cut.now data.now)
        builder.old builder.new result }
    ensures reserved { builder.new.reserved ≡ builder.old.reserved }
{
    if let Some(host) = name_in(data) {
        let required = is_within(&host, &cut.owner.as_parsed());
        push_addresses(builder, zone.set_at(&host, Rtype::A), required)?;
        push_addresses(builder, zone.set_at(&host, Rtype::AAAA), required)?;
    }
    Ok(())
}

/// Adds a set, if there is one.
fn push_addresses(
    builder: &mut Fitting<AtAdditional>,
    set: Option<&Rrset>,
    required: bool,
) -> Result<(), AllocError>
    ensures fits { Fits InAdditional (address_sets (option_copied set.entry) required)
        builder.old builder.new result }
    ensures reserved { builder.new.reserved ≡ builder.old.reserved }
{
    match set {
        Some(set) => push_set(builder, required, &set.records),
        None => Ok(()),
    }
}

/// Adds these records if they fit. If not, TC is set if they are required.
fn push_set<S: RecordStage, R: ComposeRecord>(
    builder: &mut Fitting<S>,
    required: bool,
    records: &[R],
) -> Result<(), AllocError>
    ensures fits { Fits S.stage (record { required = required; records = map R.item records.now }
        ∷ []) builder.old builder.new result }
    ensures reserved { builder.new.reserved ≡ builder.old.reserved }
{
    if required {
        builder.push_required(records)?;
        return Ok(());
    }
    builder.push_optional(records)?;
    Ok(())
}

/// The message of a builder, with this OPT record in the reserved octets.
fn ended(
    builder: Fitting<AtAdditional>,
    opt: Option<OptBuilder>,
) -> Result<Message<Vec<u8>>, PushError>
    ensures ok { IfOk result (λ message. IsEnded builder (option_map gathered opt)
        (message_octets message)) }
    ensures err { IfErr result (IsEndedBy builder (option_map gathered opt)) }
{
    let Some(opt) = opt else {
        return Ok(builder.release().into_message());
    };
    match builder.push_opt(&opt) {
        Ok(builder) => Ok(builder.into_message()),
        Err((_builder, error)) => Err(error),
    }
}
