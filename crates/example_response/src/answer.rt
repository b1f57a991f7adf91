//! The names of an answer: the one that is asked for, and those that aliases lead to (RFC 1034
//! section 4.3.2).
ghost use Rattle.std.specs.Prelude.{◌≡◌, [], IfOk, map, option_map};
ghost use Rattle.std.specs.List.{list_any};
ghost use Rattle.dns_message.specs.Names.{labels, name_labels};
ghost use Rattle.example_response.specs.Answers.{are_redirected_by, is_authoritative, is_named, is_redirected_by, most_names, name_in, next_of, rcode_of, repeats_dname, step_shown, steps_from, target_of};
ghost use Rattle.example_response.specs.Zones.{case_shown};

use crate::zone::{Case, OwnName, Rrset, Zone};
use dns_message::code::{Rcode, Rtype};
use dns_message::fields::{OwnedFieldData, Value};
use dns_message::name::{ParsedName, ToName};
use dns_message::reply::substitute;
use dns_message::wire::{AppendError, FlattenInto};
use std::alloc::{AllocError, Global};

/// A name of an answer, its case in the zone, and the name that it leads to.
#[derive(Debug, Drop)]
pub struct Step<'z> {
    pub name: OwnName,
    pub case: Case<'z>,
    pub next: Option<OwnName>,
    /// Whether an earlier step has the records of the case, which are DNAME records.
    pub repeats: bool,
}

/// The steps of an answer: that of the name that is asked for, and those of the names that aliases
/// lead to. No name is there twice, as aliases may be loops.
pub fn steps<'z>(
    alloc: Global,
    zone: &'z Zone,
    name: OwnName,
    qtype: Rtype,
) -> Result<Vec<Step<'z>>, AllocError>
    ensures { IfOk result (λ steps. map step_shown steps.items
        ≡ steps_from zone.now qtype (most_names qtype) [] (Some (name_labels name))) }
{
    let most = most_names(qtype);
    let mut steps = Vec::new(alloc);
    let mut current = Some(name);
    for _count in 0..most {
        let Some(name) = current else {
            return Ok(steps);
        };
        if is_among(&name, &steps) {
            return Ok(steps);
        }
        let case = zone.case_of(&name.as_parsed(), qtype);
        let next = next_of(alloc, &name, &case);
        let repeats = repeats_dname(&steps, &name, &case);
        current = next.clone()?;
        steps.push(Step {
            name,
            case,
            next,
            repeats,
        })?;
    }
    Ok(steps)
}

/// Whether a name is that of a step.
fn is_among(name: &OwnName, steps: &[Step<'_>]) -> bool
    ensures { result ≡ list_any (λ step. is_named (name_labels name.now) (step_shown step))
        steps.now }
{
    steps.iter().any(|step| step.name == *name)
}

/// Whether the records of a case are DNAME records that redirect an earlier name: an answer has
/// them once (RFC 2181 section 5).
fn repeats_dname(steps: &[Step<'_>], name: &OwnName, case: &Case<'_>) -> bool
    ensures { result ≡ repeats_dname (map step_shown steps.now) (name_labels name.now)
        (case_shown case.now) }
{
    match case {
        Case::Redirected(set) => are_redirected_by(steps, &set.owner),
        Case::Found(set, _by) => set.rtype == Rtype::DNAME && are_redirected_by(steps, name),
        _ => false,
    }
}

/// Whether the DNAME records of this owner redirect one of the names.
fn are_redirected_by(steps: &[Step<'_>], owner: &OwnName) -> bool
    ensures { result ≡ are_redirected_by (name_labels owner.now) (map step_shown steps.now) }
{
    has_redirected(steps, owner)
}

/// Whether they redirect the name of one of the steps.
fn has_redirected(steps: &[Step<'_>], owner: &OwnName) -> bool
    ensures { result ≡ list_any (λ step. is_redirected_by (name_labels owner.now) (step_shown step))
        steps.now }
{
    steps.iter().any(|step| is_redirected_by(step, owner))
}

/// Whether the DNAME records of this owner redirect the name of a step.
fn is_redirected_by(step: &Step<'_>, owner: &OwnName) -> bool
    ensures { result ≡ is_redirected_by (name_labels owner.now) (step_shown step.now) }
{
    match step.case {
        Case::Redirected(set) => set.owner == *owner,
        _ => false,
    }
}

/// The most names of an answer: chains of aliases may be long (RFC 1034 section 5.3.3). If CNAME
/// records are asked for, the first one is the answer, even if a DNAME record makes it.
fn most_names(qtype: Rtype) -> usize
    ensures { result ≡ most_names qtype }
{
    if qtype == Rtype::CNAME { 1 } else { 20 }
}

/// The name that a name leads to by its case: the target of a CNAME record, or the name with the
/// target of a DNAME record in place of its owner, unless that is too long (RFC 6672 section 2.2).
fn next_of(alloc: Global, name: &OwnName, case: &Case<'_>) -> Option<OwnName>
    ensures { option_map name_labels result ≡ next_of (name_labels name.now) (case_shown case.now) }
{
    match case {
        Case::Alias(set, _by) => match target_of(set) {
            Some(target) => Some(owned(alloc, target)),
            None => None,
        },
        Case::Redirected(set) => match target_of(set) {
            Some(target) => substitute(name, &set.owner, &target),
            None => None,
        },
        _ => None,
    }
}

/// The name in the RDATA of the first record of a set.
fn target_of(set: &Rrset) -> Option<ParsedName<'_>>
    ensures { option_map labels result ≡ target_of set.now }
{
    match set.records.first() {
        Some(record) => name_in(record.data()),
        None => None,
    }
}

/// The first field of RDATA, if it is a name, as in CNAME, DNAME and NS.
pub fn name_in(data: &OwnedFieldData) -> Option<ParsedName<'_>>
    ensures { option_map labels result ≡ name_in data.now }
{
    let mut fields = data.as_field_data().fields();
    let Some(field) = fields.next() else {
        return None;
    };
    match field.value() {
        Value::Name(name) => Some(name),
        _ => None,
    }
}

/// A copy of a name.
pub fn owned(alloc: Global, name: ParsedName<'_>) -> OwnName
    ensures { name_labels result ≡ labels name.entry }
{
    let copy: Result<OwnName, AppendError> = name.try_flatten_into(alloc);
    copy.unwrap()
}

/// AA: whether the zone has authority over the name that is asked for.
pub fn is_authoritative(steps: &[Step<'_>]) -> bool
    ensures { result ≡ is_authoritative (map step_shown steps.now) }
{
    match steps.first() {
        Some(step) => !matches!(step.case, Case::Refused | Case::Delegated(_)),
        None => false,
    }
}

/// The rcode of an answer: that of its last name (RFC 6604 section 3). REFUSED is only for the name
/// that is asked for.
pub fn rcode_of(steps: &[Step<'_>]) -> Rcode
    ensures { result ≡ rcode_of (map step_shown steps.now) }
{
    let Some(end) = steps.last() else {
        return Rcode::NOERROR;
    };
    match end.case {
        Case::Refused if !is_authoritative(steps) => Rcode::REFUSED,
        Case::NoName => Rcode::NXDOMAIN,
        Case::Redirected(_) if end.next.is_none() => Rcode::YXDOMAIN,
        _ => Rcode::NOERROR,
    }
}
