//! Reads a zone from text: a record a line (RFC 1035 section 5.1).
use crate::zone::{Rrset, Zone, ZoneRecord};
use anyhow::{Context, Result, ensure};
use dns_message::code::{Class, Rtype};
use dns_message::fields::{Value, read_record, split_words};
use dns_message::record::Ttl;
use std::alloc::Global;

/// The zone of a text. Each line is a record with owner, TTL, class IN and type, as the program
/// `dnsmsg` prints it; comments follow a semicolon. The SOA record comes first, and the owners are
/// in canonical order.
pub(crate) fn read_zone(alloc: Global, text: &str) -> Result<Zone> {
    let mut sets: Vec<Rrset> = Vec::new(alloc);
    for line in text.lines() {
        let words = split_words(alloc, line)?;
        if !words.is_empty() {
            add(alloc, &mut sets, read_record(alloc, words.as_slice())?)?;
        }
    }
    let first = sets.first().context("no record")?;
    ensure!(first.rtype == Rtype::SOA, "the SOA record isn't the first");
    let soa = first.records.first().context("no SOA record")?;
    let apex = soa.owner().clone()?;
    let mut denial = soa.clone()?;
    denial.set_ttl(negative_ttl(soa)?);
    Ok(Zone { apex, denial, sets })
}

/// Adds a record to the last set, or as a set of its own.
fn add(alloc: Global, sets: &mut Vec<Rrset>, record: ZoneRecord) -> Result<()> {
    ensure!(record.class() == Class::IN, "a class other than IN");
    let owner = record.owner().clone()?;
    let rtype = record.rtype();
    let ttl = record.ttl().as_secs();
    if let Some(last) = sets.last_mut() {
        ensure!(last.owner <= owner, "the owner {owner} isn't in order");
        if last.owner == owner && last.rtype == rtype {
            last.records.push(record)?;
            return Ok(());
        }
    }
    let mut records = Vec::new(alloc);
    records.push(record)?;
    sets.push(Rrset {
        owner,
        rtype,
        ttl,
        records,
    })?;
    Ok(())
}

/// For how long a denial may be cached: for the lesser of the TTL of the SOA record and its last
/// field, MINIMUM (RFC 2308 section 5).
fn negative_ttl(soa: &ZoneRecord) -> Result<Ttl> {
    let mut least = soa.ttl().as_secs();
    for field in soa.data().as_field_data().fields() {
        if let Value::Number(number) = field.value() {
            if field.name == "minimum" {
                least = u32::try_from(number)?.min(least);
            }
        }
    }
    Ok(Ttl::from_secs(least))
}
