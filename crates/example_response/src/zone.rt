//! A zone, and which case of RFC 1034 section 4.3.2 a question is in it.
ghost use Rattle.std.specs.Prelude.{◌≡◌, find, option_map};
ghost use Rattle.std.specs.Option.{option_copied};
ghost use Rattle.dns_message.specs.Names.{labels, name_labels, suffixes};
ghost use Rattle.dns_message.specs.Replies.{is_below, is_within};
ghost use Rattle.example_response.specs.Zones.{case_at, case_of, case_shown, is_asked, matched, name_exists, set_at, source_of, stop_of, stops, wildcard_below};

use arrayvec::ArrayVec;
use dns_message::code::Rtype;
use dns_message::fields::OwnedFieldData;
use dns_message::name::{Name, ParsedName, ToName};
use dns_message::record::Record;
use dns_message::reply::laws::within_is_suffix;
use dns_message::reply::substitute;

/// A name that owns its octets. It allocates nothing.
pub type OwnName = Name<ArrayVec<u8, 255>>;

/// A record of a zone.
pub type ZoneRecord = Record<OwnName, OwnedFieldData>;

/// The records of one owner and type (RFC 2181 section 5), in the class IN.
#[derive(Debug, Drop)]
pub struct Rrset {
    pub owner: OwnName,
    pub rtype: Rtype,
    /// In seconds.
    pub ttl: u32,
    pub records: Vec<ZoneRecord>,
}

/// A zone: the name of its apex, and its sets of records. `read_zone` checks that they are in
/// canonical order (RFC 4034 section 6.1), in which a name comes before those below it.
#[derive(Debug, Drop)]
pub struct Zone {
    pub apex: OwnName,
    /// The SOA record, with the TTL of denials (RFC 2308 section 3).
    pub denial: ZoneRecord,
    pub sets: Vec<Rrset>,
}

/// Whether records are those of the name itself, or of a wildcard (RFC 4592 section 3.3.1).
#[derive(Clone, Copy, Debug)]
pub enum Match {
    Exact,
    Wildcard,
}

/// Which case of RFC 1034 section 4.3.2 a question is in a zone.
#[derive(Clone, Copy, Debug)]
pub enum Case<'z> {
    /// The name isn't in the zone.
    Refused,
    /// The name is in a zone that these NS records delegate.
    Delegated(&'z Rrset),
    /// The name is below the owner of this DNAME record (RFC 6672 section 3.2).
    Redirected(&'z Rrset),
    /// There are records of the type.
    Found(&'z Rrset, Match),
    /// The name is an alias, by this CNAME record.
    Alias(&'z Rrset, Match),
    /// The name exists, but has no records of the type.
    NoData(Match),
    /// The name doesn't exist.
    NoName,
}

impl Zone {
    /// Which case of RFC 1034 section 4.3.2 a question for records of a name is. QTYPE ANY asks for
    /// the first set of the name alone (RFC 8482 section 4.1).
    pub fn case_of(&self, name: &ParsedName<'_>, qtype: Rtype) -> Case<'_>
        ensures { case_shown result ≡ case_of self.now (labels name.now) qtype }
    {
        if !is_within(name, &self.apex.as_parsed()) {
            return Case::Refused;
        }
        match self.stop_of(name, qtype) {
            Some(set) if set.rtype == Rtype::NS => Case::Delegated(set),
            Some(set) => Case::Redirected(set),
            None => self.matched(name, qtype),
        }
    }

    /// The first set that ends the search on the way down to a name: the nearest to the apex if the
    /// sets are in canonical order.
    fn stop_of(&self, name: &ParsedName<'_>, qtype: Rtype) -> Option<&Rrset>
        ensures { option_copied result ≡ stop_of self.now (labels name.now) qtype }
    {
        self.sets.iter().find(|set| self.stops(set, name, qtype))
    }

    /// Whether a set ends the search on the way down to a name: NS records below the apex, unless
    /// DS records of their owner are asked for, or a DNAME record above the name.
    fn stops(&self, set: &Rrset, name: &ParsedName<'_>, qtype: Rtype) -> bool
        ensures { result ≡ stops self.now (labels name.now) qtype set.now }
    {
        let owner = set.owner.as_parsed();
        if set.rtype == Rtype::NS {
            return is_below(&owner, &self.apex.as_parsed())
                && is_within(name, &owner)
                && !(qtype == Rtype::DS && *name == owner);
        }
        set.rtype == Rtype::DNAME && is_below(name, &owner)
    }

    /// The case of a name at which no set ends the search.
    fn matched(&self, name: &ParsedName<'_>, qtype: Rtype) -> Case<'_>
        ensures { case_shown result ≡ matched self.now (labels name.now) qtype }
    {
        if self.has_name(name) {
            return self.case_at(name, qtype, Match::Exact);
        }
        match self.source_of(name) {
            Some(source) => {
                if self.has_name(&source.as_parsed()) {
                    self.case_at(&source.as_parsed(), qtype, Match::Wildcard)
                } else {
                    Case::NoName
                }
            }
            None => Case::NoName,
        }
    }

    /// The case of the records that an existing name owns.
    fn case_at(&self, owner: &ParsedName<'_>, qtype: Rtype, by: Match) -> Case<'_>
        ensures { case_shown result ≡ case_at self.now (labels owner.now) qtype by }
    {
        if let Some(set) = self.set_at(owner, qtype) {
            return Case::Found(set, by);
        }
        match self.set_at(owner, Rtype::CNAME) {
            Some(set) => Case::Alias(set, by),
            None => Case::NoData(by),
        }
    }

    /// The first set that a name owns and QTYPE asks for.
    pub fn set_at(&self, owner: &ParsedName<'_>, qtype: Rtype) -> Option<&Rrset>
        ensures { option_copied result ≡ set_at self.now (labels owner.now) qtype }
    {
        self.sets.iter().find(|set| is_asked(set, owner, qtype))
    }

    /// Whether a name exists: it or a name below it owns records (RFC 4592 section 2.2.2).
    fn has_name(&self, name: &ParsedName<'_>) -> bool
        ensures { result ≡ name_exists self.now (labels name.now) }
    {
        self.sets
            .iter()
            .any(|set| is_within(&set.owner.as_parsed(), name))
    }

    /// The name with the label `*` below the closest encloser of a name that doesn't exist, unless
    /// that is too long for a name (RFC 4592 section 3.3.1).
    fn source_of(&self, name: &ParsedName<'_>) -> Option<OwnName>
        ensures { option_map name_labels result ≡ source_of self.now (labels name.now) }
    {
        match self.encloser(name) {
            Some(encloser) => wildcard_below(&encloser),
            None => None,
        }
    }

    /// The longest existing name among a name and those above it.
    fn encloser<'n>(&self, name: &ParsedName<'n>) -> Option<ParsedName<'n>>
        ensures { option_map labels result
            ≡ find (name_exists self.now) (suffixes (labels name.now)) }
    {
        for suffix in name.iter_suffixes() {
            if self.has_name(&suffix) {
                return Some(suffix);
            }
        }
        None
    }
}

/// Whether a name is `other` or below it.
pub fn is_within(name: &ParsedName<'_>, other: &ParsedName<'_>) -> bool
    ensures { result ≡ is_within (labels name.now) (labels other.now) }
{
    within_is_suffix();
    name.ends_with(other)
}

/// Whether a name is below `other`.
fn is_below(name: &ParsedName<'_>, other: &ParsedName<'_>) -> bool
    ensures { result ≡ is_below (labels name.now) (labels other.now) }
{
    is_within(name, other) && name != other
}

/// Whether a name owns a set, and QTYPE asks for its type.
fn is_asked(set: &Rrset, owner: &ParsedName<'_>, qtype: Rtype) -> bool
    ensures { result ≡ is_asked (labels owner.now) qtype set.now }
{
    set.owner.as_parsed() == *owner && (set.rtype == qtype || qtype == Rtype::ANY)
}

/// The name with the label `*` below another, unless it is too long.
fn wildcard_below(encloser: &ParsedName<'_>) -> Option<OwnName>
    ensures { option_map name_labels result ≡ wildcard_below (labels encloser.now) }
{
    let asterisk = Name::from_octets(*b"\x01*\x00").ok()?;
    substitute(&asterisk, &Name::root_slice(), encloser)
}
