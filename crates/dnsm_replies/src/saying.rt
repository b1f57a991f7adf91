//! What a reply says, as C gets it.
ghost use Rattle.std.specs.Prelude.{◌≡◌, None, Some, option_map, unwrap_or};
ghost use Rattle.dns_name.specs.ParsedName.{labels};
ghost use Rattle.dns_reply.specs.Records.{negative_ttl};
ghost use Rattle.dns_reply.specs.Replies.{denial_alias_ttl, denial_item, denial_name, reason_of, said_of};
ghost use Rattle.dnsm_replies.specs.Sayings.{Holds, HoldsName, Reports, kind_of, soa_owner};

use dns_code::Ttl;
use dns_name::ParsedName;
use dns_reply::{Denial, Reply, Unusable};

/// What a reply says (RFC 1034 section 5.3.3). What doesn't belong to its kind is 0.
#[repr(C)]
#[derive(Clone, Copy)]
pub struct Saying {
    /// For how long it may be cached, in seconds.
    pub ttl: u32,
    /// For how long the aliases may be cached that lead to the name of `NO_DATA`, `NO_NAME` and
    /// `REFERRAL`, in seconds, or 0 without one.
    pub alias_ttl: u32,
    /// The rcode of 12 bits, of `FAILED`.
    pub rcode: u16,
    /// Which of the constants below.
    pub kind: u8,
    pub name_len: u8,
    pub owner_len: u8,
    pub target_len: u8,
    /// The octets of the name of which it is said, at the end of the chain of aliases.
    pub name: [u8; 255],
    /// The octets of the owner of the SOA, NS or DNAME record.
    pub owner: [u8; 255],
    /// The octets of the target of the DNAME record.
    pub target: [u8; 255],
}

const ANSWER: u8 = 0;

const NO_DATA: u8 = 1;

const NO_NAME: u8 = 2;

const REFERRAL: u8 = 3;

const ALIAS: u8 = 4;

const DNAME: u8 = 5;

const TRUNCATED: u8 = 6;

const FAILED: u8 = 7;

const DONE: u8 = 8;

const UNREADABLE: u8 = 9;

const MANY_OPTS: u8 = 10;

const LOOP: u8 = 11;

const LAME: u8 = 12;

/// The octets of a name in a buffer, and their number, which is 0 if there is no name.
fn octets_of(name: Option<ParsedName<'_>>) -> ([u8; 255], u8)
    ensures { HoldsName result.0 result.1 (option_map labels name.entry) }
{
    let mut out = [0; 255];
    let Some(name) = name else {
        return (out, 0);
    };
    let octets = name.uncompressed();
    let len = octets.len();
    out[..len].copy_from_slice(octets.as_slice());
    (out, len as u8)
}

/// What is said of a name, with the names of the record that says so.
fn of_name(
    kind: u8,
    ttl: u32,
    alias_ttl: u32,
    name: ParsedName<'_>,
    owner: Option<ParsedName<'_>>,
    target: Option<ParsedName<'_>>,
) -> Saying
    ensures { Holds result kind 0 ttl alias_ttl (Some (labels name.entry))
        (option_map labels owner.entry) (option_map labels target.entry) }
{
    let (name, name_len) = octets_of(Some(name));
    let (owner, owner_len) = octets_of(owner);
    let (target, target_len) = octets_of(target);
    Saying {
        ttl,
        alias_ttl,
        rcode: 0,
        kind,
        name_len,
        owner_len,
        target_len,
        name,
        owner,
        target,
    }
}

/// What is said of no name.
fn of_none(kind: u8, rcode: u16) -> Saying
    ensures { Holds result kind rcode 0 0 None None None }
{
    Saying {
        ttl: 0,
        alias_ttl: 0,
        rcode,
        kind,
        name_len: 0,
        owner_len: 0,
        target_len: 0,
        name: [0; 255],
        owner: [0; 255],
        target: [0; 255],
    }
}

/// The owner of the SOA record of a denial.
fn zone_of<'a>(denial: &Denial<'a>) -> Option<ParsedName<'a>>
    ensures { option_map labels result ≡ soa_owner (denial_item denial.now) }
{
    match denial.soa() {
        Some(soa) => Some(*soa.owner()),
        None => None,
    }
}

/// What is said of a name by a denial.
fn of_denial(kind: u8, denial: &Denial<'_>) -> Saying
    ensures { Holds result kind 0 (negative_ttl (denial_item denial.now))
        (unwrap_or (denial_alias_ttl denial.now) 0) (Some (labels (denial_name denial.now)))
        (soa_owner (denial_item denial.now)) None }
{
    let (ttl, alias_ttl) = (denial.ttl().as_secs(), seconds_of(denial.alias_ttl()));
    of_name(kind, ttl, alias_ttl, denial.name(), zone_of(denial), None)
}

/// The seconds of a TTL, or 0 if there is none.
fn seconds_of(ttl: Option<Ttl>) -> u32
    ensures { result ≡ unwrap_or ttl 0 }
{
    match ttl {
        Some(ttl) => ttl.as_secs(),
        None => 0,
    }
}

/// The kind of an unusable reply.
fn kind_of(why: Unusable) -> u8
    ensures { result ≡ kind_of (reason_of why) }
{
    match why {
        Unusable::Unreadable(_error) => UNREADABLE,
        Unusable::ManyOpts => MANY_OPTS,
        Unusable::Loop => LOOP,
        Unusable::Lame => LAME,
    }
}

/// What a reply says.
pub(crate) fn saying_of(reply: &Reply<'_>) -> Saying
    ensures { Reports result (said_of reply.now) }
{
    match reply {
        Reply::Answer(it) => of_name(ANSWER, it.ttl().as_secs(), 0, it.name(), None, None),
        Reply::NoData(it) => of_denial(NO_DATA, it),
        Reply::NoName(it) => of_denial(NO_NAME, it),
        Reply::Referral(it) => {
            let alias_ttl = seconds_of(it.alias_ttl());
            of_name(REFERRAL, 0, alias_ttl, it.name(), Some(it.cut()), None)
        }
        Reply::Alias(it) => of_name(ALIAS, it.ttl().as_secs(), 0, it.name(), None, None),
        Reply::Dname(it) => {
            let (owner, target) = (Some(it.owner()), Some(it.target()));
            of_name(DNAME, it.ttl().as_secs(), 0, it.name(), owner, target)
        }
        Reply::Truncated => of_none(TRUNCATED, 0),
        Reply::Failed(rcode) => of_none(FAILED, rcode.to_int()),
        Reply::Done => of_none(DONE, 0),
        Reply::Unusable(why) => of_none(kind_of(*why), 0),
    }
}
