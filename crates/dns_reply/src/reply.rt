//! What a reply says, and why a message is none.
ghost use Rattle.std.specs.Prelude.{◌≡◌};

use dns_code::Ttl;
use dns_data::Soa;
use dns_iana::OptRcode;
use dns_item::Record;
use dns_name::ParsedName;
use dns_octets::ParseError;
use dns_read::RecordSection;
use thiserror::Error;

/// What a reply says of the name that was asked for. Names borrow the reply.
///
/// A `name()` in it is the name at the end of the chain of aliases that begins at the question's
/// name, or the question's own name if that is no alias (RFC 2308 section 1).
#[derive(Clone, Copy, Debug)]
pub enum Reply<'a> {
    /// The name owns records that the question asks for (RFC 1034 section 4.3.2, step 3a).
    Answer(Answer<'a>),
    /// The name owns no such records (RFC 2308 section 2.2).
    NoData(Denial<'a>),
    /// The name doesn't exist (RFC 2308 section 2.1).
    NoName(Denial<'a>),
    /// The name is delegated to a zone below (RFC 1034 section 4.3.2, step 3b).
    Referral(Referral<'a>),
    /// The chain of aliases leads out of the zone. Other servers have to be asked for the name.
    Alias(Alias<'a>),
    /// The name is below the owner of a DNAME record, and the reply lacks the CNAME record that a
    /// server has to synthesise (RFC 6672 section 3.1). `redirected` makes the name to ask for.
    Dname(Redirection<'a>),
    /// TC is set: the query has to be sent again over TCP (RFC 2181 section 9).
    Truncated,
    /// The RCODE, with its higher bits of the OPT record, is neither NOERROR nor a name error.
    Failed(OptRcode),
    /// NOERROR, where no records were asked for: the opcode isn't QUERY, or there is no question.
    Done,
    /// The reply is of no use. Another server has to be asked (RFC 1034 section 5.3.3, step 4d).
    Unusable(Unusable),
}

/// Why a reply is of no use.
#[derive(Clone, Copy, Debug, PartialEq, Eq, Error)]
pub enum Unusable {
    /// A record can't be read, or RDATA of CNAME or DNAME in the answer section, of SOA or NS in
    /// the authority section, or of OPT in the additional section is malformed.
    #[error("{0}")]
    Unreadable(ParseError),
    /// There is more than one OPT record (RFC 6891 section 6.1.1).
    #[error("more than one OPT record")]
    ManyOpts,
    /// The chain of aliases has more than 20 names, as a loop has (RFC 1034 section 3.6.2).
    #[error("alias loop")]
    Loop,
    /// NS records delegate the name to no zone below the one that was asked.
    #[error("no better delegation")]
    Lame,
}

/// Why a message isn't a reply to a query.
#[derive(Clone, Copy, Debug, PartialEq, Eq, Error)]
pub enum NotReply {
    /// QR is clear.
    #[error("not a response")]
    NoResponse,
    /// The ID is another.
    #[error("other ID")]
    OtherId,
    /// The opcode is another.
    #[error("other opcode")]
    OtherOpcode,
    /// The questions are others, or can't be read.
    #[error("other question")]
    OtherQuestion,
}

/// Records that the question asks for.
#[derive(Clone, Copy, Debug)]
pub struct Answer<'a> {
    pub(crate) name: ParsedName<'a>,
    pub(crate) section: RecordSection<'a>,
    pub(crate) ttl: u32,
}

impl<'a> Answer<'a> {
    ghost use Rattle.dns_reply.specs.Replies.{answer_name, answer_section, answer_ttl};

    /// The name that owns the records.
    pub fn name(&self) -> ParsedName<'a>
        ensures { result ≡ answer_name self.now }
    {
        self.name
    }

    /// The answer section. [`Rrset`](crate::Rrset) picks the records of a type from it.
    pub fn section(&self) -> RecordSection<'a>
        ensures { result ≡ answer_section self.now }
    {
        self.section
    }

    /// The least TTL of the records, and of the CNAME records that lead to the name (RFC 2181
    /// section 5.2). If its highest bit is set, it is a large number (RFC 8767 section 4).
    pub fn ttl(&self) -> Ttl
        ensures { result ≡ answer_ttl self.now }
    {
        Ttl::from_secs(self.ttl)
    }
}

/// That there are no records, or no name.
#[derive(Clone, Copy, Debug)]
pub struct Denial<'a> {
    pub(crate) name: ParsedName<'a>,
    pub(crate) soa: Option<Record<ParsedName<'a>, Soa<ParsedName<'a>>>>,
    pub(crate) alias_ttl: Option<u32>,
}

impl<'a> Denial<'a> {
    ghost use Rattle.dns_reply.specs.Records.{negative_ttl};
    ghost use Rattle.dns_reply.specs.Replies.{denial_name, denial_soa, denial_item, denial_alias_ttl};

    /// The name that has no records, or doesn't exist.
    pub fn name(&self) -> ParsedName<'a>
        ensures { result ≡ denial_name self.now }
    {
        self.name
    }

    /// The SOA record of the zone that the name is in, if there is one in the authority section.
    pub fn soa(&self) -> Option<Record<ParsedName<'a>, Soa<ParsedName<'a>>>>
        ensures { result ≡ denial_soa self.now }
    {
        self.soa
    }

    /// For how long the denial may be cached: the lesser of the SOA record's TTL and its MINIMUM
    /// (RFC 2308 section 5). Without an SOA record it is 0, and shouldn't be cached.
    ///
    /// The aliases that lead to the name have a TTL of their own.
    pub fn ttl(&self) -> Ttl
        ensures { result ≡ negative_ttl (denial_item self.now) }
    {
        match &self.soa {
            Some(soa) => Ttl::from_secs(soa.ttl().as_secs().min(soa.data().minimum())),
            None => Ttl::ZERO,
        }
    }

    /// The least TTL of the CNAME records that lead to the name (RFC 2181 section 5.2), or `None` if
    /// the name is the question's own.
    pub fn alias_ttl(&self) -> Option<Ttl>
        ensures { result ≡ denial_alias_ttl self.now }
    {
        ttl_from(self.alias_ttl)
    }
}

/// A delegation.
#[derive(Clone, Copy, Debug)]
pub struct Referral<'a> {
    pub(crate) name: ParsedName<'a>,
    pub(crate) cut: ParsedName<'a>,
    pub(crate) alias_ttl: Option<u32>,
}

impl<'a> Referral<'a> {
    ghost use Rattle.dns_reply.specs.Replies.{referral_name, referral_cut, referral_alias_ttl};

    /// The name that is delegated.
    pub fn name(&self) -> ParsedName<'a>
        ensures { result ≡ referral_name self.now }
    {
        self.name
    }

    /// The name of the zone that it is delegated to, which is below the one that was asked. It owns
    /// the NS records in the authority section.
    pub fn cut(&self) -> ParsedName<'a>
        ensures { result ≡ referral_cut self.now }
    {
        self.cut
    }

    /// The least TTL of the CNAME records that lead to the name, or `None` if the name is the
    /// question's own.
    pub fn alias_ttl(&self) -> Option<Ttl>
        ensures { result ≡ referral_alias_ttl self.now }
    {
        ttl_from(self.alias_ttl)
    }
}

/// An alias that leads out of the zone.
#[derive(Clone, Copy, Debug)]
pub struct Alias<'a> {
    pub(crate) name: ParsedName<'a>,
    pub(crate) ttl: u32,
}

impl<'a> Alias<'a> {
    ghost use Rattle.dns_reply.specs.Replies.{alias_name, alias_ttl};

    /// The name, which isn't within the zone.
    pub fn name(&self) -> ParsedName<'a>
        ensures { result ≡ alias_name self.now }
    {
        self.name
    }

    /// The least TTL of the CNAME records that lead to the name. It is 0 if there are none, as the
    /// question's own name isn't within the zone.
    pub fn ttl(&self) -> Ttl
        ensures { result ≡ alias_ttl self.now }
    {
        Ttl::from_secs(self.ttl)
    }
}

/// A DNAME record above the name (RFC 6672).
#[derive(Clone, Copy, Debug)]
pub struct Redirection<'a> {
    pub(crate) name: ParsedName<'a>,
    pub(crate) owner: ParsedName<'a>,
    pub(crate) target: ParsedName<'a>,
    pub(crate) ttl: u32,
}

impl<'a> Redirection<'a> {
    ghost use Rattle.dns_reply.specs.Replies.{redirected_name, redirection_owner, redirection_target, redirection_ttl};

    /// The name that is redirected.
    pub fn name(&self) -> ParsedName<'a>
        ensures { result ≡ redirected_name self.now }
    {
        self.name
    }

    /// The owner of the DNAME record. The name is below it.
    pub fn owner(&self) -> ParsedName<'a>
        ensures { result ≡ redirection_owner self.now }
    {
        self.owner
    }

    /// The target of the DNAME record. [`substitute`](crate::substitute) puts it in the place of
    /// the owner.
    pub fn target(&self) -> ParsedName<'a>
        ensures { result ≡ redirection_target self.now }
    {
        self.target
    }

    /// The least TTL of the DNAME record, and of the CNAME records that lead to the name.
    pub fn ttl(&self) -> Ttl
        ensures { result ≡ redirection_ttl self.now }
    {
        Ttl::from_secs(self.ttl)
    }
}

/// Seconds as a TTL.
fn ttl_from(seconds: Option<u32>) -> Option<Ttl>
    ensures { result ≡ seconds }
{
    match seconds {
        Some(seconds) => Some(Ttl::from_secs(seconds)),
        None => None,
    }
}
