//! Look-ups of the records of a name: their queries, and what replies tell to do next (RFC 1034
//! section 5.3.3).
ghost use Rattle.std.specs.Prelude.{◌≡◌, ◌≤◌, IfErr, IfOk, OnOk, length};
ghost use Rattle.dns_message.specs.Messages.{message_octets};
ghost use Rattle.dns_message.specs.Names.{labels, name_labels};
ghost use Rattle.dns_message.specs.Replies.{IsNotReply, IsReply, answer_name, answer_section, members, members_left, said_of};
ghost use Rattle.dns_message.specs.Sections.RecordSection.{records_left};
ghost use Rattle.dns_message.specs.declared.reply.LetterCase.TheVariants.{Ignored};
ghost use Rattle.dns_message.specs.declared.reply.Reply.TheVariants as replies;
ghost use Rattle.example_resolve.specs.Queries.{IsQuery};
ghost use Rattle.example_resolve.specs.Lookups.{Asks, Restarts, Tells, Told, query_of};

use arrayvec::ArrayVec;
use dns_message::builder::MessageBuilder;
use dns_message::code::{Class, OptRcode, Rtype};
use dns_message::header::Header;
use dns_message::message::Message;
use dns_message::name::{Name, ParsedName, ToName};
use dns_message::reply::{Answer, Denial, NotReply, Redirection, Reply, Rrset, Unusable, reply_to};
use dns_message::wire::{AppendError, FlattenInto, Octets};
use std::alloc::Global;

/// Returns the query for the records of a name and a type in class IN. RD is set, so that a server
/// that resolves follows aliases itself. Every query fits in 512 octets (RFC 1035 section 4.2.1).
pub fn query<N: ToName>(id: u16, name: &N, rtype: Rtype) -> Message<ArrayVec<u8, 512>>
    ensures asks { IsQuery id (record { name = N.name name.now; rtype = rtype; class = 1 })
        (message_octets result) }
    ensures size { length (message_octets result) ≤ 512 }
{
    let mut header = Header::new();
    header.set_id(id);
    header.set_rd(true);
    let mut builder = MessageBuilder::from_target(ArrayVec::new()).unwrap();
    builder.set_header(header);
    let mut questions = builder.question();
    questions.push((name, rtype)).unwrap();
    questions.into_message()
}

/// What a look-up asks next, and of whom.
#[derive(Debug, Drop)]
pub struct Lookup {
    /// The name to ask for.
    pub name: Name<ArrayVec<u8, 255>>,
    /// The record type to ask for, in class IN.
    pub rtype: Rtype,
    /// The zone whose servers are to be asked: the root for servers that resolve.
    pub zone: Name<ArrayVec<u8, 255>>,
    /// Whether TCP is to be used.
    pub over_tcp: bool,
    /// How often a reply may still lead to another query.
    pub budget: u32,
}

/// What a reply tells to do.
#[derive(Debug, Drop)]
pub enum Next<'a> {
    /// Take these records. They are those of the name at the end of the chain of aliases.
    Found(Rrset<'a>),
    /// There are no such records.
    NoData,
    /// There is no such name.
    NoName,
    /// Send another query: to the servers of a zone below, for another name, or over TCP.
    Ask(Lookup),
    /// Another query would be needed, but the budget is spent.
    Spent,
    /// The server reports this failure.
    Failed(OptRcode),
    /// Ask another server.
    Unusable(Unusable),
}

impl Lookup {
    /// What a received message tells to do, if it is a reply to this look-up's query with the ID.
    ///
    /// A message that is none may be forged: go on waiting for the reply.
    pub fn judge<'a, Received: Octets>(
        &self,
        alloc: Global,
        id: u16,
        received: &'a Message<Received>,
    ) -> Result<Next<'a>, NotReply>
        ensures reply { OnOk result (IsReply Ignored (message_octets received.now)
            (query_of id self.now)) }
        ensures told { IfOk result (λ next. Told (message_octets received.now) self.now next) }
        ensures reason { IfErr result (IsNotReply Ignored (message_octets received.now)
            (query_of id self.now)) }
    {
        let sent = query(id, &self.name, self.rtype);
        match reply_to(&sent, received, &self.zone) {
            Ok(reply) => Ok(self.next(alloc, &reply)),
            Err(reason) => Err(reason),
        }
    }

    /// What a reply tells to do.
    fn next<'a>(&self, alloc: Global, reply: &Reply<'a>) -> Next<'a>
        ensures { Tells self.now (said_of reply.now) result }
    {
        match reply {
            Reply::Answer(answer) => Next::Found(self.set_of(answer)),
            Reply::NoData(denial) => self.after_denial(alloc, denial),
            Reply::NoName(_denial) => Next::NoName,
            Reply::Referral(referral) => self.ask(alloc, referral.name(), referral.cut(), false),
            Reply::Alias(alias) => self.restart(alloc, alias.name()),
            Reply::Dname(redirection) => self.redirect(alloc, redirection),
            Reply::Truncated => {
                self.ask(alloc, self.name.as_parsed(), self.zone.as_parsed(), true)
            }
            Reply::Failed(rcode) => Next::Failed(*rcode),
            Reply::Done => Next::Failed(OptRcode::NOERROR),
            Reply::Unusable(why) => Next::Unusable(*why),
        }
    }

    /// The records of an answer that are looked up.
    fn set_of<'a>(&self, answer: &Answer<'a>) -> Rrset<'a>
        ensures { members_left result ≡ members (labels (answer_name answer.now)) 1
            self.now.rtype (records_left (answer_section answer.now)) }
    {
        Rrset::new(answer.section(), answer.name(), Class::IN, self.rtype)
    }

    /// What to do if a name has no records. Without an SOA record, and after an alias, the server
    /// has perhaps sent the alias alone: then the name is asked for.
    fn after_denial<'a>(&self, alloc: Global, denial: &Denial<'_>) -> Next<'a>
        ensures { Tells self.now (said_of (replies.NoData denial.now)) result }
    {
        if denial.soa().is_some() {
            return Next::NoData;
        }
        if denial.name() == self.name.as_parsed() {
            return Next::NoData;
        }
        self.restart(alloc, denial.name())
    }

    /// Asks for the name that a DNAME record leads to, or fails if that is too long (RFC 6672
    /// section 2.2).
    fn redirect<'a>(&self, alloc: Global, redirection: &Redirection<'_>) -> Next<'a>
        ensures { Tells self.now (said_of (replies.Dname redirection.now)) result }
    {
        match redirection.redirected() {
            Some(name) => self.restart(alloc, name.as_parsed()),
            None => Next::Failed(OptRcode::YXDOMAIN),
        }
    }

    /// Asks for another name, at the servers of the root again.
    fn restart<'a>(&self, alloc: Global, name: ParsedName<'_>) -> Next<'a>
        ensures { Restarts self.now (labels name.entry) result }
    {
        let root = Name::root_slice();
        self.ask(alloc, name, root.as_parsed(), false)
    }

    /// Asks for a name at the servers of a zone, if the budget isn't spent.
    fn ask<'a>(
        &self,
        alloc: Global,
        name: ParsedName<'_>,
        zone: ParsedName<'_>,
        over_tcp: bool,
    ) -> Next<'a>
        ensures { Asks self.now (labels name.entry) (labels zone.entry) over_tcp result }
    {
        if self.budget == 0 {
            return Next::Spent;
        }
        Next::Ask(Lookup {
            name: owned(alloc, name),
            rtype: self.rtype,
            zone: owned(alloc, zone),
            over_tcp,
            budget: self.budget - 1,
        })
    }
}

/// A copy of a name.
fn owned(alloc: Global, name: ParsedName<'_>) -> Name<ArrayVec<u8, 255>>
    ensures { name_labels result ≡ labels name.entry }
{
    let copy: Result<Name<ArrayVec<u8, 255>>, AppendError> = name.try_flatten_into(alloc);
    copy.unwrap()
}
