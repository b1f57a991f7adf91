//! A transfer of a zone, by the messages of its response.
ghost use Rattle.std.specs.Prelude.{◌≡◌, IfErr, IfOk};
ghost use Rattle.dns_name.specs.NameReading.{name_labels};
ghost use Rattle.dns_read.specs.Message.{message_octets};
ghost use Rattle.dns_transfer.specs.Asked.{asked_by};
ghost use Rattle.dns_transfer.specs.Messages.{RefusesMessage, is_ended};
ghost use Rattle.dns_transfer.specs.Steps.{TakesMessage};
ghost use Rattle.dns_transfer.specs.Transfer.{EndsIn, asked_of, state_of};
ghost use Rattle.dns_transfer.specs.declared.grammar.Request.TheVariants.{Axfr, Ixfr};
ghost use Rattle.dns_transfer.specs.declared.grammar.State.TheVariants.{Wanted};

use crate::error::TransferError;
use crate::grammar::{Request, State, is_ended};
use crate::message::answers_of;
use crate::query::Query;
use crate::steps::Steps;
use arrayvec::ArrayVec;
use dns_iana::{Class, Serial};
use dns_name::Name;
use dns_octets::Octets;
use dns_read::Message;

/// A transfer of a zone, of which some messages were taken, perhaps none.
///
/// Each message is taken in order, by [`take`](Transfer::take). An error ends the transfer, as that
/// call consumes it.
#[derive(Debug, Drop)]
pub struct Transfer {
    query: Query,
    state: State,
}

impl Transfer {
    /// A transfer of the whole zone with this name and class. `id` is the query's ID (RFC 5936
    /// section 2.1).
    pub fn axfr(id: u16, zone: Name<ArrayVec<u8, 255>>, class: Class) -> Self
        ensures asked { asked_of result
            ≡ record { zone = name_labels zone; class = class; id = id; request = Axfr } }
        ensures state { state_of result ≡ Wanted }
    {
        Transfer::new(Query::new(zone, class, id, Request::Axfr), State::Wanted)
    }

    /// A transfer of the changes since the version with serial `known`. `id` is the query's ID (RFC
    /// 1995 section 3).
    pub fn ixfr(id: u16, zone: Name<ArrayVec<u8, 255>>, class: Class, known: Serial) -> Self
        ensures asked { asked_of result
            ≡ record { zone = name_labels zone; class = class; id = id; request = Ixfr known } }
        ensures state { state_of result ≡ Wanted }
    {
        let request = Request::Ixfr(known.into_int());
        Transfer::new(Query::new(zone, class, id, request), State::Wanted)
    }

    /// The transfer that a query asks for, in this state.
    pub(crate) fn new(query: Query, state: State) -> Self
        ensures asked { asked_of result ≡ asked_by query }
        ensures state { state_of result ≡ state }
    {
        Transfer { query, state }
    }

    /// The steps of the next message.
    ///
    /// Errors, checked in this order: `AfterEnd` if the transfer has ended; `WrongId`,
    /// `NoResponse`, `Rcode` and `Truncated` for the header (RFC 5936 section 2.2.1), with the higher
    /// bits of the rcode (RFC 6891 section 6.1.3); `Parse` if a question can't be read, and
    /// `WrongQuestion` if there is another one than the query's, or none before the first record
    /// (section 2.2.2); `Parse` if a question can't be skipped.
    pub fn take<'a, Octs: Octets>(
        self,
        message: &'a Message<Octs>,
    ) -> Result<Steps<'a>, TransferError>
        ensures takes { IfOk result (TakesMessage (asked_of self) (state_of self)
            (message_octets message.now)) }
        ensures refuses { IfErr result (RefusesMessage (asked_of self) (state_of self)
            (message_octets message.now)) }
    {
        let Transfer { query, state } = self;
        match answers_of(&query, state, message) {
            Ok(records) => Ok(Steps::new(query, state, records)),
            Err(error) => Err(error),
        }
    }

    /// Whether the transfer has ended. Else it waits for the next message.
    ///
    /// Over UDP there is only one message. If the transfer hasn't ended after it, the query has to
    /// be sent again over TCP (RFC 1995 section 2).
    pub fn has_ended(&self) -> bool
        ensures { result ≡ is_ended (state_of self.now) }
    {
        is_ended(self.state)
    }

    /// Says that no message follows. Returns `Incomplete` unless the transfer has ended.
    pub fn end(self) -> Result<(), TransferError>
        ensures { EndsIn (state_of self) result }
    {
        if self.has_ended() {
            Ok(())
        } else {
            Err(TransferError::Incomplete)
        }
    }
}
