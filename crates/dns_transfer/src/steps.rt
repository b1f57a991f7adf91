//! The steps that the records of a message are.
ghost use Rattle.std.specs.Prelude.{◌≡◌, ◌∷◌, if◌then◌else◌, Ok, Err};
ghost use Rattle.std.specs.Iterator.{YieldsFirstBy, item_count};
ghost use Rattle.dns_item.specs.ParsedData.{HasSpan};
ghost use Rattle.dns_item.specs.ParsedRecord.{encoded_record};
ghost use Rattle.dns_read.specs.RecordSection.{records_left};
ghost use Rattle.dns_transfer.specs.Asked.{asked_by};
ghost use Rattle.dns_transfer.specs.Grammar.{falls_back};
ghost use Rattle.dns_transfer.specs.Runs.{step_of};
ghost use Rattle.dns_transfer.specs.Steps.{ActsOn, EndsAt, Finishes, GivesFirst, GivesNext};
ghost use Rattle.dns_transfer.specs.Steps.{asked_of, cursor_of, run_of, state_left, state_now};
ghost use Rattle.dns_transfer.specs.Steps.{step_result, step_said, steps_left};

use crate::error::TransferError;
use crate::grammar::{Act, State, advance, falls_back};
use crate::query::Query;
use crate::transfer::Transfer;
use dns_item::ParsedRecord;
use dns_read::RecordSection;

/// What a record of a transfer does. Records borrow the message.
#[derive(Clone, Copy, Debug, Drop)]
pub enum Step<'a> {
    /// The version with this serial is transferred. This is its SOA record.
    ///
    /// If changes follow, they add that record too. If the whole zone follows, the record belongs
    /// to it, and isn't added again.
    Begin(u32, ParsedRecord<'a>),
    /// The server's version has this serial and isn't newer, so nothing follows (RFC 1995 section
    /// 2).
    UpToDate(u32),
    /// In place of changes the whole zone follows (RFC 1995 section 4): the records of the version
    /// before are to be forgotten.
    FallsBackToAxfr,
    /// The record is to be removed from the zone.
    Remove(ParsedRecord<'a>),
    /// The record is to be added to the zone.
    Add(ParsedRecord<'a>),
    /// The zone is now the version with this serial.
    End(u32),
}

/// The step of a record that does this.
fn step_of<'a>(act: Act, shown: ParsedRecord<'a>) -> Step<'a>
    ensures { step_said result ≡ step_of act (encoded_record shown.entry) }
{
    match act {
        Act::Begin(serial) => Step::Begin(serial, shown),
        Act::UpToDate(serial) => Step::UpToDate(serial),
        Act::FallBack => Step::FallsBackToAxfr,
        Act::Remove => Step::Remove(shown),
        Act::Add => Step::Add(shown),
        Act::End(serial) => Step::End(serial),
    }
}

/// The cursor after a record that does this: before the record if it is taken again.
fn cursor_after<'a>(
    act: Act,
    before: RecordSection<'a>,
    ahead: RecordSection<'a>,
) -> RecordSection<'a>
    ensures { result ≡ (if falls_back act then before.entry else ahead.entry) }
{
    if falls_back(act) { before } else { ahead }
}

/// An iterator over the steps of a message, in order.
///
/// The first error is yielded too, and then nothing. [`finish`](Steps::finish) gives the transfer
/// for the next message.
#[derive(Debug, Drop)]
pub struct Steps<'a> {
    query: Query,
    /// The state after the steps that were yielded, or the error that was yielded.
    state: Result<State, TransferError>,
    /// The records that weren't taken.
    records: RecordSection<'a>,
}

impl<'a> Steps<'a> {
    /// The steps of these records from this state on.
    pub(crate) fn new(query: Query, state: State, records: RecordSection<'a>) -> Self
        ensures asked { asked_of result ≡ asked_by query }
        ensures state { state_now result ≡ Ok state }
        ensures records { cursor_of result ≡ records.entry }
    {
        Steps {
            query,
            state: Ok(state),
            records,
        }
    }

    /// The next step, or the error of the first record that can't come next. Then the iterator
    /// ends.
    pub fn next(&mut self) -> Option<Result<Step<'a>, TransferError>>
        ensures steps { YieldsFirstBy step_result steps_left self.old result self.new }
        ensures state { state_left self.new ≡ state_left self.old }
        ensures ended { EndsAt self.new result }
        ensures asked { asked_of self.new ≡ asked_of self.old }
    {
        let Ok(state) = self.state else {
            return None;
        };
        let mut ahead = self.records;
        match ahead.next() {
            Some(Ok(shown)) => Some(self.take_record(state, ahead, shown)),
            Some(Err(error)) => Some(Err(self.stop(TransferError::Parse(error)))),
            None => None,
        }
    }

    /// Takes the next record, `shown`, in this state. `ahead` is the cursor after it.
    fn take_record(
        &mut self,
        state: State,
        ahead: RecordSection<'a>,
        shown: ParsedRecord<'a>,
    ) -> Result<Step<'a>, TransferError>
        requires span { HasSpan (encoded_record shown) }
        requires first { records_left (cursor_of self.old)
            ≡ Ok (encoded_record shown) ∷ records_left ahead }
        ensures taken { GivesFirst (run_of (asked_of self.old)
            (Ok (encoded_record shown.entry) ∷ records_left ahead.entry) state) result self.new }
        ensures asked { asked_of self.new ≡ asked_of self.old }
    {
        match self.query.kind_of(&shown) {
            Ok(kind) => self.act(advance(self.query.request, state, kind), ahead, shown),
            Err(error) => Err(self.stop(error)),
        }
    }

    /// Does what `outcome` says of the next record, `shown`. `ahead` is the cursor after it.
    fn act(
        &mut self,
        outcome: Result<(Act, State), TransferError>,
        ahead: RecordSection<'a>,
        shown: ParsedRecord<'a>,
    ) -> Result<Step<'a>, TransferError>
        ensures acts { ActsOn outcome (encoded_record shown.entry) ahead.entry self.old result
            self.new }
        ensures asked { asked_of self.new ≡ asked_of self.old }
    {
        match outcome {
            Ok((act, state)) => {
                self.state = Ok(state);
                self.records = cursor_after(act, self.records, ahead);
                Ok(step_of(act, shown))
            }
            Err(error) => Err(self.stop(error)),
        }
    }

    /// Keeps an error, and returns it.
    fn stop(&mut self, error: TransferError) -> TransferError
        ensures error { result ≡ error }
        ensures state { state_now self.new ≡ Err error }
        ensures asked { asked_of self.new ≡ asked_of self.old }
    {
        self.state = Err(error);
        error
    }

    /// The transfer after all steps of this message, for the next message. Steps that weren't
    /// yielded are passed over. Returns the error of the first record that can't come next.
    pub fn finish(self) -> Result<Transfer, TransferError>
        ensures { Finishes self.entry result }
    {
        let mut steps = self;
        while let Some(_step) = steps.next() {}
        let Steps { query, state, .. } = steps;
        match state {
            Ok(state) => Ok(Transfer::new(query, state)),
            Err(error) => Err(error),
        }
    }
}

/// The same as the method `next`.
impl<'a> Iterator for Steps<'a> {
    type Item = Result<Step<'a>, TransferError>;

    ghost next_gives = { GivesNext };

    ghost remaining = { item_count steps_left };

    fn next(&mut self) -> Option<Self::Item> {
        Steps::next(self)
    }
}
