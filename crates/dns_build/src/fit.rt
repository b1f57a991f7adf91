//! Responses that fit a limit: sets of records that don't fit are left out whole, and TC is set if
//! a required one is missing (RFC 2181 section 9).
ghost use Rattle.std.specs.Prelude.{◌≡◌, ◌+◌, IfErr, IfOk, length, map, true, false};
ghost use Rattle.dns_build.specs.BuilderStates.{MovesState, PushReturns};
ghost use Rattle.dns_build.specs.Reserved.{reserve_result};
ghost use Rattle.dns_build.specs.Fitting.{FitsSet, fitting, left_out, with_truncation};

use crate::builder::Builder;
use crate::push_error::PushError;
use crate::reserved_builder::ReservedBuilder;
use crate::stage::{BuilderStage, RecordStage};
use dns_item::ComposeRecord;
use dns_wire::Composer;
use std::alloc::AllocError;

impl<T: Composer, S: BuilderStage> Builder<T, S> {
    /// Starts a response of at most `limit` octets, of which `reserved` are left free for records
    /// that go in in any case, as OPT. `push_required` and `push_optional` push the others. Call it
    /// at the answer section or after it: at an earlier stage a `ReservedBuilder` has no pushes.
    ///
    /// Sets the push limit, lowers it by the reserved octets until `release`, and clears TC.
    ///
    /// Errors as of `reserve`, at this limit. The builder is returned with the error.
    pub fn fit(
        self,
        limit: usize,
        reserved: u16,
    ) -> Result<ReservedBuilder<T, S>, (Self, PushError)>
        ensures reserved { IfOk result (λ r. r.reserved ≡ reserved) }
        ensures fitting { IfOk result (λ r. MovesState S.stage S.stage T.rule
            (fitting limit reserved) self r.built) }
        ensures unchanged { IfErr result (λ refused. refused.0 ≡ self) }
        ensures outcome { PushReturns T.capacity T.grows limit
            (length self.written.octets + reserved) 0 (reserve_result result) }
    {
        let mut builder = self;
        let before = builder.most();
        builder.limit_to(limit);
        match builder.reserve(reserved) {
            Ok(mut fitting) => {
                fitting.set_tc(false);
                Ok(fitting)
            }
            Err((mut refused, error)) => {
                refused.limit_to(before);
                Err((refused, error))
            }
        }
    }
}

impl<T: Composer, S: BuilderStage> ReservedBuilder<T, S> {
    /// Sets or clears TC, and changes nothing else.
    fn set_tc(&mut self, tc: bool)
        ensures moves { MovesState S.stage S.stage T.rule (with_truncation tc)
            self.old.built self.new.built }
        ensures reserved { self.new.reserved ≡ self.old.reserved }
    {
        let mut header = self.as_builder().header();
        header.set_tc(tc);
        self.set_header(header);
    }

    /// Sets TC if the set that is left out is required.
    fn leave_out(&mut self, required: bool)
        ensures moves { MovesState S.stage S.stage T.rule (left_out required)
            self.old.built self.new.built }
        ensures reserved { self.new.reserved ≡ self.old.reserved }
    {
        if required {
            self.set_tc(true);
        }
    }
}

impl<T: Composer, S: RecordStage> ReservedBuilder<T, S> {
    /// Appends a set of records that the response requires, as those that answer its question, or
    /// leaves it out and sets TC (RFC 2181 section 9). Returns whether it went in.
    ///
    /// Once TC is set no set goes in: a response is truncated at its end (RFC 1035 section 6.2).
    ///
    /// Returns `AllocError` if an allocation fails. The set is then left out too.
    pub fn push_required<R: ComposeRecord>(&mut self, records: &[R]) -> Result<bool, AllocError>
        ensures fits { FitsSet T.capacity T.rule S.stage self.old.reserved T.grows
            (record { required = true; records = map R.item records.now })
            self.old.built self.new.built result }
        ensures reserved { self.new.reserved ≡ self.old.reserved }
    {
        self.fit_set(records, true)
    }

    /// Appends a set of records that the response doesn't require, as addresses of name servers, or
    /// leaves it out. Returns whether it went in. TC stays (RFC 2181 section 9).
    ///
    /// Once TC is set no set goes in. Returns `AllocError` if an allocation fails.
    pub fn push_optional<R: ComposeRecord>(&mut self, records: &[R]) -> Result<bool, AllocError>
        ensures fits { FitsSet T.capacity T.rule S.stage self.old.reserved T.grows
            (record { required = false; records = map R.item records.now })
            self.old.built self.new.built result }
        ensures reserved { self.new.reserved ≡ self.old.reserved }
    {
        self.fit_set(records, false)
    }

    /// Appends a set of records, or leaves it out.
    fn fit_set<R: ComposeRecord>(
        &mut self,
        records: &[R],
        required: bool,
    ) -> Result<bool, AllocError>
        ensures fits { FitsSet T.capacity T.rule S.stage self.old.reserved T.grows
            (record { required = required; records = map R.item records.now })
            self.old.built self.new.built result }
        ensures reserved { self.new.reserved ≡ self.old.reserved }
    {
        if self.as_builder().header().tc() {
            return Ok(false);
        }
        let Err(error) = self.push_set(records) else {
            return Ok(true);
        };
        self.leave_out(required);
        match error {
            PushError::OutOfMemory => Err(AllocError),
            _ => Ok(false),
        }
    }
}
