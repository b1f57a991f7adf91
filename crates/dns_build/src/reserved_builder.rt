//! Reserving octets of a message for records that are pushed later, as OPT (RFC 6891 section 6.1.1)
//! or TSIG (RFC 8945 section 5.1).
ghost use Rattle.std.specs.Prelude.{◌≡◌, ◌≢◌, ◌+◌, ◌-◌, ◌≤◌, ℕ, length, map, IfErr, IfOk, IsTrue, OnErr, OnOk};
ghost use Rattle.dns_wire.specs.Targets.{ComposeReturns, Fits};
ghost use Rattle.dns_code.specs.Header.{fields};
ghost use Rattle.dns_edns_builder.specs.Gathered.{gathered, opt_size};
ghost use Rattle.dns_build.specs.State.{InAdditional, InAnswer, InAuthority, move_to, records_at, with_header, with_limit, with_record, with_records};
ghost use Rattle.dns_build.specs.BuilderStates.{InEach, MovesState, PushReturns, Represents, size_after};
ghost use Rattle.dns_build.specs.Opt.{PushesOptRecord, opt_record};
ghost use Rattle.dns_build.specs.Reserved.{PushLeaving, SetLeaving, builder_in, reserve_result};

use crate::builder::{AdditionalBuilder, Builder};
use crate::push_error::PushError;
use crate::stage::{AtAdditional, AtAnswer, AtAuthority, BuilderStage, RecordStage};
use dns_code::Header;
use dns_edns_builder::OptBuilder;
use dns_item::ComposeRecord;
use dns_octets::AppendError;
use dns_wire::Composer;
use std::marker::Model;

/// A builder of which octets are reserved: pushes leave them free, in the capacity of the target
/// and in the push limit, which is lowered by them.
///
/// It owns the builder, so a reservation is never that of another builder. `release` returns the
/// builder.
#[derive(Debug, Drop)]
pub struct ReservedBuilder<T: Composer, S: BuilderStage> {
    builder: Builder<T, S>,
    reserved: u16,
}

impl<T: Composer, S: BuilderStage> Model for ReservedBuilder<T, S> {
    ghost use Rattle.dns_build.specs.Reserved.{IsReserved, Reserving, reserving_code};

    ghost Value = { Reserving };

    ghost coded = { reserving_code };

    ghost view = { λ r. record { built = r.builder; reserved = r.reserved } };

    ghost invariant = { λ r. IsReserved T.capacity
        (record { built = r.builder; reserved = r.reserved }) };
}

impl<T: Composer, S: BuilderStage> Builder<T, S> {
    /// Reserves octets: later pushes leave them free until `release`. Each of these pushes appends
    /// as many zero octets, and cuts them off again. Reserve at the answer section or after it: at
    /// an earlier stage a `ReservedBuilder` has no pushes.
    ///
    /// Errors, checked in this order: `ShortBuf` or `OutOfMemory`, `LimitExceeded`, as of a push of
    /// so many octets. The builder is returned with the error.
    pub fn reserve(self, octets: u16) -> Result<ReservedBuilder<T, S>, (Self, PushError)>
        ensures reserved { IfOk result (λ r. r.reserved ≡ octets) }
        ensures lowered { IfOk result (λ r. MovesState S.stage S.stage T.rule
            (with_limit (self.limit - octets)) self r.built) }
        ensures unchanged { IfErr result (λ refused. refused.0 ≡ self) }
        ensures outcome { PushReturns T.capacity T.grows self.limit
            (length self.written.octets + octets) 0 (reserve_result result) }
    {
        let mut builder = self;
        let more = usize::from(octets);
        let length = builder.as_slice().len();
        let limit = builder.most();
        if let Err(error) = builder.fits(octets) {
            return Err((builder, PushError::from(error)));
        }
        if length + more > limit {
            return Err((builder, PushError::LimitExceeded));
        }
        builder.limit_to(limit - more);
        Ok(ReservedBuilder {
            builder,
            reserved: octets,
        })
    }

    /// Checks that the target has capacity for further octets. Nothing changes.
    fn fits(&mut self, octets: u16) -> Result<(), AppendError>
        ensures unchanged { self.new ≡ self.old }
        ensures outcome { ComposeReturns T.capacity T.grows
            (length self.old.written.octets + octets) result }
    {
        self.draft.fits(octets)
    }

    /// Returns the push limit in octets. `usize::MAX` is no limit.
    pub(crate) fn most(&self) -> usize
        ensures { result ≡ self.now.limit }
    {
        self.draft.most()
    }

    /// Sets the push limit, and changes nothing else.
    pub(crate) fn limit_to(&mut self, limit: usize)
        ensures moves { MovesState S.stage S.stage T.rule (with_limit limit) self.old self.new }
        ensures alone { self.new ≡ record self.old { limit = limit } }
    {
        self.draft.write_limit(limit);
    }
}

impl<T: Composer, S: RecordStage> ReservedBuilder<T, S> {
    /// Appends a record to the stage's section, and leaves the reserved octets free.
    ///
    /// Errors: those of `Builder::push`, and then `ShortBuf` or `OutOfMemory` if the reserved
    /// octets don't fit after the record. Nothing changes on error.
    pub fn push<R: ComposeRecord + Drop>(&mut self, pushed: R) -> Result<(), PushError>
        ensures accepted { OnOk result (MovesState S.stage S.stage T.rule
            (with_record S.stage (R.item pushed)) self.old.built self.new.built) }
        ensures refused { OnErr result (self.new ≡ self.old) }
        ensures reserved { self.new.reserved ≡ self.old.reserved }
        ensures outcome { InEach S.stage T.rule self.old.built (λ s. PushLeaving T.capacity
            T.grows s.limit self.old.reserved
            (size_after T.rule (with_record S.stage (R.item pushed)) s)
            (length (records_at S.stage s)) result) }
        ensures memory { result ≡ Err PushError.OutOfMemory → IsTrue T.grows }
    {
        // Shows that the builder represents a state.
        let _so_far = self.builder.as_slice();
        let mark = self.builder.mark();
        if let Err(error) = self.builder.push(pushed) {
            return Err(error);
        }
        if let Err(error) = self.builder.fits(self.reserved) {
            self.builder.rewind_to(mark);
            return Err(PushError::from(error));
        }
        Ok(())
    }

    /// Appends all of these records to the stage's section, or none, and leaves the reserved octets
    /// free (RFC 2181 section 5).
    ///
    /// Errors: those of `Builder::push_set`, and then `ShortBuf` or `OutOfMemory` if the reserved
    /// octets don't fit after the records. Nothing changes on error.
    pub fn push_set<R: ComposeRecord>(&mut self, records: &[R]) -> Result<(), PushError>
        ensures accepted { OnOk result (MovesState S.stage S.stage T.rule
            (with_records S.stage (map R.item records.now)) self.old.built self.new.built) }
        ensures refused { OnErr result (self.new ≡ self.old) }
        ensures reserved { self.new.reserved ≡ self.old.reserved }
        ensures outcome { InEach S.stage T.rule self.old.built (λ s. SetLeaving T.capacity
            T.grows T.rule S.stage s self.old.reserved (map R.item records.now) result) }
        ensures memory { result ≡ Err PushError.OutOfMemory → IsTrue T.grows }
    {
        // Shows that the builder represents a state.
        let _so_far = self.builder.as_slice();
        let reserved = self.reserved;
        let mark = self.builder.mark();
        if let Err(error) = self.builder.push_set(records) {
            return Err(error);
        }
        if let Err(error) = self.builder.fits(reserved) {
            self.builder.rewind_to(mark);
            return Err(PushError::from(error));
        }
        Ok(())
    }
}

impl<T: Composer, S: BuilderStage> ReservedBuilder<T, S> {
    /// Sets the header, such as TC (RFC 1035 section 4.1.1). Nothing else changes.
    pub fn set_header(&mut self, header: Header)
        ensures moves { MovesState S.stage S.stage T.rule (with_header (fields header))
            self.old.built self.new.built }
        ensures reserved { self.new.reserved ≡ self.old.reserved }
    {
        // Shows that the builder represents a state.
        let _so_far = self.builder.as_slice();
        self.builder.set_header(header);
    }

    /// Returns the builder, to read it.
    pub fn as_builder(&self) -> &Builder<T, S>
        ensures { result.now ≡ self.now.built }
    {
        &self.builder
    }

    /// Returns the builder without the reservation: the push limit is that from before `reserve`.
    /// A message with as many further octets as were reserved fits.
    pub fn release(self) -> Builder<T, S>
        ensures released { MovesState S.stage S.stage T.rule
            (with_limit (self.built.limit + self.reserved)) self.built result }
        ensures fits { (n : ℕ) → n ≤ length self.built.written.octets + self.reserved
            → Fits T.capacity n × (n ≤ self.built.limit + self.reserved) }
    {
        let ReservedBuilder { builder, reserved } = self;
        let mut released = builder;
        let limit = released.most();
        released.limit_to(limit + usize::from(reserved));
        released
    }
}

impl<T: Composer> ReservedBuilder<T, AtAnswer> {
    /// Moves to the authority section. The octets stay reserved.
    pub fn authority(self) -> ReservedBuilder<T, AtAuthority>
        ensures moved { MovesState InAnswer InAuthority T.rule (move_to InAuthority)
            self.built result.built }
        ensures reserved { result.reserved ≡ self.reserved }
    {
        let ReservedBuilder { builder, reserved } = self;
        // Shows that the builder represents a state.
        let _so_far = builder.as_slice();
        ReservedBuilder {
            builder: builder.authority(),
            reserved,
        }
    }
}

impl<T: Composer> ReservedBuilder<T, AtAuthority> {
    /// Moves to the additional section. The octets stay reserved.
    pub fn additional(self) -> ReservedBuilder<T, AtAdditional>
        ensures moved { MovesState InAuthority InAdditional T.rule (move_to InAdditional)
            self.built result.built }
        ensures reserved { result.reserved ≡ self.reserved }
    {
        let ReservedBuilder { builder, reserved } = self;
        // Shows that the builder represents a state.
        let _so_far = builder.as_slice();
        ReservedBuilder {
            builder: builder.additional(),
            reserved,
        }
    }
}

impl<T: Composer> ReservedBuilder<T, AtAdditional> {
    /// Releases the reserved octets, and appends a record to the additional section.
    /// `Builder::push_reserved` appends the OPT record of `reserve_opt` instead.
    ///
    /// A record of at most as many octets doesn't fail for capacity or limit. Else returns what
    /// `Builder::push` returns, with the builder.
    pub fn push_reserved<R: ComposeRecord + Drop>(
        self,
        pushed: R,
    ) -> Result<AdditionalBuilder<T>, (AdditionalBuilder<T>, PushError)>
        ensures accepted { IfOk result (λ new. InEach InAdditional T.rule self.built (λ s.
            Represents InAdditional T.rule (with_record InAdditional (R.item pushed)
            (with_limit (self.built.limit + self.reserved) s)) new)) }
        ensures refused { IfErr result (λ refused. MovesState InAdditional InAdditional T.rule
            (with_limit (self.built.limit + self.reserved)) self.built refused.0) }
        ensures fits { IfErr result (λ refused. InEach InAdditional T.rule self.built (λ s.
            size_after T.rule (with_record InAdditional (R.item pushed)) s
            ≤ length self.built.written.octets + self.reserved
            → (refused.1 ≢ PushError.ShortBuf) × (refused.1 ≢ PushError.LimitExceeded))) }
        ensures outcome { InEach InAdditional T.rule self.built (λ s. PushReturns T.capacity
            T.grows (s.limit + self.reserved)
            (size_after T.rule (with_record InAdditional (R.item pushed)) s)
            (length s.additionals) (reserve_result result)) }
        ensures memory { reserve_result result ≡ Err PushError.OutOfMemory → IsTrue T.grows }
    {
        let mut builder = self.release();
        match builder.push(pushed) {
            Ok(()) => Ok(builder),
            Err(error) => Err((builder, error)),
        }
    }

    /// Releases the reserved octets, and appends the OPT record of `opt` as `Builder::push_opt`
    /// does (RFC 6891 section 6.1.1).
    ///
    /// A record of at most as many octets (`OptBuilder::compose_len`) doesn't fail for capacity or
    /// limit. On error the builder is returned, without the reservation.
    ///
    /// On success the header takes the rcode of the record's copy of the header.
    /// `OptBuilder::set_rcode` sets an rcode that was decided later.
    pub fn push_opt(
        self,
        opt: &OptBuilder,
    ) -> Result<AdditionalBuilder<T>, (AdditionalBuilder<T>, PushError)>
        ensures pushes { InEach InAdditional T.rule self.built (λ s.
            PushesOptRecord T.capacity T.grows T.rule (gathered opt.now)
            (with_limit (self.built.limit + self.reserved) s) (builder_in result)
            (reserve_result result)) }
        ensures refused { IfErr result (λ refused. MovesState InAdditional InAdditional T.rule
            (with_limit (self.built.limit + self.reserved)) self.built refused.0) }
        ensures fits { IfErr result (λ refused. opt_size (gathered opt.now) ≤ self.reserved
            → (refused.1 ≢ PushError.ShortBuf) × (refused.1 ≢ PushError.LimitExceeded)) }
        ensures outcome { InEach InAdditional T.rule self.built (λ s. PushReturns T.capacity
            T.grows (s.limit + self.reserved)
            (size_after T.rule (with_record InAdditional (opt_record (gathered opt.now))) s)
            (length s.additionals) (reserve_result result)) }
        ensures memory { reserve_result result ≡ Err PushError.OutOfMemory → IsTrue T.grows }
    {
        // Shows that the builder represents a state.
        let _so_far = self.as_builder().as_slice();
        let mut builder = self.release();
        match builder.push_opt(opt) {
            Ok(()) => Ok(builder),
            Err(error) => Err((builder, error)),
        }
    }
}
