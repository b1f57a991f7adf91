//! Reserving the octets of an OPT record before other records are pushed (RFC 6891 section 6.1).
ghost use Rattle.std.specs.Prelude.{◌≡◌, ◌≢◌, ◌+◌, ◌≤◌, ◌<◌, IfOk, IfErr, OnOk, OnErr, length};
ghost use Rattle.dns_edns_builder.specs.Gathered.{gathered, opt_size, with_extended_rcode};
ghost use Rattle.dns_build.specs.State.{InAdditional, with_limit};
ghost use Rattle.dns_build.specs.BuilderStates.{InEach, MovesState};
ghost use Rattle.dns_build.specs.Opt.{PushesOptRecord};
ghost use Rattle.dns_build.specs.ReservedOpt.{limit_left, reservation};

use crate::builder::Builder;
use crate::push_error::PushError;
use crate::stage::{AtAdditional, BuilderStage};
use dns_edns_builder::OptBuilder;
use dns_iana::OptRcode;
use dns_wire::Composer;

/// An OPT record whose octets `Builder::reserve_opt` has reserved.
///
/// `Builder::push_reserved` pushes it. If it is dropped instead, the push limit stays lowered.
#[derive(Debug, Drop)]
pub struct ReservedOpt {
    opt: OptBuilder,
    /// The push limit before. `usize::MAX` is no limit.
    limit: usize,
}

impl ReservedOpt {
    /// Sets the extended rcode, in the record and in its copy of the header. The record takes as
    /// many octets as before.
    pub fn set_rcode(&mut self, rcode: OptRcode)
        ensures { let old = reservation self.old in reservation self.new ≡
            record old { opt = with_extended_rcode rcode old.opt } }
    {
        self.opt.set_rcode(rcode);
    }
}

impl<T: Composer, S: BuilderStage> Builder<T, S> {
    /// Reserves the octets of an OPT record: lowers the push limit by them, so that other pushes
    /// leave them free. No limit stays none. `push_reserved` pushes the record, at the additional
    /// section. `Builder::reserve` reserves octets of the capacity too.
    ///
    /// The only error is `LimitExceeded`: the message so far and the record exceed the limit. Then
    /// `opt` is dropped, and nothing else changes.
    pub fn reserve_opt(&mut self, opt: OptBuilder) -> Result<ReservedOpt, PushError>
        ensures reserved { IfOk result (λ reserved. reservation reserved ≡
            record { opt = gathered opt; limit = self.old.limit }) }
        ensures lowered { IfOk result (λ reserved. MovesState S.stage S.stage T.rule
            (with_limit (limit_left (reservation reserved))) self.old self.new) }
        ensures fits { OnOk result
            (length self.old.written.octets + opt_size (gathered opt) ≤ self.old.limit) }
        ensures exceeds { IfErr result (λ error. (error ≡ PushError.LimitExceeded)
            × (self.old.limit < length self.old.written.octets + opt_size (gathered opt))) }
        ensures refused { OnErr result (self.new ≡ self.old) }
    {
        let limit = self.draft.reserve(opt.compose_len())?;
        Ok(ReservedOpt { opt, limit })
    }
}

impl<T: Composer> Builder<T, AtAdditional> {
    /// Restores the push limit from before `reserve_opt`, and appends the reserved OPT record
    /// (RFC 6891 section 6.1.1). `ReservedBuilder::push_reserved` appends any record, in the octets
    /// that `reserve` left free.
    ///
    /// `LimitExceeded` isn't returned if the message so far is within the lowered limit, as it is
    /// after successful pushes. Else returns what `push` returns. On error only the limit changes:
    /// it is restored.
    ///
    /// On success the header takes the rcode of the record's copy of the header, which is as old as
    /// the gathered record. `ReservedOpt::set_rcode` sets an rcode that was decided later. All
    /// other header fields stay as they are now.
    pub fn push_reserved(&mut self, reserved: ReservedOpt) -> Result<(), PushError>
        ensures fits { length self.old.written.octets ≤ limit_left (reservation reserved)
            → result ≢ Err PushError.LimitExceeded }
        ensures pushes { InEach InAdditional T.rule self.old (λ s.
            let r = reservation reserved in PushesOptRecord T.capacity T.grows T.rule r.opt
            (with_limit r.limit s) self.new result) }
        ensures refused { OnErr result (MovesState InAdditional InAdditional T.rule
            (with_limit (reservation reserved).limit) self.old self.new) }
    {
        // Shows that the record fits without a limit: the message so far is a slice.
        let _so_far = self.as_slice();
        self.set_push_limit(reserved.limit);
        self.push_opt(&reserved.opt)
    }
}
