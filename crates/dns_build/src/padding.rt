//! Padding messages, so that their length says less of what they hold (RFC 7830, RFC 8467).
ghost use Rattle.std.specs.Prelude.{◌≡◌, ◌⊎◌, ◌+◌, ◌^◌, ◌<◌, ◌≤◌, Err, IfErr, IsTrue, OnErr, OnOk, MatchOption, length, false, ◌-◌};
ghost use Rattle.dns_edns_builder.specs.Gathered.{gathered, opt_size};
ghost use Rattle.dns_build.specs.State.{InAdditional};
ghost use Rattle.dns_build.specs.BuilderStates.{InEach};
ghost use Rattle.dns_build.specs.Opt.{PushesOptRecord};
ghost use Rattle.dns_build.specs.Padding.{length_with_option, padded, padded_length, stays_unpadded};

use crate::builder::Builder;
use crate::push_error::PushError;
use crate::stage::AtAdditional;
use dns_edns_builder::OptBuilder;
use dns_octets::AppendError;
use dns_wire::{Composer, MAX_OCTETS};

impl<T: Composer> Builder<T, AtAdditional> {
    /// Adds the padding option to `opt`, and appends the OPT record as `push_opt` does. The message
    /// then has a multiple of `block` octets, or as many as its push limit, or 65,535, allow (RFC
    /// 8467 section 4.1). The capacity of the target doesn't count: over a target of fixed
    /// capacity, set the push limit to the capacity first.
    ///
    /// The option takes four octets besides its zeros (RFC 7830 section 3). If the limit doesn't
    /// allow these, or `block` is 0, no option is added.
    ///
    /// Returns `OutOfMemory` if an allocation fails, or else what `push_opt` returns. Nothing
    /// changes on error.
    pub fn push_padded_opt(&mut self, opt: OptBuilder, block: u16) -> Result<(), PushError>
        ensures pushes { (result ≡ Err PushError.OutOfMemory)
            ⊎ InEach InAdditional T.rule self.old (λ s.
            let n = length self.old.written.octets + opt_size (gathered opt) in
            PushesOptRecord T.capacity T.grows T.rule
            (padded block self.old.limit n (gathered opt)) s self.new result) }
        ensures length { OnOk result (length self.new.written.octets ≡ padded_length block
            self.old.limit (length self.old.written.octets + opt_size (gathered opt))) }
        ensures refused { OnErr result (self.new ≡ self.old) }
        ensures memory { IsTrue (stays_unpadded block self.old.limit
            (length self.old.written.octets + opt_size (gathered opt)))
            → result ≡ Err PushError.OutOfMemory → IsTrue T.grows }
    {
        let mut padded = opt;
        // Shows that the sum isn't too large.
        let _options = padded.option_octets();
        let unpadded = self.as_slice().len() + padded.compose_len();
        if let Err(error) = pad(&mut padded, block, self.most(), unpadded) {
            return Err(PushError::from(error));
        }
        self.push_opt(&padded)
    }
}

/// Adds the padding option for a message of `unpadded` octets, this OPT record's included.
fn pad(opt: &mut OptBuilder, block: u16, limit: usize, unpadded: usize) -> Result<(), AppendError>
    requires within { opt_size (gathered opt.old) ≤ unpadded }
    requires short { unpadded < 2 ^ 63 + 2 ^ 17 }
    ensures padded { OnOk result
        (gathered opt.new ≡ padded block limit unpadded (gathered opt.old)) }
    ensures memory { IfErr result (λ error. error ≡ AppendError.OutOfMemory) }
    ensures adds { OnErr result (stays_unpadded block limit unpadded ≡ false) }
{
    match padding_octets(block, limit, unpadded) {
        Some(octets) => opt.padding(octets),
        None => Ok(()),
    }
}

/// The zeros of the padding option for a message of `unpadded` octets, if it gets one.
fn padding_octets(block: u16, limit: usize, unpadded: usize) -> Option<u16>
    requires { unpadded < 2 ^ 63 + 2 ^ 17 }
    ensures { MatchOption result (IsTrue (stays_unpadded block limit unpadded))
        (λ octets. (stays_unpadded block limit unpadded ≡ false)
        × (octets ≡ length_with_option block limit unpadded - (unpadded + 4))
        × (unpadded + 4 + octets ≤ 65535)) }
{
    let most = limit.min(MAX_OCTETS);
    let least = unpadded + 4;
    if block == 0 || most < least {
        return None;
    }
    let padded = least.next_multiple_of(usize::from(block)).min(most);
    Some((padded - least) as u16)
}
