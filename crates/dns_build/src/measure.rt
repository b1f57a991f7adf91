//! How a measurement ends: its item is removed again.
ghost use Rattle.std.specs.Prelude.{◌≡◌, ◌≤◌, length, OnOk};
ghost use Rattle.dns_wire.specs.Encoders.{Encoder, IsGrowing};
ghost use Rattle.dns_wire.specs.Targets.{Written, Composes};
ghost use Rattle.dns_build.specs.BuilderStates.{IsMessage, Measures};

use dns_octets::AppendError;
use dns_wire::Composer;

/// Ends a measurement once its item is composed. Returns how many octets the item took, and cuts
/// the target back to `old` octets.
pub(crate) fn measure<T: Composer>(
    target: &mut T,
    old: usize,
    composed: Result<(), AppendError>,
) -> Result<usize, AppendError>
    requires { OnOk composed (old ≤ length (T.written target.old).octets) }
    ensures { (before : Written) (encoder : Encoder) → IsGrowing encoder → IsMessage before
        → old ≡ length before.octets
        → Composes T.capacity T.grows encoder before (T.written target.old) composed
        → (T.written target.new ≡ before) × Measures T.capacity T.grows encoder before result }
{
    let end = target.as_slice().len();
    target.truncate(old);
    if let Err(error) = composed {
        return Err(error);
    }
    Ok(end - old)
}
