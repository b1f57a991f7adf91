//! Whether a target has capacity for further octets.
ghost use Rattle.std.specs.Prelude.{replicate};
ghost use Rattle.dns_wire.specs.Encoders.{encode_octets};
ghost use Rattle.dns_wire.specs.Targets.{Composes};

use dns_octets::AppendError;
use dns_wire::Composer;

/// Zero octets, which are appended together.
const ZEROS: [u8; 64] = [0; 64];

/// Appends zero octets. On error the target may have some of them.
pub(crate) fn append_zeros<T: Composer>(target: &mut T, count: u16) -> Result<(), AppendError>
    ensures { Composes T.capacity T.grows (encode_octets (replicate count 0))
        (T.written target.old) (T.written target.new) result }
{
    // Shows that the content is within the capacity.
    let _so_far = target.as_slice();
    let mut left = usize::from(count);
    while left > 0 {
        let more = left.min(ZEROS.len());
        if let Err(error) = target.append_slice(&ZEROS[..more]) {
            return Err(error);
        }
        left -= more;
    }
    Ok(())
}
