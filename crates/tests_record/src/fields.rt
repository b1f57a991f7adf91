//! Fields of RDATA: octets that are appended in order, and numbers that are read.
ghost use Rattle.std.specs.Prelude.{◌≡◌, ◌∷◌, map, length};
ghost use Rattle.std.specs.Int.{to_be_bytes, w16};
ghost use Rattle.dns_message.specs.Targets.{Composes};
ghost use Rattle.dns_message.specs.Data.{Octets, encode_parts};

use dns_message::data::laws::parts_compose;
use dns_message::target::Composer;
use dns_message::wire::AppendError;

/// Appends fields in order.
pub fn compose_fields<T: Composer>(
    first: &[u8],
    after: &[&[u8]],
    target: &mut T,
) -> Result<(), AppendError>
    ensures { Composes T.capacity T.grows (encode_parts T.rule (Octets first.now
        ∷ map (λ field. Octets field.now) after.now)) (T.written target.old)
        (T.written target.new) result }
{
    parts_compose();
    match after {
        [] => target.append_slice(first),
        [second, after @ ..] => {
            target.append_slice(first)?;
            compose_fields(second, after, target)
        }
    }
}

/// The big-endian number in two octets.
pub fn number_of(octets: &[u8]) -> u16
    requires { length octets.now ≡ 2 }
    ensures { to_be_bytes w16 result ≡ octets.now }
{
    u16::from_be_bytes([octets[0], octets[1]])
}
