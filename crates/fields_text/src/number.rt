//! Numbers (RFC 1035 section 5.1).
ghost use Rattle.std.specs.Prelude.{◌≡◌, ◌≤◌, length};
ghost use Rattle.fields_text.specs.Number.{number_of};

/// The big-endian number of at most eight octets.
pub(crate) fn number_of(octets: &[u8]) -> u64
    requires { length octets.now ≤ 8 }
    ensures { result ≡ number_of octets.now }
{
    let mut number = 0;
    for octet in octets {
        number = number * 256 + u64::from(*octet);
    }
    number
}
