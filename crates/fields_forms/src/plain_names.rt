//! Uncompressed names among octets (RFC 1035 section 3.1).
ghost use Rattle.std.specs.Prelude.{◌≡◌, ◌≤◌, length, IfSome};
ghost use Rattle.fields_forms.specs.PlainNames.{plain_name_size, are_plain_names};

use dns_name::{Head, Label};

/// The size of the uncompressed name at the start of the octets. `None` if no name is there.
pub(crate) fn plain_name_size(octets: &[u8]) -> Option<usize>
    ensures size { result ≡ plain_name_size octets.now }
    ensures some { IfSome result (λ size. 1 ≤ size) }
    ensures within { IfSome result (λ size. size ≤ length octets.now) }
{
    let mut left = octets;
    let mut size: usize = 0;
    'labels: while let [length, rest @ ..] = left {
        let length = usize::from(*length);
        if length == 0 {
            return Some(size + 1);
        }
        if length > Label::MAX_LEN || size + 1 + length > Head::MAX_SIZE || length > rest.len() {
            return None;
        }
        size += 1 + length;
        left = &rest[length..];
    }
    None
}

/// Whether the octets are consecutive uncompressed names, perhaps none.
pub(crate) fn are_plain_names(octets: &[u8]) -> bool
    ensures { result ≡ are_plain_names octets.now }
{
    let mut left = octets;
    'names: while !left.is_empty() {
        let Some(size) = plain_name_size(left) else {
            return false;
        };
        left = &left[size..];
    }
    true
}
