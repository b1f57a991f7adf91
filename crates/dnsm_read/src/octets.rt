//! Octets that are compared eight at a time.
ghost use Rattle.std.specs.Prelude.{◌≡◌, ◌↔◌, length, IsTrue};
ghost use Rattle.std.specs.Int.{to_le_bytes, w64};

/// Eight octets as a number, little-endian. It is 0 for another number of octets.
#[inline(always)]
pub fn number_in(octets: &[u8]) -> u64
    ensures { length octets.now ≡ 8 → to_le_bytes w64 result ≡ octets.now }
{
    if octets.len() != 8 {
        return 0;
    }
    u64::from_le_bytes([
        octets[0], octets[1], octets[2], octets[3], octets[4], octets[5], octets[6], octets[7],
    ])
}

/// Whether the octets are equal. Eight are compared at a time, the last of them perhaps again.
#[inline(always)]
pub fn same(a: &[u8], b: &[u8]) -> bool
    ensures { IsTrue result ↔ (a.now ≡ b.now) }
{
    let len = a.len();
    if len != b.len() {
        return false;
    }
    if len < 8 {
        return a == b;
    }
    let mut i = 0;
    while len - i > 8 {
        let x = number_in(&a[i..i + 8]);
        let y = number_in(&b[i..i + 8]);
        if x != y {
            return false;
        }
        i += 8;
    }
    let last_a = number_in(&a[len - 8..len]);
    let last_b = number_in(&b[len - 8..len]);
    last_a == last_b
}
