//! The octets of rows.
ghost use Rattle.std.specs.Prelude.{◌≡◌};
ghost use Rattle.dnsview_rows.specs.Rows.{row_octets, target_in};

use crate::row::Row;

/// The octets of a row, or none if the row isn't within the message.
pub fn octets_of<'a>(message: &'a [u8], row: &Row) -> &'a [u8]
    ensures { result.now ≡ row_octets message.now row.now }
{
    if row.start <= row.end && row.end <= message.len() {
        &message[row.start..row.end]
    } else {
        &[]
    }
}

/// The offset that a 2-octet compression pointer leads to (RFC 1035 section 4.1.4), or 0 for any
/// other number of octets.
pub fn target_of(octets: &[u8]) -> usize
    ensures { result ≡ target_in octets.now }
{
    match octets {
        [high, low] => usize::from(u16::from_be_bytes([*high, *low]) & 0x3fff),
        _ => 0,
    }
}
