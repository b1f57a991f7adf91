//! How much of a text fits into a number of octets with its markup characters escaped.
ghost use Rattle.std.specs.Prelude.{◌≡◌, ◌≤◌, length};
ghost use Rattle.dnsview_tool.specs.Pages.{escaped_octet, front_within, limits_words, words_limit};

use dns_code::HeaderSection;
use dnsview_rows::Row;

/// The octets of `...`, which stands for what is left out.
pub(crate) const ELLIPSIS_LEN: u128 = 3;

/// The octets that the words for a row may take at least, if they are limited.
const LEAST: u128 = 60;

/// The octets that they may take besides those for each octet of the row.
const LIMIT: u128 = 27;

/// The octets that they may take for each octet of the row.
const LIMIT_PER_OCTET: u128 = 9;

/// Whether the words for a row are cut off if they are long: after the header section on a brief
/// page.
pub(crate) fn limits_words(is_brief: bool, row: &Row) -> bool
    ensures { result ≡ limits_words is_brief row.now }
{
    is_brief && row.start >= HeaderSection::LEN
}

/// How many octets the words for some octets may take.
///
/// With these limits the page of a message of 64 KiB has at most 39.7 times its octets, by a
/// reckoning over all items.
pub(crate) fn words_limit(octets: &[u8]) -> u128
    ensures { result ≡ words_limit octets.now }
{
    LEAST.max(LIMIT_PER_OCTET * octets.len() as u128 + LIMIT)
}

/// As much of a text as takes at most `limit` octets with its markup characters escaped and `...`
/// after it.
pub(crate) fn front_within(text: &[u8], limit: u128) -> &[u8]
    ensures { result.now ≡ front_within limit text.now }
{
    let mut room = limit;
    for (index, octet) in text.iter().enumerate() {
        let len = escaped_len(*octet);
        if room < len + ELLIPSIS_LEN {
            return &text[..index];
        }
        room -= len;
    }
    text
}

/// The octets of an octet that is escaped if it is a markup character.
fn escaped_len(octet: u8) -> u128
    ensures is { result ≡ length (escaped_octet octet) }
    ensures small { result ≤ 5 }
{
    match octet {
        b'<' | b'>' => 4,
        b'&' => 5,
        _ => 1,
    }
}

/// The octets of a text with its markup characters escaped.
pub(crate) fn escaped_size(text: &[u8]) -> u128 {
    let mut size: u128 = 0;
    for octet in text {
        size = size.saturating_add(escaped_len(*octet));
    }
    size
}
