//! What a reply says, what is asked of a message before it is served from a cache, and its TTLs then.
ghost use Rattle.std.specs.Prelude.{◌≡◌, ◌≢◌, ◌<◌, ◌≤◌, length, None, Some};
ghost use Rattle.dns_code.specs.HeaderSection.{header_size};
ghost use Rattle.dns_edit.specs.Acceptance.{IsRegular};
ghost use Rattle.dns_edit.specs.Edits.{ChangesTtls, IsLeastTtl};
ghost use Rattle.dns_edit.specs.Ends.{RecordsEndAt};
ghost use Rattle.dns_edit.specs.Readings.{ReadsAlike};
ghost use Rattle.dns_edit.specs.Ttls.{changed};
ghost use Rattle.dns_edit.specs.declared.change.TtlChange.TheVariants.{Age};
ghost use Rattle.dnsm_status.specs.Codes.{number_of};
ghost use Rattle.dnsm_text.specs.NamePairs.{IsFlagOf};
ghost use Rattle.dnsm_replies.specs.Ages.{RefusesAge};
ghost use Rattle.dnsm_replies.specs.Faults.{LacksRecords};
ghost use Rattle.dnsm_replies.specs.Replies.{LacksReply, SaysReply};

use dnsm_replies::{Saying, age, reply, whole};
use dnsm_status::{CallError, code};

/// Sets `regular` to 1 if all entries can be skipped and each pointer of a name leads to a label of an
/// earlier name (RFC 1035 section 4.1.4), else to 0.
#[unsafe(no_mangle)]
pub extern "C" fn dnsm_is_regular(message: &[u8], regular: &mut u8) -> u32
    ensures regular { result ≡ 0 → IsFlagOf (IsRegular message.now) regular.new }
    ensures long { header_size ≤ length message.now → result ≡ 0 }
    ensures short { result ≢ 0 → (result ≡ number_of CallError.ShortInput)
        × (length message.now < header_size) }
    ensures unchanged { result ≢ 0 → regular.new ≡ regular.old }
{
    match whole::is_regular(message) {
        Ok(found) => {
            *regular = u8::from(found);
            0
        }
        Err(fault) => code::of_fault(fault),
    }
}

/// Sets `ttl` to the least TTL of the records, in seconds. Returns 1 if no record has one, otherwise
/// the number of the error of the first entry that can't be skipped.
#[unsafe(no_mangle)]
pub extern "C" fn dnsm_min_ttl(message: &[u8], ttl: &mut u32) -> u32
    ensures least { result ≡ 0 → IsLeastTtl message.now (Some ttl.new) }
    ensures none { result ≡ 1 → IsLeastTtl message.now None }
    ensures fault { result ≢ 0 → result ≢ 1 → LacksRecords message.now result }
    ensures unchanged { result ≢ 0 → ttl.new ≡ ttl.old }
{
    match whole::min_ttl(message) {
        Ok(Some(least)) => {
            *ttl = least;
            0
        }
        Ok(None) => 1,
        Err(fault) => code::of_fault(fault),
    }
}

/// Sets `end` to the offset after the last record.
#[unsafe(no_mangle)]
pub extern "C" fn dnsm_records_end(message: &[u8], end: &mut usize) -> u32
    ensures end { result ≡ 0 → RecordsEndAt message.now end.new }
    ensures within { result ≡ 0 → end.new ≤ length message.now }
    ensures fault { result ≢ 0 → LacksRecords message.now result }
    ensures unchanged { result ≢ 0 → end.new ≡ end.old }
{
    match whole::records_end(message) {
        Ok(found) => {
            *end = found;
            0
        }
        Err(fault) => code::of_fault(fault),
    }
}

/// Sets `saying` to what a received message says of a query, if it is a reply to that. `zone` is the
/// uncompressed name of the zone that the server was asked about.
#[unsafe(no_mangle)]
pub extern "C" fn dnsm_reply(query: &[u8], received: &[u8], zone: &[u8], saying: &mut Saying) -> u32
    ensures says { result ≡ 0 → SaysReply query.now received.now zone.now saying.new }
    ensures none { result ≢ 0 → LacksReply query.now received.now zone.now result }
    ensures unchanged { result ≢ 0 → saying.new ≡ saying.old }
{
    match reply::reply(query, received, zone) {
        Ok(found) => {
            *saying = found;
            0
        }
        Err(fault) => code::of_fault(fault),
    }
}

/// Lowers the TTL of each record by `seconds`, but not below 0. Returns the number of the error of
/// the first question or record that isn't as `dnsm_is_regular` wants it.
#[unsafe(no_mangle)]
pub extern "C" fn dnsm_age(message: &mut [u8], seconds: u32) -> u32
    ensures changes { result ≡ 0 → ChangesTtls (changed (Age seconds)) message.old message.new }
    ensures reads { result ≡ 0 → ReadsAlike (changed (Age seconds)) message.old message.new }
    ensures regular { result ≡ 0 → IsRegular message.old }
    ensures long { result ≡ 0 → header_size ≤ length message.old }
    ensures refused { result ≢ 0 → RefusesAge message.old result }
    ensures unchanged { result ≢ 0 → message.new ≡ message.old }
{
    match age::age(message, seconds) {
        Ok(()) => 0,
        Err(fault) => code::of_fault(fault),
    }
}
