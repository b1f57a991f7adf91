//! Messages with more than one OPT record (RFC 6891 section 6.1.1).
ghost use Rattle.std.specs.Prelude.{◌≡◌, ◌<◌, ◌↔◌, [], suc, length, IfNone, IfSome, IsTrue};
ghost use Rattle.dns_read.specs.Message.{message_octets};
ghost use Rattle.dns_read.specs.RecordSection.{records_left};
ghost use Rattle.dns_reply.specs.Opts.{opts_in, opts_of};

use dns_iana::Rtype;
use dns_octets::Octets;
use dns_read::{Message, RecordSection};

/// Whether the additional section has more than one OPT record, whatever their RDATA. Records after
/// the first that can't be read don't count.
///
/// A server answers such a query by FORMERR (RFC 6891 section 6.1.1). Such a reply is `Unusable`.
pub fn has_many_opts<Octs: Octets>(message: &Message<Octs>) -> bool
    ensures { IsTrue result ↔ (1 < length (opts_of (message_octets message.now))) }
{
    match message.additional() {
        Ok(additionals) => has_second(additionals),
        Err(_error) => false,
    }
}

/// Whether there is more than one OPT record.
fn has_second(additionals: RecordSection<'_>) -> bool
    ensures { IsTrue result ↔ (1 < length (opts_in (records_left additionals.entry))) }
{
    match after_first(additionals) {
        Some(after) => after_first(after).is_some(),
        None => false,
    }
}

/// The cursor after the first OPT record, if there is one.
fn after_first(mut additionals: RecordSection<'_>) -> Option<RecordSection<'_>>
    ensures some { IfSome result (λ after. length (opts_in (records_left additionals.entry))
        ≡ suc (length (opts_in (records_left after)))) }
    ensures none { IfNone result (opts_in (records_left additionals.entry) ≡ []) }
{
    while let Some(item) = additionals.next() {
        let Ok(record) = item else { continue };
        if record.rtype() == Rtype::OPT {
            return Some(additionals);
        }
    }
    None
}
