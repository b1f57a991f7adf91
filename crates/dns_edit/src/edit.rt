ghost use Rattle.std.specs.Prelude.{◌≡◌, ◌≤◌, ℕ, List, [], IfErr, IfOk, OnErr, OnOk, length};
ghost use Rattle.dns_code.specs.HeaderSection.{header_size};
ghost use Rattle.dns_item.specs.Items.{SkipsRecord};
ghost use Rattle.dns_name.specs.Names.{fault_of};
ghost use Rattle.dns_read.specs.Message.{buffer_of, message_octets};
ghost use Rattle.dns_read.specs.Reading.{Skipped};
ghost use Rattle.dns_read.specs.Sections.{question_count};
ghost use Rattle.dns_edit.specs.Acceptance.{AcceptsFrom, AcceptsTtls, RefusesTtls};
ghost use Rattle.dns_edit.specs.Edits.{ChangesTtls, IsLeastTtl, MapsTtls, RecordsFault};
ghost use Rattle.dns_edit.specs.Marks.{MarksLabels};
ghost use Rattle.dns_edit.specs.Readings.{FitInOctets, ReadsAlike, ReadsMapped};
ghost use Rattle.dns_edit.specs.Ttls.{TtlFields, WritesTtl, WritesTtls, changed, record_total};
ghost use Rattle.dns_edit.specs.declared.change.TtlChange.TheVariants.{Age, Cap};

use crate::change::{TtlChange, has_ttl};
use crate::entries::{check_questions, check_records};
use crate::error::EditError;
use crate::span::span_at;
use crate::walk::walk_records;
use dns_code::{HeaderCounts, HeaderSection, Ttl};
use dns_name::Head;
use dns_octets::{Octets, OctetsMut, ParseError};
use dns_read::Message;

/// The number of octets with a mark for each offset within pointer range.
const MARKS: usize = Head::POINTER_END / 8;

/// The least TTL of the message's records, or `None` if it has none.
///
/// The records of the three sections count, but for OPT, TSIG, TKEY and SIG, whose field holds no
/// TTL for caches. Returns the error of the first entry that can't be skipped.
pub fn min_ttl<Octs: Octets>(message: &Message<Octs>) -> Result<Option<Ttl>, ParseError>
    ensures least { IfOk result (IsLeastTtl (message_octets message.now)) }
    ensures fault { IfErr result (λ e. RecordsFault (message_octets message.now) (fault_of e)) }
{
    walk_records(message).map(|walked| ttl_of(walked.1))
}

fn ttl_of(seconds: Option<u32>) -> Option<Ttl>
    ensures { result ≡ seconds }
{
    match seconds {
        None => None,
        Some(seconds) => Some(Ttl::from_secs(seconds)),
    }
}

/// Lowers each TTL by `seconds`, but not below 0, as [`change_ttls`] does.
pub fn age_ttls<Octs: OctetsMut>(message: &mut Message<Octs>, seconds: u32) -> Result<(), EditError>
    ensures reads { OnOk result (ReadsAlike (changed (Age seconds)) (message_octets message.old)
        (message_octets message.new)) }
    ensures changes { OnOk result (ChangesTtls (changed (Age seconds)) (message_octets message.old)
        (message_octets message.new)) }
    ensures accepted { OnOk result (AcceptsTtls (message_octets message.old)) }
    ensures refused { IfErr result (RefusesTtls (message_octets message.old)) }
    ensures kept { OnErr result (message_octets message.new ≡ message_octets message.old) }
    ensures loan { Octs.loan (buffer_of message.new) ≡ Octs.loan (buffer_of message.old) }
{
    change_ttls(message, TtlChange::Age(seconds))
}

/// Lowers each TTL of more than `most` to `most`, as [`change_ttls`] does.
pub fn cap_ttls<Octs: OctetsMut>(message: &mut Message<Octs>, most: Ttl) -> Result<(), EditError>
    ensures reads { OnOk result (ReadsAlike (changed (Cap most)) (message_octets message.old)
        (message_octets message.new)) }
    ensures changes { OnOk result (ChangesTtls (changed (Cap most)) (message_octets message.old)
        (message_octets message.new)) }
    ensures accepted { OnOk result (AcceptsTtls (message_octets message.old)) }
    ensures refused { IfErr result (RefusesTtls (message_octets message.old)) }
    ensures kept { OnErr result (message_octets message.new ≡ message_octets message.old) }
    ensures loan { Octs.loan (buffer_of message.new) ≡ Octs.loan (buffer_of message.old) }
{
    change_ttls(message, TtlChange::Cap(most))
}

/// Changes the TTL of each record in place, as [`map_ttls`] does.
pub fn change_ttls<Octs: OctetsMut>(
    message: &mut Message<Octs>,
    change: TtlChange,
) -> Result<(), EditError>
    ensures reads { OnOk result (ReadsAlike (changed change) (message_octets message.old)
        (message_octets message.new)) }
    ensures changes { OnOk result (ChangesTtls (changed change) (message_octets message.old)
        (message_octets message.new)) }
    ensures accepted { OnOk result (AcceptsTtls (message_octets message.old)) }
    ensures refused { IfErr result (RefusesTtls (message_octets message.old)) }
    ensures kept { OnErr result (message_octets message.new ≡ message_octets message.old) }
    ensures loan { Octs.loan (buffer_of message.new) ≡ Octs.loan (buffer_of message.old) }
{
    map_ttls(message, |ttl| change.of(ttl))
}

/// Makes each TTL what `change` returns for it, but for OPT, TSIG, TKEY and SIG. No other octet
/// changes.
///
/// The message reads as before but for the TTLs. It is read twice; no pointer is followed, and
/// nothing is allocated.
///
/// Returns the error of the first question or record that is refused: `Parse` if it or a name in
/// its RDATA can't be skipped, or these names run past the RDATA; `Pointer` if a pointer of its
/// names leads to anything but a label of an earlier name (RFC 1035 section 4.1.4). The message
/// then stays as it is, and `change` isn't called.
pub fn map_ttls<Octs: OctetsMut, F: Fn(Ttl) -> Ttl>(
    message: &mut Message<Octs>,
    change: F,
) -> Result<(), EditError>
    requires { F.IsAlwaysCallable change }
    ensures maps { OnOk result (MapsTtls (F.post change) (message_octets message.old)
        (message_octets message.new)) }
    ensures reads { OnOk result (ReadsMapped (F.post change) (message_octets message.old)
        (message_octets message.new)) }
    ensures accepted { OnOk result (AcceptsTtls (message_octets message.old)) }
    ensures refused { IfErr result (RefusesTtls (message_octets message.old)) }
    ensures kept { OnErr result (message_octets message.new ≡ message_octets message.old) }
    ensures loan { Octs.loan (buffer_of message.new) ≡ Octs.loan (buffer_of message.old) }
{
    are_octets(message.as_slice());
    let start = check(message.as_slice())?;
    let count = record_count(message.as_slice());
    write_ttls(message, start, count, &change);
    Ok(())
}

/// What is in a slice of octets is octets.
fn are_octets(octets: &[u8])
    ensures { FitInOctets octets.now }
{
    let _len = octets.len();
}

/// The number of questions.
pub(crate) fn questions_in(octets: &[u8]) -> u16
    requires { header_size ≤ length octets.now }
    ensures { result ≡ question_count octets.now }
{
    HeaderCounts::for_message_slice(octets).qdcount()
}

/// The number of records in the three sections.
pub(crate) fn record_count(octets: &[u8]) -> u32
    requires { header_size ≤ length octets.now }
    ensures { result ≡ record_total octets.now }
{
    let counts = HeaderCounts::for_message_slice(octets);
    u32::from(counts.ancount()) + u32::from(counts.nscount()) + u32::from(counts.arcount())
}

/// Walks over all names of a message. Returns the offset where the records begin.
pub(crate) fn check(octets: &[u8]) -> Result<usize, EditError>
    requires { header_size ≤ length octets.now }
    ensures accepts { IfOk result (AcceptsFrom octets.now) }
    ensures refuses { IfErr result (RefusesTtls octets.now) }
{
    check_with(octets, &mut [0; MARKS])
}

/// The same, with no mark set.
fn check_with(octets: &[u8], marks: &mut [u8]) -> Result<usize, EditError>
    requires long { header_size ≤ length octets.now }
    requires none { MarksLabels octets.now [] marks.old }
    ensures accepts { IfOk result (AcceptsFrom octets.now) }
    ensures refuses { IfErr result (RefusesTtls octets.now) }
{
    let start = check_questions(octets, HeaderSection::LEN, questions_in(octets), marks)?;
    check_records(octets, start, record_count(octets), marks)?;
    Ok(start)
}

/// Changes the TTLs of `count` records from offset `start` on, which are known to be there.
fn write_ttls<Octs: OctetsMut, F: Fn(Ttl) -> Ttl>(
    message: &mut Message<Octs>,
    start: usize,
    count: u32,
    change: &F,
)
    requires callable { F.IsAlwaysCallable change.now }
    requires after_header { header_size ≤ start }
    requires skips { (end : ℕ)
        × Skipped (SkipsRecord (message_octets message.old)) count start end }
    ensures writes { (fields : List ℕ) → TtlFields (message_octets message.old) count start fields
        → WritesTtls (F.post change.now) fields (message_octets message.old)
        (message_octets message.new) }
    ensures loan { Octs.loan (buffer_of message.new) ≡ Octs.loan (buffer_of message.old) }
{
    let mut pos = start;
    for _record in 0..count {
        pos = write_ttl(message, pos, change);
    }
}

/// Changes the TTL of the record at offset `start`, which is known to be there. Returns its end.
fn write_ttl<Octs: OctetsMut, F: Fn(Ttl) -> Ttl>(
    message: &mut Message<Octs>,
    start: usize,
    change: &F,
) -> usize
    requires callable { F.IsAlwaysCallable change.now }
    requires after_header { header_size ≤ start }
    requires skips { (end : ℕ) × SkipsRecord (message_octets message.old) start end }
    ensures writes { WritesTtl (F.post change.now) (message_octets message.old)
        (message_octets message.new) start result }
    ensures later { start ≤ result }
    ensures loan { Octs.loan (buffer_of message.new) ≡ Octs.loan (buffer_of message.old) }
{
    match span_at(message.as_slice(), start) {
        Ok(span) => {
            if has_ttl(span.rtype) {
                let ttl = change(Ttl::from_secs(span.ttl));
                message.overwrite(span.fields + 4, &ttl.as_secs().to_be_bytes());
            }
            span.end
        }
        Err(_error) => start,
    }
}
