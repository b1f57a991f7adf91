ghost use Rattle.std.specs.Prelude.{◌≤◌, length, IfErr, IfOk};
ghost use Rattle.dns_name.specs.Names.{fault_of};
ghost use Rattle.dns_read.specs.Message.{message_octets};
ghost use Rattle.dns_edit.specs.Edits.{RecordsFault};
ghost use Rattle.dns_edit.specs.Ends.{RecordsEndAt};

use crate::walk::walk_records;
use dns_octets::{Octets, ParseError};
use dns_read::Message;

/// The offset after the last record; without records, after the last question or the header (RFC
/// 1035 section 4.1). Octets from there on are in no question or record.
///
/// Returns the error of the first entry that can't be skipped.
pub fn records_end<Octs: Octets>(message: &Message<Octs>) -> Result<usize, ParseError>
    ensures end { IfOk result (RecordsEndAt (message_octets message.now)) }
    ensures within { IfOk result (λ end. end ≤ length (message_octets message.now)) }
    ensures fault { IfErr result (λ e. RecordsFault (message_octets message.now) (fault_of e)) }
{
    walk_records(message).map(|walked| walked.0)
}
