//! Theorems on written transfers. The functions do nothing: each contract is a theorem.
ghost use Rattle.dns_transfer_writer.specs.Longest.{MessagesAreLongest};
ghost use Rattle.dns_transfer_writer.specs.Reading.{WrittenIsRead};

use dns_build::laws::{encodings_read_back, records_read_back};

/// The messages of a writer, written until no record is left, are taken by `dns_transfer` as one
/// finished transfer, with the steps of these records: if the records are those of a whole transfer
/// (RFC 5936 section 2.2, RFC 1995 sections 2 and 4), and the query asks for it.
pub fn written_is_read()
    ensures { WrittenIsRead }
{
    encodings_read_back();
    records_read_back();
}

/// No message could have more of the records that come next than a writer's has.
pub fn messages_are_longest()
    ensures { MessagesAreLongest }
{}
