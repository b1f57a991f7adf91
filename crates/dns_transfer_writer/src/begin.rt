//! How a message of a transfer begins: its header and its question (RFC 5936 sections 2.2.1 and
//! 2.2.2).
ghost use Rattle.std.specs.Prelude.{◌≡◌};
ghost use Rattle.dns_code.specs.Header.{fields};
ghost use Rattle.dns_read.specs.Message.{message_octets};
ghost use Rattle.dns_transfer_writer.specs.Messages.{Begins, transfer_header};

use dns_build::{AnswerBuilder, MessageBuilder, PushError};
use dns_code::Header;
use dns_iana::Rcode;
use dns_read::Message;
use dns_wire::Composer;

/// A message before its records. If the transfer has begun, it has no question.
pub(crate) fn begin<T: Composer>(
    query: &Message<&[u8]>,
    begun: bool,
    target: T,
    limit: u16,
) -> Result<AnswerBuilder<T>, PushError>
    ensures { Begins T.capacity T.grows T.rule begun limit (message_octets query.now) result }
{
    let mut builder = match MessageBuilder::from_target(target) {
        Ok(builder) => builder,
        Err(error) => return Err(PushError::from(error)),
    };
    builder.set_push_limit(usize::from(limit));
    builder.set_header(transfer_header(query.header()));
    if begun {
        Ok(builder.answer())
    } else {
        builder.start_answer(query, Rcode::NOERROR)
    }
}

/// The header of each message in response to a query with the header `asked`.
fn transfer_header(asked: Header) -> Header
    ensures { fields result ≡ transfer_header (fields asked) }
{
    let mut header = Header::new();
    header.set_id(asked.id());
    header.set_qr(true);
    header.set_opcode(asked.opcode());
    header.set_aa(true);
    header.set_rd(asked.rd());
    header
}
