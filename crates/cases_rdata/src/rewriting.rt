//! Messages written again from the fields of their records.
use dns_build::{AnswerBuilder, CopyRecordsError, MessageBuilder, PushError, copy_records};
use dns_code::Rcode;
use dns_read::Message;
use dns_target::TreeCompressor;
use fields_table::FieldData;
use std::alloc::{AllocError, Global};

/// The digits of the message in these octets, written again from its fields; or why it can't be.
pub(crate) fn rewritten(alloc: Global, octets: &[u8]) -> Result<String, AllocError> {
    let Ok(message) = Message::from_slice(octets) else {
        return String::from_str(alloc, "short message");
    };
    match written_again(alloc, &message) {
        Ok(written) => hex::encode(alloc, written.as_slice()),
        Err(error) => error.to_string(alloc),
    }
}

/// The same of the message in these digits.
pub(crate) fn rewritten_again(alloc: Global, digits: &[u8]) -> Result<String, AllocError> {
    match hex::decode(alloc, digits) {
        Ok(octets) => rewritten(alloc, octets.as_slice()),
        Err(_) => rewritten(alloc, &[]),
    }
}

/// The message with its header, its question and its records. Leaves out records whose RDATA is
/// malformed.
fn written_again(
    alloc: Global,
    message: &Message<&[u8]>,
) -> Result<Message<Vec<u8>>, CopyRecordsError> {
    let builder = begun(alloc, message)?;
    let copied = copy_records(message, builder, |record| {
        record.into_any_record::<FieldData<'_>>().ok()
    })?;
    Ok(copied.into_message())
}

/// A builder with the header of a message and its questions.
fn begun(
    alloc: Global,
    message: &Message<&[u8]>,
) -> Result<AnswerBuilder<TreeCompressor<Vec<u8>>>, PushError> {
    let target = TreeCompressor::new(alloc, Vec::new(alloc));
    let mut builder = MessageBuilder::from_target(target)?.start_answer(message, Rcode::NOERROR)?;
    builder.set_header(message.header());
    Ok(builder)
}
