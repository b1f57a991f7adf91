//! What calls of the library return for the message of a case, as text.
use crate::message::Call;
use crate::reading::write_reading;
use crate::run::Run;
use dns_data::A;
use dns_edit::{is_regular, min_ttl, records_end};
use dns_read::Message;
use dns_reply::has_many_opts;
use std::alloc::AllocError;

/// Writes what a call returns for the message of a case.
pub(crate) fn write_call(text: &mut String, run: &Run<'_>, call: Call) -> Result<(), AllocError> {
    let Ok(message) = Message::from_slice(run.message.as_slice()) else {
        return text.push_str("short message");
    };
    match call {
        Call::Rcode => write!(text, "{}", message.opt_rcode().to_int()),
        Call::Canonical => write_canonical(text, &message),
        Call::Sole => write_sole(text, &message),
        Call::Least => write_least(text, &message),
        Call::Regular => write_word(text, is_regular(&message)),
        Call::End => write_end(text, &message),
        Call::LastAddress => write_last_address(text, &message),
        Call::HasAddress => write_word(text, message.contains_answer::<A>()),
        Call::ManyOpts => write_word(text, has_many_opts(&message)),
        Call::IsAnswer | Call::SameQuestions => write_pair(text, run, call, &message),
        _ => write_reading(text, &message, call),
    }
}

/// Writes "yes" or "no".
fn write_word(text: &mut String, holds: bool) -> Result<(), AllocError> {
    text.push_str(if holds { "yes" } else { "no" })
}

/// Writes the canonical name, or "none".
fn write_canonical(text: &mut String, message: &Message<&[u8]>) -> Result<(), AllocError> {
    match message.canonical_name() {
        Some(name) => write!(text, "{name}."),
        None => text.push_str("none"),
    }
}

/// Writes the type of the sole question, or why there is none.
fn write_sole(text: &mut String, message: &Message<&[u8]>) -> Result<(), AllocError> {
    match message.sole_question() {
        Ok(question) => write!(text, "{}", question.qtype().to_int()),
        Err(error) => write!(text, "{error}"),
    }
}

/// Writes the least TTL in seconds, "none", or why it can't be read.
fn write_least(text: &mut String, message: &Message<&[u8]>) -> Result<(), AllocError> {
    match min_ttl(message) {
        Ok(Some(ttl)) => write!(text, "{}", ttl.as_secs()),
        Ok(None) => text.push_str("none"),
        Err(error) => write!(text, "{error}"),
    }
}

/// Writes the offset where the records end, or why they can't be skipped.
fn write_end(text: &mut String, message: &Message<&[u8]>) -> Result<(), AllocError> {
    match records_end(message) {
        Ok(end) => write!(text, "{end}"),
        Err(error) => write!(text, "{error}"),
    }
}

/// Writes the address in the last additional record, or "none".
fn write_last_address(text: &mut String, message: &Message<&[u8]>) -> Result<(), AllocError> {
    match message.get_last_additional::<A>() {
        Some(record) => write!(text, "{}", record.data()),
        None => text.push_str("none"),
    }
}

/// Writes whether the message is an answer to the other one, or their questions are the same.
fn write_pair(
    text: &mut String,
    run: &Run<'_>,
    call: Call,
    message: &Message<&[u8]>,
) -> Result<(), AllocError> {
    let Ok(other) = Message::from_slice(run.other.as_slice()) else {
        return text.push_str("short message");
    };
    let holds = match call {
        Call::IsAnswer => message.is_answer(&other),
        _ => message.question().same_questions(&other.question()),
    };
    write_word(text, holds)
}
