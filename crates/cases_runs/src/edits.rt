//! Messages that calls change in place, as text.
use crate::message::Call;
use crate::run::Run;
use cases_files::octets_of;
use dns_edit::{
    EditError, TtlChange, age_ttls, cap_ttls, change_ttls, replace_option, set_id,
    set_question_case, set_rcode,
};
use dns_iana::{OptionCode, Rcode};
use dns_item::Ttl;
use dns_name::Name;
use dns_read::Message;
use std::alloc::{AllocError, Global};
use std::fmt::Display;
use std::io;

/// A number, of seconds or an ID or an rcode, and after `=` the message that is changed by it, or why it can't be.
pub(crate) fn changed_shown(
    alloc: Global,
    run: &Run<'_>,
    call: Call,
    text: &str,
) -> io::Result<String> {
    let (number, _) = text.split_once(' ').unwrap_or((text, ""));
    let Ok(value) = number.parse::<u32>() else {
        return Ok(String::from_str(alloc, "bad number")?);
    };
    let Some(mut message) = message_of(alloc, run)? else {
        return Ok(String::from_str(alloc, "short message")?);
    };
    let changed = change(&mut message, call, value);
    shown(alloc, number, &message, changed)
}

/// Words, and after `=` a message that is changed, or why it isn't.
fn shown<E: Display + Drop>(
    alloc: Global,
    words: &str,
    message: &Message<Vec<u8>>,
    changed: Result<(), E>,
) -> io::Result<String> {
    match changed {
        Ok(()) => {
            let digits = hex::encode(alloc, message.as_slice())?;
            Ok(format!(in alloc; "{words} = {digits}")?)
        }
        Err(error) => Ok(format!(in alloc; "{words} = {error}")?),
    }
}

/// A copy of the message of a case, if it has 12 octets.
fn message_of(alloc: Global, run: &Run<'_>) -> Result<Option<Message<Vec<u8>>>, AllocError> {
    let octets = Vec::from_slice(alloc, run.message.as_slice())?;
    Ok(Message::from_octets(octets).ok())
}

/// Changes a message by a call.
fn change(message: &mut Message<Vec<u8>>, call: Call, value: u32) -> Result<(), EditError> {
    match call {
        Call::Age => age_ttls(message, value),
        Call::Cap => cap_ttls(message, Ttl::from_secs(value)),
        Call::ChangeCap => change_ttls(message, TtlChange::Cap(Ttl::from_secs(value))),
        _ => {
            change_header(message, call, value);
            Ok(())
        }
    }
}

/// Changes the header section of a message by a call.
fn change_header(message: &mut Message<Vec<u8>>, call: Call, value: u32) {
    match call {
        Call::Id => set_id(message, u16::try_from(value).unwrap_or(u16::MAX)),
        Call::HeaderRcode => {
            let octet = u8::try_from(value).unwrap_or(u8::MAX);
            set_rcode(message, Rcode::masked_from_int(octet));
        }
        _ => remove_last(message),
    }
}

/// Removes the last additional record, if there is one.
fn remove_last(message: &mut Message<Vec<u8>>) {
    if message.header_counts().arcount() > 0 {
        message.remove_last_additional();
    }
}

/// A name, and after `=` the message whose question has the letter case of the name, or why it has
/// another.
pub(crate) fn cased_shown(alloc: Global, run: &Run<'_>, text: &str) -> io::Result<String> {
    let (words, _) = text.split_once(" = ").unwrap_or((text, ""));
    let Ok(name) = Name::vec_from_str(alloc, words) else {
        return Ok(String::from_str(alloc, "bad name")?);
    };
    let Some(mut message) = message_of(alloc, run)? else {
        return Ok(String::from_str(alloc, "short message")?);
    };
    let changed = set_question_case(&mut message, &name);
    shown(alloc, words, &message, changed)
}

/// An option's code and data, and after `=` the message whose option has this data, or `none`
/// without such an option, or why it isn't replaced.
pub(crate) fn replaced_shown(alloc: Global, run: &Run<'_>, text: &str) -> io::Result<String> {
    let (words, _) = text.split_once(" = ").unwrap_or((text, ""));
    let (number, digits) = words.split_once(' ').unwrap_or((words, ""));
    let (Ok(code), Some(octets)) = (number.parse::<u16>(), octets_of(alloc, digits)?) else {
        return Ok(String::from_str(alloc, "bad option")?);
    };
    let Some(mut message) = message_of(alloc, run)? else {
        return Ok(String::from_str(alloc, "short message")?);
    };
    match replace_option(&mut message, OptionCode::from_int(code), octets.as_slice()) {
        Ok(false) => Ok(format!(in alloc; "{words} = none")?),
        Ok(true) => shown(alloc, words, &message, Ok::<(), EditError>(())),
        Err(error) => shown(alloc, words, &message, Err(error)),
    }
}
