//! What a message says of the question of another, and names that DNAME records redirect, as text.
use crate::message::Call;
use crate::run::Run;
use dns_code::Ttl;
use dns_name::{Name, ParsedName};
use dns_read::Message;
use dns_reply::{Denial, Redirection, Reply, reply_to, reply_to_exact, substitute};
use std::alloc::{AllocError, Global};
use std::io;

/// A zone, and after `=` what the message of a case says of the question of the other one, or why
/// it is no reply to that.
pub(crate) fn reply_shown(
    alloc: Global,
    run: &Run<'_>,
    call: Call,
    text: &str,
) -> io::Result<String> {
    let (words, _) = text.split_once(" = ").unwrap_or((text, ""));
    let mut shown = String::from_str(alloc, words)?;
    shown.push_str(" = ")?;
    let Ok(zone) = Name::vec_from_str(alloc, words) else {
        shown.push_str("bad name")?;
        return Ok(shown);
    };
    write_said(&mut shown, run, call, &zone)?;
    Ok(shown)
}

/// Writes what the message of a case says.
fn write_said(
    text: &mut String,
    run: &Run<'_>,
    call: Call,
    zone: &Name<Vec<u8>>,
) -> Result<(), AllocError> {
    let Ok(query) = Message::from_slice(run.other.as_slice()) else {
        return text.push_str("short message");
    };
    let Ok(message) = Message::from_slice(run.message.as_slice()) else {
        return text.push_str("short message");
    };
    let said = match call {
        Call::ReplyExact => reply_to_exact(&query, &message, zone),
        _ => reply_to(&query, &message, zone),
    };
    match said {
        Ok(reply) => write_reply(text, &reply),
        Err(reason) => write!(text, "{reason}"),
    }
}

/// Writes what a reply says.
fn write_reply(text: &mut String, reply: &Reply<'_>) -> Result<(), AllocError> {
    match reply {
        Reply::Answer(answer) => write_timed(text, "answer", answer.name(), answer.ttl()),
        Reply::NoData(denial) => write_denial(text, "no-data", denial),
        Reply::NoName(denial) => write_denial(text, "no-name", denial),
        Reply::Referral(referral) => {
            write_names(text, "referral", &[referral.name(), referral.cut()])?;
            write_alias_ttl(text, referral.alias_ttl())
        }
        Reply::Alias(alias) => write_timed(text, "alias", alias.name(), alias.ttl()),
        Reply::Dname(redirection) => write_redirection(text, redirection),
        Reply::Truncated => text.push_str("truncated"),
        Reply::Failed(rcode) => write!(text, "failed {}", rcode.to_int()),
        Reply::Done => text.push_str("done"),
        Reply::Unusable(reason) => write!(text, "{reason}"),
    }
}

/// Writes a word, a name and a TTL.
fn write_timed(
    text: &mut String,
    word: &str,
    name: ParsedName<'_>,
    ttl: Ttl,
) -> Result<(), AllocError> {
    write!(text, "{word} {} {}", name.fmt_with_dot(), ttl.as_secs())
}

/// Writes a word and names after it.
fn write_names(text: &mut String, word: &str, names: &[ParsedName<'_>]) -> Result<(), AllocError> {
    text.push_str(word)?;
    for name in names {
        write!(text, " {}", name.fmt_with_dot())?;
    }
    Ok(())
}

/// Writes a denial: the name, the owner of the SOA record or "none", and its TTLs.
fn write_denial(text: &mut String, word: &str, denial: &Denial<'_>) -> Result<(), AllocError> {
    write_names(text, word, &[denial.name()])?;
    match denial.soa() {
        Some(soa) => write!(text, " {}", soa.owner().fmt_with_dot())?,
        None => text.push_str(" none")?,
    }
    write!(text, " {}", denial.ttl().as_secs())?;
    write_alias_ttl(text, denial.alias_ttl())
}

/// Writes the TTL of the aliases, if there are any.
fn write_alias_ttl(text: &mut String, ttl: Option<Ttl>) -> Result<(), AllocError> {
    match ttl {
        Some(ttl) => write!(text, " after {}", ttl.as_secs()),
        None => Ok(()),
    }
}

/// Writes a redirection: the name, the owner, the target, the TTL and the new name or "none".
fn write_redirection(text: &mut String, redirection: &Redirection<'_>) -> Result<(), AllocError> {
    let names = [
        redirection.name(),
        redirection.owner(),
        redirection.target(),
    ];
    write_names(text, "dname", &names)?;
    write!(text, " {} ", redirection.ttl().as_secs())?;
    match redirection.redirected() {
        Some(name) => write!(text, "{}", name.fmt_with_dot()),
        None => text.push_str("none"),
    }
}

/// A name, an owner and a target, and after `=` the name with the target in the place of the owner.
pub(crate) fn redirected_shown(alloc: Global, text: &str) -> io::Result<String> {
    let (words, _) = text.split_once(" = ").unwrap_or((text, ""));
    let mut shown = String::from_str(alloc, words)?;
    shown.push_str(" = ")?;
    write_redirected(alloc, &mut shown, words)?;
    Ok(shown)
}

/// Writes the name that three words make, or "none".
fn write_redirected(alloc: Global, text: &mut String, words: &str) -> Result<(), AllocError> {
    let (name, others) = words.split_once(' ').unwrap_or((words, ""));
    let (owner, target) = others.split_once(' ').unwrap_or((others, ""));
    let Ok(name) = Name::vec_from_str(alloc, name) else {
        return text.push_str("bad name");
    };
    let Ok(owner) = Name::vec_from_str(alloc, owner) else {
        return text.push_str("bad name");
    };
    let Ok(target) = Name::vec_from_str(alloc, target) else {
        return text.push_str("bad name");
    };
    match substitute(&name, &owner, &target) {
        Some(name) => write!(text, "{}", name.fmt_with_dot()),
        None => text.push_str("none"),
    }
}
