//! Plain searches in messages, over the entries of their sections.
use crate::hostile::buffer::Buffer;
use crate::hostile::plain::{Entry, Located, Plain, count, entry_in};
use crate::hostile::plain_data::{has_options, typed_of};
use dns_wire::{FormError, ParseError};

/// The first question, if it can be read.
pub(crate) fn first_question(message: &Plain<'_>) -> Option<Entry> {
    entry_in(message.questions.items.first()?).ok()
}

/// The question of a message that has exactly one.
pub(crate) fn sole_question(message: &Plain<'_>) -> Result<Entry, ParseError> {
    match (count(message.octets, 0), message.questions.items.first()) {
        (0, _) => Err(ParseError::Form(FormError::NO_QUESTION)),
        (1, Some(question)) => entry_in(question),
        _ => Err(ParseError::Form(FormError::MULTIPLE_QUESTIONS)),
    }
}

/// The first OPT record of the additional section, unless there is an error before or in it.
pub(crate) fn opt(message: &Plain<'_>) -> Option<Entry> {
    for item in &message.additionals.items {
        let entry = entry_in(item).ok()?;
        if entry.rtype == 41 {
            return has_options(entry.data.as_slice()).then_some(entry);
        }
    }
    None
}

/// What a search for records of this type yields for an item: the record with its RDATA, an error,
/// which may be that of the RDATA, or nothing. With `in_only`, skips records of other classes than
/// IN.
pub(crate) fn typed_in(
    octets: &[u8],
    item: Located<Entry>,
    rtype: u16,
    in_only: bool,
) -> Option<Result<Entry, ParseError>> {
    match item {
        Ok((entry, _)) if in_only && entry.class != 1 => None,
        _ => typed_of(octets, item, rtype).transpose(),
    }
}

/// The target of the first alias of a name in the answer section.
fn next_name(message: &Plain<'_>, name: &Buffer) -> Option<Buffer> {
    for item in &message.answers.items {
        let entry = entry_in(item).ok()?;
        if entry.name.as_slice().eq_ignore_ascii_case(name.as_slice()) {
            if let Ok(Some(alias)) = typed_of(message.octets, *item, 5) {
                return Some(alias.data);
            }
        }
    }
    None
}

/// The name that the aliases from the question's name lead to, in fewer than twenty steps.
pub(crate) fn canonical_name(message: &Plain<'_>) -> Option<Buffer> {
    let mut name = first_question(message)?.name;
    message.answers.start.ok()?;
    for _ in 0..20 {
        match next_name(message, &name) {
            Some(alias) => name = alias,
            None => return Some(name),
        }
    }
    None
}

/// Whether the answer section has a record of this type, or an error.
pub(crate) fn contains_answer(message: &Plain<'_>, rtype: u16) -> bool {
    for item in &message.answers.items {
        match item {
            Ok((entry, _)) if entry.rtype != rtype => {}
            _ => return true,
        }
    }
    false
}

/// The last additional record with its RDATA, if all of them can be read and it has this type. An
/// error is the last item.
pub(crate) fn last_additional(message: &Plain<'_>, rtype: u16) -> Option<Entry> {
    let last = *message.additionals.items.last()?;
    typed_of(message.octets, last, rtype).ok()?
}

/// The number of records of the three sections before the first error, and that error. It may be
/// that of a section without a start.
pub(crate) fn readable_records(message: &Plain<'_>) -> (usize, Option<ParseError>) {
    let mut records = 0_usize;
    for part in [&message.answers, &message.authorities, &message.additionals] {
        if let Err(error) = part.start {
            return (records, Some(error));
        }
        for item in &part.items {
            if let Err(error) = item {
                return (records, Some(*error));
            }
            records = records.saturating_add(1);
        }
    }
    (records, None)
}

/// Whether both questions can be read, and are the same, ignoring the ASCII case of names.
fn is_same_question((question, other): (&Located<Entry>, &Located<Entry>)) -> bool {
    let (Ok((question, _)), Ok((other, _))) = (question, other) else {
        return false;
    };
    let (name, other_name) = (question.name.as_slice(), other.name.as_slice());
    name.eq_ignore_ascii_case(other_name)
        && question.rtype == other.rtype
        && question.class == other.class
}

/// Whether a message is a response to a query: QR is set, and the IDs, the numbers of questions and
/// the questions are the same.
pub(crate) fn is_answer(message: &Plain<'_>, query: &Plain<'_>) -> bool {
    let (questions, others) = (&message.questions.items, &query.questions.items);
    message
        .octets
        .get(2)
        .is_some_and(|flags| *flags & 0x80 != 0)
        && message.octets.get(..2) == query.octets.get(..2)
        && count(message.octets, 0) == count(query.octets, 0)
        && questions.len() == others.len()
        && questions.iter().zip(others).all(is_same_question)
}
