//! The lines of a case: its parts, and its checks, which compare what is wanted with what is shown.
use crate::case::Case;
use crate::key::{Form, Key, key_and_form, label_of, needs_no_type};
use crate::options::option_parts;
use crate::rewriting::rewritten;
use crate::shown::shown;
use cases_files::{Report, key_of, octets_of};
use fields_plain::read_type;
use std::alloc::{AllocError, Global};
use std::io;
use std::io::Write;

/// Takes a line of a case: a part of the case, or a check.
pub(crate) fn take_line<W: Write + Drop>(
    alloc: Global,
    report: &mut Report<'_, W>,
    case: &mut Case,
    line: &str,
) -> io::Result<()> {
    let (word, text) = key_of(line);
    let Some((key, form)) = key_and_form(word) else {
        return report.bad_line(line);
    };
    case.has_texts = case.has_texts || needs_no_type(key);
    match octets_given(alloc, form, text)? {
        Some(octets) => take_octets(alloc, report, case, key, line, octets.as_slice()),
        None => report.bad_line(label_of(key, word, line)),
    }
}

/// The octets that a line gives after its first word. `None` if they are malformed.
fn octets_given(alloc: Global, form: Form, text: &str) -> Result<Option<Vec<u8>>, AllocError> {
    let digits = match form {
        Form::Text => return Ok(Some(Vec::from_slice(alloc, text.as_bytes())?)),
        Form::Digits => text,
        Form::WordAndDigits => key_of(text).1,
        Form::Option => match option_parts(text) {
            Some((_, digits, _)) => digits,
            None => return Ok(None),
        },
    };
    octets_of(alloc, digits)
}

/// Takes what a line of this key says, which gives these octets.
fn take_octets<W: Write + Drop>(
    alloc: Global,
    report: &mut Report<'_, W>,
    case: &mut Case,
    key: Key,
    line: &str,
    octets: &[u8],
) -> io::Result<()> {
    let (word, text) = key_of(line);
    match key {
        Key::Type | Key::Other => take_type(report, case, key, line),
        Key::After | Key::Octets | Key::Header | Key::Line | Key::LineOctets => {
            Ok(case.take_part(key, octets)?)
        }
        Key::Fields => check_each(alloc, report, case, FIELDS, octets),
        Key::Copied => check_each(alloc, report, case, COPIES, octets),
        Key::Text => {
            check(alloc, report, case, (key, word), text, octets)?;
            check(alloc, report, case, (Key::Reads, line), text, octets)
        }
        Key::Record => {
            check(alloc, report, case, (key, word), text, octets)?;
            check(alloc, report, case, (Key::ReadsRecord, line), text, octets)
        }
        Key::PrintText | Key::PrintRewritten => check_printed(alloc, report, case, key, word),
        _ => {
            let label = label_of(key, word, line);
            check(alloc, report, case, (key, label), text, octets)
        }
    }
}

/// Takes the type of the RDATA, or of the RDATA that it is compared with.
fn take_type<W: Write + Drop>(
    report: &mut Report<'_, W>,
    case: &mut Case,
    key: Key,
    line: &str,
) -> io::Result<()> {
    let (word, text) = key_of(line);
    let Some(rtype) = read_type(text) else {
        return report.bad_line(word);
    };
    match key {
        Key::Type => case.rtype = rtype,
        _ => case.other = Some(rtype),
    }
    Ok(())
}

/// The checks of fields: their values; that the RDATA is written as it was, and can be copied; and
/// that each part that it begins with is read and written, or too short.
const FIELDS: &[(Key, &str)] = &[
    (Key::Fields, "fields"),
    (Key::AsItWas, "written as it was"),
    (Key::Made, "made from its values"),
    (Key::Copies, "copied"),
    (Key::Cut, "cut"),
];

/// The checks of copies: that the RDATA that is made from the values of the fields is written as
/// the RDATA is, and that copies own it.
const COPIES: &[(Key, &str)] = &[(Key::Made, "made from its values"), (Key::Copies, "copied")];

/// Makes these checks in turn.
fn check_each<W: Write + Drop>(
    alloc: Global,
    report: &mut Report<'_, W>,
    case: &mut Case,
    checks: &[(Key, &str)],
    octets: &[u8],
) -> io::Result<()> {
    for (key, label) in checks {
        check(alloc, report, case, (*key, *label), "", octets)?;
    }
    Ok(())
}

/// Prints the text of the RDATA, which has to read as these octets; or the message of the octets,
/// written again from its fields, which has to be written so again.
fn check_printed<W: Write + Drop>(
    alloc: Global,
    report: &mut Report<'_, W>,
    case: &mut Case,
    key: Key,
    word: &str,
) -> io::Result<()> {
    let (name, printed) = match key {
        Key::PrintText => ("text", case.text(alloc)),
        _ => ("rewritten", rewritten(alloc, case.octets.as_slice())),
    };
    let printed = printed?;
    writeln!(report.writer, "{name} {printed}")?;
    check(alloc, report, case, (key, word), "", printed.as_bytes())
}

/// Compares what a check of this key wants with what the library makes. Prints the label if they
/// differ. The lines of the text end there.
fn check<W: Write + Drop>(
    alloc: Global,
    report: &mut Report<'_, W>,
    case: &mut Case,
    (key, label): (Key, &str),
    text: &str,
    octets: &[u8],
) -> io::Result<()> {
    let wanted = wanted(alloc, case, key, text, octets)?;
    let shown = shown(alloc, case, key, text, octets)?;
    case.end_lines();
    report.check(label, wanted.as_bytes(), shown.as_bytes())
}

/// What a check of this key wants, after which the line has this text and these octets.
fn wanted(
    alloc: Global,
    case: &Case,
    key: Key,
    text: &str,
    octets: &[u8],
) -> Result<String, AllocError> {
    match key {
        Key::Refuses | Key::RefusesWords | Key::RefusesRecord | Key::NoWords => {
            String::from_str(alloc, "bad word")
        }
        Key::Copies => String::from_str(alloc, "copied"),
        Key::Cut => String::from_str(alloc, "kept or short"),
        Key::AsItWas | Key::Reads | Key::Question => hex::encode(alloc, case.rdata()),
        Key::Written | Key::Canonical => hex::encode(alloc, octets),
        Key::Made | Key::PrintText => case.written(alloc),
        Key::ReadsRecord | Key::ZoneLine => case.record_digits(alloc),
        Key::Order | Key::CanonicalOrder | Key::RecordOrder | Key::CanonicalRecordOrder => {
            String::from_str(alloc, key_of(text).0)
        }
        Key::NoQuestion | Key::NoZoneLine | Key::NoBareLine => String::from_str(
            alloc,
            error_and_text(text).0,
        ),
        Key::Option => match option_parts(text) {
            Some((_, _, wanted)) => String::from_str(alloc, wanted),
            None => String::from_str(alloc, "no option"),
        },
        _ => String::from_utf8_lossy(alloc, octets),
    }
}

/// An error, and after `|` the text that has it.
pub(crate) fn error_and_text(text: &str) -> (&str, &str) {
    text.split_once('|').unwrap_or((text, ""))
}
