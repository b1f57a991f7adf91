//! The keys of the lines of a case.

/// What a line of a case says: a part of the case, or what a check compares.
#[derive(Clone, Copy)]
pub(crate) enum Key {
    Type,
    Other,
    After,
    Octets,
    Header,
    Line,
    LineOctets,
    Fields,
    AsItWas,
    Copied,
    Made,
    Copies,
    Cut,
    Written,
    Canonical,
    Error,
    Checked,
    Text,
    PrintText,
    Reads,
    Refuses,
    RefusesWords,
    Order,
    CanonicalOrder,
    Record,
    ReadsRecord,
    RefusesRecord,
    ZoneLine,
    NoZoneLine,
    NoBareLine,
    RecordOrder,
    CanonicalRecordOrder,
    Words,
    NoWords,
    ManyWords,
    Question,
    NoQuestion,
    PrintsQuestion,
    PrintRewritten,
    Option,
}

/// How a line gives octets: as a text, as digits, as digits after a word, or as an option.
#[derive(Clone, Copy)]
pub(crate) enum Form {
    Text,
    Digits,
    WordAndDigits,
    Option,
}

/// A word that lines begin with, what it says, and in which form octets are after it.
type Row = (&'static str, Key, Form);

const ROWS: &[Row] = &[
    ("type", Key::Type, Form::Text),
    ("other", Key::Other, Form::Text),
    ("after", Key::After, Form::Digits),
    ("octets", Key::Octets, Form::Digits),
    ("header", Key::Header, Form::Digits),
    ("line", Key::Line, Form::Text),
    ("line-octets", Key::LineOctets, Form::Digits),
    ("fields", Key::Fields, Form::Text),
    ("copied", Key::Copied, Form::Text),
    ("written", Key::Written, Form::Digits),
    ("canonical", Key::Canonical, Form::Digits),
    ("error", Key::Error, Form::Text),
    ("checked", Key::Checked, Form::Text),
    ("text", Key::Text, Form::Text),
    ("print-text", Key::PrintText, Form::Text),
    ("reads", Key::Reads, Form::Text),
    ("reads-octets", Key::Reads, Form::Digits),
    ("refuses", Key::Refuses, Form::Text),
    ("refuses-octets", Key::Refuses, Form::Digits),
    ("refuses-words", Key::RefusesWords, Form::Text),
    ("order", Key::Order, Form::WordAndDigits),
    ("canonical-order", Key::CanonicalOrder, Form::WordAndDigits),
    ("record", Key::Record, Form::Text),
    ("refuses-record", Key::RefusesRecord, Form::Text),
    ("zone-line", Key::ZoneLine, Form::Text),
    ("no-zone-line", Key::NoZoneLine, Form::Text),
    ("no-bare-line", Key::NoBareLine, Form::Text),
    ("record-order", Key::RecordOrder, Form::WordAndDigits),
    (
        "canonical-record-order",
        Key::CanonicalRecordOrder,
        Form::WordAndDigits,
    ),
    ("words", Key::Words, Form::Text),
    ("words-octets", Key::Words, Form::Digits),
    ("no-words", Key::NoWords, Form::Text),
    ("many-words", Key::ManyWords, Form::Text),
    ("question", Key::Question, Form::Text),
    ("no-question", Key::NoQuestion, Form::Text),
    ("prints-question", Key::PrintsQuestion, Form::Text),
    ("print-rewritten", Key::PrintRewritten, Form::Text),
    ("option", Key::Option, Form::Option),
];

/// What a word says that a line begins with. `None` for any other word.
pub(crate) fn key_and_form(word: &str) -> Option<(Key, Form)> {
    for row in ROWS {
        if row.0 == word {
            return Some((row.1, row.2));
        }
    }
    None
}

/// Whether the checks of a case need no type, as those of texts and of messages.
pub(crate) fn needs_no_type(key: Key) -> bool {
    matches!(
        key,
        Key::Line
            | Key::LineOctets
            | Key::Words
            | Key::NoWords
            | Key::ManyWords
            | Key::Question
            | Key::NoQuestion
            | Key::NoZoneLine
            | Key::NoBareLine
            | Key::PrintsQuestion
            | Key::PrintRewritten
            | Key::Option
    )
}

/// What is printed of a line that fails: its first word or, if a case may have many such lines, the
/// whole line.
pub(crate) fn label_of<'a>(key: Key, word: &'a str, line: &'a str) -> &'a str {
    match key {
        Key::Type
        | Key::Other
        | Key::After
        | Key::Octets
        | Key::Header
        | Key::Written
        | Key::Canonical
        | Key::Error
        | Key::Checked
        | Key::Text
        | Key::PrintText
        | Key::Record
        | Key::PrintsQuestion => word,
        _ => line,
    }
}
