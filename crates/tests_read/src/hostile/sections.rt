//! Cursors and iterators over sections, beside plain readings.
use crate::hostile::asserts::assert_same;
use crate::hostile::given::{Given, Opaque};
use crate::hostile::plain::{Entry, Located, Part, Plain, entry_in};
use crate::hostile::plain_searches::typed_in;
use dns_data::A;
use dns_read::{Message, MessageIter, QuestionSection, RecordIter, RecordSection};
use dns_wire::ParseError;
use std::process::Abort;

/// The offset of a cursor, and where the next section starts, or why it doesn't.
type Place<S> = (usize, Result<S, ParseError>);

/// The place after an item. A cursor doesn't move at an error, after which no section starts.
fn place_after<S: Copy>(item: &Located<Entry>, (offset, next): Place<S>) -> Place<S> {
    match item {
        Ok((_, end)) => (*end, next),
        Err(error) => (offset, Err(*error)),
    }
}

/// Checks the place of a cursor over questions.
fn assert_asking(
    rt: &impl Abort,
    plain: &Plain<'_>,
    questions: &QuestionSection<'_>,
    (offset, next): Place<usize>,
) {
    let starts = [questions.answer().plain(), questions.next_section().plain()];
    let found = (questions.pos(), starts);
    assert_same(rt, plain, "answer section", found, (offset, [next; 2]));
}

/// Checks the questions, and before and after each of them the place of the cursor.
pub(crate) fn assert_questions(rt: &impl Abort, message: &Message<&[u8]>, plain: &Plain<'_>) {
    let mut questions = message.question();
    let mut place = (12, plain.answers.start);
    assert_asking(rt, plain, &questions, place);
    for item in &plain.questions.items {
        let found = questions.next().plain();
        assert_same(rt, plain, "question", found, Some(entry_in(item)));
        place = place_after(item, place);
        assert_asking(rt, plain, &questions, place);
    }
    assert_same(rt, plain, "end", questions.next().is_none(), true);
}

/// Where a section starts that may be missing, since there is none after the last one.
type Start = Option<usize>;

/// Checks the place of a cursor, and that each iterator over it advances to the next section.
fn assert_cursor(
    rt: &impl Abort,
    plain: &Plain<'_>,
    records: RecordSection<'_>,
    (offset, next): Place<Start>,
) {
    let starts = [
        records.next_section().plain(),
        records.limit_to::<A>().next_section().plain(),
        records.limit_to_in::<A>().next_section().plain(),
        records.into_records::<Opaque<'_>>().next_section().plain(),
    ];
    let found = (records.pos(), starts);
    assert_same(rt, plain, "next section", found, (offset, [next; 4]));
}

/// The place after a record. No section starts after the last one, with or without an error.
fn place_after_record(item: &Located<Entry>, (offset, next): Place<Start>) -> Place<Start> {
    let (offset, after) = place_after(item, (offset, next));
    match next {
        Ok(None) => (offset, next),
        _ => (offset, after),
    }
}

/// Checks that a cursor over records, and an iterator over them with their RDATA, yield the records
/// of a section.
fn assert_records(
    rt: &impl Abort,
    plain: &Plain<'_>,
    part: &Part,
    mut records: RecordSection<'_>,
    next: Result<Start, ParseError>,
) {
    let mut all = records.into_records::<Opaque<'_>>();
    let mut place = (records.pos(), next);
    assert_cursor(rt, plain, records, place);
    for item in &part.items {
        let found = [records.next().plain(), all.next().plain()];
        assert_same(rt, plain, "record", found, [Some(entry_in(item)); 2]);
        place = place_after_record(item, place);
        assert_cursor(rt, plain, records, place);
    }
    let is_end = records.next().is_none() && all.next().is_none();
    assert_same(
        rt,
        plain,
        "end",
        (is_end, all.unwrap().pos()),
        (true, place.0),
    );
}

/// Checks that an iterator over addresses yields those of a section.
fn assert_addresses(
    rt: &impl Abort,
    plain: &Plain<'_>,
    part: &Part,
    mut addresses: RecordIter<'_, A>,
    in_only: bool,
) {
    for item in &part.items {
        if let Some(expected) = typed_in(plain.octets, *item, 1, in_only) {
            let found = addresses.next().plain();
            assert_same(rt, plain, "address", found, Some(expected));
        }
    }
    assert_same(rt, plain, "end", addresses.next().is_none(), true);
}

/// Checks the records of a section, or why it has no start.
fn assert_section(
    rt: &impl Abort,
    plain: &Plain<'_>,
    part: &Part,
    records: Result<RecordSection<'_>, ParseError>,
    next: Result<Start, ParseError>,
) {
    assert_same(rt, plain, "section", records.plain(), part.start);
    if let Ok(records) = records {
        assert_records(rt, plain, part, records, next);
        assert_addresses(rt, plain, part, records.limit_to(), false);
        assert_addresses(rt, plain, part, records.limit_to_in(), true);
    }
}

/// The starts of all sections.
fn starts_of(message: &Message<&[u8]>) -> Result<[usize; 4], ParseError> {
    let (questions, answers, authorities, additionals) = message.sections()?;
    Ok([
        questions.pos(),
        answers.pos(),
        authorities.pos(),
        additionals.pos(),
    ])
}

/// Checks the three sections of records, and the starts of all sections.
pub(crate) fn assert_sections(rt: &impl Abort, message: &Message<&[u8]>, plain: &Plain<'_>) {
    let (answers, authorities) = (&plain.answers, &plain.authorities);
    let additionals = &plain.additionals;
    let next = authorities.start.map(Some);
    assert_section(rt, plain, answers, message.answer(), next);
    let next = additionals.start.map(Some);
    assert_section(rt, plain, authorities, message.authority(), next);
    assert_section(rt, plain, additionals, message.additional(), Ok(None));
    let expected = match (answers.start, authorities.start, additionals.start) {
        (Ok(answer), Ok(authority), Ok(additional)) => Ok([12, answer, authority, additional]),
        (Err(error), ..) | (_, Err(error), _) | (.., Err(error)) => Err(error),
    };
    assert_same(rt, plain, "sections", starts_of(message), expected);
}

/// Checks that the iterator yields the records of a section, and an error once more unless the
/// section is the last. Returns whether the section had no error.
fn assert_items(
    rt: &impl Abort,
    plain: &Plain<'_>,
    items: &mut MessageIter<'_>,
    (section, part): (u8, &Part),
) -> bool {
    for item in &part.items {
        let expected = match item {
            Ok((entry, _)) => Ok((section, *entry)),
            Err(error) => Err(*error),
        };
        assert_same(rt, plain, "item", items.next().plain(), Some(expected));
        if expected.is_err() {
            if section < 3 {
                assert_same(rt, plain, "again", items.next().plain(), Some(expected));
            }
            return false;
        }
    }
    true
}

/// Checks all records of a message.
pub(crate) fn assert_iter(rt: &impl Abort, message: &Message<&[u8]>, plain: &Plain<'_>) {
    let mut items = message.iter();
    let (answers, authorities) = (&plain.answers, &plain.authorities);
    for part in [(1, answers), (2, authorities), (3, &plain.additionals)] {
        if !assert_items(rt, plain, &mut items, part) {
            break;
        }
    }
    let is_end = items.next().is_none() && items.next().is_none();
    assert_same(rt, plain, "no further item", is_end, true);
}
