//! Cursors and iterators: loops over them, clones, and what comes after an error.
use crate::asserts::{answers_of, assert_holds, message_of};
use dns_data::{A, Cname, UnknownRecordData};
use dns_read::{AnyRecordIter, RecordIter, RecordSection};
use dns_wire::{ParseError, ParsedName};
use std::process::Abort;

/// Questions for a. and b., and one that can't be read; an address of the root.
const QUESTIONS: &[u8] =
    b"\x00\x00\x00\x00\x00\x03\x00\x01\x00\x00\x00\x00\x01a\x00\x00\x01\x00\x01\x01b\x00\x00\x01\x00\x01\xC0\x1A\x00\x01\x00\x01\x00\x00\x01\x00\x01\x00\x00\x00\x00\x00\x04\xC0\x00\x02\x01";

/// The questions and the error, and the record. The loop advances a copy of the cursor.
#[test]
fn goes_over_questions_and_records(rt: HostRuntime) {
    let message = message_of(&rt, QUESTIONS);
    let questions = message.question();
    let mut entries = 0_u32;
    for _ in questions {
        entries = entries.wrapping_add(1);
    }
    for _ in &message {
        entries = entries.wrapping_add(100);
    }
    let is_over = entries == 103 && questions.pos() == 12;
    assert_holds(&rt, "three items and a record", is_over);
}

/// RDATA of one octet, with the first octet of a pointer.
const NAME_PAST_THE_END: &[u8; 25] =
    b"\x00\x00\x00\x00\x00\x00\x00\x01\x00\x00\x00\x00\x00\x00\x05\x00\x01\x00\x00\x00\x00\x00\x01\xC0\x0C";

/// Whether an iterator over aliases yields one `ShortInput`, and then nothing. Its clone is then
/// where the next section begins.
fn is_short(records: RecordSection<'_>) -> bool {
    let mut aliases = records.limit_to::<Cname<ParsedName<'_>>>();
    let is_short = matches!(aliases.next(), Some(Err(ParseError::ShortInput)))
        && aliases.next().is_none();
    let Ok(clone) = aliases.clone() else {
        return false;
    };
    let Ok(Some(next)) = aliases.next_section() else {
        return false;
    };
    is_short && clone.unwrap().pos() == 24 && next.pos() == 24
}

#[test]
fn refuses_a_name_past_the_end_of_its_data(rt: HostRuntime) {
    let message = message_of(&rt, NAME_PAST_THE_END);
    let is_short = is_short(answers_of(&rt, &message));
    assert_holds(&rt, "Name past the data's end", is_short);
}

const FIRST: [u8; 4] = [192, 0, 2, 1];

const SECOND: [u8; 4] = [192, 0, 2, 2];

/// Three addresses of the root: 192.0.2.1 in class IN, 192.0.2.2 in class CH, and the first again.
const TWO_CLASSES: &[u8; 57] =
    b"\x00\x00\x00\x00\x00\x00\x00\x03\x00\x00\x00\x00\x00\x00\x01\x00\x01\x00\x00\x00\x00\x00\x04\xC0\x00\x02\x01\x00\x00\x01\x00\x03\x00\x00\x00\x00\x00\x04\xC0\x00\x02\x02\x00\x00\x01\x00\x01\x00\x00\x00\x00\x00\x04\xC0\x00\x02\x01";

/// The next address that an iterator yields.
fn next_address(addresses: &mut RecordIter<'_, A>) -> Option<[u8; 4]> {
    let record = addresses.next()?.ok()?;
    Some(record.data().octets())
}

/// Whether an iterator yields these addresses and then nothing, and its cursor is at offset 57.
fn gives_addresses(mut given: RecordIter<'_, A>, addresses: &[[u8; 4]]) -> bool {
    for address in addresses {
        if next_address(&mut given) != Some(*address) {
            return false;
        }
    }
    given.next().is_none() && given.unwrap().pos() == 57
}

/// Fails unless, after the first address, an iterator and its clone each yield these addresses.
fn assert_cloned(rt: &impl Abort, row: &str, mut given: RecordIter<'_, A>, others: &[[u8; 4]]) {
    let is_first = next_address(&mut given) == Some(FIRST);
    let clone = given.clone().expect(rt, row);
    let is_same = gives_addresses(given, others) && gives_addresses(clone, others);
    assert_holds(rt, row, is_first && is_same);
}

/// The opaque records of a section.
type Opaque<'a> = AnyRecordIter<'a, UnknownRecordData<&'a [u8]>>;

/// Whether an iterator yields the RDATA of the last two addresses, and then nothing.
fn gives_two(mut records: Opaque<'_>) -> bool {
    for data in [&SECOND, &FIRST] {
        match records.next() {
            Some(Ok(record)) if *record.data().data() == data.as_slice() => {}
            _ => return false,
        }
    }
    records.next().is_none()
}

/// Clones of iterators after their first record, and of that record.
#[test]
fn clones_give_the_same(rt: HostRuntime) {
    let message = message_of(&rt, TWO_CLASSES);
    let mut answers = answers_of(&rt, &message);
    assert_cloned(&rt, "limit_to", answers.limit_to(), &[SECOND, FIRST]);
    assert_cloned(&rt, "limit_to_in", answers.limit_to_in(), &[FIRST]);
    let record = answers
        .next()
        .expect(&rt, "a record")
        .expect(&rt, "a record");
    let clone = record.clone().expect(&rt, "a clone");
    assert_holds(&rt, "a record", clone == record && clone.rdlen() == 4);
    let records: Opaque<'_> = answers.into_records();
    let clone = records.clone().expect(&rt, "a clone");
    let are_same = gives_two(records) && gives_two(clone);
    assert_holds(&rt, "into_records", are_same);
}
