ghost use Rattle.std.specs.Prelude.{◌≤◌, ℕ, List, IfErr, IfOk, OnOk, length};
ghost use Rattle.dns_edit.specs.Acceptance.{AcceptsData, AcceptsQuestion, AcceptsRecord, AllAccepted, OneRefused, RefusesData, RefusesQuestion, RefusesRecord};
ghost use Rattle.dns_edit.specs.Marks.{MarksLabels};

use crate::error::EditError;
use crate::labels::walk_name;
use crate::rdata::{names_in, names_offset};
use crate::span::span_at;
use dns_octets::ParseError;

/// Walks over the names of `count` questions from offset `start` on. Returns the offset after them.
pub(crate) fn check_questions(
    octets: &[u8],
    start: usize,
    count: u16,
    marks: &mut [u8],
) -> Result<usize, EditError>
    requires { start ≤ length octets.now }
    ensures within { IfOk result (λ end. end ≤ length octets.now) }
    ensures accepts { IfOk result (λ end. (names : List ℕ)
        → MarksLabels octets.now names marks.old
        → (after : List ℕ) × AllAccepted (AcceptsQuestion octets.now) count names start end after
        × MarksLabels octets.now after marks.new) }
    ensures refuses { IfErr result (λ e. (names : List ℕ)
        → MarksLabels octets.now names marks.old
        → OneRefused (AcceptsQuestion octets.now) (RefusesQuestion octets.now) count names
        start e) }
{
    let mut pos = start;
    for _question in 0..count {
        let name_end = walk_name(octets, pos, marks)?;
        if octets.len() - name_end < 4 {
            return Err(EditError::Parse(ParseError::ShortInput));
        }
        pos = name_end + 4;
    }
    Ok(pos)
}

/// Walks over the names of `count` records from offset `start` on.
pub(crate) fn check_records(
    octets: &[u8],
    start: usize,
    count: u32,
    marks: &mut [u8],
) -> Result<(), EditError>
    requires { start ≤ length octets.now }
    ensures accepts { OnOk result ((names : List ℕ)
        → MarksLabels octets.now names marks.old
        → (end : ℕ) × (after : List ℕ)
        × AllAccepted (AcceptsRecord octets.now) count names start end after) }
    ensures refuses { IfErr result (λ e. (names : List ℕ)
        → MarksLabels octets.now names marks.old
        → OneRefused (AcceptsRecord octets.now) (RefusesRecord octets.now) count names start e) }
{
    let mut pos = start;
    for _record in 0..count {
        pos = check_record(octets, pos, marks)?;
    }
    Ok(())
}

/// Walks over the names of the record at offset `start`. Returns its end.
fn check_record(octets: &[u8], start: usize, marks: &mut [u8]) -> Result<usize, EditError>
    requires { start ≤ length octets.now }
    ensures within { IfOk result (λ end. end ≤ length octets.now) }
    ensures accepts { IfOk result (λ end. (names : List ℕ)
        → MarksLabels octets.now names marks.old
        → (after : List ℕ) × AcceptsRecord octets.now names start end after
        × MarksLabels octets.now after marks.new) }
    ensures refuses { IfErr result (λ e. (names : List ℕ)
        → MarksLabels octets.now names marks.old → RefusesRecord octets.now names start e) }
{
    let span = span_at(octets, start)?;
    walk_name(octets, start, marks)?;
    walk_data(octets, span.rtype, span.fields + 10, span.end, marks)?;
    Ok(span.end)
}

/// Walks over the names in the RDATA from offset `start` to `end`.
fn walk_data(
    octets: &[u8],
    rtype: u16,
    start: usize,
    end: usize,
    marks: &mut [u8],
) -> Result<(), EditError>
    requires { start ≤ length octets.now }
    ensures accepts { OnOk result ((names : List ℕ)
        → MarksLabels octets.now names marks.old
        → (after : List ℕ) × AcceptsData octets.now names rtype start end after
        × MarksLabels octets.now after marks.new) }
    ensures refuses { IfErr result (λ e. (names : List ℕ)
        → MarksLabels octets.now names marks.old
        → RefusesData octets.now names rtype start end e) }
{
    if start == end {
        return Ok(());
    }
    let mut pos = names_offset(octets, rtype, start);
    for _name in 0..names_in(rtype) {
        pos = walk_name(octets, pos, marks)?;
    }
    if pos > end {
        return Err(EditError::Parse(ParseError::ShortInput));
    }
    Ok(())
}
