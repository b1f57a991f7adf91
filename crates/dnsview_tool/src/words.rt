//! The words for a row of a page's list.
ghost use Rattle.std.specs.Prelude.{◌≡◌, true, IfOk};
ghost use Rattle.dnsview_tool.specs.Printable.{are_printable};

use crate::brief::{ELLIPSIS_LEN, escaped_size, front_within, limits_words, words_limit};
use crate::joined::{Line, are_alike};
use crate::meaning::Meaning;
use crate::printable::printable_words;
use dnsview_rows::{Row, octets_of};
use std::alloc::{AllocError, Global};

/// The octets that the words for the first row of a line may always take.
const SHORTEST: u128 = 40;

/// The words for a line of a page's list.
pub(crate) fn words_of(
    alloc: Global,
    is_brief: bool,
    message: &[u8],
    line: &Line<'_>,
) -> Result<Vec<u8>, AllocError>
    ensures { IfOk result (λ words. are_printable words.items ≡ true) }
{
    let row = line.row();
    if limits_words(is_brief, &row) {
        return line_words(alloc, message, line);
    }
    meaning_of(alloc, message, &row)
}

/// The words for the rows of a line, after each other. The first is often a name: if all have more
/// octets than the line may have, it is cut off.
fn line_words(alloc: Global, message: &[u8], line: &Line<'_>) -> Result<Vec<u8>, AllocError>
    ensures { IfOk result (λ words. are_printable words.items ≡ true) }
{
    let runs = runs(alloc, line)?;
    let Some((first, others)) = runs.split_first() else {
        return Ok(Vec::new(alloc));
    };
    let after = words_after(alloc, message, others)?;
    let after = after.as_slice();
    let limit = words_limit(octets_of(message, &line.row())).saturating_sub(escaped_size(after));
    let meaning = meaning_of(alloc, message, first)?;
    let meaning = meaning.as_slice();
    let mut words = brief(alloc, meaning, limit.max(SHORTEST))?;
    words.extend_from_slice(after)?;
    Ok(words)
}

/// The words for rows, each after a comma.
fn words_after(alloc: Global, message: &[u8], rows: &[Row]) -> Result<Vec<u8>, AllocError>
    ensures { IfOk result (λ words. are_printable words.items ≡ true) }
{
    let mut words = Vec::new(alloc);
    for row in rows {
        let meaning = meaning_of(alloc, message, row)?;
        words.extend_from_slice(b", ")?;
        words.extend_from_slice(meaning.as_slice())?;
    }
    Ok(words)
}

/// The rows of a line, where consecutive labels, or character strings, are one row.
fn runs(alloc: Global, line: &Line<'_>) -> Result<Vec<Row>, AllocError> {
    let mut runs = Vec::new(alloc);
    let mut run = line.first;
    for row in line.others {
        if are_alike(run.kind, row.kind) {
            run.end = row.end;
        } else {
            runs.push(run)?;
            run = *row;
        }
    }
    runs.push(run)?;
    Ok(runs)
}

/// What a row means.
fn meaning_of(alloc: Global, message: &[u8], row: &Row) -> Result<Vec<u8>, AllocError>
    ensures { IfOk result (λ words. are_printable words.items ≡ true) }
{
    printable_words(alloc, Meaning { message, row: *row })
}

/// Words, of which `...` stands for the end if they take more than `limit` octets when they are
/// escaped.
fn brief(alloc: Global, words: &[u8], limit: u128) -> Result<Vec<u8>, AllocError>
    requires { are_printable words.now ≡ true }
    ensures { IfOk result (λ words. are_printable words.items ≡ true) }
{
    let front = front_within(words, limit);
    let mut brief = Vec::from_slice(alloc, front)?;
    if front.len() < words.len() {
        brief.extend_from_slice(b"...")?;
    }
    Ok(brief)
}
