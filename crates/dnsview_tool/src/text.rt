//! Rows printed as text, of at most 80 columns while offsets have at most seven digits.
ghost use Rattle.std.specs.Prelude.{◌≡◌, ◌<◌, ◌≤◌, length, true, OnOk};
ghost use Rattle.std.specs.Io.KnownBytes.{Appends};
ghost use Rattle.dnsview_tool.specs.Printable.{are_printable};
ghost use Rattle.dnsview_tool.specs.Printed.{Prints, PrintsEach};
ghost use Rattle.dnsview_tool.specs.Digits.{octet_text};
ghost use Rattle.dnsview_tool.specs.Texts.{blank_octets, columns, digits_text, line_octets, line_text, IsLines, IsRowText};

use crate::meaning::Meaning;
use crate::printable::printable_words;
use dnsview_rows::{Row, octets_of};
use std::alloc::Global;
use std::io;
use std::io::Write;

/// The octets on a line, at most.
const OCTETS: usize = 8;

/// The columns of the meaning on a line, at most.
const COLUMNS: usize = 46;

/// Prints rows of a message, each on one line or more: its offset, its octets and what they mean.
///
/// The row where an item begins has one line, with its meaning alone. Returns an error if `writer`
/// or an allocation fails.
pub fn print_text<W: Write>(
    alloc: Global,
    writer: &mut W,
    message: &[u8],
    rows: &[Row],
) -> io::Result<()>
    ensures { OnOk result (PrintsEach (IsRowText message.now) rows.now
        (W.contents writer.old) (W.contents writer.new)) }
{
    for row in rows {
        print_row(alloc, writer, message, row)?;
    }
    Ok(())
}

/// Prints a row.
fn print_row<W: Write>(alloc: Global, writer: &mut W, message: &[u8], row: &Row) -> io::Result<()>
    ensures { OnOk result (Prints (IsRowText message.now row.now)
        (W.contents writer.old) (W.contents writer.new)) }
{
    let words = printable_words(alloc, Meaning { message, row: *row })?;
    let words = words.as_slice();
    if row.kind.is_item() {
        writer.write_all(words)?;
        return writer.write_all(b"\n");
    }
    print_lines(writer, row.start, octets_of(message, row), words)
}

/// Prints the lines of a row, as many as its octets and words need, but at least one.
fn print_lines<W: Write>(
    writer: &mut W,
    start: usize,
    octets: &[u8],
    words: &[u8],
) -> io::Result<()>
    requires { are_printable words.now ≡ true }
    ensures { OnOk result (Prints (IsLines start octets.now)
        (W.contents writer.old) (W.contents writer.new)) }
{
    let mut octets_left = octets;
    let mut words_left = words;
    write!(writer, "{start:>6} ")?;
    loop {
        let (group, octets_after) = octets_left.split_at(octets_left.len().min(OCTETS));
        let (line, words_after) = split_line(words_left);
        print_line(writer, group, line)?;
        octets_left = octets_after;
        words_left = words_after;
        if octets_left.is_empty() && words_left.is_empty() {
            return Ok(());
        }
        write!(writer, "       ")?;
    }
}

/// Splits words into those of one line and the remaining ones. A line that can't take all words
/// ends at the last space that keeps it within its columns, which is dropped, or else after its
/// last column.
///
/// If all words fit, a space at their end is dropped.
fn split_line(words: &[u8]) -> (&[u8], &[u8])
    ensures fits { length result.0.now ≤ columns }
    ensures shorter { 0 < length words.now → length result.1.now < length words.now }
    ensures none { length words.now ≡ 0 → length result.1.now ≡ 0 }
    ensures printable { are_printable words.now ≡ true →
        (are_printable result.0.now ≡ true) × (are_printable result.1.now ≡ true) }
{
    if words.len() <= COLUMNS {
        return (without_space(words), &[]);
    }
    match words[..=COLUMNS].iter().rposition(|octet| *octet == b' ') {
        Some(space) => (&words[..space], &words[space + 1..]),
        None => words.split_at(COLUMNS),
    }
}

/// Words without a space at their end.
fn without_space(words: &[u8]) -> &[u8]
    ensures shorter { length result.now ≤ length words.now }
    ensures printable { are_printable words.now ≡ true → are_printable result.now ≡ true }
{
    match words.strip_suffix(b" ") {
        Some(front) => front,
        None => words,
    }
}

/// Prints octets and the words after them, and ends the line.
fn print_line<W: Write>(writer: &mut W, octets: &[u8], words: &[u8]) -> io::Result<()>
    requires { length octets.now ≤ line_octets }
    ensures { OnOk result (Appends (W.contents writer.old) (W.contents writer.new)
        (line_text record { octets = octets.now; words = words.now })) }
{
    print_digits(writer, octets)?;
    if !words.is_empty() {
        print_blanks(writer, octets.len())?;
        writer.write_all(b"  ")?;
        writer.write_all(words)?;
    }
    writer.write_all(b"\n")
}

/// Prints hexadecimal digits, two for each octet, with a space before each octet.
fn print_digits<W: Write>(writer: &mut W, octets: &[u8]) -> io::Result<()>
    ensures { OnOk result (Appends (W.contents writer.old) (W.contents writer.new)
        (digits_text octets.now)) }
{
    for octet in octets {
        writer.write_all(b" ")?;
        print_octet(writer, *octet)?;
    }
    Ok(())
}

/// Prints an octet in two lower-case hexadecimal digits.
pub(crate) fn print_octet<W: Write>(writer: &mut W, octet: u8) -> io::Result<()>
    ensures { OnOk result (Appends (W.contents writer.old) (W.contents writer.new)
        (octet_text octet)) }
{
    write!(writer, "{octet:02x}")
}

/// Prints spaces in place of the octets that a line lacks.
fn print_blanks<W: Write>(writer: &mut W, count: usize) -> io::Result<()>
    requires { count ≤ line_octets }
    ensures { OnOk result (Appends (W.contents writer.old) (W.contents writer.new)
        (blank_octets count)) }
{
    for _ in count..OCTETS {
        writer.write_all(b"   ")?;
    }
    Ok(())
}
