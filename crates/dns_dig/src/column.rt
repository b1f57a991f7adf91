//! Texts in columns, with tabs before them.
ghost use Rattle.std.specs.Prelude.{◌≡◌, ◌+◌, ◌<◌, OnErr, replicate};
ghost use Rattle.dns_print.specs.Printing.{PrintsOnOk};
ghost use Rattle.dns_dig.specs.Columns.{begins_at, gap};
ghost use Rattle.dns_dig.specs.Near.{near};

use dns_print::TextWriter;
use std::fmt;

/// The width of a tab.
const TAB: usize = 8;

/// The first column that is kept only up to multiples of a tab's width.
const FAR: usize = 64;

/// A column, as far as it decides what precedes the next text: 64 and above are one of 56 to 63
/// with the same distance from the next tab stop.
pub(crate) fn near(column: usize) -> usize
    ensures value { result ≡ near column }
    ensures small { result < 64 }
{
    if column < FAR {
        column
    } else {
        FAR - TAB + column % TAB
    }
}

/// The column after `length` characters more.
pub(crate) fn advanced(column: usize, length: usize) -> usize
    ensures value { result ≡ near (column + length) }
    ensures small { result < 64 }
{
    near(near(column) + near(length))
}

/// The column where a text of `length` characters ends that begins in a column, or after one blank
/// if another text ends after that.
pub(crate) fn end_in(from: usize, column: usize, length: usize) -> usize
    requires { from < 64 }
    ensures value { result ≡ near (begins_at from column + length) }
    ensures small { result < 64 }
{
    let start = if from < column { column } else { from + 1 };
    advanced(start, length)
}

/// Prints what precedes a text in a column, after a text that ends before column `from`: tabs, or
/// one blank if the column is passed.
#[tactic(auto, using(dns_print::proofs::theory::Prints::prints, crate::proofs::Gaps::gap_before, crate::proofs::Gaps::gap_tab, crate::proofs::Gaps::gap_space))]
pub(crate) fn write_gap<T: TextWriter>(writer: &mut T, from: usize, column: usize) -> fmt::Result
    ensures text { PrintsOnOk T.takes writer.old result (gap from column) writer.new }
    ensures err { OnErr result T.MayFail }
{
    if from < column {
        return write_tabs(writer, column / TAB - from / TAB);
    }
    if from % TAB == TAB - 1 {
        return writer.write_text("\t");
    }
    writer.write_text(" ")
}

/// Prints tabs.
fn write_tabs<T: TextWriter>(writer: &mut T, count: usize) -> fmt::Result
    ensures text { PrintsOnOk T.takes writer.old result (replicate count 9) writer.new }
    ensures err { OnErr result T.MayFail }
{
    for _ in 0..count {
        writer.write_text("\t")?;
    }
    Ok(())
}
