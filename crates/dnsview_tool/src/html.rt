//! Rows printed as a page of HTML: the octets in a grid, and the rows as a list. A field's cell and
//! its row lead to each other. The cell of a pointer draws its arrow, and so may its row.
ghost use Rattle.std.specs.Prelude.{◌≡◌, ◌+◌, ◌^◌, ◌<◌, ◌≤◌, length, take, IfOk, OnOk};
ghost use Rattle.std.specs.Io.KnownBytes.{Appends};
ghost use Rattle.std.specs.List.{flat_map};
ghost use Rattle.dnsview_tool.specs.Joined.{line_of};
ghost use Rattle.dnsview_tool.specs.Pages.{arrow_text, cell_end, cell_id, cell_start, cell_text, digits, ellipsis_text, escaped, escaped_octet, escaped_within, field_letter, field_link_text, field_row_text, first_link, heading_row_text, letter_of, line_start, line_cells, link_text, mark_text, next_link, opening_text, part_start, pointer_count, row_cells, row_mark_text, row_text, top_text, words_text, page_limit, IsListLine, IsPage, IsPageOf};
ghost use Rattle.dnsview_tool.specs.Printed.{Prints, PrintsEach};

use crate::brief::{front_within, limits_words, words_limit};
use crate::joined::{Line, OCTETS, lines};
use crate::printable::printable_words;
use crate::summary::Summary;
use crate::text::print_octet;
use crate::words::words_of;
use dnsview_rows::{Row, RowField, RowKind, octets_of, target_of};
use std::alloc::Global;
use std::io;
use std::io::Write;

/// The octets in a part of the grid. A browser lays out only the parts that it shows.
const PART: usize = 256;

/// The octets of the rows in a part of the list, about.
const LIST_PART: usize = 64;

/// A page with fewer pointers draws all their arrows.
const FEW: usize = 20;

/// The octets of a page for each octet of its message, at most, unless it is brief.
const PAGE_FACTOR: u128 = 40;

/// The octets that the page of a small message may have.
const LEAST_LIMIT: u128 = 65_536;

/// The text before the title. The page needs no other file.
const HEAD: &str = "<!DOCTYPE html>
<html lang=\"en\">
<head>
<meta charset=\"utf-8\">
<meta name=\"viewport\" content=\"width=device-width\">
<title>";

/// The text between the title and the first line, which is the title again. The grid has 8 columns
/// before the octets of a line, and 3 for each octet. The `id` of a cell begins with the letter of
/// its colour. `--p` has the offset of a pointer, `--f`, and the lower offset where it leads, `--t`:
/// of its cell, and of its row in the list if that draws the arrow too.
/// A part that draws an arrow is laid out whole: any other cuts off what leaves its box.
/// On paper the page is black on white, without arrows.
const STYLE: &str = "</title>
<style>
:root { color-scheme: light dark; --page: #fff; --text: #111; --dim: #5a6570; --arrow: #b3261e;
--field: #f6e3a8; --header: #c9d8f0; --name: #cfe8c6; --pointer: #93d17e; --data: #f3cbb0;
--option: #dfcbee; --fault: #f09a9a; --edge: #555; }
@media (prefers-color-scheme: dark) {
:root { --page: #15181c; --text: #eee; --dim: #9aa5b0; --arrow: #ff8a7a;
--field: #57481a; --header: #2b4166; --name: #2c5224; --pointer: #2f7a1c; --data: #6b3f20;
--option: #553a6e; --fault: #8c2b2b; --edge: #aaa; }
}
@media print { * { --text: #000; --dim: #000; --arrow: none; background: none !important; } }
body { margin: 1em; background: var(--page); color: var(--text); font-family: sans-serif; }
h1 { font-size: 1.1em; overflow-wrap: anywhere; }
.legend { display: flex; flex-wrap: wrap; gap: 6px; }
.legend span { padding: 2px 8px; }
main { position: relative; display: flex; flex-wrap: wrap; gap: 1em 2ch; align-items: flex-start;
font: 14px/24px monospace; }
main p { margin: 0; content-visibility: auto; }
main p:hover, main p:focus-within, main p:has(:target), .few .grid p:has([style]) {
content-visibility: visible; }
.grid { width: 56ch; }
.grid p { contain-intrinsic-height: 384px; white-space: pre; }
.list { flex: 1 1 60ch; min-width: 40ch; max-width: 120ch; }
.list p { contain-intrinsic-height: auto 720px; padding-left: 2px; }
.list a, .list b { display: block; white-space: pre-wrap; overflow-wrap: anywhere; tab-size: 19ch; }
.list a { padding-left: 10ch; text-indent: -10ch; border-top: 1px solid var(--page); }
.list b { margin-top: 8px; }
.list a::before { content: attr(id); display: inline-block; width: 8ch; margin-right: 2ch;
text-align: right; text-indent: 0; color: var(--dim); }
.grid s { display: inline-block; width: 7ch; padding-right: 1ch; text-align: right;
text-decoration: none; color: var(--dim); background: var(--page); }
a, .k { color: inherit; text-decoration: none; background: var(--field); }
.grid a[id], .list a, .legend span { box-shadow: -2px 0 var(--edge); }
.h, [id^=h], [href^='#h'] { background: var(--header); }
.n, [id^=n], [href^='#n'] { background: var(--name); }
.p, [id^=p], [href^='#p'] { background: var(--pointer); }
.d, [id^=d], [href^='#d'] { background: var(--data); }
.o, [id^=o], [href^='#o'] { background: var(--option); }
.f, [id^=f], [href^='#f'] { background: var(--fault); }
a { scroll-margin: 40vh 0; }
a:hover, a:focus, a:target { outline: 2px solid var(--text); outline-offset: -2px; }
a[style] { --f: max(var(--p)); --t: min(var(--p));
--x: calc((mod(var(--t), 16) - mod(var(--f), 16)) * 3ch);
--y: calc((round(down, var(--t) / 16, 1) - round(down, var(--f) / 16, 1)) * 24px + 15px); }
.few .grid a[style]::after, a[style]:hover::after, a[style]:focus::after, a[style]:target::after {
content: ''; position: absolute; left: calc(mod(var(--f), 16) * 3ch + 9ch);
top: calc(round(down, var(--f) / 16, 1) * 24px - 1px); width: hypot(var(--x), var(--y));
height: 10px; background: var(--arrow); transform-origin: 0 50%; rotate: atan2(var(--y), var(--x));
clip-path: polygon(0 4px, calc(100% - 12px) 4px, calc(100% - 12px) 0, 100% 5px,
calc(100% - 12px) 10px, calc(100% - 12px) 6px, 0 6px); pointer-events: none; z-index: 1; }
</style>
</head>
<body>
<h1>";

/// The text between the first line and the grid.
const LEGEND: &str = "</h1>
<p class=\"legend\"><span class=\"h\">header</span><span class=\"n\">names</span>\
<span class=\"p\">pointers</span><span class=\"k\">types, classes, TTLs, lengths</span>\
<span class=\"d\">data</span><span class=\"o\">EDNS</span><span class=\"f\">faults, unread</span></p>
";

/// Prints rows of a message as one page of HTML, which needs no network and no script.
///
/// Consecutive labels, or character strings, of at most one octet share a link of the grid and a
/// line of the list, if they begin on one line of the grid. In the grid a bar is between them. If
/// the page then has more than forty times the message's octets, and more than 64 KiB, a brief one
/// is printed: most fields of an item share a link and a line, and words that are long for their
/// octets are cut off.
///
/// The page is made before it is printed. Returns an error if `writer` or an allocation fails.
pub fn print_page<W: Write>(
    alloc: Global,
    writer: &mut W,
    message: &[u8],
    rows: &[Row],
) -> io::Result<()>
    ensures { OnOk result (Prints (IsPage message.now rows.now)
        (W.contents writer.old) (W.contents writer.new)) }
{
    let full = page(alloc, false, message, rows)?;
    if full.len() as u128 <= page_limit(message) {
        return writer.write_all(&full);
    }
    print_page_of(alloc, true, writer, message, rows)
}

/// The page of a message, which may be brief.
fn page(alloc: Global, is_brief: bool, message: &[u8], rows: &[Row]) -> io::Result<Vec<u8>>
    ensures { IfOk result (λ page. IsPageOf is_brief message.now rows.now page.items) }
{
    let mut page = Vec::new(alloc);
    print_page_of(alloc, is_brief, &mut page, message, rows)?;
    Ok(page)
}

/// How many octets the page of a message may have, unless it is brief.
fn page_limit(message: &[u8]) -> u128
    ensures { result ≡ page_limit message.now }
{
    LEAST_LIMIT.max(PAGE_FACTOR * message.len() as u128)
}

/// Prints rows of a message as a page, which may be brief.
fn print_page_of<W: Write>(
    alloc: Global,
    is_brief: bool,
    writer: &mut W,
    message: &[u8],
    rows: &[Row],
) -> io::Result<()>
    ensures { OnOk result (Prints (IsPageOf is_brief message.now rows.now)
        (W.contents writer.old) (W.contents writer.new)) }
{
    let words = printable_words(alloc, Summary { message, rows })?;
    let lines = lines(alloc, is_brief, rows)?;
    let lines = lines.as_slice();
    print_top(writer, words.as_slice())?;
    print_opening(writer, rows)?;
    print_cells(writer, message, lines)?;
    writer.write_all(b"\n</div>\n<div class=list>\n<p>")?;
    print_list(alloc, is_brief, writer, message, lines)?;
    writer.write_all(b"\n</div>\n</main>\n</body>\n</html>\n")
}

/// Prints all before the grid, with some words as the title and the first line.
fn print_top<W: Write>(writer: &mut W, words: &[u8]) -> io::Result<()>
    ensures { OnOk result (Appends (W.contents writer.old) (W.contents writer.new)
        (top_text words.now)) }
{
    writer.write_all(HEAD.as_bytes())?;
    print_escaped(writer, words)?;
    writer.write_all(STYLE.as_bytes())?;
    print_escaped(writer, words)?;
    writer.write_all(LEGEND.as_bytes())
}

/// Prints the start of the grid, which draws all arrows if they are few.
fn print_opening<W: Write>(writer: &mut W, rows: &[Row]) -> io::Result<()>
    ensures { OnOk result (Appends (W.contents writer.old) (W.contents writer.new)
        (opening_text rows.now)) }
{
    writer.write_all(if pointer_count(rows) < FEW {
        b"<main class=few>\n<div class=grid>"
    } else {
        b"<main>\n<div class=grid>"
    })
}

/// The number of rows that are pointers.
fn pointer_count(rows: &[Row]) -> usize
    ensures { result ≡ pointer_count rows.now }
{
    rows.iter().filter(|row| row.kind.is_pointer()).count()
}

/// The letter for the colour of a row in the style.
fn letter_of(kind: RowKind) -> &'static str
    ensures { result.now ≡ letter_of kind }
{
    match kind {
        RowKind::Field(field) => field_letter(field),
        RowKind::ShortHeader | RowKind::Fault(_) | RowKind::Unread => "f",
    }
}

fn field_letter(field: RowField) -> &'static str
    ensures { result.now ≡ field_letter field }
{
    match field {
        RowField::Id | RowField::Flags | RowField::Count(_) => "h",
        RowField::Label(_) | RowField::Root(_, _) => "n",
        RowField::Pointer(_, _) => "p",
        RowField::Type | RowField::Class | RowField::Ttl | RowField::RdLength => "k",
        RowField::PayloadSize | RowField::ExtendedRcode | RowField::Version | RowField::OptFlags =>
            "o",
        RowField::OptionCode | RowField::OptionLength(_) | RowField::OptionData(_) => "o",
        _ => "d",
    }
}

/// Prints the `id` of a row's cells: the letter for its colour, and its offset in hexadecimal.
fn print_cell_id<W: Write>(writer: &mut W, row: &Row) -> io::Result<()>
    ensures { OnOk result (Appends (W.contents writer.old) (W.contents writer.new)
        (cell_id row.now)) }
{
    let start = row.start;
    writer.write_all(letter_of(row.kind).as_bytes())?;
    write!(writer, "{start:x}")
}

/// Prints the attribute of a row that begins with a pointer, which draws its arrow: its offset, and
/// where it leads. Other rows have none.
fn print_mark<W: Write>(writer: &mut W, message: &[u8], row: &Row) -> io::Result<()>
    ensures { OnOk result (Appends (W.contents writer.old) (W.contents writer.new)
        (mark_text message.now row.now)) }
{
    if row.kind.is_pointer() {
        return print_arrow(
            writer,
            row.start,
            target_of(first_two(octets_of(message, row))),
        );
    }
    Ok(())
}

/// The first two octets, or all if there are fewer.
fn first_two(octets: &[u8]) -> &[u8]
    ensures { result.now ≡ take 2 octets.now }
{
    octets.get(..2).unwrap_or(octets)
}

/// Prints the attribute of a pointer at an offset.
fn print_arrow<W: Write>(writer: &mut W, from: usize, target: usize) -> io::Result<()>
    ensures { OnOk result (Appends (W.contents writer.old) (W.contents writer.new)
        (arrow_text from target)) }
{
    write!(writer, " style=--p:{from},{target}")
}

/// Prints a text with its markup characters escaped.
fn print_escaped<W: Write>(writer: &mut W, text: &[u8]) -> io::Result<()>
    ensures { OnOk result (Appends (W.contents writer.old) (W.contents writer.new)
        (escaped text.now)) }
{
    for octet in text {
        print_escaped_octet(writer, *octet)?;
    }
    Ok(())
}

/// Prints a text in at most `limit` octets, with its markup characters escaped. `...` stands for
/// what is left out.
fn print_within<W: Write>(writer: &mut W, text: &[u8], limit: u128) -> io::Result<()>
    ensures { OnOk result (Appends (W.contents writer.old) (W.contents writer.new)
        (escaped_within limit text.now)) }
{
    let front = front_within(text, limit);
    print_escaped(writer, front)?;
    print_ellipsis(writer, front.len() < text.len())
}

/// Prints what stands for the end of a text that is cut off.
fn print_ellipsis<W: Write>(writer: &mut W, is_cut: bool) -> io::Result<()>
    ensures { OnOk result (Appends (W.contents writer.old) (W.contents writer.new)
        (ellipsis_text is_cut)) }
{
    writer.write_all(if is_cut { b"..." } else { b"" })
}

/// Prints an octet of a text, escaped if it is a markup character.
fn print_escaped_octet<W: Write>(writer: &mut W, octet: u8) -> io::Result<()>
    ensures { OnOk result (Appends (W.contents writer.old) (W.contents writer.new)
        (escaped_octet octet)) }
{
    match octet {
        b'<' => writer.write_all(b"&lt;"),
        b'>' => writer.write_all(b"&gt;"),
        b'&' => writer.write_all(b"&amp;"),
        other => writer.write_all(&[other]),
    }
}

/// Prints the cells of lines.
fn print_cells<W: Write>(writer: &mut W, message: &[u8], lines: &[Line<'_>]) -> io::Result<()>
    ensures { OnOk result (Appends (W.contents writer.old) (W.contents writer.new)
        (flat_map (λ line. line_cells message.now (line_of line)) lines.now)) }
{
    for line in lines {
        print_line_cells(writer, message, line)?;
    }
    Ok(())
}

/// Prints the cells of a line, as a link to the line. Prints nothing for a line without octets.
fn print_line_cells<W: Write>(writer: &mut W, message: &[u8], line: &Line<'_>) -> io::Result<()>
    ensures { OnOk result (Appends (W.contents writer.old) (W.contents writer.new)
        (line_cells message.now (line_of line.now))) }
{
    let row = line.row();
    if octets_of(message, &row).is_empty() {
        return Ok(());
    }
    print_row_cells(writer, message, &row, &line.first)?;
    print_rows_cells(writer, message, &row, line.others)?;
    writer.write_all(b"</a>")
}

/// Prints the cells of rows on a line, which is given as one row.
fn print_rows_cells<W: Write>(
    writer: &mut W,
    message: &[u8],
    line: &Row,
    rows: &[Row],
) -> io::Result<()>
    ensures { OnOk result (Appends (W.contents writer.old) (W.contents writer.new)
        (flat_map (row_cells message.now line.now) rows.now)) }
{
    for row in rows {
        print_row_cells(writer, message, line, row)?;
    }
    Ok(())
}

/// Prints the cells of a row on a line, which is given as one row, and the starts of the line's
/// links.
fn print_row_cells<W: Write>(
    writer: &mut W,
    message: &[u8],
    line: &Row,
    row: &Row,
) -> io::Result<()>
    ensures { OnOk result (Appends (W.contents writer.old) (W.contents writer.new)
        (row_cells message.now line.now row.now)) }
{
    let octets = octets_of(message, row);
    for (index, octet) in octets.iter().enumerate() {
        print_cell(writer, message, line, row, row.start + index, *octet)?;
    }
    Ok(())
}

/// Prints the cell of an octet of a row on a line, and what precedes it.
fn print_cell<W: Write>(
    writer: &mut W,
    message: &[u8],
    line: &Row,
    row: &Row,
    offset: usize,
    octet: u8,
) -> io::Result<()>
    requires { offset + 1 < 2 ^ 64 }
    ensures { OnOk result (Appends (W.contents writer.old) (W.contents writer.new)
        (cell_text message.now line.now row.now (offset, octet))) }
{
    print_cell_start(writer, message, line, offset)?;
    print_octet(writer, octet)?;
    print_cell_end(writer, line, row, offset + 1)
}

/// Prints what follows an octet of a row, where `next` is the offset after it: a bar if the row ends
/// there and its line doesn't.
fn print_cell_end<W: Write>(writer: &mut W, line: &Row, row: &Row, next: usize) -> io::Result<()>
    ensures { OnOk result (Appends (W.contents writer.old) (W.contents writer.new)
        (cell_end line.now row.now next)) }
{
    let is_edge = next == row.end && next < line.end;
    writer.write_all(if is_edge { b"|" } else { b" " })
}

/// Prints what precedes an octet of a row. The row's link begins before its first octet, and anew
/// in each part of the grid.
fn print_cell_start<W: Write>(
    writer: &mut W,
    message: &[u8],
    row: &Row,
    offset: usize,
) -> io::Result<()>
    ensures { OnOk result (Appends (W.contents writer.old) (W.contents writer.new)
        (cell_start message.now row.now offset)) }
{
    if offset == row.start {
        return print_first_link(writer, message, row);
    }
    if offset % PART == 0 {
        return print_next_link(writer, message, row, offset);
    }
    print_line_start(writer, offset)
}

/// Prints the start of a row's first link.
fn print_first_link<W: Write>(writer: &mut W, message: &[u8], row: &Row) -> io::Result<()>
    ensures { OnOk result (Appends (W.contents writer.old) (W.contents writer.new)
        (first_link message.now row.now)) }
{
    print_line_start(writer, row.start)?;
    writer.write_all(b"<a id=")?;
    print_cell_id(writer, row)?;
    print_link(writer, message, row)
}

/// Ends a row's link, and begins its next one in the part of the grid that begins at an offset.
fn print_next_link<W: Write>(
    writer: &mut W,
    message: &[u8],
    row: &Row,
    offset: usize,
) -> io::Result<()>
    ensures { OnOk result (Appends (W.contents writer.old) (W.contents writer.new)
        (next_link message.now row.now offset)) }
{
    writer.write_all(b"</a>")?;
    print_line_start(writer, offset)?;
    writer.write_all(b"<a class=")?;
    writer.write_all(letter_of(row.kind).as_bytes())?;
    print_link(writer, message, row)
}

/// Prints the other attributes of a link to a row, and ends its tag.
fn print_link<W: Write>(writer: &mut W, message: &[u8], row: &Row) -> io::Result<()>
    ensures { OnOk result (Appends (W.contents writer.old) (W.contents writer.new)
        (link_text message.now row.now)) }
{
    let start = row.start;
    write!(writer, " href=#{start}")?;
    print_mark(writer, message, row)?;
    writer.write_all(b">")
}

/// Prints what begins at an offset before its octet: a part of the grid, a line with the offset,
/// or nothing.
fn print_line_start<W: Write>(writer: &mut W, offset: usize) -> io::Result<()>
    ensures { OnOk result (Appends (W.contents writer.old) (W.contents writer.new)
        (line_start offset)) }
{
    if offset % PART == 0 {
        return write!(writer, "\n<p><s>{offset}</s>");
    }
    if offset % OCTETS == 0 {
        return write!(writer, "\n<s>{offset}</s>");
    }
    Ok(())
}

/// Prints the lines of the list.
fn print_list<W: Write>(
    alloc: Global,
    is_brief: bool,
    writer: &mut W,
    message: &[u8],
    lines: &[Line<'_>],
) -> io::Result<()>
    ensures { OnOk result (PrintsEach (λ line. IsListLine is_brief message.now (line_of line))
        lines.now (W.contents writer.old) (W.contents writer.new)) }
{
    for line in lines {
        print_list_row(alloc, is_brief, writer, message, line)?;
    }
    Ok(())
}

/// Prints a line of the list, as one row, and what precedes it.
fn print_list_row<W: Write>(
    alloc: Global,
    is_brief: bool,
    writer: &mut W,
    message: &[u8],
    line: &Line<'_>,
) -> io::Result<()>
    ensures { OnOk result (Prints (IsListLine is_brief message.now (line_of line.now))
        (W.contents writer.old) (W.contents writer.new)) }
{
    let row = line.row();
    let words = words_of(alloc, is_brief, message, line)?;
    print_part_start(writer, &row)?;
    print_row(is_brief, writer, message, &row, words.as_slice())
}

/// Prints the start of a part of the list, if a row is the first in one.
fn print_part_start<W: Write>(writer: &mut W, row: &Row) -> io::Result<()>
    ensures { OnOk result (Appends (W.contents writer.old) (W.contents writer.new)
        (part_start row.now)) }
{
    if row.start / LIST_PART == row.end / LIST_PART {
        return Ok(());
    }
    writer.write_all(b"\n<p>")
}

/// Prints a row with some words.
fn print_row<W: Write>(
    is_brief: bool,
    writer: &mut W,
    message: &[u8],
    row: &Row,
    words: &[u8],
) -> io::Result<()>
    ensures { OnOk result (Appends (W.contents writer.old) (W.contents writer.new)
        (row_text is_brief message.now row.now words.now)) }
{
    if octets_of(message, row).is_empty() {
        print_heading_row(writer, row, words)
    } else {
        print_field_row(is_brief, writer, message, row, words)
    }
}

/// Prints a row without octets: one where an item begins, or that of a fault.
fn print_heading_row<W: Write>(writer: &mut W, row: &Row, words: &[u8]) -> io::Result<()>
    ensures { OnOk result (Appends (W.contents writer.old) (W.contents writer.new)
        (heading_row_text row.now words.now)) }
{
    writer.write_all(if row.kind.is_item() {
        b"<b>"
    } else {
        b"<b class=f>"
    })?;
    print_escaped(writer, words)?;
    writer.write_all(b"</b>")
}

/// Prints any other row, as a link to its cells: its octets and what they mean. Its offset is its
/// `id`, which the style shows.
fn print_field_row<W: Write>(
    is_brief: bool,
    writer: &mut W,
    message: &[u8],
    row: &Row,
    words: &[u8],
) -> io::Result<()>
    ensures { OnOk result (Appends (W.contents writer.old) (W.contents writer.new)
        (field_row_text is_brief message.now row.now words.now)) }
{
    print_field_link(is_brief, writer, message, row)?;
    print_digits(writer, octets_of(message, row))?;
    writer.write_all(b"\t")?;
    print_words(is_brief, writer, message, row, words)?;
    writer.write_all(b"</a>")
}

/// Prints the words for a row, which are cut off if they are long and limited.
fn print_words<W: Write>(
    is_brief: bool,
    writer: &mut W,
    message: &[u8],
    row: &Row,
    words: &[u8],
) -> io::Result<()>
    ensures { OnOk result (Appends (W.contents writer.old) (W.contents writer.new)
        (words_text is_brief message.now row.now words.now)) }
{
    if limits_words(is_brief, row) {
        return print_within(writer, words, words_limit(octets_of(message, row)));
    }
    print_escaped(writer, words)
}

/// Prints the start of a row's link to its cells.
fn print_field_link<W: Write>(
    is_brief: bool,
    writer: &mut W,
    message: &[u8],
    row: &Row,
) -> io::Result<()>
    ensures { OnOk result (Appends (W.contents writer.old) (W.contents writer.new)
        (field_link_text is_brief message.now row.now)) }
{
    let start = row.start;
    write!(writer, "<a id={start} href=#")?;
    print_cell_id(writer, row)?;
    print_row_mark(is_brief, writer, message, row)?;
    writer.write_all(b">")
}

/// Prints the attribute of a row of the list, which draws the same arrow as its cells. A brief
/// page has none.
fn print_row_mark<W: Write>(
    is_brief: bool,
    writer: &mut W,
    message: &[u8],
    row: &Row,
) -> io::Result<()>
    ensures { OnOk result (Appends (W.contents writer.old) (W.contents writer.new)
        (row_mark_text is_brief message.now row.now)) }
{
    if is_brief {
        return Ok(());
    }
    print_mark(writer, message, row)
}

/// Prints octets in hexadecimal digits.
fn print_digits<W: Write>(writer: &mut W, octets: &[u8]) -> io::Result<()>
    ensures { OnOk result (Appends (W.contents writer.old) (W.contents writer.new)
        (digits octets.now)) }
{
    for octet in octets {
        print_octet(writer, *octet)?;
    }
    Ok(())
}
