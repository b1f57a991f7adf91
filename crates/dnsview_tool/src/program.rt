//! The work of the program `dnsview`.
ghost use Rattle.std.specs.Prelude.{◌≡◌, ◌||◌, ◌⊎◌, ℕ, IfErr, IfOk, IfSome, List, MatchOption, OnOk, Some};
ghost use Rattle.std.specs.Char.{is_ascii_hexdigit, is_ascii_whitespace};
ghost use Rattle.std.specs.Io.KnownBytes.{Appends};
ghost use Rattle.dns_dig.specs.Messages.{dig_text};
ghost use Rattle.dns_read.specs.Message.{message_octets};
ghost use Rattle.dnsview_tool.specs.Failures.{IsFailureText, IsPrintingFailure, IsReportingFailure, PrintsBefore, ReportsFailure};
ghost use Rattle.dnsview_tool.specs.Printed.{Prints};
ghost use Rattle.dnsview_tool.specs.Requests.{asked, wrong_word};
ghost use Rattle.dnsview_tool.specs.Viewing.{dig_lines, is_digits, json_line, json_object, lines_text, named_text, short_line, wrong_text, CanEnd, Gives, IsOdd, IsPrinted, IsViewed, PrintsForm, Reports};

use crate::failure::{Failure, print_failure};
use crate::html::print_page;
use crate::request::{Form, Request, wrong_word};
use crate::text::print_text;
use dns_dig::MessageDig;
use dns_json::{print_json, print_octets_json};
use dns_lines::{print_zone_lines, unspaced};
use dns_read::Message;
use dnsview_rows::rows;
use fields_text::Quoted;
use std::alloc::{AllocError, Global};
use std::io;
use std::io::{Read, Write};

/// The exit status if the input is an odd number of digits.
const BAD_HEX: u8 = 1;

/// The exit status if an argument is wrong.
const USAGE_STATUS: u8 = 2;

/// The exit status if reading, writing or an allocation fails.
const FAILED: u8 = 3;

/// The exit status if the input has no octet.
const EMPTY: u8 = 4;

/// How the program is called.
pub const USAGE: &str = "usage: dnsview [--html | --short | --json | --dig] [FILE]\n";

/// What `--help` prints.
const HELP: &str = "usage: dnsview [--html | --short | --json | --dig] [FILE]

Prints a DNS message (RFC 1035) field by field: the offset, the octets and
what they mean. Reads FILE, or standard input if there is none or it is -.
The message is hexadecimal digits with any white space, or octets.

      --html     print a page of HTML
      --short    print each record as a line, as dig does
      --json     print one JSON object (RFC 8427)
      --dig      print header, EDNS and sections as dig does
  -h, --help     print this text
      --version  print the name and the version

Example: dnsview --html answer.hex > answer.html

Exit status: 0; 1 if the number of digits is odd; 2 for a wrong argument;
3 if opening, reading or writing fails; 4 if the input is empty.
";

/// What `--version` prints.
const VERSION: &str = "dnsview 2.0.0\n";

/// Reads a message, as octets or in hexadecimal digits, prints it, and returns the exit status of
/// the program. Only what is wrong is printed to `errors`.
///
/// Prints the rows of the message as text; with `--html` as a page. With `--short` it prints each
/// record of the answer, authority and additional section as a line, with `--json` a JSON object
/// (RFC 8427) on one line, with `--dig` what `dig` prints. `reader` is the file that `file_of`
/// returns. If the input is hexadecimal digits and ASCII white space alone, it is read as
/// digits. The exit status is 0; 1 if the number of digits is odd; 2 for a wrong argument; 3 if
/// reading, writing or an allocation fails; and 4 if the input has no octets.
///
/// If something fails, the line that is printed to `errors` begins with `dnsview: reading failed`
/// or `dnsview: printing failed`. Returns an error only if `errors` can't be written.
pub fn tool<R: Read, W: Write, E: Write>(
    alloc: Global,
    args: &[String],
    reader: &mut R,
    writer: &mut W,
    errors: &mut E,
) -> io::Result<u8>
    ensures status { IfOk result (λ status. (status ≡ 3) ⊎ CanEnd (asked args.now) status) }
    ensures views { IfOk result (λ status. (status ≡ 3) ⊎ IfSome (R.remaining reader.old)
        (λ input. IsViewed args.now input (W.contents writer.old) (W.contents writer.new)
        (E.contents errors.old) (E.contents errors.new) status)) }
    ensures fails { IfOk result (λ status. status ≡ 3 → ReportsFailure (W.contents writer.old)
        (W.contents writer.new) (E.contents errors.old) (E.contents errors.new)) }
    ensures reports { IfOk result (λ status. IfSome (R.remaining reader.old)
        (λ input. Reports args.now input status)) }
{
    match view(alloc, args, reader, writer, errors) {
        Ok(status) => Ok(status),
        Err(Failure::Reading(error)) => fail(alloc, errors, "reading failed", &error),
        Err(Failure::Printing(error)) => fail(alloc, errors, "printing failed", &error),
        Err(Failure::Reporting(error)) => Err(error),
    }
}

/// Says what failed, and why, and returns the exit status.
fn fail<E: Write>(alloc: Global, errors: &mut E, what: &str, error: &io::Error) -> io::Result<u8>
    ensures status { IfOk result (λ status. status ≡ 3) }
    ensures text { OnOk result (Prints (IsFailureText what.now)
        (E.contents errors.old) (E.contents errors.new)) }
{
    print_failure(alloc, errors, what, error)?;
    Ok(FAILED)
}

/// Does what the arguments ask for, and returns the exit status.
fn view<R: Read, W: Write, E: Write>(
    alloc: Global,
    args: &[String],
    reader: &mut R,
    writer: &mut W,
    errors: &mut E,
) -> Result<u8, Failure>
    ensures status { IfOk result (CanEnd (asked args.now)) }
    ensures views { IfOk result (λ status. IfSome (R.remaining reader.old)
        (λ input. IsViewed args.now input (W.contents writer.old) (W.contents writer.new)
        (E.contents errors.old) (E.contents errors.new) status)) }
    ensures fails { IfErr result (λ failure. PrintsBefore failure (W.contents writer.old)
        (W.contents writer.new) (E.contents errors.old) (E.contents errors.new)) }
{
    match Request::of_words(args) {
        Request::View(form) => view_input(alloc, form, reader, writer, errors),
        Request::Help => answer(writer, HELP),
        Request::Version => answer(writer, VERSION),
        Request::Wrong => refuse(args, errors),
    }
}

/// Prints a text, and returns the exit status.
fn answer<W: Write>(writer: &mut W, text: &str) -> Result<u8, Failure>
    ensures status { IfOk result (λ status. status ≡ 0) }
    ensures text { OnOk result (Appends (W.contents writer.old) (W.contents writer.new) text.now) }
    ensures fails { IfErr result IsPrintingFailure }
{
    match print_all(writer, text) {
        Ok(()) => Ok(0),
        Err(error) => Err(Failure::Printing(error)),
    }
}

fn print_all<W: Write>(writer: &mut W, text: &str) -> io::Result<()>
    ensures { OnOk result (Appends (W.contents writer.old) (W.contents writer.new) text.now) }
{
    writer.write_all(text.as_bytes())?;
    writer.flush()
}

/// Says which argument is wrong, and returns the exit status.
fn refuse<E: Write>(args: &[String], errors: &mut E) -> Result<u8, Failure>
    ensures status { IfOk result (λ status. status ≡ 2) }
    ensures text { OnOk result (Appends (E.contents errors.old) (E.contents errors.new)
        (wrong_text args.now)) }
    ensures fails { IfErr result IsReportingFailure }
{
    match print_wrong(args, errors) {
        Ok(()) => Ok(USAGE_STATUS),
        Err(error) => Err(Failure::Reporting(error)),
    }
}

/// Says which argument is wrong, and how the program is called.
fn print_wrong<E: Write>(args: &[String], errors: &mut E) -> io::Result<()>
    ensures { OnOk result (Appends (E.contents errors.old) (E.contents errors.new)
        (wrong_text args.now)) }
{
    print_wrong_word(args, errors)?;
    errors.write_all(USAGE.as_bytes())
}

/// Prints the line that names the wrong argument, if there is one.
fn print_wrong_word<E: Write>(args: &[String], errors: &mut E) -> io::Result<()>
    ensures { OnOk result (Appends (E.contents errors.old) (E.contents errors.new)
        (named_text (wrong_word args.now))) }
{
    match wrong_word(args) {
        Some(word) => print_named(word, errors),
        None => Ok(()),
    }
}

/// Prints a line that names an argument.
fn print_named<E: Write>(word: &String, errors: &mut E) -> io::Result<()>
    ensures { OnOk result (Appends (E.contents errors.old) (E.contents errors.new)
        (named_text (Some word.now))) }
{
    let word = Quoted(word.as_bytes());
    writeln!(errors, "dnsview: unexpected argument {word}")
}

/// Reads the input, prints its message, and returns the exit status.
fn view_input<R: Read, W: Write, E: Write>(
    alloc: Global,
    form: Form,
    reader: &mut R,
    writer: &mut W,
    errors: &mut E,
) -> Result<u8, Failure>
    ensures status { IfOk result (CanEnd (Request.View form)) }
    ensures views { IfOk result (λ status. IfSome (R.remaining reader.old)
        (λ input. IsPrinted form input (W.contents writer.old) (W.contents writer.new)
        (E.contents errors.old) (E.contents errors.new) status)) }
    ensures fails { IfErr result (λ failure. PrintsBefore failure (W.contents writer.old)
        (W.contents writer.new) (E.contents errors.old) (E.contents errors.new)) }
{
    let mut input = Vec::new(alloc);
    match reader.read_to_end(&mut input) {
        Ok(_) => print_input(alloc, form, input, writer, errors),
        Err(error) => Err(Failure::Reading(error)),
    }
}

/// Prints the message of an input, which is octets or hexadecimal digits, and returns the exit
/// status.
fn print_input<W: Write, E: Write>(
    alloc: Global,
    form: Form,
    input: Vec<u8>,
    writer: &mut W,
    errors: &mut E,
) -> Result<u8, Failure>
    ensures prints { IfOk result (IsPrinted form input.items (W.contents writer.old)
        (W.contents writer.new) (E.contents errors.old) (E.contents errors.new)) }
    ensures fails { IfErr result (λ failure. PrintsBefore failure (W.contents writer.old)
        (W.contents writer.new) (E.contents errors.old) (E.contents errors.new)) }
{
    match message_of(alloc, input) {
        Ok(Some(message)) => print_message(alloc, form, &message, writer, errors),
        Ok(None) => report(
            errors,
            "dnsview: the number of hexadecimal digits is odd\n",
            BAD_HEX,
        ),
        Err(AllocError) => Err(Failure::Printing(io::Error::from(AllocError))),
    }
}

/// Prints a message in a form, or that it has no octets, and returns the exit status.
fn print_message<W: Write, E: Write>(
    alloc: Global,
    form: Form,
    message: &[u8],
    writer: &mut W,
    errors: &mut E,
) -> Result<u8, Failure>
    ensures prints { (input : List ℕ) → Gives input message.now
        → IfOk result (IsPrinted form input (W.contents writer.old)
        (W.contents writer.new) (E.contents errors.old) (E.contents errors.new)) }
    ensures fails { IfErr result (λ failure. PrintsBefore failure (W.contents writer.old)
        (W.contents writer.new) (E.contents errors.old) (E.contents errors.new)) }
{
    if message.is_empty() {
        return report(errors, "dnsview: the input is empty\n", EMPTY);
    }
    match print_whole(alloc, form, message, writer) {
        Ok(()) => Ok(0),
        Err(error) => Err(Failure::Printing(error)),
    }
}

/// Prints a text to standard error, and returns the exit status.
fn report<E: Write>(errors: &mut E, text: &str, status: u8) -> Result<u8, Failure>
    ensures status { IfOk result (λ ended. ended ≡ status) }
    ensures text { OnOk result (Appends (E.contents errors.old) (E.contents errors.new) text.now) }
    ensures fails { IfErr result IsReportingFailure }
{
    match errors.write_all(text.as_bytes()) {
        Ok(()) => Ok(status),
        Err(error) => Err(Failure::Reporting(error)),
    }
}

/// Prints a message in a form, and flushes the output.
fn print_whole<W: Write>(
    alloc: Global,
    form: Form,
    message: &[u8],
    writer: &mut W,
) -> io::Result<()>
    ensures { OnOk result (PrintsForm form message.now
        (W.contents writer.old) (W.contents writer.new)) }
{
    print_form(alloc, form, message, writer)?;
    writer.flush()
}

/// Prints a message in a form.
fn print_form<W: Write>(alloc: Global, form: Form, message: &[u8], writer: &mut W) -> io::Result<()>
    ensures { OnOk result (PrintsForm form message.now
        (W.contents writer.old) (W.contents writer.new)) }
{
    match form {
        Form::Text => print_as_text(alloc, message, writer),
        Form::Page => print_as_page(alloc, message, writer),
        Form::Lines => print_lines(message, writer),
        Form::Json => print_json_line(message, writer),
        Form::Dig => print_dig_lines(message, writer),
    }
}

/// Prints the rows of a message as text.
fn print_as_text<W: Write>(alloc: Global, message: &[u8], writer: &mut W) -> io::Result<()>
    ensures { OnOk result (PrintsForm Form.Text message.now
        (W.contents writer.old) (W.contents writer.new)) }
{
    let rows = rows(alloc, message)?;
    print_text(alloc, writer, message, &rows)
}

/// Prints the rows of a message as a page.
fn print_as_page<W: Write>(alloc: Global, message: &[u8], writer: &mut W) -> io::Result<()>
    ensures { OnOk result (PrintsForm Form.Page message.now
        (W.contents writer.old) (W.contents writer.new)) }
{
    let rows = rows(alloc, message)?;
    print_page(alloc, writer, message, &rows)
}

/// Prints the lines of a message's records.
fn print_lines<W: Write>(message: &[u8], writer: &mut W) -> io::Result<()>
    ensures { OnOk result (Appends (W.contents writer.old) (W.contents writer.new)
        (lines_text message.now)) }
{
    match Message::from_slice(message) {
        Ok(message) => print_zone_lines(writer, &message),
        Err(_) => print_short_line(writer),
    }
}

/// Prints that a message has no header section.
fn print_short_line<W: Write>(writer: &mut W) -> io::Result<()>
    ensures { OnOk result (Appends (W.contents writer.old) (W.contents writer.new) short_line) }
{
    writer.write_all(b";; the message has fewer than 12 octets\n")
}

/// Prints a message as `dig` does.
fn print_dig<W: Write>(message: &Message<&[u8]>, writer: &mut W) -> io::Result<()>
    ensures { OnOk result (Appends (W.contents writer.old) (W.contents writer.new)
        (dig_text (message_octets message.now))) }
{
    write!(writer, "{}", MessageDig(message))
}

/// Prints a message as `dig` does, or that it has no header section.
fn print_dig_lines<W: Write>(message: &[u8], writer: &mut W) -> io::Result<()>
    ensures { OnOk result (Appends (W.contents writer.old) (W.contents writer.new)
        (dig_lines message.now)) }
{
    match Message::from_slice(message) {
        Ok(message) => print_dig(&message, writer),
        Err(_) => print_short_line(writer),
    }
}

/// Prints a message as a JSON object and a line feed.
fn print_json_line<W: Write>(message: &[u8], writer: &mut W) -> io::Result<()>
    ensures { OnOk result (Appends (W.contents writer.old) (W.contents writer.new)
        (json_line message.now)) }
{
    print_json_object(message, writer)?;
    writer.write_all(b"\n")
}

/// Prints a message as a JSON object, or octets that are too few for a message.
fn print_json_object<W: Write>(message: &[u8], writer: &mut W) -> io::Result<()>
    ensures { OnOk result (Appends (W.contents writer.old) (W.contents writer.new)
        (json_object message.now)) }
{
    match Message::from_slice(message) {
        Ok(message) => print_json(writer, &message),
        Err(_) => print_octets_json(writer, message),
    }
}

/// The octets of an input, or those that its hexadecimal digits encode. Returns `None` if the
/// number of digits is odd.
fn message_of(alloc: Global, input: Vec<u8>) -> Result<Option<Vec<u8>>, AllocError>
    ensures { IfOk result (λ message. MatchOption message (IsOdd input.items)
        (λ octets. Gives input.items octets.items)) }
{
    if !is_digits(&input) {
        return Ok(Some(input));
    }
    let digits = unspaced(alloc, &input)?;
    match hex::decode(alloc, &digits) {
        Ok(octets) => Ok(Some(octets)),
        Err(hex::FromHexError::OddLength) => Ok(None),
        // all are digits, so an allocation failed
        Err(_) => Err(AllocError),
    }
}

/// Whether all octets are hexadecimal digits or ASCII white space.
fn is_digits(octets: &[u8]) -> bool
    ensures { result ≡ is_digits octets.now }
{
    octets.iter().all(|octet| is_digit_or_space(*octet))
}

fn is_digit_or_space(octet: u8) -> bool
    ensures { result ≡ (is_ascii_hexdigit octet || is_ascii_whitespace octet) }
{
    octet.is_ascii_hexdigit() || octet.is_ascii_whitespace()
}
