//! Numbers as the words that `dig` has for them.
ghost use Rattle.std.specs.Prelude.{◌≡◌, ◌==◌, ◌++◌, OnErr, decimal, find};
ghost use Rattle.std.specs.Option.{option_copied};
ghost use Rattle.dns_iana.specs.Tables.{table};
ghost use Rattle.dns_print.specs.Printing.{PrintsOnOk};
ghost use Rattle.dns_dig.specs.Words.{opcode_word, option_word, rcode_word, word_or};

use dns_iana::{Opcode, OptRcode, OptionCode};
use dns_print::{TextWriter, write_number};
use std::fmt;

/// A number and its word.
type Entry = (u16, &'static str);

/// The opcodes with a word.
const OPCODES: [Entry; 5] = [
    (0, "QUERY"),
    (1, "IQUERY"),
    (2, "STATUS"),
    (4, "NOTIFY"),
    (5, "UPDATE"),
];

/// The extended RCODEs with a word.
const RCODES: [Entry; 13] = [
    (0, "NOERROR"),
    (1, "FORMERR"),
    (2, "SERVFAIL"),
    (3, "NXDOMAIN"),
    (4, "NOTIMP"),
    (5, "REFUSED"),
    (6, "YXDOMAIN"),
    (7, "YXRRSET"),
    (8, "NXRRSET"),
    (9, "NOTAUTH"),
    (10, "NOTZONE"),
    (16, "BADVERS"),
    (23, "BADCOOKIE"),
];

/// The options with a word.
const OPTIONS: [Entry; 7] = [
    (3, "NSID"),
    (8, "CLIENT-SUBNET"),
    (9, "EXPIRE"),
    (10, "COOKIE"),
    (11, "TCP KEEPALIVE"),
    (12, "PAD"),
    (15, "EDE"),
];

/// The entry of a number.
fn entry_of(entries: &[Entry], number: u16) -> Option<&Entry>
    ensures { option_copied result ≡ find (λ entry. entry.0 == number) entries.now }
{
    entries.iter().find(|entry| entry.0 == number)
}

/// Prints the word of a number, else another text and the number.
fn write_word<T: TextWriter>(
    writer: &mut T,
    entries: &[Entry],
    other: &str,
    number: u16,
) -> fmt::Result
    ensures text { PrintsOnOk T.takes writer.old result
        (word_or (table entries.now) other.now number) writer.new }
    ensures err { OnErr result T.MayFail }
{
    match entry_of(entries, number) {
        Some(entry) => writer.write_text(entry.1),
        None => write_numbered(writer, other, number),
    }
}

/// Prints a text and a number.
#[tactic(auto, using(dns_print::proofs::theory::Prints::prints))]
fn write_numbered<T: TextWriter>(writer: &mut T, text: &str, number: u16) -> fmt::Result
    ensures text { PrintsOnOk T.takes writer.old result (text.now ++ decimal number) writer.new }
    ensures err { OnErr result T.MayFail }
{
    writer.write_text(text)?;
    write_number(writer, u64::from(number))
}

/// Prints an opcode.
#[tactic(auto, unfolding(crate::specs::Words::opcode_words))]
pub(crate) fn write_opcode<T: TextWriter>(writer: &mut T, opcode: Opcode) -> fmt::Result
    ensures text { PrintsOnOk T.takes writer.old result (opcode_word opcode) writer.new }
    ensures err { OnErr result T.MayFail }
{
    write_word(writer, &OPCODES, "RESERVED", u16::from(opcode.to_int()))
}

/// Prints an RCODE.
#[tactic(auto, using(crate::proofs::WordTexts::rcode_low, crate::proofs::WordTexts::rcode_high), unfolding(crate::specs::Words::rcode_words))]
pub(crate) fn write_rcode<T: TextWriter>(writer: &mut T, rcode: OptRcode) -> fmt::Result
    ensures text { PrintsOnOk T.takes writer.old result (rcode_word rcode) writer.new }
    ensures err { OnErr result T.MayFail }
{
    let number = rcode.to_int();
    if number < 16 {
        return write_word(writer, &RCODES, "RESERVED", number);
    }
    write_word(writer, &RCODES, "?", number)
}

/// Prints the code of an option.
#[tactic(auto, unfolding(crate::specs::Words::option_words))]
pub(crate) fn write_option_code<T: TextWriter>(writer: &mut T, code: OptionCode) -> fmt::Result
    ensures text { PrintsOnOk T.takes writer.old result (option_word code) writer.new }
    ensures err { OnErr result T.MayFail }
{
    write_word(writer, &OPTIONS, "OPT=", code.to_int())
}
