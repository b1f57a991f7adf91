//! Tables of numbers with their mnemonics, and the texts of such numbers (RFC 3597 section 5).
ghost use Rattle.std.specs.Prelude.{◌≡◌, ℕ, ◌↔◌, IsTrue, OnErr, Some, option_map, ◌<◌, ◌^◌, ◌++◌, decimal};
ghost use Rattle.std.specs.Option.{SomeIff};
ghost use Rattle.std.specs.Str.Parse.{IsNumeral, digits_value};
ghost use Rattle.dns_iana.specs.Mnemonics.{mnemonic};
ghost use Rattle.dns_iana.specs.NumberTexts.{IsMnemonic, IsNumbered, Spells, number_text};
ghost use Rattle.dns_print.specs.Printing.{PrintsOnOk};
ghost use Rattle.dns_iana.specs.Tables.{table, is_distinct, is_apart};

use dns_print::{TextWriter, write_number};
use std::fmt;

/// A number and its mnemonic.
pub(crate) type Entry = (u16, &'static str);

fn of(entries: &[Entry], number: u16) -> Option<&'static str>
    ensures { option_map (λ text. text.now) result ≡ mnemonic (table entries.now) number }
{
    for (known, mnemonic) in entries {
        if *known == number {
            return Some(mnemonic);
        }
    }
    None
}

/// Prints the word and the decimal number.
#[tactic(auto, using(dns_print::proofs::theory::Prints::prints))]
fn write_numbered<W: TextWriter>(writer: &mut W, word: &str, number: u16) -> fmt::Result
    ensures text { PrintsOnOk W.takes writer.old result (word.now ++ decimal number) writer.new }
    ensures err { OnErr result W.MayFail }
{
    writer.write_text(word)?;
    write_number(writer, u64::from(number))
}

/// Prints the mnemonic of the number if it has one, else the word and the decimal number.
pub(crate) fn write<W: TextWriter>(
    writer: &mut W,
    entries: &[Entry],
    word: &str,
    number: u16,
) -> fmt::Result
    ensures text { PrintsOnOk W.takes writer.old result
        (number_text (table entries.now) word.now number) writer.new }
    ensures err { OnErr result W.MayFail }
{
    match of(entries, number) {
        Some(mnemonic) => writer.write_text(mnemonic),
        None => write_numbered(writer, word, number),
    }
}

/// The number that has the text as its mnemonic, ignoring ASCII case.
fn named(entries: &[Entry], text: &str) -> Option<u16>
    requires { IsTrue (is_distinct (table entries.now)) }
    ensures { (n : ℕ) → IsMnemonic (table entries.now) text.now n ↔ (result ≡ Some n) }
{
    for (number, mnemonic) in entries {
        if mnemonic.eq_ignore_ascii_case(text) {
            return Some(*number);
        }
    }
    None
}

/// The number in decimal digits. `None` above 65,535 and for any other text.
fn decimal_number(digits: &str) -> Option<u16>
    ensures { let value = digits_value 10 digits.now in
        SomeIff result (IsNumeral 10 digits.now × (value < 2 ^ 16)) value }
{
    if digits.starts_with('+') {
        return None;
    }
    digits.parse().ok()
}

/// The number if the text is the word, ignoring ASCII case, followed by decimal digits.
fn numbered(word: &str, text: &str) -> Option<u16>
    ensures { (n : ℕ) → IsNumbered word.now text.now n ↔ (result ≡ Some n) }
{
    let (front, digits) = text.split_at_checked(word.len())?;
    if !front.eq_ignore_ascii_case(word) {
        return None;
    }
    decimal_number(digits)
}

/// The number whose text this is: its mnemonic, or the word followed by decimal digits.
pub(crate) fn read(entries: &[Entry], word: &str, text: &str) -> Option<u16>
    requires distinct { IsTrue (is_distinct (table entries.now)) }
    requires apart { IsTrue (is_apart word.now (table entries.now)) }
    ensures { (n : ℕ) → Spells (table entries.now) word.now text.now n ↔ (result ≡ Some n) }
{
    if let Some(number) = named(entries, text) {
        return Some(number);
    }
    numbered(word, text)
}
