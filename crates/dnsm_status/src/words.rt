//! The sentences of statuses, and words in a caller's buffer.
ghost use Rattle.std.specs.Prelude.{◌≡◌, ◌<◌, ◌++◌, decimal, option_map, unwrap_or, OnErr};
ghost use Rattle.dns_print.specs.Printing.{PrintsOnOk};
ghost use Rattle.dns_iana.specs.Mnemonics.{mnemonic};
ghost use Rattle.dnsm_status.specs.Statuses.{status_sentences, status_text};
ghost use Rattle.dnsm_status.specs.CallerBuffers.{Holds};

use crate::sink::{End, START, Sink};
use dns_print::{TextWriter, write_number};
use std::fmt;

/// Prints `word`, or `other` followed by the number if there is none.
#[tactic(auto, using(dns_print::proofs::theory::Prints::prints, std::proofs::lemmas::Grind::common_steps))]
fn print_word<W: TextWriter>(
    writer: &mut W,
    word: Option<&str>,
    other: &str,
    number: u32,
) -> fmt::Result
    ensures text { PrintsOnOk W.takes writer.old result
        (unwrap_or (option_map (λ word. word.now) word.entry) (other.now ++ decimal number))
        writer.new }
    ensures err { OnErr result W.MayFail }
{
    let Some(word) = word else {
        writer.write_text(other)?;
        return write_number(writer, u64::from(number));
    };
    writer.write_text(word)
}

/// Writes `word`, or `other` followed by the number if there is none.
pub fn write_word(word: Option<&str>, other: &str, number: u32, out: &mut [u8]) -> End
    ensures { Holds out.new (unwrap_or (option_map (λ word. word.now) word.entry)
        (other.now ++ decimal number)) result }
{
    let mut sink = Sink { out, end: START };
    let Ok(()) = print_word(&mut sink, word, other, number) else {
        unreachable!()
    };
    sink.end
}

/// The sentence that says what a status means, if there is such a status.
#[tactic(auto, unfolding(std::specs::Prelude::find, crate::specs::Statuses::status_sentences))]
fn sentence(status: u32) -> Option<&'static str>
    ensures { option_map (λ sentence. sentence.now) result ≡ mnemonic status_sentences status }
{
    match status {
        0 => Some("success"),
        1 => Some("no more items"),
        2 => Some("an octet that is needed is past the end of the message"),
        3 => Some("a length octet has the high bits 01 or 10"),
        4 => Some("a compression pointer doesn't lead to an offset before its own"),
        5 => Some("a name has more than 255 octets"),
        6 => Some("malformed octets"),
        7 => Some("the output buffer is too short"),
        8 => Some("the text, or the name of an item, isn't valid"),
        9 => Some("the query doesn't have exactly one question"),
        10 => Some("a section number exceeds 3 or is out of order, or a question has no RDATA"),
        11 => Some("an allocation failed"),
        12 => Some("RDATA or an option has more than 65,535 octets"),
        13 => Some("a section has more than 65,535 items"),
        14 => Some("the message is a response"),
        15 => Some("the opcode isn't QUERY"),
        16 => Some("the class of the question isn't IN"),
        17 => Some("the type of the question is neither A nor ANY"),
        18 => Some("the item is no OPT record"),
        19 => Some("an option is not whole within the RDATA"),
        20 => Some("the RDATA has no such name"),
        21 => Some("the octets are no RDATA of the record type"),
        22 => Some("the additional section has no OPT record"),
        23 => Some("the additional section has two OPT records"),
        24 => Some("the owner of the OPT record isn't the root"),
        25 => Some("the message is no response"),
        26 => Some("the response is that of another query"),
        27 => Some("the rcode isn't NOERROR"),
        28 => Some("the message is truncated"),
        29 => Some("a record has another class than the zone"),
        30 => Some("the owner of a record is outside of the zone"),
        31 => Some("the first record of the transfer is no SOA record"),
        32 => Some("an SOA record isn't the one that may come next"),
        33 => Some("a record or a message follows the end of the transfer"),
        34 => Some("the transfer hasn't ended"),
        _ => None,
    }
}

/// Writes what a status means.
pub fn status(number: u32, out: &mut [u8]) -> End
    ensures text { Holds out.new (status_text number) result }
    ensures short { result < 100 }
{
    write_word(sentence(number), "unknown status ", number, out)
}
