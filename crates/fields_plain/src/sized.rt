//! Octets after their length (RFC 8945 section 4.2).
ghost use Rattle.std.specs.Prelude.{◌≡◌, ◌<◌, ℕ, List, length, count_by, IfErr, IfOk, [], OnErr};
ghost use Rattle.std.specs.Net.Grammar.{IsNumber};
ghost use Rattle.fields_text.specs.LengthOctets.{sized};
ghost use Rattle.fields_text.specs.Reading.{ReadsWords};
ghost use Rattle.fields_text.specs.Octets.{IsBase64};
ghost use Rattle.fields_plain.specs.SizedWords.{AreSized, IsCountedBase64, IsSizedWords, is_padding, sized_text};
ghost use Rattle.fields_text.specs.declared.text_error.TextError.TheVariants.{OutOfMemory};
ghost use Rattle.dns_print.specs.Printing.{PrintsOnOk};

use dns_print::TextWriter;
use fields_text::{TextError, push_octets, read_base64, read_number, write_key};
use std::alloc::Global;
use std::fmt;

/// How many characters of a word are padding.
fn padding_count(word: &[u8]) -> usize
    ensures { result ≡ count_by is_padding word.now }
{
    word.iter().filter(|character| **character == b'=').count()
}

/// How many octets a word of base64 with padding represents: three for four characters, less one
/// for each character of padding.
fn octet_count(word: &str) -> usize
    ensures { (octets : List ℕ) → IsBase64 word.now octets → result ≡ length octets }
{
    (word.len() / 4 * 3).saturating_sub(padding_count(word.as_bytes()))
}

/// From 1 to 65,535 octets of base64 with padding.
pub fn read_counted_base64(alloc: Global, word: &str) -> Result<Vec<u8>, TextError>
    ensures { ReadsWords (IsCountedBase64 word.now) result }
{
    let size = octet_count(word);
    if size == 0 || size > usize::from(u16::MAX) {
        return Err(TextError::BadWord);
    }
    read_base64(alloc, word)
}

/// No octets, if the word is the number zero.
fn read_none(alloc: Global, number: &str) -> Result<Vec<u8>, TextError>
    ensures { ReadsWords (λ octets. IsNumber 10 number.now 0 × (octets ≡ [])) result }
{
    match read_number(number, 0) {
        Some(_) => Ok(Vec::new(alloc)),
        None => Err(TextError::BadWord),
    }
}

/// The octets of base64, if the other word is their number.
fn read_some(alloc: Global, number: &str, word: &str) -> Result<Vec<u8>, TextError>
    ensures { ReadsWords
        (λ octets. IsNumber 10 number.now (length octets) × IsCountedBase64 word.now octets)
        result }
{
    let Some(size) = read_number(number, u64::from(u16::MAX)) else {
        return Err(TextError::BadWord);
    };
    if octet_count(word) as u64 != size {
        return Err(TextError::BadWord);
    }
    read_counted_base64(alloc, word)
}

/// The octets that the words represent, without their number.
fn read_octets(alloc: Global, words: &[&str]) -> Result<Vec<u8>, TextError>
    ensures { ReadsWords (AreSized words.now) result }
{
    match words {
        [number] => read_none(alloc, number),
        [number, word] => read_some(alloc, number, word),
        _ => Err(TextError::BadWord),
    }
}

/// The octets after their length of 16 bits.
fn after_length(alloc: Global, octets: &[u8]) -> Result<Vec<u8>, TextError>
    requires { length octets.now < 65536 }
    ensures ok { IfOk result (λ all. all.items ≡ sized octets.now) }
    ensures err { IfErr result (λ error. error ≡ OutOfMemory) }
{
    let mut all = Vec::new(alloc);
    let size = octets.len();
    push_octets(&mut all, &[(size / 256) as u8, (size % 256) as u8])?;
    push_octets(&mut all, octets)?;
    Ok(all)
}

/// Octets after their length of 16 bits. The words are their number and, if it isn't zero, the
/// octets in base64.
pub fn read_sized(alloc: Global, words: &[&str]) -> Result<Vec<u8>, TextError>
    ensures { ReadsWords (IsSizedWords words.now) result }
{
    match read_octets(alloc, words) {
        Ok(octets) => after_length(alloc, octets.as_slice()),
        Err(error) => Err(error),
    }
}

/// Prints the number of octets, and the octets in base64 if there are any.
#[tactic(auto, using(dns_print::proofs::theory::Prints::prints, std::proofs::lemmas::Grind::common_steps))]
pub fn write_sized<W: TextWriter>(f: &mut W, octets: &[u8]) -> fmt::Result
    ensures text { PrintsOnOk W.takes f.old result (sized_text octets.now) f.new }
    ensures err { OnErr result W.MayFail }
{
    dns_print::write_number(f, octets.len() as u64)?;
    write_key(f, octets)
}
