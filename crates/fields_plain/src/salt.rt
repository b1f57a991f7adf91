//! Salts and hashes (RFC 5155 section 3.3).
ghost use Rattle.fields_plain.specs.Salts.{IsCountedHex, IsHashWord, IsSaltWord, salt_text, IsHash, IsSalt};
ghost use Rattle.fields_text.specs.Reading.{ReadsWords, AppendsOctets};
ghost use Rattle.std.specs.Prelude.{OnErr};
ghost use Rattle.dns_print.specs.Printing.{PrintsOnOk};

use dns_print::TextWriter;
use fields_text::{TextError, push_counted, read_base32, read_hex, write_hex};
use std::alloc::Global;
use std::fmt;

/// The number of hexadecimal digits of 255 octets, the most that a length octet counts.
const MOST_HEX_DIGITS: usize = 510;

/// The number of base32 digits of 255 octets.
const MOST_BASE32_DIGITS: usize = 408;

/// From 1 to 255 octets of hexadecimal digits, in either case.
pub fn read_counted_hex(alloc: Global, word: &str) -> Result<Vec<u8>, TextError>
    ensures { ReadsWords (IsCountedHex word.now) result }
{
    if word.is_empty() || word.len() > MOST_HEX_DIGITS {
        return Err(TextError::BadWord);
    }
    read_hex(alloc, word)
}

/// A salt: hexadecimal digits in either case, or a hyphen for no octets. At most 255 octets.
pub fn read_salt(alloc: Global, word: &str) -> Result<Vec<u8>, TextError>
    ensures { ReadsWords (IsSaltWord word.now) result }
{
    if word == "-" {
        return Ok(Vec::new(alloc));
    }
    read_counted_hex(alloc, word)
}

/// A hash: base32 digits without padding, in either case. From 1 to 255 octets.
pub fn read_hash(alloc: Global, word: &str) -> Result<Vec<u8>, TextError>
    ensures { ReadsWords (IsHashWord word.now) result }
{
    if word.is_empty() || word.len() > MOST_BASE32_DIGITS {
        return Err(TextError::BadWord);
    }
    read_base32(alloc, word)
}

/// Prints hexadecimal digits, or a hyphen if there are no octets.
#[tactic(auto, using(dns_print::proofs::theory::Prints::prints, std::proofs::lemmas::Grind::common_steps))]
pub fn write_salt<W: TextWriter>(f: &mut W, octets: &[u8]) -> fmt::Result
    ensures text { PrintsOnOk W.takes f.old result (salt_text octets.now) f.new }
    ensures err { OnErr result W.MayFail }
{
    if octets.is_empty() {
        return f.write_text("-");
    }
    write_hex(f, octets)
}

/// Appends a salt.
pub fn push_salt(alloc: Global, octets: &mut Vec<u8>, word: &str) -> Result<(), TextError>
    ensures { AppendsOctets (IsSalt word.now) octets.old.items octets.new.items result }
{
    match read_salt(alloc, word) {
        Ok(salt) => push_counted(octets, salt.as_slice()),
        Err(error) => Err(error),
    }
}

/// Appends a hash.
pub fn push_hash(alloc: Global, octets: &mut Vec<u8>, word: &str) -> Result<(), TextError>
    ensures { AppendsOctets (IsHash word.now) octets.old.items octets.new.items result }
{
    match read_hash(alloc, word) {
        Ok(hash) => push_counted(octets, hash.as_slice()),
        Err(error) => Err(error),
    }
}
