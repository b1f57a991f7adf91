//! Address prefixes (RFC 3123 section 5).
ghost use Rattle.std.specs.Prelude.{◌≡◌, ◌≤◌, ◌-◌, ◌++◌, true, length, replicate, IfErr, OnOk};
ghost use Rattle.fields_lists.specs.Prefixes.{is_trimmed};
ghost use Rattle.fields_lists.specs.PrefixWords.{AppendsPrefix, ArePrefixWords, IsPrefixOf, IsPrefixWord, SplitsSign, prefix_octets};
ghost use Rattle.fields_text.specs.Reading.{AppendsOctets, ReadsWords};
ghost use Rattle.fields_text.specs.declared.text_error.TextError.TheVariants.{OutOfMemory};

use fields_plain::{read_ipv4, read_ipv6};
use fields_text::{TextError, read_number};
use std::alloc::Global;

/// The octets up to the last one that isn't zero.
pub(crate) fn trimmed(octets: &[u8]) -> &[u8]
    ensures trimmed { is_trimmed result.now ≡ true }
    ensures zeros { octets.now
        ≡ result.now ++ replicate (length octets.now - length result.now) 0 }
    ensures fits { length result.now ≤ length octets.now }
{
    let Some((last, before)) = octets.split_last() else {
        return octets;
    };
    if *last != 0 {
        return octets;
    }
    trimmed(before)
}

/// Appends the octets of a prefix.
fn push_octets(
    octets: &mut Vec<u8>,
    negated: bool,
    family: u8,
    size: u8,
    address: &[u8],
) -> Result<(), TextError>
    requires { length address.now ≤ 16 }
    ensures ok { OnOk result (octets.new.items ≡ octets.old.items ++ prefix_octets (record
        { family = family; size = size; negated = negated; address = address.now })) }
    ensures err { IfErr result (λ error. error ≡ OutOfMemory) }
{
    let sign: u8 = if negated { 128 } else { 0 };
    let head = [0, family, size, sign + address.len() as u8];
    if octets.extend_from_slice(&head).is_err() {
        return Err(TextError::OutOfMemory);
    }
    if octets.extend_from_slice(address).is_err() {
        return Err(TextError::OutOfMemory);
    }
    Ok(())
}

/// Appends the prefix of IPv4 with this address and size.
fn push_ipv4(
    octets: &mut Vec<u8>,
    negated: bool,
    address: &str,
    size: &str,
) -> Result<(), TextError>
    ensures { AppendsPrefix (λ item. (item.negated ≡ negated) × (item.family ≡ 1)
        × IsPrefixOf address.now size.now item) octets.old.items octets.new.items result }
{
    let Some(address) = read_ipv4(address.as_bytes()) else {
        return Err(TextError::BadWord);
    };
    let Some(size) = read_number(size, 32) else {
        return Err(TextError::BadWord);
    };
    push_octets(octets, negated, 1, size as u8, trimmed(&address))
}

/// Appends the prefix of IPv6 with this address and size.
fn push_ipv6(
    octets: &mut Vec<u8>,
    negated: bool,
    address: &str,
    size: &str,
) -> Result<(), TextError>
    ensures { AppendsPrefix (λ item. (item.negated ≡ negated) × (item.family ≡ 2)
        × IsPrefixOf address.now size.now item) octets.old.items octets.new.items result }
{
    let Some(address) = read_ipv6(address.as_bytes()) else {
        return Err(TextError::BadWord);
    };
    let Some(size) = read_number(size, 128) else {
        return Err(TextError::BadWord);
    };
    push_octets(octets, negated, 2, size as u8, trimmed(&address))
}

/// Whether the word begins with an exclamation mark, and the text after it.
fn split_sign(word: &str) -> (bool, &str)
    ensures { SplitsSign word.now result.0 result.1.now }
{
    match word.strip_prefix('!') {
        Some(after) => (true, after),
        None => (false, word),
    }
}

/// Appends the prefix that a word represents.
fn push_prefix(octets: &mut Vec<u8>, word: &str) -> Result<(), TextError>
    ensures { AppendsPrefix (IsPrefixWord word.now) octets.old.items octets.new.items result }
{
    let (negated, after) = split_sign(word);
    let Some((family, after)) = after.split_once(':') else {
        return Err(TextError::BadWord);
    };
    let Some((address, size)) = after.rsplit_once('/') else {
        return Err(TextError::BadWord);
    };
    if family == "1" {
        return push_ipv4(octets, negated, address, size);
    }
    if family == "2" {
        return push_ipv6(octets, negated, address, size);
    }
    Err(TextError::BadWord)
}

/// Appends the prefixes that words represent. After an allocation fails, the other words are still
/// read, since a bad one of them is the error.
fn push_prefixes(octets: &mut Vec<u8>, words: &[&str]) -> Result<(), TextError>
    ensures { AppendsOctets (ArePrefixWords words.now) octets.old.items octets.new.items result }
{
    let mut fits = true;
    for word in words {
        match push_prefix(octets, word) {
            Ok(()) => {}
            Err(TextError::OutOfMemory) => fits = false,
            Err(TextError::BadWord) => return Err(TextError::BadWord),
        }
    }
    if fits {
        Ok(())
    } else {
        Err(TextError::OutOfMemory)
    }
}

/// Address prefixes: for each word an optional exclamation mark, the address family, a colon, the
/// address, a slash and the number of bits.
pub fn read_prefixes(alloc: Global, words: &[&str]) -> Result<Vec<u8>, TextError>
    ensures { ReadsWords (ArePrefixWords words.now) result }
{
    let mut octets = Vec::new(alloc);
    match push_prefixes(&mut octets, words) {
        Ok(()) => Ok(octets),
        Err(error) => Err(error),
    }
}
