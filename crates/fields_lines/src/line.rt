//! Records of zone files (RFC 1035 section 5.1).
ghost use Rattle.std.specs.Prelude.{◌≡◌, [], ◌∷◌, IfOk, OnOk, decimal, option_map, string_bytes};
ghost use Rattle.std.specs.Option.{option_copied, option_or};
ghost use Rattle.fields_plain.specs.TypeNames.{class_word};
ghost use Rattle.fields_lines.specs.Completing.{texts_of};
ghost use Rattle.fields_lines.specs.Lines.{CompletesTo, IsAfterOwner, IsBadIndex, IsLine, ReadsCompleted, ReadsLine, TakesOwner, in_31_bits, named_owner, owner_of, record_ttl, text_of_name};
ghost use Rattle.fields_text.specs.LineWords.{texts};

use crate::defaults::Defaults;
use crate::field_words::{complete_data, text_at};
use crate::head::take_head;
use crate::line_error::{LineError, WordReason};
use crate::name_word::complete_name;
use crate::problem::problem_of;
use crate::word::Word;
use arrayvec::ArrayVec;
use dns_code::Ttl;
use dns_iana::Class;
use dns_item::Record;
use dns_name::{Name, ParsedName};
use fields_plain::{ClassName, ZoneName, read_name, read_type};
use fields_records::read_record;
use fields_table::OwnedFieldData;
use fields_text::TextError;
use std::alloc::{AllocError, Global};

/// A record that owns its octets.
type OwnedRecord = Record<Name<ArrayVec<u8, 255>>, OwnedFieldData>;

/// The text of a name, if there is one.
fn text_of_name(alloc: Global, name: Option<ParsedName<'_>>) -> Result<Option<String>, AllocError>
    ensures { IfOk result (λ text. option_map string_bytes text ≡ text_of_name name.entry) }
{
    match name {
        Some(name) => Ok(Some(ZoneName(name).to_string(alloc)?)),
        None => Ok(None),
    }
}

/// What is wrong with the word at this index.
fn bad_word(index: usize, reason: WordReason) -> LineError
    ensures { result ≡ LineError.BadWord index reason }
{
    LineError::BadWord { index, reason }
}

/// The owner that a line names by its first word, and the words after it.
fn take_named<'w, 'a>(
    alloc: Global,
    origin: Option<&str>,
    words: &'w [&'a str],
) -> Result<(String, &'w [&'a str]), LineError>
    ensures { TakesOwner (named_owner (option_copied origin.entry) (texts words.now)) result }
{
    let [word, after @ ..] = words else {
        return Err(bad_word(0, WordReason::Missing));
    };
    match complete_name(alloc, origin, word) {
        Ok(Some(owner)) => Ok((owner, after)),
        Ok(None) => Err(bad_word(0, WordReason::Relative)),
        Err(_) => Err(LineError::OutOfMemory),
    }
}

/// The owner of a line, and the words after it.
fn take_owner<'w, 'a>(
    alloc: Global,
    defaults: &Defaults<'_>,
    origin: Option<&str>,
    named: bool,
    words: &'w [&'a str],
) -> Result<(String, &'w [&'a str]), LineError>
    requires { option_copied origin ≡ text_of_name defaults.now.origin }
    ensures { TakesOwner (owner_of defaults.now named (texts words.now)) result }
{
    if named {
        return take_named(alloc, origin, words);
    }
    match text_of_name(alloc, defaults.owner) {
        Ok(Some(owner)) => Ok((owner, words)),
        Ok(None) => Err(bad_word(0, WordReason::NoOwner)),
        Err(_) => Err(LineError::OutOfMemory),
    }
}

/// The text of a name that was written, if there is one.
fn as_text(name: &Option<String>) -> Option<&str>
    ensures { option_copied result ≡ option_map string_bytes name.now }
{
    match name {
        Some(text) => Some(text.as_str()),
        None => None,
    }
}

/// The TTL of a line, or the default.
fn ttl_or(ttl: Option<u32>, default: Option<Ttl>) -> Option<Ttl>
    ensures { result ≡ option_or ttl default }
{
    match ttl {
        Some(seconds) => Some(Ttl::from_secs(seconds)),
        None => default,
    }
}

/// A TTL, or zero if it is above 2^31-1 seconds (RFC 2181 section 8).
fn in_31_bits(ttl: Ttl) -> Ttl
    ensures { result ≡ in_31_bits ttl }
{
    if ttl.as_secs() < 1 << 31 {
        ttl
    } else {
        Ttl::ZERO
    }
}

/// The TTL of a record: that of its line, or the default.
pub(crate) fn record_ttl(ttl: Option<u32>, default: Option<Ttl>) -> Option<Ttl>
    ensures { result ≡ record_ttl ttl default }
{
    match ttl_or(ttl, default) {
        Some(ttl) => Some(in_31_bits(ttl)),
        None => None,
    }
}

/// Appends the owner, the TTL, the class and the type.
fn push_head<'a>(
    alloc: Global,
    completed: &mut Vec<Word<'a>>,
    owner: String,
    ttl: Ttl,
    class: Class,
    type_word: &'a str,
) -> Result<(), AllocError>
    requires { completed.old.items ≡ [] }
    ensures { OnOk result (texts_of completed.new.items
        ≡ string_bytes owner ∷ decimal ttl ∷ class_word class ∷ type_word.now ∷ []) }
{
    let ttl = ttl.as_secs().to_string(alloc)?;
    let class = ClassName(class).to_string(alloc)?;
    completed.push(Word::Made(owner))?;
    completed.push(Word::Made(ttl))?;
    completed.push(Word::Made(class))?;
    completed.push(Word::Given(type_word))?;
    Ok(())
}

/// Appends the complete words of a line of `size` words, of which these follow the owner. Returns the
/// index of the first word of the RDATA.
fn complete_after<'a>(
    alloc: Global,
    completed: &mut Vec<Word<'a>>,
    defaults: &Defaults<'_>,
    origin: Option<&str>,
    size: usize,
    owner: String,
    words: &[&'a str],
) -> Result<usize, LineError>
    requires origin { option_copied origin ≡ text_of_name defaults.now.origin }
    requires empty { completed.old.items ≡ [] }
    ensures { CompletesTo
        (IsAfterOwner defaults.now size (string_bytes owner) (texts words.now))
        (texts_of completed.new.items) result }
{
    let (ttl, class, after) = take_head(words);
    let at = size.saturating_sub(after.len());
    let [type_word, value @ ..] = after else {
        return Err(bad_word(at, WordReason::Missing));
    };
    let Some(rtype) = read_type(type_word) else {
        return Err(bad_word(at, WordReason::NoType));
    };
    let Some(ttl) = record_ttl(ttl, defaults.ttl) else {
        return Err(bad_word(at, WordReason::NoTtl));
    };
    let class = class.unwrap_or(defaults.class);
    let Ok(()) = push_head(alloc, completed, owner, ttl, class, type_word) else {
        return Err(LineError::OutOfMemory);
    };
    match complete_data(alloc, completed, origin, at + 1, rtype.to_int(), value) {
        Ok(()) => Ok(at + 1),
        Err(error) => Err(error),
    }
}

/// Appends the complete words of a line. Returns the index of the first word of the RDATA.
fn complete_line<'a>(
    alloc: Global,
    completed: &mut Vec<Word<'a>>,
    defaults: &Defaults<'_>,
    named: bool,
    words: &[&'a str],
) -> Result<usize, LineError>
    requires { completed.old.items ≡ [] }
    ensures { CompletesTo (IsLine defaults.now named (texts words.now))
        (texts_of completed.new.items) result }
{
    let Ok(origin) = text_of_name(alloc, defaults.origin) else {
        return Err(LineError::OutOfMemory);
    };
    let origin = as_text(&origin);
    match take_owner(alloc, defaults, origin, named, words) {
        Ok((owner, after)) => {
            complete_after(
                alloc,
                completed,
                defaults,
                origin,
                words.len(),
                owner,
                after,
            )
        }
        Err(error) => Err(error),
    }
}

/// The texts of complete words.
fn texts_of<'w>(alloc: Global, completed: &'w [Word<'_>]) -> Result<Vec<&'w str>, AllocError>
    ensures { IfOk result (λ words. texts words.items ≡ texts_of completed.now) }
{
    let mut words = Vec::new(alloc);
    for word in completed {
        words.push(word.as_str())?;
    }
    Ok(words)
}

/// The index in the line of what isn't read: 0 if the owner isn't a name, else that of the RDATA.
fn bad_index(words: &[&str], at: usize) -> usize
    ensures { IsBadIndex (texts words.now) at result }
{
    match read_name(text_at(words, 0)) {
        Some(_) => at,
        None => 0,
    }
}

/// The record that complete words represent. `at` is the index in the line of the first word of the
/// RDATA.
fn read_completed(
    alloc: Global,
    completed: &[Word<'_>],
    at: usize,
) -> Result<OwnedRecord, LineError>
    ensures { ReadsCompleted (texts_of completed.now) at result }
{
    let Ok(words) = texts_of(alloc, completed) else {
        return Err(LineError::OutOfMemory);
    };
    let words = words.as_slice();
    match read_record(alloc, words) {
        Ok(found) => Ok(found),
        Err(TextError::OutOfMemory) => Err(LineError::OutOfMemory),
        Err(TextError::BadWord) => Err(bad_word(bad_index(words, at), WordReason::NoValue)),
    }
}

/// The record that the words of a line represent (RFC 1035 section 5.1).
///
/// `named` says whether the first word is the owner, as `begins_with_owner` says of the line. Else the
/// owner is that of the last record. A TTL and a class may follow, in either order, and then come the
/// type and the RDATA.
///
/// - `@` is the origin, and a name without a final dot is relative to the origin: owners, names in
///   RDATA, gateways, relays and rendezvous servers.
/// - A TTL, the times of SOA records and the original TTL of signatures may have units, as `1h30m`. A
///   TTL above 2^31-1 seconds is zero (RFC 2181 section 8).
/// - Algorithms, types of certificates, errors of TSIG and TKEY, and flags of KEY, DNSKEY and CDNSKEY
///   may have their names. A class may be `CHAOS` or `HESIOD`. Record types in RDATA of SIG, RRSIG,
///   NXT and DSYNC may be numbers.
/// - A tag of CAA may be in quotes, and a hash of NSEC3 may be padded.
///
/// Errors, checked in this order: `Missing`, `NoOwner` or `Relative` of the owner; `Missing`, `NoType`
/// or `NoTtl` at the type; `Relative` at the first relative name of the RDATA; `OutOfMemory` if an
/// allocation fails; `NoValue` at the owner if it isn't a name, else at the first word of the RDATA.
pub fn read_line(
    alloc: Global,
    defaults: &Defaults<'_>,
    named: bool,
    words: &[&str],
) -> Result<Record<Name<ArrayVec<u8, 255>>, OwnedFieldData>, LineError>
    ensures { ReadsLine defaults.now named words.now result }
{
    if let Some((index, reason)) = problem_of(defaults, named, words) {
        return Err(bad_word(index, reason));
    }
    let mut completed = Vec::new(alloc);
    match complete_line(alloc, &mut completed, defaults, named, words) {
        Ok(at) => read_completed(alloc, completed.as_slice(), at),
        Err(error) => Err(error),
    }
}
