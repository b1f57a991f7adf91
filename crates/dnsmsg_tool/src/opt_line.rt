//! OPT records in the lines of a script.
ghost use Rattle.std.specs.Prelude.{IfOk, map};
ghost use Rattle.std.specs.List.{AllZip};
ghost use Rattle.dns_edns.specs.OptData.{option_of};
ghost use Rattle.dnsmsg_tool.specs.ScriptOptions.{ArePlanFields, ArePlanWords, IsFlagWord, IsOptionWord, IsRcodeWord};
ghost use Rattle.dnsmsg_tool.specs.ScriptWords.{ReadsValue, texts};

use crate::octet_digits;
use crate::script_words::number;
use dns_edns::UnknownOptData;
use dns_iana::{OptRcode, OptionCode};
use dns_script::OptPlan;
use std::alloc::{AllocError, Global};

/// The plan in these words: the UDP payload size, the RCODE, the EDNS version, DO (0 or 1) and the
/// options. Returns `None` if they are malformed.
pub(crate) fn plan(alloc: Global, words: &[&str]) -> Result<Option<OptPlan>, AllocError>
    ensures { IfOk result (ReadsValue (λ plan. plan) (ArePlanWords words.now)) }
{
    let [size, rcode, version, dnssec_ok, options @ ..] = words else {
        return Ok(None);
    };
    plan_of(alloc, size, rcode, version, dnssec_ok, options)
}

fn plan_of(
    alloc: Global,
    size: &str,
    rcode: &str,
    version: &str,
    dnssec_ok: &str,
    options: &[&str],
) -> Result<Option<OptPlan>, AllocError>
    ensures { IfOk result (ReadsValue (λ plan. plan)
        (ArePlanFields size.now rcode.now version.now dnssec_ok.now options.now)) }
{
    let Some(size) = number(size, u16::MAX as usize) else {
        return Ok(None);
    };
    let Some(rcode) = rcode_of(rcode) else {
        return Ok(None);
    };
    let Some(version) = number(version, u8::MAX as usize) else {
        return Ok(None);
    };
    let Some(dnssec_ok) = flag_of(dnssec_ok) else {
        return Ok(None);
    };
    let Some(options) = options_of(alloc, options)? else {
        return Ok(None);
    };
    Ok(Some(OptPlan {
        udp_payload_size: size as u16,
        rcode,
        version: version as u8,
        dnssec_ok,
        options,
    }))
}

/// The 12-bit RCODE in a word, or no RCODE for `-`. Returns `None` if the word is malformed.
fn rcode_of(word: &str) -> Option<Option<OptRcode>>
    ensures { ReadsValue (λ rcode. rcode) (IsRcodeWord word.now) result }
{
    if word == "-" {
        return Some(None);
    }
    let number = number(word, 0xfff)? as u16;
    Some(Some(OptRcode::checked_from_int(number)?))
}

/// The flag in a word: 1 if it is set, else 0. Returns `None` if the word is malformed.
fn flag_of(word: &str) -> Option<bool>
    ensures { ReadsValue (λ set. set) (IsFlagWord word.now) result }
{
    Some(number(word, 1)? == 1)
}

/// The options in these words, one in each. Returns `None` if a word is malformed.
fn options_of(
    alloc: Global,
    words: &[&str],
) -> Result<Option<Vec<UnknownOptData<Vec<u8>>>>, AllocError>
    ensures { IfOk result (ReadsValue (λ options. map option_of options.items)
        (AllZip IsOptionWord (texts words.now))) }
{
    let mut options = Vec::with_capacity(alloc, words.len())?;
    for word in words {
        let Some(option) = option_of(alloc, word)? else {
            return Ok(None);
        };
        options.push(option)?;
    }
    Ok(Some(options))
}

/// The option in a word: its code in decimal digits, a colon, and its data in hexadecimal digits.
/// Returns `None` if the word is malformed.
fn option_of(alloc: Global, word: &str) -> Result<Option<UnknownOptData<Vec<u8>>>, AllocError>
    ensures { IfOk result (ReadsValue option_of (IsOptionWord word.now)) }
{
    let Some((code, digits)) = word.split_once(':') else {
        return Ok(None);
    };
    let Some(code) = number(code, u16::MAX as usize) else {
        return Ok(None);
    };
    let Some(octets) = octet_digits::octets(alloc, digits.as_bytes())? else {
        return Ok(None);
    };
    Ok(UnknownOptData::new(OptionCode::from_int(code as u16), octets).ok())
}
