//! The words of a text.
ghost use Rattle.std.specs.Prelude.{◌≡◌, ◌⊎◌, IfOk, IfErr, OnOk};
ghost use Rattle.std.specs.Str.{IsUtf8};
ghost use Rattle.fields_text.specs.LineWords.{AreWordsOf, texts};
ghost use Rattle.dnsm_zone.specs.Lines.{HasNoWords, text_fault};

use dnsm_status::CallError;
use fields_text::{TextError, split_words};
use std::alloc::Global;

/// The fault that reports why words can't be read.
pub(crate) fn fault_of(error: TextError) -> CallError
    ensures { result ≡ text_fault error }
{
    match error {
        TextError::BadWord => CallError::BadText,
        TextError::OutOfMemory => CallError::NoMemory,
    }
}

/// The words of a text.
pub(crate) fn words_of(alloc: Global, text: &[u8]) -> Result<Vec<&str>, CallError>
    ensures words { IfOk result (λ words. AreWordsOf text.now (texts words.items)) }
    ensures text { OnOk result (IsUtf8 text.now) }
    ensures none { IfErr result (λ fault.
        ((fault ≡ CallError.NoMemory) × IsUtf8 text.now)
        ⊎ ((fault ≡ CallError.BadText) × HasNoWords text.now)) }
{
    let Ok(text) = std::str::from_utf8(text) else {
        return Err(CallError::BadText);
    };
    match split_words(alloc, text) {
        Ok(words) => Ok(words),
        Err(error) => Err(fault_of(error)),
    }
}
