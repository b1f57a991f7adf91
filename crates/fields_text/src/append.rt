//! Appending octets to those of a value.
ghost use Rattle.std.specs.Prelude.{◌≡◌, ◌++◌, IfErr, OnErr, OnOk, if◌then◌else◌, ◌≤◌, length};
ghost use Rattle.fields_text.specs.Base32Words.{last_octets};
ghost use Rattle.fields_text.specs.Reading.{IsStartOf};
ghost use Rattle.fields_text.specs.declared.text_error.TextError.TheVariants.{BadWord, OutOfMemory};
ghost use Rattle.fields_text.specs.Appended.{AppendsRead};
ghost use Rattle.fields_text.specs.LengthOctets.{counted};

use crate::text_error::TextError;

/// Appends octets. Fails only if an allocation fails, and then appends nothing.
pub fn push_octets(octets: &mut Vec<u8>, more: &[u8]) -> Result<(), TextError>
    ensures ok { OnOk result (octets.new.items ≡ octets.old.items ++ more.now) }
    ensures err { IfErr result (λ error. error ≡ OutOfMemory) }
    ensures unchanged { OnErr result (octets.new.items ≡ octets.old.items) }
{
    match octets.extend_from_slice(more) {
        Ok(()) => Ok(()),
        Err(_) => Err(TextError::OutOfMemory),
    }
}

/// Appends the last `size` octets of a number, big-endian. If an allocation fails, some of them may
/// be appended.
fn push_each(octets: &mut Vec<u8>, size: u8, number: u64) -> Result<(), TextError>
    ensures ok { OnOk result (octets.new.items ≡ octets.old.items ++ last_octets size number) }
    ensures err { IfErr result (λ error. error ≡ OutOfMemory) }
    ensures start { OnErr result (IsStartOf octets.old.items octets.new.items) }
{
    if size == 0 {
        return Ok(());
    }
    push_each(octets, size - 1, number / 256)?;
    if octets.push((number % 256) as u8).is_err() {
        return Err(TextError::OutOfMemory);
    }
    Ok(())
}

/// Appends the last `size` octets of a number, big-endian. Fails only if an allocation fails, and
/// then appends nothing.
pub fn push_last(octets: &mut Vec<u8>, size: u8, number: u64) -> Result<(), TextError>
    ensures ok { OnOk result (octets.new.items ≡ octets.old.items ++ last_octets size number) }
    ensures err { IfErr result (λ error. error ≡ OutOfMemory) }
    ensures unchanged { OnErr result (octets.new.items ≡ octets.old.items) }
{
    let length = octets.len();
    if let Err(error) = push_each(octets, size, number) {
        octets.truncate(length);
        return Err(error);
    }
    Ok(())
}

/// Why words aren't read when appending what they represent fails. `represents` says whether they
/// represent a value.
pub fn failure(represents: bool) -> TextError
    ensures { result ≡ (if represents then OutOfMemory else BadWord) }
{
    if represents {
        TextError::OutOfMemory
    } else {
        TextError::BadWord
    }
}

/// Appends octets after a length octet.
pub fn push_counted(octets: &mut Vec<u8>, string: &[u8]) -> Result<(), TextError>
    requires { length string.now ≤ 255 }
    ensures ok { OnOk result (octets.new.items ≡ octets.old.items ++ counted string.now) }
    ensures err { IfErr result (λ error. error ≡ OutOfMemory) }
{
    match octets.push(string.len() as u8) {
        Ok(()) => push_octets(octets, string),
        Err(_) => Err(TextError::OutOfMemory),
    }
}

/// Appends octets that were read.
pub fn push_read(octets: &mut Vec<u8>, read: Result<Vec<u8>, TextError>) -> Result<(), TextError>
    ensures { AppendsRead read octets.old.items octets.new.items result }
{
    match read {
        Ok(more) => push_octets(octets, more.as_slice()),
        Err(error) => Err(error),
    }
}
