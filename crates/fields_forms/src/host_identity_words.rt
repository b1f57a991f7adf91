//! Host identities (RFC 8005 section 6).
ghost use Rattle.std.specs.Prelude.{◌≡◌, ◌↔◌, ◌++◌, ◌<◌, IsTrue, length, IfErr, OnOk};
ghost use Rattle.fields_forms.specs.IdentityWords.{AreNames, IsHostIdentity, IsIdentity, identity_octets};
ghost use Rattle.fields_text.specs.Reading.{AppendsOctets, FailsFirst, HasValue, ReadsWords};
ghost use Rattle.fields_text.specs.declared.text_error.TextError.TheVariants.{OutOfMemory};

use crate::gateway_words::read_octet;
use fields_plain::{push_name, read_counted_base64, read_counted_hex, read_name};
use fields_text::{TextError, failure, push_octets};
use std::alloc::Global;

/// Whether the words are names.
fn are_names(words: &[&str]) -> bool
    ensures { IsTrue result ↔ HasValue (AreNames words.now) }
{
    for word in words {
        let Some(_name) = read_name(word) else {
            return false;
        };
    }
    true
}

/// Appends the uncompressed octets of the names that words represent.
fn push_names(octets: &mut Vec<u8>, words: &[&str]) -> Result<(), TextError>
    ensures { AppendsOctets (AreNames words.now) octets.old.items octets.new.items result }
{
    for word in words {
        let Ok(()) = push_name(octets, word) else {
            return Err(failure(are_names(words)));
        };
    }
    Ok(())
}

/// Appends the sizes of a tag and of a key with the algorithm between them, the tag and the key
/// (RFC 8005 section 5). Fails only if an allocation fails.
pub fn push_identity(
    octets: &mut Vec<u8>,
    algorithm: u8,
    tag: &[u8],
    key: &[u8],
) -> Result<(), TextError>
    requires tag { length tag.now < 256 }
    requires key { length key.now < 65536 }
    ensures ok { OnOk result (octets.new.items
        ≡ octets.old.items ++ identity_octets algorithm tag.now key.now) }
    ensures err { IfErr result (λ error. error ≡ OutOfMemory) }
{
    let size = key.len();
    let head = [
        tag.len() as u8,
        algorithm,
        (size / 256) as u8,
        (size % 256) as u8,
    ];
    push_octets(octets, &head)?;
    push_octets(octets, tag)?;
    push_octets(octets, key)
}

/// Why two words aren't read, of which the first isn't.
fn first_failure(first: TextError, second: Result<Vec<u8>, TextError>) -> TextError
    ensures { FailsFirst first second result }
{
    match second {
        Err(TextError::BadWord) => TextError::BadWord,
        _ => first,
    }
}

/// An algorithm, a host identity tag, a public key and the names of rendezvous servers.
fn read_identity(
    alloc: Global,
    algorithm: &str,
    tag: &str,
    key: &str,
    servers: &[&str],
) -> Result<Vec<u8>, TextError>
    ensures { ReadsWords (IsIdentity algorithm.now tag.now key.now servers.now) result }
{
    let Some(algorithm) = read_octet(algorithm, u8::MAX) else {
        return Err(TextError::BadWord);
    };
    if !are_names(servers) {
        return Err(TextError::BadWord);
    }
    let tag = match read_counted_hex(alloc, tag) {
        Ok(tag) => tag,
        Err(error) => return Err(first_failure(error, read_counted_base64(alloc, key))),
    };
    let key = match read_counted_base64(alloc, key) {
        Ok(key) => key,
        Err(error) => return Err(error),
    };
    let mut octets = Vec::new(alloc);
    if let Err(error) = push_identity(&mut octets, algorithm, tag.as_slice(), key.as_slice()) {
        return Err(error);
    }
    match push_names(&mut octets, servers) {
        Ok(()) => Ok(octets),
        Err(error) => Err(error),
    }
}

/// A host identity. The words are the algorithm, the tag in hexadecimal, the key in base64 and the
/// names of rendezvous servers.
pub fn read_host_identity(alloc: Global, words: &[&str]) -> Result<Vec<u8>, TextError>
    ensures { ReadsWords (IsHostIdentity words.now) result }
{
    let [algorithm, tag, key, servers @ ..] = words else {
        return Err(TextError::BadWord);
    };
    read_identity(alloc, algorithm, tag, key, servers)
}
