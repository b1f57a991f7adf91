//! Keys of names: octets that compare as the canonical order of names says (RFC 4034 section 6.1).
//!
//! `memcmp` compares two keys, and of two keys that begin alike the shorter one is first. So names
//! can be sorted and looked up by their keys alone. A name and its subdomains begin with the same
//! key.
ghost use Rattle.std.specs.Prelude.{◌≡◌, ◌≤◌, ◌+◌, ◌++◌, length, reverse, IfOk, IfErr};
ghost use Rattle.arrayvec.specs.ArrayVec.{array_vec_len};
ghost use Rattle.dns_name.specs.Names.{Labels, NameAt};
ghost use Rattle.dns_name.specs.ParsedName.{labels};
ghost use Rattle.dnsm_status.specs.Codes.{number_of};
ghost use Rattle.dnsm_read.specs.Names.{LacksName};
ghost use Rattle.dnsm_text.specs.NameKeys.{octet_key, label_key, name_key};

use arrayvec::ArrayVec;
use dns_name::ParsedName;
use dnsm_read::walk::name_at;
use dnsm_status::CallError;

/// A key: at most 504 octets.
pub type Key = ArrayVec<u8, 504>;

/// The key of the name at offset `place`.
pub fn key_at(octets: &[u8], place: usize) -> Result<Key, CallError>
    ensures key { IfOk result (λ key. (name : Labels) × NameAt octets.now place name
        × (key.items ≡ name_key name)) }
    ensures none { IfErr result (λ fault. LacksName octets.now place (number_of fault)) }
{
    let name = name_at(octets, place)?;
    Ok(key_of(&name))
}

/// The key of a name. Each label is visited once.
pub fn key_of(name: &ParsedName<'_>) -> Key
    ensures { result.items ≡ name_key (labels name.now) }
{
    let mut key = reversed_key(name);
    key.as_mut_slice().reverse();
    key
}

/// The octets of the key of a name, the last one first.
fn reversed_key(name: &ParsedName<'_>) -> Key
    ensures { result.items ≡ reverse (name_key (labels name.now)) }
{
    let mut key = ArrayVec::new();
    for label in name.iter_labels() {
        if !label.is_root() {
            push_label(&mut key, label.as_slice());
        }
    }
    key
}

/// Appends what a label has in a key, the last octet first.
fn push_label(key: &mut Key, label: &[u8])
    requires { array_vec_len key.old + length (label_key label.now) ≤ 504 }
    ensures { key.new.items ≡ key.old.items ++ reverse (label_key label.now) }
{
    key.push(0);
    for i in (0..label.len()).rev() {
        push_octet(key, label[i].to_ascii_lowercase());
    }
}

/// Appends what an octet has in a key, the last octet first.
fn push_octet(key: &mut Key, octet: u8)
    requires { array_vec_len key.old + length (octet_key octet) ≤ 504 }
    ensures { key.new.items ≡ key.old.items ++ reverse (octet_key octet) }
{
    if octet < 2 {
        key.push(octet + 1);
        key.push(1);
    } else {
        key.push(octet);
    }
}
