//! Appending to lists of options (RFC 6891 section 6.1.2). Nothing changes on error.
ghost use Rattle.std.specs.Prelude.{◌≡◌, ◌+◌, ◌<◌, ◌≤◌, ◌++◌, length, vec_len, vec_capacity, OnOk, OnErr, IfErr, Some, true, replicate, ℕ, slice_index};
ghost use Rattle.std.specs.Int.{to_be_bytes, w16};
ghost use Rattle.std.specs.List.{flat_map};
ghost use Rattle.dns_wire.specs.Targets.{AppendReturns};
ghost use Rattle.dns_edns_builder.specs.OptionLists.{AppendsOption};

use dns_octets::AppendError;
use dns_wire::MAX_OCTETS;

/// The number of octets of an option's code and length.
const HEAD_LEN: usize = 4;

pub(crate) fn append_option(list: &mut Vec<u8>, code: u16, octets: &[u8]) -> Result<(), AppendError>
    requires { length list.old.items ≤ 65535 }
    ensures { AppendsOption (record { code = code; octets = octets.now })
        (vec_capacity list.old) list.old.items list.new.items result }
{
    begin_option(list, code, octets.len())?;
    append_reserved(list, octets);
    Ok(())
}

/// Appends an option with the octets of `first`, then `rest`.
pub(crate) fn append_joined_option(
    list: &mut Vec<u8>,
    code: u16,
    first: &[u8],
    rest: &[u8],
) -> Result<(), AppendError>
    requires { length list.old.items ≤ 65535 }
    ensures { AppendsOption (record { code = code; octets = first.now ++ rest.now })
        (vec_capacity list.old) list.old.items list.new.items result }
{
    begin_option(list, code, first.len() + rest.len())?;
    append_reserved(list, first);
    append_reserved(list, rest);
    Ok(())
}

/// Appends an option with `count` zero octets.
pub(crate) fn append_zeros_option(
    list: &mut Vec<u8>,
    code: u16,
    count: u16,
) -> Result<(), AppendError>
    requires { length list.old.items ≤ 65535 }
    ensures { AppendsOption (record { code = code; octets = replicate count 0 })
        (vec_capacity list.old) list.old.items list.new.items result }
{
    let count = usize::from(count);
    begin_option(list, code, count)?;
    list.resize(list.len() + count, 0).unwrap();
    Ok(())
}

/// Appends an option with the numbers, two octets each, big-endian.
#[tactic(auto, using(crate::proofs::OptionListLemmas::numbers_length))]
pub(crate) fn append_numbers_option(
    list: &mut Vec<u8>,
    code: u16,
    numbers: &[u16],
) -> Result<(), AppendError>
    requires { length list.old.items ≤ 65535 }
    ensures { AppendsOption
        (record { code = code; octets = flat_map (to_be_bytes w16) numbers.now })
        (vec_capacity list.old) list.old.items list.new.items result }
{
    begin_option(list, code, numbers.len() * 2)?;
    for number in numbers {
        append_reserved(list, &number.to_be_bytes());
    }
    Ok(())
}

/// Replaces the list by octets.
pub(crate) fn replace_options(list: &mut Vec<u8>, octets: &[u8]) -> Result<(), AppendError>
    ensures ok { OnOk result (list.new.items ≡ octets.now) }
    ensures err { OnErr result (list.new.items ≡ list.old.items) }
    ensures memory { IfErr result (λ error. error ≡ AppendError.OutOfMemory) }
    ensures full { OnErr result (vec_capacity list.old < length octets.now) }
    ensures in_range { (k : ℕ) → slice_index octets.now k < 256 }
{
    if list.len() < octets.len() {
        list.reserve(octets.len() - list.len())?;
    }
    list.clear();
    append_reserved(list, octets);
    Ok(())
}

/// Appends the code and the length of an option of `len` octets, and reserves memory for these
/// octets.
fn begin_option(list: &mut Vec<u8>, code: u16, len: usize) -> Result<(), AppendError>
    requires { length list.old.items ≤ 65535 }
    ensures head { OnOk result (list.new.items ≡
        list.old.items ++ (to_be_bytes w16 code ++ to_be_bytes w16 len)) }
    ensures reserved { OnOk result (vec_len list.new + len ≤ vec_capacity list.new) }
    ensures err { OnErr result (list.new.items ≡ list.old.items) }
    ensures outcome { AppendReturns (Some 65535) true (length list.old.items + 4 + len) result }
    ensures full { result ≡ Err AppendError.OutOfMemory
        → vec_capacity list.old < length list.old.items + 4 + len }
{
    let left = MAX_OCTETS - list.len();
    if left < HEAD_LEN || len > left - HEAD_LEN {
        return Err(AppendError::ShortBuf);
    }
    list.reserve(HEAD_LEN + len)?;
    append_reserved(list, &code.to_be_bytes());
    append_reserved(list, &(len as u16).to_be_bytes());
    Ok(())
}

/// Appends octets for which memory is reserved.
fn append_reserved(list: &mut Vec<u8>, octets: &[u8])
    requires { vec_len list.old + length octets.now ≤ vec_capacity list.old }
    ensures items { list.new.items ≡ list.old.items ++ octets.now }
    ensures len { vec_len list.new ≡ vec_len list.old + length octets.now }
    ensures capacity { vec_capacity list.old ≤ vec_capacity list.new }
{
    list.extend_from_slice(octets).unwrap();
}
