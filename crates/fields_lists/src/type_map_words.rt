//! Type bit maps (RFC 4034 section 4.2).
ghost use Rattle.std.specs.Prelude.{◌≡◌, ◌↔◌, ◌≤◌, ◌<◌, ◌+◌, ◌*◌, ◌++◌, ℕ, IsTrue, length, true};
ghost use Rattle.fields_lists.specs.TypeBits.{AppendsBlock, AppendsBlocks, AppendsTypes, HaveWindows, is_marked, octet_bits, octets_bits};
ghost use Rattle.fields_text.specs.Reading.{ReadsWords};
ghost use Rattle.fields_lists.specs.TypeMapWords.{AppendsTypeMap, AreTypes, IsTypeMap, has};

use crate::prefix_words::trimmed;
use arrayvec::ArrayVec;
use fields_plain::read_type;
use fields_text::{TextError, failure};
use std::alloc::Global;

/// Which of the 256 types from `first` on are among these types.
fn marks_from(types: &[u16], first: u32) -> [bool; 256]
    ensures { (index : ℕ) → index < 256
        → is_marked result index ≡ has types.now (first + index) }
{
    let mut marks = [false; 256];
    for rtype in types {
        if let Some(index) = u32::from(*rtype).checked_sub(first) {
            if index < 256 {
                marks[index as usize] = true;
            }
        }
    }
    marks
}

/// The octet of 8 marks from index `at` on, the first of which has the highest bit.
fn octet_bits(marks: &[bool; 256], at: usize) -> u8
    requires { at + 8 ≤ 256 }
    ensures { result ≡ octet_bits (is_marked marks.now) at 8 }
{
    let mut octet = 0;
    let mut left = 8;
    while left > 0 {
        left -= 1;
        octet = octet / 2 + if marks[at + left] { 128 } else { 0 };
    }
    octet
}

/// Appends `count` octets of the marks from index `at` on.
pub(crate) fn push_marked(octets: &mut ArrayVec<u8, 32>, marks: &[bool; 256], at: usize, count: u8)
    requires room { length octets.old.items + count ≤ 32 }
    requires within { at + 8 * count ≤ 256 }
    ensures { octets.new.items
        ≡ octets.old.items ++ octets_bits (is_marked marks.now) at count }
{
    if count == 0 {
        return;
    }
    octets.push(octet_bits(marks, at));
    push_marked(octets, marks, at + 8, count - 1);
}

/// Appends `count` octets of the types from `first` on.
fn push_octets(octets: &mut ArrayVec<u8, 32>, types: &[u16], first: u32, count: u8)
    requires room { length octets.old.items + count ≤ 32 }
    ensures { octets.new.items ≡ octets.old.items ++ octets_bits (has types.now) first count }
{
    let marks = marks_from(types, first);
    push_marked(octets, &marks, 0, count);
}

/// Which of the 256 windows have one of these types.
fn windows_of(types: &[u16]) -> [bool; 256]
    ensures { HaveWindows types.now result }
{
    let mut windows = [false; 256];
    for rtype in types {
        windows[usize::from(*rtype / 256)] = true;
    }
    windows
}

/// The window after the last one that has one of these types.
fn windows_end(types: &[u16]) -> u16
    ensures within { result ≤ 256 }
    ensures last { (n : ℕ) → has types.now n ≡ true → n < result * 256 }
{
    let mut end = 0;
    for rtype in types {
        let window = *rtype / 256;
        if window >= end {
            end = window + 1;
        }
    }
    end
}

/// Appends the block of a window, if one of the types is in it.
fn push_block(
    map: &mut Vec<u8>,
    types: &[u16],
    windows: &[bool; 256],
    window: u8,
) -> Result<(), TextError>
    requires { HaveWindows types.now windows.now }
    ensures { AppendsBlock (has types.now) window map.old.items map.new.items result }
{
    let occurs = windows[usize::from(window)];
    if !occurs {
        return Ok(());
    }
    let mut octets = ArrayVec::new();
    push_octets(&mut octets, types, u32::from(window) * 256, 32);
    let bits = trimmed(octets.as_slice());
    if bits.is_empty() {
        return Ok(());
    }
    if map.extend_from_slice(&[window, bits.len() as u8]).is_err() {
        return Err(TextError::OutOfMemory);
    }
    if map.extend_from_slice(bits).is_err() {
        return Err(TextError::OutOfMemory);
    }
    Ok(())
}

/// Appends the blocks of the windows from this one on, before `end`. No type is in a later one.
fn push_blocks(
    map: &mut Vec<u8>,
    types: &[u16],
    windows: &[bool; 256],
    window: u16,
    end: u16,
) -> Result<(), TextError>
    requires windows { HaveWindows types.now windows.now }
    requires within { end ≤ 256 }
    requires last { (n : ℕ) → has types.now n ≡ true → n < end * 256 }
    ensures { AppendsBlocks (has types.now) window map.old.items map.new.items result }
{
    if window >= end {
        return Ok(());
    }
    match push_block(map, types, windows, window as u8) {
        Ok(()) => push_blocks(map, types, windows, window + 1, end),
        Err(error) => Err(error),
    }
}

/// Whether each of the words is a type.
fn are_types(words: &[&str]) -> bool
    ensures { IsTrue result ↔ AreTypes words.now }
{
    for word in words {
        let Some(_rtype) = read_type(word) else {
            return false;
        };
    }
    true
}

/// Appends the types of words.
fn push_types(types: &mut Vec<u16>, words: &[&str]) -> Result<(), TextError>
    ensures { AppendsTypes words.now types.old.items types.new.items result }
{
    for word in words {
        let Some(rtype) = read_type(word) else {
            return Err(TextError::BadWord);
        };
        if types.push(rtype.to_int()).is_err() {
            return Err(failure(are_types(words)));
        }
    }
    Ok(())
}

/// Appends the type bit map of these types, which are in any order. Fails only if an allocation
/// fails, and then appends nothing.
pub fn push_type_map(map: &mut Vec<u8>, types: &[u16]) -> Result<(), TextError>
    ensures { AppendsTypeMap types.now map.old.items map.new.items result }
{
    let length = map.len();
    if let Err(error) = push_blocks(map, types, &windows_of(types), 0, windows_end(types)) {
        map.truncate(length);
        return Err(error);
    }
    Ok(())
}

/// The type bit map of the types of words.
pub fn read_type_map(alloc: Global, words: &[&str]) -> Result<Vec<u8>, TextError>
    ensures { ReadsWords (IsTypeMap words.now) result }
{
    let mut types = Vec::new(alloc);
    if let Err(error) = push_types(&mut types, words) {
        return Err(error);
    }
    let mut map = Vec::new(alloc);
    match push_blocks(
        &mut map,
        &types,
        &windows_of(&types),
        0,
        windows_end(&types),
    ) {
        Ok(()) => Ok(map),
        Err(error) => Err(error),
    }
}
