//! Readers of many words and values, which take time and stack that don't grow faster.
use crate::asserts::{assert_octets, assert_same};
use fields_forms::read_host_identity;
use fields_lists::{push_type_map, read_prefixes, read_small_type_map};
use fields_parameters::read_parameters;
use std::alloc::Global;
use std::process::Abort;

/// One type of each window, 65,536 in all. A block has the window, a length of 1, and its first bit
/// (RFC 4034 section 4.1.2).
#[test]
fn many_types(rt: HostRuntime) {
    let mut types = Vec::new(rt.alloc());
    for count in 0..65_536u32 {
        types
            .push((count % 256 * 256) as u16)
            .expect(&rt, "there is memory");
    }
    let mut map = Vec::new(rt.alloc());
    push_type_map(&mut map, &types).expect(&rt, "types");
    assert_same(&rt, "the length of the map", map.len(), 256 * 3);
    let block = map.get(3..6).unwrap_or(&[]);
    assert_octets(&rt, "the second block", block, b"\x01\x01\x80");
}

/// A parameter for each key but those with a name, in rising order: four octets each.
#[test]
fn many_parameters(rt: HostRuntime) {
    let alloc = rt.alloc();
    let mut texts = Vec::new(alloc);
    for key in 9..65536u32 {
        let text = format!(in alloc; "key{key}").expect(&rt, "there is memory");
        texts.push(text).expect(&rt, "there is memory");
    }
    let mut words = Vec::new(alloc);
    for text in &texts {
        words.push(text.as_str()).expect(&rt, "there is memory");
    }
    let octets = read_parameters(alloc, &words).expect(&rt, "keys are there once");
    assert_same(&rt, "the length of parameters", octets.len(), 65527 * 4);
}

/// These words, and `MANY` times another one.
fn many<'a>(rt: &impl Abort, alloc: Global, first: &[&'a str], word: &'a str) -> Vec<&'a str> {
    let mut words = Vec::from_slice(alloc, first).expect(rt, "there is memory");
    for _ in 0..MANY {
        words.push(word).expect(rt, "there is memory");
    }
    words
}

/// More words than calls have room on a stack of 8 MiB, if each is of at least 32 octets.
const MANY: u32 = 300_000;

/// Many types, prefixes, and names of a host identity.
#[test]
fn many_words(rt: HostRuntime) {
    let alloc = rt.alloc();
    let types = many(&rt, alloc, &[], "A");
    let map = read_small_type_map(alloc, &types).expect(&rt, "types");
    assert_octets(&rt, "types", &map, b"\x40");
    let words = many(&rt, alloc, &[], "1:0.0.0.0/0");
    let prefixes = read_prefixes(alloc, &words).expect(&rt, "prefixes");
    assert_same(&rt, "the length of prefixes", prefixes.len(), 1_200_000);
    let words = many(&rt, alloc, &["2", "20", "AwE="], ".");
    let identity = read_host_identity(alloc, &words).expect(&rt, "an identity");
    assert_same(
        &rt,
        "the length of an identity",
        identity.len(),
        7 + 300_000,
    );
}
