//! How RDATA and records compare: by the order of values, and by that of canonical forms (RFC 4034
//! sections 6.1 and 6.3).
use crate::case::Case;
use crate::key::Key;
use dns_data::ParseAnyRecordData;
use dns_wire::{CanonicalOrd, ParseError, Parser};
use fields_table::FieldData;
use std::alloc::{AllocError, Global};
use std::cmp::Ordering;
use std::hash::{DefaultHasher, Hash, Hasher};

impl Case {
    /// How the RDATA compares with that of these octets, or why it can't be read.
    pub(crate) fn order(
        &self,
        alloc: Global,
        key: Key,
        octets: &[u8],
    ) -> Result<String, AllocError> {
        let rtype = self.other.unwrap_or(self.rtype);
        let other = FieldData::parse_any_rdata(rtype, &mut Parser::new(octets));
        order_shown(alloc, key, self.data(), other)
    }
}

/// How two values compare, or why one can't be read.
pub(crate) fn order_shown<T: Ord + Hash + CanonicalOrd + Drop>(
    alloc: Global,
    key: Key,
    first: Result<T, ParseError>,
    second: Result<T, ParseError>,
) -> Result<String, AllocError> {
    match (first, second) {
        (Ok(first), Ok(second)) => String::from_str(alloc, order_of(key, &first, &second)),
        (Err(error), _) | (_, Err(error)) => error.to_string(alloc),
    }
}

/// How two values compare, or what is wrong.
fn order_of<T: Ord + Hash + CanonicalOrd>(key: Key, first: &T, second: &T) -> &'static str {
    match key {
        Key::CanonicalOrder | Key::CanonicalRecordOrder => {
            if first.canonical_cmp(first).is_ne() {
                return "no equality with itself";
            }
            word_of(first.canonical_cmp(second), second.canonical_cmp(first))
        }
        _ => {
            let order = first.cmp(second);
            let is_equal = order.is_eq();
            if (first == second) != is_equal || (hash_of(first) == hash_of(second)) != is_equal {
                return "another order than equality";
            }
            if first.partial_cmp(second) != Some(order) {
                return "another partial order";
            }
            word_of(order, second.cmp(first))
        }
    }
}

/// The word for an order, if the other one is its reverse.
fn word_of(order: Ordering, other: Ordering) -> &'static str {
    match (order, other) {
        (Ordering::Less, Ordering::Greater) => "less",
        (Ordering::Equal, Ordering::Equal) => "equal",
        (Ordering::Greater, Ordering::Less) => "greater",
        _ => "another order both ways",
    }
}

fn hash_of<T: Hash>(value: &T) -> u64 {
    let mut state = DefaultHasher::new();
    value.hash(&mut state);
    state.finish()
}
