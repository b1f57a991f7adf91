//! Assertions. `what` says what is compared.
use crate::hostile::given::Given;
use crate::hostile::plain::{Located, Plain};
use dns_wire::{ParseError, Parser};
use std::fmt::Debug;
use std::process::Abort;

/// Fails unless a value that is read of the message equals the expected one.
pub(crate) fn assert_same<T: Copy + Debug + PartialEq>(
    rt: &impl Abort,
    plain: &Plain<'_>,
    what: &str,
    value: T,
    expected: T,
) {
    let (name, octets) = (plain.name, plain.octets);
    assert!(rt;
        value == expected,
        "{name}: {what} of {octets:?}: {value:?}"
    );
}

/// Fails unless the expected value was read at the offset of a parser, and the parser is after it
/// now; or the expected error was returned, and the parser didn't move.
pub(crate) fn assert_located<T: Copy + Debug + PartialEq>(
    rt: &impl Abort,
    plain: &Plain<'_>,
    what: &str,
    offset: usize,
    found: (Result<T, ParseError>, usize),
    expected: Located<T>,
) {
    let expected = match expected {
        Ok((located, end)) => (Ok(located), end),
        Err(error) => (Err(error), offset),
    };
    assert_same(rt, plain, what, found, expected);
}

/// Fails unless a call reads what is expected, by `assert_located`.
pub(crate) fn assert_read<'a, T: Given + Drop, F>(
    rt: &impl Abort,
    plain: &Plain<'_>,
    what: &str,
    parser: Parser<'a>,
    read: F,
    expected: Located<T::Plain>,
)
where
    F: FnOnce(&mut Parser<'a>) -> Result<T, ParseError>,
    requires { F.IsAlwaysCallable read }
{
    let mut after = parser;
    let value = read(&mut after).plain();
    let found = (value, after.pos());
    assert_located(rt, plain, what, parser.pos(), found, expected);
}
