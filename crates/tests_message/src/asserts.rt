//! Assertions. The `row` of an assertion is the name of a row of a table, or says what a test
//! compares.
use std::process::Abort;

/// Fails unless the condition holds.
pub(crate) fn assert_holds(rt: &impl Abort, row: &str, holds: bool) {
    assert!(rt; holds, "{row}");
}

/// Fails unless the octets equal the expected ones.
pub(crate) fn assert_octets(rt: &impl Abort, row: &str, octets: &[u8], expected: &[u8]) {
    assert!(rt; octets == expected, "{row}: {octets:?}");
}
