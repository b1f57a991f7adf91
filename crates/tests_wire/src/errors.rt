//! The text of each error.
use crate::asserts::assert_prints;
use dns_code::{Flags, HeaderCounts, class, rtype};
use dns_wire::name::{FromStrError, PresentationError};
use dns_wire::{AppendError, FormError, ParseError, ShortBuf};
use std::alloc::{AllocError, Global};
use std::fmt::Display;
use std::process::Abort;

/// Errors of reading octets, and their texts.
const FAULTS: &[(ParseError, &str)] = &[
    (ParseError::ShortInput, "unexpected end of input"),
    (ParseError::Form(FormError::BAD_LABEL), "bad label"),
    (ParseError::Form(FormError::BAD_POINTER), "bad pointer"),
    (ParseError::Form(FormError::LONG_NAME), "long name"),
    (
        ParseError::Form(FormError::TRAILING_DATA),
        "trailing data in option",
    ),
    (ParseError::Form(FormError::NO_QUESTION), "no question"),
    (
        ParseError::Form(FormError::MULTIPLE_QUESTIONS),
        "multiple questions",
    ),
];

/// Errors of reading a name from a text, and their texts.
const NAME_ERRORS: &[(FromStrError, &str)] = &[
    (
        FromStrError::Presentation(PresentationError::EmptyLabel),
        "empty label",
    ),
    (
        FromStrError::Presentation(PresentationError::BadSymbol),
        "illegal symbol",
    ),
    (
        FromStrError::Presentation(PresentationError::BadEscape),
        "illegal escape",
    ),
    (
        FromStrError::Presentation(PresentationError::LongLabel),
        "long label",
    ),
    (
        FromStrError::Presentation(PresentationError::LongName),
        "long name",
    ),
    (FromStrError::ShortBuf, "buffer size exceeded"),
    (FromStrError::OutOfMemory, "out of memory"),
];

/// Fails unless each error is printed as the text after it.
fn assert_all_print<T: Display>(rt: &impl Abort, alloc: Global, errors: &[(T, &str)]) {
    for (error, text) in errors {
        assert_prints(rt, alloc, text, error, text);
    }
}

#[test]
fn prints_errors(rt: HostRuntime) {
    let alloc = rt.alloc();
    assert_all_print(&rt, alloc, FAULTS);
    assert_all_print(&rt, alloc, NAME_ERRORS);
    assert_all_print(&rt, alloc, &[(ShortBuf, "buffer size exceeded")]);
    let appends = [
        (AppendError::from(ShortBuf), "buffer size exceeded"),
        (AppendError::from(AllocError), "out of memory"),
    ];
    assert_all_print(&rt, alloc, &appends);
    assert_all_print(&rt, alloc, &[(rtype::FromStrError, "unknown record type")]);
    assert_all_print(&rt, alloc, &[(class::FromStrError, "unknown class")]);
}

#[test]
fn prints_errors_of_headers(rt: HostRuntime) {
    let full = HeaderCounts::for_message_slice(&[0xff; 12]).inc_qdcount();
    let overflow = full.err().expect(&rt, "an overflow");
    let text = "increasing a header count lead to an overflow";
    assert_prints(&rt, rt.alloc(), "a full count", &overflow, text);
    let token = "XXXX".parse::<Flags>().err().expect(&rt, "an error");
    let text = "illegal flags token";
    assert_prints(&rt, rt.alloc(), "an unknown flag", &token, text);
}
