//! Names in presentation format, read and printed. Other texts, also as names in arrays, are in the
//! questions of `cases_rdata`.
use crate::asserts::{assert_octets, assert_prints, assert_same, name_at, name_of};
use dns_wire::Name;
use dns_wire::name::{FromStrError, PresentationError};

const EMPTY_LABEL: FromStrError = FromStrError::Presentation(PresentationError::EmptyLabel);

const BAD_ESCAPE: FromStrError = FromStrError::Presentation(PresentationError::BadEscape);

#[test]
fn reads_and_prints(rt: HostRuntime) {
    let row = "Name text escapes";
    let alloc = rt.alloc();
    let refused = [
        Name::vec_from_str(alloc, "a..b").err(),
        Name::vec_from_str(alloc, "a\\256").err(),
    ];
    assert_same(&rt, row, refused, [Some(EMPTY_LABEL), Some(BAD_ESCAPE)]);
    let name = Name::vec_from_str(alloc, "a\\.\\200b.").expect(&rt, row);
    assert_octets(&rt, row, name.as_slice(), b"\x04\x61\x2e\xc8\x62\x00");
    assert_prints(&rt, alloc, row, &name, "a\\.\\200b");
}

/// A final dot is in the suffixes of `names`, which are parsed names.
#[test]
fn prints_parsed_names_and_a_final_dot(rt: HostRuntime) {
    let name = name_at(&rt, b"\x03com\x00\x07ex.mple\xC0\x00", 5);
    assert_prints(&rt, rt.alloc(), "a parsed name", &name, "ex\\.mple.com");
    let name = name_of(&rt, b"\x02a.\x03COM\x00");
    let shown = name.fmt_with_dot();
    assert_prints(&rt, rt.alloc(), "a name", &shown, "a\\..COM.");
}
