//! Proved callers: sections of records compare by their order in a message (RFC 1035 section 4.1).
ghost use Rattle.std.specs.Prelude.{◌≡◌, ◌<◌, ◌↔◌, IsTrue, Some};
ghost use Rattle.dns_read.specs.SectionOrder.{sections_before, section_order};

use dns_read::Section;
use std::cmp::Ordering;

/// Whether two sections are the same.
fn is_same_section(first: Section, second: Section) -> bool
    ensures { IsTrue result ↔ (first ≡ second) }
{
    first == second
}

/// How two sections compare.
fn compare_sections(first: Section, second: Section) -> Option<Ordering>
    ensures { result ≡ Some (section_order first second) }
{
    first.partial_cmp(&second)
}

/// Whether a section precedes another one.
fn comes_before(first: Section, second: Section) -> bool
    ensures { IsTrue result ↔ (sections_before first < sections_before second) }
{
    first < second
}
