ghost use Rattle.std.specs.Prelude.{◌≡◌};

/// A section of records, in the order of a message (RFC 1035 section 4.1).
#[derive(Clone, Copy, Debug, PartialEq, Eq, PartialOrd)]
pub enum Section {
    /// Records that answer the question.
    Answer,
    /// Records that point to an authoritative name server.
    Authority,
    /// Records with additional information.
    Additional,
}

impl Section {
    ghost use Rattle.dns_read.specs.Sections.{section_after};
    ghost use Rattle.dns_read.specs.declared.section.Section.TheVariants.{Answer};

    /// The answer section.
    pub fn first() -> Section
        ensures { result ≡ Answer }
    {
        Section::Answer
    }

    /// The section after this one, or `None` after the additional section.
    pub(crate) fn next(self) -> Option<Section>
        ensures { result ≡ section_after self }
    {
        match self {
            Section::Answer => Some(Section::Authority),
            Section::Authority => Some(Section::Additional),
            Section::Additional => None,
        }
    }
}
