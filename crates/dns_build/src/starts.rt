//! Where the record sections of a message begin.
ghost use Rattle.std.specs.Prelude.{◌≡◌, ◌≤◌};
ghost use Rattle.dns_code.specs.HeaderSection.{header_size};
ghost use Rattle.dns_build.specs.SectionStarts.{AreAfter, EarlierStay, LaterBegin, start_of};

use crate::stage::BuilderStage;
use dns_code::HeaderSection;

/// The offsets at which the record sections begin. Only those up to the builder's stage count.
#[derive(Clone, Copy, Debug)]
pub(crate) struct Starts {
    answers: usize,
    authorities: usize,
    additionals: usize,
}

impl Starts {
    /// All record sections begin after the header section.
    #[inline(always)]
    pub(crate) fn new() -> Self
        ensures { AreAfter result }
    {
        Starts {
            answers: HeaderSection::LEN,
            authorities: HeaderSection::LEN,
            additionals: HeaderSection::LEN,
        }
    }

    /// The offset at which a section begins. Sections are numbered from 1, the question section, to
    /// 4.
    #[inline(always)]
    pub(crate) fn of(&self, section: usize) -> usize
        ensures value { result ≡ start_of section self.now }
        ensures after { AreAfter self.now → header_size ≤ result }
    {
        match section {
            0 | 1 => HeaderSection::LEN,
            2 => self.answers,
            3 => self.authorities,
            _ => self.additionals,
        }
    }

    /// Sets where the sections after the stage's own begin.
    #[inline(always)]
    pub(crate) fn set_later<S: BuilderStage>(&mut self, end: usize)
        ensures later { LaterBegin S.DEPTH end self.new }
        ensures earlier { EarlierStay S.DEPTH self.old self.new }
    {
        if S::DEPTH < 2 {
            self.answers = end;
        }
        if S::DEPTH < 3 {
            self.authorities = end;
        }
        if S::DEPTH < 4 {
            self.additionals = end;
        }
    }
}
