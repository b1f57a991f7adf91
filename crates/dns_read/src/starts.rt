//! The first section of a message, and the section after one that isn't the last.
ghost use Rattle.std.specs.Prelude.{◌≡◌, ◌≢◌, ◌≤◌, length, Ok};
ghost use Rattle.dns_code.specs.HeaderSection.{header_size};
ghost use Rattle.dns_read.specs.QuestionSection.{octets_of, position, to_come, questions_left};
ghost use Rattle.dns_read.specs.QuestionsFrom.{questions_from};
ghost use Rattle.dns_read.specs.RecordSection.{section_of, MovesToNext};
ghost use Rattle.dns_read.specs.Sections.{question_count};
ghost use Rattle.dns_read.specs.declared.section.Section.TheVariants.{Additional};

use crate::question_section::QuestionSection;
use crate::record_section::RecordSection;
use dns_octets::ParseError;

/// The question section of a message with these octets, at least 12.
#[inline(always)]
pub fn first_section<'a>(octets: &'a [u8]) -> QuestionSection<'a>
    requires { header_size ≤ length octets.now }
    ensures octets { octets_of result ≡ octets.now }
    ensures position { position result ≡ header_size }
    ensures count { to_come result ≡ Ok (question_count octets.now) }
    ensures questions { questions_left result
        ≡ questions_from octets.now (question_count octets.now) header_size }
{
    QuestionSection::new(octets)
}

/// The section after one that isn't the additional section.
#[inline(always)]
pub fn following<'a>(section: RecordSection<'a>) -> Result<RecordSection<'a>, ParseError>
    requires { section_of section ≢ Additional }
    ensures { MovesToNext section.entry result }
{
    Ok(section.next_section()?.unwrap())
}
