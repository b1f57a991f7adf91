//! Theorems on reading sections, on their order and on clones of cursors. The functions do nothing:
//! each contract is a theorem over all octets, sections or cursors.
ghost use Rattle.std.specs.Prelude.{◌≡◌, ◌↔◌, IsTrue, Some};
ghost use Rattle.dns_read.specs.QuestionsFrom.{QuestionsFromAreRead};
ghost use Rattle.dns_read.specs.RecordsFrom.{RecordsFromAreRead};
ghost use Rattle.dns_read.specs.Readings.{OneReadingOfQuestions, OneReadingOfRecords, OneStart, StartOrFault, ReadingsOfQuestionsEnd, ReadingsOfRecordsEnd};
ghost use Rattle.dns_read.specs.Readings.{QuestionsSkipOrStop, RecordsSkipOrStop};
ghost use Rattle.dns_read.specs.SectionOrder.{section_order};
ghost use Rattle.dns_read.specs.declared.section.Section.{Section};

use crate::question_section::QuestionSection;
use crate::record_section::RecordSection;
use crate::section::Section;

/// From each offset there is exactly one reading of at most n questions, and exactly one of at most
/// n records.
pub fn one_reading()
    ensures questions { OneReadingOfQuestions }
    ensures records { OneReadingOfRecords }
    ensures questions_from { QuestionsFromAreRead }
    ensures records_from { RecordsFromAreRead }
{}

/// A reading of at most n entries has at most n items, and at most one fault, which is its last
/// item.
pub fn readings_end()
    ensures questions { ReadingsOfQuestionsEnd }
    ensures records { ReadingsOfRecordsEnd }
{}

/// From each offset, either n questions can be skipped, to exactly one end, or exactly one fault
/// prevents it; never both. The same holds for records. So the result of skipping the remaining
/// entries of a section is determined.
pub fn skipped_or_stopped()
    ensures questions { QuestionsSkipOrStop }
    ensures records { RecordsSkipOrStop }
{}

/// Each section starts at one offset at most.
pub fn one_start()
    ensures { OneStart }
{}

/// Each section starts at exactly one offset or has exactly one fault, never both.
pub fn start_or_fault()
    ensures { StartOrFault }
{}

/// Sections compare by their order in a message.
pub fn sections_compare()
    ensures { (first second : Section) → ⟦<Section as PartialOrd>⟧.partial_cmp first second
        ≡ Some (section_order first second) }
{}

/// Two sections are equal if and only if they are the same.
pub fn section_equality()
    ensures { (a b : _) → IsTrue (⟦<Section as PartialEq>⟧.eq a b) ↔ (a ≡ b) }
{}

/// A clone of a cursor is the same cursor, so it yields the same entries.
pub fn cursor_clones()
    ensures questions { (a b : _) → ⟦<QuestionSection<'static> as Clone>⟧.is_clone a b → b ≡ a }
    ensures records { (a b : _) → ⟦<RecordSection<'static> as Clone>⟧.is_clone a b → b ≡ a }
    ensures section { (a b : _) → ⟦<Section as Clone>⟧.is_clone a b → b ≡ a }
{}

/// Cloning a cursor never fails.
pub fn cursor_clones_never_fail()
    ensures questions { (a : _) → ⟦<QuestionSection<'static> as Clone>⟧.is_infallible a }
    ensures records { (a : _) → ⟦<RecordSection<'static> as Clone>⟧.is_infallible a }
    ensures section { (a : _) → ⟦<Section as Clone>⟧.is_infallible a }
{}
