//! Whether the remaining questions of two cursors are the same (RFC 1035 section 4.1.2).
ghost use Rattle.std.specs.Prelude.{◌≡◌};
ghost use Rattle.dns_read.specs.QuestionSection.{question_result, questions_left};
ghost use Rattle.dns_read.specs.SameQuestions.{same_item, same_readings};

use crate::question_section::QuestionSection;
use dns_item::Question;
use dns_name::ParsedName;
use dns_octets::ParseError;

impl QuestionSection<'_> {
    /// Whether this cursor and another have the same remaining questions, in order and without an
    /// error.
    ///
    /// Two questions are the same if their types and classes are equal and their names are,
    /// ignoring ASCII case.
    pub fn same_questions(&self, other: &QuestionSection<'_>) -> bool
        ensures { result ≡ same_readings (questions_left self.now) (questions_left other.now) }
    {
        let mut questions = *self;
        let mut others = *other;
        while let Some(question) = questions.next() {
            let Some(other) = others.next() else {
                return false;
            };
            if !same_answers(question, other) {
                return false;
            }
        }
        others.next().is_none()
    }
}

/// Whether both results are the same question.
fn same_answers(
    answer: Result<Question<ParsedName<'_>>, ParseError>,
    other: Result<Question<ParsedName<'_>>, ParseError>,
) -> bool
    ensures { result ≡ same_item (question_result answer.entry) (question_result other.entry) }
{
    match (answer, other) {
        (Ok(question), Ok(other)) => question == other,
        _ => false,
    }
}
