ghost use Rattle.std.specs.Prelude.{◌≡◌, ◌≤◌, length, Ok};
ghost use Rattle.dns_name.specs.CachedNames.{IsCached, IsCached-prop};
ghost use Rattle.dns_name.specs.Parsers.{input, seen};
ghost use Rattle.dns_code.specs.HeaderSection.{header_size};
ghost use Rattle.dns_item.specs.Questions.{SkipsQuestion, QuestionSkipFaultAt};
ghost use Rattle.dns_read.specs.Sections.{question_count};
ghost use Rattle.dns_read.specs.Skipping.{SkipsAll};

use crate::record_section::RecordSection;
use crate::section::Section;
use dns_code::{HeaderCounts, HeaderSection};
use dns_item::Question;
use dns_name::{CachedName, ParsedName, Parser, cached_at};
use dns_octets::ParseError;

/// A cursor over the questions of a message (RFC 1035 section 4.1.2).
///
/// It yields consecutive questions, at most as many as QDCOUNT. For the first that can't be read it
/// yields an error and then ends.
#[derive(Clone, Copy, Debug)]
pub struct QuestionSection<'a> {
    parser: Parser<'a>,
    /// The count of questions that may still come, or the error that was yielded.
    left: Result<u16, ParseError>,
    /// A cached name: that of the last question yielded, if any. Owner names may point to it.
    cached: CachedName,
    ghost long: { header_size ≤ length (input parser) },
    ghost whole: { seen parser ≡ input parser },
    ghost met: { IsCached (seen parser) cached } by { IsCached-prop (seen parser) cached },
}

impl<'a> QuestionSection<'a> {
    ghost use Rattle.std.specs.Iterator.{YieldsFirstBy};
    ghost use Rattle.dns_read.specs.QuestionSection.{octets_of, position, to_come, questions_left, question_result, MovesPastQuestion};
    ghost use Rattle.dns_read.specs.QuestionsFrom.{questions_from};
    ghost use Rattle.dns_read.specs.RecordSection.{MovesToAnswers};
    ghost use Rattle.dns_read.specs.Skipping.{CountsDown};

    /// The question section of a message with these octets.
    pub(crate) fn new(octets: &'a [u8]) -> Self
        requires { header_size ≤ length octets.now }
        ensures octets { octets_of result ≡ octets.now }
        ensures position { position result ≡ header_size }
        ensures count { to_come result ≡ Ok (question_count octets.now) }
        ensures questions { questions_left result
            ≡ questions_from octets.now (question_count octets.now) header_size }
    {
        let mut parser = Parser::new(octets);
        parser.advance(HeaderSection::LEN).unwrap();
        QuestionSection {
            parser,
            left: Ok(HeaderCounts::for_message_slice(octets).qdcount()),
            cached: CachedName::new(),
        }
    }

    /// The offset after the questions that were yielded, in octets from the start of the message.
    pub fn pos(&self) -> usize
        ensures { result ≡ position self.now }
    {
        self.parser.pos()
    }

    /// The next question, or the error of the first that can't be read, after which the cursor
    /// ends.
    ///
    /// The cursor is then after the question. It doesn't move at a question that can't be read, nor
    /// at the end.
    pub fn next(&mut self) -> Option<Result<Question<ParsedName<'a>>, ParseError>>
        ensures steps { YieldsFirstBy question_result questions_left self.old result self.new }
        ensures moves { MovesPastQuestion self.old self.new result }
        ensures counts { CountsDown (to_come self.old) (to_come self.new) result }
        ensures octets { octets_of self.new ≡ octets_of self.old }
    {
        let left = self.left.ok()?.checked_sub(1)?;
        let start = self.parser.pos();
        match Question::parse(&mut self.parser) {
            Ok(question) => {
                self.left = Ok(left);
                self.cached = cached_at(question.qname(), start);
                Some(Ok(question))
            }
            Err(error) => {
                self.left = Err(error);
                Some(Err(error))
            }
        }
    }

    /// The answer section, which begins after the remaining questions.
    ///
    /// The remaining questions are skipped, so they need not be readable. Returns the error of the
    /// first that can't be skipped, or again the error that the cursor yielded, if any.
    pub fn answer(self) -> Result<RecordSection<'a>, ParseError>
        ensures { MovesToAnswers self.entry result }
    {
        let mut parser = self.parser;
        skip_questions(&mut parser, self.left?)?;
        Ok(RecordSection::at(Section::Answer, parser, self.cached))
    }

    /// The same as `answer`.
    pub fn next_section(self) -> Result<RecordSection<'a>, ParseError>
        ensures { MovesToAnswers self.entry result }
    {
        self.answer()
    }
}

/// Skips `count` questions.
fn skip_questions(parser: &mut Parser<'_>, count: u16) -> Result<(), ParseError>
    ensures { SkipsAll (SkipsQuestion (seen parser.old)) (QuestionSkipFaultAt (seen parser.old))
        count parser.old parser.new result }
{
    for _question in 0..count {
        Question::skip(parser)?;
    }
    Ok(())
}

/// The same as the method `next`.
impl<'a> Iterator for QuestionSection<'a> {
    ghost use Rattle.std.specs.Iterator.{item_count};
    ghost use Rattle.dns_read.specs.QuestionSection.{questions_left, GivesNext};

    type Item = Result<Question<ParsedName<'a>>, ParseError>;

    ghost next_gives = { GivesNext };

    ghost remaining = { item_count questions_left };

    fn next(&mut self) -> Option<Self::Item> {
        QuestionSection::next(self)
    }
}
