//! The question of a query.
ghost use Rattle.std.specs.Prelude.{ℕ, IfOk, IfErr};
ghost use Rattle.dns_name.specs.Names.{fault_of};
ghost use Rattle.dns_code.specs.HeaderSection.{header_size};
ghost use Rattle.dns_item.specs.Question.{parsed_question};
ghost use Rattle.dns_item.specs.Questions.{QuestionFaultAt, ReadsQuestion};

use crate::walk::parser_at;
use dns_code::HeaderSection;
use dns_item::Question;
use dns_name::ParsedName;
use dns_octets::ParseError;

/// Parses the question after the header section.
pub fn first_question(query: &[u8]) -> Result<Question<ParsedName<'_>>, ParseError>
    ensures question { IfOk result (λ question. (after : ℕ)
        × ReadsQuestion query.now header_size after (parsed_question question)) }
    ensures none { IfErr result (λ error.
        QuestionFaultAt query.now header_size (fault_of error)) }
{
    let mut parser = parser_at(query, HeaderSection::LEN)?;
    Question::parse(&mut parser)
}
