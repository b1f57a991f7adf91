//! Searches in the questions of a message (RFC 1035 section 4.1).
ghost use Rattle.std.specs.Prelude.{◌≡◌, ◌<◌, ◌↔◌, Some, Err, option_map, IsTrue};
ghost use Rattle.dns_item.specs.Question.{parsed_question};
ghost use Rattle.dns_read.specs.Message.{message_octets};
ghost use Rattle.dns_read.specs.QuestionSection.{question_result};
ghost use Rattle.dns_read.specs.Searches.{questions_of, first_item, asked_first, asked_type, AsksForTransfer, answers_query};
ghost use Rattle.dns_read.specs.Sections.{question_count};

use crate::message::Message;
use dns_iana::Rtype;
use dns_item::Question;
use dns_name::ParsedName;
use dns_octets::{FormError, Octets, ParseError};

impl<Octs: Octets> Message<Octs> {
    /// The first question. Returns `None` if there is none or it can't be read.
    pub fn first_question(&self) -> Option<Question<ParsedName<'_>>>
        ensures { option_map parsed_question result ≡ asked_first (message_octets self.now) }
    {
        self.question().next()?.ok()
    }

    /// The QTYPE of the first question. Returns `None` if there is no question or it can't be read.
    pub fn qtype(&self) -> Option<Rtype>
        ensures { result ≡ asked_type (message_octets self.now) }
    {
        Some(self.first_question()?.qtype())
    }

    /// Whether the first question asks for a zone transfer, by IXFR (RFC 1995 section 3) or AXFR
    /// (RFC 5936 section 2).
    pub fn is_xfr(&self) -> bool
        ensures { IsTrue result ↔ AsksForTransfer (message_octets self.now) }
    {
        match self.qtype() {
            Some(rtype) => rtype == Rtype::IXFR || rtype == Rtype::AXFR,
            None => false,
        }
    }

    /// Whether this message is a response to `query`: QR is set, and the IDs and QDCOUNTs are equal
    /// (RFC 1035 section 4.1.1). All questions must be well-formed, equal, and in the same order.
    pub fn is_answer<Other: Octets>(&self, query: &Message<Other>) -> bool
        ensures { result ≡ answers_query (message_octets self.now) (message_octets query.now) }
    {
        let header = self.header();
        header.qr()
            && header.id() == query.header().id()
            && self.header_counts().qdcount() == query.header_counts().qdcount()
            && self.question().same_questions(&query.question())
    }

    /// The question of a message that has exactly one by QDCOUNT.
    ///
    /// Errors: `NO_QUESTION` if QDCOUNT is 0, `MULTIPLE_QUESTIONS` if it is more than 1; else the
    /// error of the question if it can't be read.
    pub fn sole_question(&self) -> Result<Question<ParsedName<'_>>, ParseError>
        ensures none { question_count (message_octets self.now) ≡ 0
            → result ≡ Err (ParseError.Form FormError.NO_QUESTION) }
        ensures many { 1 < question_count (message_octets self.now)
            → result ≡ Err (ParseError.Form FormError.MULTIPLE_QUESTIONS) }
        ensures one { question_count (message_octets self.now) ≡ 1
            → Some (question_result result) ≡ first_item (questions_of (message_octets self.now)) }
    {
        if self.header_counts().qdcount() > 1 {
            return Err(ParseError::Form(FormError::MULTIPLE_QUESTIONS));
        }
        match self.question().next() {
            Some(answer) => answer,
            None => Err(ParseError::Form(FormError::NO_QUESTION)),
        }
    }
}
