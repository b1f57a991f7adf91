//! What a query asks for, and what its response must say before its answer section (RFC 5936
//! section 2, RFC 1995 section 3).
ghost use Rattle.std.specs.Prelude.{◌≡◌};
ghost use Rattle.dns_code.specs.Header.{fields};
ghost use Rattle.dns_item.specs.ParsedData.{HasSpan};
ghost use Rattle.dns_item.specs.ParsedRecord.{encoded_record};
ghost use Rattle.dns_item.specs.Question.{parsed_question};
ghost use Rattle.dns_name.specs.NameReading.{name_labels};
ghost use Rattle.dns_read.specs.QuestionSection.{questions_left};
ghost use Rattle.dns_read.specs.SameQuestions.{same_question};
ghost use Rattle.dns_transfer.specs.Asked.{asked_by, qtype_of, question_of};
ghost use Rattle.dns_transfer.specs.Kinds.{kind_of};
ghost use Rattle.dns_transfer.specs.Messages.{Reports, header_error, is_wanted};
ghost use Rattle.dns_transfer.specs.Messages.{message_error, question_error};

use crate::error::TransferError;
use crate::grammar::{Kind, Request, State, is_ended};
use crate::kind::kind_within;
use arrayvec::ArrayVec;
use dns_code::Header;
use dns_iana::{Class, Opcode, OptRcode, Rtype};
use dns_item::{ParsedRecord, Question};
use dns_name::{Name, ParsedName, ToName};
use dns_read::QuestionSection;

/// A query for a transfer, as far as its response depends on it.
#[derive(Debug, Drop)]
pub struct Query {
    zone: Name<ArrayVec<u8, 255>>,
    class: u16,
    id: u16,
    /// What is asked for.
    pub(crate) request: Request,
}

impl Query {
    /// The query with this ID, for the zone with this name and class.
    pub fn new(zone: Name<ArrayVec<u8, 255>>, class: Class, id: u16, request: Request) -> Self
        ensures { asked_by result
            ≡ record { zone = name_labels zone; class = class; id = id; request = request } }
    {
        Query {
            zone,
            class: class.to_int(),
            id,
            request,
        }
    }

    /// What a record is to this transfer, or why it may not have the record.
    pub(crate) fn kind_of<'a>(&self, shown: &ParsedRecord<'a>) -> Result<Kind, TransferError>
        requires { HasSpan (encoded_record shown.now) }
        ensures { result ≡ kind_of (asked_by self.now) (encoded_record shown.now) }
    {
        if shown.class().to_int() != self.class {
            return Err(TransferError::WrongClass);
        }
        if !shown.owner().ends_with(&self.zone) {
            return Err(TransferError::OutsideZone);
        }
        kind_within(&self.zone.as_parsed(), shown)
    }

    /// Checks the header, the RCODE and the questions of a message that comes in this state.
    pub(crate) fn check(
        &self,
        state: State,
        header: Header,
        rcode: OptRcode,
        questions: QuestionSection<'_>,
    ) -> Result<(), TransferError>
        ensures { Reports result (message_error (asked_by self.now) state (fields header) rcode
            (questions_left questions.entry)) }
    {
        if is_ended(state) {
            return Err(TransferError::AfterEnd);
        }
        if let Err(error) = check_header(self.id, header, rcode) {
            return Err(error);
        }
        self.check_questions(state, questions)
    }

    /// Checks the questions of a message that comes in this state.
    fn check_questions(
        &self,
        state: State,
        questions: QuestionSection<'_>,
    ) -> Result<(), TransferError>
        ensures { Reports result (question_error (asked_by self.now) state
            (questions_left questions.entry)) }
    {
        let mut questions = questions;
        match questions.next() {
            Some(Ok(question)) => {
                if questions.next().is_some() {
                    return Err(TransferError::WrongQuestion);
                }
                if self.is_asked(&question) {
                    Ok(())
                } else {
                    Err(TransferError::WrongQuestion)
                }
            }
            Some(Err(error)) => Err(TransferError::Parse(error)),
            None => {
                if is_wanted(state) {
                    Err(TransferError::WrongQuestion)
                } else {
                    Ok(())
                }
            }
        }
    }

    /// Whether this is the query's question.
    fn is_asked(&self, question: &Question<ParsedName<'_>>) -> bool
        ensures { result ≡ same_question (parsed_question question.now)
            (question_of (asked_by self.now)) }
    {
        *question.qname() == self.zone.as_parsed()
            && question.qtype() == qtype_of(self.request)
            && question.qclass().to_int() == self.class
    }
}

/// QTYPE of a query.
fn qtype_of(request: Request) -> Rtype
    ensures { result ≡ qtype_of request }
{
    match request {
        Request::Axfr => Rtype::AXFR,
        Request::Ixfr(_) => Rtype::IXFR,
    }
}

/// Checks the header and the RCODE of a response to the query with this ID.
fn check_header(id: u16, header: Header, rcode: OptRcode) -> Result<(), TransferError>
    ensures { Reports result (header_error id (fields header) rcode) }
{
    if header.id() != id {
        return Err(TransferError::WrongId);
    }
    if !header.qr() || header.opcode() != Opcode::QUERY {
        return Err(TransferError::NoResponse);
    }
    if rcode != OptRcode::NOERROR {
        return Err(TransferError::Rcode(rcode.to_int()));
    }
    if header.tc() {
        return Err(TransferError::Truncated);
    }
    Ok(())
}

/// Whether no record was read.
fn is_wanted(state: State) -> bool
    ensures { result ≡ is_wanted state }
{
    match state {
        State::Wanted => true,
        _ => false,
    }
}
