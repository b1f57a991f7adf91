//! Starting an answer to a message (RFC 1035 section 4.1).
ghost use Rattle.std.specs.Prelude.{◌≡◌};
ghost use Rattle.dns_code.specs.Header.{fields};
ghost use Rattle.dns_read.specs.Message.{message_octets};
ghost use Rattle.dns_build.specs.State.{InBuilder, InQuestion};
ghost use Rattle.dns_build.specs.BuilderStates.{InEach, MovesState};
ghost use Rattle.dns_build.specs.Answers.{answer_header, answering, readable_questions, Asks, GivesAnswer, GivesEither, IsEither};

use crate::builder::{AnswerBuilder, Builder, QuestionBuilder};
use crate::opt::with_rcode;
use crate::push_error::PushError;
use crate::stage::AtBuilder;
use dns_code::Header;
use dns_iana::Rcode;
use dns_octets::Octets;
use dns_read::Message;
use dns_wire::Composer;

impl<T: Composer> Builder<T, AtBuilder> {
    /// Starts an answer to the given message.
    ///
    /// Sets QR and the rcode, and copies ID, opcode and RD from the message. The other header
    /// fields stay (RFC 1035 section 4.1.1). Then pushes the message's questions up to the first
    /// malformed one. A malformed question is no error.
    ///
    /// Returns the error of the first push that fails. The builder is dropped then.
    pub fn start_answer<Octs: Octets>(
        self,
        msg: &Message<Octs>,
        rcode: Rcode,
    ) -> Result<AnswerBuilder<T>, PushError>
        ensures { InEach InBuilder T.rule self (λ s.
            let b = message_octets msg.now in
            GivesAnswer T.capacity T.grows T.rule
            (answering rcode b s) (readable_questions b) result) }
    {
        let mut builder = self.answering(msg, rcode);
        match push_questions(&mut builder, msg) {
            Ok(()) => Ok(builder.answer()),
            Err(error) => Err(error),
        }
    }

    /// Like `start_answer`, but keeps the builder if a push fails. It returns `Err` with that
    /// builder, which has the questions before the failed one and the rcode SERVFAIL. A failed
    /// allocation fails a push too.
    pub fn try_start_answer<Octs: Octets>(
        self,
        msg: &Message<Octs>,
        rcode: Rcode,
    ) -> Result<AnswerBuilder<T>, AnswerBuilder<T>>
        ensures { InEach InBuilder T.rule self (λ s.
            let b = message_octets msg.now in
            GivesEither T.capacity T.grows T.rule
            (answering rcode b s) (readable_questions b) result) }
    {
        let mut builder = self.answering(msg, rcode);
        match push_questions(&mut builder, msg) {
            Ok(()) => Ok(builder.answer()),
            Err(_) => {
                builder.set_header(with_rcode(builder.header(), Rcode::SERVFAIL));
                Err(builder.answer())
            }
        }
    }

    /// Starts an error response to the given message.
    ///
    /// Returns the builder that `try_start_answer` returns, be it `Ok` or `Err`. So a failed push
    /// of a question only shows as the rcode SERVFAIL.
    pub fn start_error<Octs: Octets>(self, msg: &Message<Octs>, rcode: Rcode) -> AnswerBuilder<T>
        ensures { InEach InBuilder T.rule self (λ s.
            let b = message_octets msg.now in
            IsEither T.capacity T.grows T.rule
            (answering rcode b s) (readable_questions b) result) }
    {
        match self.try_start_answer(msg, rcode) {
            Ok(builder) => builder,
            Err(builder) => builder,
        }
    }

    /// The question builder of an answer: with its header, and without questions.
    fn answering<Octs: Octets>(self, msg: &Message<Octs>, rcode: Rcode) -> QuestionBuilder<T>
        ensures { MovesState InBuilder InQuestion T.rule
            (answering rcode (message_octets msg.now)) self result }
    {
        let mut builder = self;
        builder.set_header(answer_header(rcode, msg.header(), builder.header()));
        builder.question()
    }
}

/// Pushes the questions of a message up to the first malformed one. Returns the error of the first
/// push that fails.
pub(crate) fn push_questions<T: Composer, Octs: Octets>(
    builder: &mut QuestionBuilder<T>,
    msg: &Message<Octs>,
) -> Result<(), PushError>
    ensures { InEach InQuestion T.rule builder.old (λ s. Asks T.capacity T.grows T.rule s
        (readable_questions (message_octets msg.now)) result builder.new) }
{
    let mut asked = msg.question();
    while let Some(question) = asked.next() {
        let Ok(question) = question else {
            return Ok(());
        };
        if let Err(error) = builder.push(question) {
            return Err(error);
        }
    }
    Ok(())
}

/// The header of an answer: ID, opcode and RD of `asked`, QR, and the rcode. The other fields are
/// those of `own`.
fn answer_header(rcode: Rcode, asked: Header, own: Header) -> Header
    ensures { fields result ≡ answer_header rcode (fields asked) (fields own) }
{
    let mut header = own;
    header.set_id(asked.id());
    header.set_qr(true);
    header.set_opcode(asked.opcode());
    header.set_rd(asked.rd());
    header.set_rcode(rcode);
    header
}
