//! Questions (RFC 1035 section 4.1.2).
ghost use Rattle.std.specs.Prelude.{◌≡◌};
ghost use Rattle.dns_wire.specs.Targets.{Composes};
ghost use Rattle.dns_item.specs.Questions.{QuestionItem, IsQuestion, encode_question};
ghost use Rattle.dns_item.specs.Question.{qname_of, qtype_of, qclass_of, HasFields, question_item, ParsesQuestion, SkipsOverQuestion};

pub use crate::question_error::{FromStrError, PresentationError, PresentationErrorEnum};
use dns_iana::{Class, Rtype};
use dns_name::{ParsedName, Parser, ToName};
use dns_octets::{AppendError, ParseError};
use dns_wire::Composer;

/// A question: a name, a record type and a class (RFC 1035 section 4.1.2).
#[derive(Clone, Copy, Debug, PartialEq, Eq, PartialOrd, Ord, Hash, Drop)]
pub struct Question<N> {
    qname: N,
    qtype: u16,
    qclass: u16,
}

impl<N> Question<N> {
    /// A question for the records of a name with this type and class.
    pub fn new(qname: N, qtype: Rtype, qclass: Class) -> Self
        ensures qname { qname_of result ≡ qname }
        ensures qtype { qtype_of result ≡ qtype }
        ensures qclass { qclass_of result ≡ qclass }
    {
        Question {
            qname,
            qtype: qtype.to_int(),
            qclass: qclass.to_int(),
        }
    }

    /// A question in the class IN.
    pub fn new_in(qname: N, qtype: Rtype) -> Self
        ensures qname { qname_of result ≡ qname }
        ensures qtype { qtype_of result ≡ qtype }
        ensures qclass { qclass_of result ≡ 1 }
    {
        Question::new(qname, qtype, Class::IN)
    }

    /// QNAME: the name.
    pub fn qname(&self) -> &N
        ensures { result.now ≡ qname_of self.now }
    {
        &self.qname
    }

    /// Takes out the name.
    pub fn into_qname(self) -> N
        ensures { result ≡ qname_of self }
    {
        let Question { qname, .. } = self;
        qname
    }

    /// QTYPE: the record type.
    pub fn qtype(&self) -> Rtype
        ensures { result ≡ qtype_of self.now }
    {
        Rtype::from_int(self.qtype)
    }

    /// QCLASS: the class.
    pub fn qclass(&self) -> Class
        ensures { result ≡ qclass_of self.now }
    {
        Class::from_int(self.qclass)
    }
}

/// The question with a name, a type and a class.
impl<N> From<(N, Rtype, Class)> for Question<N> {
    ghost from_gives = { λ fields question. HasFields question fields.0 fields.1 fields.2 };

    fn from((qname, qtype, qclass): (N, Rtype, Class)) -> Self {
        Question::new(qname, qtype, qclass)
    }
}

/// A question in the class IN.
impl<N> From<(N, Rtype)> for Question<N> {
    ghost from_gives = { λ fields question. HasFields question fields.0 fields.1 1 };

    fn from((qname, qtype): (N, Rtype)) -> Self {
        Question::new_in(qname, qtype)
    }
}

impl<'a> Question<ParsedName<'a>> {
    /// Reads the question at the parser's offset and advances past it.
    ///
    /// Returns the error of its name, or `ShortInput` if the four octets after the name aren't all
    /// there. The parser doesn't move on error.
    pub fn parse(parser: &mut Parser<'a>) -> Result<Self, ParseError>
        ensures { ParsesQuestion parser.old parser.new result }
    {
        let mut ahead = *parser;
        let qname = ParsedName::parse(&mut ahead)?;
        let qtype = Rtype::from_int(ahead.parse_u16_be()?);
        let qclass = Class::from_int(ahead.parse_u16_be()?);
        *parser = ahead;
        Ok(Question::new(qname, qtype, qclass))
    }
}

impl Question<()> {
    /// Skips a question without following a pointer in its name.
    ///
    /// Returns the error of skipping its name, or `ShortInput` if the four octets after the name
    /// aren't all there. The parser doesn't move on error.
    pub fn skip(parser: &mut Parser<'_>) -> Result<(), ParseError>
        ensures { SkipsOverQuestion parser.old parser.new result }
    {
        let mut ahead = *parser;
        ParsedName::skip(&mut ahead)?;
        ahead.advance(4)?;
        *parser = ahead;
        Ok(())
    }
}

impl<N: ToName> Question<N> {
    /// Appends the question: its name by the target's compression rule, then type and class.
    ///
    /// On error the content still begins with the old content. A `truncate` to the old length
    /// restores the old target.
    #[inline(always)]
    pub fn compose<T: Composer>(&self, target: &mut T) -> Result<(), AppendError>
        ensures composes { Composes T.capacity T.grows
            (encode_question T.rule (question_item N.name self.now)) (T.written target.old)
            (T.written target.new) result }
        ensures item { IsQuestion (question_item N.name self.now) }
    {
        let [a, b] = self.qtype().to_int().to_be_bytes();
        let [c, d] = self.qclass().to_int().to_be_bytes();
        target.append_compressed_name(&self.qname)?;
        target.append_slice(&[a, b, c, d])
    }
}

/// A value that can be pushed into a question section.
pub trait ComposeQuestion {
    /// The question.
    ghost question: { Self → QuestionItem };

    /// Appends the question, as `Question::compose` does.
    fn compose_question<T: Composer>(&self, target: &mut T) -> Result<(), AppendError>
        ensures composes { Composes T.capacity T.grows (encode_question T.rule (question self.now))
            (T.written target.old) (T.written target.new) result }
        ensures item { IsQuestion (question self.now) };
}

impl<N: ToName> ComposeQuestion for Question<N> {
    ghost question = { λ q. question_item N.name q };

    #[inline(always)]
    fn compose_question<T: Composer>(&self, target: &mut T) -> Result<(), AppendError> {
        self.compose(target)
    }
}

impl<Q: ComposeQuestion> ComposeQuestion for &Q {
    ghost question = { λ q. Q.question q.now };

    #[inline(always)]
    fn compose_question<T: Composer>(&self, target: &mut T) -> Result<(), AppendError> {
        (**self).compose_question(target)
    }
}

impl<N: ToName> ComposeQuestion for (N, Rtype, Class) {
    ghost question = { λ fields.
        record { name = N.name fields.0; rtype = fields.1; class = fields.2 } };

    #[inline(always)]
    fn compose_question<T: Composer>(&self, target: &mut T) -> Result<(), AppendError> {
        let (qname, qtype, qclass) = self;
        Question::new(qname, *qtype, *qclass).compose(target)
    }
}

/// A question in the class IN.
impl<N: ToName> ComposeQuestion for (N, Rtype) {
    ghost question = { λ fields. record { name = N.name fields.0; rtype = fields.1; class = 1 } };

    #[inline(always)]
    fn compose_question<T: Composer>(&self, target: &mut T) -> Result<(), AppendError> {
        let (qname, qtype) = self;
        Question::new_in(qname, *qtype).compose(target)
    }
}
