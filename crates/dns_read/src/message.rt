//! `Message`, its methods and their contracts, and the cursors and iterators that it returns.
ghost use Rattle.std.specs.Prelude.{◌≡◌, ◌≢◌, ◌↔◌, ◌<◌, ◌≤◌, ◌+◌, ◌-◌, length, take, drop, slice_range, IsTrue, Ok, IfOk, IfErr, IsErr};
ghost use Rattle.dns_code.specs.HeaderSection.{header_size};

pub use crate::any_record_iter::AnyRecordIter;
pub use crate::error::ShortMessage;
pub use crate::message_iter::MessageIter;
pub use crate::question_section::QuestionSection;
pub use crate::record_iter::RecordIter;
pub use crate::record_section::RecordSection;
pub use crate::section::Section;
use crate::starts::{first_section, following};
use dns_code::{Header, HeaderCounts, HeaderSection};
use dns_iana::Rcode;
use dns_octets::{Octets, OctetsMut, ParseError};
use std::alloc::AllocError;
use std::convert::AsSlice;

/// A message: at least 12 octets, of which the first 12 are the header section (RFC 1035 section
/// 4.1).
///
/// Creating one checks nothing else. What follows the header section is read on demand.
#[derive(Debug, Drop)]
pub struct Message<Octs: Octets> {
    octets: Octs,
    ghost long: { header_size ≤ length (Octs.octets octets) },
}

impl<'a> Message<&'a [u8]> {
    ghost use Rattle.dns_read.specs.Message.{message_octets};

    /// The message with these octets. Returns `ShortMessage` if they are fewer than 12.
    pub fn from_slice(slice: &'a [u8]) -> Result<Self, ShortMessage>
        ensures octets { IfOk result (λ message. message_octets message ≡ slice.now) }
        ensures short { IsErr result ↔ (length slice.now < header_size) }
    {
        Message::from_octets(slice)
    }
}

impl<Octs: Octets> Message<Octs> {
    ghost use Rattle.dns_code.specs.Header.{fields_in, header_octets};
    ghost use Rattle.dns_code.specs.HeaderCounts.{counts, counts_octets};
    ghost use Rattle.dns_code.specs.HeaderSection.{section_octets};
    ghost use Rattle.dns_read.specs.Message.{buffer_of, message_octets};
    ghost use Rattle.dns_read.specs.QuestionSection.{octets_of, position, to_come, questions_left, BeginsQuestions};
    ghost use Rattle.dns_read.specs.QuestionsFrom.{questions_from};
    ghost use Rattle.dns_read.specs.RecordSection.{BeginsSection};
    ghost use Rattle.dns_read.specs.Sections.{question_count, answer_count, authority_count, additional_count, AnswersFault, AuthoritiesFault, AdditionalsFault};
    ghost use Rattle.dns_read.specs.declared.section.Section.TheVariants.{Answer, Authority, Additional};
    ghost use Rattle.dns_name.specs.Names.{fault_of};

    /// The message with these octets. Returns `ShortMessage` if they are fewer than 12.
    pub fn from_octets(octets: Octs) -> Result<Self, ShortMessage>
        ensures buffer { IfOk result (λ message. buffer_of message ≡ octets) }
        ensures short { IsErr result ↔ (length (Octs.octets octets) < header_size) }
    {
        Message::try_from_octets(octets).map_err(|_| ShortMessage)
    }

    /// The message with these octets. Returns them as the error if they are fewer than 12.
    pub fn try_from_octets(octets: Octs) -> Result<Self, Octs>
        ensures buffer { IfOk result (λ message. buffer_of message ≡ octets) }
        ensures back { IfErr result (λ refused. refused ≡ octets) }
        ensures short { IsErr result ↔ (length (Octs.octets octets) < header_size) }
    {
        if octets.octets().len() < HeaderSection::LEN {
            return Err(octets);
        }
        Ok(Message::from_octets_unchecked(octets))
    }

    /// The message with these octets, which are known to be at least 12.
    ///
    /// A caller that lends a buffer for a message that is changed in place takes this call: then it
    /// also knows which octets the buffer has afterwards.
    pub fn from_octets_unchecked(octets: Octs) -> Self
        requires { header_size ≤ length (Octs.octets octets) }
        ensures { buffer_of result ≡ octets }
    {
        Message { octets }
    }

    /// The same message, over a slice of its octets.
    pub fn for_slice(&self) -> Message<&[u8]>
        ensures { message_octets result ≡ message_octets self.now }
    {
        self.for_slice_ref()
    }

    /// The same message, over a slice of its octets.
    pub fn for_slice_ref(&self) -> Message<&[u8]>
        ensures { message_octets result ≡ message_octets self.now }
    {
        Message::from_octets_unchecked(self.octets.octets())
    }

    /// The octets, as the message stores them.
    pub fn as_octets(&self) -> &Octs
        ensures { result.now ≡ buffer_of self.now }
    {
        &self.octets
    }

    /// Converts the message into its octets.
    pub fn into_octets(self) -> Octs
        ensures { result ≡ buffer_of self }
    {
        let Message { octets } = self;
        octets
    }

    /// The octets as a slice.
    pub fn as_slice(&self) -> &[u8]
        ensures octets { result.now ≡ message_octets self.now }
        ensures long { header_size ≤ length result.now }
    {
        self.octets.octets()
    }

    /// A copy of the header.
    pub fn header(&self) -> Header
        ensures { header_octets result ≡ take 4 (message_octets self.now) }
    {
        Header::for_message_slice(self.as_slice())
    }

    /// A copy of the counts of the sections.
    pub fn header_counts(&self) -> HeaderCounts
        ensures octets { counts_octets result
            ≡ slice_range (message_octets self.now) 4 header_size }
        ensures qdcount { (counts result).qdcount ≡ question_count (message_octets self.now) }
        ensures ancount { (counts result).ancount ≡ answer_count (message_octets self.now) }
        ensures nscount { (counts result).nscount ≡ authority_count (message_octets self.now) }
        ensures arcount { (counts result).arcount ≡ additional_count (message_octets self.now) }
    {
        HeaderCounts::for_message_slice(self.as_slice())
    }

    /// A copy of the header section: the header and the counts.
    pub fn header_section(&self) -> HeaderSection
        ensures { section_octets result ≡ take header_size (message_octets self.now) }
    {
        HeaderSection::for_message_slice(self.as_slice())
    }

    /// Whether the RCODE of the header is `NOERROR` (0).
    pub fn no_error(&self) -> bool
        ensures { IsTrue result ↔ ((fields_in (take 4 (message_octets self.now))).rcode ≡ 0) }
    {
        self.header().rcode() == Rcode::NOERROR
    }

    /// Whether the RCODE of the header isn't `NOERROR` (0).
    pub fn is_error(&self) -> bool
        ensures { IsTrue result ↔ ((fields_in (take 4 (message_octets self.now))).rcode ≢ 0) }
    {
        self.header().rcode() != Rcode::NOERROR
    }

    /// The question section.
    pub fn question(&self) -> QuestionSection<'_>
        ensures octets { octets_of result ≡ message_octets self.now }
        ensures position { position result ≡ header_size }
        ensures count { to_come result ≡ Ok (question_count (message_octets self.now)) }
        ensures questions { let b = message_octets self.now in questions_left result
            ≡ questions_from b (question_count b) header_size }
    {
        first_section(self.as_slice())
    }

    /// The zone section of an UPDATE message, which is the question section (RFC 2136 section 2.3).
    pub fn zone(&self) -> QuestionSection<'_>
        ensures octets { octets_of result ≡ message_octets self.now }
        ensures position { position result ≡ header_size }
        ensures count { to_come result ≡ Ok (question_count (message_octets self.now)) }
        ensures questions { let b = message_octets self.now in questions_left result
            ≡ questions_from b (question_count b) header_size }
    {
        self.question()
    }

    /// The answer section, which begins after the questions. Returns the error of the first
    /// question that can't be skipped.
    pub fn answer(&self) -> Result<RecordSection<'_>, ParseError>
        ensures starts { IfOk result (λ section. BeginsSection Answer (message_octets self.now)
            section) }
        ensures fault { IfErr result (λ e. AnswersFault (message_octets self.now) (fault_of e)) }
    {
        self.question().answer()
    }

    /// The prerequisite section of an UPDATE message, which is the answer section (RFC 2136 section
    /// 2.4).
    pub fn prerequisite(&self) -> Result<RecordSection<'_>, ParseError>
        ensures starts { IfOk result (λ section. BeginsSection Answer (message_octets self.now)
            section) }
        ensures fault { IfErr result (λ e. AnswersFault (message_octets self.now) (fault_of e)) }
    {
        self.answer()
    }

    /// The authority section, which begins after the answer section. Returns the error of the first
    /// entry before it that can't be skipped.
    pub fn authority(&self) -> Result<RecordSection<'_>, ParseError>
        ensures starts { IfOk result (λ section. BeginsSection Authority (message_octets self.now)
            section) }
        ensures fault { IfErr result (λ e. AuthoritiesFault (message_octets self.now)
            (fault_of e)) }
    {
        following(self.answer()?)
    }

    /// The update section of an UPDATE message, which is the authority section (RFC 2136 section
    /// 2.5).
    pub fn update(&self) -> Result<RecordSection<'_>, ParseError>
        ensures starts { IfOk result (λ section. BeginsSection Authority (message_octets self.now)
            section) }
        ensures fault { IfErr result (λ e. AuthoritiesFault (message_octets self.now)
            (fault_of e)) }
    {
        self.authority()
    }

    /// The additional section, which begins after the authority section. Returns the error of the
    /// first entry before it that can't be skipped.
    pub fn additional(&self) -> Result<RecordSection<'_>, ParseError>
        ensures starts { IfOk result (λ section. BeginsSection Additional (message_octets self.now)
            section) }
        ensures fault { IfErr result (λ e. AdditionalsFault (message_octets self.now)
            (fault_of e)) }
    {
        following(self.authority()?)
    }

    /// The question, answer, authority and additional sections. Returns the error of the first
    /// entry before the additional section that can't be skipped.
    pub fn sections(
        &self,
    ) -> Result<
        (
            QuestionSection<'_>,
            RecordSection<'_>,
            RecordSection<'_>,
            RecordSection<'_>,
        ),
        ParseError,
    >
        ensures question { IfOk result (λ sections. BeginsQuestions (message_octets self.now)
            sections.0) }
        ensures answer { IfOk result (λ sections. BeginsSection Answer (message_octets self.now)
            sections.1) }
        ensures authority { IfOk result (λ sections. BeginsSection Authority
            (message_octets self.now) sections.2) }
        ensures additional { IfOk result (λ sections. BeginsSection Additional
            (message_octets self.now) sections.3) }
        ensures fault { IfErr result (λ e. AdditionalsFault (message_octets self.now)
            (fault_of e)) }
    {
        let question = self.question();
        let answer = question.answer()?;
        let authority = following(answer)?;
        let additional = following(authority)?;
        Ok((question, answer, authority, additional))
    }
}

impl<Octs: OctetsMut> Message<Octs> {
    ghost use Rattle.dns_octets.specs.Octets.{overwritten};
    ghost use Rattle.dns_code.specs.Header.{header_octets};
    ghost use Rattle.dns_read.specs.Message.{buffer_of, message_octets};
    ghost use Rattle.dns_read.specs.Sections.{additional_count};

    /// Overwrites the first 4 octets with `header`. The counts and all later octets stay.
    pub fn set_header(&mut self, header: Header)
        ensures header { take 4 (message_octets self.new) ≡ header_octets header }
        ensures others { drop 4 (message_octets self.new) ≡ drop 4 (message_octets self.old) }
        ensures loan { Octs.loan (buffer_of self.new) ≡ Octs.loan (buffer_of self.old) }
    {
        self.octets.write_at(0, header.as_slice());
    }

    /// Overwrites octets from `offset` on, which lie after the header section. All others stay.
    pub fn overwrite(&mut self, offset: usize, octets: &[u8])
        requires after_header { header_size ≤ offset }
        requires within { offset + length octets.now ≤ length (message_octets self.old) }
        ensures octets { message_octets self.new
            ≡ overwritten (message_octets self.old) offset octets.now }
        ensures loan { Octs.loan (buffer_of self.new) ≡ Octs.loan (buffer_of self.old) }
    {
        self.octets.write_at(offset, octets);
    }

    /// Lowers ARCOUNT by one, so that the last additional record isn't read any more (RFC 1035
    /// section 4.1.1).
    ///
    /// ARCOUNT must not be 0. All other octets stay, including those of the record.
    pub fn remove_last_additional(&mut self)
        requires { 0 < additional_count (message_octets self.old) }
        ensures count { additional_count (message_octets self.new)
            ≡ additional_count (message_octets self.old) - 1 }
        ensures before { take 10 (message_octets self.new) ≡ take 10 (message_octets self.old) }
        ensures after { drop header_size (message_octets self.new)
            ≡ drop header_size (message_octets self.old) }
        ensures loan { Octs.loan (buffer_of self.new) ≡ Octs.loan (buffer_of self.old) }
    {
        let count = self.header_counts().arcount() - 1;
        self.octets.write_at(10, &count.to_be_bytes());
    }
}

/// Clones the octets. Returns `AllocError` if the clone doesn't have the same octets.
impl<Octs: Octets + Clone> Clone for Message<Octs> {
    ghost use Rattle.dns_octets.specs.Octets.{ClonesSurely};
    ghost use Rattle.dns_read.specs.Message.{buffer_of, message_octets};

    ghost is_clone = { λ message clone. message_octets clone ≡ message_octets message };

    ghost is_infallible = { λ message. ClonesSurely Octs.is_infallible Octs.is_clone Octs.octets
        (buffer_of message) };

    fn clone(&self) -> Result<Self, AllocError> {
        let octets = self.octets.clone()?;
        if octets.octets() != self.as_slice() {
            return Err(AllocError);
        }
        Ok(Message::from_octets_unchecked(octets))
    }
}

impl<Octs: Octets + Copy> Copy for Message<Octs> {}

/// The octets, as the message stores them.
impl<Octs: Octets> AsRef<Octs> for Message<Octs> {
    ghost use Rattle.dns_read.specs.Message.{buffer_of};

    fn as_ref(&self) -> &Octs
        ensures { result.now ≡ buffer_of self.now }
    {
        self.as_octets()
    }
}

/// The octets as a slice.
impl<Octs: Octets> AsSlice<u8> for Message<Octs> {
    ghost use Rattle.dns_read.specs.Message.{message_octets};

    ghost items = { λ message. message_octets message };

    fn as_slice(&self) -> &[u8] {
        self.octets.octets()
    }
}
