//! Reading questions from texts (RFC 1035 section 5.1).
ghost use Rattle.std.specs.Prelude.{◌≡◌, ℕ, List};
ghost use Rattle.std.specs.Str.Iter.{split_whitespace_rest};
ghost use Rattle.dns_iana.specs.Classes.{SpellsClass};
ghost use Rattle.dns_item.specs.QuestionTexts.{ReadsFields, ReadsQuestionText, ReadsSomeQuestion, ReadsTextAfterName, SpellsNoClass};

use crate::question::Question;
use crate::question_error::{FromStrError, PresentationErrorEnum};
use arrayvec::ArrayVec;
use dns_iana::{Class, Rtype};
use dns_name::Name;
use dns_octets::OctetsFrom;
use std::alloc::Global;
use std::str::{FromStr, SplitWhitespace};

/// Reads the type that follows a class.
fn read_type(class: Class, word: Option<&str>) -> Result<(Rtype, Class), PresentationErrorEnum>
    ensures { (first : List ℕ) → SpellsClass first class → ReadsFields first word.entry result }
{
    let Some(word) = word else {
        return Err(PresentationErrorEnum::MissingQtype);
    };
    match Rtype::from_str(word) {
        Ok(rtype) => Ok((rtype, class)),
        Err(_) => Err(PresentationErrorEnum::BadQtype),
    }
}

/// Reads a type and the class that follows it. Without a second word the class is IN.
fn read_type_first(
    first: &str,
    second: Option<&str>,
) -> Result<(Rtype, Class), PresentationErrorEnum>
    requires { SpellsNoClass first.now }
    ensures { ReadsFields first.now second.entry result }
{
    let Ok(rtype) = Rtype::from_str(first) else {
        return Err(PresentationErrorEnum::BadQtype);
    };
    let Some(second) = second else {
        return Ok((rtype, Class::IN));
    };
    match Class::from_str(second) {
        Ok(class) => Ok((rtype, class)),
        Err(_) => Err(PresentationErrorEnum::BadClass),
    }
}

/// Reads a class and a type, or a type with an optional class.
fn read_fields(first: &str, second: Option<&str>) -> Result<(Rtype, Class), PresentationErrorEnum>
    ensures { ReadsFields first.now second.entry result }
{
    match Class::from_str(first) {
        Ok(class) => read_type(class, second),
        Err(_) => read_type_first(first, second),
    }
}

/// Reads the words after the name.
fn read_after_name(mut words: SplitWhitespace<'_>) -> Result<(Rtype, Class), PresentationErrorEnum>
    ensures { ReadsTextAfterName (split_whitespace_rest words.entry) result }
{
    let Some(first) = words.next() else {
        return Err(PresentationErrorEnum::MissingClassAndQtype);
    };
    let Some(second) = words.next() else {
        return read_fields(first, None);
    };
    let fields = read_fields(first, Some(second))?;
    match words.next() {
        None => Ok(fields),
        Some(_) => Err(PresentationErrorEnum::TrailingData),
    }
}

/// Reads a name, then a type and an optional class, in either order. The words are separated by
/// Unicode white space. Without a class it is IN.
///
/// A malformed text is a `Presentation` error: the leftmost. Reading allocates no memory.
impl FromStr for Question<Name<ArrayVec<u8, 255>>> {
    type Err = FromStrError;

    ghost from_str_gives = { ReadsQuestionText ⊥ };

    fn from_str(text: &str) -> Result<Self, FromStrError> {
        let mut words = text.split_whitespace();
        let Some(word) = words.next() else {
            return Err(FromStrError::of_kind(PresentationErrorEnum::MissingQname));
        };
        let qname = Name::<ArrayVec<u8, 255>>::from_str(word)?;
        match read_after_name(words) {
            Ok((qtype, qclass)) => Ok(Question::new(qname, qtype, qclass)),
            Err(kind) => Err(FromStrError::of_kind(kind)),
        }
    }
}

impl Question<Name<Vec<u8>>> {
    /// Reads a question, with its name in memory from `alloc`. A malformed text is a `Presentation`
    /// error. Otherwise it returns `OutOfMemory` if the allocation fails.
    pub fn vec_from_str(alloc: Global, text: &str) -> Result<Self, FromStrError>
        ensures { ReadsQuestionText (ReadsSomeQuestion text.now) text.now result }
    {
        let question = Question::<Name<ArrayVec<u8, 255>>>::from_str(text)?;
        match Name::try_octets_from(alloc, question.qname()) {
            Ok(qname) => Ok(Question::new(qname, question.qtype(), question.qclass())),
            Err(_) => Err(FromStrError::OutOfMemory),
        }
    }
}
