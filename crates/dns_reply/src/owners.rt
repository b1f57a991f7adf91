//! Which records count, by their owner, type and class (RFC 1034 section 3.1, RFC 1035 sections
//! 3.2.3 and 3.2.5).
ghost use Rattle.std.specs.Prelude.{◌≡◌};
ghost use Rattle.dns_item.specs.ParsedRecord.{encoded_record};
ghost use Rattle.dns_item.specs.Question.{parsed_question};
ghost use Rattle.dns_name.specs.ParsedName.{labels};
ghost use Rattle.dns_reply.specs.Owners.{is_within, is_below, asks_for_type, asks_for_all, asks_for_mail, asks_for_class, is_asked_for};

use dns_iana::{Class, Rtype};
use dns_item::{ParsedRecord, Question};
use dns_name::ParsedName;

/// Whether a name is `other` or below it.
pub(crate) fn is_within(name: &ParsedName<'_>, other: &ParsedName<'_>) -> bool
    ensures { result ≡ is_within (labels name.now) (labels other.now) }
{
    name.ends_with(other)
}

/// Whether a name is below `other`.
pub(crate) fn is_below(name: &ParsedName<'_>, other: &ParsedName<'_>) -> bool
    ensures { result ≡ is_below (labels name.now) (labels other.now) }
{
    is_within(name, other) && name != other
}

/// Whether QTYPE asks for records of a type.
fn asks_for_type(qtype: Rtype, rtype: Rtype) -> bool
    ensures { result ≡ asks_for_type qtype rtype }
{
    rtype == qtype || asks_for_all(qtype) || asks_for_mail(qtype, rtype)
}

/// Whether QTYPE asks for records of all types.
fn asks_for_all(qtype: Rtype) -> bool
    ensures { result ≡ asks_for_all qtype }
{
    qtype == Rtype::ANY || qtype == Rtype::IXFR || qtype == Rtype::AXFR
}

/// Whether QTYPE asks for several types, and this is one: for mailboxes, or for mail agents.
fn asks_for_mail(qtype: Rtype, rtype: Rtype) -> bool
    ensures { result ≡ asks_for_mail qtype rtype }
{
    (qtype == Rtype::MAILB && (rtype == Rtype::MB || rtype == Rtype::MG || rtype == Rtype::MR))
        || (qtype == Rtype::MAILA && (rtype == Rtype::MD || rtype == Rtype::MF))
}

/// Whether QCLASS asks for records of a class.
pub(crate) fn asks_for_class(qclass: Class, class: Class) -> bool
    ensures { result ≡ asks_for_class qclass class }
{
    class == qclass || qclass == Class::ANY
}

/// Whether a record is one that the question asks for of a name.
pub(crate) fn is_asked_for(
    question: &Question<ParsedName<'_>>,
    name: &ParsedName<'_>,
    candidate: &ParsedRecord<'_>,
) -> bool
    ensures { result ≡ is_asked_for (parsed_question question.now) (labels name.now)
        (encoded_record candidate.now) }
{
    candidate.owner() == *name
        && asks_for_type(question.qtype(), candidate.rtype())
        && asks_for_class(question.qclass(), candidate.class())
}
