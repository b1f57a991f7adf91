//! Conversions of questions between types of names.
ghost use Rattle.dns_item.specs.Question.{qname_of};
ghost use Rattle.dns_item.specs.QuestionConversions.{KeepsQuestion};

use crate::question::Question;
use dns_name::FlattenInto;
use dns_octets::{AppendError, OctetsFrom};
use std::alloc::Global;

/// Converts the name. The type and the class stay.
impl<S, N: OctetsFrom<S>> OctetsFrom<Question<S>> for Question<N> {
    ghost keeps = { KeepsQuestion N.keeps };

    ghost too_long = { λ source. N.too_long (qname_of source) };

    ghost takes_memory = { N.takes_memory };

    fn try_octets_from(alloc: Global, source: Question<S>) -> Result<Self, AppendError> {
        let qtype = source.qtype();
        let qclass = source.qclass();
        match N::try_octets_from(alloc, source.into_qname()) {
            Ok(qname) => Ok(Question::new(qname, qtype, qclass)),
            Err(error) => Err(error),
        }
    }
}

/// Flattens the name. The type and the class stay.
impl<S: FlattenInto<N>, N> FlattenInto<Question<N>> for Question<S> {
    ghost keeps = { KeepsQuestion S.keeps };

    ghost too_long = { λ source. S.too_long (qname_of source) };

    ghost takes_memory = { S.takes_memory };

    fn try_flatten_into(self, alloc: Global) -> Result<Question<N>, AppendError> {
        let qtype = self.qtype();
        let qclass = self.qclass();
        match self.into_qname().try_flatten_into(alloc) {
            Ok(qname) => Ok(Question::new(qname, qtype, qclass)),
            Err(error) => Err(error),
        }
    }
}
