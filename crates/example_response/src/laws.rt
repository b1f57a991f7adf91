//! Theorems on the cases of a zone and on the answers to a question, in the words of the RFCs. Each
//! is the contract of a function that does nothing.
ghost use Rattle.example_response.specs.Laws.{AuthorityEndsAtCuts, CasesAreMeant, NamesAreOnce, NearestCounts};
ghost use Rattle.example_response.specs.Origins.{RecordsAreFromZone};

use dns_message::reply::laws::within_is_suffix;

/// The case of a question says of the zone what RFC 1034 section 4.3.2 says of it.
pub fn cases_are_meant()
    ensures { CasesAreMeant }
{
    within_is_suffix();
}

/// A response has AA exactly if no cut delegates the question.
pub fn authority_ends_at_cuts()
    ensures { AuthorityEndsAtCuts }
{
    within_is_suffix();
}

/// Each record of a response is one of the zone, with another owner only if it answers for a name, or
/// the CNAME record that a DNAME record makes, or the SOA record of denials.
pub fn records_are_from_zone()
    ensures { RecordsAreFromZone }
{
    within_is_suffix();
}

/// No name of an answer is there twice (RFC 2181 section 5): aliases may be loops.
pub fn names_are_once()
    ensures { NamesAreOnce }
{}

/// In a zone in canonical order, what delegates or redirects a question is the nearest to the apex
/// that does so.
pub fn nearest_counts()
    ensures { NearestCounts }
{
    within_is_suffix();
}
