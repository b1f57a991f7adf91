//! Whether a reply can be read.
ghost use Rattle.std.specs.Prelude.{◌≡◌, ◌↔◌, ◌<◌, IsTrue, MatchResult, None, Some, length};
ghost use Rattle.dns_name.specs.Names.{fault_of};
ghost use Rattle.dns_read.specs.Limited.{limited};
ghost use Rattle.dns_read.specs.RecordSection.{records_left};
ghost use Rattle.dns_reply.specs.Records.{first_fault, opt_records, reply_items};

use crate::dname::Dname;
use dns_data::{Cname, Ns, Opt, ParseRecordData, Soa};
use dns_name::ParsedName;
use dns_octets::ParseError;
use dns_read::RecordSection;

/// Checks that all records of the three sections can be read, and the RDATA of those that say
/// something of a question. Returns the first error.
pub(crate) fn check_sections<'a>(
    answers: RecordSection<'a>,
    authorities: RecordSection<'a>,
    additionals: RecordSection<'a>,
) -> Result<(), ParseError>
    ensures { let items = reply_items (records_left answers.entry) (records_left authorities.entry)
        (records_left additionals.entry) in
        MatchResult result (λ _. first_fault items ≡ None)
        (λ e. first_fault items ≡ Some (fault_of e)) }
{
    check::<Cname<ParsedName<'a>>>(answers)?;
    check::<Dname<'a>>(answers)?;
    check::<Soa<ParsedName<'a>>>(authorities)?;
    check::<Ns<ParsedName<'a>>>(authorities)?;
    check::<Opt<&'a [u8]>>(additionals)
}

/// Checks that all records of a section can be read, and the RDATA of those that `D` accepts.
fn check<'a, D: ParseRecordData<'a> + Drop>(section: RecordSection<'a>) -> Result<(), ParseError>
    ensures { let reading = limited D.layout (records_left section.entry) in
        MatchResult result (λ _. first_fault reading ≡ None)
        (λ e. first_fault reading ≡ Some (fault_of e)) }
{
    for item in section.limit_to::<D>() {
        item?;
    }
    Ok(())
}

/// Whether there is more than one OPT record.
pub(crate) fn reads_many_opts<'a>(additionals: RecordSection<'a>) -> bool
    ensures { IsTrue result ↔ (1 < length (opt_records (records_left additionals.entry))) }
{
    let mut opts = additionals.limit_to::<Opt<&'a [u8]>>();
    let _first = opts.next();
    opts.next().is_some()
}
