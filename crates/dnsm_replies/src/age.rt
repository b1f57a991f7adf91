//! Lowers the TTLs of a message in the caller's buffer.
ghost use Rattle.std.specs.Prelude.{◌≡◌, ◌≤◌, length, IfErr, OnErr, OnOk};
ghost use Rattle.dns_code.specs.HeaderSection.{header_size};
ghost use Rattle.dns_edit.specs.Acceptance.{IsRegular};
ghost use Rattle.dns_edit.specs.Edits.{ChangesTtls};
ghost use Rattle.dns_edit.specs.Readings.{ReadsAlike};
ghost use Rattle.dns_edit.specs.Ttls.{changed};
ghost use Rattle.dns_edit.specs.declared.change.TtlChange.TheVariants.{Age};
ghost use Rattle.dnsm_status.specs.Codes.{number_of};
ghost use Rattle.dnsm_replies.specs.Ages.{IsReportedEdit, RefusesAge, ReportsEdit};

use dns_code::HeaderSection;
use dns_edit::{EditError, age_ttls};
use dns_read::Message;
use dnsm_status::{CallError, code};

/// Lowers each TTL by `seconds`, but not below 0. OPT, TSIG, TKEY and SIG records stay.
pub fn age(octets: &mut [u8], seconds: u32) -> Result<(), CallError>
    ensures changes { OnOk result (ChangesTtls (changed (Age seconds)) octets.old octets.new) }
    ensures reads { OnOk result (ReadsAlike (changed (Age seconds)) octets.old octets.new) }
    ensures regular { OnOk result (IsRegular octets.old) }
    ensures long { OnOk result (header_size ≤ length octets.old) }
    ensures refused { IfErr result (λ fault. RefusesAge octets.old (number_of fault)) }
    ensures kept { OnErr result (octets.new ≡ octets.old) }
{
    if octets.len() < HeaderSection::LEN {
        return Err(CallError::ShortInput);
    }
    let mut message = Message::from_octets_unchecked(octets);
    match age_ttls(&mut message, seconds) {
        Ok(()) => Ok(()),
        Err(error) => Err(fault_of_edit(error)),
    }
}

/// The fault that reports why TTLs can't be changed.
fn fault_of_edit(error: EditError) -> CallError
    ensures { IsReportedEdit error → ReportsEdit error (number_of result) }
{
    match error {
        EditError::Parse(error) => code::of_error(error),
        EditError::Pointer => CallError::BadPointer,
        EditError::NotLast | EditError::OptionLength => CallError::Form,
    }
}
