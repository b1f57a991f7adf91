//! Splitting off options (RFC 6891 section 6.1.2).
ghost use Rattle.dns_edns.specs.Splitting.{Splits};

use dns_iana::OptionCode;

/// The code and the octets of the first option, and the octets after it. `None` if the octets don't
/// begin with a whole option.
pub(crate) fn split_option(octets: &[u8]) -> Option<(OptionCode, &[u8], &[u8])>
    ensures { Splits octets.now result }
{
    let [code_high, code_low, high, low, after @ ..] = octets else {
        return None;
    };
    let len = usize::from(u16::from_be_bytes([*high, *low]));
    let (option, after) = after.split_at_checked(len)?;
    let code = OptionCode::from_int(u16::from_be_bytes([*code_high, *code_low]));
    Some((code, option, after))
}
