//! Names in presentation format (RFC 1035 section 5.1).
ghost use Rattle.std.specs.Prelude.{◌≡◌, IfOk, IfErr};
ghost use Rattle.dns_name.specs.NameReading.{name_labels};
ghost use Rattle.dns_name.specs.NameTexts.{SpellsName};
ghost use Rattle.dnsm_text.specs.Texts.{SpellsNoName};

use arrayvec::ArrayVec;
use dns_name::Name;
use dnsm_status::CallError;
use std::str::FromStr;

/// A name that owns its octets.
pub type Text = Name<ArrayVec<u8, 255>>;

/// Parses a name in presentation format.
pub fn name_of(octets: &[u8]) -> Result<Text, CallError>
    ensures name { IfOk result (λ name. SpellsName octets.now (name_labels name)) }
    ensures none { IfErr result (λ fault. (fault ≡ CallError.BadText) × SpellsNoName octets.now) }
{
    let Ok(text) = std::str::from_utf8(octets) else {
        return Err(CallError::BadText);
    };
    match Text::from_str(text) {
        Ok(name) => Ok(name),
        Err(_) => Err(CallError::BadText),
    }
}
