//! The text of a name.
ghost use Rattle.std.specs.Prelude.{IfOk, IfErr};
ghost use Rattle.dns_name.specs.Names.{Labels, NameAt};
ghost use Rattle.dns_name.specs.NameTexts.{dotted_text};
ghost use Rattle.dns_name.specs.ParsedName.{labels};
ghost use Rattle.dnsm_status.specs.CallerBuffers.{Holds};
ghost use Rattle.dnsm_status.specs.Codes.{number_of};
ghost use Rattle.dnsm_read.specs.Names.{LacksName};

use crate::walk::name_at;
use dns_name::{ParsedName, write_dotted_name};
use dnsm_status::CallError;
use dnsm_status::sink::{End, START, Sink};

/// Writes the name at offset `place`, with a dot after each label.
pub fn name(octets: &[u8], place: usize, out: &mut [u8]) -> Result<End, CallError>
    ensures text { IfOk result (λ end. (name : Labels) × NameAt octets.now place name
        × Holds out.new (dotted_text name) end) }
    ensures none { IfErr result (λ fault. LacksName octets.now place (number_of fault)) }
{
    let name = name_at(octets, place)?;
    Ok(write_name(&name, out))
}

/// Writes a name with a dot after each label.
pub(crate) fn write_name(name: &ParsedName<'_>, out: &mut [u8]) -> End
    ensures { Holds out.new (dotted_text (labels name.now)) result }
{
    let mut sink = Sink { out, end: START };
    let Ok(()) = write_dotted_name(&mut sink, name) else {
        unreachable!()
    };
    sink.end
}
