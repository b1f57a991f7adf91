//! HINFO: a data type of the test's own, proved against the contracts alone.
ghost use Rattle.std.proofs.Common.{rules};
ghost use Rattle.std.specs.Prelude.{[], ◌∷◌};
ghost use Rattle.dns_message.specs.Data.{Octets, CharacterString, End, only};

use crate::asserts::{assert_answer, assert_data, first_data, message_of, name_of};
use crate::char_str::{CharStr, string};
use crate::fields::compose_fields;
use dns_message::code::{Class, Rtype};
use dns_message::data::{ComposeRecordData, ParseRecordData, RecordData};
use dns_message::record::{Record, Ttl};
use dns_message::target::Composer;
use dns_message::wire::{AppendError, ParseError, Parser};

/// The CPU type and the operating system of a host (RFC 1035 section 3.3.2).
#[derive(Clone, Copy)]
pub struct Hinfo<'a> {
    cpu: CharStr<'a>,
    os: CharStr<'a>,
}

impl RecordData for Hinfo<'_> {
    ghost rtype_of = { λ _. 13 };

    ghost parts = { λ hinfo. Octets hinfo.cpu.octets.now ∷ Octets hinfo.os.octets.now ∷ [] };

    fn rtype(&self) -> Rtype {
        Rtype::from_int(13)
    }
}

impl ComposeRecordData for Hinfo<'_> {
    fn compose_rdata<T: Composer>(&self, target: &mut T) -> Result<(), AppendError> {
        compose_fields(self.cpu.as_slice(), &[self.os.as_slice()], target)
    }

    fn compose_canonical_rdata<T: Composer>(&self, target: &mut T) -> Result<(), AppendError> {
        self.compose_rdata(target)
    }
}

impl<'a> ParseRecordData<'a> for Hinfo<'a> {
    ghost layout = { only 13 (CharacterString (CharacterString End)) };

    fn parse_rdata(rtype: Rtype, parser: &mut Parser<'a>) -> Result<Option<Self>, ParseError> {
        if rtype != Rtype::from_int(13) {
            return Ok(None);
        }
        let mut ahead = *parser;
        let cpu = CharStr::parse(&mut ahead)?;
        let os = CharStr::parse(&mut ahead)?;
        *parser = ahead;
        Ok(Some(Hinfo { cpu, os }))
    }

    ghost laid_out = { Prim.search rules };
}

/// An answer with the HINFO record of host.example., a DEC-2060 with TOPS20.
const MESSAGE: &[u8; 52] =
    b"\x00\x00\x00\x00\x00\x00\x00\x01\x00\x00\x00\x00\x04host\x07example\x00\x00\x0D\x00\x01\x00\x00\x0E\x10\x00\x10\x08DEC-2060\x06TOPS20";

#[test]
fn composes_its_strings_and_reads_them_back(rt: HostRuntime) {
    let hinfo = Hinfo {
        cpu: string(&rt, b"\x08DEC-2060"),
        os: string(&rt, b"\x06TOPS20"),
    };
    let owner = name_of(&rt, b"\x04host\x07example\x00");
    let record = Record::new(owner, Class::IN, Ttl::HOUR, hinfo);
    assert_answer(&rt, rt.alloc(), "an answer", record, MESSAGE);
    let message = message_of(&rt, MESSAGE);
    let hinfo: Hinfo<'_> = first_data(&rt, &message);
    let rdata = b"\x08DEC-2060\x06TOPS20";
    assert_data(&rt, "the data of a message", &hinfo, rdata);
}
