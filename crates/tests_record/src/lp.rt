//! LP: a data type of the test's own, proved against the contracts alone.
ghost use Rattle.std.specs.Prelude.{[], ◌∷◌, false};
ghost use Rattle.std.proofs.Common.{rules};
ghost use Rattle.std.specs.Int.{to_be_bytes, w16};
ghost use Rattle.dns_message.specs.Data.{Octets, UncompressedName, Fixed, UncompressedDomainName, End, only};

use crate::asserts::{
    assert_answer, assert_canonical_data, assert_data, assert_holds, first_data, message_of,
    name_of,
};
use crate::fields::{compose_fields, number_of};
use dns_message::code::{Class, Rtype};
use dns_message::data::laws::names_are_bounded;
use dns_message::data::{ComposeRecordData, ParseRecordData, RecordData};
use dns_message::name::{ParsedName, ToName};
use dns_message::record::{Record, Ttl};
use dns_message::target::Composer;
use dns_message::wire::{AppendError, FormError, ParseError, Parser};

/// A preference, and a name that has locators (RFC 6742 section 2.4).
///
/// The name has no pointer, neither when it is written nor when it is read, and keeps its letter
/// case in canonical form (RFC 3597 sections 4 and 7).
#[derive(Drop)]
struct Lp<N> {
    preference: u16,
    fqdn: N,
}

impl<N: ToName> RecordData for Lp<N> {
    ghost rtype_of = { λ _. 107 };

    ghost parts = { λ lp. Octets (to_be_bytes w16 lp.preference) ∷ UncompressedName false (N.name lp.fqdn) ∷ [] };

    fn rtype(&self) -> Rtype {
        Rtype::from_int(107)
    }
}

impl<N: ToName> ComposeRecordData for Lp<N> {
    #[tactic(auto, unfolding(dns_message::specs::Data::encode_parts))]
    fn compose_rdata<T: Composer>(&self, target: &mut T) -> Result<(), AppendError> {
        names_are_bounded();
        let fqdn = self.fqdn.as_parsed().uncompressed();
        compose_fields(&self.preference.to_be_bytes(), &[fqdn.as_slice()], target)
    }

    /// The name keeps its letter case, so its canonical form is what is written.
    #[tactic(auto, unfolding(dns_message::specs::Data::encode_parts))]
    fn compose_canonical_rdata<T: Composer>(&self, target: &mut T) -> Result<(), AppendError> {
        self.compose_rdata(target)
    }
}

impl<'a> ParseRecordData<'a> for Lp<ParsedName<'a>> {
    ghost layout = { only 107 (Fixed 2 (UncompressedDomainName false false End)) };

    fn parse_rdata(rtype: Rtype, parser: &mut Parser<'a>) -> Result<Option<Self>, ParseError> {
        if rtype != Rtype::from_int(107) {
            return Ok(None);
        }
        let mut ahead = *parser;
        let preference = number_of(ahead.peek(2)?);
        ahead.advance(2)?;
        let start = ahead.pos();
        let fqdn = ParsedName::parse(&mut ahead)?;
        if ahead.pos().checked_sub(start) != Some(fqdn.compose_len()) {
            return Err(ParseError::Form(FormError::BAD_POINTER));
        }
        *parser = ahead;
        Ok(Some(Lp { preference, fqdn }))
    }

    ghost laid_out = { Prim.search rules };
}

/// An answer with the LP record of Example., uncompressed.
const MESSAGE: &[u8; 46] =
    b"\x00\x00\x00\x00\x00\x00\x00\x01\x00\x00\x00\x00\x07Example\x00\x00\x6B\x00\x01\x00\x00\x0E\x10\x00\x0F\x00\x0A\x03L64\x07Example\x00";

/// The RDATA.
const RDATA: &[u8] = b"\x00\x0A\x03L64\x07Example\x00";

/// Its name is never compressed, and keeps its letter case in canonical form.
#[test]
fn composes_its_name_as_it_is(rt: HostRuntime) {
    let lp = Lp {
        preference: 10,
        fqdn: name_of(&rt, b"\x03L64\x07Example\x00"),
    };
    assert_canonical_data(&rt, "canonical form", &lp, RDATA);
    let owner = name_of(&rt, b"\x07Example\x00");
    let record = Record::new(owner, Class::IN, Ttl::HOUR, lp);
    assert_answer(&rt, rt.alloc(), "an answer", record, MESSAGE);
}

#[test]
fn reads_its_own_data_back(rt: HostRuntime) {
    let message = message_of(&rt, MESSAGE);
    let lp: Lp<ParsedName<'_>> = first_data(&rt, &message);
    assert_data(&rt, "the data of a message", &lp, RDATA);
}

#[test]
fn refuses_a_pointer(rt: HostRuntime) {
    // A root at offset 0, then the RDATA, whose name ends with a pointer to that root.
    let mut parser = Parser::new(b"\x00\x00\x0A\x03L64\xC0\x00");
    parser.advance(1).expect(&rt, "an octet");
    let error = Lp::parse_rdata(Rtype::from_int(107), &mut parser).err();
    let is_form = error == Some(ParseError::Form(FormError::BAD_POINTER));
    assert_holds(&rt, "a pointer", is_form);
}
