//! PTR: a record data type of one's own, the example of the module `data` of `dns_message`.
ghost use Rattle.std.specs.Prelude.{[], ◌∷◌, refl};
ghost use Rattle.dns_message.specs.Data.{CompressibleName, DomainName, End, only};

use crate::asserts::{assert_holds, assert_octets};
use arrayvec::ArrayVec;
use dns_message::builder::MessageBuilder;
use dns_message::code::Rtype;
use dns_message::data::laws::{names_are_bounded, parts_compose};
use dns_message::data::{ComposeRecordData, ParseRecordData, RecordData};
use dns_message::name::{Name, ParsedName, ToName, ToNameExt};
use dns_message::target::{Composer, StaticCompressor};
use dns_message::wire::{AppendError, ParseError, Parser};

/// The RDATA of a PTR record: a name (RFC 1035 section 3.3.12).
#[derive(Clone, Copy, Debug, Drop)]
struct Ptr<N>(N);

impl<N: ToName> RecordData for Ptr<N> {
    ghost rtype_of = { λ _. 12 };

    ghost parts = { λ ptr. CompressibleName (N.name ptr.0) ∷ [] };

    fn rtype(&self) -> Rtype {
        Rtype::PTR
    }
}

impl<N: ToName> ComposeRecordData for Ptr<N> {
    fn compose_rdata<T: Composer>(&self, target: &mut T) -> Result<(), AppendError> {
        parts_compose();
        names_are_bounded();
        target.append_compressed_name(&self.0)
    }

    fn compose_canonical_rdata<T: Composer>(&self, target: &mut T) -> Result<(), AppendError> {
        parts_compose();
        self.0.compose_canonical(target)
    }
}

impl<'a> ParseRecordData<'a> for Ptr<ParsedName<'a>> {
    ghost layout = { only 12 (DomainName End) };

    fn parse_rdata(rtype: Rtype, parser: &mut Parser<'a>) -> Result<Option<Self>, ParseError> {
        if rtype != Rtype::PTR {
            return Ok(None);
        }
        Ok(Some(Ptr(ParsedName::parse(parser)?)))
    }

    ghost laid_out = { λ _. refl };
}

/// A PTR record of example.com. that leads to itself, by a pointer.
const ONE_POINTER: &[u8] =
    b"\x00\x00\x00\x00\x00\x00\x00\x01\x00\x00\x00\x00\x07example\x03com\x00\x00\x0C\x00\x01\x00\x00\x00\x3C\x00\x02\xC0\x0C";

#[test]
fn pushes_and_reads_its_own_data(rt: HostRuntime) {
    let name = Name::from_octets(*b"\x07example\x03com\x00").expect(&rt, "a name");
    let target = StaticCompressor::new(ArrayVec::<u8, 64>::new());
    let builder = MessageBuilder::from_target(target).expect(&rt, "room");
    let mut builder = builder.answer();
    let pushed = builder.push((name, 60u32, Ptr(name)));
    pushed.expect(&rt, "room");
    let message = builder.as_message();
    assert_octets(&rt, "one pointer", message.as_slice(), ONE_POINTER);
    let answers = message.answer().expect(&rt, "answers");
    let mut records = answers.limit_to::<Ptr<ParsedName<'_>>>();
    let record = records
        .next()
        .expect(&rt, "a record")
        .expect(&rt, "PTR data");
    let is_one = record.data().0.octets_eq(&name) && records.next().is_none();
    assert_holds(&rt, "the name, and no further record", is_one);
}
