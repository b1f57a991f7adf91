//! The examples of RDATA from native values, which a builder pushes.
ghost use Rattle.std.specs.Prelude.{[], ◌∷◌};
ghost use Rattle.dns_message.specs.Fields.{MakesData};
ghost use Rattle.dns_message.specs.declared.fields.NewValue.TheVariants.{Number, Types};

use crate::asserts::assert_octets;
use arrayvec::ArrayVec;
use dns_message::builder::{AnswerBuilder, MessageBuilder};
use dns_message::code::Rtype;
use dns_message::fields::{NewValue, OwnedFieldData, ValueError, from_values};
use dns_message::make::{https, mx};
use dns_message::name::{Name, ToName};
use dns_message::target::{Composer, StaticCompressor};
use std::alloc::Global;

/// RDATA of CSYNC: the serial, the flags and the types to copy (RFC 7477 section 2.1).
fn csync(
    alloc: Global,
    serial: u32,
    flags: u16,
    types: &[Rtype],
) -> Result<OwnedFieldData, ValueError>
    ensures { MakesData 62 (Number serial ∷ Number flags ∷ Types types.entry ∷ []) result }
{
    let values = [
        NewValue::Number(u64::from(serial)),
        NewValue::Number(u64::from(flags)),
        NewValue::Types(types),
    ];
    from_values(alloc, Rtype::CSYNC, &values)
}

/// Pushes an MX and an HTTPS record, which lead to a host, at port 8443 for HTTPS.
fn push_services<T: Composer, N: ToName, M: ToName>(
    alloc: Global,
    response: &mut AnswerBuilder<T>,
    owner: &N,
    host: &M,
) -> Option<()> {
    let mail = mx(alloc, 10, host).ok()?;
    response.push((owner, 3600u32, mail.as_field_data())).ok()?;
    let port: &[u8] = &[0x20, 0xfb];
    let service = https(alloc, 1, host, &[(3, port)]).ok()?;
    response
        .push((owner, 3600u32, service.as_field_data()))
        .ok()
}

/// At example.com., 10 host.example.com. (RFC 1035 section 3.3.9), priority 1 and port 8443 (RFC
/// 9460 section 2.2), and 66 3 A NS AAAA (RFC 7477 section 2.2).
const ANSWERS: &[u8] =
    b"\x00\x00\x00\x00\x00\x00\x00\x03\x00\x00\x00\x00\x07example\x03com\x00\x00\x0F\x00\x01\x00\x00\x0E\x10\x00\x09\x00\x0A\x04host\xC0\x0C\xC0\x0C\x00\x41\x00\x01\x00\x00\x0E\x10\x00\x1A\x00\x01\x04host\x07example\x03com\x00\x00\x03\x00\x02\x20\xFB\xC0\x0C\x00\x3E\x00\x01\x00\x00\x0E\x10\x00\x0C\x00\x00\x00\x42\x00\x03\x00\x04\x60\x00\x00\x08";

#[test]
fn pushes_made_data(rt: HostRuntime) {
    let alloc = rt.alloc();
    let owner = Name::from_octets(*b"\x07example\x03com\x00").expect(&rt, "a name");
    let host = Name::from_octets(*b"\x04host\x07example\x03com\x00").expect(&rt, "a name");
    let target = StaticCompressor::new(ArrayVec::<u8, 128>::new());
    let builder = MessageBuilder::from_target(target).expect(&rt, "a target");
    let mut response = builder.answer();
    push_services(alloc, &mut response, &owner, &host).expect(&rt, "two records");
    let types = [Rtype::A, Rtype::NS, Rtype::AAAA];
    let copied = csync(alloc, 66, 3, &types).expect(&rt, "CSYNC data");
    response
        .push((&owner, 3600u32, copied.as_field_data()))
        .expect(&rt, "a third record");
    assert_octets(&rt, "the answers", response.as_slice(), ANSWERS);
}
