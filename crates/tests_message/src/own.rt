//! A record type of one's own as a list of fields: an example of the module `fields` of
//! `dns_message`.
ghost use Rattle.std.specs.Prelude.{map};
ghost use Rattle.dns_message.specs.Data.{ParsesTaken, only};
ghost use Rattle.dns_message.specs.Fields.{own_parts_of};
ghost use Rattle.tests_message.specs.Hosts.{host_layout};
ghost use Rattle.tests_message.specs.declared.own.TheConstants.{FIELDS};

use crate::asserts::{assert_holds, assert_octets};
use arrayvec::ArrayVec;
use dns_message::code::Rtype;
use dns_message::data::ParseRecordData;
use dns_message::fields::{DataOf, Kind, RecordFields, Value};
use dns_message::message::Message;
use dns_message::wire::{Octets, ParseError, Parser};

const FIELDS: &[(&str, Kind)] = &[("weight", Kind::Number16), ("host", Kind::PlainName)];

/// A host and its weight, by a number for private use (RFC 6895 section 3.1).
struct WeightedHost;

impl RecordFields for WeightedHost {
    ghost number = { 65280 };

    ghost defined = { map (λ f. (f.0.now, f.1)) FIELDS.now };

    fn number() -> Rtype {
        Rtype::from_int(65280)
    }

    fn fields() -> &'static [(&'static str, Kind)] {
        FIELDS
    }
}

/// Reads a host and its weight. Returns `None` for any other type.
#[tactic(auto, unfolding(dns_message::specs::Fields::layout_of))]
fn read_host<'a>(
    rtype: Rtype,
    parser: &mut Parser<'a>,
) -> Result<Option<DataOf<'a, WeightedHost>>, ParseError>
    ensures { ParsesTaken (λ _. 65280) own_parts_of (only 65280 host_layout rtype) rtype
        parser.old parser.new result }
{
    DataOf::parse_rdata(rtype, parser)
}

/// The greatest weight in the answer section, of the hosts before the first malformed one. Returns
/// 0 if there is none.
fn greatest_weight<Octs: Octets>(message: &Message<Octs>) -> u64 {
    let mut greatest = 0;
    let Ok(answers) = message.answer() else {
        return greatest;
    };
    for record in answers.limit_to::<DataOf<'_, WeightedHost>>() {
        let Ok(record) = record else {
            return greatest;
        };
        for field in record.data().fields() {
            if let Value::Number(weight) = field.value() {
                greatest = greatest.max(weight);
            }
        }
    }
    greatest
}

/// Three hosts of the root, with weights of 2, 5 and 3.
const HOSTS: &[u8] =
    b"\x00\x00\x00\x00\x00\x00\x00\x03\x00\x00\x00\x00\x00\xFF\x00\x00\x01\x00\x00\x00\x3C\x00\x05\x00\x02\x01a\x00\x00\xFF\x00\x00\x01\x00\x00\x00\x3C\x00\x05\x00\x05\x01b\x00\x00\xFF\x00\x00\x01\x00\x00\x00\x3C\x00\x05\x00\x03\x01c\x00";

/// A host, after the header section.
const HOST: &[u8; 36] =
    b"\x00\x00\x00\x00\x00\x00\x00\x01\x00\x00\x00\x00\x07example\x00\xFF\x00\x00\x01\x00\x00\x00\x3C\x00\x05\x00\x02\x01a\x00";

#[test]
fn reads_and_composes_hosts(rt: HostRuntime) {
    let message = Message::from_slice(HOSTS).expect(&rt, "a message");
    let greatest = greatest_weight(&message);
    assert_holds(&rt, "the greatest weight", greatest == 5);
    let message = Message::from_slice(HOST).expect(&rt, "a message");
    let answers = message.answer().expect(&rt, "answers");
    let host = answers.limit_to::<DataOf<'_, WeightedHost>>().next();
    let host = host.expect(&rt, "a record").expect(&rt, "a host");
    let mut target = ArrayVec::<u8, 64>::new();
    host.compose(&mut target).expect(&rt, "room");
    let octets: &[u8] = HOST;
    assert_octets(&rt, "a host", &target, &octets[12..]);
}
