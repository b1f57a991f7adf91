//! Proved callers that change TTLs in place. Messages are in the cases of `cases_runs`.
ghost use Rattle.std.specs.Prelude.{◌≡◌, ◌↔◌, IsFalse, IsTrue, OnOk, max};
ghost use Rattle.dns_read.specs.Message.{message_octets};
ghost use Rattle.dns_edit.specs.Acceptance.{AcceptsTtls};
ghost use Rattle.dns_edit.specs.Edits.{ChangesTtls};
ghost use Rattle.dns_edit.specs.Readings.{ReadsAlike};
ghost use Rattle.dns_edit.specs.Ttls.{changed};
ghost use Rattle.dns_edit.specs.declared.change.TtlChange.TheVariants.{Age};
ghost use Rattle.dns_edit.specs.Fields.{NamesAreFields, NamesAreOfFields};
ghost use Rattle.tests_read.specs.Ttls.{IsCheap, KeepsNames, KeepsData};

use crate::asserts::{assert_holds, assert_octets};
use dns_code::Ttl;
use dns_edit::laws::{
    names_are_fields, names_follow_few, names_read_alike, never_both, rdata_reads_alike,
};
use dns_edit::{EditError, age_ttls, is_regular, map_ttls};
use dns_read::Message;

/// Lowers the TTLs of a response. Returns whether they can be changed in place.
fn lowers_ttls(response: &mut Message<Vec<u8>>, age: u32) -> bool
    ensures { IsTrue result ↔ AcceptsTtls (message_octets response.old) }
{
    never_both();
    age_ttls(response, age).is_ok()
}

/// Lowers the TTLs of a response, whose names then read as before.
fn lowers_under_names(response: &mut Message<Vec<u8>>, age: u32) -> Result<(), EditError>
    ensures { OnOk result (KeepsNames (message_octets response.old)
        (message_octets response.new)) }
{
    names_read_alike();
    age_ttls(response, age)
}

/// Lowers the TTLs of a response, whose RDATA then reads as before.
fn lowers_under_data(response: &mut Message<Vec<u8>>, age: u32) -> Result<(), EditError>
    ensures { OnOk result (KeepsData (message_octets response.old)
        (message_octets response.new)) }
{
    rdata_reads_alike();
    age_ttls(response, age)
}

/// Raises each TTL of less than a minute to a minute.
fn raises_ttls(response: &mut Message<Vec<u8>>) -> Result<(), EditError>
    ensures { OnOk result (ReadsAlike (λ ttl. max ttl 60) (message_octets response.old)
        (message_octets response.new)) }
{
    map_ttls(response, |ttl| Ttl::from_secs(ttl.as_secs().max(60)))
}

/// Lowers the TTLs of a response in the caller's buffer. Returns whether they can be changed in
/// place.
fn lowers_in_buffer(response: &mut [u8], age: u32) -> bool
    ensures lowered { IsTrue result → ChangesTtls (changed (Age age)) response.old response.new }
    ensures kept { IsFalse result → response.new ≡ response.old }
{
    if response.len() < 12 {
        return false;
    }
    let mut message = Message::from_octets_unchecked(response);
    age_ttls(&mut message, age).is_ok()
}

/// Which names in RDATA are looked at follows from the fields of the record types.
fn knows_the_names()
    ensures types { NamesAreFields }
    ensures others { NamesAreOfFields }
{
    names_are_fields();
}

/// Whether few pointers are followed to read the first question's name and the first owner, as a
/// server asks first.
fn is_cheap(query: &Message<&[u8]>) -> bool
    ensures { IsTrue result → IsCheap (message_octets query.now) }
{
    names_follow_few();
    is_regular(query)
}

/// A response: the address of `example.com`, with a TTL of an hour.
const RESPONSE: [u8; 45] = [
    0, 0, 129, 160, 0, 1, 0, 1, 0, 0, 0, 0, 7, 101, 120, 97, 109, 112, 108, 101, 3, 99, 111, 109,
    0, 0, 1, 0, 1, 192, 12, 0, 1, 0, 1, 0, 0, 14, 16, 0, 4, 203, 0, 113, 1,
];

#[test]
fn lowers_ttls_on_the_stack(rt: HostRuntime) {
    let mut buffer = [0; 512];
    buffer[..45].copy_from_slice(&RESPONSE);
    let mut expected = buffer;
    // 3,100 seconds are left
    expected[37] = 0x0C;
    expected[38] = 0x1C;
    let mut message = Message::from_octets(&mut buffer[..]).expect(&rt, "a message");
    let lowered = age_ttls(&mut message, 500).is_ok();
    assert_holds(&rt, "a response on the stack", lowered);
    assert_octets(&rt, "its octets", &buffer, &expected);
}
