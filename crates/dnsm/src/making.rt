//! Makes whole messages.
ghost use Rattle.std.specs.Prelude.{◌≡◌, ◌≢◌, ◌+◌, ◌<◌, ◌≤◌, length, take, None, true};
ghost use Rattle.dns_wire.specs.Encoders.{Tree};
ghost use Rattle.dns_code.specs.Header.{fields_in};
ghost use Rattle.dns_code.specs.HeaderSection.{header_size};
ghost use Rattle.dns_item.specs.Questions.{QuestionItem};
ghost use Rattle.dnsm_make.specs.Built.{HasTooMany, IsBuilt, IsUnbuilt, header_of};
ghost use Rattle.dnsm_status.specs.CallerBuffers.{IsLonger, WritesOctets};
ghost use Rattle.dnsm_status.specs.Codes.{number_of};
ghost use Rattle.dnsm_make.specs.Made.{AsksNothing, AsksOne, IsQuery, IsResponse};
ghost use Rattle.dnsm_make.specs.OptQueries.{IsOptQuery, LacksOptQuery};
ghost use Rattle.dnsm_read.specs.Asked.{HoldsQuery};
ghost use Rattle.dnsm_text.specs.Texts.{SpellsNoName};

use dnsm_make::query_opt::{self, Asked};
use dnsm_make::{NewItem, build, make};
use dnsm_read::Opt;
use dnsm_status::{CallError, buffers};
use std::alloc::Global;

/// Writes a query with one question for `name`.
#[unsafe(no_mangle)]
pub extern "C" fn dnsm_query(
    id: u16,
    recursion: bool,
    name: &[u8],
    qtype: u16,
    qclass: u16,
    out: &mut [u8],
    len: &mut usize,
) -> u32
    ensures writes { WritesOctets out.old out.new len.new result }
    ensures query { result ≡ 0
        → IsQuery id recursion name.now qtype qclass (take len.new out.new) }
    ensures no_room { result ≡ number_of CallError.NoRoom
        → IsLonger (IsQuery id recursion name.now qtype qclass) (length out.old) len.new }
    ensures short { result ≡ number_of CallError.NoRoom → length out.old < 512 }
    ensures no_name { result ≢ 0 → result ≢ number_of CallError.NoRoom
        → (result ≡ number_of CallError.BadText) × SpellsNoName name.now }
{
    match make::query(id, recursion, name, qtype, qclass) {
        Ok(made) => buffers::hand_out(made.as_slice(), out, len),
        Err(fault) => buffers::refuse(fault, len),
    }
}

/// Writes a query as `dnsm_query` does, and an OPT record with the fields of `opt`. `options` are
/// the octets of its options.
#[unsafe(no_mangle)]
pub extern "C" fn dnsm_query_opt(
    id: u16,
    recursion: bool,
    name: &[u8],
    qtype: u16,
    qclass: u16,
    opt: &Opt,
    options: &[u8],
    out: &mut [u8],
    len: &mut usize,
) -> u32
    ensures writes { WritesOctets out.old out.new len.new result }
    ensures query { result ≡ 0 → IsOptQuery id recursion name.now qtype qclass opt.now options.now
        (take len.new out.new) }
    ensures no_room { result ≡ number_of CallError.NoRoom → IsLonger
        (IsOptQuery id recursion name.now qtype qclass opt.now options.now)
        (length out.old) len.new }
    ensures short { result ≡ number_of CallError.NoRoom
        → length out.old < length options.now + 282 }
    ensures none { result ≢ 0 → result ≢ number_of CallError.NoRoom
        → LacksOptQuery name.now options.now result }
{
    let asked = Asked {
        name,
        qtype,
        qclass,
    };
    match query_opt::query_opt(id, recursion, &asked, opt, options, out) {
        Ok(end) => buffers::finish_octets(end, out, len),
        Err(fault) => buffers::refuse(fault, len),
    }
}

/// Writes the response to a query for IPv4 addresses: the header, the question and one A record.
#[unsafe(no_mangle)]
pub extern "C" fn dnsm_respond_a(
    query: &[u8],
    authoritative: bool,
    ttl: u32,
    address: &[u8; 4],
    out: &mut [u8],
    len: &mut usize,
) -> u32
    ensures writes { WritesOctets out.old out.new len.new result }
    ensures response { result ≡ 0
        → IsResponse query.now authoritative ttl address.now (take len.new out.new) }
    ensures no_room { result ≡ number_of CallError.NoRoom
        → IsLonger (IsResponse query.now authoritative ttl address.now) (length out.old) len.new }
    ensures short { result ≡ number_of CallError.NoRoom → length out.old < 512 }
    ensures no_question { result ≢ 0 → result ≢ number_of CallError.NoRoom
        → AsksNothing query.now result }
    ensures is_response { header_size ≤ length query.now
        → (fields_in (take 4 query.now)).qr ≡ true → result ≡ number_of CallError.IsResponse }
    ensures other_opcode { HoldsQuery query.now → (fields_in (take 4 query.now)).opcode ≢ 0
        → result ≡ number_of CallError.OtherOpcode }
    ensures other_class { (x : QuestionItem) → AsksOne query.now x → x.class ≢ 1
        → result ≡ number_of CallError.OtherClass }
    ensures other_type { (x : QuestionItem) → AsksOne query.now x → x.class ≡ 1
        → x.rtype ≢ 1 → x.rtype ≢ 255 → result ≡ number_of CallError.OtherType }
{
    match make::respond_a(query, authoritative, ttl, address) {
        Ok(made) => buffers::hand_out(made.as_slice(), out, len),
        Err(fault) => buffers::refuse(fault, len),
    }
}

/// Writes a message with the header and the items, each in its section, with compressed names.
/// Allocates.
#[unsafe(no_mangle)]
pub extern "C" fn dnsm_build(
    alloc: Global,
    id: u16,
    flags: u16,
    items: &[NewItem<'_>],
    out: &mut [u8],
    len: &mut usize,
) -> u32
    ensures writes { WritesOctets out.old out.new len.new result }
    ensures built { result ≡ 0 → IsBuilt Tree id flags items.now (take len.new out.new) }
    ensures no_room { result ≡ number_of CallError.NoRoom
        → IsLonger (IsBuilt Tree id flags items.now) (length out.old) len.new }
    ensures unbuilt { result ≢ 0 → result ≢ number_of CallError.NoRoom
        → IsUnbuilt None true Tree (header_of id flags) items.now result }
    ensures too_many { result ≡ number_of CallError.TooMany → HasTooMany items.now }
{
    match build::build(alloc, id, flags, items) {
        Ok(made) => buffers::hand_out(made.as_slice(), out, len),
        Err(fault) => buffers::refuse(fault, len),
    }
}
