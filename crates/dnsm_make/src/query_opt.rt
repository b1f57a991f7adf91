//! Queries with an OPT record (RFC 6891 section 6.1.1), written to the caller's buffer.
ghost use Rattle.std.specs.Prelude.{◌≡◌, ◌+◌, ◌≤◌, ◌++◌, ℕ, List, length, IfOk, IfErr, OnOk};
ghost use Rattle.dns_name.specs.NameReading.{name_labels};
ghost use Rattle.dns_wire.specs.Encoders.{Plain, nothing};
ghost use Rattle.dns_item.specs.Questions.{QuestionItem, encode_question};
ghost use Rattle.dns_item.specs.Items.{RecordItem, IsRecord, encode_record};
ghost use Rattle.dns_code.specs.Header.{fields_in};
ghost use Rattle.dns_build.specs.State.{head_of};
ghost use Rattle.dnsm_status.specs.CallerBuffers.{Holds};
ghost use Rattle.dnsm_status.specs.Codes.{number_of};
ghost use Rattle.dnsm_make.specs.OptQueries.{IsOptQuery, LacksOptQuery, asking_with, opt_record};

use crate::make::query_header;
use dns_edns::are_options;
use dns_iana::Rtype;
use dns_wire::MAX_OCTETS;
use dnsm_read::{Opt, opts};
use dnsm_status::CallError;
use dnsm_status::sink::{End, START, append_octets};
use dnsm_text::names::{Text, name_of};

/// What a query asks for: a name in presentation format, a type and a class.
#[derive(Drop)]
pub struct Asked<'a> {
    pub name: &'a [u8],
    pub qtype: u16,
    pub qclass: u16,
}

/// Writes the header section of a message with one question and one additional record: the four
/// octets of its header, and the counts.
fn append_head(header: &[u8], out: &mut [u8]) -> End
    requires { length header.now ≡ 4 }
    ensures { (x : QuestionItem) (opt : RecordItem) → Holds out.new
        (head_of (asking_with (fields_in header.now) x opt)).octets result }
{
    let end = append_octets(header, out, START);
    append_octets(&[0, 1, 0, 0, 0, 0, 0, 1], out, end)
}

/// Appends a question.
fn append_question(name: &Text, qtype: u16, qclass: u16, out: &mut [u8], end: End) -> End
    ensures { let x : QuestionItem
        = record { name = name_labels name.now; rtype = qtype; class = qclass } in
        (octets : List ℕ) → Holds out.old octets end → Holds out.new
        (octets ++ (encode_question Plain x nothing 0).octets) result }
{
    let end = append_octets(name.as_slice(), out, end);
    let end = append_octets(&qtype.to_be_bytes(), out, end);
    append_octets(&qclass.to_be_bytes(), out, end)
}

/// Appends an OPT record: the root as its owner, its type, its other fields, and its options.
fn append_opt(opt: &Opt, ttl: u32, options: &[u8], out: &mut [u8], end: End) -> End
    requires { length options.now ≤ MAX_OCTETS }
    ensures opt { (octets : List ℕ) → Holds out.old octets end → Holds out.new (octets
        ++ (encode_record Plain (opt_record opt.now ttl options.now) nothing 0).octets) result }
    ensures is_record { IsRecord (opt_record opt.now ttl options.now) }
{
    let len = options.len() as u16;
    let end = append_octets(&[0], out, end);
    let end = append_octets(&Rtype::OPT.to_int().to_be_bytes(), out, end);
    let end = append_octets(&opt.udp_size.to_be_bytes(), out, end);
    let end = append_octets(&ttl.to_be_bytes(), out, end);
    let end = append_octets(&len.to_be_bytes(), out, end);
    append_octets(options, out, end)
}

/// Writes a query with an OPT record. `options` are the octets of its options.
pub fn query_opt(
    id: u16,
    recursion: bool,
    asked: &Asked<'_>,
    opt: &Opt,
    options: &[u8],
    out: &mut [u8],
) -> Result<End, CallError>
    ensures made { IfOk result (λ end. (octets : List ℕ) × Holds out.new octets end
        × IsOptQuery id recursion asked.now.name.now asked.now.qtype asked.now.qclass opt.now
        options.now octets × (length octets ≤ length options.now + 282)) }
    ensures few { OnOk result (length options.now ≤ MAX_OCTETS) }
    ensures none { IfErr result (λ fault.
        LacksOptQuery asked.now.name.now options.now (number_of fault)) }
{
    let name = name_of(asked.name)?;
    if options.len() > MAX_OCTETS {
        return Err(CallError::LongData);
    }
    if !are_options(options) {
        return Err(CallError::BadOption);
    }
    let end = append_head(query_header(id, recursion).as_slice(), out);
    let end = append_question(&name, asked.qtype, asked.qclass, out, end);
    Ok(append_opt(opt, opts::ttl(opt), options, out, end))
}
