//! Begins the response to any query: its header, its question, and what its OPT record says (RFC
//! 1035 section 4.1.1, RFC 6891 section 6.1).
ghost use Rattle.std.specs.Prelude.{◌≡◌, ◌⊎◌, ◌<◌, ◌≤◌, ℕ, List, length, option_map, IfOk, IfErr, OnOk, OnErr, true, false};
ghost use Rattle.dns_code.specs.Header.{fields};
ghost use Rattle.dns_item.specs.OptRecord.{opt_item};
ghost use Rattle.dns_build.specs.Responses.{response_rcode};
ghost use Rattle.dns_build.specs.State.{State};
ghost use Rattle.dnsm_put.specs.Drafts.{IsDraftOf, header_of};
ghost use Rattle.dnsm_put.specs.Responses.{rank_of};
ghost use Rattle.dnsm_put.specs.Responding.{RefusesQuery, Responds, Wants, opt_answering, reserved_for};

use crate::begin;
use crate::draft::Draft;
use crate::response::{ResponseError, begin_response, numbers_in, response_header};
use dns_code::Header;
use dns_item::OptRecord;
use dns_read::Message;
use dns_reply::has_many_opts;
use dnsm_read::Opt;

/// The rcode FORMERR.
const FORMERR: u16 = 1;

/// The extended rcode BADVERS.
const BADVERS: u16 = 16;

/// How many extended rcodes there are.
const RCODES: u16 = 4096;

/// The octets that each UDP client can receive.
const PLAIN: u16 = 512;

/// The octets of an OPT record without options.
const OPT_OCTETS: usize = 11;

/// DO among the flags of an OPT record.
const DNSSEC_OK: u16 = 0x8000;

/// Whether there is no response with a question, but one without.
fn lacks_question(error: &ResponseError) -> bool
    ensures yes { result ≡ true → (2 ≤ rank_of error.now) × (rank_of error.now < 4) }
    ensures no { result ≡ false → (rank_of error.now < 2) ⊎ (rank_of error.now ≡ 4) }
{
    match error {
        ResponseError::ShortInput => false,
        ResponseError::IsResponse => false,
        ResponseError::NoQuestion => true,
        ResponseError::BadQuestion(_cause) => true,
        ResponseError::NoRoom => false,
    }
}

/// Begins a draft with the question of a query, if it has exactly one, which can be read, or else
/// without a question. Returns the rcode that the response has by that.
fn begin_asked(
    draft: &mut Draft,
    out: &mut [u8],
    query: &[u8],
    rcode: u16,
) -> Result<u16, ResponseError>
    ensures wants { IfOk result (λ wanted. Wants query.now rcode out.new draft.new wanted) }
    ensures small { IfOk result (λ wanted. wanted < 4096) }
    ensures settings { OnOk result ((draft.new.limit ≡ usize.MAX) × (draft.new.unchecked ≡ 0)) }
    ensures section { OnOk result (draft.new.section ≡ 0) }
    ensures refused { IfErr result (λ error. RefusesQuery query.now (length out.old) error) }
    ensures same { OnErr result ((draft.new ≡ draft.old) × (out.new ≡ out.old)) }
    ensures length { length out.new ≡ length out.old }
{
    let Err(error) = begin_response(draft, out, query, 0) else {
        return Ok(rcode % RCODES);
    };
    if !lacks_question(&error) {
        return Err(error);
    }
    match begin(draft, out, 0, 0) {
        Ok(()) => Ok(FORMERR),
        Err(_error) => Err(ResponseError::NoRoom),
    }
}

/// The rcode of a response to a query that has many OPT records or not, and the one `asked`.
fn response_rcode(many_opts: bool, asked: &Option<OptRecord<&[u8]>>, wanted: u16) -> u16
    ensures same { result ≡ response_rcode wanted many_opts (option_map opt_item asked.now) }
    ensures small { wanted < 4096 → result < 4096 }
{
    if many_opts {
        return FORMERR;
    }
    match asked {
        Some(opt) => { if opt.version() == 0 { wanted } else { BADVERS } }
        None => wanted,
    }
}

/// The OPT record that answers the one `asked`.
fn opt_answering(rcode: u16, asked: &Option<OptRecord<&[u8]>>) -> Opt
    requires { rcode < 4096 }
    ensures { result ≡ opt_answering rcode (option_map opt_item asked.now) }
{
    match asked {
        Some(asked) => Opt {
            udp_size: asked.udp_payload_size().max(PLAIN),
            flags: if asked.dnssec_ok() { DNSSEC_OK } else { 0 },
            rcode_high: (rcode / 16) as u8,
            version: 0,
        },
        None => Opt {
            udp_size: 0,
            flags: 0,
            rcode_high: 0,
            version: 0,
        },
    }
}

/// The octets to keep free for it.
fn reserved_for(asked: &Option<OptRecord<&[u8]>>) -> usize
    ensures { result ≡ reserved_for (option_map opt_item asked.now) }
{
    match asked {
        Some(_asked) => OPT_OCTETS,
        None => 0,
    }
}

/// Gives a draft this header.
pub(crate) fn set_header(draft: &mut Draft, header: Header)
    ensures header { header_of draft.new ≡ fields header }
    ensures same { draft.new ≡ record draft.old {
      id = draft.new.id;
      flags = draft.new.flags;
    } }
{
    let (id, flags) = numbers_in(header.as_slice());
    draft.id = id;
    draft.flags = flags;
}

/// Begins the response to any query: with its question, if it has exactly one, which can be read.
/// The header has its ID, opcode, RD and CD, QR set, the low four bits of the rcode, and no other
/// flag. Returns the rcode and what the OPT record of the response says, which is all 0 if the query
/// has none. Octets are reserved for it.
///
/// The rcode is, the first that applies: FORMERR if the query has more than one OPT record (RFC 6891
/// section 6.1.1), BADVERS if the version of its OPT record is above 0 (section 6.1.3), FORMERR if
/// there is no such question, and else the low twelve bits of `rcode`.
///
/// There is no limit, and RDATA is checked.
pub fn respond(
    draft: &mut Draft,
    out: &mut [u8],
    query: &[u8],
    rcode: u16,
) -> Result<(u16, Opt), ResponseError>
    ensures responds { IfOk result (λ begun.
        Responds query.now rcode out.new draft.new begun.0 begun.1) }
    ensures settings { OnOk result ((draft.new.limit ≡ usize.MAX) × (draft.new.unchecked ≡ 0)) }
    ensures section { OnOk result (draft.new.section ≡ 0) }
    ensures refused { IfErr result (λ error. RefusesQuery query.now (length out.old) error) }
    ensures same { OnErr result ((draft.new ≡ draft.old) × (out.new ≡ out.old)) }
    ensures length { length out.new ≡ length out.old }
{
    let Ok(message) = Message::from_slice(query) else {
        return Err(ResponseError::ShortInput);
    };
    let wanted = match begin_asked(draft, out, query, rcode) {
        Ok(wanted) => wanted,
        Err(error) => return Err(error),
    };
    let asked = message.opt();
    let rcode = response_rcode(has_many_opts(&message), &asked, wanted);
    set_header(draft, response_header(message.header(), rcode));
    draft.reserved = reserved_for(&asked);
    Ok((rcode, opt_answering(rcode, &asked)))
}
