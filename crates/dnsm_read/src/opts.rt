//! OPT records (RFC 6891 section 6.1).
ghost use Rattle.std.specs.Prelude.{◌≡◌, ◌≢◌, ◌+◌, ◌<◌, ◌≤◌, length, true, IfErr, IfNone, IfOk, IfSome, Ok};
ghost use Rattle.dns_code.specs.Bits.{number_in};
ghost use Rattle.dns_edns.specs.Options.{OptionBegins, encode_option};
ghost use Rattle.dnsm_status.specs.Codes.{number_of};
ghost use Rattle.dnsm_read.specs.DataFields.{data_end};
ghost use Rattle.dnsm_read.specs.Opts.{BeginsNoOption, HasFields, HoldsOpt, IsInData, IsOpt, LacksOption, data_from, option_at};
ghost use Rattle.dnsm_status.specs.CallerBuffers.{Holds};

use crate::data_fields::data_end;
use crate::sections::ADDITIONAL;
use crate::walk::Item;
use dns_iana::Rtype;
use dns_wire::MAX_OCTETS;
use dnsm_status::CallError;
use dnsm_status::sink::{End, START, append_octets};

/// The fields of an OPT record that are in its class and its TTL.
#[repr(C)]
#[derive(Clone, Copy)]
pub struct Opt {
    /// The most octets of a UDP payload that the sender can receive.
    pub udp_size: u16,
    /// DO is the most significant bit. The others are Z.
    pub flags: u16,
    /// The upper eight bits of the extended rcode.
    pub rcode_high: u8,
    /// The version of EDNS.
    pub version: u8,
}

/// An option of an OPT record.
#[repr(C)]
#[derive(Clone, Copy)]
pub struct OptOption {
    /// The offset of its octets.
    pub data: usize,
    pub code: u16,
    pub data_len: u16,
}

/// Whether the item is an OPT record.
pub(crate) fn is_opt(item: &Item) -> bool
    ensures yes { result ≡ true → IsOpt item.now }
    ensures no { IsOpt item.now → result ≡ true }
{
    item.rtype == Rtype::OPT.to_int() && item.section == ADDITIONAL
}

/// The fields in a class and a TTL.
pub(crate) fn fields_in(class: u16, ttl: u32) -> Opt
    ensures { HasFields class ttl result }
{
    Opt {
        udp_size: class,
        flags: (ttl % 0x1_0000) as u16,
        rcode_high: (ttl / 0x100_0000) as u8,
        version: (ttl / 0x1_0000 % 0x100) as u8,
    }
}

/// The fields of an OPT record.
pub fn fields(item: &Item) -> Result<Opt, CallError>
    ensures fields { IfOk result (λ opt. IsOpt item.now
        × HasFields item.now.class item.now.ttl opt) }
    ensures none { IfErr result (λ fault. (fault ≡ CallError.NotOpt) × (IsOpt item.now → ⊥)) }
{
    if !is_opt(item) {
        return Err(CallError::NotOpt);
    }
    Ok(fields_in(item.class, item.ttl))
}

/// The TTL of an OPT record with these fields.
pub fn ttl(opt: &Opt) -> u32
    ensures { HasFields opt.now.udp_size result opt.now }
{
    u32::from(opt.rcode_high) * 0x100_0000
        + u32::from(opt.version) * 0x1_0000
        + u32::from(opt.flags)
}

/// The code and the length of the first option, `None` if no whole option begins the octets.
fn first_option(octets: &[u8]) -> Option<(u16, u16)>
    ensures there { IfSome result (λ found. 4 ≤ length octets.now) }
    ensures code { IfSome result (λ found. found.0 ≡ number_in octets.now 0) }
    ensures size { IfSome result (λ found. found.1 ≡ number_in octets.now 2) }
    ensures within { IfSome result (λ found. 4 + found.1 ≤ length octets.now) }
    ensures none { IfNone result (BeginsNoOption octets.now) }
{
    if octets.len() < 4 {
        return None;
    }
    let code = u16::from_be_bytes([octets[0], octets[1]]);
    let len = u16::from_be_bytes([octets[2], octets[3]]);
    if usize::from(len) > octets.len() - 4 {
        return None;
    }
    Some((code, len))
}

/// Reads the option at offset `place`, and moves `place` past it. Returns `Ok(false)` if `place` is
/// at the end of the RDATA.
pub fn next_option(
    octets: &[u8],
    item: &Item,
    place: &mut usize,
    option: &mut OptOption,
) -> Result<bool, CallError>
    ensures opt { IfOk result (λ given. HoldsOpt octets.now item.now
        × IsInData item.now place.old) }
    ensures option { IfOk result (λ given. given ≡ true → OptionBegins
        (option_at octets.now option.new)
        (data_from octets.now item.now place.old) (data_from octets.now item.now place.new)) }
    ensures within { IfOk result (λ given. given ≡ true
        → (place.old < place.new) × (place.new ≤ data_end item.now)) }
    ensures data { IfOk result (λ given. given ≡ true
        → option.new.«data» + option.new.data_len ≡ place.new) }
    ensures end { IfOk result (λ given. given ≢ true → place.old ≡ data_end item.now) }
    ensures none { IfErr result (λ fault.
        LacksOption octets.now item.now place.old (number_of fault)) }
    ensures unchanged { result ≢ Ok true → (place.new ≡ place.old) × (option.new ≡ option.old) }
{
    if !is_opt(item) {
        return Err(CallError::NotOpt);
    }
    let end = data_end(octets, item)?;
    if *place < item.data || *place > end {
        return Err(CallError::BadOption);
    }
    if *place == end {
        return Ok(false);
    }
    let Some((code, data_len)) = first_option(&octets[*place..end]) else {
        return Err(CallError::BadOption);
    };
    let data = *place + 4;
    *option = OptOption {
        data,
        code,
        data_len,
    };
    *place = data + usize::from(data_len);
    Ok(true)
}

/// Writes an option: its code, the length of its octets, and the octets.
fn append_option(code: u16, len: u16, data: &[u8], out: &mut [u8]) -> End
    requires { len ≡ length «data».now }
    ensures { Holds out.new (encode_option (record { code = code; octets = «data».now })) result }
{
    let end = append_octets(&code.to_be_bytes(), out, START);
    let end = append_octets(&len.to_be_bytes(), out, end);
    append_octets(data, out, end)
}

/// Writes an option.
pub fn option(code: u16, data: &[u8], out: &mut [u8]) -> Result<End, CallError>
    ensures option { IfOk result (λ end. (length «data».now ≤ 65535) × Holds out.new
        (encode_option (record { code = code; octets = «data».now })) end) }
    ensures long { IfErr result (λ fault. (fault ≡ CallError.LongData)
        × (65535 < length «data».now)) }
{
    if data.len() > MAX_OCTETS {
        return Err(CallError::LongData);
    }
    Ok(append_option(code, data.len() as u16, data, out))
}
