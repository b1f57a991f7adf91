//! OPT records (RFC 6891 section 6.1).
ghost use Rattle.std.specs.Prelude.{◌≡◌, ◌≢◌, ◌<◌, ◌≤◌, ◌+◌, length, take};
ghost use Rattle.dns_code.specs.HeaderSection.{header_size};
ghost use Rattle.dns_edns.specs.Options.{OptionBegins, encode_option};
ghost use Rattle.dnsm_status.specs.CallerBuffers.{WritesOctets};
ghost use Rattle.dnsm_status.specs.Codes.{number_of};
ghost use Rattle.dnsm_read.specs.DataFields.{data_end};
ghost use Rattle.dnsm_read.specs.OnlyOpts.{IsOnlyOpt, LacksOpt, whole_rcode};
ghost use Rattle.dnsm_read.specs.Opts.{HasFields, HoldsOpt, IsInData, IsOpt, LacksOption, data_from, option_at};

use dnsm_read::{Item, Opt, OptOption, find_opt, opts};
use dnsm_status::{CallError, buffers, code};

/// Reads the fields of an OPT record that are in its class and its TTL.
#[unsafe(no_mangle)]
pub extern "C" fn dnsm_opt_fields(item: &Item, opt: &mut Opt) -> u32
    ensures fields { result ≡ 0
        → IsOpt item.now × HasFields item.now.class item.now.ttl opt.new }
    ensures not_opt { result ≢ 0 → (result ≡ number_of CallError.NotOpt) × (IsOpt item.now → ⊥) }
    ensures unchanged { result ≢ 0 → opt.new ≡ opt.old }
{
    match opts::fields(item) {
        Ok(fields) => {
            *opt = fields;
            0
        }
        Err(fault) => code::of_fault(fault),
    }
}

/// Finds the only OPT record of a message, whose owner must be the root, and reads its fields. It may
/// be anywhere in the additional section. `rcode` gets twelve bits: the upper eight of the record, and
/// the lower four of the header.
#[unsafe(no_mangle)]
pub extern "C" fn dnsm_find_opt(
    message: &[u8],
    opt: &mut Opt,
    item: &mut Item,
    rcode: &mut u16,
) -> u32
    ensures item { result ≡ 0 → IsOnlyOpt message.now item.new }
    ensures fields { result ≡ 0 → HasFields item.new.class item.new.ttl opt.new }
    ensures rcode { result ≡ 0 → rcode.new ≡ whole_rcode message.now item.new }
    ensures short { length message.now < header_size
        → result ≡ number_of CallError.ShortInput }
    ensures none { result ≢ 0 → LacksOpt message.now result }
    ensures unchanged { result ≢ 0 → (opt.new ≡ opt.old) × (item.new ≡ item.old)
        × (rcode.new ≡ rcode.old) }
{
    match find_opt::find_opt(message) {
        Ok(found) => {
            *opt = found.opt;
            *item = found.item;
            *rcode = found.rcode;
            0
        }
        Err(fault) => code::of_fault(fault),
    }
}

/// The TTL of an OPT record with these fields.
#[unsafe(no_mangle)]
pub extern "C" fn dnsm_opt_ttl(opt: &Opt) -> u32
    ensures { HasFields opt.now.udp_size result opt.now }
{
    opts::ttl(opt)
}

/// Reads the option at offset `place` of an OPT record's RDATA, and moves `place` past it. Returns 0
/// with an option, 1 at the end of the RDATA, otherwise the number of the error, also for an offset
/// outside of the RDATA.
#[unsafe(no_mangle)]
pub extern "C" fn dnsm_next_option(
    message: &[u8],
    item: &Item,
    place: &mut usize,
    option: &mut OptOption,
) -> u32
    ensures opt { result ≤ 1 → HoldsOpt message.now item.now × IsInData item.now place.old }
    ensures option { result ≡ 0 → OptionBegins (option_at message.now option.new)
        (data_from message.now item.now place.old) (data_from message.now item.now place.new) }
    ensures within { result ≡ 0 → (place.old < place.new) × (place.new ≤ data_end item.now) }
    ensures data { result ≡ 0 → option.new.«data» + option.new.data_len ≡ place.new }
    ensures end { result ≡ 1 → place.new ≡ data_end item.now }
    ensures none { result ≢ 0 → result ≢ 1 → LacksOption message.now item.now place.old result }
    ensures unchanged { result ≢ 0 → (place.new ≡ place.old) × (option.new ≡ option.old) }
{
    code::of(opts::next_option(message, item, place, option))
}

/// Writes an option: its code, the length of its octets, and the octets.
#[unsafe(no_mangle)]
pub extern "C" fn dnsm_option_octets(code: u16, data: &[u8], out: &mut [u8], len: &mut usize) -> u32
    ensures writes { WritesOctets out.old out.new len.new result }
    ensures option { result ≡ 0 → take len.new out.new
        ≡ encode_option (record { code = code; octets = «data».now }) }
    ensures no_room { result ≡ number_of CallError.NoRoom → (length out.old < length «data».now + 4)
        × (len.new ≡ length «data».now + 4) }
    ensures long { result ≢ 0 → result ≢ number_of CallError.NoRoom
        → (result ≡ number_of CallError.LongData) × (65535 < length «data».now) }
{
    match opts::option(code, data, out) {
        Ok(end) => buffers::finish_octets(end, out, len),
        Err(fault) => buffers::refuse(fault, len),
    }
}
