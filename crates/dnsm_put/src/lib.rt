//! Builds a message item by item in a buffer of the caller, without allocation.
//!
//! The caller owns the buffer and the `Draft`, the message under construction, and may change both
//! between two calls. So no function here requires anything of them: each one is
//! total and keeps within the buffer, whatever they hold. What a call ensures of a message is said
//! of drafts that calls have made (`IsDraftOf`).
//!
//! Names are compressed by hints: offsets at which earlier names were written. A pointer is written
//! only after the octets at its target were compared with the name. So hints may have any values,
//! and nothing has to be removed from them. A copy of a draft is a mark, to which the caller
//! returns by copying it back.
//!
//! `dnsm` exports these functions to C.
#![tactic(auto)]

mod checked;
mod copies;
mod draft;
mod fields;
mod items;
pub mod laws;
mod names;
mod octets;
mod rdata;
mod responding;
mod response;
mod sets;

ghost use Rattle.std.specs.Prelude.{◌≡◌, ◌⊎◌, ◌<◌, ◌≤◌, length, take, replicate, IfOk, IfErr, OnOk, OnErr};
ghost use Rattle.dns_build.specs.State.{State, with_header, up_to, InBuilder};
ghost use Rattle.dns_build.specs.MessageOf.{ReadsBack, PointsToLabels};
ghost use Rattle.dns_code.specs.HeaderSection.{header_size};
ghost use Rattle.dns_octets.specs.Octets.{overwritten};
ghost use Rattle.dnsm_put.specs.Drafts.{IsDraftOf, header_of, header_octets_of, HasSmallCounts};
ghost use Rattle.dnsm_put.specs.declared.draft.Draft.{Draft};

pub use copies::put_from;
use dns_code::HeaderSection;
use draft::clear;
pub use draft::{Draft, PutError, PutItem};
pub use items::put;
use octets::put_octets;
pub use responding::respond;
pub use response::{ResponseError, begin_response};
pub use sets::put_set;

/// Begins a message without items, in a buffer of at least 12 octets. There is no limit, no octet
/// is reserved, RDATA is checked, and no hint of an older draft is left. Writes nothing to the
/// buffer.
pub fn begin(draft: &mut Draft, out: &[u8], id: u16, flags: u16) -> Result<(), PutError>
    ensures begun { OnOk result ((s : State) → IsDraftOf out.now draft.new (up_to InBuilder s)) }
    ensures header { OnOk result ((draft.new.id ≡ id) × (draft.new.flags ≡ flags)) }
    ensures settings { OnOk result ((draft.new.limit ≡ usize.MAX) × (draft.new.reserved ≡ 0)
        × (draft.new.unchecked ≡ 0)) }
    ensures section { OnOk result (draft.new.section ≡ 0) }
    ensures hints { OnOk result (draft.new.hints ≡ replicate 64 0) }
    ensures no_room { IfErr result (λ error. (error ≡ PutError.NoRoom)
        × (length out.now < header_size)) }
    ensures same { OnErr result (draft.new ≡ draft.old) }
{
    if out.len() < HeaderSection::LEN {
        return Err(PutError::NoRoom);
    }
    clear(draft, id, flags);
    Ok(())
}

/// The header section of a draft.
fn header_section(draft: &Draft) -> [u8; HeaderSection::LEN]
    ensures octets { result ≡ header_octets_of draft.now }
    ensures small { HasSmallCounts draft.now }
{
    let [a, b] = draft.id.to_be_bytes();
    let [c, d] = draft.flags.to_be_bytes();
    let [e, f] = draft.counts[0].to_be_bytes();
    let [g, h] = draft.counts[1].to_be_bytes();
    let [i, j] = draft.counts[2].to_be_bytes();
    let [k, l] = draft.counts[3].to_be_bytes();
    [a, b, c, d, e, f, g, h, i, j, k, l]
}

/// Writes the header section. Returns the length of the message in octets. More items may be put
/// afterwards. Fails only if the draft's length is less than 12 or exceeds the buffer.
pub fn finish(draft: &Draft, out: &mut [u8]) -> Result<usize, PutError>
    ensures read { IfOk result (λ len. (s : State) → IsDraftOf out.old draft.now s
        → ReadsBack (with_header (header_of draft.now) s) (take len out.new)) }
    ensures pointed { IfOk result (λ len. (s : State) → IsDraftOf out.old draft.now s
        → PointsToLabels s (take len out.new)) }
    ensures len { IfOk result (λ len. len ≡ draft.now.len) }
    ensures within { IfOk result (λ len. len ≤ length out.new) }
    ensures none { OnErr result ((s : State) → IsDraftOf out.old draft.now s → ⊥) }
    ensures long { IfOk result (λ len. header_size ≤ len) }
    ensures no_room { IfErr result (λ error. (error ≡ PutError.NoRoom)
        × ((draft.now.len < header_size) ⊎ (length out.old < draft.now.len))) }
    ensures written { OnOk result
        (out.new ≡ overwritten out.old 0 (header_octets_of draft.now)) }
    ensures same { OnErr result (out.new ≡ out.old) }
    ensures length { length out.new ≡ length out.old }
    ensures stay { (d : Draft) (s : State) → IsDraftOf out.old d s → IsDraftOf out.new d s }
{
    if draft.len < HeaderSection::LEN || draft.len > out.len() {
        return Err(PutError::NoRoom);
    }
    let _header = put_octets(out, 0, HeaderSection::LEN, &header_section(draft));
    Ok(draft.len)
}
