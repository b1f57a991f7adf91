//! RDATA with its RDLENGTH (RFC 1035 section 4.1.3).
ghost use Rattle.std.specs.Prelude.{◌≡◌, ◌+◌, ◌-◌, ◌≤◌, length, OnOk};
ghost use Rattle.std.specs.Int.{to_be_bytes, w16};
ghost use Rattle.dns_wire.specs.Encoders.{IsClear, with_length};
ghost use Rattle.dns_wire.specs.Parts.{encode_parts};
ghost use Rattle.dns_wire.specs.Targets.{Composes, overwrite};
ghost use Rattle.dns_data.specs.RecordData.{IsData, canonical};

use crate::record_data::ComposeRecordData;
use dns_octets::AppendError;
use dns_wire::Composer;

/// Appends RDLENGTH, the number of octets of the RDATA as written, and then the RDATA.
///
/// On error the content still begins with the old content. A `truncate` to the old length restores
/// the old target.
pub fn compose_len_rdata<D: ComposeRecordData, T: Composer>(
    data: &D,
    target: &mut T,
) -> Result<(), AppendError>
    ensures composes { Composes T.capacity T.grows
        (with_length (encode_parts T.rule (D.parts «data».now)))
        (T.written target.old) (T.written target.new) result }
    ensures is_data { OnOk result (IsData (D.parts «data».now)) }
{
    let offset = target.as_slice().len();
    target.append_slice(&[0, 0])?;
    data.compose_rdata(target)?;
    write_length(target, offset);
    Ok(())
}

/// Appends the RDATA in canonical form after its RDLENGTH (RFC 4034 section 6.2). Errors are as for
/// `compose_len_rdata`.
pub fn compose_canonical_len_rdata<D: ComposeRecordData, T: Composer>(
    data: &D,
    target: &mut T,
) -> Result<(), AppendError>
    ensures { Composes T.capacity T.grows (with_length
        (encode_parts T.rule (canonical (D.parts «data».now)))) (T.written target.old)
        (T.written target.new) result }
{
    let offset = target.as_slice().len();
    target.append_slice(&[0, 0])?;
    data.compose_canonical_rdata(target)?;
    write_length(target, offset);
    Ok(())
}

/// Writes the number of octets after the two at offset `offset` into these two.
///
/// RDATA has at most 65,535 octets, so the other octets of `len` are zero.
fn write_length<T: Composer>(target: &mut T, offset: usize)
    requires within { offset + 2 ≤ length (T.written target.old).octets }
    requires clear { IsClear (T.written target.old).table offset 2 }
    ensures { T.written target.new ≡ overwrite offset
        (to_be_bytes w16 (length (T.written target.old).octets - (offset + 2)))
        (T.written target.old) }
{
    let len = target.as_slice().len() - (offset + 2);
    let [.., high, low] = len.to_be_bytes();
    target.write_at(offset, &[high, low]);
}
