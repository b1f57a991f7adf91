//! The RDATA of a record with its names uncompressed.
ghost use Rattle.std.specs.Prelude.{◌≡◌, ◌≢◌, ◌++◌, ℕ, List, Err, IfErr, IfOk, OnOk};
ghost use Rattle.dns_wire.specs.Parts.{Part};
ghost use Rattle.fields_table.specs.Data.{parts_of};
ghost use Rattle.fields_table.specs.DataOrders.{octets_of_parts, part_octets};
ghost use Rattle.fields_table.specs.EncodedFields.{part_of};
ghost use Rattle.dnsm_status.specs.Codes.{number_of};
ghost use Rattle.dnsm_read.specs.DataFields.{IsDataIn, UncompressesTo, LacksData};
ghost use Rattle.dnsm_status.specs.CallerBuffers.{Holds};

use crate::data_fields::fields;
use crate::walk::Item;
use dnsm_status::CallError;
use dnsm_status::sink::{End, START, append_octets};
use fields_records::laws::fields_are_all;
use fields_table::{Encoded, FieldData};

/// Appends a field, uncompressed.
fn append_field(field: &Encoded<'_>, out: &mut [u8], end: End) -> End
    ensures { (octets : List ℕ) → Holds out.old octets end
        → Holds out.new (octets ++ part_octets (part_of field.now)) result }
{
    match field {
        Encoded::Octets(octets) => append_octets(octets, out, end),
        Encoded::Name(name) | Encoded::UncompressedName(_, name) => {
            append_octets(name.uncompressed().as_slice(), out, end)
        }
    }
}

/// Writes all fields, uncompressed.
fn write_fields(data: &FieldData<'_>, out: &mut [u8]) -> End
    ensures { Holds out.new (octets_of_parts (parts_of data.now)) result }
{
    fields_are_all();
    let mut end = START;
    for field in data.fields() {
        end = append_field(&field.encoded, out, end);
    }
    end
}

/// Writes the RDATA of a record with its names uncompressed, at most 65,535 octets, as a new record
/// of its class and type has it. A question has none.
pub fn data_octets(octets: &[u8], item: &Item, out: &mut [u8]) -> Result<End, CallError>
    ensures question { item.now.section ≡ 0 → result ≡ Err CallError.BadSection }
    ensures octets { IfOk result (λ end. (copy : List ℕ) × UncompressesTo octets.now item.now copy
        × Holds out.new copy end) }
    ensures none { IfErr result (λ fault. item.now.section ≢ 0
        → LacksData octets.now item.now (number_of fault)) }
{
    fields_are_all();
    let (_, data) = fields(octets, item)?;
    Ok(write_fields(&data, out))
}

/// Checks that the RDATA of a record is that of its type. A question has none.
pub fn check_data(octets: &[u8], item: &Item) -> Result<(), CallError>
    ensures question { item.now.section ≡ 0 → result ≡ Err CallError.BadSection }
    ensures there { OnOk result ((parts : List Part) × IsDataIn octets.now item.now parts) }
    ensures none { IfErr result (λ fault. item.now.section ≢ 0
        → LacksData octets.now item.now (number_of fault)) }
{
    let _found = fields(octets, item)?;
    Ok(())
}
