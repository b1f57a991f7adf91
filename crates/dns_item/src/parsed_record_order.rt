//! Equality of records whose RDATA isn't parsed (RFC 1035 section 4.1.3).
ghost use Rattle.std.specs.Prelude.{◌≡◌, option_map};
ghost use Rattle.std.proofs.Common.{rules};
ghost use Rattle.std.specs.Cmp.Rules.{comparing};
ghost use Rattle.dns_item.specs.ParsedRecordOrders.{raw_data, same_raw_data, parsed_records_equal};

use crate::parsed_record::ParsedRecord;

/// By header and the octets of the RDATA. Owners compare ignoring ASCII case.
///
/// Pointers in the RDATA aren't followed, so the same name compressed in two ways is different. If
/// the RDATA isn't all there, as `ParsedRecord::new` allows, records are equal only if this is so
/// in both.
impl PartialEq for ParsedRecord<'_> {
    ghost eq = { parsed_records_equal };

    ghost laws = { Prim.search (comparing, rules) depth 9 };

    fn eq(&self, other: &Self) -> bool {
        self.header == other.header && same_octets(self.raw_data(), other.raw_data())
    }
}

impl Eq for ParsedRecord<'_> {
    ghost laws = { Prim.search (comparing, rules) depth 9 };
}

impl<'a> ParsedRecord<'a> {
    /// The octets of the RDATA, or `None` if they aren't all there.
    fn raw_data(&self) -> Option<&'a [u8]>
        ensures { option_map (λ octets. octets.now) result ≡ raw_data self.now }
    {
        match self.data.peek(usize::from(self.header.rdlen())) {
            Ok(octets) => Some(octets),
            Err(_) => None,
        }
    }
}

/// Whether the octets are the same, or missing in both.
fn same_octets(first: Option<&[u8]>, second: Option<&[u8]>) -> bool
    ensures { result ≡ same_raw_data (option_map (λ octets. octets.now) first.entry)
        (option_map (λ octets. octets.now) second.entry) }
{
    match (first, second) {
        (Some(first), Some(second)) => first == second,
        (None, None) => true,
        _ => false,
    }
}
