//! Addresses as RDATA (RFC 1035 section 3.4.1, RFC 3596 section 2.2).
ghost use Rattle.std.specs.Prelude.{◌≡◌, ◌↔◌, ◌∷◌, [], IsTrue, length, true, ℕ};
ghost use Rattle.dns_wire.specs.Parts.{Octets};
ghost use Rattle.fields_table.specs.LayoutTypes.{layout_type};
ghost use Rattle.fields_table.specs.UncompressedData.{IsUncompressedData};
ghost use Rattle.dnsm_read.specs.Addresses.{IsAddress};

use dns_iana::Rtype;

/// Whether RDATA is an address: 4 octets of type A, or 16 of type AAAA. In any class these are all
/// fields of the type.
#[inline(always)]
pub fn is_address(rtype: u16, rdata: &[u8]) -> bool
    ensures address { IsTrue result ↔ IsAddress rtype rdata.now }
    ensures fields { result ≡ true → (class : ℕ) → IsUncompressedData
        (layout_type class (length rdata.now) rtype) rdata.now (Octets rdata.now ∷ []) }
{
    let rtype = Rtype::from_int(rtype);
    match rdata.len() {
        4 => rtype == Rtype::A,
        16 => rtype == Rtype::AAAA,
        _ => false,
    }
}
