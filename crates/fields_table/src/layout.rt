//! The record type by whose fields RDATA is read.
ghost use Rattle.std.specs.Prelude.{◌≡◌};
ghost use Rattle.fields_table.specs.LayoutTypes.{layout_type};

use dns_iana::{Class, Rtype};

/// The type whose fields RDATA of `len` octets has in a record of this type and class: the type
/// itself. But it is NULL if the class is NONE or ANY and `len` is 0, as an update deletes or asks
/// by it (RFC 2136 section 2.4).
pub fn layout_type(rtype: Rtype, class: Class, len: usize) -> Rtype
    ensures { result ≡ layout_type class len rtype }
{
    if len == 0 && (class == Class::NONE || class == Class::ANY) {
        return Rtype::NULL;
    }
    rtype
}
